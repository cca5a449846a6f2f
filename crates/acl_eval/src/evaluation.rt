//! Whether a condition holds: each list is gone through up to the first item that decides.
ghost use Rattle.std.specs.Prelude.{◌≡◌, false, IsOk, IfOk};
ghost use Rattle.std.specs.List.{list_any};
ghost use Rattle.acl_eval.specs.Condition as conditions;

use crate::condition::{Cond, GroupList, Term, TermList, Test, TestList};
use crate::matching::matches_sample;
use px_expr::{Searchers, eval_next};
use px_sample::{Buf, Env, OutOfMemory};

/// Whether some sample of the test matches some value.
fn test_holds<E: Env>(
    searchers: &mut Searchers,
    test: &Test,
    env: &E,
    buf: &mut Buf,
    spare: &mut Buf,
) -> Result<bool, OutOfMemory>
    requires { spare.old.cap ≡ buf.old.cap }
    ensures value { IfOk result (λ truth. truth ≡ conditions.test_holds buf.old.cap (E.samples env.now) test.now) }
    ensures succeeds { conditions.test_holds_pattern test.now ≡ false → IsOk result }
    ensures cap { buf.new.cap ≡ buf.old.cap }
    ensures spare_cap { spare.new.cap ≡ buf.old.cap }
{
    let mut place = env.start(&test.expr.fetch);
    'samples: loop {
        match eval_next(searchers, &test.expr, &mut place, env, buf, spare)? {
            Some(sample) => {
                if matches_sample(searchers, test, sample, buf)? {
                    return Ok(true);
                }
            }
            None => return Ok(false),
        }
    }
}

/// Whether one of the tests holds.
fn some_test_holds<E: Env>(
    searchers: &mut Searchers,
    tests: &TestList,
    env: &E,
    buf: &mut Buf,
    spare: &mut Buf,
) -> Result<bool, OutOfMemory>
    requires { spare.old.cap ≡ buf.old.cap }
    ensures value { IfOk result (λ truth. truth ≡ list_any (conditions.test_holds buf.old.cap (E.samples env.now)) tests.now) }
    ensures succeeds { list_any conditions.test_holds_pattern tests.now ≡ false → IsOk result }
    ensures cap { buf.new.cap ≡ buf.old.cap }
    ensures spare_cap { spare.new.cap ≡ buf.old.cap }
{
    for at in 0..tests.len() {
        if test_holds(searchers, tests.get(at), env, buf, spare)? {
            return Ok(true);
        }
    }
    Ok(false)
}

/// Whether the term holds.
fn term_holds<E: Env>(
    searchers: &mut Searchers,
    term: &Term,
    env: &E,
    buf: &mut Buf,
    spare: &mut Buf,
) -> Result<bool, OutOfMemory>
    requires { spare.old.cap ≡ buf.old.cap }
    ensures value { IfOk result (λ truth. truth ≡ conditions.term_holds buf.old.cap (E.samples env.now) term.now) }
    ensures succeeds { conditions.term_holds_pattern term.now ≡ false → IsOk result }
    ensures cap { buf.new.cap ≡ buf.old.cap }
    ensures spare_cap { spare.new.cap ≡ buf.old.cap }
{
    let truth = some_test_holds(searchers, &term.tests, env, buf, spare)?;
    Ok(turned(term.not, truth))
}

/// A truth that is turned where it is negated.
fn turned(negated: bool, truth: bool) -> bool
    ensures { result ≡ conditions.turned negated truth }
{
    truth != negated
}

/// Whether each term of the group holds.
fn group_holds<E: Env>(
    searchers: &mut Searchers,
    terms: &TermList,
    env: &E,
    buf: &mut Buf,
    spare: &mut Buf,
) -> Result<bool, OutOfMemory>
    requires { spare.old.cap ≡ buf.old.cap }
    ensures value { IfOk result (λ truth. truth ≡ conditions.group_holds buf.old.cap (E.samples env.now) terms.now) }
    ensures succeeds { conditions.group_holds_pattern terms.now ≡ false → IsOk result }
    ensures cap { buf.new.cap ≡ buf.old.cap }
    ensures spare_cap { spare.new.cap ≡ buf.old.cap }
{
    for at in 0..terms.len() {
        if !term_holds(searchers, terms.get(at), env, buf, spare)? {
            return Ok(false);
        }
    }
    Ok(true)
}

/// Whether one of the groups has only terms that hold.
fn some_group_holds<E: Env>(
    searchers: &mut Searchers,
    groups: &GroupList,
    env: &E,
    buf: &mut Buf,
    spare: &mut Buf,
) -> Result<bool, OutOfMemory>
    requires { spare.old.cap ≡ buf.old.cap }
    ensures value { IfOk result (λ truth. truth ≡ list_any (conditions.group_holds buf.old.cap (E.samples env.now)) groups.now) }
    ensures succeeds { list_any conditions.group_holds_pattern groups.now ≡ false → IsOk result }
    ensures cap { buf.new.cap ≡ buf.old.cap }
    ensures spare_cap { spare.new.cap ≡ buf.old.cap }
{
    for at in 0..groups.len() {
        if group_holds(searchers, groups.get(at), env, buf, spare)? {
            return Ok(true);
        }
    }
    Ok(false)
}

/// Whether a condition holds. Samples are made in `buf`, and one of more bytes than `buf` holds is absent. `spare` has the
/// size of `buf`; what the two hold afterwards is left open. Only a pattern takes memory.
pub fn holds<E: Env>(
    searchers: &mut Searchers,
    cond: &Cond,
    env: &E,
    buf: &mut Buf,
    spare: &mut Buf,
) -> Result<bool, OutOfMemory>
    requires { spare.old.cap ≡ buf.old.cap }
    ensures value { IfOk result (λ truth. truth ≡ conditions.holds buf.old.cap (E.samples env.now) cond.now) }
    ensures succeeds { conditions.holds_pattern cond.now ≡ false → IsOk result }
    ensures cap { buf.new.cap ≡ buf.old.cap }
    ensures spare_cap { spare.new.cap ≡ buf.old.cap }
{
    let truth = some_group_holds(searchers, &cond.groups, env, buf, spare)?;
    Ok(turned(cond.unless, truth))
}

//! The lines of `fcgi-param`: a pair of an application, and the rule that tells its value.
ghost use Rattle.std.specs.Prelude.{◌≡◌, ◌<◌, ◌++◌, ◌∷◌, [], length, IfOk, OnOk, OnErr};
ghost use Rattle.http_rules.specs.Valid.{IsParam};
ghost use Rattle.http_rules.specs.Rule.Valid.{IsGoodRule};
ghost use Rattle.http_rules.specs.declared.rule.action.Direction.TheVariants as directions;
ghost use Rattle.cfg_parse.specs.Action.Params.{param_rule};
ghost use Rattle.cfg_parse.specs.Asking.{ReadsLine, of_rule};
ghost use Rattle.cfg_parse.specs.Reading.{Leaves};
ghost use Rattle.cfg_parse.specs.Sound.{IsSound};
ghost use Rattle.cfg_parse.specs.Rules.{tests_of};
ghost use Rattle.cfg_parse.specs.Pairs.{is_among, with_name, has_param_room, param_added, param_line};

use crate::action::read_param;
use crate::arguments::Arguments;
use crate::draft::Draft;
use crate::fault::{CfgKind, LineRefusal};
use crate::limits::{MAX_RULES, MAX_TESTS};
use crate::rule_lines::tests_of;
use crate::waiting::WaitingRules;
use cfg_expr::condition::AclList;
use cfg_expr::is_word;
use http_rules::{Cond, Rule};
use px_link::{Bytes, ItemList, OutOfMemory};
use px_pattern::Patterns;
use std::alloc::Global;

/// The name is among these.
fn is_among(names: &ItemList<Bytes>, name: &[u8]) -> bool
    ensures { result ≡ is_among names.now name.now }
{
    names
        .as_slice()
        .iter()
        .any(|other| is_word(other.as_slice(), name))
}

/// One more name, if it isn't among these.
fn add_name(alloc: Global, names: &mut ItemList<Bytes>, name: &[u8]) -> Result<(), OutOfMemory>
    requires { length names.old < 4294967295 }
    ensures named { OnOk result (names.new ≡ with_name names.old name.now) }
    ensures unchanged { OnErr result (names.new ≡ names.old) }
{
    if is_among(names, name) {
        return Ok(());
    }
    names.push(Bytes::copy(alloc, name)?)
}

/// One more rule behind these, and one more name, or neither.
fn add_both(
    alloc: Global,
    names: &mut ItemList<Bytes>,
    rules: &mut WaitingRules,
    name: &[u8],
    rule: Rule,
) -> Result<(), OutOfMemory>
    requires { length names.old < 4294967295 }
    ensures named { OnOk result (names.new ≡ with_name names.old name.now) }
    ensures ruled { OnOk result (rules.new ≡ rules.old ++ rule ∷ []) }
    ensures unchanged { OnErr result ((names.new ≡ names.old) × (rules.new ≡ rules.old)) }
{
    let count = rules.len();
    rules.push(rule)?;
    match add_name(alloc, names, name) {
        Ok(()) => Ok(()),
        Err(fault) => {
            rules.truncate(count);
            Err(fault)
        }
    }
}

/// One more rule of a pair with this condition fits.
#[tactic(auto, unfolding(crate::specs::Pairs::has_param_room))]
fn has_param_room(draft: &Draft, cond: &Option<Cond>) -> bool
    ensures { result ≡ has_param_room draft.now (tests_of cond.now) }
{
    let tests = tests_of(cond);
    let names = u64::from(draft.application.params.len());
    let rules = draft.param_rules.len() as u64;
    let most = u64::from(MAX_RULES);
    names < most && rules < most - names && tests <= MAX_TESTS && draft.tests <= MAX_TESTS - tests
}

/// One more rule of a pair.
#[tactic(auto, unfolding(crate::specs::Pairs::param_added, crate::specs::Pairs::has_param_room))]
fn add_param(alloc: Global, draft: &mut Draft, name: &[u8], rule: Rule) -> Result<(), LineRefusal>
    ensures leaves { Leaves result draft.new (param_added draft.old name.now rule) }
    ensures unchanged { OnErr result (draft.new ≡ draft.old) }
{
    if !has_param_room(draft, &rule.cond) {
        drop(rule);
        return Err(LineRefusal::Refused(CfgKind::Limit));
    }
    let tests = tests_of(&rule.cond);
    add_both(
        alloc,
        &mut draft.application.params,
        &mut draft.param_rules,
        name,
        rule,
    )?;
    draft.tests += tests;
    Ok(())
}

/// The pair and the rule that the words behind `fcgi-param` say.
#[tactic(auto, using(crate::proofs::LineReadings::parts))]
fn param_of_words<'w, P: Patterns>(
    alloc: Global,
    acls: &AclList,
    arguments: Arguments<'w>,
    pats: &mut P,
) -> Result<(&'w [u8], Rule), LineRefusal>
    ensures reads { ReadsLine (λ found. (found.0.now, found.1)) (of_rule (param_rule acls.now arguments.entry)) (P.refusals pats.old) (P.refusals pats.new) (P.last_refused pats.new) result }
    ensures named { IfOk result (λ found. IsParam found.0.now) }
    ensures good { IfOk result (λ found. IsGoodRule directions.Request found.1) }
{
    match read_param(alloc, acls, arguments.left(), pats) {
        Ok(found) => Ok(found),
        Err(fault) => Err(LineRefusal::from(fault)),
    }
}

/// The words behind `fcgi-param`: one more rule.
#[tactic(auto, using(crate::proofs::LineReadings::parts))]
pub fn read_param_line<P: Patterns>(
    alloc: Global,
    draft: &mut Draft,
    arguments: Arguments<'_>,
    pats: &mut P,
) -> Result<(), LineRefusal>
    ensures reads { ReadsLine (λ nothing. draft.new) (param_line draft.old arguments.entry) (P.refusals pats.old) (P.refusals pats.new) (P.last_refused pats.new) result }
    ensures sound { IsSound draft.old → OnOk result (IsSound draft.new) }
    ensures unchanged { OnErr result (draft.new ≡ draft.old) }
{
    let (name, rule) = match param_of_words(alloc, &draft.acls, arguments, pats) {
        Ok(found) => found,
        Err(refusal) => return Err(refusal),
    };
    add_param(alloc, draft, name, rule)
}

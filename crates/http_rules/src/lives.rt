//! Where the lives of variables begin and end.
ghost use Rattle.std.specs.Prelude.{◌≡◌};
ghost use Rattle.http_rules.specs.Lives as spec;

use px_sample::{Scope, Vars};

/// Before the rules of a request: the variables of the session go on, the others are gone.
pub fn begin_exchange(vars: &mut Vars)
    ensures { vars.new ≡ spec.renewed vars.old }
{
    vars.clear(Scope::Txn);
    vars.clear(Scope::Req);
    vars.clear(Scope::Res);
}

/// Before the first rules on an answer, a reply or a refusal: the variables of the request's rules are gone.
pub fn begin_answer(vars: &mut Vars)
    ensures { vars.new ≡ spec.answering vars.old }
{
    vars.clear(Scope::Req);
    vars.clear(Scope::Res);
}

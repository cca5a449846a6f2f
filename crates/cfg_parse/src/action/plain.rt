//! Actions without formats and patterns.
ghost use Rattle.std.specs.Prelude.{◌≡◌, IfOk, false};
ghost use Rattle.http_rules.specs.declared.rule.action.ActionName.TheVariants as names;
ghost use Rattle.http_rules.specs.Rule.Valid.{IsSetStatus, is_bodiless};
ghost use Rattle.cfg_parse.specs.Action.Faults.{Gives};
ghost use Rattle.cfg_parse.specs.Action.Good.{IsNamed};
ghost use Rattle.cfg_parse.specs.Action.Plain.{denial_of, is_status, denied_with, denied, with_body, is_reason, reasoned, reason_behind, status_set, variable_unset, mode_of, mode_set};

use crate::action::arguments::{argument, code_of, variable_behind};
use crate::action::fault::{RuleFault, RuleKind};
use cfg_expr::condition::WordsLeft;
use cfg_expr::is_word;
use http_rules::rule::{Action, Direction, Text};
use std::alloc::Global;

/// The code of a denial where none is written.
fn denial_of(direction: Direction) -> u16
    ensures { result ≡ denial_of direction }
{
    match direction {
        Direction::Request => 403,
        Direction::Response | Direction::After => 502,
    }
}

/// `status` and `deny_status` are two names of one option.
#[tactic(auto, unfolding(crate::specs::Action::Plain::is_status))]
fn is_status(word: &[u8]) -> bool
    ensures { result ≡ is_status word.now }
{
    is_word(word, b"status") || is_word(word, b"deny_status")
}

/// The code behind the option.
#[tactic(auto, unfolding(crate::specs::Action::Plain::denied_with))]
fn denied_with(words: WordsLeft<'_>) -> Result<(Action, WordsLeft<'_>), RuleFault>
    ensures gives { Gives (λ found. (found.0, found.1)) result (denied_with words.entry) }
    ensures good { IfOk result (λ found. IsNamed names.Deny found.0) }
{
    let (word, others) = argument(words)?;
    let code = code_of(400, 599, word)?;
    Ok((Action::Deny(code), others))
}

/// `deny`, of the words behind it.
#[tactic(auto, unfolding(crate::specs::Action::Plain::denied))]
pub fn denied(
    direction: Direction,
    words: WordsLeft<'_>,
) -> Result<(Action, WordsLeft<'_>), RuleFault>
    ensures gives { Gives (λ found. (found.0, found.1)) result (denied direction words.entry) }
    ensures good { IfOk result (λ found. IsNamed names.Deny found.0) }
{
    let mut others = words.again();
    let Some(word) = others.next() else {
        return Ok((Action::Deny(denial_of(direction)), words));
    };
    if is_status(word) {
        return denied_with(others);
    }
    Ok((Action::Deny(denial_of(direction)), words))
}

/// A status with which a body may be sent.
fn with_body(status: u16) -> Result<u16, RuleFault>
    ensures gives { Gives (λ status. status) result (with_body status) }
    ensures good { IfOk result (λ kept. (kept ≡ status) × (is_bodiless kept ≡ false)) }
{
    if status == 204 || status == 304 {
        return Err(RuleFault::Refused(RuleKind::Argument));
    }
    Ok(status)
}

#[tactic(auto, unfolding(crate::specs::Action::Plain::is_reason))]
fn is_reason(word: &[u8]) -> bool
    ensures { result ≡ is_reason word.now }
{
    is_word(word, b"reason")
}

/// The reason behind its option.
#[tactic(auto, unfolding(crate::specs::Action::Plain::reasoned))]
fn reasoned(
    alloc: Global,
    status: u16,
    words: WordsLeft<'_>,
) -> Result<(Action, WordsLeft<'_>), RuleFault>
    ensures gives { Gives (λ found. (found.0, found.1)) result (reasoned status words.entry) }
    ensures good { IsSetStatus status → IfOk result (λ found. IsNamed names.SetStatus found.0) }
{
    let (reason, others) = argument(words)?;
    let reason = Text::copy(alloc, reason)?;
    Ok((Action::SetStatus(status, Some(reason)), others))
}

/// What stands behind the status.
fn reason_behind(
    alloc: Global,
    status: u16,
    words: WordsLeft<'_>,
) -> Result<(Action, WordsLeft<'_>), RuleFault>
    ensures gives { Gives (λ found. (found.0, found.1)) result (reason_behind status words.entry) }
    ensures good { IsSetStatus status → IfOk result (λ found. IsNamed names.SetStatus found.0) }
{
    let mut others = words.again();
    let Some(word) = others.next() else {
        return Ok((Action::SetStatus(status, None), words));
    };
    if is_reason(word) {
        return reasoned(alloc, status, others);
    }
    Ok((Action::SetStatus(status, None), words))
}

/// `set-status`, of the words behind it.
#[tactic(auto, unfolding(crate::specs::Action::Plain::status_set))]
pub fn status_set(alloc: Global, words: WordsLeft<'_>) -> Result<(Action, WordsLeft<'_>), RuleFault>
    ensures gives { Gives (λ found. (found.0, found.1)) result (status_set words.entry) }
    ensures good { IfOk result (λ found. IsNamed names.SetStatus found.0) }
{
    let (word, others) = argument(words)?;
    let code = code_of(200, 999, word)?;
    let status = with_body(code)?;
    reason_behind(alloc, status, others)
}

/// `unset-var(SCOPE.NAME)`.
#[tactic(auto, unfolding(crate::specs::Action::Plain::variable_unset))]
pub fn variable_unset<'w>(
    alloc: Global,
    word: &[u8],
    words: WordsLeft<'w>,
) -> Result<(Action, WordsLeft<'w>), RuleFault>
    ensures gives { Gives (λ found. (found.0, found.1)) result (variable_unset word.now words.entry) }
    ensures good { IfOk result (λ found. IsNamed names.UnsetVar found.0) }
{
    let (scope, name) = variable_behind(alloc, b"unset-var(", word)?;
    Ok((Action::UnsetVar(scope, name), words))
}

/// `on` or `off`.
#[tactic(auto, unfolding(crate::specs::Action::Plain::mode_of))]
fn mode_of(word: &[u8]) -> Result<bool, RuleFault>
    ensures { Gives (λ on. on) result (mode_of word.now) }
{
    if is_word(word, b"on") {
        Ok(true)
    } else if is_word(word, b"off") {
        Ok(false)
    } else {
        Err(RuleFault::Refused(RuleKind::Argument))
    }
}

/// `strict-mode`, of the words behind it.
#[tactic(auto, unfolding(crate::specs::Action::Plain::mode_set))]
pub fn mode_set(words: WordsLeft<'_>) -> Result<(Action, WordsLeft<'_>), RuleFault>
    ensures gives { Gives (λ found. (found.0, found.1)) result (mode_set words.entry) }
    ensures good { IfOk result (λ found. IsNamed names.StrictMode found.0) }
{
    let (word, others) = argument(words)?;
    let on = mode_of(word)?;
    Ok((Action::StrictMode(on), others))
}

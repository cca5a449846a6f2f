//! Actions on fields.
ghost use Rattle.std.specs.Prelude.{◌≡◌, IfOk};
ghost use Rattle.http_rules.specs.declared.rule.action.Action.TheVariants as actions;
ghost use Rattle.http_rules.specs.declared.rule.action.ActionName.TheVariants as names;
ghost use Rattle.http_rules.specs.Rule.Valid.{IsMadeName, IsGoodDel};
ghost use Rattle.cfg_parse.specs.Action.Faults.{ReadsRule};
ghost use Rattle.cfg_parse.specs.Action.Good.{IsNamed};
ghost use Rattle.cfg_parse.specs.Action.Actions.{named_by, told_by, matched_by, is_match_flag, deleted_matching, deleted_behind, field_deleted, name_and_format, pattern_and_format, made_by, replaced_by, field_at};

use crate::action::arguments::{argument, format_at, made_name_at, name_of, pattern_at};
use crate::action::fault::{RuleFault, RuleKind};
use crate::action::texts::pattern;
use cfg_expr::condition::WordsLeft;
use cfg_expr::{Side, is_word};
use http_rules::rule::{Action, ActionName, DelBy, Fmt, Pat, Text};
use px_pattern::Patterns;
use std::alloc::Global;

/// `NAME FMT`, and the words behind them.
#[tactic(auto, unfolding(crate::specs::Action::Actions::name_and_format))]
fn name_and_format<'w, P: Patterns>(
    alloc: Global,
    side: Side,
    words: WordsLeft<'w>,
    pats: &mut P,
) -> Result<(Text, Fmt, WordsLeft<'w>), RuleFault>
    ensures reads { ReadsRule (λ found. (found.0, found.1, found.2)) (name_and_format side words.entry) (P.refusals pats.old) (P.refusals pats.new) (P.last_refused pats.new) result }
    ensures good { IfOk result (λ found. IsMadeName found.0) }
{
    let (name, others) = made_name_at(alloc, words)?;
    match format_at(alloc, side, others, pats) {
        Ok((fmt, others)) => Ok((name, fmt, others)),
        Err(fault) => {
            drop(name);
            Err(fault)
        }
    }
}

/// `RE FMT`, and the words behind them.
#[tactic(auto, unfolding(crate::specs::Action::Actions::pattern_and_format))]
pub fn pattern_and_format<'w, P: Patterns>(
    alloc: Global,
    side: Side,
    words: WordsLeft<'w>,
    pats: &mut P,
) -> Result<(Pat, Fmt, WordsLeft<'w>), RuleFault>
    ensures { ReadsRule (λ found. (found.0, found.1, found.2)) (pattern_and_format side words.entry) (P.refusals pats.old) (P.refusals pats.new) (P.last_refused pats.new) result }
{
    let (pat, others) = pattern_at(alloc, words, pats)?;
    match format_at(alloc, side, others, pats) {
        Ok((fmt, others)) => Ok((pat, fmt, others)),
        Err(fault) => {
            drop(pat);
            Err(fault)
        }
    }
}

/// The names that `-m` and a word mean.
#[tactic(auto, unfolding(crate::specs::Action::Actions::matched_by))]
fn matched_by<P: Patterns>(
    alloc: Global,
    word: &[u8],
    how: &[u8],
    pats: &mut P,
) -> Result<DelBy, RuleFault>
    ensures reads { ReadsRule (λ by. by) (matched_by word.now how.now) (P.refusals pats.old) (P.refusals pats.new) (P.last_refused pats.new) result }
    ensures good { IfOk result IsGoodDel }
{
    if is_word(how, b"str") {
        Ok(DelBy::Str(name_of(alloc, word)?))
    } else if is_word(how, b"beg") {
        Ok(DelBy::Beg(name_of(alloc, word)?))
    } else if is_word(how, b"end") {
        Ok(DelBy::End(name_of(alloc, word)?))
    } else if is_word(how, b"sub") {
        Ok(DelBy::Sub(name_of(alloc, word)?))
    } else if is_word(how, b"reg") {
        Ok(DelBy::Reg(pattern(alloc, word, pats)?))
    } else {
        Err(RuleFault::Refused(RuleKind::Argument))
    }
}

#[tactic(auto, unfolding(crate::specs::Action::Actions::is_match_flag))]
fn is_match_flag(word: &[u8]) -> bool
    ensures { result ≡ is_match_flag word.now }
{
    is_word(word, b"-m")
}

/// Behind `-m`.
#[tactic(auto, unfolding(crate::specs::Action::Actions::deleted_matching))]
fn deleted_matching<'w, P: Patterns>(
    alloc: Global,
    word: &[u8],
    others: WordsLeft<'w>,
    pats: &mut P,
) -> Result<(Action, WordsLeft<'w>), RuleFault>
    ensures reads { ReadsRule (λ found. (found.0, found.1)) (deleted_matching word.now others.entry) (P.refusals pats.old) (P.refusals pats.new) (P.last_refused pats.new) result }
    ensures good { IfOk result (λ found. IsNamed names.DelHeader found.0) }
{
    let (how, others) = argument(others)?;
    let by = matched_by(alloc, word, how, pats)?;
    Ok((Action::DelHeader(by), others))
}

/// What stands behind the name of `del-header`.
fn deleted_behind<'w, P: Patterns>(
    alloc: Global,
    word: &[u8],
    words: WordsLeft<'w>,
    pats: &mut P,
) -> Result<(Action, WordsLeft<'w>), RuleFault>
    ensures reads { ReadsRule (λ found. (found.0, found.1)) (deleted_behind word.now words.entry) (P.refusals pats.old) (P.refusals pats.new) (P.last_refused pats.new) result }
    ensures good { IfOk result (λ found. IsNamed names.DelHeader found.0) }
{
    let mut others = words.again();
    match others.next() {
        Some(flag) => {
            if is_match_flag(flag) {
                deleted_matching(alloc, word, others, pats)
            } else {
                let name = name_of(alloc, word)?;
                Ok((Action::DelHeader(DelBy::Str(name)), words))
            }
        }
        None => {
            let name = name_of(alloc, word)?;
            Ok((Action::DelHeader(DelBy::Str(name)), words))
        }
    }
}

/// `del-header`, of the words behind it.
#[tactic(auto, unfolding(crate::specs::Action::Actions::field_deleted))]
fn field_deleted<'w, P: Patterns>(
    alloc: Global,
    words: WordsLeft<'w>,
    pats: &mut P,
) -> Result<(Action, WordsLeft<'w>), RuleFault>
    ensures reads { ReadsRule (λ found. (found.0, found.1)) (field_deleted words.entry) (P.refusals pats.old) (P.refusals pats.new) (P.last_refused pats.new) result }
    ensures good { IfOk result (λ found. IsNamed names.DelHeader found.0) }
{
    let (word, others) = argument(words)?;
    deleted_behind(alloc, word, others, pats)
}

/// `add-header`, of the words behind it.
fn field_added<'w, P: Patterns>(
    alloc: Global,
    side: Side,
    words: WordsLeft<'w>,
    pats: &mut P,
) -> Result<(Action, WordsLeft<'w>), RuleFault>
    ensures reads { ReadsRule (λ found. (found.0, found.1)) (made_by actions.AddHeader side words.entry) (P.refusals pats.old) (P.refusals pats.new) (P.last_refused pats.new) result }
    ensures good { IfOk result (λ found. IsNamed names.AddHeader found.0) }
{
    let (name, fmt, others) = name_and_format(alloc, side, words, pats)?;
    Ok((Action::AddHeader(name, fmt), others))
}

/// `set-header`, of the words behind it.
fn field_set<'w, P: Patterns>(
    alloc: Global,
    side: Side,
    words: WordsLeft<'w>,
    pats: &mut P,
) -> Result<(Action, WordsLeft<'w>), RuleFault>
    ensures reads { ReadsRule (λ found. (found.0, found.1)) (made_by actions.SetHeader side words.entry) (P.refusals pats.old) (P.refusals pats.new) (P.last_refused pats.new) result }
    ensures good { IfOk result (λ found. IsNamed names.SetHeader found.0) }
{
    let (name, fmt, others) = name_and_format(alloc, side, words, pats)?;
    Ok((Action::SetHeader(name, fmt), others))
}

/// `replace-header`, of the words behind it.
fn field_replaced<'w, P: Patterns>(
    alloc: Global,
    side: Side,
    words: WordsLeft<'w>,
    pats: &mut P,
) -> Result<(Action, WordsLeft<'w>), RuleFault>
    ensures reads { ReadsRule (λ found. (found.0, found.1)) (replaced_by actions.ReplaceHeader side words.entry) (P.refusals pats.old) (P.refusals pats.new) (P.last_refused pats.new) result }
    ensures good { IfOk result (λ found. IsNamed names.ReplaceHeader found.0) }
{
    let (name, others) = made_name_at(alloc, words)?;
    match pattern_and_format(alloc, side, others, pats) {
        Ok((pat, fmt, others)) => Ok((Action::ReplaceHeader(name, pat, fmt), others)),
        Err(fault) => {
            drop(name);
            Err(fault)
        }
    }
}

/// `replace-value`, of the words behind it.
fn value_replaced<'w, P: Patterns>(
    alloc: Global,
    side: Side,
    words: WordsLeft<'w>,
    pats: &mut P,
) -> Result<(Action, WordsLeft<'w>), RuleFault>
    ensures reads { ReadsRule (λ found. (found.0, found.1)) (replaced_by actions.ReplaceValue side words.entry) (P.refusals pats.old) (P.refusals pats.new) (P.last_refused pats.new) result }
    ensures good { IfOk result (λ found. IsNamed names.ReplaceValue found.0) }
{
    let (name, others) = made_name_at(alloc, words)?;
    match pattern_and_format(alloc, side, others, pats) {
        Ok((pat, fmt, others)) => Ok((Action::ReplaceValue(name, pat, fmt), others)),
        Err(fault) => {
            drop(name);
            Err(fault)
        }
    }
}

/// An action on fields, of the words behind it.
#[tactic(auto, unfolding(crate::specs::Action::Actions::field_at))]
pub fn field_at<'w, P: Patterns>(
    alloc: Global,
    side: Side,
    name: ActionName,
    words: WordsLeft<'w>,
    pats: &mut P,
) -> Result<(Action, WordsLeft<'w>), RuleFault>
    ensures reads { ReadsRule (λ found. (found.0, found.1)) (field_at side name words.entry) (P.refusals pats.old) (P.refusals pats.new) (P.last_refused pats.new) result }
    ensures good { IfOk result (λ found. IsNamed name found.0) }
{
    match name {
        ActionName::AddHeader => field_added(alloc, side, words, pats),
        ActionName::SetHeader => field_set(alloc, side, words, pats),
        ActionName::DelHeader => field_deleted(alloc, words, pats),
        ActionName::ReplaceHeader => field_replaced(alloc, side, words, pats),
        ActionName::ReplaceValue => value_replaced(alloc, side, words, pats),
        _ => Err(RuleFault::Refused(RuleKind::Keyword)),
    }
}

//! The options of `return`, in any order.
ghost use Rattle.std.specs.Prelude.{◌≡◌, ◌+◌, ◌<◌, ◌≤◌, ◌&&◌, Some, false, length, IfOk};
ghost use Rattle.http_rules.specs.declared.rule.action.ActionName.TheVariants as names;
ghost use Rattle.cfg_parse.specs.Action.Faults.{Gives, ReadsRule, argument};
ghost use Rattle.cfg_parse.specs.Action.Good.{IsNamed, AreReturnOptions};
ghost use Rattle.cfg_parse.specs.Action.Returns.{return_word, once, has_no_body, may_have_payload, going_with, written_status, status_at, content_type_at, literal_at, return_of};
ghost use Rattle.cfg_parse.specs.Action.ReturnOptions.{payload_format_at, written_hdr, hdr_at, return_option, return_options};
ghost use Rattle.http_rules.specs.Rule.Valid.{IsCode, IsMadeName, is_bodiless};

use crate::action::arguments::{argument, code_of, format_at, made_name_at};
use crate::action::fault::{RuleFault, RuleKind};
use cfg_expr::condition::WordsLeft;
use cfg_expr::{Side, is_word};
use http_rules::rule::{Action, Hdr, HdrList, Payload, Text};
use px_pattern::Patterns;
use std::alloc::Global;

/// The status of a reply where none is written.
const OK: u16 = 200;

/// The options so far, each at most once but for the fields.
#[derive(Drop)]
pub struct ReturnOptions {
    pub status: Option<u16>,
    pub content_type: Option<Text>,
    pub payload: Option<Payload>,
    pub hdrs: HdrList,
}

/// The options by name.
#[derive(Clone, Copy)]
enum ReturnWord {
    Status,
    ContentType,
    Literal,
    Format,
    Hdr,
}

#[tactic(auto, unfolding(crate::specs::Action::Returns::return_word))]
fn return_word(word: &[u8]) -> Option<ReturnWord>
    ensures { result ≡ return_word word.now }
{
    if is_word(word, b"status") {
        Some(ReturnWord::Status)
    } else if is_word(word, b"content-type") {
        Some(ReturnWord::ContentType)
    } else if is_word(word, b"string") {
        Some(ReturnWord::Literal)
    } else if is_word(word, b"lf-string") {
        Some(ReturnWord::Format)
    } else if is_word(word, b"hdr") {
        Some(ReturnWord::Hdr)
    } else {
        None
    }
}

/// An option may stand where it doesn't yet.
fn once(stands: bool) -> Result<(), RuleFault>
    ensures gives { Gives (λ nothing. nothing) result (once stands) }
    ensures good { IfOk result (λ nothing. stands ≡ false) }
{
    if stands {
        return Err(RuleFault::Refused(RuleKind::Argument));
    }
    Ok(())
}

/// No body is sent with the status.
fn is_bodiless(status: u16) -> bool
    ensures { result ≡ is_bodiless status }
{
    status == 204 || status == 304
}

fn has_no_body(status: Option<u16>) -> bool
    ensures { result ≡ has_no_body status }
{
    match status {
        Some(status) => is_bodiless(status),
        None => false,
    }
}

/// A payload may come where there is none, and where the status has a body.
fn may_have_payload(options: &ReturnOptions) -> Result<(), RuleFault>
    ensures gives { Gives (λ nothing. nothing) result (may_have_payload options.now) }
    ensures good { IfOk result (λ nothing. has_no_body options.now.status ≡ false) }
{
    once(options.payload.is_some() || has_no_body(options.status))
}

/// The status goes with the payload, where that stands there.
fn going_with(has_payload: bool, status: u16) -> Result<u16, RuleFault>
    ensures gives { Gives (λ status. status) result (going_with has_payload status) }
    ensures good { IfOk result (λ kept. (kept ≡ status) × ((has_payload && is_bodiless kept) ≡ false)) }
{
    if has_payload && is_bodiless(status) {
        return Err(RuleFault::Refused(RuleKind::Argument));
    }
    Ok(status)
}

/// The code behind `status`, and the words behind it.
#[tactic(auto, unfolding(crate::specs::Action::Returns::written_status))]
fn written_status(others: WordsLeft<'_>) -> Result<(u16, WordsLeft<'_>), RuleFault>
    ensures gives { Gives (λ found. (found.0, found.1)) result (written_status others.entry) }
    ensures good { IfOk result (λ found. IsCode 200 599 found.0) }
{
    let (word, others) = argument(others)?;
    let code = code_of(200, 599, word)?;
    Ok((code, others))
}

/// A text behind its name, and the words behind it.
fn text_at(alloc: Global, others: WordsLeft<'_>) -> Result<(Text, WordsLeft<'_>), RuleFault>
    ensures { Gives (λ taken. (taken.0, taken.1)) result (argument others.entry) }
{
    let (word, others) = argument(others)?;
    let text = Text::copy(alloc, word)?;
    Ok((text, others))
}

/// `status` and its code.
#[tactic(auto, unfolding(crate::specs::Action::Returns::status_at))]
fn status_at<'w>(
    options: &mut ReturnOptions,
    others: WordsLeft<'w>,
) -> Result<WordsLeft<'w>, RuleFault>
    ensures gives { Gives (λ behind. (options.new, behind)) result (status_at options.old others.entry) }
    ensures good { AreReturnOptions options.old → IfOk result (λ behind. AreReturnOptions options.new) }
    ensures few { IfOk result (λ behind. length options.new.hdrs ≤ length options.old.hdrs + 1) }
{
    once(options.status.is_some())?;
    let (code, others) = written_status(others)?;
    options.status = Some(going_with(options.payload.is_some(), code)?);
    Ok(others)
}

/// `content-type` and the type.
#[tactic(auto, unfolding(crate::specs::Action::Returns::content_type_at))]
fn content_type_at<'w>(
    alloc: Global,
    options: &mut ReturnOptions,
    others: WordsLeft<'w>,
) -> Result<WordsLeft<'w>, RuleFault>
    ensures gives { Gives (λ behind. (options.new, behind)) result (content_type_at options.old others.entry) }
    ensures good { AreReturnOptions options.old → IfOk result (λ behind. AreReturnOptions options.new) }
    ensures few { IfOk result (λ behind. length options.new.hdrs ≤ length options.old.hdrs + 1) }
{
    once(options.content_type.is_some())?;
    let (text, others) = text_at(alloc, others)?;
    drop(options.content_type.replace(text));
    Ok(others)
}

/// The payload stands there.
fn pay(options: &mut ReturnOptions, payload: Payload)
    ensures { options.new ≡ record options.old { payload = Some payload } }
{
    drop(options.payload.replace(payload));
}

/// `string` and the payload.
#[tactic(auto, unfolding(crate::specs::Action::Returns::literal_at))]
fn literal_at<'w>(
    alloc: Global,
    options: &mut ReturnOptions,
    others: WordsLeft<'w>,
) -> Result<WordsLeft<'w>, RuleFault>
    ensures gives { Gives (λ behind. (options.new, behind)) result (literal_at options.old others.entry) }
    ensures good { AreReturnOptions options.old → IfOk result (λ behind. AreReturnOptions options.new) }
    ensures few { IfOk result (λ behind. length options.new.hdrs ≤ length options.old.hdrs + 1) }
{
    may_have_payload(options)?;
    let (text, others) = text_at(alloc, others)?;
    pay(options, Payload::Literal(text));
    Ok(others)
}

/// `lf-string` and the payload's format.
#[tactic(auto, unfolding(crate::specs::Action::ReturnOptions::payload_format_at))]
fn payload_format_at<'w, P: Patterns>(
    alloc: Global,
    side: Side,
    options: &mut ReturnOptions,
    others: WordsLeft<'w>,
    pats: &mut P,
) -> Result<WordsLeft<'w>, RuleFault>
    ensures reads { ReadsRule (λ behind. (options.new, behind)) (payload_format_at side options.old others.entry) (P.refusals pats.old) (P.refusals pats.new) (P.last_refused pats.new) result }
    ensures good { AreReturnOptions options.old → IfOk result (λ behind. AreReturnOptions options.new) }
    ensures few { IfOk result (λ behind. length options.new.hdrs ≤ length options.old.hdrs + 1) }
{
    may_have_payload(options)?;
    let (fmt, others) = format_at(alloc, side, others, pats)?;
    pay(options, Payload::Format(fmt));
    Ok(others)
}

/// The field behind `hdr`, and the words behind it.
#[tactic(auto, unfolding(crate::specs::Action::ReturnOptions::written_hdr))]
fn written_hdr<'w, P: Patterns>(
    alloc: Global,
    side: Side,
    others: WordsLeft<'w>,
    pats: &mut P,
) -> Result<(Hdr, WordsLeft<'w>), RuleFault>
    ensures reads { ReadsRule (λ found. (found.0, found.1)) (written_hdr side others.entry) (P.refusals pats.old) (P.refusals pats.new) (P.last_refused pats.new) result }
    ensures good { IfOk result (λ found. IsMadeName found.0.name) }
{
    let (name, others) = made_name_at(alloc, others)?;
    match format_at(alloc, side, others, pats) {
        Ok((value, others)) => Ok((Hdr { name, value }, others)),
        Err(fault) => {
            drop(name);
            Err(fault)
        }
    }
}

/// `hdr`: one more field.
#[tactic(auto, using(crate::proofs::ActionLemmas::GoodLemmas::replies), unfolding(crate::specs::Action::ReturnOptions::hdr_at))]
fn hdr_at<'w, P: Patterns>(
    alloc: Global,
    side: Side,
    options: &mut ReturnOptions,
    others: WordsLeft<'w>,
    pats: &mut P,
) -> Result<WordsLeft<'w>, RuleFault>
    requires { length options.old.hdrs < 64 }
    ensures reads { ReadsRule (λ behind. (options.new, behind)) (hdr_at side options.old others.entry) (P.refusals pats.old) (P.refusals pats.new) (P.last_refused pats.new) result }
    ensures good { AreReturnOptions options.old → IfOk result (λ behind. AreReturnOptions options.new) }
    ensures few { IfOk result (λ behind. length options.new.hdrs ≤ length options.old.hdrs + 1) }
{
    let (hdr, others) = written_hdr(alloc, side, others, pats)?;
    options.hdrs.push(hdr)?;
    Ok(others)
}

/// An option and the words behind it.
#[tactic(auto, unfolding(crate::specs::Action::ReturnOptions::return_option))]
fn return_option<'w, P: Patterns>(
    alloc: Global,
    side: Side,
    options: &mut ReturnOptions,
    which: ReturnWord,
    others: WordsLeft<'w>,
    pats: &mut P,
) -> Result<WordsLeft<'w>, RuleFault>
    requires { length options.old.hdrs < 64 }
    ensures reads { ReadsRule (λ behind. (options.new, behind)) (return_option side options.old which others.entry) (P.refusals pats.old) (P.refusals pats.new) (P.last_refused pats.new) result }
    ensures good { AreReturnOptions options.old → IfOk result (λ behind. AreReturnOptions options.new) }
    ensures few { IfOk result (λ behind. length options.new.hdrs ≤ length options.old.hdrs + 1) }
{
    match which {
        ReturnWord::Status => status_at(options, others),
        ReturnWord::ContentType => content_type_at(alloc, options, others),
        ReturnWord::Literal => literal_at(alloc, options, others),
        ReturnWord::Format => payload_format_at(alloc, side, options, others, pats),
        ReturnWord::Hdr => hdr_at(alloc, side, options, others, pats),
    }
}

/// Options up to a word that is none, of which so many more may come.
#[tactic(auto, unfolding(crate::specs::Action::ReturnOptions::return_options))]
pub fn return_options<'w, P: Patterns>(
    alloc: Global,
    side: Side,
    most: u32,
    mut options: ReturnOptions,
    words: WordsLeft<'w>,
    pats: &mut P,
) -> Result<(ReturnOptions, WordsLeft<'w>), RuleFault>
    requires { length options.hdrs + most ≤ 64 }
    ensures reads { ReadsRule (λ next. (next.0, next.1)) (return_options side most options words.entry) (P.refusals pats.old) (P.refusals pats.new) (P.last_refused pats.new) result }
    ensures good { AreReturnOptions options → IfOk result (λ next. AreReturnOptions next.0) }
{
    let mut others = words.again();
    let Some(word) = others.next() else {
        return Ok((options, words));
    };
    if most == 0 {
        return Ok((options, words));
    }
    match return_word(word) {
        None => Ok((options, words)),
        Some(which) => match return_option(alloc, side, &mut options, which, others, pats) {
            Ok(behind) => return_options(alloc, side, most - 1, options, behind, pats),
            Err(fault) => {
                drop(options);
                Err(fault)
            }
        },
    }
}

/// The reply of its options. A payload needs a type.
#[tactic(auto, using(crate::proofs::ActionLemmas::GoodLemmas::replies))]
pub fn return_of(options: ReturnOptions) -> Result<Action, RuleFault>
    ensures gives { Gives (λ action. action) result (return_of options) }
    ensures good { AreReturnOptions options → IfOk result (IsNamed names.Return) }
{
    if options.payload.is_some() && options.content_type.is_none() {
        drop(options);
        return Err(RuleFault::Refused(RuleKind::Argument));
    }
    let ReturnOptions {
        status,
        content_type,
        payload,
        hdrs,
    } = options;
    Ok(Action::Return {
        status: status.unwrap_or(OK),
        content_type,
        payload,
        hdrs,
    })
}

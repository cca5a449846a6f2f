//! The criterion of a test: an expression, behind whose fetch's name a match may stand.
ghost use Rattle.std.specs.Prelude.{◌≡◌, ◌-◌, length, take, drop, if◌then◌else◌};
ghost use Rattle.std.specs.Str.{bytes_eq};
ghost use Rattle.px_peer.specs.Names.{src_port_name};
ghost use Rattle.cfg_expr.specs.Calls.{form_of};
ghost use Rattle.cfg_expr.specs.Faults.{ReadsText};
ghost use Rattle.cfg_expr.specs.Condition.Tests.{takes_suffix, suffix_match, match_in, fetch_form, convs_to_end, criterion_of, fetch_match, source_match, conv_match, default_match};

use crate::{
    Call, Side, Source, TextFault, TextKind, Written, call_in, is_word, placed_source, read_convs,
};
use acl_eval::Match;
use px_expr::{Conv, ConvList};
use px_pattern::Patterns;
use px_sample::Fetch;
use std::alloc::Global;

/// A fetch with converters, and the match that its name says.
#[derive(Drop)]
pub(crate) struct Criterion {
    pub(crate) written: Written,
    pub(crate) how: Option<Match>,
}

#[tactic(auto, unfolding(crate::specs::Condition::Tests::takes_suffix))]
fn takes_suffix(name: &[u8]) -> bool
    ensures { result ≡ takes_suffix name.now }
{
    is_word(name, b"path")
        || is_word(name, b"url")
        || is_word(name, b"base")
        || is_word(name, b"hdr")
}

#[tactic(auto, unfolding(crate::specs::Condition::Tests::suffix_match))]
fn suffix_match(suffix: &[u8]) -> Option<Match>
    ensures { result ≡ suffix_match suffix.now }
{
    if is_word(suffix, b"_beg") {
        Some(Match::Beg)
    } else if is_word(suffix, b"_end") {
        Some(Match::End)
    } else if is_word(suffix, b"_sub") {
        Some(Match::Sub)
    } else if is_word(suffix, b"_reg") {
        Some(Match::Reg)
    } else if is_word(suffix, b"_len") {
        Some(Match::Len)
    } else {
        None
    }
}

/// The match that the last four bytes of a name say.
#[tactic(auto, unfolding(crate::specs::Condition::Tests::match_in))]
fn match_in(name: &[u8]) -> Option<Match>
    ensures { result ≡ match_in name.now }
{
    let (stem, suffix) = name.split_at(name.len().saturating_sub(4));
    if takes_suffix(stem) {
        suffix_match(suffix)
    } else {
        None
    }
}

/// The form with the fetch's own name.
fn fetch_form<'t>(call: Call<'t>) -> Call<'t>
    ensures { form_of result ≡ fetch_form (form_of call.entry) }
{
    match match_in(call.name) {
        Some(_) => Call {
            name: &call.name[..call.name.len().saturating_sub(4)],
            args: call.args,
            rest: call.rest,
        },
        None => call,
    }
}

/// The converters up to the end of a text.
#[tactic(auto, unfolding(crate::specs::Condition::Tests::convs_to_end))]
fn convs_to_end<P: Patterns>(
    alloc: Global,
    text: &[u8],
    pats: &mut P,
) -> Result<ConvList, TextFault>
    ensures { ReadsText (λ convs. convs) (convs_to_end text.now) (P.refusals pats.old) (P.refusals pats.new) (P.last_refused pats.new) result }
{
    match read_convs(alloc, text, pats) {
        Ok((convs, rest)) => {
            if rest.is_empty() {
                return Ok(convs);
            }
            drop(convs);
            Err(TextFault::Refused(TextKind::Expr))
        }
        Err(fault) => Err(fault),
    }
}

/// An expression of a direction, or of none yet, or one whose fetch has a match behind its name.
#[tactic(auto, unfolding(crate::specs::Condition::Tests::criterion_of))]
pub(crate) fn read_criterion<P: Patterns>(
    alloc: Global,
    place: Option<Side>,
    word: &[u8],
    pats: &mut P,
) -> Result<Criterion, TextFault>
    ensures { ReadsText (λ criterion. criterion) (criterion_of place word.now) (P.refusals pats.old) (P.refusals pats.new) (P.last_refused pats.new) result }
{
    let Some(call) = call_in(word) else {
        return Err(TextFault::Refused(TextKind::Expr));
    };
    let how = match_in(call.name);
    let (source, rest) = placed_source(alloc, place, fetch_form(call))?;
    match convs_to_end(alloc, rest, pats) {
        Ok(convs) => Ok(Criterion {
            written: Written { source, convs },
            how,
        }),
        Err(fault) => {
            drop(source);
            Err(fault)
        }
    }
}

/// The match of a variable: that of the client's port is a number.
fn variable_match(name: &[u8]) -> Match
    ensures { result ≡ (if bytes_eq name.now src_port_name then Match.Int else Match.Str) }
{
    if is_word(name, b":src_port") {
        Match::Int
    } else {
        Match::Str
    }
}

/// The match of what a fetch gives.
fn fetch_match(fetch: &Fetch) -> Match
    ensures { result ≡ fetch_match fetch.now }
{
    match fetch {
        Fetch::ReqHdrCnt(_) | Fetch::ResHdrCnt(_) | Fetch::Status | Fetch::Int(_) => Match::Int,
        Fetch::Bool(_) | Fetch::AlwaysTrue | Fetch::AlwaysFalse => Match::Bool,
        Fetch::Var(_, name) => variable_match(name.as_slice()),
        _ => Match::Str,
    }
}

fn source_match(source: &Source) -> Match
    ensures { result ≡ source_match source.now }
{
    match source {
        Source::Hdr(_, _) => Match::Str,
        Source::Of(fetch) => fetch_match(fetch),
    }
}

/// The match of what a converter makes.
fn conv_match(conv: &Conv) -> Match
    ensures { result ≡ conv_match conv.now }
{
    match conv {
        Conv::Length
        | Conv::Add(_)
        | Conv::Sub(_)
        | Conv::Mul(_)
        | Conv::Div(_)
        | Conv::Mod(_)
        | Conv::Neg => Match::Int,
        Conv::Not | Conv::Bool => Match::Bool,
        _ => Match::Str,
    }
}

/// The match of an expression for which none is written.
pub(crate) fn default_match(written: &Written) -> Match
    ensures { result ≡ default_match written.now }
{
    let count = written.convs.len();
    if count == 0 {
        return source_match(&written.source);
    }
    conv_match(written.convs.get(count - 1))
}

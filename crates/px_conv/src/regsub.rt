//! The converter `regsub`, which writes into the spare buffer and then swaps the two.
ghost use Rattle.std.specs.Prelude.{◌≡◌, ℕ, ◌+◌, ◌≤◌, ◌↔◌, ◌++◌, List, length, take, option_and_then, IfOk, IsTrue, if◌then◌else◌};
ghost use Rattle.std.specs.Bool.{OnTrue};
ghost use Rattle.px_pattern.specs.Groups.{LieIn};
ghost use Rattle.px_pattern.specs.Meaning.{pattern_of};
ghost use Rattle.px_sample.specs.Sample.{Bytes, value_in, within};
ghost use Rattle.px_conv.specs.Conv.{of_bytes};
ghost use Rattle.px_conv.specs.Template.{expanded};
ghost use Rattle.px_conv.specs.Regsub.{behind, one_step, regsub};
ghost use Rattle.px_conv.specs.Replacing.{Came, IsBelow};

use crate::bytes::hold;
use crate::conv::Matches;
use crate::template::expand;
use px_pattern::{Groups, Pat, Searchers};
use px_sample::{Buf, OutOfMemory, Sample};
use std::mem;

/// What `regsub` is told: a pattern, the template that takes a match's place, and which matches it replaces.
#[derive(Clone, Copy)]
pub struct Substitution<'a> {
    pub pat: &'a Pat,
    pub template: &'a [u8],
    pub which: Matches,
}

/// What is left of a text, one match of which was replaced.
enum Left<'a> {
    /// Bytes in which the search goes on.
    Text(&'a [u8]),
    /// Nothing: the whole is put in.
    Nothing,
    /// The whole does not fit.
    TooLong,
}

/// Puts in what is in front of the match, and the template in its place.
fn put_front(template: &[u8], groups: &Groups, from: usize, text: &[u8], into: &mut Buf) -> bool
    requires inside { LieIn (length text.now) groups.now }
    requires from { from ≤ length text.now }
    ensures fits { IsTrue result ↔ (length into.old.bytes + length (take from text.now ++ expanded groups.now text.now template.now) ≤ into.old.cap) }
    ensures put { OnTrue result (into.new.bytes ≡ into.old.bytes ++ (take from text.now ++ expanded groups.now text.now template.now)) }
    ensures cap { into.new.cap ≡ into.old.cap }
{
    if !into.push(&text[..from]) {
        return false;
    }
    expand(template, groups, text, into)
}

/// Puts in the last bytes, which are not searched.
fn put_last<'a>(rest: &[u8], into: &mut Buf) -> Left<'a>
    ensures came { (on : List ℕ → List ℕ) → Came on into.old into.new rest.now result }
    ensures below { (len : ℕ) → IsBelow len result }
    ensures cap { into.new.cap ≡ into.old.cap }
{
    if into.push(rest) {
        Left::Nothing
    } else {
        Left::TooLong
    }
}

/// Goes on behind a match, which was empty or not.
fn go_on<'a>(which: Matches, was_empty: bool, rest: &'a [u8], into: &mut Buf) -> Left<'a>
    ensures came { (on : List ℕ → List ℕ) → Came on into.old into.new (behind on which was_empty rest.now) result }
    ensures below { IsBelow (length rest.now + (if was_empty then 0 else 1)) result }
    ensures cap { into.new.cap ≡ into.old.cap }
{
    match which {
        Matches::First => return put_last(rest, into),
        Matches::All => {}
    }
    if !was_empty {
        return Left::Text(rest);
    }
    if rest.is_empty() {
        return put_last(rest, into);
    }
    let (kept, after) = rest.split_at(1);
    if !into.push(kept) {
        return Left::TooLong;
    }
    Left::Text(after)
}

/// Replaces the first match in the text.
fn replace_one<'a>(
    searchers: &mut Searchers,
    by: Substitution<'_>,
    text: &'a [u8],
    into: &mut Buf,
) -> Result<Left<'a>, OutOfMemory>
    ensures came { IfOk result (λ left. (on : List ℕ → List ℕ) → Came on into.old into.new (one_step on (pattern_of by.entry.pat.now) by.entry.template.now by.entry.which text.now) left) }
    ensures below { IfOk result (IsBelow (length text.now)) }
    ensures cap { into.new.cap ≡ into.old.cap }
{
    let Some(groups) = searchers.find_groups(by.pat, text)? else {
        return Ok(put_last(text, into));
    };
    let place = groups.span(0).unwrap();
    if !put_front(by.template, &groups, place.from, text, into) {
        return Ok(Left::TooLong);
    }
    let rest = &text[place.from + place.len..];
    Ok(go_on(by.which, place.len == 0, rest, into))
}

/// Replaces the first match in the text, or all, behind what the buffer holds; false where the whole does not fit.
fn replace(
    searchers: &mut Searchers,
    by: Substitution<'_>,
    text: &[u8],
    into: &mut Buf,
) -> Result<bool, OutOfMemory>
    ensures fits { IfOk result (λ fits. IsTrue fits ↔ (length into.old.bytes + length (regsub (pattern_of by.entry.pat.now) by.entry.template.now by.entry.which text.now) ≤ into.old.cap)) }
    ensures replaced { IfOk result (λ fits. OnTrue fits (into.new.bytes ≡ into.old.bytes ++ regsub (pattern_of by.entry.pat.now) by.entry.template.now by.entry.which text.now)) }
    ensures cap { into.new.cap ≡ into.old.cap }
{
    let mut rest = text;
    'matches: loop {
        match replace_one(searchers, by, rest, into)? {
            Left::Text(after) => rest = after,
            Left::Nothing => return Ok(true),
            Left::TooLong => return Ok(false),
        }
    }
}

/// The sample with the first match replaced by the template, or all matches.
pub fn substitute(
    searchers: &mut Searchers,
    by: Substitution<'_>,
    sample: Sample,
    buf: &mut Buf,
    spare: &mut Buf,
) -> Result<Sample, OutOfMemory>
    requires { spare.old.cap ≡ buf.old.cap }
    ensures value { IfOk result (λ made. value_in made buf.new.bytes ≡ within buf.old.cap (option_and_then (of_bytes buf.old.cap (λ bytes. Bytes (regsub (pattern_of by.entry.pat.now) by.entry.template.now by.entry.which bytes))) (value_in sample buf.old.bytes))) }
    ensures cap { buf.new.cap ≡ buf.old.cap }
    ensures spare_cap { spare.new.cap ≡ buf.old.cap }
{
    if !hold(sample, buf) {
        return Ok(Sample::Absent);
    }
    spare.clear();
    if !replace(searchers, by, buf.bytes(), spare)? {
        return Ok(Sample::Absent);
    }
    mem::swap(buf, spare);
    Ok(Sample::InBuf)
}

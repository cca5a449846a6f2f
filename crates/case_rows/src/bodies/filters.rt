//! Filters over bodies: NAME, the filters, the body, what they give, and how they decide. A body that comes whole, with
//! room for all, and each cut of it into two pieces, with room for one byte, must come to the same.
ghost use Rattle.std.specs.Prelude.{◌≤◌, ◌<◌, length, IfOk, OnOk};
ghost use Rattle.body_filter.specs.Valid.{IsFilter, AreFilters};

use crate::{Answers, Fault, Row, Step, Steps, decoded};
use body_filter::{Chain, FedState, FilterSpec};
use px_link::Bytes;
use std::alloc::Global;

/// Whether a cut comes to the same as others. Else says what it comes to.
pub fn is_cut_same(first: usize, facts: &[u8], other: &[u8], answers: &mut Answers) -> bool {
    if other == facts {
        return true;
    }
    answers.say(b"cut at ");
    answers.more_count(first as u64);
    answers.more(b": ");
    answers.more(other);
    false
}

/// The most filters of a chain.
const MOST_FILTERS: usize = 8;

/// The most bytes of a needle, and of a text in its place.
const MOST_BYTES: usize = 256;

/// The most calls for a piece.
const MOST_CALLS: u32 = 100000;

/// The room for a body that comes whole.
const WHOLE_ROOM: usize = 4096;

/// A word of at least so many bytes.
fn text_of(alloc: Global, step: &Step<'_>, at: usize, least: usize) -> Result<Bytes, Fault>
    ensures least { IfOk result (λ text. least ≤ length text) }
    ensures most { IfOk result (λ text. length text ≤ 256) }
{
    let bytes = step.bytes(at);
    if bytes.len() < least || bytes.len() > MOST_BYTES {
        return Err(Fault::Malformed);
    }
    Ok(Bytes::copy(alloc, bytes)?)
}

/// The filter that refuses longer bodies.
fn limit_of(step: &Step<'_>) -> Result<FilterSpec, Fault>
    ensures { IfOk result IsFilter }
{
    let most = step.count(1)?;
    Ok(FilterSpec::Limit(most as u64))
}

/// The filter that refuses bodies with a text.
fn deny_of(alloc: Global, step: &Step<'_>) -> Result<FilterSpec, Fault>
    ensures { IfOk result IsFilter }
{
    let text = text_of(alloc, step, 1, 1)?;
    Ok(FilterSpec::Deny(text))
}

/// The filter that puts a text in the place of another.
fn replace_of(alloc: Global, step: &Step<'_>) -> Result<FilterSpec, Fault>
    ensures { IfOk result IsFilter }
{
    let from = text_of(alloc, step, 1, 1)?;
    match text_of(alloc, step, 2, 0) {
        Ok(to) => Ok(FilterSpec::Replace(from, to)),
        Err(fault) => Err(fault),
    }
}

/// The filter that a step names.
fn filter_of(alloc: Global, step: &Step<'_>) -> Result<FilterSpec, Fault>
    ensures { IfOk result IsFilter }
{
    match step.word(0) {
        "body-limit" => limit_of(step),
        "body-deny" => deny_of(alloc, step),
        "body-replace" => replace_of(alloc, step),
        _ => Err(Fault::Malformed),
    }
}

/// Puts the filter that a step names behind the others.
#[tactic(auto, using(crate::proofs::BodiesLemmas::Chains::chains))]
fn add_filter(alloc: Global, step: &Step<'_>, filters: &mut Vec<FilterSpec>) -> Result<(), Fault>
    requires { AreFilters filters.old.items }
    ensures few { OnOk result (length filters.new.items ≤ 8) }
    ensures valid { OnOk result (AreFilters filters.new.items) }
{
    if filters.len() >= MOST_FILTERS {
        return Err(Fault::Malformed);
    }
    let filter = filter_of(alloc, step)?;
    filters.push(filter)?;
    Ok(())
}

/// Puts the filter of each step behind the others.
fn add_each(alloc: Global, steps: &[Step<'_>], filters: &mut Vec<FilterSpec>) -> Result<(), Fault>
    requires few { length filters.old.items ≤ 8 }
    requires valid { AreFilters filters.old.items }
    ensures few { OnOk result (length filters.new.items ≤ 8) }
    ensures valid { OnOk result (AreFilters filters.new.items) }
{
    for step in steps {
        add_filter(alloc, step, filters)?;
    }
    Ok(())
}

/// Puts the filters of a text, with semicolons between them, behind the others. There may be none.
fn add_all(alloc: Global, text: &str, filters: &mut Vec<FilterSpec>) -> Result<(), Fault>
    requires few { length filters.old.items ≤ 8 }
    requires valid { AreFilters filters.old.items }
    ensures few { OnOk result (length filters.new.items ≤ 8) }
    ensures valid { OnOk result (AreFilters filters.new.items) }
{
    if text.is_empty() {
        return Ok(());
    }
    let steps = Steps::read(alloc, text)?;
    add_each(alloc, steps.as_slice(), filters)
}

/// The filters of a row, with semicolons between them.
pub fn filters_of(alloc: Global, text: &str) -> Result<Vec<FilterSpec>, Fault>
    ensures few { IfOk result (λ filters. length filters.items ≤ 8) }
    ensures valid { IfOk result (λ filters. AreFilters filters.items) }
{
    let mut filters = Vec::new(alloc);
    match add_all(alloc, text, &mut filters) {
        Ok(()) => Ok(filters),
        Err(fault) => Err(fault),
    }
}

/// Hands a piece in, until the chain decides or has nothing more to do.
fn feed_piece(
    chain: &mut Chain,
    piece: &[u8],
    last: bool,
    out: &mut [u8],
    output: &mut Vec<u8>,
) -> Result<FedState, Fault>
    requires { 0 < length out.old }
{
    let mut rest = piece;
    for _call in 0..MOST_CALLS {
        let fed = chain.feed(rest, last, out);
        output.extend_from_slice(&out[..fed.given])?;
        rest = &rest[fed.used..];
        if fed.state != FedState::Going || (fed.used == 0 && fed.given == 0) {
            return Ok(fed.state);
        }
    }
    Err(Fault::Malformed)
}

/// Hands a body in by two pieces. The chain begins anew behind it.
fn feed_both(
    chain: &mut Chain,
    pieces: (&[u8], &[u8]),
    out: &mut [u8],
    output: &mut Vec<u8>,
) -> Result<FedState, Fault>
    requires { 0 < length out.old }
{
    let first = feed_piece(chain, pieces.0, false, out, output)?;
    let state = match first {
        FedState::Going => feed_piece(chain, pieces.1, true, out, output)?,
        FedState::Over => FedState::Over,
        FedState::Refused(code) => FedState::Refused(code),
    };
    chain.reset();
    Ok(state)
}

/// Says how a body is decided, and in front of it what was given, where that differs from the row's output.
fn say_decided(state: FedState, output: &[u8], wanted: &[u8], answers: &mut Answers) {
    if output != wanted {
        answers.quote(output);
    }
    match state {
        FedState::Going => answers.say(b"going"),
        FedState::Over => answers.say(b"accepted"),
        FedState::Refused(code) => answers.count(u64::from(code)),
    }
}

/// Says what a body in two pieces comes to.
fn say_both(
    alloc: Global,
    chain: &mut Chain,
    pieces: (&[u8], &[u8]),
    out: &mut [u8],
    wanted: &[u8],
    answers: &mut Answers,
) -> Result<(), Fault>
    requires { 0 < length out.old }
{
    let mut output = Vec::new(alloc);
    let state = feed_both(chain, pieces, out, &mut output)?;
    say_decided(state, &output, wanted, answers);
    Ok(())
}

/// What a body in two pieces comes to.
fn decided(
    alloc: Global,
    chain: &mut Chain,
    pieces: (&[u8], &[u8]),
    out: &mut [u8],
    wanted: &[u8],
) -> Result<Vec<u8>, Fault>
    requires { 0 < length out.old }
{
    let mut answers = Answers::new(alloc);
    let said = say_both(alloc, chain, pieces, out, wanted, &mut answers);
    answers.told(said)
}

/// A row's body and output, and what the body comes to that comes whole.
#[derive(Clone, Copy)]
struct Whole<'a> {
    body: &'a [u8],
    wanted: &'a [u8],
    facts: &'a [u8],
}

/// Whether a cut of a body comes to the same as the whole. Else says what it comes to.
fn is_same(
    alloc: Global,
    chain: &mut Chain,
    of: Whole<'_>,
    first: usize,
    answers: &mut Answers,
) -> Result<bool, Fault>
    requires { first ≤ length of.body.now }
{
    let other = decided(alloc, chain, of.body.split_at(first), &mut [0u8], of.wanted)?;
    Ok(is_cut_same(first, of.facts, &other, answers))
}

/// Says what the body of a row comes to; the first cut that gives other facts is named.
fn each_cut(
    alloc: Global,
    chain: &mut Chain,
    of: Whole<'_>,
    answers: &mut Answers,
) -> Result<(), Fault> {
    for first in 0..of.body.len() + 1 {
        if !is_same(alloc, chain, of, first, answers)? {
            return Ok(());
        }
    }
    answers.say(of.facts);
    Ok(())
}

/// Says what a body comes to, whole and cut.
fn say_body(
    alloc: Global,
    chain: &mut Chain,
    body: &[u8],
    wanted: &[u8],
    answers: &mut Answers,
) -> Result<(), Fault> {
    let facts = decided(alloc, chain, (b"", body), &mut [0; WHOLE_ROOM], wanted)?;
    let of = Whole {
        body,
        wanted,
        facts: &facts,
    };
    each_cut(alloc, chain, of, answers)
}

/// Says what the body of a row comes to.
fn say_row(
    alloc: Global,
    chain: &mut Chain,
    row: Row<'_>,
    answers: &mut Answers,
) -> Result<(), Fault> {
    let body = decoded(alloc, row.field(2).as_bytes())?;
    let wanted = decoded(alloc, row.field(3).as_bytes())?;
    say_body(alloc, chain, &body, &wanted, answers)
}

/// The same with filters that lie in front of it.
fn say_filtered(
    alloc: Global,
    filters: &[FilterSpec],
    row: Row<'_>,
    answers: &mut Answers,
) -> Result<(), Fault>
    requires few { length filters.now ≤ 8 }
    requires valid { AreFilters filters.now }
{
    let mut chain = Chain::open(alloc, filters)?;
    let said = say_row(alloc, &mut chain, row, answers);
    drop(chain);
    said
}

/// What a row comes to.
pub fn filtered(alloc: Global, row: Row<'_>, answers: &mut Answers) -> Result<(), Fault> {
    let filters = filters_of(alloc, row.field(1))?;
    let said = say_filtered(alloc, &filters, row, answers);
    drop(filters);
    said
}

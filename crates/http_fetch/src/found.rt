//! What a fetch has found, before it is copied.
ghost use Rattle.std.specs.Prelude.{◌≡◌, ◌++◌, Some, option_map};
ghost use Rattle.px_sample.specs.Sample.{Bytes, value_in, within};
ghost use Rattle.http_fetch.specs.Found.{value_of};

use px_sample::{Buf, Sample, Scope, Vars};

/// What there is, lent from where it stands.
#[derive(Clone, Copy)]
pub(crate) enum Found<'a> {
    Absent,
    Truth(bool),
    Number(i64),
    Bytes(&'a [u8]),
    /// Three texts, one behind another.
    Joined(&'a [u8], &'a [u8], &'a [u8]),
    Variable(&'a Vars, Scope, &'a [u8]),
}

/// Bytes where there are some.
pub(crate) fn bytes_or_absent(bytes: Option<&[u8]>) -> Found<'_>
    ensures { value_of result ≡ option_map (λ b. Bytes b.now) bytes.entry }
{
    match bytes {
        Some(bytes) => Found::Bytes(bytes),
        None => Found::Absent,
    }
}

/// Copies three texts, one behind another.
fn join(a: &[u8], b: &[u8], c: &[u8], into: &mut Buf) -> Sample
    ensures value { value_in result into.new.bytes ≡ within into.old.cap (Some (Bytes (a.now ++ (b.now ++ c.now)))) }
    ensures cap { into.new.cap ≡ into.old.cap }
{
    into.clear();
    if !into.push(a) {
        return Sample::Absent;
    }
    if !into.push(b) {
        return Sample::Absent;
    }
    if !into.push(c) {
        return Sample::Absent;
    }
    Sample::InBuf
}

/// Copies a text.
fn copy(bytes: &[u8], into: &mut Buf) -> Sample
    ensures value { value_in result into.new.bytes ≡ within into.old.cap (Some (Bytes bytes.now)) }
    ensures cap { into.new.cap ≡ into.old.cap }
{
    into.clear();
    if into.push(bytes) {
        Sample::InBuf
    } else {
        Sample::Absent
    }
}

/// Hands over what was found.
pub(crate) fn hand(found: Found<'_>, into: &mut Buf) -> Sample
    ensures value { value_in result into.new.bytes ≡ within into.old.cap (value_of found.entry) }
    ensures cap { into.new.cap ≡ into.old.cap }
{
    match found {
        Found::Absent => Sample::Absent,
        Found::Truth(truth) => Sample::Truth(truth),
        Found::Number(number) => Sample::Number(number),
        Found::Bytes(bytes) => copy(bytes, into),
        Found::Joined(a, b, c) => join(a, b, c, into),
        Found::Variable(vars, scope, name) => vars.get(scope, name, into),
    }
}

//! Every refused line of a configuration, as it is told: the file, the line, its kind and its text, and a sentence on the kind.
ghost use Rattle.std.specs.Prelude.{◌≡◌, ◌<◌, ◌++◌, [], List, take, length, IfOk, OnOk};
ghost use Rattle.std.specs.List.{flat_map};
ghost use Rattle.cfg_parse.specs.Judged.{Lists};
ghost use Rattle.cfg_parse.specs.declared.refused.RefusedLine.{RefusedLine as Told};
ghost use Rattle.proxy_commands.specs.Refusals.{most_shown, hex_digit, shown_byte, shown, shown_behind, refused_entry, more_line, refused_text};

use crate::lines::kind_name;
use cfg_parse::{MAX_KEPT, RefusedLine, RefusedLines, meaning_of};
use http_model::OutOfMemory;
use px_link::Bytes;
use std::alloc::Global;

/// The most bytes of a line that are shown.
const MAX_SHOWN: usize = 200;

/// A hexadecimal digit.
fn hex_digit(n: u8) -> u8
    requires { n < 16 }
    ensures { result ≡ hex_digit n }
{
    if n < 10 { b'0' + n } else { b'a' - 10 + n }
}

/// Puts a byte behind a text, as it is shown.
fn push_byte(text: &mut Bytes, byte: u8) -> Result<(), OutOfMemory>
    ensures { OnOk result (text.new ≡ text.old ++ shown_byte byte) }
{
    if byte < 32 || byte == 127 {
        return text.push(&[b'\\', b'x', hex_digit(byte / 16), hex_digit(byte % 16)]);
    }
    text.push(&[byte])
}

/// Puts bytes behind a text, as they are shown.
fn push_bytes(text: &mut Bytes, bytes: &[u8]) -> Result<(), OutOfMemory>
    ensures { OnOk result (text.new ≡ text.old ++ flat_map shown_byte bytes.now) }
{
    for byte in bytes {
        push_byte(text, *byte)?;
    }
    Ok(())
}

/// The bytes of a line that are shown.
fn front(line: &[u8]) -> &[u8]
    ensures { result.now ≡ take most_shown line.now }
{
    if line.len() <= MAX_SHOWN {
        return line;
    }
    &line[..MAX_SHOWN]
}

/// What is shown of a line.
#[tactic(auto, unfolding(crate::specs::Refusals::shown))]
fn shown(alloc: Global, line: &[u8]) -> Result<Bytes, OutOfMemory>
    ensures { IfOk result (λ text. text ≡ shown line.now) }
{
    let mut text = Bytes::copy(alloc, b"")?;
    push_bytes(&mut text, front(line))?;
    if line.len() > MAX_SHOWN {
        text.push(b" ..")?;
    }
    Ok(text)
}

/// What is shown behind the kind.
fn shown_behind(alloc: Global, line: &[u8]) -> Result<Bytes, OutOfMemory>
    ensures { IfOk result (λ text. text ≡ shown_behind line.now) }
{
    let mut text = Bytes::copy(alloc, b"")?;
    if line.is_empty() {
        return Ok(text);
    }
    text.push(b": ")?;
    text.push(shown(alloc, line)?.as_slice())?;
    Ok(text)
}

/// A refused line of the file of this name.
#[tactic(auto, unfolding(crate::specs::Refusals::refused_entry))]
fn refused_entry(alloc: Global, name: &str, line: &RefusedLine) -> Result<Bytes, OutOfMemory>
    ensures { IfOk result (λ text. text ≡ refused_entry name.now line.now) }
{
    let mut text = Bytes::copy(alloc, name.as_bytes())?;
    text.push(b":")?;
    text.push(line.line.to_string(alloc)?.as_bytes())?;
    text.push(b": ")?;
    text.push(kind_name(line.kind).as_bytes())?;
    text.push(shown_behind(alloc, line.text.as_slice())?.as_slice())?;
    text.push(b"\n  ")?;
    text.push(meaning_of(line.kind).as_bytes())?;
    text.push(b"\n")?;
    Ok(text)
}

/// How many more lines are refused than are kept.
#[tactic(auto, unfolding(crate::specs::Refusals::more_line))]
fn more_line(alloc: Global, name: &str, count: u32) -> Result<Bytes, OutOfMemory>
    ensures { IfOk result (λ text. text ≡ more_line name.now count) }
{
    if count <= MAX_KEPT {
        return Bytes::copy(alloc, b"");
    }
    let mut text = Bytes::copy(alloc, name.as_bytes())?;
    text.push(b": ")?;
    text.push((count - MAX_KEPT).to_string(alloc)?.as_bytes())?;
    text.push(b" more refused\n")?;
    Ok(text)
}

/// Puts these lines of the file of this name behind a text.
fn push_entries(
    alloc: Global,
    name: &str,
    lines: &[RefusedLine],
    text: &mut Bytes,
) -> Result<(), OutOfMemory>
    ensures { OnOk result (text.new ≡ text.old ++ flat_map (refused_entry name.now) lines.now) }
{
    for line in lines {
        text.push(refused_entry(alloc, name, line)?.as_slice())?;
    }
    Ok(())
}

/// All refused lines of the file of this name.
#[tactic(auto, unfolding(crate::specs::Refusals::refused_text))]
pub fn refused_text(alloc: Global, name: &str, refused: &RefusedLines) -> Result<Bytes, OutOfMemory>
    ensures { (all : List Told) → Lists refused.now all → IfOk result (λ text. text ≡ refused_text name.now all) }
{
    let mut text = Bytes::copy(alloc, b"")?;
    push_entries(alloc, name, refused.first.as_slice(), &mut text)?;
    text.push(more_line(alloc, name, refused.count)?.as_slice())?;
    Ok(text)
}

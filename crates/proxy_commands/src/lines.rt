//! The lines that the program writes itself.
ghost use Rattle.std.specs.Prelude.{◌≡◌, IfOk};
ghost use Rattle.proxy_commands.specs.Lines.{kind_name, record_kind_name, accepted_line, refused_line, record_line, file_line};

use cfg_parse::CfgKind;
use http_model::OutOfMemory;
use px_link::Bytes;
use rec_format::RecKind;
use std::alloc::Global;

pub fn kind_name(kind: CfgKind) -> &'static str
    ensures { result.now ≡ kind_name kind }
{
    match kind {
        CfgKind::Word => "Word",
        CfgKind::Section => "Section",
        CfgKind::Keyword => "Keyword",
        CfgKind::Argument => "Argument",
        CfgKind::Expr => "Expr",
        CfgKind::Acl => "Acl",
        CfgKind::Pattern => "Pattern",
        CfgKind::FramingName => "FramingName",
        CfgKind::Limit => "Limit",
        CfgKind::Missing => "Missing",
        CfgKind::Mode => "Mode",
    }
}

fn record_kind_name(kind: RecKind) -> &'static str
    ensures { result.now ≡ record_kind_name kind }
{
    match kind {
        RecKind::Header => "Header",
        RecKind::Length => "Length",
        RecKind::Turn => "Turn",
        RecKind::Rest => "Rest",
        RecKind::Limit => "Limit",
        RecKind::Count => "Count",
    }
}

/// A configuration with so many request rules, rules on what the client is sent, and filters of both directions is accepted.
#[tactic(auto, unfolding(crate::specs::Lines::accepted_line))]
pub fn accepted_line(
    alloc: Global,
    rules: u32,
    answers: u64,
    filters: u64,
) -> Result<Bytes, OutOfMemory>
    ensures { IfOk result (λ line. line ≡ accepted_line rules answers filters) }
{
    let mut line = Bytes::copy(alloc, b"config ok: request rules ")?;
    line.push(rules.to_string(alloc)?.as_bytes())?;
    line.push(b", response rules ")?;
    line.push(answers.to_string(alloc)?.as_bytes())?;
    line.push(b", filters ")?;
    line.push(filters.to_string(alloc)?.as_bytes())?;
    line.push(b"\n")?;
    Ok(line)
}

/// A configuration is refused at this line.
#[tactic(auto, unfolding(crate::specs::Lines::refused_line))]
pub fn refused_line(alloc: Global, line: u32, kind: CfgKind) -> Result<Bytes, OutOfMemory>
    ensures { IfOk result (λ text. text ≡ refused_line line kind) }
{
    let mut text = Bytes::copy(alloc, b"config: line ")?;
    text.push(line.to_string(alloc)?.as_bytes())?;
    text.push(b": ")?;
    text.push(kind_name(kind).as_bytes())?;
    text.push(b"\n")?;
    Ok(text)
}

/// A record is refused at this byte.
#[tactic(auto, unfolding(crate::specs::Lines::record_line))]
pub fn record_line(alloc: Global, place: u32, kind: RecKind) -> Result<Bytes, OutOfMemory>
    ensures { IfOk result (λ text. text ≡ record_line place kind) }
{
    let mut text = Bytes::copy(alloc, b"record: byte ")?;
    text.push(place.to_string(alloc)?.as_bytes())?;
    text.push(b": ")?;
    text.push(record_kind_name(kind).as_bytes())?;
    text.push(b"\n")?;
    Ok(text)
}

/// The file of this name could not be read.
#[tactic(auto, unfolding(crate::specs::Lines::file_line))]
pub fn file_line(alloc: Global, name: &str) -> Result<Bytes, OutOfMemory>
    ensures { IfOk result (λ text. text ≡ file_line name.now) }
{
    let mut text = Bytes::copy(alloc, b"file: ")?;
    text.push(name.as_bytes())?;
    text.push(b"\n")?;
    Ok(text)
}

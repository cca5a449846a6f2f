//! The text of an array of blocks: its room, and a line for each block with where its payload stands.
ghost use Rattle.std.specs.Prelude.{◌≡◌, ◌+◌, ◌<◌, ◌≤◌, ◌-◌, ◌++◌, ℕ, List, length, take, drop, slice_index, codes, decimal, OnOk};
ghost use Rattle.std.specs.List.{flat_map};
ghost use Rattle.htx_model.specs.Block.{kind_of, name_of, payload_len};
ghost use Rattle.htx_model.specs.Blocks.{block_at};
ghost use Rattle.px_explain.specs.Array.{kind_name, hex_digit, is_plain, byte_text, lengths_before, shown_of, place_text, lengths_text, block_line, room_line, block_lines, array_text};
ghost use Rattle.htx_arena.specs.Layout.Raw.{payload_of};

use crate::heads::front;
use http_rules::OutOfMemory;
use htx_arena::{Arena, Kind};
use px_link::Bytes;
use std::alloc::Global;

/// The most bytes of a payload that are written.
const MOST_SHOWN: usize = 64;

/// The word of a kind of blocks.
fn kind_name(kind: Kind) -> &'static str
    ensures { result.now ≡ kind_name kind }
{
    match kind {
        Kind::RequestLine => "request-line",
        Kind::ResponseLine => "response-line",
        Kind::Header => "header",
        Kind::EndHeaders => "end-headers",
        Kind::Data => "data",
        Kind::Trailer => "trailer",
        Kind::EndTrailers => "end-trailers",
    }
}

/// How many bytes of lengths stand in front of the parts of a start line.
fn lengths_before(kind: Kind) -> u32
    ensures { result ≡ lengths_before kind }
{
    match kind {
        Kind::RequestLine => 12,
        Kind::ResponseLine => 12,
        Kind::Header => 0,
        Kind::EndHeaders => 0,
        Kind::Data => 0,
        Kind::Trailer => 0,
        Kind::EndTrailers => 0,
    }
}

/// How many bytes the name of a block has, which is none but of a field.
fn name_len(msg: &Arena, at: u32) -> usize
    requires { at < length msg.now.blocks }
    ensures { result ≡ length (name_of (block_at msg.now.blocks at)) }
{
    match msg.kind(at) {
        Kind::Header => msg.name(at).len(),
        Kind::Trailer => msg.name(at).len(),
        Kind::RequestLine => 0,
        Kind::ResponseLine => 0,
        Kind::EndHeaders => 0,
        Kind::Data => 0,
        Kind::EndTrailers => 0,
    }
}

/// So many bytes of an array from a place on.
fn part(raw: &[u8], from: usize, len: usize) -> &[u8]
    requires { from + len ≤ length raw.now }
    ensures { result.now ≡ take len (drop from raw.now) }
{
    &raw[from..from + len]
}

/// A payload without the lengths in front of a start line.
fn parts(msg: &Arena, at: u32) -> &[u8]
    requires { at < length msg.now.blocks }
    ensures { result.now ≡ drop (lengths_before (kind_of (block_at msg.now.blocks at))) (payload_of (block_at msg.now.blocks at)) }
{
    let skip = lengths_before(msg.kind(at));
    let from = msg.addr(at) as usize + skip as usize;
    let len = (msg.payload_len(at) - skip) as usize;
    part(msg.raw(), from, len)
}

/// The first bytes of that.
fn shown(msg: &Arena, at: u32) -> &[u8]
    requires { at < length msg.now.blocks }
    ensures { result.now ≡ shown_of (block_at msg.now.blocks at) }
{
    front(parts(msg, at), MOST_SHOWN)
}

/// The digit of a number below 16.
fn hex_digit(d: u8) -> u8
    requires { d < 16 }
    ensures { result ≡ hex_digit d }
{
    if d < 10 {
        return 48 + d;
    }
    87 + d
}

/// Whether a byte stands for itself.
fn is_plain(byte: u8) -> bool
    ensures { result ≡ is_plain byte }
{
    32 <= byte && byte <= 126
}

/// Puts a byte as text behind a text.
fn push_byte(text: &mut Bytes, byte: u8) -> Result<(), OutOfMemory>
    ensures { OnOk result (text.new ≡ text.old ++ byte_text byte) }
{
    if is_plain(byte) {
        return text.push(&[byte]);
    }
    text.push(&[b'\\', b'x', hex_digit(byte / 16), hex_digit(byte % 16)])
}

/// Puts bytes as text behind a text.
fn push_shown(text: &mut Bytes, bytes: &[u8]) -> Result<(), OutOfMemory>
    ensures { OnOk result (text.new ≡ text.old ++ flat_map byte_text bytes.now) }
{
    for byte in bytes {
        push_byte(text, *byte)?;
    }
    Ok(())
}

/// Puts words and a number behind a text.
fn push_number(
    alloc: Global,
    text: &mut Bytes,
    words: &[u8],
    number: u64,
) -> Result<(), OutOfMemory>
    ensures { OnOk result (text.new ≡ text.old ++ words.now ++ decimal number) }
{
    text.push(words)?;
    text.push(number.to_string(alloc)?.as_bytes())
}

/// Puts the number of a block, its kind and its address behind a text.
fn push_place(alloc: Global, text: &mut Bytes, msg: &Arena, at: u32) -> Result<(), OutOfMemory>
    requires { at < length msg.now.blocks }
    ensures { OnOk result (text.new ≡ text.old ++ place_text at (slice_index msg.now.addrs at) (block_at msg.now.blocks at)) }
{
    push_number(alloc, text, b"block ", u64::from(at))?;
    text.push(b" ")?;
    text.push(kind_name(msg.kind(at)).as_bytes())?;
    push_number(alloc, text, b" at ", u64::from(msg.addr(at)))
}

/// Puts how many bytes the name has and how many stand behind it behind a text.
fn push_lengths(alloc: Global, text: &mut Bytes, msg: &Arena, at: u32) -> Result<(), OutOfMemory>
    requires { at < length msg.now.blocks }
    ensures { OnOk result (text.new ≡ text.old ++ lengths_text (block_at msg.now.blocks at)) }
{
    let name = name_len(msg, at);
    let value = msg.payload_len(at) as usize - name;
    push_number(alloc, text, b" name ", name as u64)?;
    push_number(alloc, text, b" value ", value as u64)
}

/// Puts the line of a block behind a text.
#[tactic(auto, unfolding(crate::specs::Array::block_line))]
fn push_block(alloc: Global, text: &mut Bytes, msg: &Arena, at: u32) -> Result<(), OutOfMemory>
    requires { at < length msg.now.blocks }
    ensures { OnOk result (text.new ≡ text.old ++ block_line at (slice_index msg.now.addrs at) (block_at msg.now.blocks at)) }
{
    push_place(alloc, text, msg, at)?;
    push_lengths(alloc, text, msg, at)?;
    text.push(b" ")?;
    push_shown(text, shown(msg, at))?;
    text.push(b"\n")
}

/// Puts the line of an array's room behind a text.
fn push_room(alloc: Global, text: &mut Bytes, msg: &Arena) -> Result<(), OutOfMemory>
    ensures { OnOk result (text.new ≡ text.old ++ room_line msg.now) }
{
    let (load, room) = (u64::from(msg.load()), u64::from(msg.room()));
    push_number(alloc, text, b"room ", load + room)?;
    push_number(alloc, text, b" load ", load)?;
    push_number(alloc, text, b" free ", room)?;
    text.push(b"\n")
}

/// Puts the lines of blocks behind a text.
fn push_blocks(alloc: Global, text: &mut Bytes, msg: &Arena) -> Result<(), OutOfMemory>
    ensures { OnOk result (text.new ≡ text.old ++ block_lines msg.now 0 (length msg.now.blocks)) }
{
    for at in 0..msg.len() {
        push_block(alloc, text, msg, at)?;
    }
    Ok(())
}

/// Puts the text of an array behind a text.
#[tactic(auto, unfolding(crate::specs::Array::array_text))]
pub(crate) fn push_array(alloc: Global, text: &mut Bytes, msg: &Arena) -> Result<(), OutOfMemory>
    ensures { OnOk result (text.new ≡ text.old ++ array_text msg.now) }
{
    push_room(alloc, text, msg)?;
    push_blocks(alloc, text, msg)
}

//! Edits of the header fields, each in one step.
ghost use Rattle.std.specs.Prelude.{◌≡◌, ◌+◌, ◌≤◌, ◌<◌, ◌↔◌, ◌++◌, ◌∷◌, ℕ, length, take, drop, OnOk, OnErr, IsOk, IsTrue};
ghost use Rattle.htx_arena.specs.Block.{Block, Header};
ghost use Rattle.htx_arena.specs.Blocks.{load, Fits, block_at};
ghost use Rattle.header_ops.specs.Headers.{is_header_named, weight_if_named, without_headers, with_header, set_header, HasEnd};

use crate::names::is_named;
use crate::remove::remove_named;
use htx_arena::{Arena, Full, Kind};

/// What the block at an index weighs where it is a header of this name, else 0.
#[tactic(auto, using(crate::proofs::Loads::weights))]
fn weight_if_named(msg: &Arena, at: u32, name: &[u8]) -> u32
    requires { at < length msg.now.blocks }
    ensures { result ≡ weight_if_named name.now (block_at msg.now.blocks at) }
{
    // For its clause: no block weighs more than the load, which is below 2^32.
    let _load = msg.load();
    if is_named(msg, at, name) {
        (8 + msg.name(at).len() + msg.value(at).len()) as u32
    } else {
        0
    }
}

/// What the headers of this name weigh.
#[tactic(auto, using(crate::proofs::Loads::sums))]
fn load_of_named(msg: &Arena, name: &[u8]) -> u32
    ensures { result + load (without_headers name.now msg.now.blocks) ≡ load msg.now.blocks }
{
    let mut sum = 0;
    // For its clause: the sum is within the load, which is below 2^32.
    let _load = msg.load();
    for at in 0..msg.len() {
        sum += weight_if_named(msg, at, name);
    }
    sum
}

/// Where the headers end.
fn end_of_headers(msg: &Arena) -> u32
    requires { HasEnd msg.now.blocks }
    ensures within { result < length msg.now.blocks }
    ensures place { (field : Block) → with_header field msg.now.blocks ≡ take result msg.now.blocks ++ (field ∷ drop result msg.now.blocks) }
{
    for at in 0..msg.len() {
        if msg.kind(at) == Kind::EndHeaders {
            return at;
        }
    }
    unreachable!()
}

/// Puts a header of this name, which is in lower case, behind the others.
#[tactic(auto, using(crate::proofs::Ends::ends))]
pub fn add_field(msg: &mut Arena, name: &[u8], value: &[u8]) -> Result<(), Full>
    requires end { HasEnd msg.old.blocks }
    requires named { 1 ≤ length name.now }
    requires short { length name.now ≤ 255 }
    ensures ok { OnOk result (msg.new.blocks ≡ with_header (Header name.now value.now) msg.old.blocks) }
    ensures fits { IsOk result ↔ Fits (with_header (Header name.now value.now) msg.old.blocks) msg.old.size }
    ensures full { OnErr result (msg.new ≡ msg.old) }
    ensures end { HasEnd msg.new.blocks }
    ensures size { msg.new.size ≡ msg.old.size }
{
    let end = end_of_headers(msg);
    msg.insert_field(end, Kind::Header, name, value)
}

/// Whether a field of this name and value weighs at most so much.
fn is_within(room: usize, name: &[u8], value: &[u8]) -> bool
    requires { length name.now ≤ 255 }
    ensures { IsTrue result ↔ (8 + length name.now + length value.now ≤ room) }
{
    value.len() <= room && 8 + name.len() + value.len() <= room
}

/// Removes the headers of this name, which weigh so much. Where that is nothing there are none, and no block is looked at.
fn clear_named(msg: &mut Arena, name: &[u8], weight: u32)
    requires weight { weight + load (without_headers name.now msg.old.blocks) ≡ load msg.old.blocks }
    ensures blocks { msg.new.blocks ≡ without_headers name.now msg.old.blocks }
    ensures end { HasEnd msg.old.blocks → HasEnd msg.new.blocks }
    ensures size { msg.new.size ≡ msg.old.size }
{
    if weight > 0 {
        remove_named(msg, name);
    }
}

/// Removes each header of this name and puts one of this value behind the others. The name is in lower case.
#[tactic(auto, using(crate::proofs::Ends::ends))]
pub fn set_field(msg: &mut Arena, name: &[u8], value: &[u8]) -> Result<(), Full>
    requires end { HasEnd msg.old.blocks }
    requires named { 1 ≤ length name.now }
    requires short { length name.now ≤ 255 }
    ensures ok { OnOk result (msg.new.blocks ≡ set_header name.now value.now msg.old.blocks) }
    ensures fits { IsOk result ↔ Fits (set_header name.now value.now msg.old.blocks) msg.old.size }
    ensures full { OnErr result (msg.new ≡ msg.old) }
    ensures end { HasEnd msg.new.blocks }
    ensures size { msg.new.size ≡ msg.old.size }
{
    let weight = load_of_named(msg, name);
    let room = msg.room() as usize + weight as usize;
    if !is_within(room, name, value) {
        return Err(Full);
    }
    clear_named(msg, name, weight);
    add_field(msg, name, value)
}

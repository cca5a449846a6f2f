//! Moves blocks from the front of one array to the end of another, as far as room and a limit allow. It takes no memory.
#![tactic(auto)]

ghost use Rattle.std.specs.Prelude.{◌≡◌, ◌≢◌, ◌≤◌, ◌<◌, ◌+◌, ◌-◌, ◌*◌, ◌++◌, [], length, take, drop, min, IsTrue, IsFalse, IsNone, IfSome};
ghost use Rattle.htx_model.specs.Block.{payload_len, kind_of};
ghost use Rattle.htx_model.specs.declared.Kind.TheVariants.{Data};
ghost use Rattle.htx_model.specs.Blocks.{block_at, load, flow};
ghost use Rattle.htx_model.specs.Flow.{added};
ghost use Rattle.htx_xfer.specs.Moved.{Moves, MovesBlock, Copies, payload, rest_of};

use htx_arena::{Arena, Kind};
use std::mem;

/// How much was copied: so many whole blocks, of the next, if it is data, so many bytes, and all their payload bytes.
#[derive(Clone, Copy)]
struct Copied {
    count: u32,
    part: u32,
    bytes: u32,
}

/// Copies data, of at most so many bytes, and answers the bytes copied.
fn copy_data(from: &Arena, at: u32, to: &mut Arena, limit: u32) -> u32
    requires within { at < length from.now.blocks }
    requires kind { kind_of (block_at from.now.blocks at) ≡ Data }
    ensures moves { MovesBlock (block_at from.now.blocks at) to.old.size limit to.old.blocks to.new.blocks result }
    ensures size { to.new.size ≡ to.old.size }
{
    let bytes = from.value(at);
    let most = bytes.len().min(limit as usize);
    to.add_data(&bytes[..most])
}

/// Copies a block, or of data the longest front that fits, and answers the payload bytes copied.
fn copy_block(from: &Arena, at: u32, to: &mut Arena, limit: u32) -> u32
    requires { at < length from.now.blocks }
    ensures moves { MovesBlock (block_at from.now.blocks at) to.old.size limit to.old.blocks to.new.blocks result }
    ensures size { to.new.size ≡ to.old.size }
{
    if from.kind(at) == Kind::Data {
        return copy_data(from, at, to, limit);
    }
    let len = from.payload_len(at);
    if len > limit {
        return 0;
    }
    match to.add_copy(from, at) {
        Ok(()) => len,
        Err(_) => 0,
    }
}

/// Copies blocks as far as room and limit allow.
fn copy(from: &Arena, to: &mut Arena, limit: u32) -> Copied
    ensures copies { Copies from.now.blocks to.old.size limit to.old.blocks to.new.blocks result }
    ensures size { to.new.size ≡ to.old.size }
{
    let mut bytes = 0;
    for at in 0..from.len() {
        let part = copy_block(from, at, to, limit - bytes);
        bytes += part;
        if part < from.payload_len(at) {
            return Copied {
                count: at,
                part,
                bytes,
            };
        }
    }
    Copied {
        count: from.len(),
        part: 0,
        bytes,
    }
}

/// Drops so many blocks from the front, and so many bytes of the next.
fn leave(from: &mut Arena, count: u32, part: u32)
    requires count { count ≤ length from.old.blocks }
    requires cut { 0 < part → (count < length from.old.blocks) × (kind_of (block_at from.old.blocks count) ≡ Data) × (part < payload_len (block_at from.old.blocks count)) }
    ensures left { from.new.blocks ≡ rest_of from.old.blocks count part }
    ensures size { from.new.size ≡ from.old.size }
{
    if part == 0 {
        from.drop_first(count);
        return;
    }
    from.cut_front(count, part);
    from.drop_first(count);
}

/// Whether a block is data, which has at least a byte.
fn is_data(from: &Arena, at: u32) -> bool
    requires { at < length from.now.blocks }
    ensures data { IsTrue result → kind_of (block_at from.now.blocks at) ≡ Data }
    ensures some { kind_of (block_at from.now.blocks at) ≡ Data → 0 < payload_len (block_at from.now.blocks at) }
    ensures other { IsFalse result → kind_of (block_at from.now.blocks at) ≢ Data }
{
    from.kind(at) == Kind::Data && from.payload_len(at) > 0
}

/// Whether no data stands right behind data, so that an empty array would take the blocks as they are.
fn stands_apart(from: &Arena) -> bool
    ensures { IsTrue result → added [] from.now.blocks ≡ from.now.blocks }
{
    let mut was_data = false;
    for at in 0..from.len() {
        let is_data = is_data(from, at);
        if was_data && is_data {
            return false;
        }
        was_data = is_data;
    }
    true
}

/// The payload bytes of all blocks.
fn payload_bytes(from: &Arena) -> u32
    ensures { result ≡ payload from.now.blocks }
{
    from.load() - 8 * from.len()
}

/// Whether all blocks would go as they are to an array that is empty and has the same size.
fn goes_whole(from: &Arena, to: &Arena) -> bool
    ensures empty { IsTrue result → to.now.blocks ≡ [] }
    ensures size { IsTrue result → to.now.size ≡ from.now.size }
    ensures apart { IsTrue result → added [] from.now.blocks ≡ from.now.blocks }
{
    to.len() == 0 && to.room().checked_sub(from.room()) == Some(from.load()) && stands_apart(from)
}

/// Moves all blocks at once, by swapping the two arrays, where that is what a move one by one comes to. Answers the payload
/// bytes moved, or None where nothing was done.
fn swap_whole(from: &mut Arena, to: &mut Arena, limit: u32) -> Option<u32>
    ensures moves { IfSome result (λ moved. Moves from.old.blocks to.old.size limit to.old.blocks from.new.blocks to.new.blocks moved) }
    ensures flow { IfSome result (λ moved. flow (to.new.blocks ++ from.new.blocks) ≡ flow (to.old.blocks ++ from.old.blocks)) }
    ensures all { IfSome result (λ moved. from.new.blocks ≡ []) }
    ensures from_size { from.new.size ≡ from.old.size }
    ensures to_size { to.new.size ≡ to.old.size }
    ensures from_same { IsNone result → from.new ≡ from.old }
    ensures to_same { IsNone result → to.new ≡ to.old }
{
    let bytes = payload_bytes(from);
    if bytes > limit || !goes_whole(from, to) {
        return None;
    }
    mem::swap(from, to);
    Some(bytes)
}

/// Moves blocks one by one, as `xfer` says.
fn move_each(from: &mut Arena, to: &mut Arena, limit: u32) -> u32
    ensures moves { Moves from.old.blocks to.old.size limit to.old.blocks from.new.blocks to.new.blocks result }
    ensures flow { flow (to.new.blocks ++ from.new.blocks) ≡ flow (to.old.blocks ++ from.old.blocks) }
    ensures all { load to.old.blocks + load from.old.blocks ≤ to.old.size → payload from.old.blocks ≤ limit → from.new.blocks ≡ [] }
    ensures from_size { from.new.size ≡ from.old.size }
    ensures to_size { to.new.size ≡ to.old.size }
{
    let copied = copy(from, to, limit);
    leave(from, copied.count, copied.part);
    copied.bytes
}

/// Moves blocks from the front of `from` to the end of `to`, as long as the next fits and its payload is within what is
/// left of `limit`; of data the longest front that does. Answers the payload bytes moved. Where all go to an empty array of
/// the same size, the arrays change places and no byte is copied.
pub fn xfer(from: &mut Arena, to: &mut Arena, limit: u32) -> u32
    ensures moves { Moves from.old.blocks to.old.size limit to.old.blocks from.new.blocks to.new.blocks result }
    ensures flow { flow (to.new.blocks ++ from.new.blocks) ≡ flow (to.old.blocks ++ from.old.blocks) }
    ensures all { load to.old.blocks + load from.old.blocks ≤ to.old.size → payload from.old.blocks ≤ limit → from.new.blocks ≡ [] }
    ensures from_size { from.new.size ≡ from.old.size }
    ensures to_size { to.new.size ≡ to.old.size }
{
    match swap_whole(from, to, limit) {
        Some(moved) => moved,
        None => move_each(from, to, limit),
    }
}

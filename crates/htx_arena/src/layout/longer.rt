//! A payload that becomes longer: its first bytes with others behind them, placed by the four cases. Its old place counts as free.
ghost use Rattle.std.specs.Prelude.{◌≡◌, ◌+◌, ◌-◌, ◌*◌, ◌^◌, ◌<◌, ◌≤◌, length, sum_by, insert, remove, slice_set};
ghost use Rattle.htx_model.specs.Block.{payload_len};
ghost use Rattle.htx_arena.specs.Layout.Raw.{blocks_of, addrs_of, block_of, info_len, addr_in, len_in};
ghost use Rattle.htx_arena.specs.Layout.Sound.{IsLaid, IsTop, IsKnown};
ghost use Rattle.htx_arena.specs.Layout.Place.{packed, layout};
ghost use Rattle.htx_arena.specs.Layout.Moves.{IsSite, IsOpen, IsKept};
ghost use Rattle.htx_arena.specs.Layout.Longer.{IsLonger, longer_bytes};
ghost use Rattle.htx_arena.specs.Space.Windows.{window};

use crate::layout::scan::{self, Ends, Spot};
use crate::layout::words::Info;
use crate::layout::{change, edits};
use crate::space::{Desc, Space};

/// A payload that becomes longer: bytes of its own, which stand in the array at `from`, as many as `kept` tells, and
/// `more` behind them.
#[derive(Clone, Copy)]
pub struct Longer<'a> {
    pub from: u32,
    pub kept: Info,
    pub info: Info,
    pub more: &'a [u8],
}

/// Writes its bytes into open ones.
fn fill(space: &mut Space, count: u32, to: u32, new: Longer<'_>)
    requires laid { IsLaid space.old count 0 }
    requires longer { IsLonger space.old new }
    requires opens { IsOpen space.old count to (info_len new.info.0) }
    ensures kept { IsKept space.old space.new count }
    ensures there { window space.new to (info_len new.entry.info.0) ≡ longer_bytes space.old new.entry }
{
    let keep = new.kept.payload_len();
    space.slide(new.from, to, keep);
    space.put(to + keep, new.more);
}

/// Puts the block back at a free place.
fn extend_free(space: &mut Space, count: u32, at: u32, spot: Spot, new: Longer<'_>)
    requires laid { IsLaid space.old count 0 }
    requires longer { IsLonger space.old new }
    requires site { IsSite space.old count (info_len new.info.0) spot }
    requires within { at ≤ count }
    ensures blocks { blocks_of space.new (count + 1) ≡ insert (blocks_of space.old count) at (block_of new.entry.info.0 (longer_bytes space.old new.entry)) }
    ensures addrs { addrs_of space.new (count + 1) ≡ insert (addrs_of space.old count) at spot.addr }
    ensures laid { IsLaid space.new (count + 1) spot.front }
    ensures size { length space.new ≡ length space.old }
{
    let info = new.info.0;
    let addr = spot.addr;
    fill(space, count, addr, new);
    edits::list(space, count, at, Desc { addr, info });
}

/// Puts the block back behind all others, which close up, and answers where it ends.
fn extend_packed(space: &mut Space, count: u32, at: u32, new: Longer<'_>) -> u32
    requires laid { IsLaid space.old count 0 }
    requires longer { IsLonger space.old new }
    requires opens { IsOpen space.old count new.from (info_len new.kept.0) }
    requires within { at ≤ count }
    requires fits { sum_by payload_len (blocks_of space.old count) + info_len new.info.0 + 8 * (count + 1) ≤ length space.old }
    ensures blocks { blocks_of space.new (count + 1) ≡ insert (blocks_of space.old count) at (block_of new.entry.info.0 (longer_bytes space.old new.entry)) }
    ensures addrs { addrs_of space.new (count + 1) ≡ insert (packed (blocks_of space.old count) (addrs_of space.old count)) at (sum_by payload_len (blocks_of space.old count)) }
    ensures laid { IsLaid space.new (count + 1) 0 }
    ensures topped { IsTop space.new (count + 1) result }
    ensures size { length space.new ≡ length space.old }
{
    let info = new.kept.0;
    let addr = new.from;
    edits::list(space, count, at, Desc { addr, info });
    change::renew(space, count + 1, at, new.info, new.more)
}

/// Puts the block back by the four cases, and answers the ends of the bytes in use.
fn refit(space: &mut Space, count: u32, ends: Ends, at: u32, new: Longer<'_>) -> Ends
    requires laid { IsLaid space.old count ends.front }
    requires topped { IsTop space.old count ends.top }
    requires known { IsKnown space.old count ends.front ends.low }
    requires longer { IsLonger space.old new }
    requires opens { IsOpen space.old count new.from (info_len new.kept.0) }
    requires within { at ≤ count }
    requires fits { sum_by payload_len (blocks_of space.old count) + info_len new.info.0 + 8 * (count + 1) ≤ length space.old }
    ensures blocks { blocks_of space.new (count + 1) ≡ insert (blocks_of space.old count) at (block_of new.entry.info.0 (longer_bytes space.old new.entry)) }
    ensures addrs { let l = layout (length space.old) (blocks_of space.old count) (addrs_of space.old count) ends.front (info_len new.entry.info.0) in addrs_of space.new (count + 1) ≡ insert l.addrs at l.addr }
    ensures front { result.front ≡ (layout (length space.old) (blocks_of space.old count) (addrs_of space.old count) ends.front (info_len new.entry.info.0)).front }
    ensures laid { IsLaid space.new (count + 1) result.front }
    ensures topped { IsTop space.new (count + 1) result.top }
    ensures known { IsKnown space.new (count + 1) result.front result.low }
    ensures size { length space.new ≡ length space.old }
{
    let len = new.info.payload_len();
    let low = scan::low_for(space, count, ends, len);
    let ends = Ends { low, ..ends };
    match scan::spot_of(space, count, ends, len) {
        Some(spot) => {
            extend_free(space, count, at, spot, new);
            scan::ends_with(ends, spot, len)
        }
        None => Ends {
            front: 0,
            top: extend_packed(space, count, at, new),
            low: None,
        },
    }
}

/// Gives a block the longer payload. Its old one counts as gone. Answers the ends of the bytes in use.
pub fn extend(space: &mut Space, count: u32, ends: Ends, at: u32, new: Longer<'_>) -> Ends
    requires laid { IsLaid space.old count ends.front }
    requires topped { IsTop space.old count ends.top }
    requires known { IsKnown space.old count ends.front ends.low }
    requires within { at < count }
    requires longer { IsLonger space.old new }
    requires own { new.from ≡ addr_in space.old at }
    requires part { info_len new.kept.0 ≤ len_in space.old at }
    requires fits { sum_by payload_len (remove (blocks_of space.old count) at) + info_len new.info.0 + 8 * count ≤ length space.old }
    ensures blocks { blocks_of space.new count ≡ slice_set (blocks_of space.old count) at (block_of new.entry.info.0 (longer_bytes space.old new.entry)) }
    ensures addrs { let l = layout (length space.old) (remove (blocks_of space.old count) at) (remove (addrs_of space.old count) at) ends.front (info_len new.entry.info.0) in addrs_of space.new count ≡ insert l.addrs at l.addr }
    ensures front { result.front ≡ (layout (length space.old) (remove (blocks_of space.old count) at) (remove (addrs_of space.old count) at) ends.front (info_len new.entry.info.0)).front }
    ensures laid { IsLaid space.new count result.front }
    ensures topped { IsTop space.new count result.top }
    ensures known { IsKnown space.new count result.front result.low }
    ensures size { length space.new ≡ length space.old }
{
    let end = scan::end_at(space, count, at);
    let Ends { front, top, .. } = ends;
    let low = scan::low_without(ends, new.from);
    edits::unlist(space, count, at);
    let rest = scan::ends_behind(space, count - 1, Ends { front, top, low }, end);
    refit(space, count - 1, rest, at, new)
}

//! A new payload finds its place by the four cases, and a block comes in with it. Only the last case moves other payloads.
ghost use Rattle.std.specs.Prelude.{◌≡◌, ◌+◌, ◌*◌, ◌≤◌, length, nat_lt, if◌then◌else◌, sum_by, insert};
ghost use Rattle.htx_model.specs.Block.{payload_len};
ghost use Rattle.htx_arena.specs.Layout.Raw.{blocks_of, addrs_of};
ghost use Rattle.htx_arena.specs.Layout.Sound.{IsSound, IsTold, IsFilled, IsLaid, IsTop, IsKnown};
ghost use Rattle.htx_arena.specs.Layout.Place.{layout};
ghost use Rattle.htx_arena.specs.Layout.Moves.{IsSite};

use crate::layout::new_block::NewBlock;
use crate::layout::scan::{self, Ends, Spot};
use crate::layout::{edits, pack};
use crate::space::{Desc, Space};

/// Where a payload goes, and the ends of the bytes in use among the others.
#[derive(Clone, Copy)]
struct Found {
    spot: Spot,
    ends: Ends,
}

/// Finds the place of a payload, by the four cases.
#[inline(always)]
fn site(space: &mut Space, count: u32, ends: Ends, len: u32) -> Found
    requires laid { IsLaid space.old count ends.front }
    requires topped { IsTop space.old count ends.top }
    requires known { IsKnown space.old count ends.front ends.low }
    requires fits { sum_by payload_len (blocks_of space.old count) + len + 8 * (count + 1) ≤ length space.old }
    ensures blocks { blocks_of space.new count ≡ blocks_of space.old count }
    ensures addrs { addrs_of space.new count ≡ (layout (length space.old) (blocks_of space.old count) (addrs_of space.old count) ends.front len).addrs }
    ensures addr { result.spot.addr ≡ (layout (length space.old) (blocks_of space.old count) (addrs_of space.old count) ends.front len).addr }
    ensures front { result.spot.front ≡ (layout (length space.old) (blocks_of space.old count) (addrs_of space.old count) ends.front len).front }
    ensures sound { IsSound space.new count }
    ensures told { IsTold space.new count }
    ensures filled { IsFilled space.new count }
    ensures site { IsSite space.new count len result.spot }
    ensures topped { IsTop space.new count result.ends.top }
    ensures known { IsKnown space.new count result.ends.front result.ends.low }
    ensures size { length space.new ≡ length space.old }
{
    let low = scan::low_for(space, count, ends, len);
    let ends = Ends { low, ..ends };
    match scan::spot_of(space, count, ends, len) {
        Some(spot) => Found { spot, ends },
        None => {
            let end = pack::defrag(space, count);
            Found {
                spot: Spot {
                    addr: end,
                    front: 0,
                },
                ends: Ends {
                    front: 0,
                    top: end,
                    low: None,
                },
            }
        }
    }
}

/// The front, or 0 where no payload stands at or above it: none ends behind it then.
pub fn settle(ends: Ends) -> u32
    ensures { result ≡ if nat_lt ends.front ends.top then ends.front else 0 }
{
    if ends.front < ends.top { ends.front } else { 0 }
}

/// Puts in a block, and answers the ends of the bytes in use.
#[inline(always)]
pub fn add(space: &mut Space, count: u32, ends: Ends, at: u32, new: &NewBlock<'_>) -> Ends
    requires laid { IsLaid space.old count ends.front }
    requires topped { IsTop space.old count ends.top }
    requires known { IsKnown space.old count ends.front ends.low }
    requires within { at ≤ count }
    requires fits { sum_by payload_len (blocks_of space.old count) + payload_len new.now + 8 * (count + 1) ≤ length space.old }
    ensures blocks { blocks_of space.new (count + 1) ≡ insert (blocks_of space.old count) at new.now }
    ensures addrs { let l = layout (length space.old) (blocks_of space.old count) (addrs_of space.old count) ends.front (payload_len new.now) in addrs_of space.new (count + 1) ≡ insert l.addrs at l.addr }
    ensures front { result.front ≡ (layout (length space.old) (blocks_of space.old count) (addrs_of space.old count) ends.front (payload_len new.now)).front }
    ensures laid { IsLaid space.new (count + 1) result.front }
    ensures topped { IsTop space.new (count + 1) result.top }
    ensures known { IsKnown space.new (count + 1) result.front result.low }
    ensures size { length space.new ≡ length space.old }
{
    let found = site(space, count, ends, new.len());
    let addr = found.spot.addr;
    let info = new.info().0;
    edits::place(space, count, at, Desc { addr, info }, new.payload());
    scan::ends_with(found.ends, found.spot, new.len())
}

//! What a look at descriptors tells: where the bytes in use end, where a payload goes, and what blocks weigh. Nothing is moved.
ghost use Rattle.std.specs.Prelude.{ℕ, Option, Some, ◌≡◌, ◌+◌, ◌-◌, ◌*◌, ◌^◌, ◌<◌, ◌≤◌, length, drop, max, min, IfSome};
ghost use Rattle.std.specs.Option.{option_map_or};
ghost use Rattle.htx_arena.specs.Layout.Raw.{blocks_of, addrs_of, addr_in, len_in, block_in};
ghost use Rattle.htx_arena.specs.Layout.Sound.{IsSound, IsTold, IsLaid, IsTop, IsKnown, StaysLow, end_of};
ghost use Rattle.htx_arena.specs.Space.Windows.{desc_at};
ghost use Rattle.htx_arena.specs.Layout.Place.{top, low, spot, stays, grown_at_top as top_growth, grown_at_front as front_growth, before as before_spot};
ghost use Rattle.htx_model.specs.Block.{payload_len};
ghost use Rattle.htx_model.specs.Blocks.{load};

use crate::layout::words::Info;
use crate::space::Space;

/// Where the bytes in use end: at the beginning since wrapping, or 0, and at the top; and the least address at or above
/// `front`, where it is known.
#[derive(Clone, Copy)]
pub struct Ends {
    pub front: u32,
    pub top: u32,
    pub low: Option<u32>,
}

/// What blocks weigh, and a place at or below which their payloads end.
#[derive(Clone, Copy)]
pub struct Weighed {
    pub weight: u32,
    pub end: u32,
}

/// Where a payload goes, and the front then.
#[derive(Clone, Copy)]
pub struct Spot {
    pub addr: u32,
    pub front: u32,
}

/// Where the payload of this number ends.
pub fn end_at(space: &Space, count: u32, index: u32) -> u32
    requires sound { IsSound space.now count }
    requires told { IsTold space.now count }
    requires small { length space.now ≤ 262144 }
    requires within { index < count }
    ensures value { result ≡ addr_in space.now index + payload_len (block_in space.now index) }
    ensures small { result ≤ 262144 }
{
    let desc = space.descriptor(index);
    desc.addr + Info(desc.info).payload_len()
}

/// The lesser of two addresses, of which one may not be there.
fn lesser(low: Option<u32>, addr: u32) -> u32
    ensures { result ≡ option_map_or (λ l. min l addr) low addr }
{
    match low {
        Some(l) => l.min(addr),
        None => addr,
    }
}

/// The ends, by a look at all descriptors.
pub fn ends_of(space: &Space, count: u32, front: u32) -> Ends
    requires laid { IsLaid space.now count front }
    ensures front { result.front ≡ front }
    ensures laid { IsLaid space.now count result.front }
    ensures topped { IsTop space.now count result.top }
    ensures low { result.low ≡ low result.front (addrs_of space.now count) }
{
    let mut top = 0;
    let mut low = None;
    for i in 0..count {
        let addr = space.descriptor(i).addr;
        top = top.max(end_at(space, count, i));
        if front <= addr {
            low = Some(lesser(low, addr));
        }
    }
    Ends { front, top, low }
}

/// The ends once payloads that ended at or below `end` are shorter or gone: the top has stayed where another payload
/// ended behind those, and else all are looked at.
#[tactic(auto, using(crate::proofs::LayoutLemmas::KnownLemmas::knowns))]
pub fn ends_behind(space: &Space, count: u32, ends: Ends, end: u32) -> Ends
    requires laid { IsLaid space.now count ends.front }
    requires stayed { end < ends.top → IsTop space.now count ends.top }
    requires known { IsKnown space.now count ends.front ends.low }
    ensures front { result.front ≡ ends.front }
    ensures laid { IsLaid space.now count result.front }
    ensures topped { IsTop space.now count result.top }
    ensures known { IsKnown space.now count result.front result.low }
{
    if end < ends.top {
        return ends;
    }
    ends_of(space, count, ends.front)
}

/// The least address at or above `front` once the payload at `addr` is gone, where it is known.
#[tactic(auto, using(crate::proofs::LayoutLemmas::KnownLemmas::knowns))]
pub fn low_without(ends: Ends, addr: u32) -> Option<u32>
    ensures kept { (l : ℕ) → result ≡ Some l → ends.low ≡ Some l }
    ensures below { (l : ℕ) → result ≡ Some l → addr < ends.front }
{
    if addr < ends.front { ends.low } else { None }
}

/// The least address at or above `front`: all are looked at where it isn't known and a payload ends behind `front`.
#[tactic(auto, using(crate::proofs::LayoutLemmas::KnownLemmas::knowns))]
pub fn low_of(space: &Space, count: u32, ends: Ends) -> Option<u32>
    requires laid { IsLaid space.now count ends.front }
    requires topped { IsTop space.now count ends.top }
    requires known { IsKnown space.now count ends.front ends.low }
    ensures { result ≡ low ends.front (addrs_of space.now count) }
{
    if let Some(low) = ends.low {
        return Some(low);
    }
    if ends.top <= ends.front {
        return None;
    }
    ends_of(space, count, ends.front).low
}

/// The least address at or above `front`, which is asked for where a payload doesn't go behind the top.
#[tactic(auto, using(crate::proofs::LayoutLemmas::KnownLemmas::knowns))]
pub fn low_for(space: &Space, count: u32, ends: Ends, len: u32) -> Option<u32>
    requires laid { IsLaid space.now count ends.front }
    requires topped { IsTop space.now count ends.top }
    requires known { IsKnown space.now count ends.front ends.low }
    requires len { len ≤ 262144 }
    ensures { IsKnown space.now count ends.front result }
{
    if ends.front == 0 {
        if ends.top + len + 8 * (count + 1) <= space.size() {
            return ends.low;
        }
    }
    low_of(space, count, ends)
}

/// The least address at or above `front` once a payload is put in front of it, where it is known.
fn low_with(ends: Ends, spot: Spot) -> Option<u32>
    ensures { IfSome result (StaysLow ends spot) }
{
    let low = ends.low?;
    if spot.addr < spot.front {
        if ends.front <= spot.front {
            if spot.front <= low {
                return Some(low);
            }
        }
    }
    None
}

/// The ends once so many bytes are put at a spot.
pub fn ends_with(ends: Ends, spot: Spot, len: u32) -> Ends
    requires { spot.addr + len < 2 ^ 32 }
    ensures front { result.front ≡ spot.front }
    ensures top { result.top ≡ max ends.top (spot.addr + len) }
    ensures low { IfSome result.low (StaysLow ends spot) }
{
    Ends {
        front: spot.front,
        top: ends.top.max(spot.addr + len),
        low: low_with(ends, spot),
    }
}

/// A place in front of the least address at or above `front`.
fn before(low: Option<u32>, front: u32, len: u32, room: bool) -> Option<Spot>
    requires { front + len < 2 ^ 32 }
    ensures { result ≡ before_spot low front len room }
{
    let low = low?;
    if front + len > low {
        return None;
    }
    if !room {
        return None;
    }
    Some(Spot {
        addr: front,
        front: front + len,
    })
}

/// Where a payload goes, if the array isn't defragmented before.
pub fn spot_of(space: &Space, count: u32, ends: Ends, len: u32) -> Option<Spot>
    requires laid { IsLaid space.now count ends.front }
    requires topped { IsTop space.now count ends.top }
    requires known { IsKnown space.now count ends.front ends.low }
    requires len { len ≤ 262144 }
    ensures { result ≡ spot (length space.now) (blocks_of space.now count) (addrs_of space.now count) ends.front len (count + 1) }
{
    let Ends { front, top, .. } = ends;
    let size = space.size();
    if front == 0 {
        if top + len + 8 * (count + 1) <= size {
            return Some(Spot {
                addr: top,
                front: 0,
            });
        }
    }
    before(
        low_of(space, count, ends),
        front,
        len,
        top + 8 * (count + 1) <= size,
    )
}

/// What the blocks from a number on weigh, and where their payloads end.
pub fn weigh(space: &Space, count: u32, from: u32) -> Weighed
    requires sound { IsSound space.now count }
    requires told { IsTold space.now count }
    requires most { load (blocks_of space.now count) ≤ 262144 }
    requires small { length space.now ≤ 262144 }
    requires within { from ≤ count }
    ensures weight { result.weight ≡ load (drop from (blocks_of space.now count)) }
    ensures up_to { (j : ℕ) → from ≤ j → j < count → end_of (desc_at space.now j) ≤ result.end }
{
    let mut weight = 0;
    let mut end = 0;
    for i in from..count {
        weight += 8 + Info(space.descriptor(i).info).payload_len();
        end = end.max(end_at(space, count, i));
    }
    Weighed { weight, end }
}

/// What the blocks from a number on weigh.
pub fn weight_from(space: &Space, count: u32, from: u32) -> u32
    requires sound { IsSound space.now count }
    requires told { IsTold space.now count }
    requires most { load (blocks_of space.now count) ≤ 262144 }
    requires small { length space.now ≤ 262144 }
    requires within { from ≤ count }
    ensures { result ≡ load (drop from (blocks_of space.now count)) }
{
    weigh(space, count, from).weight
}

/// Whether a payload that ends here may have `len` more bytes at the top.
fn grown_at_top(size: u32, end: u32, len: u32, top: u32, count: u32) -> Option<u32>
    requires { end + len + 8 * count < 2 ^ 32 }
    ensures { result ≡ top_growth size end len top count }
{
    if end != top {
        return None;
    }
    if end + len + 8 * count <= size {
        Some(0)
    } else {
        None
    }
}

/// `front` once a payload that ends there has `len` more bytes in front of the least address behind it, if it may.
fn grown_at_front(low: Option<u32>, front: u32, len: u32, room: bool) -> Option<u32>
    requires { front + len < 2 ^ 32 }
    ensures { result ≡ front_growth low front front len room }
{
    let low = low?;
    if low < front + len {
        return None;
    }
    if room { Some(front + len) } else { None }
}

/// `front` once a payload has `len` more bytes where it stands, if it may have them.
#[tactic(auto, using(crate::proofs::LayoutLemmas::RawLemmas::raws, crate::proofs::LayoutLemmas::KnownLemmas::knowns))]
pub fn room_behind(space: &Space, count: u32, ends: Ends, index: u32, len: u32) -> Option<u32>
    requires laid { IsLaid space.now count ends.front }
    requires topped { IsTop space.now count ends.top }
    requires known { IsKnown space.now count ends.front ends.low }
    requires within { index < count }
    requires len { len ≤ 262144 }
    ensures { result ≡ stays (length space.now) (blocks_of space.now count) (addrs_of space.now count) ends.front (addr_in space.now index + payload_len (block_in space.now index)) len }
{
    let Ends { front, top, .. } = ends;
    let size = space.size();
    let end = end_at(space, count, index);
    if front == 0 {
        return grown_at_top(size, end, len, top, count);
    }
    if end != front {
        return None;
    }
    grown_at_front(
        low_of(space, count, ends),
        front,
        len,
        top + 8 * count <= size,
    )
}

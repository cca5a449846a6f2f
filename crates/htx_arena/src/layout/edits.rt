//! The list of descriptors: some go and the others close up, or one comes in. Payloads of other blocks stay where they are.
ghost use Rattle.std.specs.Prelude.{ℕ, ◌≡◌, ◌+◌, ◌-◌, ◌*◌, ◌^◌, ◌<◌, ◌≤◌, ◌++◌, length, take, drop, insert, remove};
ghost use Rattle.htx_arena.specs.Layout.Raw.{blocks_of, addrs_of, block_of, info_len, info_kind};
ghost use Rattle.htx_arena.specs.Layout.Sound.{IsSound, IsLaid, end_of};
ghost use Rattle.htx_arena.specs.Layout.Moves.{CanPlace};
ghost use Rattle.htx_arena.specs.Layout.Steps.{unlisted, placed};
ghost use Rattle.htx_arena.specs.Layout.Values.{value_start, value_length};
ghost use Rattle.htx_arena.specs.Space.Windows.{window};

use crate::layout::payload::{self, Payload};
use crate::space::{Desc, Space};

/// Takes out `n` blocks from a number on, in one move of the descriptors behind them. Their payloads stay as holes.
#[tactic(auto, using(crate::proofs::LayoutLemmas::RawLemmas::raws))]
pub fn close(space: &mut Space, count: u32, at: u32, n: u32)
    requires sound { IsSound space.old count }
    requires within { at + n ≤ count }
    requires small { length space.old ≤ 262144 }
    ensures blocks { blocks_of space.new (count - n) ≡ take at (blocks_of space.old count) ++ drop (n + at) (blocks_of space.old count) }
    ensures addrs { addrs_of space.new (count - n) ≡ take at (addrs_of space.old count) ++ drop (n + at) (addrs_of space.old count) }
    ensures laid { (front : ℕ) → IsLaid space.old count front → IsLaid space.new (count - n) front }
    ensures is { space.new ≡ unlisted space.old count at n }
    ensures size { length space.new ≡ length space.old }
{
    let from = space.size() - 8 * count;
    space.slide(from, from + 8 * n, 8 * (count - at - n));
}

/// Takes out a block. Its payload stays as a hole.
pub fn unlist(space: &mut Space, count: u32, at: u32)
    requires sound { IsSound space.old count }
    requires within { at < count }
    requires small { length space.old ≤ 262144 }
    ensures blocks { blocks_of space.new (count - 1) ≡ remove (blocks_of space.old count) at }
    ensures addrs { addrs_of space.new (count - 1) ≡ remove (addrs_of space.old count) at }
    ensures laid { (front : ℕ) → IsLaid space.old count front → IsLaid space.new (count - 1) front }
    ensures is { space.new ≡ unlisted space.old count at 1 }
    ensures size { length space.new ≡ length space.old }
{
    close(space, count, at, 1);
}

/// Takes out the first blocks.
pub fn drop_first(space: &mut Space, count: u32, n: u32)
    requires sound { IsSound space.old count }
    requires within { n ≤ count }
    requires small { length space.old ≤ 262144 }
    ensures blocks { blocks_of space.new (count - n) ≡ drop n (blocks_of space.old count) }
    ensures addrs { addrs_of space.new (count - n) ≡ drop n (addrs_of space.old count) }
    ensures laid { (front : ℕ) → IsLaid space.old count front → IsLaid space.new (count - n) front }
    ensures size { length space.new ≡ length space.old }
{
    close(space, count, 0, n);
}

/// Puts in a block whose payload comes to free bytes.
#[tactic(auto, using(crate::proofs::LayoutLemmas::RawLemmas::raws))]
#[inline(always)]
pub fn place(space: &mut Space, count: u32, at: u32, desc: Desc, payload: &Payload<'_>)
    requires can { CanPlace space.old count at desc payload.now }
    requires small { length space.old ≤ 262144 }
    ensures blocks { blocks_of space.new (count + 1) ≡ insert (blocks_of space.old count) at (block_of desc.info payload.now) }
    ensures addrs { addrs_of space.new (count + 1) ≡ insert (addrs_of space.old count) at desc.addr }
    ensures sound { IsSound space.new (count + 1) }
    ensures is { space.new ≡ placed space.old count at desc payload.now }
    ensures size { length space.new ≡ length space.old }
{
    space.shift(at, count - at, true);
    space.set_descriptor(at, desc);
    payload::put(space, desc.addr, payload);
}

/// Puts in a block whose payload stands in free bytes already.
pub fn list(space: &mut Space, count: u32, at: u32, desc: Desc)
    requires { CanPlace space.old count at desc (window space.old desc.addr (info_len desc.info)) }
    ensures { space.new ≡ placed space.old count at desc (window space.old desc.addr (info_len desc.info)) }
{
    space.shift(at, count - at, true);
    space.set_descriptor(at, desc);
}

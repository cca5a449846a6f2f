//! Payloads laid one after another from the beginning, in the order of their addresses, or one of them behind all others. Each keeps its bytes.
ghost use Rattle.std.specs.Prelude.{◌≡◌, ◌+◌, ◌-◌, ◌*◌, ◌^◌, ◌<◌, ◌≤◌, length, MatchOption, nat_le, if◌then◌else◌, sum_by, insert, remove};
ghost use Rattle.htx_model.specs.Block.{payload_len};
ghost use Rattle.htx_arena.specs.Layout.Raw.{blocks_of, addrs_of, addr_in};
ghost use Rattle.htx_arena.specs.Layout.Sound.{IsSound, IsTold, IsFilled, IsLaid, IsTop, end_of};
ghost use Rattle.htx_arena.specs.Space.Windows.{desc_at};
ghost use Rattle.htx_arena.specs.Layout.Place.{packed};
ghost use Rattle.htx_arena.specs.Layout.Moves.{CanMove, IsMoved, IsShifted, IsNext, IsPast, IsUpTo, CanSink, IsSunk, IsLast};

use crate::layout::words::Info;
use crate::space::{Desc, Space};

/// The number of the payload with the least address at or above a place. `hint` is looked at first.
fn next_of(space: &Space, count: u32, from: u32, hint: u32) -> Option<u32>
    requires sound { IsSound space.now count }
    requires small { length space.now ≤ 262144 }
    ensures { MatchOption result (IsPast space.now count from) (λ i. IsNext space.now count from i) }
{
    if hint < count {
        if space.descriptor(hint).addr == from {
            return Some(hint);
        }
    }
    let mut best = count;
    let mut low = 262145;
    for i in 0..count {
        let addr = space.descriptor(i).addr;
        if from <= addr {
            if addr < low {
                best = i;
                low = addr;
            }
        }
    }
    if best < count { Some(best) } else { None }
}

/// Moves a payload down.
fn pull(space: &mut Space, count: u32, index: u32, to: u32)
    requires { CanMove space.old count index to }
    ensures { IsMoved space.old space.new count index to }
{
    let desc = space.descriptor(index);
    if desc.addr != to {
        space.slide(desc.addr, to, Info(desc.info).payload_len());
        space.set_descriptor(
            index,
            Desc {
                addr: to,
                info: desc.info,
            },
        );
    }
}

/// Lays the payloads one after another from 0, in the order of their addresses, and answers where they end.
pub fn defrag(space: &mut Space, count: u32) -> u32
    requires sound { IsSound space.old count }
    requires told { IsTold space.old count }
    requires filled { IsFilled space.old count }
    requires small { length space.old ≤ 262144 }
    ensures shifted { IsShifted space.old space.new count }
    ensures addrs { addrs_of space.new count ≡ packed (blocks_of space.old count) (addrs_of space.old count) }
    ensures sound { IsSound space.new count }
    ensures total { result ≡ sum_by payload_len (blocks_of space.old count) }
    ensures up_to { IsUpTo space.new count result }
    ensures topped { IsTop space.new count result }
{
    let mut from = 0;
    let mut to = 0;
    let mut hint = 0;
    while let Some(index) = next_of(space, count, from, hint) {
        let desc = space.descriptor(index);
        let len = Info(desc.info).payload_len();
        pull(space, count, index, to);
        from = desc.addr + len;
        to += len;
        hint = index + 1;
    }
    to
}

/// The descriptor of a payload after one, its own or another, was brought behind the others.
fn lowered(old: Desc, own: bool, from: u32, len: u32, end: u32) -> Desc
    ensures { result ≡ record { addr = if own then end - len else (if nat_le from old.addr then old.addr - len else old.addr); info = old.info } }
{
    let addr = if own {
        end.saturating_sub(len)
    } else if from <= old.addr {
        old.addr.saturating_sub(len)
    } else {
        old.addr
    };
    Desc {
        addr,
        info: old.info,
    }
}

/// Brings a payload behind the others, which close up.
fn sink(space: &mut Space, count: u32, index: u32, end: u32)
    requires { CanSink space.old count index end }
    ensures { IsSunk space.old space.new count index end }
{
    let own = space.descriptor(index);
    let len = Info(own.info).payload_len();
    space.rotate(own.addr, own.addr + len, end);
    for i in 0..count {
        let old = space.descriptor(i);
        let new = lowered(old, i == index, own.addr, len, end);
        space.set_descriptor(i, new);
    }
}

/// Lays the payloads one after another from 0, that of one number last, and answers where they end.
pub fn carry(space: &mut Space, count: u32, index: u32) -> u32
    requires laid { IsLaid space.old count 0 }
    requires within { index < count }
    requires fits { sum_by payload_len (blocks_of space.old count) + 8 * count ≤ length space.old }
    ensures shifted { IsShifted space.old space.new count }
    ensures addrs { addrs_of space.new count ≡ insert (packed (remove (blocks_of space.old count) index) (remove (addrs_of space.old count) index)) index (sum_by payload_len (remove (blocks_of space.old count) index)) }
    ensures total { result ≡ sum_by payload_len (blocks_of space.old count) }
    ensures ends { end_of (desc_at space.new index) ≡ result }
    ensures last { IsLast space.new count index }
    ensures laid { IsLaid space.new count 0 }
    ensures topped { IsTop space.new count result }
{
    let end = defrag(space, count);
    sink(space, count, index, end);
    end
}

//! A payload rewritten where it stands, shortened at its front, or laid behind all others with more bytes. Here nothing looks for a place.
ghost use Rattle.std.specs.Prelude.{◌≡◌, ◌+◌, ◌-◌, ◌*◌, ◌^◌, ◌<◌, ◌≤◌, length, ◌++◌, take, drop, sum_by, insert, remove, slice_set};
ghost use Rattle.htx_model.specs.Block.{payload_len};
ghost use Rattle.htx_arena.specs.Layout.Raw.{blocks_of, addrs_of, block_of, info_len, addr_in, len_in, payload_in, Tells};
ghost use Rattle.htx_arena.specs.Layout.Sound.{IsSound, IsLaid, IsTop};
ghost use Rattle.htx_arena.specs.Layout.Place.{packed};
ghost use Rattle.htx_arena.specs.Layout.Moves.{CanRenew, IsRenewed};

use crate::layout::pack;
use crate::layout::payload::{self, Payload};
use crate::layout::words::Info;
use crate::space::{Desc, Space};

/// Writes bytes behind the first ones of a payload, where it stands.
pub fn rewrite(space: &mut Space, count: u32, index: u32, keep: u32, info: Info, more: &Payload<'_>)
    requires can { CanRenew space.old count index (record { addr = addr_in space.old index; info = info.0 }) }
    requires part { keep ≤ len_in space.old index }
    requires len { info_len info.0 ≡ keep + length more.now }
    ensures { IsRenewed space.old space.new count index (record { addr = addr_in space.old index; info = info.0 }) (take keep (payload_in space.old index) ++ more.now) }
{
    let addr = space.descriptor(index).addr;
    payload::put(space, addr + keep, more);
    let info = info.0;
    space.set_descriptor(index, Desc { addr, info });
}

/// Drops the first bytes of a payload.
pub fn trim(space: &mut Space, count: u32, index: u32, cut: u32, info: Info)
    requires sound { IsSound space.old count }
    requires small { length space.old ≤ 262144 }
    requires within { index < count }
    requires part { cut ≤ len_in space.old index }
    requires len { info_len info.0 + cut ≡ len_in space.old index }
    ensures { IsRenewed space.old space.new count index (record { addr = addr_in space.old index + cut; info = info.0 }) (drop cut (payload_in space.old index)) }
{
    let addr = space.descriptor(index).addr + cut;
    let info = info.0;
    space.set_descriptor(index, Desc { addr, info });
}

/// Lays the payloads one after another, that of one block last, writes bytes behind it, and answers where they end.
pub fn renew(space: &mut Space, count: u32, index: u32, info: Info, more: &[u8]) -> u32
    requires laid { IsLaid space.old count 0 }
    requires within { index < count }
    requires fits { sum_by payload_len (blocks_of space.old count) + length more.now + 8 * count ≤ length space.old }
    requires len { info_len info.0 ≡ len_in space.old index + length more.now }
    requires told { Tells info.0 (payload_in space.old index ++ more.now) }
    ensures blocks { blocks_of space.new count ≡ slice_set (blocks_of space.old count) index (block_of info.0 (payload_in space.old index ++ more.now)) }
    ensures addrs { addrs_of space.new count ≡ insert (packed (remove (blocks_of space.old count) index) (remove (addrs_of space.old count) index)) index (sum_by payload_len (remove (blocks_of space.old count) index)) }
    ensures laid { IsLaid space.new count 0 }
    ensures topped { IsTop space.new count result }
    ensures size { length space.new ≡ length space.old }
{
    let end = pack::carry(space, count, index);
    let keep = Info(space.descriptor(index).info).payload_len();
    rewrite(space, count, index, keep, info, &Payload::one(more));
    end + more.len() as u32
}

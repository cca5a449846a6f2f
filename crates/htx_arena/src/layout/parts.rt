//! The parts of a payload, lent: all of it, a field's name and value, a start line's parts. Nothing is changed or copied.
ghost use Rattle.std.specs.Prelude.{◌≡◌, ◌+◌, ◌*◌, ◌<◌, ◌≤◌, length, take};
ghost use Rattle.htx_model.specs.Block.{IsFieldKind};
ghost use Rattle.htx_arena.specs.Layout.Raw.{payload_in, info_kind, name_len};
ghost use Rattle.htx_arena.specs.Layout.Sound.{IsSound};
ghost use Rattle.htx_arena.specs.Layout.Values.{value_start, value_length};
ghost use Rattle.htx_arena.specs.Space.Windows.{window, word_at, desc_at};

use crate::layout::words::{self, Info};
use crate::space::{Space, word};

/// The bytes of a payload.
pub fn payload(space: &Space, count: u32, index: u32) -> &[u8]
    requires sound { IsSound space.now count }
    requires small { length space.now ≤ 262144 }
    requires within { index < count }
    ensures { result.now ≡ payload_in space.now index }
{
    let desc = space.descriptor(index);
    let start = desc.addr as usize;
    &space.bytes()[start..start + Info(desc.info).payload_len() as usize]
}

/// The name of a field.
#[tactic(auto, unfolding(crate::specs::Layout::Raw::info_len))]
pub fn name(space: &Space, count: u32, index: u32) -> &[u8]
    requires sound { IsSound space.now count }
    requires small { length space.now ≤ 262144 }
    requires within { index < count }
    requires field { IsFieldKind (info_kind (desc_at space.now index).info) }
    ensures { result.now ≡ take (name_len (desc_at space.now index).info) (payload_in space.now index) }
{
    let len = Info(space.descriptor(index).info).name_len();
    &payload(space, count, index)[..len as usize]
}

/// The value of a field, the bytes of data.
pub fn value(space: &Space, count: u32, index: u32) -> &[u8]
    requires sound { IsSound space.now count }
    requires small { length space.now ≤ 262144 }
    requires within { index < count }
    ensures { result.now ≡ window space.now (value_start space.now index) (value_length space.now index) }
{
    let (start, len) = words::value_place(space, index);
    let start = start as usize;
    &space.bytes()[start..start + len as usize]
}

/// The parts of a start line in its payload.
pub fn line(payload: &[u8]) -> (&[u8], &[u8], &[u8])
    requires { 12 + word_at payload.now 0 + word_at payload.now 4 + word_at payload.now 8 ≤ length payload.now }
    ensures first { result.0.now ≡ window payload.now 12 (word_at payload.now 0) }
    ensures second { result.1.now ≡ window payload.now (12 + word_at payload.now 0) (word_at payload.now 4) }
    ensures third { result.2.now ≡ window payload.now (12 + word_at payload.now 0 + word_at payload.now 4) (word_at payload.now 8) }
{
    let a = word(payload, 0) as usize;
    let b = word(payload, 4) as usize;
    let c = word(payload, 8) as usize;
    let (_, rest) = payload.split_at(12);
    let (first, rest) = rest.split_at(a);
    let (second, rest) = rest.split_at(b);
    (first, second, &rest[..c])
}

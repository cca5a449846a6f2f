//! The values of the headers of a name from the last on.
ghost use Rattle.std.specs.Prelude.{◌≡◌, ◌+◌, ◌-◌, ◌<◌, ◌≤◌, length, take, option_map, slice_get, Some, IfOk, IfErr};
ghost use Rattle.px_bytes.specs.Values.{values_of};
ghost use Rattle.header_ops.specs.Lists.{fulls_named, values_named};
ghost use Rattle.header_ops.specs.Walk.{from_back};

use crate::names::named_value;
use crate::values::count_in;
use htx_arena::Arena;
use px_bytes::{first_value, values};

/// The last value of a field.
#[tactic(auto, using(crate::proofs::Backwards::values_back))]
fn last_of(field: &[u8]) -> &[u8]
    ensures { from_back (values_of field.now) 0 ≡ Some result.now }
{
    let mut rest = field;
    'values: loop {
        let (value, len) = first_value(rest);
        if len > rest.len() {
            return value;
        }
        rest = &rest[len..];
    }
}

/// The value at an index of a field.
fn value_at(field: &[u8], index: usize) -> Option<&[u8]>
    ensures { option_map (λ value. value.now) result ≡ slice_get (values_of field.now) index }
{
    let mut left = index;
    for value in values(field) {
        if left == 0 {
            return Some(value);
        }
        left -= 1;
    }
    None
}

/// The value at this index of a field from the last on; else what is left of the number in front of the field.
#[tactic(auto, using(crate::proofs::Backwards::values_back))]
fn value_from_end(field: &[u8], n: usize) -> Result<&[u8], usize>
    ensures found { IfOk result (λ value. from_back (values_of field.now) n ≡ Some value.now) }
    ensures left { IfErr result (λ left. left + length (values_of field.now) ≡ n) }
{
    if n == 0 {
        return Ok(last_of(field));
    }
    let count = count_in(field);
    if n >= count {
        return Err(n - count);
    }
    match value_at(field, count - 1 - n) {
        Some(value) => Ok(value),
        None => Err(0),
    }
}

/// The value at this index from the last on, where the block in front of an end has it; else what is left of the number.
#[tactic(auto, using(crate::proofs::Backwards::blocks_back))]
fn value_before<'a>(msg: &'a Arena, end: u32, name: &[u8], n: usize) -> Result<&'a [u8], usize>
    requires some { 0 < end }
    requires within { end ≤ length msg.now.blocks }
    ensures found { IfOk result (λ value. from_back (values_named name.now (take end msg.now.blocks)) n ≡ Some value.now) }
    ensures left { IfErr result (λ left. from_back (values_named name.now (take (end - 1) msg.now.blocks)) left ≡ from_back (values_named name.now (take end msg.now.blocks)) n) }
{
    match named_value(msg, end - 1, name) {
        Some(field) => value_from_end(field, n),
        None => Err(n),
    }
}

/// The value at this index of those of the headers of this name, from the last on and without the blanks around it: 0 is the
/// last. `None` where there are not so many. Blocks are gone over from the last to the one that has it.
pub fn value_from_back<'a>(msg: &'a Arena, name: &[u8], n: u32) -> Option<&'a [u8]>
    ensures { option_map (λ value. value.now) result ≡ from_back (values_named name.now msg.now.blocks) n }
{
    let count = msg.len();
    let mut left = n as usize;
    for passed in 0..count {
        match value_before(msg, count - passed, name, left) {
            Ok(found) => return Some(found),
            Err(more) => left = more,
        }
    }
    None
}

/// The whole value of the block in front of an end, where it is the header of this name at this index from the last on; else
/// what is left of the number.
#[tactic(auto, using(crate::proofs::Backwards::blocks_back))]
fn full_before<'a>(msg: &'a Arena, end: u32, name: &[u8], n: u32) -> Result<&'a [u8], u32>
    requires some { 0 < end }
    requires within { end ≤ length msg.now.blocks }
    ensures found { IfOk result (λ value. from_back (fulls_named name.now (take end msg.now.blocks)) n ≡ Some value.now) }
    ensures left { IfErr result (λ left. from_back (fulls_named name.now (take (end - 1) msg.now.blocks)) left ≡ from_back (fulls_named name.now (take end msg.now.blocks)) n) }
{
    match named_value(msg, end - 1, name) {
        Some(field) => { if n == 0 { Ok(field) } else { Err(n - 1) } }
        None => Err(n),
    }
}

/// The whole value of the header at this index of those of this name, from the last on: 0 is the last. `None` where there are not
/// so many.
pub fn full_from_back<'a>(msg: &'a Arena, name: &[u8], n: u32) -> Option<&'a [u8]>
    ensures { option_map (λ value. value.now) result ≡ from_back (fulls_named name.now msg.now.blocks) n }
{
    let count = msg.len();
    let mut left = n;
    for passed in 0..count {
        match full_before(msg, count - passed, name, left) {
            Ok(found) => return Some(found),
            Err(more) => left = more,
        }
    }
    None
}

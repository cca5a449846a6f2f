//! The values of the headers of a name, each header being a list (RFC 9110 section 5.6.1).
ghost use Rattle.std.specs.Prelude.{◌≡◌, ◌+◌, length, slice_get, option_map, Some, IfOk, IfErr};
ghost use Rattle.px_bytes.specs.Values.{values_of};
ghost use Rattle.header_ops.specs.Lists.{values_named};

use htx_arena::Arena;
use px_bytes::{eq_fold, values};

/// How many values a field has.
pub fn count_in(field: &[u8]) -> usize
    ensures { result ≡ length (values_of field.now) }
{
    values(field).count()
}

/// How many values the headers of this name have together. A header has one more than it has commas outside of double
/// quotes; empty values count.
#[tactic(auto, using(crate::proofs::Listed::listed))]
pub fn count_values(msg: &Arena, name: &[u8]) -> u32
    ensures { result ≡ length (values_named name.now msg.now.blocks) }
{
    // For its clause: there are at most as many values as the load has bytes, and it is below 2^32.
    let _load = msg.load();
    let mut count = 0;
    for (_, field, value) in msg.fields() {
        if eq_fold(field, name) {
            count += count_in(value) as u32;
        }
    }
    count
}

/// The value of this number in a field, counted from 0; else what is left of the number behind the field.
fn value_at(field: &[u8], n: u32) -> Result<&[u8], u32>
    ensures found { IfOk result (λ value. slice_get (values_of field.now) n ≡ Some value.now) }
    ensures left { IfErr result (λ left. left + length (values_of field.now) ≡ n) }
{
    let mut left = n;
    for value in values(field) {
        if left == 0 {
            return Ok(value);
        }
        left -= 1;
    }
    Err(left)
}

/// The value of this number among those of the headers of this name in order, counted from 0, without the blanks around
/// it. `None` where there are not so many.
#[tactic(auto, using(crate::proofs::Listed::listed))]
pub fn nth_value<'a>(msg: &'a Arena, name: &[u8], n: u32) -> Option<&'a [u8]>
    ensures { option_map (λ value. value.now) result ≡ slice_get (values_named name.now msg.now.blocks) n }
{
    let mut left = n;
    for (_, field, value) in msg.fields() {
        if eq_fold(field, name) {
            match value_at(value, left) {
                Ok(found) => return Some(found),
                Err(behind) => left = behind,
            }
        }
    }
    None
}

//! The whole values of the headers of a name.
ghost use Rattle.std.specs.Prelude.{◌≡◌, length, slice_get, option_map};
ghost use Rattle.header_ops.specs.Lists.{fulls_named};

use htx_arena::Arena;
use px_bytes::eq_fold;

/// How many headers have this name.
#[tactic(auto, using(crate::proofs::Whole::fulls))]
pub fn count_fulls(msg: &Arena, name: &[u8]) -> u32
    ensures { result ≡ length (fulls_named name.now msg.now.blocks) }
{
    // For its clause: the number of blocks is below 2^32.
    let _len = msg.len();
    let mut count = 0;
    for (_, field, _) in msg.fields() {
        if eq_fold(field, name) {
            count += 1;
        }
    }
    count
}

/// The whole value of the header of this number among those of this name, counted from 0. `None` where there are not so
/// many.
#[tactic(auto, using(crate::proofs::Whole::fulls))]
pub fn nth_full<'a>(msg: &'a Arena, name: &[u8], n: u32) -> Option<&'a [u8]>
    ensures { option_map (λ value. value.now) result ≡ slice_get (fulls_named name.now msg.now.blocks) n }
{
    let mut left = n;
    for (_, field, value) in msg.fields() {
        if eq_fold(field, name) {
            if left == 0 {
                return Some(value);
            }
            left -= 1;
        }
    }
    None
}

//! Header fields by name.
ghost use Rattle.std.specs.Prelude.{◌≡◌, option_map};
ghost use Rattle.htx_view.specs.Values.{first_of};

use htx_arena::Arena;
use px_bytes::eq_fold;

/// The value of the first header of this name, without regard to case (RFC 9110 section 5.1). `None` where there is none.
#[tactic(auto, using(crate::proofs::FirstValues::firsts))]
pub fn first_value<'a>(msg: &'a Arena, name: &[u8]) -> Option<&'a [u8]>
    ensures { option_map (λ value. value.now) result ≡ first_of name.now msg.now.blocks }
{
    for (_, field, value) in msg.fields() {
        if eq_fold(field, name) {
            return Some(value);
        }
    }
    None
}

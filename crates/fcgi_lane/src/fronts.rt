//! Texts whose front was given.
ghost use Rattle.std.specs.Prelude.{◌≡◌, ◌≤◌, length, drop, vec_capacity};

/// Drops bytes at the front of a text.
pub(crate) fn drop_front(text: &mut Vec<u8>, count: usize)
    requires { count ≤ length text.old.items }
    ensures items { text.new.items ≡ drop count text.old.items }
    ensures capacity { vec_capacity text.new ≡ vec_capacity text.old }
{
    let len = text.len();
    text.copy_within(count.., 0);
    text.truncate(len - count);
}

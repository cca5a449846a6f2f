//! What reading heads of a server comes to, and what a head in an array says of itself.
ghost use Rattle.std.specs.Prelude.{◌≡◌, take, codes};
ghost use Rattle.std.specs.Str.{bytes_eq};
ghost use Rattle.http_model.specs.Head.{Head, head_blocks};
ghost use Rattle.session_model.specs.Meaning.{is_interim};
ghost use Rattle.forward_core.specs.Answer.Judging.{is_not_modified};

use htx_arena::Arena;
use htx_view::response_parts;

/// What reading heads came to.
#[derive(Clone, Copy)]
pub enum Heard {
    /// The client has to take bytes first, or the server to give some.
    More,
    /// An interim head, which was passed on or dropped.
    Interim,
    /// A final head, which stands in the array.
    Final,
    /// There is no head to be had.
    Refused,
}

/// Whether the first byte is the digit 1.
fn begins_with_1(status: &[u8]) -> bool
    ensures { result ≡ bytes_eq (take 1 status.now) (codes "1") }
{
    let first = status.len().min(1);
    &status[..first] == b"1".as_slice()
}

/// Whether a head is that of an interim response: its status is 100 to 199 (RFC 9110 section 15.2).
pub fn is_interim(msg: &Arena) -> bool
    ensures { (head : Head) → msg.now.blocks ≡ head_blocks head → result ≡ is_interim head }
{
    match response_parts(msg) {
        Some(line) => begins_with_1(line.b),
        None => false,
    }
}

/// Whether its status is 304: the length that it declares is told, though no body follows (RFC 9110 section 8.6).
pub fn is_not_modified(msg: &Arena) -> bool
    ensures { (head : Head) → msg.now.blocks ≡ head_blocks head → result ≡ is_not_modified head }
{
    match response_parts(msg) {
        Some(line) => line.b == b"304".as_slice(),
        None => false,
    }
}

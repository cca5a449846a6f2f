//! The start line of a message (RFC 9112 sections 3 and 4).
ghost use Rattle.std.specs.Prelude.{◌≡◌, ◌≢◌, ◌<◌, ◌∷◌, ℕ, List, length, option_map, Some, None, IfSome};
ghost use Rattle.htx_arena.specs.Block.{Block, ResponseLine};
ghost use Rattle.px_bytes.specs.Numbers.{decimal_of};
ghost use Rattle.htx_view.specs.Lines.{shown, request_in, response_in, status_in, status_number};

use htx_arena::{Arena, Kind, Line};
use px_bytes::read_decimal;

/// The method, the target and the version of a request. `None` where the first block isn't a request line.
#[tactic(auto, using(crate::proofs::FirstLines::first_lines))]
pub fn request_parts(msg: &Arena) -> Option<Line<'_>>
    ensures { option_map shown result ≡ request_in msg.now.blocks }
{
    if msg.len() == 0 {
        return None;
    }
    match msg.kind(0) {
        Kind::RequestLine => Some(msg.line(0)),
        _ => None,
    }
}

/// The version, the status text and the reason of a response. `None` where the first block isn't a response line.
#[tactic(auto, using(crate::proofs::FirstLines::first_lines))]
pub fn response_parts(msg: &Arena) -> Option<Line<'_>>
    ensures { option_map shown result ≡ response_in msg.now.blocks }
{
    if msg.len() == 0 {
        return None;
    }
    match msg.kind(0) {
        Kind::ResponseLine => Some(msg.line(0)),
        _ => None,
    }
}

/// The number of a status text, 0 to 999; 0 where the text isn't three digits.
fn status_number(text: &[u8]) -> u16
    ensures number { result ≡ status_number text.now }
    ensures small { result < 1000 }
{
    if text.len() != 3 {
        return 0;
    }
    match read_decimal(text, 3) {
        Some(number) => number as u16,
        None => 0,
    }
}

/// The status code of a response (RFC 9110 section 15), 0 to 999. `None` where the first block isn't a response line. A
/// status text that isn't three digits is no status code, and answers 0.
#[tactic(auto, using(crate::proofs::FirstLines::first_lines))]
pub fn status_of(msg: &Arena) -> Option<u16>
    ensures status { result ≡ status_in msg.now.blocks }
    ensures small { IfSome result (λ number. number < 1000) }
    ensures short_or_long { (version status reason : List ℕ) (rest : List Block) → msg.now.blocks ≡ ResponseLine version status reason ∷ rest → length status ≢ 3 → result ≡ Some 0 }
    ensures no_number { (version status reason : List ℕ) (rest : List Block) → msg.now.blocks ≡ ResponseLine version status reason ∷ rest → decimal_of 3 status ≡ None → result ≡ Some 0 }
{
    if msg.len() == 0 {
        return None;
    }
    match msg.kind(0) {
        Kind::ResponseLine => Some(status_number(msg.line(0).b)),
        _ => None,
    }
}

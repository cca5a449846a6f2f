//! What the bytes that were read are: a front of a header, a header, or no header's front.
ghost use Rattle.std.specs.Prelude.{◌≡◌, ◌≢◌, ◌++◌, ◌+◌, ◌≤◌, true, false, ℕ, List, Option, All, IfSome, IfNone, length, take, min};
ghost use Rattle.px_peer.specs.declared.Pair.{Pair};
ghost use Rattle.px_proxyproto.specs.Binary as Spec;
ghost use Rattle.px_proxyproto.specs.Lines.{Agrees, IsInLine, IsLineOf, LeavesLine, NoText};
ghost use Rattle.px_proxyproto.specs.Headers.{NoHeader};
ghost use Rattle.px_proxyproto.specs.Reading.{IsOf, IsWithin, Tells};

use crate::binary::{SIGNATURE, behind, block_len, may_stand, pair_in};
use crate::line::{begins, read_line};
use px_peer::Pair;

/// What is known of the bytes that were read.
#[derive(Clone, Copy)]
pub enum ProxyState {
    /// They may become a header.
    More,
    /// They are a header, and this is its pair.
    Got(Option<Pair>),
    /// No header begins so.
    Bad,
}

/// The most bytes of a header of version 1.
pub const LINE: usize = 107;

/// Whether the bytes and the word have one beginning, as far as both go.
fn agrees(bytes: &[u8], word: &[u8]) -> bool
    ensures yes { result ≡ true → Agrees bytes.now word.now }
    ensures no { result ≡ false → ¬ (Agrees bytes.now word.now) }
{
    if bytes.len() < word.len() {
        return begins(word, bytes);
    }
    begins(bytes, word)
}

/// Whether a line may begin with these bytes.
fn may_begin(bytes: &[u8]) -> bool
    ensures { result ≡ false → NoText bytes.now }
{
    if agrees(bytes, b"PROXY TCP4 ") {
        return true;
    }
    if agrees(bytes, b"PROXY TCP6 ") {
        return true;
    }
    agrees(bytes, b"PROXY UNKNOWN")
}

/// What stands in front of the first CR or LF, and what begins with it.
fn cut_line(bytes: &[u8]) -> Option<(&[u8], &[u8])>
    ensures some { IfSome result (λ r. (bytes.now ≡ r.0.now ++ r.1.now) × All IsInLine r.0.now × LeavesLine r.1.now) }
    ensures none { IfNone result (All IsInLine bytes.now) }
{
    for i in 0..bytes.len() {
        if bytes[i] == b'\r' || bytes[i] == b'\n' {
            return Some((&bytes[..i], &bytes[i..]));
        }
    }
    None
}

/// What bytes are in which no line ends.
fn unended(bytes: &[u8]) -> ProxyState
    requires unsigned { ¬ (Agrees bytes.now Spec.signature) }
    requires inside { All IsInLine bytes.now }
    ensures { Tells result bytes.now }
{
    if bytes.len() < LINE {
        return ProxyState::More;
    }
    ProxyState::Bad
}

/// What a line is, with what follows it.
fn ended(line: &[u8], end: &[u8], told: Option<Pair>) -> ProxyState
    requires unsigned { ¬ (Agrees (line.now ++ end.now) Spec.signature) }
    requires inside { All IsInLine line.now }
    requires leaves { LeavesLine end.now }
    requires told { IsLineOf line.now told }
    ensures { Tells result (line.now ++ end.now) }
{
    if line.len() + 2 > LINE {
        return ProxyState::Bad;
    }
    if end == b"\r".as_slice() {
        return ProxyState::More;
    }
    if end == b"\r\n".as_slice() {
        return ProxyState::Got(told);
    }
    ProxyState::Bad
}

/// What the front of a line is.
fn text_state(bytes: &[u8]) -> ProxyState
    requires { ¬ (Agrees bytes.now Spec.signature) }
    ensures { Tells result bytes.now }
{
    if !may_begin(bytes) {
        return ProxyState::Bad;
    }
    let Some((line, end)) = cut_line(bytes) else {
        return unended(bytes);
    };
    let Some(told) = read_line(line) else {
        return ProxyState::Bad;
    };
    ended(line, end, told)
}

/// What bytes are that agree with the signature, of which so many were read.
fn binary_state(front: &[u8], count: usize) -> ProxyState
    requires kept { length front.now ≡ min 107 count }
    ensures { (bytes : List ℕ) → IsOf (record { front = front.now; count = count }) bytes → Agrees bytes Spec.signature → IsWithin bytes → Tells result bytes }
{
    if front.len() < 16 {
        return ProxyState::More;
    }
    let len = block_len(front);
    if !may_stand(front[12], front[13], len) {
        return ProxyState::Bad;
    }
    if count < 16 + len as usize {
        return ProxyState::More;
    }
    ProxyState::Got(pair_in(front[12], front[13], behind(front, 16)))
}

/// What bytes are, of which so many were read and the first are these.
pub fn state_of(front: &[u8], count: usize) -> ProxyState
    requires kept { length front.now ≡ min 107 count }
    ensures { (bytes : List ℕ) → IsOf (record { front = front.now; count = count }) bytes → IsWithin bytes → Tells result bytes }
{
    if agrees(front, &SIGNATURE) {
        return binary_state(front, count);
    }
    text_state(front)
}

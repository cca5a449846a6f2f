//! A fixed conversation over a link: bytes to send, and bytes to expect.
ghost use Rattle.std.specs.Prelude.{◌≡◌, ◌<◌, ◌≤◌, ◌++◌, ℕ, List, Some, true, take, drop, length, IfOk, OnOk};

use px_link::{Failed, Fault, Link};

/// Why a conversation stopped.
#[derive(Clone, Copy, Debug)]
pub enum PlayFault {
    /// A link or the net failed.
    Broken,
    /// Other bytes came, or the end.
    Unlike,
    /// The machine has no memory left.
    OutOfMemory,
}

impl From<Fault> for PlayFault {
    fn from(fault: Fault) -> Self {
        match fault {
            Fault::Failed => PlayFault::Broken,
            Fault::OutOfMemory => PlayFault::OutOfMemory,
        }
    }
}

impl From<Failed> for PlayFault {
    fn from(_: Failed) -> Self {
        PlayFault::Broken
    }
}

/// Sends all of these.
pub fn send<L: Link>(link: &mut L, bytes: &[u8]) -> Result<(), PlayFault>
    ensures { OnOk result ((before : List ℕ) → L.wrote link.old before → L.wrote link.new (before ++ bytes.now)) }
{
    let mut left = bytes;
    'pieces: while !left.is_empty() {
        match link.write(left) {
            Ok(n) => {
                let (_, rest) = left.split_at(n);
                left = rest;
            }
            Err(fault) => return Err(PlayFault::from(fault)),
        }
    }
    Ok(())
}

/// How many bytes are read at most at once.
const PIECE: usize = 256;

/// Whether the first bytes of both are the same.
fn begin_alike(one: &[u8], other: &[u8], n: usize) -> bool
    requires one { n ≤ length one.now }
    requires other { n ≤ length other.now }
    ensures { result ≡ true → take n one.now ≡ take n other.now }
{
    one[..n] == other[..n]
}

/// Reads the first of these bytes, and says how many.
fn expect_some<L: Link>(link: &mut L, bytes: &[u8]) -> Result<usize, PlayFault>
    requires { 0 < length bytes.now }
    ensures some { IfOk result (λ n. (0 < n) × (n ≤ length bytes.now)) }
    ensures came { (coming : List ℕ) → (L.seen link.old).to_come ≡ Some coming
        → IfOk result (λ n. (take n coming ≡ take n bytes.now) × ((L.seen link.new).to_come ≡ Some (drop n coming))) }
{
    let mut piece = [0u8; PIECE];
    let (into, _) = piece.split_at_mut(bytes.len().min(PIECE));
    let n = match link.read(into) {
        Ok(n) => n,
        Err(fault) => return Err(PlayFault::from(fault)),
    };
    if n == 0 {
        return Err(PlayFault::Unlike);
    }
    if !begin_alike(into, bytes, n) {
        return Err(PlayFault::Unlike);
    }
    Ok(n)
}

/// Reads as many bytes as these, which have to be these.
pub fn expect<L: Link>(link: &mut L, bytes: &[u8]) -> Result<(), PlayFault>
    ensures { (coming : List ℕ) → (L.seen link.old).to_come ≡ Some coming
        → OnOk result ((later : List ℕ) × (coming ≡ bytes.now ++ later) × ((L.seen link.new).to_come ≡ Some later)) }
{
    let mut left = bytes;
    'pieces: while !left.is_empty() {
        match expect_some(link, left) {
            Ok(n) => {
                let (_, rest) = left.split_at(n);
                left = rest;
            }
            Err(fault) => return Err(fault),
        }
    }
    Ok(())
}

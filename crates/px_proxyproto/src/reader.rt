//! Reads a header as its bytes come. The first 107 bytes are kept, and how many there were.
ghost use Rattle.std.specs.Prelude.{◌≡◌, ◌+◌, ◌≤◌, ◌++◌, ℕ, List, [], length, take, min};
ghost use Rattle.px_proxyproto.specs.Binary as Spec;
ghost use Rattle.px_proxyproto.specs.Headers.{Lacks};
ghost use Rattle.px_proxyproto.specs.Reading.{HasRead, Told, wants_of};

use crate::binary::{SIGNATURE, block_len};
use crate::state::{LINE, ProxyState, state_of};
use crate::writing::put;
use std::marker::Model;

/// The least bytes of a header of either version.
const LEAST: usize = 15;

/// Reads one header. Contracts see the first 107 bytes that it was fed, and how many there were.
pub struct ProxyReader {
    front: [u8; 107],
    count: usize,
}

impl Drop for ProxyReader {
    fn drop(self) {
        let ProxyReader { front: _, count: _ } = self;
    }
}

impl Model for ProxyReader {
    ghost use Rattle.std.specs.Prelude.{◌≤◌, take};
    ghost use Rattle.px_proxyproto.specs.Reading.{Read};

    ghost Value = { Read };

    ghost view = { λ r. record { front = take r.count r.front; count = r.count } };

    ghost invariant = { λ r. r.count ≤ 65551 };
}

/// Whether the bytes begin with the signature of version 2.
fn is_signed(front: &[u8]) -> bool
    ensures { result ≡ Spec.is_signed front.now }
{
    front.starts_with(&SIGNATURE)
}

impl ProxyReader {
    /// Nothing was read yet.
    pub fn new() -> ProxyReader
        ensures { HasRead result [] }
    {
        ProxyReader {
            front: [0; 107],
            count: 0,
        }
    }

    fn front(&self) -> &[u8]
        ensures front { result.now ≡ self.now.front }
        ensures len { length self.now.front ≡ min 107 self.now.count }
    {
        if self.count < LINE {
            &self.front[..self.count]
        } else {
            &self.front
        }
    }

    fn count(&self) -> usize
        ensures count { result ≡ self.now.count }
        ensures most { result ≤ 65551 }
    {
        self.count
    }

    /// How many bytes can be taken without passing the header's end.
    pub fn wants(&self) -> u32
        ensures is { result ≡ wants_of self.now }
        ensures most { result ≤ 65535 }
        ensures room { self.now.count + result ≤ 65551 }
        ensures lacks { (bytes : List ℕ) → HasRead self.now bytes → (1 ≤ result) × Lacks bytes result }
    {
        wanted(self.front(), self.count()) as u32
    }

    /// Puts these bytes behind the others, as far as they are kept.
    fn keep(&mut self, bytes: &[u8])
        requires { self.old.count + length bytes.now ≤ 65551 }
        ensures count { self.new.count ≡ self.old.count + length bytes.now }
        ensures front { self.new.front ≡ take 107 (self.old.front ++ bytes.now) }
    {
        fill(&mut self.front, self.count, bytes);
        self.count += bytes.len();
    }

    /// Takes at most `wants` bytes, and tells what was read. Nothing is taken behind `Got` and `Bad`.
    pub fn feed(&mut self, bytes: &[u8]) -> ProxyState
        requires { length bytes.now ≤ wants_of self.old }
        ensures told { (before : List ℕ) → HasRead self.old before → Told result self.new (before ++ bytes.now) }
        ensures count { self.new.count ≡ self.old.count + length bytes.now }
    {
        let fits = bytes.len() <= self.wants() as usize;
        prove!(fits);
        self.keep(bytes);
        state_of(self.front(), self.count())
    }
}

/// Puts these bytes behind so many others, as far as there is room.
fn fill(kept: &mut [u8; 107], at: usize, bytes: &[u8])
    requires { at + length bytes.now ≤ 65551 }
    ensures { take (at + length bytes.now) kept.new ≡ take 107 (take at kept.old ++ bytes.now) }
{
    if at >= LINE {
        return;
    }
    let n = bytes.len().min(LINE - at);
    put(kept, at, &bytes[..n]);
}

/// How many bytes are wanted behind so many.
fn wanted(front: &[u8], count: usize) -> usize
    requires kept { length front.now ≡ min 107 count }
    requires most { count ≤ 65551 }
    ensures is { result ≡ wants_of (record { front = front.now; count = count }) }
    ensures most { result ≤ 65535 }
    ensures room { count + result ≤ 65551 }
{
    if count < LEAST {
        return LEAST - count;
    }
    if count >= 16 && is_signed(front) {
        return (16 + block_len(front) as usize).saturating_sub(count);
    }
    if count < LINE { 1 } else { 0 }
}

//! A buffer of bytes whose memory is taken once: what does not fit changes nothing.
ghost use Rattle.std.specs.Prelude.{◌≡◌, ◌+◌, ◌-◌, ◌≤◌, ◌↔◌, ◌++◌, ◌∷◌, [], length, take, drop, replicate, IfOk, IsTrue};
ghost use Rattle.std.specs.Str.{str_to_ascii_lowercase, str_to_ascii_uppercase};
ghost use Rattle.std.specs.Bool.{OnTrue, OnFalse};

use htx_model::OutOfMemory;
use std::alloc::Global;
use std::marker::Model;

/// Bytes up to a number of them, in memory that is taken once.
pub struct Buf {
    cap: u32,
    bytes: Vec<u8>,
}

impl Drop for Buf {
    fn drop(self) {
        let Buf { cap: _, bytes: _ } = self;
    }
}

impl Model for Buf {
    ghost use Rattle.std.specs.Prelude.{◌≤◌, vec_len, vec_capacity};
    ghost use Rattle.px_sample.specs.Buffer.{Buffer};

    ghost Value = { Buffer };

    ghost view = { λ buf. record { cap = buf.cap; bytes = buf.bytes.items } };

    ghost invariant = { λ buf. (vec_len buf.bytes ≤ buf.cap) × (buf.cap ≤ vec_capacity buf.bytes) };
}

impl Buf {
    ghost use Rattle.std.specs.Borrow.{sem};
    ghost use Rattle.px_sample.specs.Lending.{LendsBytes};

    /// An empty buffer for so many bytes. This call alone takes memory.
    pub fn new(alloc: Global, cap: u32) -> Result<Buf, OutOfMemory>
        ensures cap { IfOk result (λ buf. buf.cap ≡ cap) }
        ensures empty { IfOk result (λ buf. buf.bytes ≡ []) }
    {
        Ok(Buf {
            cap,
            bytes: Vec::with_capacity(alloc, cap as usize)?,
        })
    }

    /// Puts these behind the others, all of them or none: false where they don't fit.
    pub fn push(&mut self, bytes: &[u8]) -> bool
        ensures fits { IsTrue result ↔ (length self.old.bytes + length bytes.now ≤ self.old.cap) }
        ensures pushed { OnTrue result (self.new.bytes ≡ self.old.bytes ++ bytes.now) }
        ensures unchanged { OnFalse result (self.new ≡ self.old) }
        ensures cap { self.new.cap ≡ self.old.cap }
    {
        if bytes.len() > self.cap as usize - self.bytes.len() {
            return false;
        }
        self.bytes.extend_from_slice(bytes).unwrap();
        true
    }

    /// Puts one byte behind the others: false where it doesn't fit.
    pub fn push_byte(&mut self, byte: u8) -> bool
        ensures fits { IsTrue result ↔ (length self.old.bytes + 1 ≤ self.old.cap) }
        ensures pushed { OnTrue result (self.new.bytes ≡ self.old.bytes ++ byte ∷ []) }
        ensures unchanged { OnFalse result (self.new ≡ self.old) }
        ensures cap { self.new.cap ≡ self.old.cap }
    {
        if self.bytes.len() == self.cap as usize {
            return false;
        }
        self.bytes.push(byte).unwrap();
        true
    }

    /// Makes it `len` bytes long, with zeros behind those that it holds: false where so many don't fit.
    pub fn resize(&mut self, len: usize) -> bool
        ensures fits { IsTrue result ↔ (len ≤ self.old.cap) }
        ensures resized { OnTrue result (self.new.bytes ≡ take len self.old.bytes ++ replicate (len - length self.old.bytes) 0) }
        ensures len { OnTrue result (length self.new.bytes ≡ len) }
        ensures unchanged { OnFalse result (self.new ≡ self.old) }
        ensures cap { self.new.cap ≡ self.old.cap }
    {
        if len > self.cap as usize {
            return false;
        }
        self.bytes.resize(len, 0).unwrap();
        true
    }

    /// Keeps the first `len` bytes, or all where there are no more.
    pub fn truncate(&mut self, len: usize)
        ensures bytes { self.new.bytes ≡ take len self.old.bytes }
        ensures cap { self.new.cap ≡ self.old.cap }
    {
        self.bytes.truncate(len);
    }

    /// Keeps `len` bytes from `from` on, or as many of them as there are.
    pub fn keep(&mut self, from: usize, len: usize)
        ensures bytes { self.new.bytes ≡ take len (drop from self.old.bytes) }
        ensures cap { self.new.cap ≡ self.old.cap }
    {
        if from >= self.bytes.len() {
            self.bytes.clear();
            return;
        }
        self.bytes.copy_within(from.., 0);
        self.bytes.truncate(len.min(self.bytes.len() - from));
    }

    /// Makes ASCII letters lower case.
    pub fn make_lower(&mut self)
        ensures bytes { self.new.bytes ≡ str_to_ascii_lowercase self.old.bytes }
        ensures cap { self.new.cap ≡ self.old.cap }
    {
        self.bytes.make_ascii_lowercase();
    }

    /// Makes ASCII letters upper case.
    pub fn make_upper(&mut self)
        ensures bytes { self.new.bytes ≡ str_to_ascii_uppercase self.old.bytes }
        ensures cap { self.new.cap ≡ self.old.cap }
    {
        self.bytes.make_ascii_uppercase();
    }

    /// Empties it.
    pub fn clear(&mut self)
        ensures bytes { self.new.bytes ≡ [] }
        ensures cap { self.new.cap ≡ self.old.cap }
    {
        self.bytes.clear();
    }

    pub fn bytes(&self) -> &[u8]
        ensures bytes { result.now ≡ self.now.bytes }
        ensures within { length self.now.bytes ≤ self.now.cap }
    {
        &self.bytes
    }

    /// The bytes for writing; how many there are stays.
    pub fn bytes_mut(&mut self) -> &mut [u8]
        ensures* back { sem 𝓛 (LendsBytes self.entry result) }
        ensures value { result.now ≡ self.old.bytes }
    {
        &mut self.bytes
    }

    /// How many bytes it can hold.
    pub fn cap(&self) -> usize
        ensures { result ≡ self.now.cap }
    {
        self.cap as usize
    }
}

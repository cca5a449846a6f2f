//! A text whose memory is taken once.
ghost use Rattle.std.specs.Prelude.{◌≡◌, ◌<◌, ◌+◌, ◌-◌, ◌≤◌, ◌++◌, [], true, ℕ, List, length, drop, IfOk};
ghost use Rattle.std.specs.Str.{str_to_ascii_lowercase};
ghost use Rattle.fcgi_lane.specs.Answer.Flow.{Passes, patience, is_going};

use crate::answer::records::RecordReader;
use crate::answer::squeezing::squeeze;
use crate::fronts::drop_front;
use http_model::OutOfMemory;
use px_bytes::fold;
use std::alloc::Global;
use std::marker::Model;

/// A text of at most so many bytes.
pub(crate) struct FixedText {
    cap: usize,
    bytes: Vec<u8>,
}

impl Drop for FixedText {
    fn drop(self) {
        let FixedText { cap: _, bytes: _ } = self;
    }
}

impl Model for FixedText {
    ghost use Rattle.std.specs.Prelude.{◌≤◌, vec_len, vec_capacity};
    ghost use Rattle.fcgi_lane.specs.Answer.Room.{Fixed};

    ghost Value = { Fixed };

    ghost view = { λ text. record { cap = text.cap; bytes = text.bytes.items } };

    ghost invariant = { λ text. (vec_len text.bytes ≤ text.cap) × (text.cap ≤ vec_capacity text.bytes) };
}

impl FixedText {
    /// An empty text of at most so many bytes. This call alone takes memory.
    pub fn new(alloc: Global, cap: usize) -> Result<FixedText, OutOfMemory>
        ensures empty { IfOk result (λ text. text.bytes ≡ []) }
        ensures cap { IfOk result (λ text. text.cap ≡ cap) }
    {
        Ok(FixedText {
            cap,
            bytes: Vec::with_capacity(alloc, cap)?,
        })
    }

    pub fn as_slice(&self) -> &[u8]
        ensures bytes { result.now ≡ self.now.bytes }
        ensures within { length self.now.bytes ≤ self.now.cap }
    {
        &self.bytes
    }

    /// How many more bytes it may have.
    pub fn room(&self) -> usize
        ensures { result + length self.now.bytes ≡ self.now.cap }
    {
        self.cap - self.bytes.len()
    }

    pub fn clear(&mut self)
        ensures bytes { self.new.bytes ≡ [] }
        ensures cap { self.new.cap ≡ self.old.cap }
    {
        self.bytes.clear();
    }

    /// Drops so many bytes at the front.
    pub fn drop_front(&mut self, count: usize)
        requires { count ≤ length self.old.bytes }
        ensures bytes { self.new.bytes ≡ drop count self.old.bytes }
        ensures cap { self.new.cap ≡ self.old.cap }
    {
        drop_front(&mut self.bytes, count);
    }

    /// Puts bytes behind the others.
    pub fn push(&mut self, bytes: &[u8])
        requires { length self.old.bytes + length bytes.now ≤ self.old.cap }
        ensures bytes { self.new.bytes ≡ self.old.bytes ++ bytes.now }
        ensures cap { self.new.cap ≡ self.old.cap }
    {
        self.bytes.extend_from_slice(bytes).unwrap();
    }

    /// Puts a name behind the others, in lower case.
    pub fn push_name(&mut self, name: &[u8])
        requires { length self.old.bytes + length name.now ≤ self.old.cap }
        ensures bytes { self.new.bytes ≡ self.old.bytes ++ str_to_ascii_lowercase name.now }
        ensures cap { self.new.cap ≡ self.old.cap }
    {
        let at = self.bytes.len();
        self.bytes.extend_from_slice(name).unwrap();
        fold(&mut self.bytes[at..]);
    }

    /// Reads bytes of an application, and puts the output among them behind the others.
    pub fn push_output(&mut self, records: &mut RecordReader, bytes: &[u8])
        requires { length bytes.now ≤ self.old.cap - length self.old.bytes }
        ensures fed { (out : List ℕ) × Passes records.old bytes.now records.new out × (self.new.bytes ≡ self.old.bytes ++ out) }
        ensures idle { length self.new.bytes ≡ length self.old.bytes → is_going records.new.place ≡ true → records.new.idle ≡ records.old.idle + length bytes.now }
        ensures patient { 0 < length bytes.now → is_going records.new.place ≡ true → records.new.idle < patience }
        ensures cap { self.new.cap ≡ self.old.cap }
    {
        let before = self.bytes.len();
        self.bytes.extend_from_slice(bytes).unwrap();
        let found = squeeze(records, &mut self.bytes[before..]);
        self.bytes.truncate(before + found);
    }
}

//! The bytes, of a fixed number: written, lent, moved and rotated; and descriptors of eight bytes among them, read, written and moved.
ghost use Rattle.std.specs.Prelude.{◌≡◌, ◌+◌, ◌-◌, ◌*◌, ◌^◌, ◌<◌, ◌≤◌, length, IfOk, IsTrue, IsFalse, replicate, ◌++◌, take, drop};
ghost use Rattle.htx_arena.specs.Space.Windows.{window, overwritten, rotated, desc_at, desc_bytes, desc_place, shifted};

use crate::space::lend;
use htx_model::OutOfMemory;
use std::alloc::Global;
use std::marker::Model;

/// Where a payload stands, and what it is.
#[derive(Clone, Copy)]
pub struct Desc {
    pub addr: u32,
    pub info: u32,
}

/// Bytes of a fixed number, with descriptors from the end.
pub struct Space {
    bytes: Vec<u8>,
}

impl Drop for Space {
    fn drop(self) {
        let Space { bytes: _ } = self;
    }
}

impl Model for Space {
    ghost use Rattle.std.specs.Prelude.{List, ℕ, ◌≤◌, length};

    ghost Value = { List ℕ };

    ghost view = { λ a. a.bytes.items };

    ghost invariant = { λ a. length a.bytes.items ≤ 262144 };
}

impl Space {
    ghost use Rattle.std.specs.Borrow.{sem};
    ghost use Rattle.htx_arena.specs.Space.SpaceLends.{LendsWindow};

    pub fn new(alloc: Global, size: u32) -> Result<Self, OutOfMemory>
        requires { size ≤ 262144 }
        ensures { IfOk result (λ space. space ≡ replicate size 0) }
    {
        let bytes = vec![in alloc; 0; size as usize]?;
        Ok(Space { bytes })
    }

    /// The same over bytes that are there.
    pub fn over(bytes: Vec<u8>) -> Self
        requires { length bytes.items ≤ 262144 }
        ensures { result ≡ bytes.items }
    {
        Space { bytes }
    }

    pub fn bytes(&self) -> &[u8]
        ensures { result.now ≡ self.now }
    {
        &self.bytes
    }

    /// How many bytes there are.
    pub fn size(&self) -> u32
        ensures value { result ≡ length self.now }
        ensures small { result ≤ 262144 }
    {
        self.bytes.len() as u32
    }

    /// Writes a piece.
    pub fn put(&mut self, at: u32, piece: &[u8])
        requires { at + length piece.now ≤ length self.old }
        ensures { self.new ≡ overwritten self.old at piece.now }
    {
        if piece.is_empty() {
            return;
        }
        let at = at as usize;
        self.bytes[at..at + piece.len()].copy_from_slice(piece);
    }

    /// The `len` bytes from `at` on, for writing.
    pub fn window_mut(&mut self, at: u32, len: u32) -> &mut [u8]
        requires { at + len ≤ length self.old }
        ensures* written { sem 𝓛 (LendsWindow self.entry at len result) }
        ensures value { result.now ≡ window self.old at len }
    {
        let (start, end) = (at as usize, at as usize + len as usize);
        lend::run(&mut self.bytes, start, end)
    }

    /// Copies as if through a second array. Of no bytes nothing is done.
    #[tactic(auto, using(crate::proofs::SpaceLemmas::WindowLemmas::nothings))]
    pub fn slide(&mut self, from: u32, to: u32, len: u32)
        requires source { from + len ≤ length self.old }
        requires target { to + len ≤ length self.old }
        ensures { self.new ≡ overwritten self.old to (window self.old from len) }
    {
        if len == 0 {
            return;
        }
        let from = from as usize;
        self.bytes
            .copy_within(from..from + len as usize, to as usize);
    }

    /// Brings the bytes from `mid` to `to` in front of those from `from` to `mid`.
    pub fn rotate(&mut self, from: u32, mid: u32, to: u32)
        requires order { from ≤ mid }
        requires within { mid ≤ to }
        requires inside { to ≤ length self.old }
        ensures { self.new ≡ rotated self.old from mid to }
    {
        let (from, mid, to) = (from as usize, mid as usize, to as usize);
        turn(&mut self.bytes, from, mid, to);
    }

    #[tactic(auto, unfolding(crate::specs::Space::Windows::desc_at))]
    /// The descriptor of this number, counted from the end.
    pub fn descriptor(&self, index: u32) -> Desc
        requires { 8 * (index + 1) ≤ length self.now }
        ensures { result ≡ desc_at self.now index }
    {
        let at = self.bytes.len() - 8 * (index as usize + 1);
        Desc {
            addr: word(&self.bytes, at),
            info: word(&self.bytes, at + 4),
        }
    }

    #[tactic(auto, unfolding(crate::specs::Space::Windows::desc_bytes))]
    pub fn set_descriptor(&mut self, index: u32, desc: Desc)
        requires { 8 * (index + 1) ≤ length self.old }
        ensures { self.new ≡ overwritten self.old (desc_place self.old index) (desc_bytes desc) }
    {
        let at = self.bytes.len() - 8 * (index as usize + 1);
        let [a, b, c, d] = desc.addr.to_le_bytes();
        let [e, f, g, h] = desc.info.to_le_bytes();
        self.bytes[at..at + 8].copy_from_slice(&[a, b, c, d, e, f, g, h]);
    }

    /// Moves `count` descriptors by one place, to the next higher numbers or to the next lower ones. Of none nothing is done.
    #[tactic(auto, using(crate::proofs::SpaceLemmas::WindowLemmas::nothings))]
    pub fn shift(&mut self, from: u32, count: u32, up: bool)
        requires inside { 8 * (from + count) ≤ length self.old }
        requires up { IsTrue up → 8 * (from + count + 1) ≤ length self.old }
        requires down { IsFalse up → 1 ≤ from }
        ensures { self.new ≡ shifted self.old from count up }
    {
        if count == 0 {
            return;
        }
        let len = 8 * count as usize;
        let at = self.bytes.len() - 8 * from as usize - len;
        let to = if up { at - 8 } else { at + 8 };
        self.bytes.copy_within(at..at + len, to);
    }
}

ghost use Rattle.htx_arena.specs.Space.Windows.{word_at};

/// The little-endian word at a place.
#[tactic(auto, unfolding(crate::specs::Space::Windows::word_at))]
pub fn word(bytes: &[u8], at: usize) -> u32
    requires { at + 4 ≤ length bytes.now }
    ensures { result ≡ word_at bytes.now at }
{
    u32::from_le_bytes([bytes[at], bytes[at + 1], bytes[at + 2], bytes[at + 3]])
}

/// Brings the bytes from `mid` on in front of the others.
fn turn_all(part: &mut [u8], mid: usize)
    requires { mid ≤ length part.old }
    ensures { part.new ≡ drop mid part.old ++ take mid part.old }
{
    part.rotate_left(mid);
}

fn turn(bytes: &mut [u8], from: usize, mid: usize, to: usize)
    requires order { from ≤ mid }
    requires within { mid ≤ to }
    requires inside { to ≤ length bytes.old }
    ensures { bytes.new ≡ rotated bytes.old from mid to }
{
    turn_all(&mut bytes[from..to], mid - from);
}

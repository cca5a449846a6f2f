//! A window of bytes: what has come from a stream and is not used yet.
#![tactic(auto)]

ghost use Rattle.std.specs.Prelude.{◌≡◌, ◌≤◌, ◌<◌, ◌+◌, ◌-◌, ◌^◌, ◌++◌, [], length, take, drop, min, IfOk, List, ℕ};
ghost use Rattle.wire_buf.specs.Stored.{overwritten};

mod lent;

use circular_buffer::HeapCircularBuffer;
use htx_model::OutOfMemory;
use std::alloc::Global;
use std::marker::Model;

/// A window. Contracts see its bytes as `items`, and the most that it holds as `capacity`.
pub struct Window {
    /// A ring that only grows: its items are what the window's bytes stand in, as many as it ever reached.
    ring: HeapCircularBuffer<u8>,
    /// Where in the ring the bytes begin.
    begin: usize,
    /// How many there are.
    len: usize,
}

impl Drop for Window {
    fn drop(self) {
        let Window {
            ring: _,
            begin: _,
            len: _,
        } = self;
    }
}

impl Model for Window {
    ghost use Rattle.std.specs.Prelude.{ℕ};
    ghost use Rattle.circular_buffer.specs.Buffer.{Buffer};
    ghost use Rattle.wire_buf.specs.Stored.{shown, IsStored};

    ghost Value = { Buffer ℕ };

    ghost view = { shown };

    ghost invariant = { IsStored };
}

/// How many bytes are cleared at once.
const BLOCK: usize = 256;

/// Fills a ring with zeros until it has so many items. Memory that nothing was written to is left alone, so that no page of the system stands behind it.
fn fill_to(ring: &mut HeapCircularBuffer<u8>, count: usize)
    requires { count ≤ ring.old.capacity }
    ensures reached { count ≤ length ring.new.items }
    ensures kept { take (length ring.old.items) ring.new.items ≡ ring.old.items }
    ensures capacity { ring.new.capacity ≡ ring.old.capacity }
{
    while ring.len() < count {
        ring.fill_from_slice(&[0; BLOCK]);
    }
}

/// Writes a piece over the items from a place on.
fn write(ring: &mut HeapCircularBuffer<u8>, at: usize, piece: &[u8])
    requires { at + length piece.now ≤ length ring.old.items }
    ensures items { ring.new.items ≡ overwritten ring.old.items at piece.now }
    ensures capacity { ring.new.capacity ≡ ring.old.capacity }
{
    ring.make_contiguous()[at..at + piece.len()].copy_from_slice(piece);
}

/// Copies the items from `begin` to `end` to the front.
fn bring_front(ring: &mut HeapCircularBuffer<u8>, begin: usize, end: usize)
    requires order { begin ≤ end }
    requires within { end ≤ length ring.old.items }
    ensures front { take (end - begin) ring.new.items ≡ take (end - begin) (drop begin ring.old.items) }
    ensures len { length ring.new.items ≡ length ring.old.items }
    ensures capacity { ring.new.capacity ≡ ring.old.capacity }
{
    ring.make_contiguous().copy_within(begin..end, 0);
}

/// Makes room for so many bytes behind the `len` from `begin` on, where the ring has too few items for them yet, and answers where these begin then.
#[inline(never)]
fn grow_room(ring: &mut HeapCircularBuffer<u8>, begin: usize, len: usize, more: usize) -> usize
    requires within { begin + len ≤ length ring.old.items }
    requires fits { len + more ≤ ring.old.capacity }
    ensures room { result + len + more ≤ length ring.new.items }
    ensures within { result + len + more ≤ ring.new.capacity }
    ensures kept { take len (drop result ring.new.items) ≡ take len (drop begin ring.old.items) }
    ensures capacity { ring.new.capacity ≡ ring.old.capacity }
{
    let capacity = ring.capacity();
    let end = begin + len;
    if more <= capacity - end {
        fill_to(ring, end + more);
        return begin;
    }
    bring_front(ring, begin, end);
    fill_to(ring, len + more);
    0
}

/// Makes room for so many bytes behind the `len` from `begin` on, and answers where these begin then. Mostly the ring has had items there before.
#[inline(always)]
fn make_room(ring: &mut HeapCircularBuffer<u8>, begin: usize, len: usize, more: usize) -> usize
    requires within { begin + len ≤ length ring.old.items }
    requires fits { len + more ≤ ring.old.capacity }
    ensures room { result + len + more ≤ length ring.new.items }
    ensures within { result + len + more ≤ ring.new.capacity }
    ensures kept { take len (drop result ring.new.items) ≡ take len (drop begin ring.old.items) }
    ensures capacity { ring.new.capacity ≡ ring.old.capacity }
{
    if more <= ring.len() - (begin + len) {
        return begin;
    }
    grow_room(ring, begin, len, more)
}

/// Writes a piece over bytes that are as many. No call is made for an empty one.
#[inline(always)]
fn lay(room: &mut [u8], piece: &[u8])
    requires { length room.old ≡ length piece.now }
    ensures { room.new ≡ piece.now }
{
    if piece.is_empty() {
        return;
    }
    room.copy_from_slice(piece);
}

/// Five pieces that go into a window one behind another.
#[derive(Drop)]
struct Pieces<'a> {
    first: &'a [u8],
    second: &'a [u8],
    third: &'a [u8],
    fourth: &'a [u8],
    fifth: &'a [u8],
}

/// How many bytes they have.
#[inline(always)]
fn count_of(pieces: &Pieces<'_>) -> usize
    requires { length (pieces.now.first.now ++ (pieces.now.second.now ++ (pieces.now.third.now ++ (pieces.now.fourth.now ++ pieces.now.fifth.now)))) < 2 ^ 32 }
    ensures { result ≡ length (pieces.now.first.now ++ (pieces.now.second.now ++ (pieces.now.third.now ++ (pieces.now.fourth.now ++ pieces.now.fifth.now)))) }
{
    pieces.first.len()
        + pieces.second.len()
        + pieces.third.len()
        + pieces.fourth.len()
        + pieces.fifth.len()
}

/// Writes them over bytes that are as many.
#[inline(always)]
fn lay_out(room: &mut [u8], pieces: &Pieces<'_>)
    requires { length room.old ≡ length (pieces.now.first.now ++ (pieces.now.second.now ++ (pieces.now.third.now ++ (pieces.now.fourth.now ++ pieces.now.fifth.now)))) }
    ensures { room.new ≡ pieces.now.first.now ++ (pieces.now.second.now ++ (pieces.now.third.now ++ (pieces.now.fourth.now ++ pieces.now.fifth.now))) }
{
    let (part, room) = room.split_at_mut(pieces.first.len());
    lay(part, pieces.first);
    let (part, room) = room.split_at_mut(pieces.second.len());
    lay(part, pieces.second);
    let (part, room) = room.split_at_mut(pieces.third.len());
    lay(part, pieces.third);
    let (part, room) = room.split_at_mut(pieces.fourth.len());
    lay(part, pieces.fourth);
    lay(room, pieces.fifth);
}

/// Writes them, which have so many bytes, over the items from a place on.
#[inline(always)]
fn write_pieces(ring: &mut HeapCircularBuffer<u8>, at: usize, count: usize, pieces: &Pieces<'_>)
    requires count { count ≡ length (pieces.now.first.now ++ (pieces.now.second.now ++ (pieces.now.third.now ++ (pieces.now.fourth.now ++ pieces.now.fifth.now)))) }
    requires within { at + count ≤ length ring.old.items }
    ensures items { ring.new.items ≡ overwritten ring.old.items at (pieces.now.first.now ++ (pieces.now.second.now ++ (pieces.now.third.now ++ (pieces.now.fourth.now ++ pieces.now.fifth.now)))) }
    ensures capacity { ring.new.capacity ≡ ring.old.capacity }
{
    lay_out(&mut ring.make_contiguous()[at..at + count], pieces);
}

impl Window {
    ghost use Rattle.std.specs.Borrow.{sem};
    ghost use Rattle.wire_buf.specs.Lends.{LendsBytes};

    /// An empty window of `cap` bytes. This call alone takes memory.
    pub fn new(alloc: Global, cap: u32) -> Result<Window, OutOfMemory>
        ensures empty { IfOk result (λ window. window.items ≡ []) }
        ensures capacity { IfOk result (λ window. window.capacity ≡ cap) }
    {
        let ring = HeapCircularBuffer::with_capacity(alloc, cap as usize)?;
        Ok(Window {
            ring,
            begin: 0,
            len: 0,
        })
    }

    /// How many bytes stand in the window.
    pub fn len(&self) -> usize
        ensures len { result ≡ length self.now.items }
        ensures within { result ≤ self.now.capacity }
        ensures small { self.now.capacity < 2 ^ 32 }
    {
        self.len
    }

    /// How many more bytes it can hold.
    pub fn room(&self) -> usize
        ensures { result + length self.now.items ≡ self.now.capacity }
    {
        self.ring.capacity() - self.len
    }

    /// Takes the longest prefix that fits, and answers its length. Where the bytes would reach past the end of the ring,
    /// those in the window are moved to its front first.
    pub fn push(&mut self, bytes: &[u8]) -> usize
        ensures count { result ≡ min (length bytes.now) (self.old.capacity - length self.old.items) }
        ensures items { self.new.items ≡ self.old.items ++ take result bytes.now }
        ensures capacity { self.new.capacity ≡ self.old.capacity }
    {
        let count = bytes.len().min(self.room());
        let (begin, len) = (self.begin, self.len);
        let begin = make_room(&mut self.ring, begin, len, count);
        write(&mut self.ring, begin + len, &bytes[..count]);
        self.begin = begin;
        self.len = len + count;
        count
    }

    /// Takes five pieces, one behind another, for all of which there is room. One that is empty is none.
    #[inline(always)]
    pub fn push_five(
        &mut self,
        first: &[u8],
        second: &[u8],
        third: &[u8],
        fourth: &[u8],
        fifth: &[u8],
    )
        requires room { length self.old.items + length (first.now ++ (second.now ++ (third.now ++ (fourth.now ++ fifth.now)))) ≤ self.old.capacity }
        ensures items { self.new.items ≡ self.old.items ++ (first.now ++ (second.now ++ (third.now ++ (fourth.now ++ fifth.now)))) }
        ensures capacity { self.new.capacity ≡ self.old.capacity }
    {
        let (begin, len) = (self.begin, self.len);
        let pieces = Pieces {
            first,
            second,
            third,
            fourth,
            fifth,
        };
        let count = count_of(&pieces);
        let begin = make_room(&mut self.ring, begin, len, count);
        write_pieces(&mut self.ring, begin + len, count, &pieces);
        self.begin = begin;
        self.len = len + count;
    }

    /// Drops the first `n` bytes.
    pub fn drop_front(&mut self, n: usize)
        requires { n ≤ length self.old.items }
        ensures items { self.new.items ≡ drop n self.old.items }
        ensures capacity { self.new.capacity ≡ self.old.capacity }
    {
        let left = self.len - n;
        self.begin = if left > 0 { self.begin + n } else { 0 };
        self.len = left;
    }

    /// All the bytes, in one slice. A caller hands the slice on at once, or keeps it as a `&[u8]`; what is written into
    /// it stands in the window.
    pub fn bytes(&mut self) -> &mut [u8]
        ensures* back { sem 𝓛 (LendsBytes self.entry result) }
        ensures value { result.now ≡ self.old.items }
    {
        let (begin, end) = (self.begin, self.begin + self.len);
        lent::run(&mut self.ring, begin, end)
    }
}

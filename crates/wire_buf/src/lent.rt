//! A run of a ring's items, for writing.
ghost use Rattle.std.specs.Prelude.{◌≡◌, ◌≤◌, length, slice_range};
ghost use Rattle.std.specs.Borrow.{sem};
ghost use Rattle.wire_buf.specs.ItemsLends.{LendsAll, LendsRun};

use circular_buffer::HeapCircularBuffer;

// All items, for writing, as the ring tells it.
fn all(ring: &mut HeapCircularBuffer<u8>) -> &mut [u8]
    ensures* back { sem 𝓛 (LendsAll ring.entry result) }
    ensures value { result.now ≡ ring.old.items }
{
    ring.make_contiguous()
}

/// The items from `begin` to `end`, for writing.
pub fn run(ring: &mut HeapCircularBuffer<u8>, begin: usize, end: usize) -> &mut [u8]
    requires order { begin ≤ end }
    requires within { end ≤ length ring.old.items }
    ensures* back { sem 𝓛 (LendsRun ring.entry begin end result) }
    ensures value { result.now ≡ slice_range ring.old.items begin end }
{
    let items = all(ring);
    &mut items[begin..end]
}

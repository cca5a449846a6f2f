//! What sessions use up, and what their reads read into.

/// The most that one read asks for: four buffers of the default size, as many as an output window of a server's answers holds. Only data that goes to the
/// client as it comes is read so.
pub const MOST_READ: usize = 65536;

/// The most that a read asks for of what the core keeps until it has worked: with the default buffers it is one block of data of an array that is empty, so
/// that what was read goes out whole, and nothing of it is left behind for a write of its own.
pub(crate) const MOST_KEPT: usize = 16376;

/// The most that a read of a server asks for in front of its answer: room for most heads. What comes with a head goes the long way, from window to array to
/// window, so the less of a large body does the better.
pub(crate) const MOST_AHEAD: usize = 4096;

/// What is left of a budget, and the one buffer of all reads: it is cleared once, where a buffer made for each read would be cleared each time. Whoever runs one
/// session after another keeps it, and sets what is left.
#[derive(Drop)]
pub struct Resources {
    /// How many openings, and turns that move something, may still come.
    pub left: u64,
    /// What reads read into. Nothing of it means anything from one read to the next.
    pub buffer: [u8; MOST_READ],
}

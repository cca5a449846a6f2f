//! What is seen of a lane.
ghost use Rattle.std.specs.Prelude.{◌≡◌, ◌+◌, length, is_none};
ghost use Rattle.htx_arena.specs.Layout.Held.{held, blocks_of as told};

use crate::direction::lane::Lane;
use crate::direction::stage::Stage;
use http_model::{Framing, Source};

impl Lane {
    /// Where the lane stands.
    pub fn stage(&self) -> Stage
        ensures { result ≡ self.now.stage }
    {
        self.stage
    }

    /// Where the body stands.
    pub fn source(&self) -> Source
        ensures { result ≡ self.now.source }
    {
        self.source
    }

    /// How many bytes can be taken.
    pub fn room(&self) -> usize
        ensures { result + length self.now.input.items ≡ self.now.input.capacity }
    {
        self.input.room()
    }

    /// How many bytes came and were not read yet.
    pub fn input_len(&self) -> usize
        ensures { result ≡ length self.now.input.items }
    {
        self.input.len()
    }

    /// How the body of the head that stands in the array is framed.
    pub fn framing(&self) -> Framing
        ensures { result ≡ self.now.framing }
    {
        self.framing
    }

    /// The length that a field of that head declared.
    pub fn declared(&self) -> Option<u64>
        ensures { result ≡ self.now.declared }
    {
        self.declared
    }

    /// Whether a Connection element of that head was `close`.
    pub fn close(&self) -> bool
        ensures { result ≡ self.now.close }
    {
        self.close
    }

    /// Whether the stream has not ended.
    pub fn is_open(&self) -> bool
        ensures { result ≡ is_none self.now.ended }
    {
        self.ended.is_none()
    }

    /// The bytes of the array on which rules run.
    pub fn raw(&self) -> &[u8]
        ensures held { held result.now self.now.msg.blocks self.now.msg.addrs }
        ensures size { length result.now ≡ self.now.msg.size }
        ensures gives_back { told result.now (length self.now.msg.blocks) ≡ self.now.msg.blocks }
    {
        self.msg.raw()
    }

    /// How many bytes are put out and were not taken.
    pub fn output_len(&self) -> usize
        ensures { result ≡ length self.now.output.items }
    {
        self.output.len()
    }
}

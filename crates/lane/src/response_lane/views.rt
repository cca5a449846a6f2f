//! What is seen of a lane of answers.
ghost use Rattle.std.specs.Prelude.{◌≡◌, ◌+◌, length};
ghost use Rattle.htx_arena.specs.Layout.Held.{held};
ghost use Rattle.lane.specs.Answering.{stage_of, source_of, input_of, output_of, most_of, blocks_of, addrs_of, framing_of, declared_of, close_of, has_begun};

use crate::direction::Stage;
use crate::response_lane::ResponseLane;
use http_model::{Framing, Source};

impl ResponseLane {
    /// Where the lane stands.
    pub fn stage(&self) -> Stage
        ensures { result ≡ stage_of self.now }
    {
        self.lane.stage()
    }

    /// Where the body stands.
    pub fn source(&self) -> Source
        ensures { result ≡ source_of self.now }
    {
        self.lane.source()
    }

    /// Whether a byte of the last that answers was put out.
    pub fn begun(&self) -> bool
        ensures { result ≡ has_begun self.now }
    {
        self.begun
    }

    /// How many bytes can be taken.
    pub fn room(&self) -> usize
        ensures { result + length (input_of self.now) ≡ most_of self.now }
    {
        self.lane.room()
    }

    /// How the body of the head that stands in the array is framed.
    pub fn framing(&self) -> Framing
        ensures { result ≡ framing_of self.now }
    {
        self.lane.framing()
    }

    /// The length that a field of that head declared.
    pub fn declared(&self) -> Option<u64>
        ensures { result ≡ declared_of self.now }
    {
        self.lane.declared()
    }

    /// Whether a Connection element of that head was `close` (RFC 9112 section 9.6).
    pub fn close(&self) -> bool
        ensures { result ≡ close_of self.now }
    {
        self.lane.close()
    }

    /// The bytes of the array in which the head stands (HTX API).
    pub fn raw(&self) -> &[u8]
        ensures { held result.now (blocks_of self.now) (addrs_of self.now) }
    {
        self.lane.raw()
    }

    /// How many bytes of the text that was put out and not taken there are.
    pub fn output_len(&self) -> usize
        ensures { result ≡ length (output_of self.now) }
    {
        self.lane.output_len()
    }
}

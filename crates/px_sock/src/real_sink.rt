//! Standard output. It counts its faults, and tells no content.
ghost use Rattle.std.specs.Prelude.{◌≡◌};
ghost use Rattle.px_sock.specs.Untold.{untold_sink};

use px_link::{Fault, Sink};
use std::io;
use std::io::Write;
use std::marker::Model;

/// Standard output. Contracts see its count.
pub struct RealSink<'a, R> {
    rt: &'a R,
    faults: u64,
}

impl<R> Drop for RealSink<'_, R> {
    fn drop(self) {
        let RealSink { rt: _, faults: _ } = self;
    }
}

impl<'a, R> Model for RealSink<'a, R> {
    ghost use Rattle.px_sock.specs.Untold.{SinkSeen, untold_sink};

    ghost Value = { SinkSeen };

    ghost view = { λ s. untold_sink s.faults };
}

impl<'a, R: Print> RealSink<'a, R> {
    /// Standard output of which no write failed yet.
    pub fn new(rt: &'a R) -> Self
        ensures { result ≡ untold_sink 0 }
    {
        RealSink { rt, faults: 0 }
    }
}

impl<'a, R: Print> Sink for RealSink<'a, R> {
    ghost written = { λ seen. seen.written };

    ghost faults = { λ seen. seen.faults };

    fn write_all(&mut self, piece: &[u8]) -> Result<(), Fault> {
        let mut writer = io::writer(self.rt);
        match writer.write_all(piece) {
            Ok(()) => Ok(()),
            Err(_) => {
                self.faults = self.faults.saturating_add(1);
                Err(Fault::Failed)
            }
        }
    }
}

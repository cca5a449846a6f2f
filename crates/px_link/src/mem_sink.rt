//! A sink in memory, of which writes of chosen numbers fail.
ghost use Rattle.std.specs.Prelude.{◌≡◌, [], true, Some, OnOk, OnErr, IsErrOf};
ghost use Rattle.px_link.specs.Told.{Counts, Gains, GainsFront};
ghost use Rattle.px_link.specs.Calls.{next_call, faults_after};
ghost use Rattle.px_link.specs.MemSink.{fails_next};

use crate::{Fault, Sink, calls};
use std::alloc::Global;
use std::marker::Model;

/// A sink in memory.
pub struct MemSink {
    written: Vec<u8>,
    failing: Vec<u64>,
    calls: u64,
    faults: u64,
}

impl Drop for MemSink {
    fn drop(self) {
        let MemSink {
            written: _,
            failing: _,
            calls: _,
            faults: _,
        } = self;
    }
}

impl Model for MemSink {
    ghost use Rattle.px_link.specs.MemSink.{SinkSeen};

    ghost Value = { SinkSeen };

    ghost view = { λ s. record {
      bytes = s.written.items;
      failing = s.failing.items;
      calls = s.calls;
      faults = s.faults;
    } };
}

impl MemSink {
    /// Nothing is written yet, and no write is to fail.
    pub fn new(alloc: Global) -> Self
        ensures bytes { result.bytes ≡ [] }
        ensures failing { result.failing ≡ [] }
        ensures calls { result.calls ≡ 0 }
        ensures faults { result.faults ≡ 0 }
    {
        MemSink {
            written: Vec::new(alloc),
            failing: Vec::new(alloc),
            calls: 0,
            faults: 0,
        }
    }

    pub fn written(&self) -> &[u8]
        ensures { result.now ≡ self.now.bytes }
    {
        &self.written
    }

    /// The writes of these numbers, counted from 1 and from the first write of all, fail. Numbers that were
    /// named before no longer count.
    pub fn fail_at(&mut self, calls: Vec<u64>)
        ensures failing { self.new.failing ≡ calls.items }
        ensures bytes { self.new.bytes ≡ self.old.bytes }
        ensures calls { self.new.calls ≡ self.old.calls }
        ensures faults { self.new.faults ≡ self.old.faults }
    {
        self.failing = calls;
    }
}

impl Sink for MemSink {
    ghost use Rattle.std.specs.Prelude.{Some};

    ghost written = { λ seen. Some seen.bytes };

    ghost faults = { λ seen. seen.faults };

    /// A write whose number is listed fails, and no other. After an error nothing of the piece was written.
    fn write_all(&mut self, piece: &[u8]) -> Result<(), Fault>
        ensures ok { OnOk result (Gains (Some self.old.bytes) (Some self.new.bytes) piece.now) }
        ensures err { OnErr result (GainsFront (Some self.old.bytes) (Some self.new.bytes) piece.now) }
        ensures count { Counts self.old.faults self.new.faults result }
        ensures nothing { OnErr result (self.new.bytes ≡ self.old.bytes) }
        ensures fails { fails_next self.old ≡ true → IsErrOf result Fault.Failed }
        ensures only { IsErrOf result Fault.Failed → fails_next self.old ≡ true }
        ensures calls { self.new.calls ≡ next_call self.old.calls }
        ensures faults { self.new.faults ≡ faults_after result self.old.faults }
        ensures failing { self.new.failing ≡ self.old.failing }
    {
        self.calls = self.calls.saturating_add(1);
        if calls::is_among(&self.failing, self.calls) {
            self.faults = self.faults.saturating_add(1);
            return Err(Fault::Failed);
        }
        self.written.extend_from_slice(piece)?;
        Ok(())
    }
}

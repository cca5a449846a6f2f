//! A link in memory, of which reads and writes of chosen numbers fail.
ghost use Rattle.std.specs.Prelude.{◌≡◌, ℕ, List, [], ◌||◌, ◌==◌, ◌<◌, ◌≤◌, true, min, take, drop, length, IfOk, IsErr, IsErrOf, MatchResult};
ghost use Rattle.px_link.specs.Calls.{next_call, is_listed, fault_after, faults_after};
ghost use Rattle.px_link.specs.Link.{Reads, Writes, with_close};
ghost use Rattle.px_link.specs.MemLink.{link_of, fails_read, fails_write, fitting, is_broken, is_unused};

use crate::{Close, Ending, Failed, Fault, Link, OutOfMemory, calls};
use std::alloc::Global;
use std::marker::Model;

/// A link in memory.
pub struct MemLink {
    bytes: Vec<u8>,
    at: usize,
    ending: Ending,
    written: Vec<u8>,
    takes: Option<u64>,
    closed: Option<Close>,
    failing_reads: Vec<u64>,
    failing_writes: Vec<u64>,
    reads: u64,
    writes: u64,
    read_faults: u64,
    write_faults: u64,
}

impl Drop for MemLink {
    fn drop(self) {
        let MemLink {
            bytes: _,
            at: _,
            ending: _,
            written: _,
            takes: _,
            closed: _,
            failing_reads: _,
            failing_writes: _,
            reads: _,
            writes: _,
            read_faults: _,
            write_faults: _,
        } = self;
    }
}

impl Model for MemLink {
    ghost use Rattle.std.specs.Prelude.{◌≤◌, drop, vec_len, IfSome};
    ghost use Rattle.px_link.specs.MemLink.{MemLinkSeen};

    ghost Value = { MemLinkSeen };

    ghost view = { λ l. record {
      to_come = drop l.at l.bytes.items;
      ending = l.ending;
      taken = l.at;
      written = l.written.items;
      takes = l.takes;
      closed = l.closed;
      failing_reads = l.failing_reads.items;
      failing_writes = l.failing_writes.items;
      reads = l.reads;
      writes = l.writes;
      read_faults = l.read_faults;
      write_faults = l.write_faults;
    } };

    ghost invariant = { λ l. (l.at ≤ vec_len l.bytes) × IfSome l.takes (λ n. vec_len l.written ≤ n) };
}

impl MemLink {
    /// A link that gives these bytes and then this ending, and takes so many bytes; none takes all.
    pub fn new(
        alloc: Global,
        bytes: &[u8],
        ending: Ending,
        takes: Option<u64>,
    ) -> Result<MemLink, OutOfMemory>
        ensures to_come { IfOk result (λ link. link.to_come ≡ bytes.now) }
        ensures ending { IfOk result (λ link. link.ending ≡ ending) }
        ensures takes { IfOk result (λ link. link.takes ≡ takes) }
        ensures failing { IfOk result (λ link. (link.failing_reads ≡ []) × (link.failing_writes ≡ [])) }
        ensures unused { IfOk result (λ link. is_unused link ≡ true) }
    {
        Ok(MemLink {
            bytes: Vec::from_slice(alloc, bytes)?,
            at: 0,
            ending,
            written: Vec::new(alloc),
            takes,
            closed: None,
            failing_reads: Vec::new(alloc),
            failing_writes: Vec::new(alloc),
            reads: 0,
            writes: 0,
            read_faults: 0,
            write_faults: 0,
        })
    }

    /// What was written.
    pub fn written(&self) -> &[u8]
        ensures { result.now ≡ self.now.written }
    {
        &self.written
    }

    /// How it was closed; none where it was not.
    pub fn closed(&self) -> Option<Close>
        ensures { result ≡ self.now.closed }
    {
        self.closed
    }

    /// The reads of these numbers, counted from 1 and from the first read of all, fail. Numbers that were
    /// named before no longer count.
    pub fn fail_at(&mut self, calls: Vec<u64>)
        ensures { self.new ≡ record self.old { failing_reads = calls.items } }
    {
        self.failing_reads = calls;
    }

    /// The writes of these numbers, counted from 1 and from the first write of all, fail. Numbers that were
    /// named before no longer count.
    pub fn fail_writes_at(&mut self, calls: Vec<u64>)
        ensures { self.new ≡ record self.old { failing_writes = calls.items } }
    {
        self.failing_writes = calls;
    }
}

/// How many bytes of a piece fit.
fn fitting(takes: Option<u64>, written: &[u8], piece: &[u8]) -> usize
    ensures { result ≡ fitting takes written.now piece.now }
{
    match takes {
        Some(takes) => {
            let room = takes.saturating_sub(written.len() as u64);
            (piece.len() as u64).min(room) as usize
        }
        None => piece.len(),
    }
}

/// Whether a stream has broken off, of which so many bytes are left.
fn is_broken(ending: Ending, left: usize) -> bool
    ensures { result ≡ is_broken ending left }
{
    match ending {
        Ending::Broke => left == 0,
        Ending::Closed => false,
    }
}

/// Whether a read of this number fails.
fn fails_read(failing: &[u64], call: u64, ending: Ending, left: usize) -> bool
    ensures { result ≡ (is_listed call failing.now || is_broken ending left) }
{
    calls::is_among(failing, call) || is_broken(ending, left)
}

/// Copies as many bytes from this place on as there are and as fit, and says how many.
fn copy_from(into: &mut [u8], bytes: &[u8], at: usize) -> usize
    requires { at ≤ length bytes.now }
    ensures count { result ≡ min (length (drop at bytes.now)) (length into.old) }
    ensures front { take result into.new ≡ take result (drop at bytes.now) }
{
    let left = &bytes[at..];
    let n = left.len().min(into.len());
    into[..n].copy_from_slice(&left[..n]);
    n
}

/// Whether a write of this number, of which so many bytes fit, fails.
fn fails_write(failing: &[u64], call: u64, fitting: usize) -> bool
    ensures { result ≡ (is_listed call failing.now || (fitting == 0)) }
{
    calls::is_among(failing, call) || fitting == 0
}

#[tactic(auto, using(crate::proofs::Refusals::refusals))]
impl Link for MemLink {
    ghost seen = { link_of };

    ghost wrote = { λ link bytes. bytes ≡ link.written };

    /// A read whose number is listed fails, as does one at the end of a stream that broke off, and no other.
    fn read(&mut self, into: &mut [u8]) -> Result<usize, Failed>
        requires { 0 < length into.old }
        ensures reads { Reads (link_of self.old) (link_of self.new) into.new result }
        ensures wrote { (bytes : List ℕ) → bytes ≡ self.old.written → bytes ≡ self.new.written }
        ensures fails { fails_read self.old ≡ true → IsErr result }
        ensures only { IsErr result → fails_read self.old ≡ true }
        ensures all { IfOk result (λ n. n ≡ min (length self.old.to_come) (length into.old)) }
        ensures calls { self.new.reads ≡ next_call self.old.reads }
        ensures faults { MatchResult result (λ _. self.new.read_faults ≡ self.old.read_faults) (λ _. self.new.read_faults ≡ fault_after self.old.read_faults) }
        ensures failing { (self.new.failing_reads ≡ self.old.failing_reads) × (self.new.failing_writes ≡ self.old.failing_writes) }
        ensures writes { self.new.writes ≡ self.old.writes }
        ensures takes { self.new.takes ≡ self.old.takes }
    {
        self.reads = self.reads.saturating_add(1);
        let left = self.bytes.len() - self.at;
        if fails_read(&self.failing_reads, self.reads, self.ending, left) {
            self.read_faults = self.read_faults.saturating_add(1);
            return Err(Failed);
        }
        let n = copy_from(into, &self.bytes, self.at);
        self.at += n;
        Ok(n)
    }

    /// A write whose number is listed fails, as does one of which no byte fits, and no other. It takes all that fits.
    fn write(&mut self, piece: &[u8]) -> Result<usize, Fault>
        requires { 0 < length piece.now }
        ensures writes { Writes (λ bytes. bytes ≡ self.old.written) (λ bytes. bytes ≡ self.new.written) (link_of self.old) (link_of self.new) piece.now result }
        ensures fails { fails_write self.old piece.now ≡ true → IsErrOf result Fault.Failed }
        ensures only { IsErrOf result Fault.Failed → fails_write self.old piece.now ≡ true }
        ensures all { IfOk result (λ n. n ≡ fitting self.old.takes self.old.written piece.now) }
        ensures calls { self.new.writes ≡ next_call self.old.writes }
        ensures faults { self.new.write_faults ≡ faults_after result self.old.write_faults }
        ensures failing { (self.new.failing_reads ≡ self.old.failing_reads) × (self.new.failing_writes ≡ self.old.failing_writes) }
        ensures reads { self.new.reads ≡ self.old.reads }
        ensures takes { self.new.takes ≡ self.old.takes }
    {
        self.writes = self.writes.saturating_add(1);
        let n = fitting(self.takes, &self.written, piece);
        if fails_write(&self.failing_writes, self.writes, n) {
            self.write_faults = self.write_faults.saturating_add(1);
            return Err(Fault::Failed);
        }
        self.written.extend_from_slice(&piece[..n])?;
        Ok(n)
    }

    fn close(&mut self, how: Close)
        ensures seen { link_of self.new ≡ with_close (link_of self.old) how }
        ensures wrote { (bytes : List ℕ) → bytes ≡ self.old.written → bytes ≡ self.new.written }
        ensures closed { self.new ≡ record self.old { closed = Some how } }
    {
        self.closed = Some(how);
    }
}

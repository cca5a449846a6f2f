//! The answer of an application as the bytes of an HTTP stream, over the link below.
ghost use Rattle.std.specs.Prelude.{◌≡◌, ◌⊎◌, ◌<◌, ◌≤◌, ℕ, List, [], false, length, take, drop, IfOk};
ghost use Rattle.px_link.specs.Link.{Reads};
ghost use Rattle.fcgi_model.specs.Application.{Application};
ghost use Rattle.fcgi_lane.specs.Answer.Stands.{ready_in, IsOpen};
ghost use Rattle.fcgi_link.specs.Reading.{IsReading, IsGivenOf};
ghost use Rattle.fcgi_link.specs.Asking.{no_answer, seen_asking};

use crate::reading::{fill, has_come};
use fcgi_lane::answer::Translator;
use http_model::OutOfMemory;
use px_link::{Failed, Link, Waits};
use std::alloc::Global;
use std::marker::Model;

/// How many bytes of records are read at once.
const MOST_READ: usize = 8192;

/// The answer of one request, and how many bytes of it were given.
pub(crate) struct Answers {
    translator: Translator,
    /// Where records are read to.
    buffer: Vec<u8>,
    given: u64,
    faults: u64,
}

impl Drop for Answers {
    fn drop(self) {
        let Answers {
            translator: _,
            buffer: _,
            given: _,
            faults: _,
        } = self;
    }
}

impl Model for Answers {
    ghost use Rattle.std.specs.Prelude.{◌<◌, vec_len};
    ghost use Rattle.fcgi_link.specs.Reading.{IsReading};
    ghost use Rattle.fcgi_link.specs.Asking.{AnswersSeen};

    ghost Value = { AnswersSeen };

    ghost view = { λ answers. record { translating = answers.translator; given = answers.given; faults = answers.faults } };

    ghost invariant = { λ answers. IsReading answers.translator × (0 < vec_len answers.buffer) };
}

/// Gives what is ready, as much as fits.
fn give(translator: &mut Translator, into: &mut [u8]) -> usize
    requires { IsReading translator.old }
    ensures reading { IsReading translator.new }
    ensures gives { IsGivenOf translator.old translator.new into.new result }
    ensures len { length into.new ≡ length into.old }
    ensures all { (result ≡ length into.old) ⊎ (result ≡ length (ready_in translator.old.head)) }
{
    let ready = translator.ready();
    let count = ready.len().min(into.len());
    into[..count].copy_from_slice(&ready[..count]);
    translator.drop_front(count);
    count
}

impl Answers {
    /// An answer of which nothing came. This call alone takes memory.
    pub fn new(alloc: Global, limit: u32) -> Result<Answers, OutOfMemory>
        ensures { IfOk result (λ answers. answers ≡ no_answer limit) }
    {
        let mut buffer = Vec::new(alloc);
        buffer.resize(MOST_READ, 0)?;
        Ok(Answers {
            translator: Translator::new(alloc, limit)?,
            buffer,
            given: 0,
            faults: 0,
        })
    }

    /// Gives the next bytes of the HTTP stream; 0 is its end. Where the answer breaks off the read fails.
    pub fn read<L: Link>(&mut self, inner: &mut L, into: &mut [u8]) -> Result<usize, Failed>
        requires { 0 < length into.old }
        ensures reads { (application : Application) (write_faults : ℕ) → Reads (seen_asking application self.old write_faults (L.seen inner.old)) (seen_asking application self.new write_faults (L.seen inner.new)) into.new result }
        ensures manner { (L.seen inner.new).manner ≡ (L.seen inner.old).manner }
        ensures wrote { (bytes : List ℕ) → L.wrote inner.old bytes → L.wrote inner.new bytes }
    {
        if !fill(inner, &mut self.translator, &mut self.buffer) {
            self.faults = self.faults.saturating_add(1);
            return Err(Failed);
        }
        let count = give(&mut self.translator, into);
        self.given = self.given.saturating_add(count as u64);
        Ok(count)
    }

    /// Whether a read is answered at once. Where bytes of the HTTP stream have to come first, it takes what records the link below gives without a wait.
    pub fn can_read<L: Waits>(&mut self, inner: &mut L) -> bool
        ensures seen { (application : Application) (write_faults : ℕ) → seen_asking application self.new write_faults (L.seen inner.new) ≡ seen_asking application self.old write_faults (L.seen inner.old) }
        ensures manner { (L.seen inner.new).manner ≡ (L.seen inner.old).manner }
        ensures waits { result ≡ false → (ready_in self.new.translating.head ≡ []) × IsOpen self.new.translating }
        ensures wrote { (bytes : List ℕ) → L.wrote inner.old bytes → L.wrote inner.new bytes }
    {
        has_come(inner, &mut self.translator, &mut self.buffer)
    }

    /// How many bytes were given, as far as that is counted.
    pub fn given(&self) -> u64
        ensures { result ≡ self.now.given }
    {
        self.given
    }

    /// How many reads failed.
    pub fn faults(&self) -> u64
        ensures { result ≡ self.now.faults }
    {
        self.faults
    }
}

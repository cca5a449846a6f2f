//! The request of an application, written as records to the link below.
ghost use Rattle.std.specs.Prelude.{◌≡◌, ◌<◌, ◌++◌, ℕ, List, [], false, length, OnOk, IsErrOf};
ghost use Rattle.px_link.specs.Link.{Writes};
ghost use Rattle.fcgi_lane.specs.Request.Stands.{Stands};
ghost use Rattle.fcgi_link.specs.Asking.{AnswersSeen, AsksSeen, no_request, seen_asking, WroteAsking, IsUnread};

use fcgi_lane::request::Translator;
use http_model::OutOfMemory;
use px_link::{Application, Fault, Link};
use std::alloc::Global;
use std::marker::Model;

/// One request, as far as it was written.
pub(crate) struct Asks {
    translator: Translator,
    /// Nothing more is written.
    stopped: bool,
    faults: u64,
}

impl Drop for Asks {
    fn drop(self) {
        let Asks {
            translator: _,
            stopped: _,
            faults: _,
        } = self;
    }
}

impl Model for Asks {
    ghost use Rattle.std.specs.Prelude.{◌≡◌, [], false};
    ghost use Rattle.fcgi_link.specs.Asking.{AsksSeen};

    ghost Value = { AsksSeen };

    ghost view = { λ asks. record { translating = asks.translator; stopped = asks.stopped; faults = asks.faults } };

    ghost invariant = { λ asks. (asks.stopped ≡ false → asks.translator.left ≡ []) × (asks.stopped ≡ false → asks.faults ≡ 0) };
}

/// Writes all records that are ready. It wants memory only where none of them was written so far: behind that it fails.
fn send<L: Link>(inner: &mut L, translator: &mut Translator) -> Result<(), Fault>
    ensures all { OnOk result (translator.new.left ≡ []) }
    ensures application { translator.new.application ≡ translator.old.application }
    ensures sends { (given text : List ℕ) → Stands translator.old given text → L.wrote inner.old given → (more : List ℕ) × Stands translator.new (given ++ more) text × L.wrote inner.new (given ++ more) }
    ensures nothing { IsErrOf result Fault.OutOfMemory → (bytes : List ℕ) → L.wrote inner.old bytes → L.wrote inner.new bytes }
    ensures unread { IsUnread (L.seen inner.old) (L.seen inner.new) }
{
    let mut some = false;
    'records: while !translator.ready().is_empty() {
        match inner.write(translator.ready()) {
            Ok(count) => {
                translator.drop_front(count);
                some = true;
            }
            Err(Fault::Failed) => return Err(Fault::Failed),
            Err(Fault::OutOfMemory) => return Err(unroomed(some)),
        }
    }
    Ok(())
}

/// Why nothing more is written where memory is wanted: an application that has some of the records has to count as failed.
fn unroomed(some: bool) -> Fault
    ensures { result ≡ Fault.OutOfMemory → some ≡ false }
{
    if some {
        Fault::Failed
    } else {
        Fault::OutOfMemory
    }
}

/// Takes a piece of the request, and writes the records that it asks.
fn write_asking<L: Link>(
    inner: &mut L,
    translator: &mut Translator,
    stopped: &mut bool,
    faults: &mut u64,
    piece: &[u8],
) -> Result<usize, Fault>
    requires some { 0 < length piece.now }
    requires left { stopped.old ≡ false → translator.old.left ≡ [] }
    requires unfailed { stopped.old ≡ false → faults.old ≡ 0 }
    ensures left { stopped.new ≡ false → translator.new.left ≡ [] }
    ensures unfailed { stopped.new ≡ false → faults.new ≡ 0 }
    ensures writes { (answers : AnswersSeen) (old new : AsksSeen) → old ≡ record { translating = translator.old; stopped = stopped.old; faults = faults.old } → new ≡ record { translating = translator.new; stopped = stopped.new; faults = faults.new }
        → Writes (WroteAsking old (L.wrote inner.old)) (WroteAsking new (L.wrote inner.new)) (seen_asking old.translating.application answers old.faults (L.seen inner.old)) (seen_asking new.translating.application answers new.faults (L.seen inner.new)) piece.now result }
    ensures manner { (L.seen inner.new).manner ≡ (L.seen inner.old).manner }
{
    if *stopped {
        return Err(Fault::OutOfMemory);
    }
    match translator.feed(piece) {
        Ok(()) => {}
        Err(OutOfMemory) => return Err(Fault::OutOfMemory),
    }
    match send(inner, translator) {
        Ok(()) => Ok(piece.len()),
        Err(Fault::Failed) => {
            *stopped = true;
            *faults = faults.saturating_add(1);
            Err(Fault::Failed)
        }
        Err(Fault::OutOfMemory) => {
            *stopped = true;
            Err(Fault::OutOfMemory)
        }
    }
}

impl Asks {
    /// A request of which nothing was written.
    pub fn new(alloc: Global, application: Application) -> Asks
        ensures { result ≡ no_request application }
    {
        Asks {
            translator: Translator::new(alloc, application),
            stopped: false,
            faults: 0,
        }
    }

    /// Takes the whole piece, where it answers its length. Behind a failure, or where memory was wanted while records were ready, nothing more is taken.
    pub fn write<L: Link>(&mut self, inner: &mut L, piece: &[u8]) -> Result<usize, Fault>
        requires { 0 < length piece.now }
        ensures writes { (answers : AnswersSeen) → Writes (WroteAsking self.old (L.wrote inner.old)) (WroteAsking self.new (L.wrote inner.new))
            (seen_asking self.old.translating.application answers self.old.faults (L.seen inner.old)) (seen_asking self.new.translating.application answers self.new.faults (L.seen inner.new)) piece.now result }
        ensures manner { (L.seen inner.new).manner ≡ (L.seen inner.old).manner }
    {
        write_asking(
            inner,
            &mut self.translator,
            &mut self.stopped,
            &mut self.faults,
            piece,
        )
    }

    /// How many writes failed.
    pub fn faults(&self) -> u64
        ensures { result ≡ self.now.faults }
    {
        self.faults
    }
}

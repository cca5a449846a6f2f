//! A filter that looks for a needle.
ghost use Rattle.std.specs.Prelude.{◌≡◌, ◌≤◌, ◌<◌, ◌+◌, ◌++◌, ◌∷◌, ◌⊎◌, [], length, take, Bool, List, ℕ, Option, Some, None, IfOk, IfSome, true, false, min, slice_index, ◌≢◌};
ghost use Rattle.body_filter.specs.Filter.{behind, searched, matched, is_over, ended};
ghost use Rattle.body_filter.specs.Kept as spec;
ghost use Rattle.body_filter.specs.Feeding.{Feeds, Meaning};
ghost use Rattle.body_filter.specs.Machines.{searcher_meaning};

use crate::filter_spec::{Fed, FedState};
use crate::held::Held;
use crate::needle::Needle;
use memchr::memchr;
use px_link::{Bytes, OutOfMemory};
use std::alloc::Global;
use std::marker::Model;

/// How many bytes one byte may bring: a needle's, or a text in its place.
const HELD: usize = 257;

/// How far the text is free of a byte.
fn free_front(byte: u8, text: &[u8]) -> usize
    ensures within { result ≤ length text.now }
    ensures free { (k : ℕ) → k < result → slice_index text.now k ≢ byte }
{
    match memchr(byte, text) {
        Some(at) => at,
        None => text.len(),
    }
}

/// Holds what no longer can become a needle, of `kept` bytes of it and one more, where `left` of them can.
fn hold_settled(held: &mut Held, needle: &[u8], kept: usize, byte: u8, left: usize)
    requires fits { kept < length needle.now }
    requires size { length needle.now < held.old.size }
    requires left { left ≡ length (spec.kept needle.now (take kept needle.now ++ byte ∷ [])) }
    ensures items { held.new.items ≡ spec.settled needle.now (take kept needle.now ++ byte ∷ []) }
    ensures size { held.new.size ≡ held.old.size }
{
    if left == 0 {
        held.put_with(&needle[..kept], byte);
        return;
    }
    held.put(&needle[..kept + 1 - left]);
}

/// A search for a needle, which is refused or replaced.
#[derive(Drop)]
pub(crate) struct Searcher {
    needle: Needle,
    /// What stands for a needle; none: it is refused.
    to: Option<Bytes>,
    /// How many bytes of the needle are kept back.
    kept: usize,
    /// What is to be given first.
    held: Held,
    state: FedState,
    /// No byte follows those that were taken.
    whole: bool,
}

impl Model for Searcher {
    ghost use Rattle.body_filter.specs.Machines.{SearchAt, IsSearcher};

    ghost Value = { SearchAt };

    ghost view = { λ s. record { needle = s.needle; to = s.to; kept = s.kept; held = s.held; state = s.state; whole = s.whole } };

    ghost invariant = { λ s. IsSearcher s.needle s.to s.kept s.held };
}

impl Searcher {
    /// Gives what is held.
    fn give(&mut self, out: &mut [u8]) -> usize
        ensures within { result ≤ length out.old }
        ensures gives { (whole : Bool) (rest : List ℕ) → searcher_meaning self.old whole rest ≡ behind (take result out.new) (searcher_meaning self.new whole rest) }
        ensures same { (self.new.needle ≡ self.old.needle) × (self.new.to ≡ self.old.to) }
        ensures all { result < length out.old → self.new.held.items ≡ [] }
        ensures some { 0 < length out.old → 0 < length self.old.held.items → 0 < result }
        ensures state { self.new.state ≡ self.old.state }
    {
        self.held.give(out)
    }

    /// A needle ends here.
    fn meet(&mut self)
        requires going { self.old.state ≡ FedState.Going }
        requires empty { self.old.held.items ≡ [] }
        requires open { self.old.whole ≡ false }
        ensures meaning { (whole : Bool) (rest : List ℕ) → matched self.old.to (searched self.old.needle self.old.to 0 whole rest) ≡ searcher_meaning self.new whole rest }
        ensures open { self.new.whole ≡ false }
        ensures same { (self.new.needle ≡ self.old.needle) × (self.new.to ≡ self.old.to) }
    {
        self.kept = 0;
        match &self.to {
            None => self.state = FedState::Refused(403),
            Some(to) => self.held.put(to.as_slice()),
        }
    }

    /// Takes one byte.
    fn take(&mut self, byte: u8)
        requires going { self.old.state ≡ FedState.Going }
        requires empty { self.old.held.items ≡ [] }
        requires open { self.old.whole ≡ false }
        ensures meaning { (whole : Bool) (rest : List ℕ) → searcher_meaning self.old whole (byte ∷ rest) ≡ searcher_meaning self.new whole rest }
        ensures open { self.new.whole ≡ false }
        ensures same { (self.new.needle ≡ self.old.needle) × (self.new.to ≡ self.old.to) }
    {
        let kept = self.needle.kept_behind(self.kept, byte);
        if kept == self.needle.as_slice().len() {
            self.meet();
            return;
        }
        hold_settled(
            &mut self.held,
            self.needle.as_slice(),
            self.kept,
            byte,
            kept,
        );
        self.kept = kept;
    }

    /// No byte follows.
    fn close(&mut self)
        ensures meaning { (whole : Bool) (rest : List ℕ) → searcher_meaning self.old true [] ≡ searcher_meaning self.new whole rest }
        ensures whole { self.new.whole ≡ true }
        ensures same { (self.new.needle ≡ self.old.needle) × (self.new.to ≡ self.old.to) }
    {
        self.whole = true;
    }

    /// Ends the body: what was kept back is held.
    fn end(&mut self)
        requires going { self.old.state ≡ FedState.Going }
        requires empty { self.old.held.items ≡ [] }
        ensures meaning { (whole : Bool) (rest : List ℕ) → searcher_meaning self.old true [] ≡ searcher_meaning self.new whole rest }
        ensures state { self.new.state ≡ FedState.Over }
        ensures same { (self.new.needle ≡ self.old.needle) × (self.new.to ≡ self.old.to) }
    {
        self.held.put(&self.needle.as_slice()[..self.kept]);
        self.state = FedState::Over;
    }

    /// Whether nothing is held.
    fn is_clear(&self) -> bool
        ensures clear { result ≡ true → self.now.held.items ≡ [] }
        ensures held { result ≡ false → 0 < length self.now.held.items }
    {
        self.held.as_slice().is_empty()
    }

    /// Lets bytes through that begin no needle.
    fn pass(&mut self, piece: &[u8], out: &mut [u8]) -> usize
        requires going { self.old.state ≡ FedState.Going }
        requires empty { self.old.held.items ≡ [] }
        requires open { self.old.whole ≡ false }
        requires none { self.old.kept ≡ 0 }
        ensures used { result ≤ length piece.now }
        ensures given { result ≤ length out.old }
        ensures meaning { (whole : Bool) (rest : List ℕ) → searcher_meaning self.old whole (take result piece.now ++ rest) ≡ behind (take result out.new) (searcher_meaning self.new whole rest) }
        ensures same { self.new ≡ self.old }
    {
        let room = piece.len().min(out.len());
        let len = free_front(self.needle.as_slice()[0], &piece[..room]);
        out[..len].copy_from_slice(&piece[..len]);
        len
    }

    /// Passes on what is free of needles, or takes one byte.
    fn advance(&mut self, piece: &[u8], out: &mut [u8]) -> Fed
        requires going { self.old.state ≡ FedState.Going }
        requires empty { self.old.held.items ≡ [] }
        requires open { self.old.whole ≡ false }
        requires some { 0 < length piece.now }
        ensures used { (0 < result.used) × (result.used ≤ length piece.now) }
        ensures given { result.given ≤ length out.old }
        ensures meaning { (whole : Bool) (rest : List ℕ) → searcher_meaning self.old whole (take result.used piece.now ++ rest) ≡ behind (take result.given out.new) (searcher_meaning self.new whole rest) }
        ensures state { result.state ≡ FedState.Going }
        ensures same { (self.new.needle ≡ self.old.needle) × (self.new.to ≡ self.old.to) }
    {
        if self.kept == 0 {
            let len = self.pass(piece, out);
            if len > 0 {
                return Fed {
                    used: len,
                    given: len,
                    state: FedState::Going,
                };
            }
        }
        self.take(piece[0]);
        Fed {
            used: 1,
            given: 0,
            state: FedState::Going,
        }
    }

    /// Gives what is held, and tells the state where nothing is.
    fn flush(&mut self, out: &mut [u8]) -> Fed
        requires { 0 < length out.old }
        ensures used { result.used ≡ 0 }
        ensures given { result.given ≤ length out.old }
        ensures meaning { (whole : Bool) (rest : List ℕ) → searcher_meaning self.old whole rest ≡ behind (take result.given out.new) (searcher_meaning self.new whole rest) }
        ensures told { is_over result.state ≡ true → (whole : Bool) (rest : List ℕ) → searcher_meaning self.new whole rest ≡ ended result.state }
        ensures some { result.state ≡ FedState.Going → result.given ≡ 0 → (self.old.held.items ≡ []) × (self.old.state ≡ FedState.Going) }
        ensures same { (self.new.needle ≡ self.old.needle) × (self.new.to ≡ self.old.to) }
    {
        let given = self.give(out);
        if self.is_clear() {
            return Fed {
                used: 0,
                given,
                state: self.state,
            };
        }
        Fed {
            used: 0,
            given,
            state: FedState::Going,
        }
    }

    /// Goes on with a body that is whole: what was kept back is held, and what is held is given.
    fn finish(&mut self, out: &mut [u8]) -> Fed
        requires whole { self.old.whole ≡ true }
        requires room { 0 < length out.old }
        ensures used { result.used ≡ 0 }
        ensures given { result.given ≤ length out.old }
        ensures meaning { (whole : Bool) (rest : List ℕ) → searcher_meaning self.old true [] ≡ behind (take result.given out.new) (searcher_meaning self.new whole rest) }
        ensures told { is_over result.state ≡ true → (whole : Bool) (rest : List ℕ) → searcher_meaning self.new whole rest ≡ ended result.state }
        ensures some { result.state ≡ FedState.Going → result.given ≡ 0 → ⊥ }
        ensures same { (self.new.needle ≡ self.old.needle) × (self.new.to ≡ self.old.to) }
    {
        if !self.is_clear() {
            return self.flush(out);
        }
        if self.state != FedState::Going {
            return self.flush(out);
        }
        self.end();
        self.flush(out)
    }

    /// Takes the next bytes of a piece, and gives what they bring.
    pub(crate) fn feed(&mut self, piece: &[u8], last: bool, out: &mut [u8]) -> Fed
        requires { 0 < length out.old }
        ensures feeds { Feeds (searcher_meaning self.old) piece.now last result out.new (searcher_meaning self.new) }
        ensures same { (self.new.needle ≡ self.old.needle) × (self.new.to ≡ self.old.to) }
    {
        if last && piece.is_empty() {
            self.close();
            return self.finish(out);
        }
        if self.whole {
            return self.finish(out);
        }
        if !self.is_clear() {
            return self.flush(out);
        }
        if self.state != FedState::Going {
            return self.flush(out);
        }
        if piece.is_empty() {
            return Fed {
                used: 0,
                given: 0,
                state: FedState::Going,
            };
        }
        let fed = self.advance(piece, out);
        if last && fed.used == piece.len() {
            self.close();
            return fed;
        }
        fed
    }

    /// A search in a body that has not begun.
    pub(crate) fn new(
        alloc: Global,
        needle: &[u8],
        to: Option<Bytes>,
    ) -> Result<Searcher, OutOfMemory>
        requires some { 0 < length needle.now }
        requires few { length needle.now ≤ 256 }
        requires text { IfSome to (λ text. length text ≤ 256) }
        ensures meaning { IfOk result (λ made. (whole : Bool) (rest : List ℕ) → searcher_meaning made whole rest ≡ searched needle.now to 0 whole rest) }
        ensures same { IfOk result (λ made. (made.needle ≡ needle.now) × (made.to ≡ to)) }
    {
        Ok(Searcher {
            needle: Needle::new(alloc, needle)?,
            to,
            kept: 0,
            held: Held::new(alloc, HELD)?,
            state: FedState::Going,
            whole: false,
        })
    }

    /// Begins a new body.
    pub(crate) fn reset(&mut self)
        ensures meaning { (whole : Bool) (rest : List ℕ) → searcher_meaning self.new whole rest ≡ searched self.old.needle self.old.to 0 whole rest }
        ensures same { (self.new.needle ≡ self.old.needle) × (self.new.to ≡ self.old.to) }
    {
        self.held.clear();
        self.kept = 0;
        self.state = FedState::Going;
        self.whole = false;
    }
}

//! The translator of an application's bytes to the HTTP stream that they are, over any cut. What it stands for is told by `Stands`: the bytes that it was fed,
//! of which so much was given as HTTP. It takes all its memory at once: as long as what is fed fits, no call wants more.
ghost use Rattle.std.specs.Prelude.{◌≡◌, ◌≤◌, ◌<◌, ◌++◌, [], ℕ, List, true, false, length, take, drop, IfOk};
ghost use Rattle.http_model.specs.declared.Ending.TheVariants.{Closed, Broke};
ghost use Rattle.fcgi_lane.specs.Answer.Flow.{is_going, is_over};
ghost use Rattle.fcgi_lane.specs.Answer.Stands.{Stands, left_in, ready_in, IsDecided, IsOpen, starting};
ghost use Rattle.fcgi_lane.specs.Answer.Room.{room_in};
ghost use Rattle.fcgi_lane.specs.Answer.Work.{work_left};

use crate::answer::fixed_text::FixedText;
use crate::answer::head_reading::{HeadRead, read_head};
use crate::answer::records::RecordReader;
use http_model::OutOfMemory;
use std::alloc::Global;
use std::marker::Model;

/// How many bytes an HTTP head may have beside those of the application's.
const MOST_MORE: usize = 1024;

/// How far a translator has come with the head.
#[derive(Clone, Copy, Debug)]
pub(crate) enum Progress {
    /// It isn't whole.
    Head,
    /// It was made.
    Behind,
    /// There is none.
    NoHead,
}

/// What may come behind the bytes that are ready.
#[derive(Clone, Copy, Debug, PartialEq, Eq)]
pub enum AnswerState {
    /// More, if more of the application's bytes come.
    Going,
    /// Nothing: the answer is whole.
    Over,
    /// Nothing: the answer breaks off.
    Broken,
}

/// A translator of the answer of one request.
pub struct Translator {
    limit: u32,
    records: RecordReader,
    progress: Progress,
    /// The output so far, while the head isn't whole.
    head: FixedText,
    /// What is left to give, once it was made.
    left: FixedText,
}

impl Drop for Translator {
    fn drop(self) {
        let Translator {
            limit: _,
            records: _,
            progress: _,
            head: _,
            left: _,
        } = self;
    }
}

impl Model for Translator {
    ghost use Rattle.std.specs.Prelude.{◌≡◌};
    ghost use Rattle.fcgi_lane.specs.Answer.Stands.{Translating};
    ghost use Rattle.fcgi_lane.specs.Answer.Progress.{head_of};
    ghost use Rattle.fcgi_lane.specs.Answer.Room.{head_room, left_room};

    ghost Value = { Translating };

    ghost view = { λ t. record { limit = t.limit; head = head_of t.progress t.head.bytes t.left.bytes; flow = t.records } };

    ghost invariant = { λ t. (t.head.cap ≡ head_room t.limit) × (t.left.cap ≡ left_room t.limit) };
}

impl Translator {
    /// A translator that was fed nothing, of an answer whose head may have so many bytes. This call alone takes memory.
    pub fn new(alloc: Global, limit: u32) -> Result<Translator, OutOfMemory>
        ensures starts { IfOk result (λ translator. translator ≡ starting limit) }
        ensures decided { IfOk result (λ translator. IsDecided translator) }
    {
        let most = limit as usize + 1;
        Ok(Translator {
            limit,
            records: RecordReader::new(),
            progress: Progress::Head,
            head: FixedText::new(alloc, most)?,
            left: FixedText::new(alloc, most + MOST_MORE)?,
        })
    }

    /// How many bytes it takes at once, before others are given.
    pub fn room(&self) -> usize
        ensures { result ≡ room_in self.now }
    {
        match self.progress {
            Progress::Head => self.head.room(),
            Progress::Behind => self.left.room(),
            Progress::NoHead => 0,
        }
    }

    /// Takes bytes of the application, in whatever pieces they come. Where none are ready and more may come, at least one brings it closer to that.
    pub fn feed(&mut self, bytes: &[u8])
        requires { length bytes.now ≤ room_in self.old }
        ensures fed { (given taken : List ℕ) → Stands self.old given taken → Stands self.new given (taken ++ bytes.now) }
        ensures limit { self.new.limit ≡ self.old.limit }
        ensures works { 0 < length bytes.now → IsDecided self.old → IsOpen self.old → ready_in self.old.head ≡ [] → work_left self.new < work_left self.old }
    {
        match self.progress {
            Progress::Head => self.head.push_output(&mut self.records, bytes),
            Progress::Behind => self.left.push_output(&mut self.records, bytes),
            Progress::NoHead => {}
        }
    }

    /// Makes the HTTP head, once the application's is whole.
    pub fn begin(&mut self)
        ensures stands { (given taken : List ℕ) → Stands self.old given taken → Stands self.new given taken }
        ensures decided { IsDecided self.new }
        ensures limit { self.new.limit ≡ self.old.limit }
        ensures works { work_left self.new ≤ work_left self.old }
    {
        let Progress::Head = self.progress else {
            return;
        };
        match read_head(self.limit, self.head.as_slice(), &mut self.left) {
            HeadRead::Whole => self.progress = Progress::Behind,
            HeadRead::Bad => self.progress = Progress::NoHead,
            HeadRead::More => {
                if !self.records.is_going() {
                    self.progress = Progress::NoHead;
                }
            }
        }
    }

    /// The bytes of the HTTP stream that may be given at once.
    pub fn ready(&self) -> &[u8]
        ensures { result.now ≡ ready_in self.now.head }
    {
        match self.progress {
            Progress::Behind => self.left.as_slice(),
            Progress::Head | Progress::NoHead => &[],
        }
    }

    /// So many of them were given.
    pub fn drop_front(&mut self, count: usize)
        requires { count ≤ length (ready_in self.old.head) }
        ensures given { (given taken : List ℕ) → Stands self.old given taken → Stands self.new (given ++ take count (ready_in self.old.head)) taken }
        ensures left { ready_in self.new.head ≡ drop count (ready_in self.old.head) }
        ensures decided { IsDecided self.old → IsDecided self.new }
        ensures limit { self.new.limit ≡ self.old.limit }
    {
        let Progress::Behind = self.progress else {
            return;
        };
        self.left.drop_front(count);
    }

    /// What may come behind the bytes that are ready. Where more may come and nothing is ready, there is room for it.
    pub fn state(&self) -> AnswerState
        ensures going { result ≡ AnswerState.Going → IsOpen self.now }
        ensures room { result ≡ AnswerState.Going → IsDecided self.now → ready_in self.now.head ≡ [] → 0 < room_in self.now }
        ensures over { result ≡ AnswerState.Over → (rest : List ℕ) → left_in self.now rest ≡ record { bytes = ready_in self.now.head; ending = Closed } }
        ensures broken { result ≡ AnswerState.Broken → (rest : List ℕ) → left_in self.now rest ≡ record { bytes = ready_in self.now.head; ending = Broke } }
    {
        match self.progress {
            Progress::Head => AnswerState::Going,
            Progress::NoHead => AnswerState::Broken,
            Progress::Behind => state_behind(&self.records),
        }
    }
}

/// What may come behind the head.
fn state_behind(records: &RecordReader) -> AnswerState
    ensures going { result ≡ AnswerState.Going → is_going records.now.place ≡ true }
    ensures over { result ≡ AnswerState.Over → (is_going records.now.place ≡ false) × (is_over records.now.place ≡ true) }
    ensures broken { result ≡ AnswerState.Broken → (is_going records.now.place ≡ false) × (is_over records.now.place ≡ false) }
{
    if records.is_going() {
        return AnswerState::Going;
    }
    if records.is_over() {
        AnswerState::Over
    } else {
        AnswerState::Broken
    }
}

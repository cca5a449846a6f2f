//! The answer of an application, read over the link below until bytes of the HTTP stream are ready.
ghost use Rattle.std.specs.Prelude.{◌≡◌, ◌<◌, ◌≤◌, ℕ, List, [], true, false, length};
ghost use Rattle.http_model.specs.declared.Ending.TheVariants.{Closed};
ghost use Rattle.fcgi_lane.specs.Answer.Cgi.{no_stream};
ghost use Rattle.fcgi_lane.specs.Answer.Stands.{left_in, ready_in, IsDecided, IsOpen};
ghost use Rattle.fcgi_lane.specs.Answer.Room.{room_in};
ghost use Rattle.fcgi_lane.specs.Answer.Work.{work_left};
ghost use Rattle.fcgi_link.specs.Reading.{IsReading, IsAlike, BreaksOff};

use fcgi_lane::answer::{AnswerState, Translator};
use px_link::{Failed, Link, Waits};

/// What an answer is read for next.
pub(crate) enum Next {
    /// Nothing is ready, and more may come.
    More,
    /// Bytes are ready, or the answer is over.
    Given,
    /// Nothing is ready, and the answer breaks off.
    Broken,
}

/// What this answer is read for next.
fn next_of(translator: &Translator) -> Next
    ensures more { result ≡ Next.More → (ready_in translator.now.head ≡ []) × IsOpen translator.now × (IsDecided translator.now → 0 < room_in translator.now) }
    ensures given { result ≡ Next.Given → ready_in translator.now.head ≡ [] → (rest : List ℕ) → left_in translator.now rest ≡ record { bytes = []; ending = Closed } }
    ensures broken { result ≡ Next.Broken → (ready_in translator.now.head ≡ []) × ((rest : List ℕ) → left_in translator.now rest ≡ no_stream) }
{
    if !translator.ready().is_empty() {
        return Next::Given;
    }
    match translator.state() {
        AnswerState::Going => Next::More,
        AnswerState::Over => Next::Given,
        AnswerState::Broken => Next::Broken,
    }
}

/// One read of the link below. It says false where nothing came: the answer breaks off there.
fn read_on<L: Link>(inner: &mut L, translator: &mut Translator, buffer: &mut [u8]) -> bool
    requires buffer { 0 < length buffer.old }
    requires room { 0 < room_in translator.old }
    requires nothing { ready_in translator.old.head ≡ [] }
    requires going { IsOpen translator.old }
    requires reading { IsReading translator.old }
    ensures len { length buffer.new ≡ length buffer.old }
    ensures reading { IsReading translator.new }
    ensures alike { IsAlike translator.old (L.seen inner.old) translator.new (L.seen inner.new) }
    ensures works { result ≡ true → work_left translator.new < work_left translator.old }
    ensures broken { result ≡ false → BreaksOff translator.new (L.seen inner.new) }
    ensures wrote { (bytes : List ℕ) → L.wrote inner.old bytes → L.wrote inner.new bytes }
{
    let most = buffer.len().min(translator.room());
    match inner.read(&mut buffer[..most]) {
        Ok(count) => {
            if count == 0 {
                return false;
            }
            translator.feed(&buffer[..count]);
            translator.begin();
            true
        }
        Err(Failed) => false,
    }
}

/// Reads until bytes are ready or the answer is over. It says false where the answer breaks off in front of that.
pub(crate) fn fill<L: Link>(inner: &mut L, translator: &mut Translator, buffer: &mut [u8]) -> bool
    requires buffer { 0 < length buffer.old }
    requires reading { IsReading translator.old }
    ensures len { length buffer.new ≡ length buffer.old }
    ensures reading { IsReading translator.new }
    ensures alike { IsAlike translator.old (L.seen inner.old) translator.new (L.seen inner.new) }
    ensures given { result ≡ true → ready_in translator.new.head ≡ [] → (rest : List ℕ) → left_in translator.new rest ≡ record { bytes = []; ending = Closed } }
    ensures broken { result ≡ false → BreaksOff translator.new (L.seen inner.new) }
    ensures wrote { (bytes : List ℕ) → L.wrote inner.old bytes → L.wrote inner.new bytes }
{
    'pieces: loop {
        match next_of(translator) {
            Next::Given => return true,
            Next::Broken => return false,
            Next::More => {}
        }
        if !read_on(inner, translator, buffer) {
            return false;
        }
    }
}

/// Reads while that doesn't wait, until bytes are ready, the answer is over, or it breaks off. It says false where a read would wait for more, so that none of
/// these has come. Where nothing came, the next read asks the link below once more, which is answered at once.
pub(crate) fn has_come<L: Waits>(
    inner: &mut L,
    translator: &mut Translator,
    buffer: &mut [u8],
) -> bool
    requires buffer { 0 < length buffer.old }
    requires reading { IsReading translator.old }
    ensures len { length buffer.new ≡ length buffer.old }
    ensures reading { IsReading translator.new }
    ensures alike { IsAlike translator.old (L.seen inner.old) translator.new (L.seen inner.new) }
    ensures waits { result ≡ false → (ready_in translator.new.head ≡ []) × IsOpen translator.new }
    ensures wrote { (bytes : List ℕ) → L.wrote inner.old bytes → L.wrote inner.new bytes }
{
    'pieces: loop {
        match next_of(translator) {
            Next::Given => return true,
            Next::Broken => return true,
            Next::More => {}
        }
        if !inner.can_read() {
            return false;
        }
        if !read_on(inner, translator, buffer) {
            return true;
        }
    }
}

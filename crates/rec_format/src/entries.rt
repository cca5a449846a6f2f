//! The lines of a record: a client's stream, a server's, and a turn. They lend their bytes out of the text.
ghost use Rattle.std.specs.Prelude.{◌≡◌, option_map};
ghost use Rattle.rec_format.specs.Pieces.{before, behind};
ghost use Rattle.rec_format.specs.Entries.{ending_of, takes_of, stream_of, client_entry, served, server_entry, turn_by, up_to, moved, turn_words, turn_entry};
ghost use Rattle.rec_format.specs.Lent.{lent_stream, lent_server, lent_turn};

use crate::pieces;
use px_link::{Ending, Turn};

/// A stream, in the bytes of a record.
#[derive(Clone, Copy)]
pub(crate) struct LentStream<'a> {
    pub(crate) bytes: &'a [u8],
    pub(crate) ending: Ending,
}

/// A server that is there, in the bytes of a record.
#[derive(Clone, Copy)]
pub(crate) struct LentServer<'a> {
    pub(crate) stream: LentStream<'a>,
    pub(crate) takes: Option<u64>,
}

/// How a stream ended, by its word.
fn ending(word: &[u8]) -> Option<Ending>
    ensures { result ≡ ending_of word.now }
{
    if pieces::is_word(word, b"closed") {
        Some(Ending::Closed)
    } else if pieces::is_word(word, b"broke") {
        Some(Ending::Broke)
    } else {
        None
    }
}

/// How much a server takes, by its word.
fn takes(word: &[u8]) -> Option<Option<u64>>
    ensures { result ≡ takes_of word.now }
{
    if pieces::is_word(word, b"all") {
        return Some(None);
    }
    let n = pieces::number(word)?;
    Some(Some(n))
}

/// The stream in front of a text, whose length and ending these words tell, and what stands behind it.
fn stream<'a>(number: &[u8], word: &[u8], text: &'a [u8]) -> Option<(LentStream<'a>, &'a [u8])>
    ensures { option_map lent_stream result ≡ stream_of number.now word.now text.now }
{
    let n = pieces::number(number)?;
    let ending = ending(word)?;
    let (bytes, rest) = pieces::counted(text, n)?;
    Some((LentStream { bytes, ending }, rest))
}

/// The client's entry in front, and what stands behind it.
pub(crate) fn client(text: &[u8]) -> Option<(LentStream<'_>, &[u8])>
    ensures { option_map lent_stream result ≡ client_entry (before 10 text.now) (behind 10 text.now) }
{
    let (line, after) = pieces::split(text, b'\n');
    let text = after?;
    let (word, words) = pieces::split(line, b' ');
    let words = words?;
    let (number, last) = pieces::split(words, b' ');
    let last = last?;
    if pieces::is_word(word, b"client") {
        stream(number, last, text)
    } else {
        None
    }
}

/// The server's stream in front of a text, by the words of its line, and what stands behind it.
fn served<'a>(words: &[u8], text: &'a [u8]) -> Option<(Option<LentServer<'a>>, &'a [u8])>
    ensures { option_map lent_server result ≡ served words.now text.now }
{
    let (number, more) = pieces::split(words, b' ');
    let more = more?;
    let (word, last) = pieces::split(more, b' ');
    let last = last?;
    let takes = takes(last)?;
    let (stream, rest) = stream(number, word, text)?;
    Some((Some(LentServer { stream, takes }), rest))
}

/// The server's entry in front, whose line begins with `server`, and what stands behind it.
pub(crate) fn server(text: &[u8]) -> Option<(Option<LentServer<'_>>, &[u8])>
    ensures { option_map lent_server result ≡ server_entry (before 10 text.now) (behind 10 text.now) }
{
    let (line, after) = pieces::split(text, b'\n');
    let text = after?;
    let (_, words) = pieces::split(line, b' ');
    let words = words?;
    if pieces::is_word(words, b"refused") {
        Some((None, text))
    } else {
        served(words, text)
    }
}

/// Who moves, by a letter.
fn turn_by(letter: &[u8], n: u32) -> Option<Turn>
    ensures { result ≡ turn_by letter.now n }
{
    if pieces::is_word(letter, b"c") {
        Some(Turn::ClientGives(n))
    } else if pieces::is_word(letter, b"C") {
        Some(Turn::ClientTakes(n))
    } else if pieces::is_word(letter, b"s") {
        Some(Turn::ServerGives(n))
    } else if pieces::is_word(letter, b"S") {
        Some(Turn::ServerTakes(n))
    } else {
        None
    }
}

/// A number from 1 to this one.
fn up_to(most: u32, word: &[u8]) -> Option<u32>
    ensures { result ≡ up_to most word.now }
{
    let n = pieces::number(word)?;
    if 1 <= n && n <= most as u64 {
        Some(n as u32)
    } else {
        None
    }
}

/// The most that a turn may move.
const MOST_MOVED: u32 = 262144;

/// A letter and a number: who moves, and at most how many bytes.
fn moved(words: &[u8]) -> Option<Turn>
    ensures { result ≡ moved words.now }
{
    let (letter, number) = pieces::split(words, b' ');
    let number = number?;
    let n = up_to(MOST_MOVED, number)?;
    turn_by(letter, n)
}

/// A turn of some connection, by its words.
fn turn_words(numbered: bool, connections: u32, line: &[u8]) -> Option<(u32, Turn)>
    ensures { result ≡ turn_words numbered connections line.now }
{
    if !numbered {
        let turn = moved(line)?;
        return Some((1, turn));
    }
    let (first, words) = pieces::split(line, b' ');
    let words = words?;
    let owner = up_to(connections, first)?;
    let turn = moved(words)?;
    Some((owner, turn))
}

/// The turn in front, and what stands behind it.
pub(crate) fn turn(numbered: bool, connections: u32, text: &[u8]) -> Option<((u32, Turn), &[u8])>
    ensures { option_map lent_turn result ≡ turn_entry numbered connections (before 10 text.now) (behind 10 text.now) }
{
    let (line, after) = pieces::split(text, b'\n');
    let text = after?;
    let turn = turn_words(numbered, connections, line)?;
    Some((turn, text))
}

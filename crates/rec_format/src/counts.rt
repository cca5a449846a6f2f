//! The lines of a record that tell a number, and its last line.
ghost use Rattle.std.specs.Prelude.{◌≡◌, ℕ, option_map};
ghost use Rattle.std.specs.Option.{option_copied};
ghost use Rattle.rec_format.specs.Read.{Gives};
ghost use Rattle.rec_format.specs.Parts.{count_behind, turns_line, connections_line, end_line, nothing};
ghost use Rattle.rec_format.specs.Recorded.{turn_count, connection_count, end_of, format_of, some_number};

use crate::pieces;
use crate::read::{refusal, word};
use crate::record::{RecFault, RecKind};

/// The most turns of a record.
const MOST_TURNS: u64 = 1000000;

/// The most connections of a record.
const MOST_CONNECTIONS: u64 = 1024;

/// The line of the turns in front, of which the first word is known: their number, and what stands behind it.
fn turns_line(text: &[u8]) -> Option<(u64, &[u8])>
    ensures { option_map count_behind result ≡ turns_line text.now }
{
    let (line, after) = pieces::split(text, b'\n');
    let rest = after?;
    let (_, word) = pieces::split(line, b' ');
    let word = word?;
    let count = pieces::number(word)?;
    Some((count, rest))
}

/// The number of turns, within its limit.
pub(crate) fn turn_count(total: u32, text: &[u8]) -> Result<(u32, &[u8]), RecFault>
    ensures { Gives count_behind result (turn_count total text.now) }
{
    match turns_line(text) {
        None => Err(refusal(total, text, RecKind::Turn)),
        Some((count, rest)) => {
            if count <= MOST_TURNS {
                return Ok((count as u32, rest));
            }
            Err(refusal(total, text, RecKind::Limit))
        }
    }
}

/// A number from 1 on.
fn some_number(word: &[u8]) -> Option<u64>
    ensures { result ≡ some_number word.now }
{
    let count = pieces::number(word)?;
    if count >= 1 { Some(count) } else { None }
}

/// The line of the connections in front.
fn connections_line(text: &[u8]) -> Option<(u64, &[u8])>
    ensures { option_map count_behind result ≡ connections_line text.now }
{
    let (line, after) = pieces::split(text, b'\n');
    let rest = after?;
    let (first, number) = pieces::split(line, b' ');
    let number = number?;
    if pieces::is_word(first, b"connections") {
        let count = some_number(number)?;
        Some((count, rest))
    } else {
        None
    }
}

/// The number of connections, within its limit; the turns are not the next line.
pub(crate) fn connection_count(total: u32, text: &[u8]) -> Result<(u32, &[u8]), RecFault>
    ensures { Gives count_behind result (connection_count total text.now) }
{
    match connections_line(text) {
        None => Err(refusal(total, text, RecKind::Count)),
        Some((count, rest)) => {
            if count > MOST_CONNECTIONS {
                return Err(refusal(total, text, RecKind::Limit));
            }
            let word = word(rest);
            if pieces::is_word(word, b"turns") {
                return Err(refusal(total, rest, RecKind::Count));
            }
            Ok((count as u32, rest))
        }
    }
}

/// What stands behind the last line.
fn end_line(text: &[u8]) -> Option<&[u8]>
    ensures { option_copied result ≡ end_line text.now }
{
    let (line, after) = pieces::split(text, b'\n');
    let rest = after?;
    if pieces::is_word(line, b"end") {
        Some(rest)
    } else {
        None
    }
}

/// Looks for the last line, with nothing behind it.
pub(crate) fn end(total: u32, text: &[u8]) -> Result<(), RecFault>
    ensures { Gives nothing result (end_of total text.now) }
{
    match end_line(text) {
        None => Err(refusal(total, text, RecKind::Rest)),
        Some(rest) => {
            if rest.is_empty() {
                return Ok(());
            }
            Err(refusal(total, rest, RecKind::Rest))
        }
    }
}

/// The format that the first line names, and what stands behind it.
pub(crate) fn format(text: &[u8]) -> Option<(u32, &[u8])>
    ensures { option_map count_behind result ≡ format_of text.now }
{
    let (line, after) = pieces::split(text, b'\n');
    let rest = after?;
    if pieces::is_word(line, b"PXREC 1") {
        Some((1, rest))
    } else if pieces::is_word(line, b"PXREC 2") {
        Some((2, rest))
    } else {
        None
    }
}

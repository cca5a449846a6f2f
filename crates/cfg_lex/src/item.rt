//! What stands at the front of the rest of a line: one byte, an escape, a quote, a blank or a comment.

ghost use Rattle.std.specs.Prelude.{◌≡◌, ◌+◌, ◌<◌, ◌≤◌, length};
ghost use Rattle.cfg_lex.specs.Items.{escape_of, hex_escape, behind_backslash, plain, item_at};

use px_bytes::hex_value;

/// Between which quotes a place of the line lies.
#[derive(Clone, Copy, PartialEq, Eq)]
pub enum Quotes {
    Outside,
    Single,
    Double,
}

/// What a few bytes of the line do to the word that they stand in.
#[derive(Clone, Copy)]
pub enum Part {
    /// Words are apart here: a blank, or a comment.
    Gap,
    /// A word is here, even if it stays empty.
    Quote,
    /// The word goes on with this byte.
    Byte(u8),
    /// The word goes on with a backslash and this byte.
    Kept(u8),
    /// The word is malformed.
    Fault,
}

/// A part, how many bytes of the line it takes, and between which quotes what follows lies.
#[derive(Clone, Copy)]
pub struct Item {
    pub part: Part,
    pub used: usize,
    pub quotes: Quotes,
}

/// The byte that an escape of one letter stands for.
fn escape_of(quotes: Quotes, letter: u8) -> Option<u8>
    ensures { result ≡ escape_of quotes letter }
{
    match letter {
        b' ' | b'#' | b'\\' | b'\'' | b'"' => Some(letter),
        b'n' => Some(b'\n'),
        b'r' => Some(b'\r'),
        b't' => Some(b'\t'),
        b'$' if quotes == Quotes::Double => Some(letter),
        _ => None,
    }
}

/// An escape by two digits, of which `rest` are the bytes behind `\x`.
#[tactic(auto, unfolding(crate::specs::Items::hex_escape))]
fn hex_escape(quotes: Quotes, rest: &[u8]) -> Item
    ensures item { result ≡ hex_escape quotes rest.now }
    ensures used { 0 < result.used }
    ensures within { result.used ≤ length rest.now + 2 }
{
    if let [high, low, ..] = rest {
        if let (Some(high), Some(low)) = (hex_value(*high), hex_value(*low)) {
            let part = Part::Byte((16 * high + low) as u8);
            return Item {
                part,
                used: 4,
                quotes,
            };
        }
    }
    Item {
        part: Part::Fault,
        used: 2,
        quotes,
    }
}

/// An escape, of which `rest` are the bytes behind the backslash.
#[tactic(auto, unfolding(crate::specs::Items::behind_backslash))]
fn behind_backslash(quotes: Quotes, rest: &[u8]) -> Item
    ensures item { result ≡ behind_backslash quotes rest.now }
    ensures used { 0 < result.used }
    ensures within { result.used ≤ length rest.now + 1 }
{
    let [letter, digits @ ..] = rest else {
        return Item {
            part: Part::Fault,
            used: 1,
            quotes,
        };
    };
    if *letter == b'x' {
        return hex_escape(quotes, digits);
    }
    let part = match escape_of(quotes, *letter) {
        Some(byte) => Part::Byte(byte),
        None if *letter == 0 => Part::Fault,
        None => Part::Kept(*letter),
    };
    Item {
        part,
        used: 2,
        quotes,
    }
}

/// A byte that stands for itself.
#[tactic(auto, unfolding(crate::specs::Items::plain))]
fn plain(quotes: Quotes, byte: u8) -> Item
    ensures item { result ≡ plain quotes byte }
    ensures used { result.used ≡ 1 }
{
    let part = if byte == 0 {
        Part::Fault
    } else {
        Part::Byte(byte)
    };
    Item {
        part,
        used: 1,
        quotes,
    }
}

/// What stands at the front: at `byte`, with `rest` behind it.
#[tactic(auto, unfolding(crate::specs::Items::item_at))]
pub fn item_at(quotes: Quotes, byte: u8, rest: &[u8]) -> Item
    ensures item { result ≡ item_at quotes byte rest.now }
    ensures used { 0 < result.used }
    ensures within { result.used ≤ length rest.now + 1 }
{
    let (part, used, then) = match (quotes, byte) {
        (Quotes::Outside, b'#') => (Part::Gap, rest.len() + 1, Quotes::Outside),
        (Quotes::Outside, b' ' | b'\t') => (Part::Gap, 1, Quotes::Outside),
        (Quotes::Outside, b'\'') => (Part::Quote, 1, Quotes::Single),
        (Quotes::Outside, b'"') => (Part::Quote, 1, Quotes::Double),
        (Quotes::Single, b'\'') => (Part::Quote, 1, Quotes::Outside),
        (Quotes::Double, b'"') => (Part::Quote, 1, Quotes::Outside),
        (Quotes::Double, b'$') => (Part::Fault, 1, Quotes::Double),
        (Quotes::Outside | Quotes::Double, b'\\') => return behind_backslash(quotes, rest),
        _ => return plain(quotes, byte),
    };
    Item {
        part,
        used,
        quotes: then,
    }
}

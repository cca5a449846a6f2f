//! A value that is joined of pieces, of which a buffer holds as much as it can: so all of it is looked at, however long it is.
ghost use Rattle.std.specs.Prelude.{◌≡◌, ◌++◌, ◌-◌, ◌≤◌, List, ℕ, take, drop, length};
ghost use Rattle.std.specs.List.{prefix_len};
ghost use Rattle.px_bytes.specs.Blanks as blanks;

use crate::action::fields::are_value_bytes;
use px_sample::Buf;

/// What came of the pieces of a value.
#[derive(Clone, Copy)]
pub(crate) enum Joined {
    /// A buffer holds the value, but for blanks at its ends.
    Held,
    /// It is longer than the buffer, also without the blanks at its ends.
    Over,
    /// A byte of it may not stand in a field value.
    Bad,
}

ghost use Rattle.http_rules.specs.Action.Joining.{are_blanks, piece_behind, Joins, joined_by};

/// Whether a byte is a space or a tab.
fn is_blank(byte: u8) -> bool
    ensures { result ≡ blanks.is_blank byte }
{
    byte == b' ' || byte == b'\t'
}

/// Whether all bytes are blanks.
fn are_blanks(bytes: &[u8]) -> bool
    ensures { result ≡ are_blanks bytes.now }
{
    bytes.iter().all(|byte| is_blank(*byte))
}

/// How many blanks stand in front.
fn blanks_in_front(bytes: &[u8]) -> usize
    ensures count { result ≡ prefix_len blanks.is_blank bytes.now }
    ensures within { result ≤ length bytes.now }
{
    bytes.iter().take_while(|byte| is_blank(**byte)).count()
}

/// What of a piece counts: no blank in front of all others.
fn behind<'a>(held: &[u8], piece: &'a [u8]) -> &'a [u8]
    ensures { result.now ≡ piece_behind held.now piece.now }
{
    match held {
        [] => &piece[blanks_in_front(piece)..],
        [_, ..] => piece,
    }
}

/// Puts as many bytes behind those of a buffer as it can hold; whether all others are blanks.
fn push_front(bytes: &[u8], into: &mut Buf) -> bool
    ensures bytes { into.new.bytes ≡ into.old.bytes ++ take (into.old.cap - length into.old.bytes) bytes.now }
    ensures left { result ≡ are_blanks (drop (into.old.cap - length into.old.bytes) bytes.now) }
    ensures cap { into.new.cap ≡ into.old.cap }
{
    let room = into.cap() - into.bytes().len();
    let (front, left) = bytes.split_at(room.min(bytes.len()));
    let _fits = into.push(front);
    are_blanks(left)
}

/// What comes of one piece more.
fn join_by(so_far: Joined, whole: bool) -> Joined
    ensures { result ≡ joined_by so_far whole }
{
    match so_far {
        Joined::Held => { if whole { Joined::Held } else { Joined::Over } }
        Joined::Over => Joined::Over,
        Joined::Bad => Joined::Bad,
    }
}

/// Puts a piece behind those so far.
pub(crate) fn put_piece(so_far: Joined, piece: &[u8], into: &mut Buf) -> Joined
    ensures joins { (pieces : List ℕ) → Joins into.old.cap pieces so_far into.old.bytes → Joins into.old.cap (pieces ++ piece.now) result into.new.bytes }
    ensures cap { into.new.cap ≡ into.old.cap }
{
    if !are_value_bytes(piece) {
        return Joined::Bad;
    }
    let piece = behind(into.bytes(), piece);
    let whole = push_front(piece, into);
    join_by(so_far, whole)
}

/// Joins three pieces over what a buffer holds.
pub(crate) fn join_three(first: &[u8], second: &[u8], third: &[u8], into: &mut Buf) -> Joined
    ensures joins { Joins into.old.cap (first.now ++ (second.now ++ third.now)) result into.new.bytes }
    ensures cap { into.new.cap ≡ into.old.cap }
{
    into.clear();
    let front = put_piece(Joined::Held, first, into);
    let both = put_piece(front, second, into);
    put_piece(both, third, into)
}

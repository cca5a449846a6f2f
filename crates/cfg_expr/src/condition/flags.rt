//! The flags of a test.
ghost use Rattle.std.specs.Prelude.{◌≡◌, false};
ghost use Rattle.cfg_expr.specs.Faults.{Gives};
ghost use Rattle.cfg_expr.specs.Condition.Flags.{match_of, flag_of, flags_from};

use crate::condition::WordsLeft;
use crate::{TextFault, TextKind, is_word};
use acl_eval::Match;

/// The flags so far: `NO_FLAGS` in front of the first.
#[derive(Clone, Copy)]
pub(crate) struct Flags {
    /// `-i`: case is ignored.
    pub(crate) icase: bool,
    /// The match of the last `-m`.
    pub(crate) how: Option<Match>,
}

/// No flag so far.
pub(crate) const NO_FLAGS: Flags = Flags {
    icase: false,
    how: None,
};

/// What a word says where a flag may stand.
#[derive(Clone, Copy)]
enum Flag {
    IgnoreCase,
    Match,
    End,
    Unknown,
    Value,
}

/// A match by its name.
#[tactic(auto, unfolding(crate::specs::Condition::Flags::match_of))]
fn match_of(word: &[u8]) -> Option<Match>
    ensures { result ≡ match_of word.now }
{
    if is_word(word, b"found") {
        Some(Match::Found)
    } else if is_word(word, b"bool") {
        Some(Match::Bool)
    } else if is_word(word, b"int") {
        Some(Match::Int)
    } else if is_word(word, b"len") {
        Some(Match::Len)
    } else if is_word(word, b"str") {
        Some(Match::Str)
    } else if is_word(word, b"beg") {
        Some(Match::Beg)
    } else if is_word(word, b"end") {
        Some(Match::End)
    } else if is_word(word, b"sub") {
        Some(Match::Sub)
    } else if is_word(word, b"reg") {
        Some(Match::Reg)
    } else {
        None
    }
}

#[tactic(auto, unfolding(crate::specs::Condition::Flags::flag_of))]
fn flag_of(word: &[u8]) -> Flag
    ensures { result ≡ flag_of word.now }
{
    if is_word(word, b"-i") {
        Flag::IgnoreCase
    } else if is_word(word, b"-m") {
        Flag::Match
    } else if is_word(word, b"--") {
        Flag::End
    } else if word.first() == Some(&b'-') {
        Flag::Unknown
    } else {
        Flag::Value
    }
}

/// The flags in front of the values, behind those so far, and the values.
pub(crate) fn read_flags<'w>(
    so_far: Flags,
    words: WordsLeft<'w>,
) -> Result<(Flags, WordsLeft<'w>), TextFault>
    ensures { Gives (λ found. (found.0, found.1)) result (flags_from false so_far words.entry) }
{
    let values = words.again();
    let mut left = words;
    let Some(word) = left.next() else {
        return Ok((so_far, values));
    };
    match flag_of(word) {
        Flag::IgnoreCase => read_flags(
            Flags {
                icase: true,
                how: so_far.how,
            },
            left,
        ),
        Flag::Match => {
            let Some(name) = left.next() else {
                return Err(TextFault::Refused(TextKind::Acl));
            };
            let Some(how) = match_of(name) else {
                return Err(TextFault::Refused(TextKind::Acl));
            };
            read_flags(
                Flags {
                    icase: so_far.icase,
                    how: Some(how),
                },
                left,
            )
        }
        Flag::End => Ok((so_far, left)),
        Flag::Unknown => Err(TextFault::Refused(TextKind::Acl)),
        Flag::Value => Ok((so_far, values)),
    }
}

//! The words of a line that are still to be read.
ghost use Rattle.std.specs.Prelude.{◌≡◌, ◌≤◌, ◌<◌, ◌+◌, ◌∷◌, [], Some, take, drop, length, slice_get, MatchOption};
ghost use Rattle.cfg_expr.specs.Faults.{Gives};
ghost use Rattle.cfg_expr.specs.Condition.Words.{is_close, up_to_close, word_or};

use crate::{TextFault, TextKind, is_word};
use cfg_lex::Words;
use std::marker::Model;

/// Words of a line that are still to be read, up to its end or to some word. Contracts see the list of them.
pub struct WordsLeft<'a> {
    words: &'a Words,
    at: u32,
    end: u32,
}

impl Drop for WordsLeft<'_> {
    fn drop(self) {
        let WordsLeft {
            words: _,
            at: _,
            end: _,
        } = self;
    }
}

impl<'a> Model for WordsLeft<'a> {
    ghost use Rattle.std.specs.Prelude.{List, ℕ, ◌≤◌, drop, take, length};

    ghost Value = { List (List ℕ) };

    ghost view = { λ left. drop left.at (take left.end left.words.now) };

    ghost invariant = { λ left. (left.at ≤ left.end) × (left.end ≤ length left.words.now) × (left.end ≤ 64) };
}

impl<'a> WordsLeft<'a> {
    /// The words of a line from one on.
    pub fn from(words: &'a Words, at: u32) -> WordsLeft<'a>
        requires { at ≤ length words.now }
        ensures { result ≡ drop at words.now }
    {
        WordsLeft {
            words,
            at,
            end: words.len(),
        }
    }

    /// The same words once more.
    pub fn again(&self) -> WordsLeft<'a>
        ensures { result ≡ self.now }
    {
        WordsLeft {
            words: self.words,
            at: self.at,
            end: self.end,
        }
    }

    /// How many there are.
    pub fn len(&self) -> u32
        ensures words { result ≡ length self.now }
        ensures few { result ≤ 64 }
    {
        self.end - self.at
    }

    /// The next word, if there is one.
    pub fn next(&mut self) -> Option<&'a [u8]>
        ensures { MatchOption result
            ((self.old ≡ []) × (self.new ≡ []))
            (λ word. self.old ≡ word.now ∷ self.new) }
    {
        if self.at == self.end {
            return None;
        }
        let word = self.words.word(self.at);
        self.at += 1;
        Some(word)
    }

    /// A word by its number, counted from 0.
    fn word(&self, number: u32) -> &'a [u8]
        requires { number < length self.now }
        ensures { slice_get self.now number ≡ Some result.now }
    {
        self.words.word(self.at + number)
    }

    /// The words in front of one, and those behind it.
    fn around(self, number: u32) -> (WordsLeft<'a>, WordsLeft<'a>)
        requires { number < length self }
        ensures front { result.0 ≡ take number self.entry }
        ensures behind { result.1 ≡ drop (number + 1) self.entry }
    {
        let WordsLeft { words, at, end } = self;
        let stop = at + number;
        let front = WordsLeft {
            words,
            at,
            end: stop,
        };
        let behind = WordsLeft {
            words,
            at: stop + 1,
            end,
        };
        (front, behind)
    }

    /// The next word and those behind it; a missing one is refused with a kind.
    pub fn word_or(mut self, kind: TextKind) -> Result<(&'a [u8], WordsLeft<'a>), TextFault>
        ensures { Gives (λ found. (found.0.now, found.1)) result (word_or kind self.entry) }
    {
        match self.next() {
            Some(word) => Ok((word, self)),
            None => Err(TextFault::Refused(kind)),
        }
    }

    /// The words up to the first `}`, and those behind it; where there is no `}`, all words.
    pub fn up_to_close(self) -> (WordsLeft<'a>, Option<WordsLeft<'a>>)
        ensures { up_to_close self.entry ≡ (result.0, result.1) }
    {
        'each: for number in 0..self.len() {
            if is_close(self.word(number)) {
                let (inside, behind) = self.around(number);
                return (inside, Some(behind));
            }
        }
        (self, None)
    }
}

#[tactic(auto, unfolding(crate::specs::Condition::Words::is_close))]
fn is_close(word: &[u8]) -> bool
    ensures { result ≡ is_close word.now }
{
    is_word(word, b"}")
}

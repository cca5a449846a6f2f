//! The words of a line that are still to be read: the next one, one that has to be there, or none. Nothing here knows what a word means.
ghost use Rattle.std.specs.Prelude.{◌≡◌, ◌∷◌, [], MatchOption};
ghost use Rattle.cfg_parse.specs.Reading.{Gives, argument, no_more};

use crate::fault::{CfgKind, LineRefusal};
use cfg_expr::condition::WordsLeft;
use cfg_lex::Words;
use std::marker::Model;

/// The words of a line that are still to be read. Contracts see the list of them.
pub struct Arguments<'a> {
    words: &'a Words,
    at: u32,
}

impl Drop for Arguments<'_> {
    fn drop(self) {
        let Arguments { words: _, at: _ } = self;
    }
}

impl<'a> Model for Arguments<'a> {
    ghost use Rattle.std.specs.Prelude.{List, ℕ, drop, length, ◌≤◌};

    ghost Value = { List (List ℕ) };

    ghost view = { λ arguments. drop arguments.at arguments.words.now };

    ghost invariant = { λ arguments. arguments.at ≤ length arguments.words.now };
}

impl<'a> Arguments<'a> {
    /// All words of a line.
    pub fn of(words: &'a Words) -> Arguments<'a>
        ensures { result ≡ words.now }
    {
        Arguments { words, at: 0 }
    }

    /// The same words for the readers of rules.
    pub fn left(self) -> WordsLeft<'a>
        ensures { result ≡ self.entry }
    {
        WordsLeft::from(self.words, self.at)
    }

    /// The next word, if there is one.
    pub fn next(&mut self) -> Option<&'a [u8]>
        ensures { MatchOption result
            ((self.old ≡ []) × (self.new ≡ []))
            (λ word. self.old ≡ word.now ∷ self.new) }
    {
        if self.at == self.words.len() {
            return None;
        }
        let word = self.words.word(self.at);
        self.at += 1;
        Some(word)
    }

    /// The next word, and the words behind it. A missing one is refused.
    pub fn argument(mut self) -> Result<(&'a [u8], Arguments<'a>), LineRefusal>
        ensures { Gives (λ taken. (taken.0.now, taken.1)) result (argument self.entry) }
    {
        match self.next() {
            Some(word) => Ok((word, self)),
            None => Err(LineRefusal::Refused(CfgKind::Argument)),
        }
    }

    /// Nothing may follow.
    pub fn no_more(mut self) -> Result<(), LineRefusal>
        ensures { Gives (λ nothing. nothing) result (no_more self.entry) }
    {
        match self.next() {
            Some(_) => Err(LineRefusal::Refused(CfgKind::Argument)),
            None => Ok(()),
        }
    }
}

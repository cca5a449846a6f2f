//! The words of a line, in one run of bytes.
ghost use Rattle.std.specs.Prelude.{◌≡◌, ◌<◌, ◌≤◌, length, slice_get, Some, ◌↔◌, IsTrue, []};
ghost use Rattle.cfg_lex.specs.Spans.{spans_bytes, AreWithin};
ghost use Rattle.cfg_lex.specs.Words.{most_words};

use std::marker::Model;

/// Where the bytes of a word stand.
#[derive(Clone, Copy)]
pub struct Span {
    pub from: usize,
    pub len: usize,
}

/// The words of a line, at most 64. Contracts see the list of them, each the list of its bytes.
pub struct Words {
    bytes: Vec<u8>,
    spans: Vec<Span>,
}

impl Drop for Words {
    fn drop(self) {
        let Words { bytes: _, spans: _ } = self;
    }
}

impl Model for Words {
    ghost use Rattle.std.specs.Prelude.{List, ℕ, ◌≤◌, length};
    ghost use Rattle.cfg_lex.specs.Spans.{spans_bytes, AreWithin};
    ghost use Rattle.cfg_lex.specs.Words.{most_words};

    ghost Value = { List (List ℕ) };

    ghost view = { λ words. spans_bytes words.bytes.items words.spans.items };

    ghost invariant = { λ words. (length words.spans.items ≤ most_words) × AreWithin words.bytes.items words.spans.items };
}

impl Words {
    pub(crate) fn from_spans(bytes: Vec<u8>, spans: Vec<Span>) -> Words
        requires few { length spans.items ≤ most_words }
        requires within { AreWithin bytes.items spans.items }
        ensures { result ≡ spans_bytes bytes.items spans.items }
    {
        Words { bytes, spans }
    }

    /// How many words the line has.
    pub fn len(&self) -> u32
        ensures words { result ≡ length self.now }
        ensures few { result ≤ most_words }
    {
        self.spans.len() as u32
    }

    /// The line has no word.
    pub fn is_empty(&self) -> bool
        ensures { IsTrue result ↔ (self.now ≡ []) }
    {
        self.spans.is_empty()
    }

    /// A word by its number, counted from 0.
    pub fn word(&self, at: u32) -> &[u8]
        requires { at < length self.now }
        ensures { slice_get self.now at ≡ Some result.now }
    {
        let span = self.spans[at as usize];
        &self.bytes[span.from..span.from + span.len]
    }
}

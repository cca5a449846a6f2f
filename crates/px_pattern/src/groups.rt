//! The groups of a match, each of which lies in the text.
ghost use Rattle.std.specs.Prelude.{◌≡◌, ℕ, ◌+◌, ◌≤◌, length, option_map, IfOk, IfSome};
ghost use Rattle.regex.specs.Bytes.{captures_span, captures_haystack};
ghost use Rattle.px_pattern.specs.Groups.{span_between, group_at, LiesIn, LieIn};

use crate::Span;
use htx_model::OutOfMemory;
use regex::bytes::Captures;
use std::alloc::Global;
use std::marker::Model;

/// The groups of a match, from group 0, the match, on. They don't borrow the text.
pub struct Groups {
    spans: Vec<Option<Span>>,
}

impl Drop for Groups {
    fn drop(self) {
        let Groups { spans: _ } = self;
    }
}

impl Model for Groups {
    ghost use Rattle.std.specs.Prelude.{List, Option};
    ghost use Rattle.px_pattern.specs.declared.span.Span.{Span};

    ghost Value = { List (Option Span) };

    ghost view = { λ groups. groups.spans.items };
}

/// What a group spans.
fn span_in(captures: &Captures<'_, '_>, n: usize) -> Option<Span>
    ensures value { result ≡ option_map span_between (captures_span captures.now n) }
    ensures within { IfSome result (LiesIn (length (captures_haystack captures.now))) }
{
    let found = captures.get(n)?;
    Some(Span {
        from: found.start(),
        len: found.len(),
    })
}

impl Groups {
    /// The groups that a search found.
    pub(crate) fn of(alloc: Global, captures: &Captures<'_, '_>) -> Result<Groups, OutOfMemory>
        ensures spans { IfOk result (λ groups. (n : ℕ) → group_at groups n ≡ option_map span_between (captures_span captures.now n)) }
        ensures within { IfOk result (LieIn (length (captures_haystack captures.now))) }
    {
        let count = captures.len();
        let mut spans = Vec::with_capacity(alloc, count)?;
        for n in 0..count {
            spans.push(span_in(captures, n))?;
        }
        Ok(Groups { spans })
    }

    /// What group `n` spans; 0 is the match. None where there is no such group, or where it took no part.
    pub fn span(&self, n: u32) -> Option<Span>
        ensures { result ≡ group_at self.now n }
    {
        match self.spans.get(n as usize) {
            Some(span) => *span,
            None => None,
        }
    }
}

//! Searches with searchers that are kept from one to the next, and find what new ones would find.
ghost use Rattle.std.specs.Prelude.{◌≡◌, is_some, length, IfOk, IfSome};
ghost use Rattle.regex.specs.Patterns.{find};
ghost use Rattle.px_pattern.specs.Groups.{LieIn};
ghost use Rattle.px_pattern.specs.Meaning.{pattern_of, IsFoundBy};

use crate::{Groups, Pat, Searcher};
use htx_model::OutOfMemory;
use std::alloc::Global;

/// Searches for patterns, each with the searcher that is kept with the pattern, which is made at the first search. So however many search for a pattern,
/// one after another, it has one searcher.
pub struct Searchers {
    alloc: Global,
}

impl Drop for Searchers {
    fn drop(self) {
        let Searchers { alloc: _ } = self;
    }
}

/// The searcher that is kept with a pattern, or a new one.
fn searcher_of(alloc: Global, pat: &Pat) -> Result<Box<Searcher>, OutOfMemory>
    ensures { IfOk result (λ searcher. searcher.value ≡ pat.now) }
{
    if let Some(searcher) = pat.lend_searcher() {
        if searcher.is_for(pat) {
            return Ok(searcher);
        }
    }
    let searcher = pat.searcher(alloc)?;
    Ok(Box::new(alloc, searcher)?)
}

impl Searchers {
    /// What searches take of memory is this allocator's.
    pub fn new(alloc: Global) -> Searchers {
        Searchers { alloc }
    }

    /// As `Pat::find_groups`.
    pub fn find_groups(&mut self, pat: &Pat, text: &[u8]) -> Result<Option<Groups>, OutOfMemory>
        ensures found { IfOk result (IsFoundBy (pattern_of pat.now) text.now) }
        ensures within { IfOk result (λ found. IfSome found (LieIn (length text.now))) }
    {
        let mut searcher = searcher_of(self.alloc, pat)?;
        let found = searcher.find_groups(self.alloc, text);
        pat.keep_searcher(searcher);
        found
    }

    /// Whether the pattern matches somewhere in the text.
    pub fn is_match(&mut self, pat: &Pat, text: &[u8]) -> Result<bool, OutOfMemory>
        ensures found { IfOk result (λ found. found ≡ is_some (find (pattern_of pat.now) text.now 0)) }
    {
        let mut searcher = searcher_of(self.alloc, pat)?;
        let found = searcher.is_match(text);
        pat.keep_searcher(searcher);
        Ok(found)
    }
}

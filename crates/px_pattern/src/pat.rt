//! Patterns and what searches for them: they find what the pattern's own text means.
ghost use Rattle.std.specs.Prelude.{◌≡◌, ◌↔◌, is_some, length, IfOk, IfSome, IsTrue};
ghost use Rattle.regex.specs.Patterns.{find};
ghost use Rattle.regex.specs.Bytes.{regex_source, regex_config, matcher_pattern, IsReadFromSource};
ghost use Rattle.px_pattern.specs.Groups.{LieIn};
ghost use Rattle.px_pattern.specs.Meaning.{options, pattern_of, IsPattern, IsFoundBy};

use crate::Groups;
use htx_model::OutOfMemory;
use regex::bytes::{Matcher, Regex};
use std::alloc::Global;
use std::cell::Cell;
use std::marker::Model;

/// A pattern that was built. It does not change, and may be shared. Contracts see its text and whether it ignores case. What was
/// built lives as long as the program, so that what searches for it names no lifetime. A searcher for it is kept with it, for all
/// that share it: it changes what a search costs, and nothing else.
pub struct Pat {
    regex: &'static Regex,
    icase: bool,
    kept: &'static Cell<Option<Box<Searcher>>>,
}

impl Drop for Pat {
    fn drop(self) {
        let Pat {
            regex: _,
            icase: _,
            kept: _,
        } = self;
    }
}

impl Model for Pat {
    ghost use Rattle.px_pattern.specs.Pattern.{Pattern};

    ghost Value = { Pattern };

    ghost use Rattle.px_pattern.specs.Building.{pattern_in, IsBuilt};

    ghost view = { pattern_in };

    ghost invariant = { IsBuilt };
}

/// What searches for a pattern, text after text. To make one costs more than a search does.
pub struct Searcher {
    regex: &'static Regex,
    icase: bool,
    matcher: Matcher<'static>,
}

impl Drop for Searcher {
    fn drop(self) {
        let Searcher {
            regex: _,
            icase: _,
            matcher: _,
        } = self;
    }
}

impl Model for Searcher {
    ghost use Rattle.px_pattern.specs.Pattern.{Pattern};

    ghost Value = { Pattern };

    ghost use Rattle.px_pattern.specs.Seeking.{sought_in, Seeks};

    ghost view = { sought_in };

    ghost invariant = { Seeks };
}

impl Pat {
    pub(crate) fn new(alloc: Global, regex: Regex, icase: bool) -> Result<Pat, OutOfMemory>
        requires config { regex_config regex ≡ options icase }
        requires source { IsReadFromSource regex }
        ensures value { IfOk result (λ pat. pat ≡ record { text = regex_source regex; icase = icase }) }
        ensures read { IfOk result IsPattern }
    {
        let regex = Box::leak(Box::new(alloc, regex)?);
        let kept = Box::leak(Box::new(alloc, Cell::new(None))?);
        Ok(Pat { regex, icase, kept })
    }

    /// The same pattern again, which is not built anew.
    pub fn share(&self) -> Pat
        ensures { result ≡ self.now }
    {
        Pat {
            regex: self.regex,
            icase: self.icase,
            kept: self.kept,
        }
    }

    /// Its text.
    pub fn text(&self) -> &[u8]
        ensures { result.now ≡ self.now.text }
    {
        self.regex.as_str().as_bytes()
    }

    /// Whether it ignores case.
    pub fn ignores_case(&self) -> bool
        ensures { result ≡ self.now.icase }
    {
        self.icase
    }

    /// Takes the searcher that is kept with it: none before the first search, and while one is made with it.
    pub(crate) fn lend_searcher(&self) -> Option<Box<Searcher>> {
        self.kept.take()
    }

    /// Keeps a searcher for the next search.
    pub(crate) fn keep_searcher(&self, searcher: Box<Searcher>) {
        self.kept.set(Some(searcher));
    }

    /// What searches for the pattern in several texts.
    pub fn searcher(&self, alloc: Global) -> Result<Searcher, OutOfMemory>
        ensures { IfOk result (λ searcher. searcher ≡ self.now) }
    {
        let matcher = self.regex.matcher(alloc)?;
        Ok(Searcher {
            regex: self.regex,
            icase: self.icase,
            matcher,
        })
    }

    /// The leftmost match in one text, with its groups; of several alternatives the first counts.
    pub fn find_groups(&self, alloc: Global, text: &[u8]) -> Result<Option<Groups>, OutOfMemory>
        ensures found { IfOk result (IsFoundBy (pattern_of self.now) text.now) }
        ensures within { IfOk result (λ found. IfSome found (LieIn (length text.now))) }
    {
        self.searcher(alloc)?.find_groups(alloc, text)
    }
}

impl Searcher {
    /// Whether it searches for this pattern, or for one with the same text and case.
    pub fn is_for(&self, pat: &Pat) -> bool
        ensures { IsTrue result ↔ (self.now ≡ pat.now) }
    {
        self.icase == pat.icase && self.regex.as_str().as_bytes() == pat.text()
    }

    /// Whether the pattern matches somewhere in the text. It takes no memory that can be refused.
    pub fn is_match(&mut self, text: &[u8]) -> bool
        ensures found { result ≡ is_some (find (pattern_of self.old) text.now 0) }
        ensures same { self.new ≡ self.old }
    {
        self.matcher.is_match(text)
    }

    /// As `Pat::find_groups`.
    pub fn find_groups(&mut self, alloc: Global, text: &[u8]) -> Result<Option<Groups>, OutOfMemory>
        ensures found { IfOk result (IsFoundBy (pattern_of self.old) text.now) }
        ensures within { IfOk result (λ found. IfSome found (LieIn (length text.now))) }
        ensures same { self.new ≡ self.old }
    {
        groups_by(alloc, &mut self.matcher, text)
    }
}

/// The groups of the leftmost match, by what the matcher looks for.
fn groups_by(
    alloc: Global,
    matcher: &mut Matcher<'_>,
    text: &[u8],
) -> Result<Option<Groups>, OutOfMemory>
    ensures found { IfOk result (IsFoundBy (matcher_pattern matcher.old) text.now) }
    ensures within { IfOk result (λ found. IfSome found (LieIn (length text.now))) }
    ensures same { matcher_pattern matcher.new ≡ matcher_pattern matcher.old }
{
    match matcher.captures(text) {
        Some(captures) => Ok(Some(Groups::of(alloc, &captures)?)),
        None => Ok(None),
    }
}

//! The `acl` lines of a canonical text: the tests of each term, once, and the name by which rules use them.
ghost use Rattle.std.specs.Prelude.{◌≡◌, ◌+◌, ◌++◌, ◌∷◌, [], ◌≤◌, fold, length, position, unwrap_or, min, IfOk, OnOk};
ghost use Rattle.std.specs.List.{flat_map, position_or_len};
ghost use Rattle.cfg_expr.specs.Condition.Lines.{most_lines};
ghost use Rattle.cfg_print.specs.Words.{spaced};
ghost use Rattle.cfg_print.specs.Table.{terms_of, terms_in, test_text, key_of, is_key, is_among, name_at, acl_line, acl_lines, tabled, with_term};

use crate::conditions::put_test;
use crate::numbers::put_decimal;
use crate::page::Page;
use crate::words::{put, put_spaced};
use acl_eval::{Cond, Term, TermList, Test};
use http_rules::Rule;
use px_link::{Bytes, ItemList, OutOfMemory};
use std::alloc::Global;

/// The most `acl` lines of a configuration.
pub(crate) const MAX_LINES: u32 = 1024;

/// What stands in the table so far.
#[derive(Drop)]
pub(crate) struct Table {
    /// What tells the tests of each name apart.
    pub keys: ItemList<Bytes>,
    /// How many lines there are; 1025 where there are more.
    pub lines: u32,
}

/// Puts the words of a test behind a text, as a line.
fn put_test_text(page: &mut Page, test: &Test) -> Result<(), OutOfMemory>
    ensures { OnOk result (page.new.text.items ≡ page.old.text.items ++ test_text test.now) }
{
    put_test(page, test)?;
    page.put(b"\n")
}

/// Puts the lines of tests behind a text.
fn put_test_texts(page: &mut Page, tests: &[Test]) -> Result<(), OutOfMemory>
    ensures { OnOk result (page.new.text.items ≡ page.old.text.items ++ flat_map test_text tests.now) }
{
    for test in tests {
        put_test_text(page, test)?;
    }
    Ok(())
}

/// What tells the tests of a term apart from others.
#[tactic(auto, unfolding(crate::specs::Table::key_of))]
pub(crate) fn key_of(alloc: Global, term: &Term) -> Result<Vec<u8>, OutOfMemory>
    ensures { IfOk result (λ key. key.items ≡ key_of term.now) }
{
    let mut page = Page::new(alloc);
    put_test_texts(&mut page, term.tests.as_slice())?;
    Ok(page.text)
}

/// A key is this one.
fn is_key(key: &[u8], other: &[u8]) -> bool
    ensures { result ≡ is_key key.now other.now }
{
    other == key
}

/// A key stands in the table.
fn is_among(keys: &ItemList<Bytes>, key: &[u8]) -> bool
    ensures { result ≡ is_among keys.now key.now }
{
    keys.as_slice()
        .iter()
        .any(|other| is_key(key, other.as_slice()))
}

/// Where a key stands; behind all others where it doesn't.
fn place_of(keys: &[Bytes], key: &[u8]) -> usize
    ensures place { result ≡ position_or_len (is_key key.now) keys.now }
    ensures within { result ≤ length keys.now }
{
    for (at, other) in keys.iter().enumerate() {
        if is_key(key, other.as_slice()) {
            return at;
        }
    }
    keys.len()
}

/// The number of a key, counted from 1.
#[tactic(auto, using(crate::proofs::TableLemmas::place_is))]
pub(crate) fn number_of(keys: &ItemList<Bytes>, key: &[u8]) -> u64
    ensures { result ≡ unwrap_or (position (is_key key.now) keys.now) (length keys.now) + 1 }
{
    let place = place_of(keys.as_slice(), key) as u64;
    let count = u64::from(keys.len());
    if place >= count {
        return count + 1;
    }
    place + 1
}

/// Puts a name behind a text.
pub(crate) fn put_name(out: &mut Vec<u8>, number: u64) -> Result<(), OutOfMemory>
    ensures { OnOk result (out.new.items ≡ out.old.items ++ name_at number) }
{
    put(out, b"c")?;
    put_decimal(out, number)
}

/// Puts a name behind the words of its line.
fn put_name_word(page: &mut Page, number: u64) -> Result<(), OutOfMemory>
    ensures { OnOk result (page.new.text.items ≡ page.old.text.items ++ spaced (name_at number)) }
{
    page.word.clear();
    put_name(&mut page.word, number)?;
    put_spaced(&mut page.text, &page.word)
}

/// Puts the line of a test behind a text.
fn put_acl_line(page: &mut Page, number: u64, test: &Test) -> Result<(), OutOfMemory>
    ensures { OnOk result (page.new.text.items ≡ page.old.text.items ++ acl_line (name_at number) test.now) }
{
    page.put(b"   ")?;
    page.put_word(b"acl")?;
    put_name_word(page, number)?;
    put_test(page, test)?;
    page.put(b"\n")
}

/// Puts the lines of tests of one name behind a text.
fn put_acl_lines(page: &mut Page, number: u64, tests: &[Test]) -> Result<(), OutOfMemory>
    ensures { OnOk result (page.new.text.items ≡ page.old.text.items ++ flat_map (acl_line (name_at number)) tests.now) }
{
    for test in tests {
        put_acl_line(page, number, test)?;
    }
    Ok(())
}

/// So many lines more.
fn more_lines(lines: u32, more: u32) -> u32
    ensures { result ≡ min (lines + more) (most_lines + 1) }
{
    (u64::from(lines) + u64::from(more)).min(u64::from(MAX_LINES) + 1) as u32
}

/// Puts the tests of a term that isn't in the table into it, and their lines behind a text.
fn add_new(page: &mut Page, table: &mut Table, key: Vec<u8>, term: &Term) -> Result<(), OutOfMemory>
    ensures text { OnOk result (page.new.text.items ≡ page.old.text.items ++ acl_lines (name_at (length table.old.keys + 1)) term.now) }
    ensures keys { OnOk result (table.new.keys ≡ table.old.keys ++ key.items ∷ []) }
    ensures lines { OnOk result (table.new.lines ≡ min (table.old.lines + length term.now.tests) (most_lines + 1)) }
{
    if table.keys.len() == u32::MAX {
        return Err(OutOfMemory);
    }
    let number = u64::from(table.keys.len()) + 1;
    put_acl_lines(page, number, term.tests.as_slice())?;
    table.keys.push(Bytes::from(key))?;
    table.lines = more_lines(table.lines, term.tests.len());
    Ok(())
}

/// One more term, each once.
fn add_term(
    alloc: Global,
    page: &mut Page,
    table: &mut Table,
    term: &Term,
) -> Result<(), OutOfMemory>
    ensures { OnOk result (tabled page.new.text.items table.new.keys table.new.lines ≡ with_term (tabled page.old.text.items table.old.keys table.old.lines) term.now) }
{
    let key = key_of(alloc, term)?;
    if is_among(&table.keys, &key) {
        return Ok(());
    }
    add_new(page, table, key, term)
}

/// Terms, in their order.
fn add_terms(
    alloc: Global,
    page: &mut Page,
    table: &mut Table,
    terms: &[Term],
) -> Result<(), OutOfMemory>
    ensures { OnOk result (tabled page.new.text.items table.new.keys table.new.lines ≡ fold with_term (tabled page.old.text.items table.old.keys table.old.lines) terms.now) }
{
    for term in terms {
        add_term(alloc, page, table, term)?;
    }
    Ok(())
}

/// The terms of groups.
fn add_groups(
    alloc: Global,
    page: &mut Page,
    table: &mut Table,
    groups: &[TermList],
) -> Result<(), OutOfMemory>
    ensures { OnOk result (tabled page.new.text.items table.new.keys table.new.lines ≡ fold with_term (tabled page.old.text.items table.old.keys table.old.lines) (flat_map (λ group. group) groups.now)) }
{
    for group in groups {
        add_terms(alloc, page, table, group.as_slice())?;
    }
    Ok(())
}

/// The terms of a condition, where there is one.
fn add_cond(
    alloc: Global,
    page: &mut Page,
    table: &mut Table,
    cond: &Option<Cond>,
) -> Result<(), OutOfMemory>
    ensures { OnOk result (tabled page.new.text.items table.new.keys table.new.lines ≡ fold with_term (tabled page.old.text.items table.old.keys table.old.lines) (terms_of cond.now)) }
{
    match cond {
        None => Ok(()),
        Some(cond) => add_groups(alloc, page, table, cond.groups.as_slice()),
    }
}

/// The terms of rules.
pub(crate) fn add_rules(
    alloc: Global,
    page: &mut Page,
    table: &mut Table,
    rules: &[Rule],
) -> Result<(), OutOfMemory>
    ensures { OnOk result (tabled page.new.text.items table.new.keys table.new.lines ≡ fold with_term (tabled page.old.text.items table.old.keys table.old.lines) (terms_in rules.now)) }
{
    for rule in rules {
        add_cond(alloc, page, table, &rule.cond)?;
    }
    Ok(())
}

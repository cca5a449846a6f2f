//! The lines of rules: their actions, and their conditions by the names of the table.
ghost use Rattle.std.specs.Prelude.{◌≡◌, ◌++◌, OnOk};
ghost use Rattle.std.specs.List.{flat_map};
ghost use Rattle.cfg_print.specs.Words.{spaced, words_text};
ghost use Rattle.cfg_print.specs.Table.{name_at};
ghost use Rattle.cfg_print.specs.Rules.{mark, term_word, group_words, joined_words, groups_words, sense, end_words, rule_line, rules_text};

use crate::actions::put_action;
use crate::page::Page;
use crate::table::{key_of, number_of, put_name};
use crate::words::{put, put_spaced};
use acl_eval::{Cond, Term, TermList};
use http_rules::Rule;
use px_link::{Bytes, ItemList, OutOfMemory};
use std::alloc::Global;

/// Puts `!` behind a text, where a term is negated.
fn put_mark(out: &mut Vec<u8>, not: bool) -> Result<(), OutOfMemory>
    ensures { OnOk result (out.new.items ≡ out.old.items ++ mark not) }
{
    if not {
        return put(out, b"!");
    }
    Ok(())
}

/// Puts a name behind the words of its line, negated or not.
fn put_marked(page: &mut Page, not: bool, number: u64) -> Result<(), OutOfMemory>
    ensures { OnOk result (page.new.text.items ≡ page.old.text.items ++ spaced (mark not ++ name_at number)) }
{
    page.word.clear();
    put_mark(&mut page.word, not)?;
    put_name(&mut page.word, number)?;
    put_spaced(&mut page.text, &page.word)
}

/// Puts the name of a term's tests behind the words of its line.
#[tactic(auto, unfolding(crate::specs::Table::name_for))]
fn put_term(
    alloc: Global,
    page: &mut Page,
    keys: &ItemList<Bytes>,
    term: &Term,
) -> Result<(), OutOfMemory>
    ensures { OnOk result (page.new.text.items ≡ page.old.text.items ++ spaced (term_word keys.now term.now)) }
{
    let key = key_of(alloc, term)?;
    put_marked(page, term.not, number_of(keys, &key))
}

/// Puts the names of terms that are joined by and.
fn put_group(
    alloc: Global,
    page: &mut Page,
    keys: &ItemList<Bytes>,
    terms: &[Term],
) -> Result<(), OutOfMemory>
    ensures { OnOk result (page.new.text.items ≡ page.old.text.items ++ words_text (group_words keys.now terms.now)) }
{
    for term in terms {
        put_term(alloc, page, keys, term)?;
    }
    Ok(())
}

/// Puts `||` and the names of terms.
fn put_joined(
    alloc: Global,
    page: &mut Page,
    keys: &ItemList<Bytes>,
    terms: &[Term],
) -> Result<(), OutOfMemory>
    ensures { OnOk result (page.new.text.items ≡ page.old.text.items ++ words_text (joined_words keys.now terms.now)) }
{
    page.put_word(b"||")?;
    put_group(alloc, page, keys, terms)
}

/// Puts groups behind the first.
fn put_other_groups(
    alloc: Global,
    page: &mut Page,
    keys: &ItemList<Bytes>,
    groups: &[TermList],
) -> Result<(), OutOfMemory>
    ensures { OnOk result (page.new.text.items ≡ page.old.text.items ++ words_text (flat_map (joined_words keys.now) groups.now)) }
{
    for group in groups {
        put_joined(alloc, page, keys, group.as_slice())?;
    }
    Ok(())
}

/// Puts groups that are joined by or.
#[tactic(auto, unfolding(crate::specs::Rules::groups_words))]
fn put_groups(
    alloc: Global,
    page: &mut Page,
    keys: &ItemList<Bytes>,
    groups: &[TermList],
) -> Result<(), OutOfMemory>
    ensures { OnOk result (page.new.text.items ≡ page.old.text.items ++ words_text (groups_words keys.now groups.now)) }
{
    match groups {
        [] => Ok(()),
        [first, others @ ..] => {
            put_group(alloc, page, keys, first.as_slice())?;
            put_other_groups(alloc, page, keys, others)
        }
    }
}

/// The word in front of a condition.
fn sense(unless: bool) -> &'static [u8]
    ensures { result.now ≡ sense unless }
{
    if unless { b"unless" } else { b"if" }
}

/// Puts what ends a rule.
#[tactic(auto, unfolding(crate::specs::Rules::end_words))]
pub(crate) fn put_end(
    alloc: Global,
    page: &mut Page,
    keys: &ItemList<Bytes>,
    cond: &Option<Cond>,
) -> Result<(), OutOfMemory>
    ensures { OnOk result (page.new.text.items ≡ page.old.text.items ++ words_text (end_words keys.now cond.now)) }
{
    match cond {
        None => Ok(()),
        Some(cond) => {
            page.put_word(sense(cond.unless))?;
            put_groups(alloc, page, keys, cond.groups.as_slice())
        }
    }
}

/// Puts the line of a rule behind a text.
#[tactic(auto, unfolding(crate::specs::Rules::rule_line))]
fn put_rule(
    alloc: Global,
    page: &mut Page,
    keys: &ItemList<Bytes>,
    list: &[u8],
    rule: &Rule,
) -> Result<(), OutOfMemory>
    ensures { OnOk result (page.new.text.items ≡ page.old.text.items ++ rule_line keys.now list.now rule.now) }
{
    page.put(b"   ")?;
    page.put_word(list)?;
    put_action(page, &rule.action)?;
    put_end(alloc, page, keys, &rule.cond)?;
    page.put(b"\n")
}

/// Puts the lines of rules behind a text.
pub(crate) fn put_rules(
    alloc: Global,
    page: &mut Page,
    keys: &ItemList<Bytes>,
    list: &[u8],
    rules: &[Rule],
) -> Result<(), OutOfMemory>
    ensures { OnOk result (page.new.text.items ≡ page.old.text.items ++ rules_text keys.now list.now rules.now) }
{
    for rule in rules {
        put_rule(alloc, page, keys, list, rule)?;
    }
    Ok(())
}

//! The rules of pairs that an application is told: which they are, and their lines.
ghost use Rattle.std.specs.Prelude.{◌≡◌, ◌++◌, ◌≤◌, OnOk, length, map, take, drop};
ghost use Rattle.std.specs.Char.{to_ascii_lowercase};
ghost use Rattle.std.specs.List.{list_all, list_any};
ghost use Rattle.std.specs.Str.{bytes_eq};
ghost use Rattle.cfg_print.specs.Words.{words_text};
ghost use Rattle.cfg_print.specs.Pairs as spec;

use crate::page::Page;
use crate::rules::put_end;
use http_rules::{Action, DelBy, Rule};
use px_link::{Application, Bytes, ItemList, OutOfMemory};
use std::alloc::Global;

/// The names of the pairs that a server is told.
pub(crate) fn pair_names(application: &Option<Application>) -> &[Bytes]
    ensures { result.now ≡ spec.pair_names application.now }
{
    match application {
        None => &[],
        Some(app) => app.params.as_slice(),
    }
}

/// A text is another in lower case.
#[tactic(auto, using(crate::proofs::PairLemmas::uneven))]
fn is_lower_of(text: &[u8], name: &[u8]) -> bool
    ensures { result ≡ bytes_eq text.now (map to_ascii_lowercase name.now) }
{
    if text.len() != name.len() {
        return false;
    }
    for (at, byte) in name.iter().enumerate() {
        if text[at] != byte.to_ascii_lowercase() {
            return false;
        }
    }
    true
}

/// A field is that of a pair.
fn is_field_of(field: &[u8], name: &[u8]) -> bool
    ensures { result ≡ spec.is_field_of field.now name.now }
{
    match field {
        [] => false,
        [first, others @ ..] => *first == b'_' && is_lower_of(others, name),
    }
}

fn removes_field(name: &[u8], by: &DelBy) -> bool
    ensures { result ≡ spec.removes_field name.now by.now }
{
    match by {
        DelBy::Str(field) => is_field_of(field.as_slice(), name),
        _ => false,
    }
}

fn removes(name: &[u8], action: &Action) -> bool
    ensures { result ≡ spec.removes name.now action.now }
{
    match action {
        Action::DelHeader(by) => removes_field(name, by),
        _ => false,
    }
}

/// A rule takes away the field of a pair.
#[tactic(auto, unfolding(crate::specs::Pairs::is_removal))]
fn is_removal(name: &[u8], rule: &Rule) -> bool
    ensures { result ≡ spec.is_removal name.now rule.now }
{
    rule.cond.is_none() && removes(name, &rule.action)
}

/// A field is that of one of the pairs.
fn is_field_of_one(names: &[Bytes], field: &[u8]) -> bool
    ensures { result ≡ list_any (spec.is_field_of field.now) names.now }
{
    for name in names {
        if is_field_of(field, name.as_slice()) {
            return true;
        }
    }
    false
}

/// An action sets the field of one of the pairs.
#[tactic(auto, unfolding(crate::specs::Pairs::sets_one))]
fn sets_one(names: &[Bytes], action: &Action) -> bool
    ensures { result ≡ spec.sets_one names.now action.now }
{
    match action {
        Action::SetHeader(field, _) => is_field_of_one(names, field.as_slice()),
        _ => false,
    }
}

/// Rules set fields of pairs.
fn are_sets(names: &[Bytes], rules: &[Rule]) -> bool
    ensures { result ≡ list_all (spec.is_set names.now) rules.now }
{
    for rule in rules {
        if !sets_one(names, &rule.action) {
            return false;
        }
    }
    true
}

/// Rules are those of pairs, of which there are some.
#[tactic(auto, unfolding(crate::specs::Pairs::are_pairs_of))]
fn are_pairs(names: &[Bytes], rules: &[Rule]) -> bool
    ensures { result ≡ spec.are_pairs names.now rules.now }
{
    if names.is_empty() {
        return false;
    }
    for (at, name) in names.iter().enumerate() {
        if at == rules.len() || !is_removal(name.as_slice(), &rules[at]) {
            return false;
        }
    }
    are_sets(names, &rules[names.len()..])
}

/// What stands behind so many, or nothing.
fn behind(rules: &[Rule], count: usize) -> &[Rule]
    ensures { result.now ≡ drop count rules.now }
{
    if rules.len() < count {
        return &rules[rules.len()..];
    }
    &rules[count..]
}

/// The rules from this one on are those of pairs.
fn are_pairs_at(names: &[Bytes], rules: &[Rule], at: usize) -> bool
    ensures { result ≡ spec.are_pairs names.now (drop at rules.now) }
{
    are_pairs(names, behind(rules, at))
}

/// How many rules stand in front of those of pairs.
#[tactic(auto, unfolding(crate::specs::Pairs::plain_count))]
fn plain_count(names: &[Bytes], rules: &[Rule]) -> usize
    ensures count { result ≡ spec.plain_count names.now rules.now }
    ensures within { result ≤ length rules.now }
{
    for at in 0..rules.len() {
        if are_pairs_at(names, rules, at) {
            return at;
        }
    }
    rules.len()
}

/// The rules that stand in front of those of pairs.
pub(crate) fn plain_rules<'a>(names: &[Bytes], rules: &'a [Rule]) -> &'a [Rule]
    ensures { result.now ≡ take (spec.plain_count names.now rules.now) rules.now }
{
    &rules[..plain_count(names, rules)]
}

/// The rules that tell the values of pairs.
pub(crate) fn value_rules<'a>(names: &[Bytes], rules: &'a [Rule]) -> &'a [Rule]
    ensures { result.now ≡ spec.value_rules names.now rules.now }
{
    behind(behind(rules, plain_count(names, rules)), names.len())
}

/// The first of the names whose field this is.
fn name_in<'a>(names: &'a [Bytes], field: &[u8]) -> &'a [u8]
    ensures { result.now ≡ spec.name_in names.now field.now }
{
    for name in names {
        if is_field_of(field, name.as_slice()) {
            return name.as_slice();
        }
    }
    b""
}

/// Puts the name of a pair and its value.
#[tactic(auto, unfolding(crate::specs::Pairs::value_words))]
fn put_value(page: &mut Page, names: &[Bytes], action: &Action) -> Result<(), OutOfMemory>
    ensures { OnOk result (page.new.text.items ≡ page.old.text.items ++ words_text (spec.value_words names.now action.now)) }
{
    match action {
        Action::SetHeader(field, fmt) => {
            page.put_word(name_in(names, field.as_slice()))?;
            page.put_format(fmt)
        }
        _ => Ok(()),
    }
}

/// Puts the line of a pair behind a text.
#[tactic(auto, unfolding(crate::specs::Pairs::pair_line))]
fn put_pair(
    alloc: Global,
    page: &mut Page,
    keys: &ItemList<Bytes>,
    names: &[Bytes],
    rule: &Rule,
) -> Result<(), OutOfMemory>
    ensures { OnOk result (page.new.text.items ≡ page.old.text.items ++ spec.pair_line keys.now names.now rule.now) }
{
    page.put(b"   ")?;
    page.put_word(b"fcgi-param")?;
    put_value(page, names, &rule.action)?;
    put_end(alloc, page, keys, &rule.cond)?;
    page.put(b"\n")
}

/// Puts the lines of pairs behind a text.
pub(crate) fn put_pairs(
    alloc: Global,
    page: &mut Page,
    keys: &ItemList<Bytes>,
    names: &[Bytes],
    rules: &[Rule],
) -> Result<(), OutOfMemory>
    ensures { OnOk result (page.new.text.items ≡ page.old.text.items ++ spec.pairs_text keys.now names.now rules.now) }
{
    for rule in rules {
        put_pair(alloc, page, keys, names, rule)?;
    }
    Ok(())
}

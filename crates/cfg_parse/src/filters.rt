//! The lines of `filter`: which body is changed, and how.
ghost use Rattle.std.specs.Prelude.{◌≡◌, ◌≤◌, length, IfOk, OnErr};
ghost use Rattle.std.specs.List.{list_any};
ghost use Rattle.body_filter.specs.Valid.{IsFilter};
ghost use Rattle.cfg_parse.specs.Limits.{most_needle};
ghost use Rattle.cfg_parse.specs.Reading.{Gives, Leaves};
ghost use Rattle.http_rules.specs.Valid.{is_replace};
ghost use Rattle.cfg_parse.specs.Filters.{filter_name_of, named_side, count_of, text_of, limit_filter, deny_filter, replace_filter, named_filter, filter_line, with_filter, filter_added, filter_setting};

use crate::arguments::Arguments;
use crate::draft::Draft;
use crate::fault::{CfgKind, LineRefusal};
use crate::limits::{MAX_DIGITS, MAX_FILTERS, MAX_NEEDLE};
use body_filter::FilterSpec;
use cfg_expr::{Side, is_word};
use http_rules::Filters;
use px_bytes::read_decimal;
use px_link::Bytes;
use std::alloc::Global;

#[derive(Clone, Copy)]
enum FilterName {
    Limit,
    Deny,
    Replace,
}

#[tactic(auto, unfolding(crate::specs::Filters::filter_name_of))]
fn filter_name_of(word: &[u8]) -> Result<FilterName, LineRefusal>
    ensures { Gives (λ name. name) result (filter_name_of word.now) }
{
    if is_word(word, b"body-limit") {
        Ok(FilterName::Limit)
    } else if is_word(word, b"body-deny") {
        Ok(FilterName::Deny)
    } else if is_word(word, b"body-replace") {
        Ok(FilterName::Replace)
    } else {
        Err(LineRefusal::Refused(CfgKind::Keyword))
    }
}

#[tactic(auto, unfolding(crate::specs::Filters::named_side))]
fn named_side(word: &[u8]) -> Result<Side, LineRefusal>
    ensures { Gives (λ side. side) result (named_side word.now) }
{
    if is_word(word, b"req") {
        Ok(Side::Request)
    } else if is_word(word, b"res") {
        Ok(Side::Response)
    } else {
        Err(LineRefusal::Refused(CfgKind::Argument))
    }
}

/// A number of bytes.
#[tactic(auto, unfolding(crate::specs::Filters::count_of))]
fn count_of(word: &[u8]) -> Result<u64, LineRefusal>
    ensures { Gives (λ most. most) result (count_of word.now) }
{
    match read_decimal(word, MAX_DIGITS) {
        Some(most) => Ok(most),
        None => Err(LineRefusal::Refused(CfgKind::Argument)),
    }
}

/// A text of at least so many bytes, and at most `MAX_NEEDLE`.
#[tactic(auto, unfolding(crate::specs::Filters::text_of))]
fn text_of(alloc: Global, least: usize, word: &[u8]) -> Result<Bytes, LineRefusal>
    ensures text { Gives (λ text. text) result (text_of least word.now) }
    ensures bounds { IfOk result (λ text. (least ≤ length text) × (length text ≤ most_needle)) }
{
    if word.len() < least || word.len() > MAX_NEEDLE {
        return Err(LineRefusal::Refused(CfgKind::Argument));
    }
    Ok(Bytes::copy(alloc, word)?)
}

/// `n`.
#[tactic(auto, unfolding(crate::specs::Filters::limit_filter))]
fn limit_filter(arguments: Arguments<'_>) -> Result<FilterSpec, LineRefusal>
    ensures filter { Gives (λ filter. filter) result (limit_filter arguments.entry) }
    ensures valid { IfOk result IsFilter }
{
    let (word, arguments) = arguments.argument()?;
    let most = count_of(word)?;
    arguments.no_more()?;
    Ok(FilterSpec::Limit(most))
}

/// `NEEDLE`.
#[tactic(auto, unfolding(crate::specs::Filters::deny_filter))]
fn deny_filter(alloc: Global, arguments: Arguments<'_>) -> Result<FilterSpec, LineRefusal>
    ensures filter { Gives (λ filter. filter) result (deny_filter arguments.entry) }
    ensures valid { IfOk result IsFilter }
{
    let (word, arguments) = arguments.argument()?;
    let needle = text_of(alloc, 1, word)?;
    match arguments.no_more() {
        Ok(()) => Ok(FilterSpec::Deny(needle)),
        Err(refusal) => {
            drop(needle);
            Err(refusal)
        }
    }
}

/// `FROM TO`.
#[tactic(auto, unfolding(crate::specs::Filters::replace_filter))]
fn replace_filter(alloc: Global, arguments: Arguments<'_>) -> Result<FilterSpec, LineRefusal>
    ensures filter { Gives (λ filter. filter) result (replace_filter arguments.entry) }
    ensures valid { IfOk result IsFilter }
{
    let (first, arguments) = arguments.argument()?;
    let from = text_of(alloc, 1, first)?;
    let (second, arguments) = arguments.argument()?;
    let to = text_of(alloc, 0, second)?;
    arguments.no_more()?;
    Ok(FilterSpec::Replace(from, to))
}

/// What stands behind the side.
fn named_filter(
    alloc: Global,
    name: FilterName,
    arguments: Arguments<'_>,
) -> Result<FilterSpec, LineRefusal>
    ensures filter { Gives (λ filter. filter) result (named_filter name arguments.entry) }
    ensures valid { IfOk result IsFilter }
{
    match name {
        FilterName::Limit => limit_filter(arguments),
        FilterName::Deny => deny_filter(alloc, arguments),
        FilterName::Replace => replace_filter(alloc, arguments),
    }
}

/// The words behind `filter`.
#[tactic(auto, unfolding(crate::specs::Filters::filter_line))]
fn filter_line(alloc: Global, arguments: Arguments<'_>) -> Result<(Side, FilterSpec), LineRefusal>
    ensures line { Gives (λ taken. taken) result (filter_line arguments.entry) }
    ensures valid { IfOk result (λ taken. IsFilter taken.1) }
{
    let (first, arguments) = arguments.argument()?;
    let name = filter_name_of(first)?;
    let (second, arguments) = arguments.argument()?;
    let side = named_side(second)?;
    let filter = named_filter(alloc, name, arguments)?;
    Ok((side, filter))
}

fn is_replace(filter: &FilterSpec) -> bool
    ensures { result ≡ is_replace filter.now }
{
    match filter {
        FilterSpec::Limit(_) | FilterSpec::Deny(_) => false,
        FilterSpec::Replace(_, _) => true,
    }
}

fn has_replace(filters: &Filters) -> bool
    ensures { result ≡ list_any is_replace filters.now }
{
    for at in 0..filters.len() {
        if is_replace(filters.get(at)) {
            return true;
        }
    }
    false
}

/// One more filter of a direction.
#[tactic(auto, unfolding(crate::specs::Filters::with_filter))]
fn add_filter(filters: &mut Filters, filter: FilterSpec) -> Result<(), LineRefusal>
    ensures leaves { Leaves result filters.new (with_filter filters.old filter) }
    ensures unchanged { OnErr result (filters.new ≡ filters.old) }
{
    if filters.len() >= MAX_FILTERS || is_replace(&filter) && has_replace(filters) {
        drop(filter);
        return Err(LineRefusal::Refused(CfgKind::Limit));
    }
    filters.push(filter)?;
    Ok(())
}

/// One more filter of this direction.
fn add_directed(draft: &mut Draft, side: Side, filter: FilterSpec) -> Result<(), LineRefusal>
    ensures leaves { Leaves result draft.new (filter_added draft.old side filter) }
    ensures unchanged { OnErr result (draft.new ≡ draft.old) }
{
    match side {
        Side::Request => add_filter(&mut draft.req_filters, filter),
        Side::Response => add_filter(&mut draft.res_filters, filter),
    }
}

/// `filter`.
#[tactic(auto, unfolding(crate::specs::Filters::filter_setting))]
pub fn set_filter(
    alloc: Global,
    draft: &mut Draft,
    arguments: Arguments<'_>,
) -> Result<(), LineRefusal>
    ensures leaves { Leaves result draft.new (filter_setting draft.old arguments.entry) }
    ensures unchanged { OnErr result (draft.new ≡ draft.old) }
{
    let (side, filter) = filter_line(alloc, arguments)?;
    add_directed(draft, side, filter)
}

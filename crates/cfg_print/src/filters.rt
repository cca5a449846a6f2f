//! The lines of filters.
ghost use Rattle.std.specs.Prelude.{◌≡◌, ◌++◌, ◌∷◌, [], codes, OnOk};
ghost use Rattle.std.specs.Fmt.{decimal};
ghost use Rattle.cfg_print.specs.Words.{words_text, line_text};
ghost use Rattle.cfg_print.specs.Printed.{filter_line, filters_text};

use crate::page::Page;
use body_filter::FilterSpec;
use px_link::{Bytes, OutOfMemory};

/// Puts the beginning of a filter's line behind a text.
fn put_filter_name(page: &mut Page, name: &[u8], side: &[u8]) -> Result<(), OutOfMemory>
    ensures { OnOk result (page.new.text.items ≡ page.old.text.items ++ (codes "   " ++ words_text (codes "filter" ∷ name.now ∷ side.now ∷ []))) }
{
    page.put(b"   ")?;
    page.put_word(b"filter")?;
    page.put_word(name)?;
    page.put_word(side)
}

fn put_limit(page: &mut Page, side: &[u8], most: u64) -> Result<(), OutOfMemory>
    ensures { OnOk result (page.new.text.items ≡ page.old.text.items ++ line_text (codes "filter" ∷ codes "body-limit" ∷ side.now ∷ decimal most ∷ [])) }
{
    put_filter_name(page, b"body-limit", side)?;
    page.put_number(most)?;
    page.put(b"\n")
}

fn put_deny(page: &mut Page, side: &[u8], needle: &Bytes) -> Result<(), OutOfMemory>
    ensures { OnOk result (page.new.text.items ≡ page.old.text.items ++ line_text (codes "filter" ∷ codes "body-deny" ∷ side.now ∷ needle.now ∷ [])) }
{
    put_filter_name(page, b"body-deny", side)?;
    page.put_word(needle.as_slice())?;
    page.put(b"\n")
}

fn put_replace(page: &mut Page, side: &[u8], from: &Bytes, to: &Bytes) -> Result<(), OutOfMemory>
    ensures { OnOk result (page.new.text.items ≡ page.old.text.items ++ line_text (codes "filter" ∷ codes "body-replace" ∷ side.now ∷ from.now ∷ to.now ∷ [])) }
{
    put_filter_name(page, b"body-replace", side)?;
    page.put_word(from.as_slice())?;
    page.put_word(to.as_slice())?;
    page.put(b"\n")
}

/// Puts the line of a filter behind a text.
#[tactic(auto, unfolding(crate::specs::Printed::filter_line))]
fn put_filter(page: &mut Page, side: &[u8], filter: &FilterSpec) -> Result<(), OutOfMemory>
    ensures { OnOk result (page.new.text.items ≡ page.old.text.items ++ filter_line side.now filter.now) }
{
    match filter {
        FilterSpec::Limit(most) => put_limit(page, side, *most),
        FilterSpec::Deny(needle) => put_deny(page, side, needle),
        FilterSpec::Replace(from, to) => put_replace(page, side, from, to),
    }
}

/// Puts the lines of a direction's filters behind a text.
pub(crate) fn put_filters(
    page: &mut Page,
    side: &[u8],
    chain: &[FilterSpec],
) -> Result<(), OutOfMemory>
    ensures { OnOk result (page.new.text.items ≡ page.old.text.items ++ filters_text side.now chain.now) }
{
    for filter in chain {
        put_filter(page, side, filter)?;
    }
    Ok(())
}

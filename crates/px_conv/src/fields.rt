//! The converters `field` and `word`: parts of a text between separators (Configuration Manual, section 7.3.1).
ghost use Rattle.std.specs.Prelude.{◌≡◌, ◌+◌, ◌-◌, ◌<◌, ◌≤◌, ℕ, List, length, drop, reverse, slice_get, unsigned_abs, IfSome, option_and_then};
ghost use Rattle.px_sample.specs.Sample.{value_in};
ghost use Rattle.px_conv.specs.Conv.{of_bytes_or_none, count};
ghost use Rattle.px_conv.specs.Fields.{separates, counts, parts, at_most, chosen, whole, part, field, word, IsRow};

use crate::bytes::count_of;
use px_sample::{Buf, Sample, Text, into_text};

/// Where a part lies: its bytes begin at `from` and end before `to`.
#[derive(Clone, Copy)]
pub struct Extent {
    pub from: usize,
    pub to: usize,
}

/// The parts that an index counts: all fields, or those that have bytes.
#[derive(Clone, Copy)]
pub enum Kind {
    Field,
    Word,
}

/// Parts in a row, one at least.
#[derive(Clone, Copy)]
pub struct Row {
    pub first: usize,
    pub len: usize,
}

fn is_separator(separators: &[u8], b: u8) -> bool
    ensures { result ≡ separates separators.now b }
{
    separators.contains(&b)
}

fn is_counted(kind: Kind, extent: Extent) -> bool
    ensures { result ≡ counts kind extent }
{
    match kind {
        Kind::Field => true,
        Kind::Word => extent.from < extent.to,
    }
}

/// How many parts there are.
fn number_of(kind: Kind, separators: &[u8], text: &[u8]) -> usize
    ensures { result ≡ length (parts kind separators.now text.now) }
{
    let mut seen = 0;
    let mut from = 0;
    for (at, b) in text.iter().enumerate() {
        if is_separator(separators, *b) {
            if is_counted(kind, Extent { from, to: at }) {
                seen += 1;
            }
            from = at + 1;
        }
    }
    let to = text.len();
    if is_counted(kind, Extent { from, to }) {
        seen += 1;
    }
    seen
}

/// The part that stands behind so many.
fn part_after(kind: Kind, separators: &[u8], text: &[u8], skipped: usize) -> Option<Extent>
    ensures { result ≡ slice_get (parts kind separators.now text.now) skipped }
{
    let mut left = skipped;
    let mut from = 0;
    for (at, b) in text.iter().enumerate() {
        if is_separator(separators, *b) {
            let extent = Extent { from, to: at };
            if is_counted(kind, extent) {
                if left == 0 {
                    return Some(extent);
                }
                left -= 1;
            }
            from = at + 1;
        }
    }
    let extent = Extent {
        from,
        to: text.len(),
    };
    if left == 0 && is_counted(kind, extent) {
        Some(extent)
    } else {
        None
    }
}

/// The row of at most `n` parts behind those that are skipped, or of all that are left for 0.
fn row_behind(skipped: usize, n: usize, total: usize) -> Option<Row>
    ensures row { (all : List Extent) → length all ≡ total → IsRow all (at_most n (drop skipped all)) result }
    ensures within { IfSome result (λ row. row.first + row.len ≤ total) }
{
    if skipped >= total {
        return None;
    }
    let left = total - skipped;
    let len = if n == 0 { left } else { n.min(left) };
    Some(Row {
        first: skipped,
        len,
    })
}

/// The same, counted from the last part.
fn row_before(skipped: usize, n: usize, total: usize) -> Option<Row>
    ensures { (all : List Extent) → length all ≡ total → IsRow all (reverse (at_most n (drop skipped (reverse all)))) result }
{
    let row = row_behind(skipped, n, total)?;
    Some(Row {
        first: total - (row.first + row.len),
        len: row.len,
    })
}

/// The row at an index.
fn row_at(index: i64, n: usize, total: usize) -> Option<Row>
    ensures { (all : List Extent) → length all ≡ total → IsRow all (chosen index n all) result }
{
    if index == 0 {
        return None;
    }
    let skipped = index.unsigned_abs() as usize - 1;
    if index > 0 {
        row_behind(skipped, n, total)
    } else {
        row_before(skipped, n, total)
    }
}

/// Where the parts at an index lie.
fn extent_of(kind: Kind, index: i64, separators: &[u8], n: usize, text: &[u8]) -> Option<Extent>
    ensures { result ≡ whole (chosen index n (parts kind separators.now text.now)) }
{
    let row = row_at(index, n, number_of(kind, separators, text))?;
    let first = part_after(kind, separators, text, row.first)?;
    let last = part_after(kind, separators, text, row.first + row.len - 1)?;
    Some(Extent {
        from: first.from,
        to: last.to,
    })
}

/// The bytes of the parts at an index, at most `n` of them or all that are left for 0, with what separates them.
/// Absent where there is no such part.
fn part(
    kind: Kind,
    sample: Sample,
    index: i64,
    separators: &[u8],
    n: usize,
    buf: &mut Buf,
) -> Sample
    ensures value { value_in result buf.new.bytes ≡ option_and_then (of_bytes_or_none buf.old.cap (part kind index separators.now n)) (value_in sample buf.old.bytes) }
    ensures cap { buf.new.cap ≡ buf.old.cap }
{
    if into_text(sample, buf) != Sample::InBuf {
        return Sample::Absent;
    }
    let Some(extent) = extent_of(kind, index, separators, n, buf.bytes()) else {
        return Sample::Absent;
    };
    buf.keep(extent.from, extent.to.saturating_sub(extent.from));
    Sample::InBuf
}

#[tactic(auto, unfolding(crate::specs::Fields::field))]
pub fn field(sample: Sample, index: i64, separators: &Text, n: i64, buf: &mut Buf) -> Sample
    ensures value { value_in result buf.new.bytes ≡ option_and_then (of_bytes_or_none buf.old.cap (field index separators.now (count n))) (value_in sample buf.old.bytes) }
    ensures cap { buf.new.cap ≡ buf.old.cap }
{
    part(
        Kind::Field,
        sample,
        index,
        separators.as_slice(),
        count_of(n),
        buf,
    )
}

#[tactic(auto, unfolding(crate::specs::Fields::word))]
pub fn word(sample: Sample, index: i64, separators: &Text, n: i64, buf: &mut Buf) -> Sample
    ensures value { value_in result buf.new.bytes ≡ option_and_then (of_bytes_or_none buf.old.cap (word index separators.now (count n))) (value_in sample buf.old.bytes) }
    ensures cap { buf.new.cap ≡ buf.old.cap }
{
    part(
        Kind::Word,
        sample,
        index,
        separators.as_slice(),
        count_of(n),
        buf,
    )
}

//! Calls of fetches and converters: a name, and arguments in brackets.
ghost use Rattle.std.specs.Prelude.{◌≡◌, ◌++◌, ◌∷◌, [], ◌&&◌, not, OnOk};
ghost use Rattle.std.specs.List.{list_all, flat_map};
ghost use Rattle.std.specs.Fmt.{signed_decimal};
ghost use Rattle.cfg_print.specs.Exprs.{is_bare_byte, begins_quoted, argument_text, call, call_text, and_number, matches_letter, icase_letter, letters, and_letters};

use crate::words::{put, put_single_quoted};
use px_bytes::write_signed;
use px_conv::Matches;
use px_link::OutOfMemory;
use px_pattern::Pat;

/// A byte that an argument without quotes may have.
fn is_bare_byte(b: u8) -> bool
    ensures { result ≡ is_bare_byte b }
{
    !(b == b' ' || b == b'\t' || b == b',' || b == b')')
}

pub(crate) fn are_bare_bytes(argument: &[u8]) -> bool
    ensures { result ≡ list_all is_bare_byte argument.now }
{
    argument.iter().all(|b| is_bare_byte(*b))
}

fn begins_quoted(argument: &[u8]) -> bool
    ensures { result ≡ begins_quoted argument.now }
{
    argument.first() == Some(&b'\'')
}

/// An argument that needs no quotes.
fn is_bare(argument: &[u8]) -> bool
    ensures { result ≡ (list_all is_bare_byte argument.now && not (begins_quoted argument.now)) }
{
    are_bare_bytes(argument) && !begins_quoted(argument)
}

/// Puts an argument behind a text, in quotes where it needs them.
#[tactic(auto, unfolding(crate::specs::Exprs::argument_text))]
fn put_argument(out: &mut Vec<u8>, argument: &[u8]) -> Result<(), OutOfMemory>
    ensures { OnOk result (out.new.items ≡ out.old.items ++ argument_text argument.now) }
{
    if is_bare(argument) {
        return put(out, argument);
    }
    put_single_quoted(out, argument)
}

/// Puts a number that is an argument behind a text.
fn put_number(out: &mut Vec<u8>, n: i64) -> Result<(), OutOfMemory>
    ensures { OnOk result (out.new.items ≡ out.old.items ++ argument_text (signed_decimal n)) }
{
    let mut text = [0; 20];
    let len = write_signed(n, &mut text);
    put_argument(out, &text[..len])
}

/// Puts an argument behind another.
fn put_next(out: &mut Vec<u8>, argument: &[u8]) -> Result<(), OutOfMemory>
    ensures { OnOk result (out.new.items ≡ out.old.items ++ 44 ∷ argument_text argument.now) }
{
    put(out, b",")?;
    put_argument(out, argument)
}

fn put_next_number(out: &mut Vec<u8>, n: i64) -> Result<(), OutOfMemory>
    ensures { OnOk result (out.new.items ≡ out.old.items ++ 44 ∷ argument_text (signed_decimal n)) }
{
    put(out, b",")?;
    put_number(out, n)
}

/// Puts a name and an opening bracket behind a text.
fn open(out: &mut Vec<u8>, name: &[u8]) -> Result<(), OutOfMemory>
    ensures { OnOk result (out.new.items ≡ out.old.items ++ (name.now ++ 40 ∷ [])) }
{
    put(out, name)?;
    put(out, b"(")
}

/// Puts a call with one argument behind a text.
pub(crate) fn put_call(out: &mut Vec<u8>, name: &[u8], argument: &[u8]) -> Result<(), OutOfMemory>
    ensures { OnOk result (out.new.items ≡ out.old.items ++ call_text (call name.now (argument.now ∷ []))) }
{
    open(out, name)?;
    put_argument(out, argument)?;
    put(out, b")")
}

/// The same with a number.
pub(crate) fn put_call_on(out: &mut Vec<u8>, name: &[u8], n: i64) -> Result<(), OutOfMemory>
    ensures { OnOk result (out.new.items ≡ out.old.items ++ call_text (call name.now (signed_decimal n ∷ []))) }
{
    open(out, name)?;
    put_number(out, n)?;
    put(out, b")")
}

/// Puts what stands behind the first argument, which may be a number.
fn close_with(out: &mut Vec<u8>, number: Option<i64>) -> Result<(), OutOfMemory>
    ensures { OnOk result (out.new.items ≡ out.old.items ++ (flat_map (λ other. 44 ∷ argument_text other) (and_number number) ++ 41 ∷ [])) }
{
    let Some(n) = number else {
        return put(out, b")");
    };
    put_next_number(out, n)?;
    put(out, b")")
}

/// Puts a call with an argument and a number that may be left out.
pub(crate) fn put_call_at(
    out: &mut Vec<u8>,
    name: &[u8],
    argument: &[u8],
    number: Option<i64>,
) -> Result<(), OutOfMemory>
    ensures { OnOk result (out.new.items ≡ out.old.items ++ call_text (call name.now (argument.now ∷ and_number number))) }
{
    open(out, name)?;
    put_argument(out, argument)?;
    close_with(out, number)
}

/// Puts a call with a number and another that may be left out.
pub(crate) fn put_range_call(
    out: &mut Vec<u8>,
    name: &[u8],
    offset: i64,
    len: Option<i64>,
) -> Result<(), OutOfMemory>
    ensures { OnOk result (out.new.items ≡ out.old.items ++ call_text (call name.now (signed_decimal offset ∷ and_number len))) }
{
    open(out, name)?;
    put_number(out, offset)?;
    close_with(out, len)
}

/// Puts a call with two arguments.
pub(crate) fn put_choice_call(
    out: &mut Vec<u8>,
    name: &[u8],
    first: &[u8],
    second: &[u8],
) -> Result<(), OutOfMemory>
    ensures { OnOk result (out.new.items ≡ out.old.items ++ call_text (call name.now (first.now ∷ second.now ∷ []))) }
{
    open(out, name)?;
    put_argument(out, first)?;
    put_next(out, second)?;
    put(out, b")")
}

/// Puts what stands behind an index.
fn close_piece(out: &mut Vec<u8>, separators: &[u8], count: i64) -> Result<(), OutOfMemory>
    ensures { OnOk result (out.new.items ≡ out.old.items ++ (44 ∷ argument_text separators.now ++ 44 ∷ argument_text (signed_decimal count) ++ 41 ∷ [])) }
{
    put_next(out, separators)?;
    put_next_number(out, count)?;
    put(out, b")")
}

/// Puts a call with an index, separators and a count.
pub(crate) fn put_piece_call(
    out: &mut Vec<u8>,
    name: &[u8],
    index: i64,
    separators: &[u8],
    count: i64,
) -> Result<(), OutOfMemory>
    ensures { OnOk result (out.new.items ≡ out.old.items ++ call_text (call name.now (signed_decimal index ∷ separators.now ∷ signed_decimal count ∷ []))) }
{
    open(out, name)?;
    put_number(out, index)?;
    close_piece(out, separators, count)
}

/// Puts what stands behind a pattern and its template.
#[tactic(auto, unfolding(crate::specs::Exprs::argument_text))]
fn close_with_letters(out: &mut Vec<u8>, icase: bool, which: Matches) -> Result<(), OutOfMemory>
    ensures { OnOk result (out.new.items ≡ out.old.items ++ (flat_map (λ other. 44 ∷ argument_text other) (and_letters (matches_letter which ++ icase_letter icase)) ++ 41 ∷ [])) }
{
    match which {
        Matches::First => put(out, if icase { b",i)" } else { b")" }),
        Matches::All => put(out, if icase { b",gi)" } else { b",g)" }),
    }
}

/// Puts a call with a pattern, a template, and which matches it replaces.
pub(crate) fn put_pattern_call(
    out: &mut Vec<u8>,
    name: &[u8],
    pat: &Pat,
    template: &[u8],
    which: Matches,
) -> Result<(), OutOfMemory>
    ensures { OnOk result (out.new.items ≡ out.old.items ++ call_text (call name.now (pat.now.text ∷ template.now ∷ and_letters (letters pat.now which)))) }
{
    open(out, name)?;
    put_argument(out, pat.text())?;
    put_next(out, template)?;
    close_with_letters(out, pat.ignores_case(), which)
}

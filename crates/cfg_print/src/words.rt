//! Words of a canonical text: as they are, or in quotes.
ghost use Rattle.std.specs.Prelude.{◌≡◌, ◌++◌, ◌<◌, OnOk};
ghost use Rattle.std.specs.List.{list_all, flat_map};
ghost use Rattle.cfg_print.specs.Words.{is_control, is_plain, is_plain_word, is_quotable, single_quoted, hex_digit, escaped, double_quoted, word_text, spaced};

use px_link::OutOfMemory;

/// Puts bytes behind a text.
pub(crate) fn put(out: &mut Vec<u8>, bytes: &[u8]) -> Result<(), OutOfMemory>
    ensures { OnOk result (out.new.items ≡ out.old.items ++ bytes.now) }
{
    out.extend_from_slice(bytes)?;
    Ok(())
}

/// A control byte.
fn is_control(b: u8) -> bool
    ensures { result ≡ is_control b }
{
    b < 32 || b == 127
}

/// A byte that needs no quotes.
fn is_plain(b: u8) -> bool
    ensures { result ≡ is_plain b }
{
    !(is_control(b) || b == b' ' || b == b'"' || b == b'#' || b == b'\'' || b == b'\\')
}

/// A byte that stands for itself in single quotes.
fn is_quotable(b: u8) -> bool
    ensures { result ≡ is_quotable b }
{
    !(is_control(b) || b == b'\'')
}

fn are_plain(word: &[u8]) -> bool
    ensures { result ≡ list_all is_plain word.now }
{
    word.iter().all(|b| is_plain(*b))
}

fn are_quotable(word: &[u8]) -> bool
    ensures { result ≡ list_all is_quotable word.now }
{
    word.iter().all(|b| is_quotable(*b))
}

fn is_plain_word(word: &[u8]) -> bool
    ensures { result ≡ is_plain_word word.now }
{
    !word.is_empty() && are_plain(word)
}

fn hex_digit(n: u8) -> u8
    requires { n < 16 }
    ensures { result ≡ hex_digit n }
{
    if n < 10 { b'0' + n } else { b'a' - 10 + n }
}

/// Puts a byte in double quotes behind a text.
#[tactic(auto, unfolding(crate::specs::Words::escaped))]
fn put_escaped(out: &mut Vec<u8>, b: u8) -> Result<(), OutOfMemory>
    ensures { OnOk result (out.new.items ≡ out.old.items ++ escaped b) }
{
    if b == b'\n' {
        return put(out, b"\\n");
    }
    if b == b'\r' {
        return put(out, b"\\r");
    }
    if b == b'\t' {
        return put(out, b"\\t");
    }
    if is_control(b) {
        return put(out, &[b'\\', b'x', hex_digit(b / 16), hex_digit(b % 16)]);
    }
    if b == b'"' || b == b'$' || b == b'\\' {
        return put(out, &[b'\\', b]);
    }
    put(out, &[b])
}

/// Puts the bytes of a word in double quotes behind a text.
fn put_all_escaped(out: &mut Vec<u8>, word: &[u8]) -> Result<(), OutOfMemory>
    ensures { OnOk result (out.new.items ≡ out.old.items ++ flat_map escaped word.now) }
{
    for b in word {
        put_escaped(out, *b)?;
    }
    Ok(())
}

fn put_double_quoted(out: &mut Vec<u8>, word: &[u8]) -> Result<(), OutOfMemory>
    ensures { OnOk result (out.new.items ≡ out.old.items ++ double_quoted word.now) }
{
    put(out, b"\"")?;
    put_all_escaped(out, word)?;
    put(out, b"\"")
}

/// Puts a word in single quotes behind a text.
pub(crate) fn put_single_quoted(out: &mut Vec<u8>, word: &[u8]) -> Result<(), OutOfMemory>
    ensures { OnOk result (out.new.items ≡ out.old.items ++ single_quoted word.now) }
{
    put(out, b"'")?;
    put(out, word)?;
    put(out, b"'")
}

/// Puts a word behind a text, in quotes where it needs them.
#[tactic(auto, unfolding(crate::specs::Words::word_text))]
pub(crate) fn put_word_text(out: &mut Vec<u8>, word: &[u8]) -> Result<(), OutOfMemory>
    ensures { OnOk result (out.new.items ≡ out.old.items ++ word_text word.now) }
{
    if is_plain_word(word) {
        return put(out, word);
    }
    if are_quotable(word) {
        return put_single_quoted(out, word);
    }
    put_double_quoted(out, word)
}

/// The same behind a space.
pub(crate) fn put_spaced(out: &mut Vec<u8>, word: &[u8]) -> Result<(), OutOfMemory>
    ensures { OnOk result (out.new.items ≡ out.old.items ++ spaced word.now) }
{
    put(out, b" ")?;
    put_word_text(out, word)
}

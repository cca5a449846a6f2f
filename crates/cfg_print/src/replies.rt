//! The words of `redirect` and `return`.
ghost use Rattle.std.specs.Prelude.{◌≡◌, ◌++◌, ◌∷◌, [], codes, OnOk};
ghost use Rattle.std.specs.List.{flat_map};
ghost use Rattle.cfg_print.specs.Words.{words_text};
ghost use Rattle.cfg_print.specs.Formats.{format_text};
ghost use Rattle.cfg_print.specs.Actions.{target_words, where_so, redirect_words, type_words, payload_words, hdr_words, return_words};

use crate::page::Page;
use http_rules::{Fmt, Hdr, Payload, RedirectTo, Text};
use px_link::OutOfMemory;

/// Puts a word and a format behind it.
fn put_with_format(page: &mut Page, word: &[u8], fmt: &Fmt) -> Result<(), OutOfMemory>
    ensures { OnOk result (page.new.text.items ≡ page.old.text.items ++ words_text (word.now ∷ format_text fmt.now ∷ [])) }
{
    page.put_word(word)?;
    page.put_format(fmt)
}

/// Puts where a `redirect` leads.
fn put_target(page: &mut Page, to: &RedirectTo) -> Result<(), OutOfMemory>
    ensures { OnOk result (page.new.text.items ≡ page.old.text.items ++ words_text (target_words to.now)) }
{
    match to {
        RedirectTo::Location(fmt) => put_with_format(page, b"location", fmt),
        RedirectTo::Prefix(fmt) => put_with_format(page, b"prefix", fmt),
        RedirectTo::Scheme(fmt) => put_with_format(page, b"scheme", fmt),
    }
}

/// Puts a word where something holds.
fn put_where_so(page: &mut Page, so: bool, word: &[u8]) -> Result<(), OutOfMemory>
    ensures { OnOk result (page.new.text.items ≡ page.old.text.items ++ words_text (where_so so word.now)) }
{
    if so {
        return page.put_word(word);
    }
    Ok(())
}

/// Puts what stands behind `redirect`.
fn put_options(
    page: &mut Page,
    to: &RedirectTo,
    code: u16,
    drop_query: bool,
    append_slash: bool,
) -> Result<(), OutOfMemory>
    ensures { OnOk result (page.new.text.items ≡ page.old.text.items ++ words_text (redirect_words to.now code drop_query append_slash)) }
{
    put_target(page, to)?;
    page.put_word(b"code")?;
    page.put_number(u64::from(code))?;
    put_where_so(page, drop_query, b"drop-query")?;
    put_where_so(page, append_slash, b"append-slash")
}

/// Puts a `redirect`.
pub(crate) fn put_redirect(
    page: &mut Page,
    to: &RedirectTo,
    code: u16,
    drop_query: bool,
    append_slash: bool,
) -> Result<(), OutOfMemory>
    ensures { OnOk result (page.new.text.items ≡ page.old.text.items ++ words_text (codes "redirect" ∷ redirect_words to.now code drop_query append_slash)) }
{
    page.put_word(b"redirect")?;
    put_options(page, to, code, drop_query, append_slash)
}

/// Puts a word and a text behind it.
pub(crate) fn put_with_text(page: &mut Page, word: &[u8], text: &[u8]) -> Result<(), OutOfMemory>
    ensures { OnOk result (page.new.text.items ≡ page.old.text.items ++ words_text (word.now ∷ text.now ∷ [])) }
{
    page.put_word(word)?;
    page.put_word(text)
}

/// Puts the type of a payload, where there is one.
fn put_type(page: &mut Page, content_type: &Option<Text>) -> Result<(), OutOfMemory>
    ensures { OnOk result (page.new.text.items ≡ page.old.text.items ++ words_text (type_words content_type.now)) }
{
    match content_type {
        None => Ok(()),
        Some(text) => put_with_text(page, b"content-type", text.as_slice()),
    }
}

/// Puts a payload, where there is one.
fn put_payload(page: &mut Page, payload: &Option<Payload>) -> Result<(), OutOfMemory>
    ensures { OnOk result (page.new.text.items ≡ page.old.text.items ++ words_text (payload_words payload.now)) }
{
    match payload {
        None => Ok(()),
        Some(Payload::Literal(text)) => put_with_text(page, b"string", text.as_slice()),
        Some(Payload::Format(fmt)) => put_with_format(page, b"lf-string", fmt),
    }
}

/// Puts one more field.
fn put_hdr(page: &mut Page, hdr: &Hdr) -> Result<(), OutOfMemory>
    ensures { OnOk result (page.new.text.items ≡ page.old.text.items ++ words_text (hdr_words hdr.now)) }
{
    page.put_word(b"hdr")?;
    page.put_word(hdr.name.as_slice())?;
    page.put_format(&hdr.value)
}

/// Puts fields, in their order.
fn put_hdrs(page: &mut Page, hdrs: &[Hdr]) -> Result<(), OutOfMemory>
    ensures { OnOk result (page.new.text.items ≡ page.old.text.items ++ words_text (flat_map hdr_words hdrs.now)) }
{
    for hdr in hdrs {
        put_hdr(page, hdr)?;
    }
    Ok(())
}

/// Puts a `return`.
pub(crate) fn put_return(
    page: &mut Page,
    status: u16,
    content_type: &Option<Text>,
    payload: &Option<Payload>,
    hdrs: &[Hdr],
) -> Result<(), OutOfMemory>
    ensures { OnOk result (page.new.text.items ≡ page.old.text.items ++ words_text (codes "return" ∷ return_words status content_type.now payload.now hdrs.now)) }
{
    page.put_word(b"return")?;
    page.put_word(b"status")?;
    page.put_number(u64::from(status))?;
    put_type(page, content_type)?;
    put_payload(page, payload)?;
    put_hdrs(page, hdrs)
}

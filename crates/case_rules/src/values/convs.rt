//! Converters and fetches as rows write them.
use case_rows::{Call, Fault};
use px_conv::Matches;
use px_expr::{Conv, Fetch, Pat, Text};
use px_pattern::{PatFault, Patterns, RealPatterns};
use std::alloc::Global;

/// A pattern of these bytes.
pub fn pattern_of(alloc: Global, text: &[u8]) -> Result<Pat, Fault> {
    match RealPatterns::new().build(alloc, text, false) {
        Ok(pat) => Ok(pat),
        Err(PatFault::Refused) => Err(Fault::Malformed),
        Err(PatFault::OutOfMemory) => Err(Fault::OutOfMemory),
    }
}

/// The bytes of an argument, as a converter keeps them.
pub fn text_of(alloc: Global, call: &Call<'_>, at: usize) -> Result<Text, Fault> {
    let text = call.text(alloc, at)?;
    Ok(Text::copy(alloc, &text)?)
}

/// The converters without arguments.
fn plain_conv(name: &str) -> Option<Conv> {
    match name {
        "lower" => Some(Conv::Lower),
        "upper" => Some(Conv::Upper),
        "length" => Some(Conv::Length),
        "neg" => Some(Conv::Neg),
        "not" => Some(Conv::Not),
        "bool" => Some(Conv::Bool),
        "base64" => Some(Conv::Base64),
        "hex" => Some(Conv::Hex),
        "url_dec" => Some(Conv::UrlDec),
        _ => None,
    }
}

/// The converters with a number.
fn number_conv(name: &str, number: i64) -> Option<Conv> {
    match name {
        "add" => Some(Conv::Add(number)),
        "sub" => Some(Conv::Sub(number)),
        "mul" => Some(Conv::Mul(number)),
        "div" => Some(Conv::Div(number)),
        "mod" => Some(Conv::Mod(number)),
        _ => None,
    }
}

/// Which matches are replaced: each where the third argument is `g`.
fn matches_of(alloc: Global, call: &Call<'_>) -> Result<Matches, Fault> {
    match call.text(alloc, 2)?.as_slice() {
        b"g" => Ok(Matches::All),
        _ => Ok(Matches::First),
    }
}

/// The converter of a pattern, a template and `g` where each match is replaced.
fn regsub_of(alloc: Global, call: &Call<'_>) -> Result<Conv, Fault> {
    let pat = pattern_of(alloc, &call.text(alloc, 0)?)?;
    let template = text_of(alloc, call, 1)?;
    let which = matches_of(alloc, call)?;
    Ok(Conv::Regsub(pat, template, which))
}

/// The converter of where bytes begin, and how many they are.
fn bytes_of(call: &Call<'_>) -> Result<Conv, Fault> {
    let from = call.number(0)?;
    let count = call.some_number(1)?;
    Ok(Conv::Bytes(from, count))
}

/// The arguments of a converter that cuts a text: which piece, the bytes between pieces, and how many pieces.
fn pieces_of(alloc: Global, call: &Call<'_>) -> Result<(i64, Text, i64), Fault> {
    let at = call.number(0)?;
    let between = text_of(alloc, call, 1)?;
    let count = call.some_number(2)?.unwrap_or(1);
    Ok((at, between, count))
}

/// The converter of pieces that may be empty.
fn field_of(alloc: Global, call: &Call<'_>) -> Result<Conv, Fault> {
    let (at, between, count) = pieces_of(alloc, call)?;
    Ok(Conv::Field(at, between, count))
}

/// The converter of pieces that aren't empty.
fn word_of(alloc: Global, call: &Call<'_>) -> Result<Conv, Fault> {
    let (at, between, count) = pieces_of(alloc, call)?;
    Ok(Conv::Word(at, between, count))
}

/// The converter of a text for true and one for false.
fn iif_of(alloc: Global, call: &Call<'_>) -> Result<Conv, Fault> {
    let yes = text_of(alloc, call, 0)?;
    let no = text_of(alloc, call, 1)?;
    Ok(Conv::Iif(yes, no))
}

/// The converters with several arguments.
fn text_conv(alloc: Global, call: &Call<'_>) -> Result<Conv, Fault> {
    match call.name() {
        "bytes" => bytes_of(call),
        "field" => field_of(alloc, call),
        "word" => word_of(alloc, call),
        "iif" => iif_of(alloc, call),
        "regsub" => regsub_of(alloc, call),
        _ => Err(Fault::Malformed),
    }
}

/// The converter with a number that a call names.
fn number_conv_of(call: &Call<'_>) -> Option<Conv> {
    match call.number(0) {
        Ok(number) => number_conv(call.name(), number),
        Err(_) => None,
    }
}

/// The converter that a call names.
pub fn conv_of(alloc: Global, call: &Call<'_>) -> Result<Conv, Fault> {
    if let Some(conv) = plain_conv(call.name()) {
        return Ok(conv);
    }
    match number_conv_of(call) {
        Some(conv) => Ok(conv),
        None => text_conv(alloc, call),
    }
}

/// The fetch of a text.
fn str_fetch(alloc: Global, call: &Call<'_>) -> Result<Fetch, Fault> {
    Ok(Fetch::Str(text_of(alloc, call, 0)?))
}

/// The fetch of a truth.
fn bool_fetch(alloc: Global, call: &Call<'_>) -> Result<Fetch, Fault> {
    let truth = call.text(alloc, 0)?;
    Ok(Fetch::Bool(truth.as_slice() == b"true".as_slice()))
}

/// The fetch of a number.
fn int_fetch(call: &Call<'_>) -> Result<Fetch, Fault> {
    Ok(Fetch::Int(call.number(0)?))
}

/// The fetch that a call names.
pub fn fetch_of(alloc: Global, call: &Call<'_>) -> Result<Fetch, Fault> {
    match call.name() {
        "path" => Ok(Fetch::Path),
        "str" => str_fetch(alloc, call),
        "int" => int_fetch(call),
        "bool" => bool_fetch(alloc, call),
        "always_true" => Ok(Fetch::AlwaysTrue),
        "always_false" => Ok(Fetch::AlwaysFalse),
        _ => Err(Fault::Malformed),
    }
}

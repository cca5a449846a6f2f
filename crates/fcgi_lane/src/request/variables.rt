//! Fields as variables (RFC 3875 section 4.1.18): which are handed on, their names, and values of one name joined.
ghost use Rattle.std.specs.Prelude.{◌≡◌, ◌++◌, map, OnOk, IfOk, ℕ, List};
ghost use Rattle.http_model.specs.Fields.{is_named_among};
ghost use Rattle.fcgi_lane.specs.Request.Texts.{shown_field, shown_fields};
ghost use Rattle.fcgi_model.specs.Pairs as pairs;
ghost use Rattle.fcgi_model.specs.Pairs.{kept_back};

use crate::request::field_texts::FieldText;
use http_model::OutOfMemory;
use px_bytes::eq_fold;
use std::alloc::Global;

/// A byte of a name as one of a variable's.
fn variable_byte(byte: u8) -> u8
    ensures { result ≡ pairs.variable_byte byte }
{
    if byte == b'-' {
        b'_'
    } else {
        byte.to_ascii_uppercase()
    }
}

/// Puts a name behind a text, in upper case with `_` for `-`.
fn push_variable(text: &mut Vec<u8>, name: &[u8]) -> Result<(), OutOfMemory>
    ensures { OnOk result (text.new.items ≡ text.old.items ++ map pairs.variable_byte name.now) }
{
    for byte in name {
        text.push(variable_byte(*byte))?;
    }
    Ok(())
}

/// The name of the variable that a field becomes.
pub(crate) fn variable_name(alloc: Global, name: &[u8]) -> Result<Vec<u8>, OutOfMemory>
    ensures { IfOk result (λ text. text.items ≡ pairs.variable_name name.now) }
{
    let mut text = Vec::new(alloc);
    text.extend_from_slice(b"HTTP_")?;
    push_variable(&mut text, name)?;
    Ok(text)
}

/// Puts the values of the fields of a name behind a text, each behind a comma and a space.
fn push_later(text: &mut Vec<u8>, name: &[u8], fields: &[FieldText<'_>]) -> Result<(), OutOfMemory>
    ensures { OnOk result (text.new.items ≡ text.old.items ++ pairs.later_values name.now (shown_fields fields.now)) }
{
    for field in fields {
        if eq_fold(field.name, name) {
            text.extend_from_slice(b", ")?;
            text.extend_from_slice(field.value)?;
        }
    }
    Ok(())
}

/// The value of a field and those of the later fields of its name.
pub(crate) fn joined_value(
    alloc: Global,
    field: FieldText<'_>,
    later: &[FieldText<'_>],
) -> Result<Vec<u8>, OutOfMemory>
    ensures { IfOk result (λ text. text.items ≡ field.entry.value.now ++ pairs.later_values field.entry.name.now (shown_fields later.now)) }
{
    let mut text = Vec::new(alloc);
    text.extend_from_slice(field.value)?;
    push_later(&mut text, field.name, later)?;
    Ok(text)
}

/// Whether a field isn't handed on because of its name.
fn is_kept_back(name: &[u8]) -> bool
    ensures { (value : List ℕ) → result ≡ is_named_among kept_back (name.now, value) }
{
    eq_fold(name, b"content-length")
        || eq_fold(name, b"content-type")
        || eq_fold(name, b"transfer-encoding")
        || eq_fold(name, b"connection")
        || eq_fold(name, b"proxy")
}

/// Whether a name holds a `_`.
fn has_underscore(name: &[u8]) -> bool
    ensures { result ≡ pairs.has_underscore name.now }
{
    name.contains(&b'_')
}

/// Whether a field is handed on as a variable.
pub(crate) fn is_handed(field: FieldText<'_>) -> bool
    ensures { result ≡ pairs.is_handed (shown_field field.entry) }
{
    if is_kept_back(field.name) {
        return false;
    }
    !has_underscore(field.name)
}

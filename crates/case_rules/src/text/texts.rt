//! Tokens, trims, numbers and value lists of `px_bytes`: NAME, the call, its arguments, and what it gives.
ghost use Rattle.std.specs.Prelude.{◌≤◌, IfOk};

use case_rows::{Answers, Fault, Row, count_of, decoded, number_of};
use px_bytes::{
    eq_fold, fold, is_token, read_decimal, read_hex, trim, value_indices, values, write_decimal,
    write_hex, write_signed,
};
use std::alloc::Global;

/// Says a text that was written to the front of bytes that were `~`, and that the last was touched where it was.
fn say_front(bytes: &[u8], len: usize, answers: &mut Answers) {
    if len < bytes.len() && bytes.last().copied() != Some(b'~') {
        answers.say(b"touched");
    }
    answers.say(&bytes[..len.min(bytes.len())]);
}

/// Says each value of a field, in brackets.
fn say_values(field: &[u8], answers: &mut Answers) {
    for value in values(field) {
        answers.bracket(value);
    }
}

/// Says where a value of a field begins, and the value.
fn say_value_at(field: &[u8], n: usize, answers: &mut Answers) {
    match value_indices(field).nth(n) {
        Some((at, value)) => {
            answers.count(at as u64);
            answers.quote(value);
        }
        None => answers.say(b"none"),
    }
}

/// The calls of a text alone. Whether it is one.
fn say_of_text(call: &str, text: &mut [u8], answers: &mut Answers) -> bool {
    match call {
        "is_token" => answers.truth(is_token(text)),
        "trim" => answers.say(trim(text)),
        "values" => say_values(text, answers),
        "fold" => {
            fold(text);
            answers.say(text);
        }
        _ => return false,
    }
    true
}

/// So many digits, at most so many.
fn digits_of(text: &str, most: u32) -> Result<u32, Fault>
    ensures { IfOk result (λ digits. digits ≤ most) }
{
    match u32::try_from(count_of(text.as_bytes())?) {
        Ok(digits) if digits <= most => Ok(digits),
        _ => Err(Fault::Malformed),
    }
}

/// The calls of a text and a number of digits, a place, or another text. Whether it is one.
fn say_of_two(
    alloc: Global,
    row: Row<'_>,
    text: &[u8],
    answers: &mut Answers,
) -> Result<bool, Fault> {
    let second = row.field(3);
    match row.field(1) {
        "read_decimal" => answers.some_count(read_decimal(text, digits_of(second, 18)?)),
        "read_hex" => answers.some_count(read_hex(text, digits_of(second, 16)?)),
        "value_at" => say_value_at(text, count_of(second.as_bytes())?, answers),
        "eq_fold" => answers.truth(eq_fold(text, &decoded(alloc, second.as_bytes())?)),
        _ => return Ok(false),
    }
    Ok(true)
}

/// The calls that write a number.
fn say_of_number(call: &str, number: &[u8], answers: &mut Answers) -> Result<(), Fault> {
    let mut into = [b'~'; 20];
    let len = match call {
        "write_decimal" => write_decimal(count_of(number)? as u64, &mut into),
        "write_signed" => write_signed(number_of(number)?, &mut into),
        _ => return say_hex(call, number, answers),
    };
    say_front(&into, len, answers);
    Ok(())
}

/// Says a number in hexadecimal digits.
fn say_hex(call: &str, number: &[u8], answers: &mut Answers) -> Result<(), Fault> {
    let Ok(number) = u32::try_from(count_of(number)?) else {
        return Err(Fault::Malformed);
    };
    if call != "write_hex" {
        return Err(Fault::Malformed);
    }
    let mut into = [b'~'; 8];
    let len = write_hex(number, &mut into);
    say_front(&into, len, answers);
    Ok(())
}

/// What a row comes to.
pub fn called(alloc: Global, row: Row<'_>) -> Result<Vec<u8>, Fault> {
    let mut answers = Answers::new(alloc);
    let mut text = decoded(alloc, row.field(2).as_bytes())?;
    if say_of_text(row.field(1), &mut text, &mut answers) {
        return answers.into_text();
    }
    if say_of_two(alloc, row, &text, &mut answers)? {
        return answers.into_text();
    }
    say_of_number(row.field(1), row.field(2).as_bytes(), &mut answers)?;
    answers.into_text()
}

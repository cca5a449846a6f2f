//! The texts of an exchange.
ghost use Rattle.std.specs.Prelude.{◌≡◌, ◌++◌, codes, decimal, replicate, OnOk};
ghost use Rattle.htx_drive.specs.Drill.Drill.{field_lines, body_lines, request_text, response_text};
ghost use Rattle.htx_drive.specs.Drill.Drawn.{plan};

use crate::drill::plan::Plan;
use http_model::OutOfMemory;
use itoa::Buffer;

/// Puts a number behind a text.
fn put_number(text: &mut Vec<u8>, number: u64) -> Result<(), OutOfMemory>
    ensures { OnOk result (text.new.items ≡ text.old.items ++ decimal number) }
{
    let mut buffer = Buffer::new();
    text.extend_from_slice(buffer.format(number).as_bytes())?;
    Ok(())
}

/// Puts a byte so many times behind a text.
fn put_times(text: &mut Vec<u8>, count: u32, byte: u8) -> Result<(), OutOfMemory>
    ensures { OnOk result (text.new.items ≡ text.old.items ++ replicate count byte) }
{
    for _at in 0..count {
        text.push(byte)?;
    }
    Ok(())
}

/// Puts the line of a field behind a text.
fn put_field(text: &mut Vec<u8>, number: usize, length: u32) -> Result<(), OutOfMemory>
    ensures { OnOk result (text.new.items ≡ text.old.items ++ (codes "f" ++ (decimal number ++ (codes ": " ++ (replicate length 97 ++ codes "\r\n"))))) }
{
    text.extend_from_slice(b"f")?;
    put_number(text, number as u64)?;
    text.extend_from_slice(b": ")?;
    put_times(text, length, b'a')?;
    text.extend_from_slice(b"\r\n")?;
    Ok(())
}

/// Puts the lines of fields behind a text.
fn put_fields(text: &mut Vec<u8>, lengths: &[u32]) -> Result<(), OutOfMemory>
    ensures { OnOk result (text.new.items ≡ text.old.items ++ field_lines 0 lengths.now) }
{
    for (number, length) in lengths.iter().enumerate() {
        put_field(text, number, *length)?;
    }
    Ok(())
}

/// Puts a body behind a text, and the line of its length in front of it.
fn put_body(text: &mut Vec<u8>, length: u32, byte: u8) -> Result<(), OutOfMemory>
    ensures { OnOk result (text.new.items ≡ text.old.items ++ body_lines length byte) }
{
    text.extend_from_slice(b"Content-Length: ")?;
    put_number(text, length as u64)?;
    text.extend_from_slice(b"\r\n\r\n")?;
    put_times(text, length, byte)
}

/// Puts the request of the exchange of this number behind a text.
pub fn put_request(text: &mut Vec<u8>, number: u32, drawn: &Plan) -> Result<(), OutOfMemory>
    ensures { OnOk result (text.new.items ≡ text.old.items ++ request_text number (plan drawn.now)) }
{
    text.extend_from_slice(b"POST /d/")?;
    put_number(text, number as u64)?;
    text.extend_from_slice(b" HTTP/1.1\r\nHost: d\r\n")?;
    put_fields(text, &drawn.fields)?;
    put_body(text, drawn.request, b'x')
}

/// Puts the response of an exchange behind a text.
pub fn put_response(text: &mut Vec<u8>, drawn: &Plan) -> Result<(), OutOfMemory>
    ensures { OnOk result (text.new.items ≡ text.old.items ++ response_text (plan drawn.now)) }
{
    text.extend_from_slice(b"HTTP/1.1 200 OK\r\nServer: d\r\n")?;
    put_body(text, drawn.response, b'y')
}

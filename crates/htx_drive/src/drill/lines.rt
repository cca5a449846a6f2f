//! The lines that are written of a generated session.
ghost use Rattle.std.specs.Prelude.{◌≡◌, ◌++◌, ◌∷◌, [], decimal, IfOk, IfSome, OnOk};
ghost use Rattle.rec_format.specs.ReportParts.{out_of, servers_of};
ghost use Rattle.htx_drive.specs.Drill.Lines.{sent_total, drill_text};
ghost use Rattle.rec_format.specs.Report.{end_word};

use http_model::OutOfMemory;
use itoa::Buffer;
use px_link::{Bytes, End};
use rec_format::{Report, Sent};
use std::alloc::Global;

fn end_word(end: End) -> &'static [u8]
    ensures { result.now ≡ end_word end }
{
    match end {
        End::Done => b"done",
        End::Closed => b"closed",
        End::Cut => b"cut",
    }
}

/// How many bytes servers were sent together; none where it is more than a number can say.
fn sent_total(servers: &[Option<Sent>]) -> Option<u64>
    ensures { IfSome result (λ total. total ≡ sent_total (servers_of servers.now)) }
{
    let mut total = 0u64;
    for server in servers {
        if let Some(sent) = server {
            total = total.checked_add(sent.bytes.as_slice().len() as u64)?;
        }
    }
    Some(total)
}

/// Puts a line behind a text.
fn put_line(text: &mut Vec<u8>, word: &[u8], value: &[u8]) -> Result<(), OutOfMemory>
    ensures { OnOk result (text.new.items ≡ text.old.items ++ (word.now ++ value.now ++ 10 ∷ [])) }
{
    text.extend_from_slice(word)?;
    text.extend_from_slice(value)?;
    text.push(b'\n')?;
    Ok(())
}

/// Puts a line with a number behind a text.
fn put_count(text: &mut Vec<u8>, word: &[u8], number: u64) -> Result<(), OutOfMemory>
    ensures { OnOk result (text.new.items ≡ text.old.items ++ (word.now ++ decimal number ++ 10 ∷ [])) }
{
    let mut buffer = Buffer::new();
    put_line(text, word, buffer.format(number).as_bytes())
}

/// The lines of a session. Want of memory is the only error; it also stands for servers that were sent more bytes than a memory holds.
pub fn write_lines(alloc: Global, report: &Report) -> Result<Bytes, OutOfMemory>
    ensures { IfOk result (λ text. text ≡ drill_text (out_of report.now)) }
{
    let Some(total) = sent_total(&report.servers) else {
        return Err(OutOfMemory);
    };
    let mut text = Vec::new(alloc);
    put_count(&mut text, b"exchanges ", report.exchanges as u64)?;
    put_count(&mut text, b"server bytes ", total)?;
    put_count(
        &mut text,
        b"client bytes ",
        report.client.bytes.as_slice().len() as u64,
    )?;
    put_line(&mut text, b"end ", end_word(report.end))?;
    Ok(Bytes::from(text))
}

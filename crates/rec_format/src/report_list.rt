//! The reports of several sessions, as text.
ghost use Rattle.std.specs.Prelude.{◌≡◌, ◌++◌, ◌∷◌, [], map, decimal, codes, length, IfOk, OnOk};
ghost use Rattle.rec_format.specs.Lines.{text_of_lines};
ghost use Rattle.rec_format.specs.ReportParts.{out_of};
ghost use Rattle.rec_format.specs.Reports.{summary_lines, out_lines, first_text, connections_text, report_of_all, Reportable};

use crate::report::{self, Report};
use itoa::Buffer;
use px_link::{Bytes, OutOfMemory};
use std::alloc::Global;

/// Most of what the first lines have.
const FRONT_ROOM: usize = 64;

/// Writes the lines in front of the sides.
fn put_summary(text: &mut Vec<u8>, report: &Report) -> Result<(), OutOfMemory>
    ensures { OnOk result (text.new.items ≡ text.old.items ++ text_of_lines (summary_lines (out_of report.now))) }
{
    let mut buffer = Buffer::new();
    report::put_line(
        text,
        b"exchanges ",
        buffer.format(report.exchanges).as_bytes(),
    )?;
    report::put_line(text, b"end ", report::end_word(report.end))?;
    report::put_line(text, b"cut ", report::cut_word(report.cut))?;
    Ok(())
}

/// Writes the lines of a session.
fn put_report(text: &mut Vec<u8>, report: &Report) -> Result<(), OutOfMemory>
    ensures { OnOk result (text.new.items ≡ text.old.items ++ text_of_lines (out_lines (out_of report.now))) }
{
    put_summary(text, report)?;
    text.extend_from_slice(b"client ")?;
    report::put_sent(text, &report.client)?;
    report::put_servers(text, &report.servers)?;
    Ok(())
}

/// Writes a line of a word and a number.
fn put_number(text: &mut Vec<u8>, word: &[u8], number: usize) -> Result<(), OutOfMemory>
    ensures { OnOk result (text.new.items ≡ text.old.items ++ (word.now ++ (decimal number ++ 10 ∷ []))) }
{
    let mut buffer = Buffer::new();
    report::put_line(text, word, buffer.format(number).as_bytes())
}

/// Writes the lines of the first session, if there is one.
fn put_first(text: &mut Vec<u8>, reports: &[Report]) -> Result<(), OutOfMemory>
    ensures { OnOk result (text.new.items ≡ text.old.items ++ first_text (map out_of reports.now)) }
{
    match reports {
        [] => Ok(()),
        [first, ..] => put_report(text, first),
    }
}

/// Writes the lines of a session behind its number.
fn put_connection(text: &mut Vec<u8>, number: usize, report: &Report) -> Result<(), OutOfMemory>
    ensures { OnOk result (text.new.items ≡ text.old.items ++ connections_text number (map out_of (report.now ∷ []))) }
{
    put_number(text, b"connection ", number)?;
    put_report(text, report)
}

/// Writes the lines of the sessions, which are numbered from 1.
#[tactic(auto, using(crate::proofs::Several::one_more))]
fn put_connections(text: &mut Vec<u8>, reports: &[Report]) -> Result<(), OutOfMemory>
    ensures { OnOk result (text.new.items ≡ text.old.items ++ connections_text 1 (map out_of reports.now)) }
{
    for (at, report) in reports.iter().enumerate() {
        put_connection(text, at + 1, report)?;
    }
    Ok(())
}

/// About how long the report is, so that its memory is taken at once.
fn room_for(reports: &[Report]) -> usize {
    let mut room = FRONT_ROOM;
    for report in reports {
        room = room.saturating_add(report::room_for(report));
    }
    room
}

/// Writes the report in the first format.
fn put_one(text: &mut Vec<u8>, reports: &[Report]) -> Result<(), OutOfMemory>
    ensures { OnOk result (text.new.items ≡ text.old.items ++ (codes "PXREP 1\n" ++ first_text (map out_of reports.now))) }
{
    text.extend_from_slice(b"PXREP 1\n")?;
    put_first(text, reports)
}

/// Writes the report in the second format.
fn put_several(text: &mut Vec<u8>, reports: &[Report]) -> Result<(), OutOfMemory>
    ensures { OnOk result (text.new.items ≡ text.old.items ++ (codes "PXREP 2\n" ++ ((codes "connections " ++ (decimal (length reports.now) ++ 10 ∷ [])) ++ connections_text 1 (map out_of reports.now)))) }
{
    text.extend_from_slice(b"PXREP 2\n")?;
    put_number(text, b"connections ", reports.len())?;
    put_connections(text, reports)?;
    Ok(())
}

/// Writes the report of sessions: of one in the first format, of any number in the second.
#[tactic(auto, unfolding(crate::specs::Reports::report_of_all), using(crate::proofs::Several::counted_all))]
pub fn write_reports(alloc: Global, version: u32, reports: &[Report]) -> Result<Bytes, OutOfMemory>
    requires { Reportable version (length reports.now) }
    ensures { IfOk result (λ text. text ≡ report_of_all version (map out_of reports.now)) }
{
    let mut text = Vec::with_capacity(alloc, room_for(reports))?;
    if version == 1 {
        put_one(&mut text, reports)?;
        return Ok(Bytes::from(text));
    }
    put_several(&mut text, reports)?;
    Ok(Bytes::from(text))
}

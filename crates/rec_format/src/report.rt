//! The report of a session, as text.
ghost use Rattle.std.specs.Prelude.{◌≡◌, ◌++◌, ◌∷◌, [], IfOk, OnOk};
ghost use Rattle.rec_format.specs.Lines.{text_of_lines};
ghost use Rattle.rec_format.specs.Report.{report_of, close_word, end_word, cut_word, sent_words, server_lines, session_lines};
ghost use Rattle.rec_format.specs.ReportParts.{out_of, sent_of, servers_of};

use itoa::Buffer;
use px_link::{Bytes, Close, End, OutOfMemory};
use std::alloc::Global;

/// What was sent to one side.
pub struct Sent {
    pub bytes: Bytes,
    pub close: Close,
}

impl Drop for Sent {
    fn drop(self) {
        let Sent { bytes: _, close: _ } = self;
    }
}

/// What a session came to.
pub struct Report {
    /// The number of exchanges.
    pub exchanges: u32,
    pub end: End,
    /// Whether the answer to a cut request had begun; none where none was cut.
    pub cut: Option<bool>,
    pub client: Sent,
    /// In the order of the connects, none for a refused one.
    pub servers: Vec<Option<Sent>>,
}

impl Drop for Report {
    fn drop(self) {
        let Report {
            exchanges: _,
            end: _,
            cut: _,
            client: _,
            servers: _,
        } = self;
    }
}

/// Most of what the report has besides bytes that were sent and servers.
const HEAD_ROOM: usize = 128;

/// Most of what a server's lines have besides the bytes that were sent to it.
const SERVER_ROOM: usize = 64;

fn close_word(close: Close) -> &'static [u8]
    ensures { result.now ≡ close_word close }
{
    match close {
        Close::Clean => b"clean",
        Close::Failed => b"failed",
    }
}

pub(crate) fn end_word(end: End) -> &'static [u8]
    ensures { result.now ≡ end_word end }
{
    match end {
        End::Done => b"done",
        End::Closed => b"closed",
        End::Cut => b"cut",
    }
}

pub(crate) fn cut_word(cut: Option<bool>) -> &'static [u8]
    ensures { result.now ≡ cut_word cut }
{
    match cut {
        None => b"none",
        Some(false) => b"before",
        Some(true) => b"begun",
    }
}

/// Writes a line of two pieces.
pub(crate) fn put_line(text: &mut Vec<u8>, first: &[u8], last: &[u8]) -> Result<(), OutOfMemory>
    ensures { OnOk result (text.new.items ≡ text.old.items ++ (first.now ++ (last.now ++ 10 ∷ []))) }
{
    text.extend_from_slice(first)?;
    text.extend_from_slice(last)?;
    text.push(b'\n')?;
    Ok(())
}

/// Writes the end of a side's line, and the line of what was sent to it.
pub(crate) fn put_sent(text: &mut Vec<u8>, sent: &Sent) -> Result<(), OutOfMemory>
    ensures { OnOk result (text.new.items ≡ text.old.items ++ (sent_words (sent_of sent.now) ++ 10 ∷ (sent.now.bytes ++ 10 ∷ []))) }
{
    let bytes = sent.bytes.as_slice();
    let mut buffer = Buffer::new();
    text.extend_from_slice(buffer.format(bytes.len()).as_bytes())?;
    put_line(text, b" ", close_word(sent.close))?;
    put_line(text, bytes, b"")
}

/// Writes the lines of one server.
fn put_server(text: &mut Vec<u8>, number: usize, server: &Option<Sent>) -> Result<(), OutOfMemory>
    ensures { OnOk result (text.new.items ≡ text.old.items ++ text_of_lines (server_lines number (servers_of (server.now ∷ [])))) }
{
    let mut buffer = Buffer::new();
    text.extend_from_slice(b"server ")?;
    text.extend_from_slice(buffer.format(number).as_bytes())?;
    match server {
        Some(sent) => {
            text.push(b' ')?;
            put_sent(text, sent)
        }
        None => put_line(text, b" ", b"refused"),
    }
}

/// Writes the lines of the servers, which are numbered from 1.
pub(crate) fn put_servers(text: &mut Vec<u8>, servers: &[Option<Sent>]) -> Result<(), OutOfMemory>
    ensures { OnOk result (text.new.items ≡ text.old.items ++ text_of_lines (server_lines 1 (servers_of servers.now))) }
{
    for (at, server) in servers.iter().enumerate() {
        put_server(text, at + 1, server)?;
    }
    Ok(())
}

/// Writes the lines in front of the sides.
fn put_session(text: &mut Vec<u8>, report: &Report) -> Result<(), OutOfMemory>
    ensures { OnOk result (text.new.items ≡ text.old.items ++ text_of_lines (session_lines (out_of report.now))) }
{
    let mut buffer = Buffer::new();
    put_line(text, b"PXREP ", b"1")?;
    put_line(
        text,
        b"exchanges ",
        buffer.format(report.exchanges).as_bytes(),
    )?;
    put_line(text, b"end ", end_word(report.end))?;
    put_line(text, b"cut ", cut_word(report.cut))?;
    Ok(())
}

/// About how long the report is, so that its memory is taken at once.
pub(crate) fn room_for(report: &Report) -> usize {
    let mut room = report
        .client
        .bytes
        .as_slice()
        .len()
        .saturating_add(HEAD_ROOM);
    for server in &report.servers {
        room = room.saturating_add(SERVER_ROOM);
        if let Some(sent) = server {
            room = room.saturating_add(sent.bytes.as_slice().len());
        }
    }
    room
}

/// Writes the report of a session.
pub fn write_report(alloc: Global, report: &Report) -> Result<Bytes, OutOfMemory>
    ensures { IfOk result (λ text. text ≡ report_of (out_of report.now)) }
{
    let mut text = Vec::with_capacity(alloc, room_for(report))?;
    put_session(&mut text, report)?;
    text.extend_from_slice(b"client ")?;
    put_sent(&mut text, &report.client)?;
    put_servers(&mut text, &report.servers)?;
    Ok(Bytes::from(text))
}

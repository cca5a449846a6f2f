//! Records and reports.
use case_rows::{Answers, Fault, Row, Step, decoded, quoted};
use px_link::{Bytes, Close, End, Turn};
use rec_format::{
    Connection, RecFault, RecKind, Record, Report, Sent, ServerSpec, Stream, read_record,
    write_report,
};
use std::alloc::Global;

/// Says how a stream ends, and its bytes.
fn say_stream(stream: &Stream, answers: &mut Answers) {
    answers.more_name(&stream.ending);
    answers.more(b" \"");
    answers.more(stream.bytes.as_slice());
    answers.more(b"\"");
}

/// Says after how many bytes a server stops taking, or `all`, and its stream.
fn say_served(served: &ServerSpec, answers: &mut Answers) {
    match served.takes {
        Some(most) => answers.more_count(most),
        None => answers.more(b"all"),
    }
    answers.more(b" ");
    say_stream(&served.stream, answers);
}

/// Says a client, and behind it each of its servers, or `refused`.
fn say_connection(conn: &Connection, answers: &mut Answers) {
    answers.say(b"client ");
    say_stream(&conn.client, answers);
    for server in &conn.servers {
        answers.say(b"server ");
        match server {
            Some(served) => say_served(served, answers),
            None => answers.more(b"refused"),
        }
    }
}

/// Says each turn, behind the number of its connection.
fn say_turns(turns: &[(u32, Turn)], answers: &mut Answers) {
    for turn in turns {
        answers.count(u64::from(turn.0));
        answers.more(b" ");
        answers.more_name(&turn.1);
    }
}

/// Says a record: its format, its connections and its turns.
fn say_record(record: &Record, answers: &mut Answers) {
    answers.count(u64::from(record.version));
    for conn in &record.conns {
        say_connection(conn, answers);
    }
    say_turns(&record.turns, answers);
}

/// Says where a record is refused, and why.
fn say_refusal(place: u32, kind: RecKind, answers: &mut Answers) {
    answers.count(u64::from(place));
    answers.say(b"");
    answers.more_name(&kind);
}

/// NAME, a text, and the record that it is: its format, its connections and its turns; or the place of the refused line and
/// the kind of the refusal.
pub fn recorded(alloc: Global, row: Row<'_>) -> Result<Vec<u8>, Fault> {
    let text = decoded(alloc, row.field(1).as_bytes())?;
    let mut answers = Answers::new(alloc);
    match read_record(alloc, &text) {
        Ok(record) => say_record(&record, &mut answers),
        Err(RecFault::Refused { place, kind }) => say_refusal(place, kind, &mut answers),
        Err(RecFault::OutOfMemory) => return Err(Fault::OutOfMemory),
    }
    answers.into_text()
}

/// How a side was closed.
fn close_of(text: &str) -> Close {
    match text {
        "clean" => Close::Clean,
        _ => Close::Failed,
    }
}

/// What was sent to a side: `clean` or `failed`, and the bytes in double quotes.
fn sent_of(alloc: Global, text: &str) -> Result<Sent, Fault> {
    let (close, bytes) = text.split_once(' ').ok_or(Fault::Malformed)?;
    let inner = quoted(bytes.as_bytes()).ok_or(Fault::Malformed)?;
    let bytes = Bytes::from(decoded(alloc, inner)?);
    let close = close_of(close);
    Ok(Sent { bytes, close })
}

/// What was sent to the servers, with semicolons between them.
fn servers_of(alloc: Global, text: &str) -> Result<Vec<Option<Sent>>, Fault> {
    let mut servers = Vec::new(alloc);
    for piece in text.split(';') {
        match piece.trim() {
            "" => return Ok(servers),
            "refused" => servers.push(None)?,
            sent => servers.push(Some(sent_of(alloc, sent)?))?,
        }
    }
    Ok(servers)
}

/// How a session ended.
fn end_of(text: &str) -> Result<End, Fault> {
    match text {
        "done" => Ok(End::Done),
        "closed" => Ok(End::Closed),
        "cut" => Ok(End::Cut),
        _ => Err(Fault::Malformed),
    }
}

/// Whether the answer to a cut request had begun.
fn cut_of(text: &str) -> Option<bool> {
    match text {
        "begun" => Some(true),
        "before" => Some(false),
        _ => None,
    }
}

/// The report of a row.
fn report_of(alloc: Global, row: Row<'_>) -> Result<Report, Fault> {
    let counts = Step::read(alloc, row.field(1))?;
    Ok(Report {
        exchanges: counts.place(0)?,
        end: end_of(row.field(2))?,
        cut: cut_of(row.field(3)),
        client: sent_of(alloc, row.field(4))?,
        servers: servers_of(alloc, row.field(5))?,
    })
}

/// NAME, how many exchanges, how the session ended, what was cut, what was sent to the client and to the servers, and
/// the text of the report.
pub fn reported(alloc: Global, row: Row<'_>) -> Result<Vec<u8>, Fault> {
    let text = write_report(alloc, &report_of(alloc, row)?)?;
    let mut answers = Answers::new(alloc);
    answers.say(text.as_slice());
    answers.into_text()
}

//! The program of cases: reads the tables and sessions that lie in a folder, runs each row through the public calls of
//! the crates, and prints the rows that differ, and how many agree. Then comes the run over loopback, for which the program
//! starts itself twice, with the words of a role.
#![tactic(auto)]

mod program;
mod roles;
mod serving;

use crate::program::TopCall;
use crate::roles::play_role;
use case_rows::{Fault, Row, Score, decoded};
use case_sessions::session::{session_made, woven_made};
use case_sessions::windows::windows_made;
use px_loop::visit::run_both;
use std::alloc::{AllocError, Global};
use std::process::{ExitCode, id};
use std::rt::Files;
use std::{env, fs, io};

/// The folder whose rows are run where no word names one.
const HERE: &str = ".";

/// The names in a folder, in their order.
fn names_in<R: Files + AllocGlobal + Clone + Drop>(
    rt: &R,
    folder: &str,
) -> io::Result<Vec<String>> {
    let mut names = Vec::new(rt.alloc());
    for entry in fs::read_dir(rt, folder)? {
        let entry = entry?;
        let name = String::from_str(rt.alloc(), entry.file_name())?;
        names.push(name).map_err(AllocError::from)?;
    }
    names.sort()?;
    Ok(names)
}

/// What a row of samples or of edits comes to.
fn made_of_parts(alloc: Global, kind: &str, row: Row<'_>) -> Option<Result<Vec<u8>, Fault>> {
    match case_rules::values::made(alloc, kind, row) {
        Some(made) => Some(made),
        None => case_rows::array::made(alloc, kind, row),
    }
}

/// What a row of messages that are written, or of applications, comes to.
fn made_of_writings(alloc: Global, kind: &str, row: Row<'_>) -> Option<Result<Vec<u8>, Fault>> {
    match case_rows::writing::made(alloc, kind, row) {
        Some(made) => Some(made),
        None => case_rows::applications::made(alloc, kind, row),
    }
}

/// What a row of bodies or of whole messages comes to.
fn made_of_messages(alloc: Global, kind: &str, row: Row<'_>) -> Option<Result<Vec<u8>, Fault>> {
    match case_rows::bodies::made(alloc, kind, row) {
        Some(made) => Some(made),
        None => made_of_writings(alloc, kind, row),
    }
}

/// What a row of conditions or of rules comes to.
fn made_of_rules(alloc: Global, kind: &str, row: Row<'_>) -> Option<Result<Vec<u8>, Fault>> {
    match case_rules::made(alloc, kind, row) {
        Some(made) => Some(made),
        None => case_rules::runs::made(alloc, kind, row),
    }
}

/// What a row of connections over links and nets in memory comes to.
fn made_of_links(alloc: Global, kind: &str, row: Row<'_>) -> Option<Result<Vec<u8>, Fault>> {
    match case_sessions::served::made::<TopCall>(alloc, kind, row) {
        Some(made) => Some(made),
        None => case_sessions::interleaved::made(alloc, kind, row),
    }
}

/// What a row of the program comes to.
fn made_of_program(alloc: Global, kind: &str, row: Row<'_>) -> Option<Result<Vec<u8>, Fault>> {
    match case_sessions::session::made::<TopCall>(alloc, kind, row) {
        Some(made) => Some(made),
        None => made_of_links(alloc, kind, row),
    }
}

/// What a row of conditions, of rules or of the program comes to.
fn made_of_runs(alloc: Global, kind: &str, row: Row<'_>) -> Option<Result<Vec<u8>, Fault>> {
    match made_of_rules(alloc, kind, row) {
        Some(made) => Some(made),
        None => made_of_program(alloc, kind, row),
    }
}

/// What a row of texts or of messages comes to.
fn made_of_texts(alloc: Global, kind: &str, row: Row<'_>) -> Option<Result<Vec<u8>, Fault>> {
    match case_rules::text::made(alloc, kind, row) {
        Some(made) => Some(made),
        None => made_of_messages(alloc, kind, row),
    }
}

/// What a row of texts, of messages or of the program comes to.
fn made_of_wholes(alloc: Global, kind: &str, row: Row<'_>) -> Option<Result<Vec<u8>, Fault>> {
    match made_of_texts(alloc, kind, row) {
        Some(made) => Some(made),
        None => made_of_runs(alloc, kind, row),
    }
}

/// What a row of a kind comes to.
fn made(alloc: Global, kind: &str, row: Row<'_>) -> Result<Vec<u8>, Fault> {
    match made_of_parts(alloc, kind, row) {
        Some(made) => made,
        None => made_of_wholes(alloc, kind, row).unwrap_or(Err(Fault::Malformed)),
    }
}

/// Runs a row of a table.
fn run_row<R: Print + AllocGlobal>(
    rt: &R,
    kind: &str,
    row: Row<'_>,
    score: &mut Score,
) -> io::Result<()> {
    match decoded(rt.alloc(), row.expected().as_bytes()) {
        Ok(expected) => {
            let made = made(rt.alloc(), kind, row);
            score.note(rt, kind, row.name(), &expected, &made)
        }
        Err(fault) => score.note(rt, kind, row.name(), b"", &Err(fault)),
    }
}

/// Runs the rows of a table.
fn run_table<R: Print + AllocGlobal>(
    rt: &R,
    folder: &str,
    text: &str,
    score: &mut Score,
) -> io::Result<()> {
    for line in text.lines() {
        if let Some(row) = Row::of(line) {
            run_row(rt, folder, row, score)?;
        }
    }
    Ok(())
}

/// The bytes of a file.
fn bytes_in<R: Files + AllocGlobal>(
    rt: &R,
    place: &str,
    base: &str,
    ending: &str,
) -> io::Result<Vec<u8>> {
    let path = format!(in rt.alloc(); "{place}/{base}.{ending}")?;
    fs::read(rt, path.as_str())
}

/// What a session of files comes to, as the file of this ending tells it.
fn made_of_files(alloc: Global, ending: &str, cfg: &[u8], rec: &[u8]) -> Result<Vec<u8>, Fault> {
    match ending {
        "windows" => windows_made(alloc, cfg, rec),
        "woven" => woven_made::<TopCall>(alloc, cfg, rec),
        _ => session_made::<TopCall>(alloc, ending, cfg, rec),
    }
}

/// Runs the session of which a file NAME.report, NAME.expected or NAME.check says what must be written. NAME.cfg stands
/// beside it, and so does NAME.rec where there is a record.
fn run_session<R: Files + Print + AllocGlobal>(
    rt: &R,
    place: &str,
    name: &str,
    score: &mut Score,
) -> io::Result<()> {
    let Some((base, ending)) = name.rsplit_once('.') else {
        return Ok(());
    };
    if ending == "cfg" || ending == "rec" {
        return Ok(());
    }
    let expected = bytes_in(rt, place, base, ending)?;
    let cfg = bytes_in(rt, place, base, "cfg")?;
    let rec = match ending {
        "check" => Vec::new(rt.alloc()),
        _ => bytes_in(rt, place, base, "rec")?,
    };
    let made = made_of_files(rt.alloc(), ending, &cfg, &rec);
    score.note(rt, "sessions", name, &expected, &made)
}

/// Runs the file of this name in a folder whose name says which kind of rows it holds.
fn run_file<R: Files + Print + AllocGlobal>(
    rt: &R,
    place: &str,
    folder: &str,
    name: &str,
    score: &mut Score,
) -> io::Result<()> {
    if folder == "sessions" {
        return run_session(rt, place, name, score);
    }
    let path = format!(in rt.alloc(); "{place}/{name}")?;
    let text = fs::read_to_string(rt, path.as_str())?;
    run_table(rt, folder, text.as_str(), score)
}

/// Runs what a folder holds.
fn run_folder<R: Files + Print + AllocGlobal + Clone + Drop>(
    rt: &R,
    top: &str,
    folder: &str,
    score: &mut Score,
) -> io::Result<()> {
    let place = format!(in rt.alloc(); "{top}/{folder}")?;
    for name in names_in(rt, place.as_str())? {
        run_file(rt, place.as_str(), folder, name.as_str(), score)?;
    }
    Ok(())
}

/// Runs the rows of a folder, and prints how many agree.
fn run_rows<R: Files + Print + AllocGlobal + Clone + Drop>(rt: &R, top: &str) -> io::Result<Score> {
    let mut score = Score::new();
    for folder in names_in(rt, top)? {
        run_folder(rt, top, folder.as_str(), &mut score)?;
    }
    score.print(rt)?;
    Ok(score)
}

/// Runs the rows of a folder, and then the run over loopback, by the program of this name. A failure where a row differs, and
/// where the run fails.
fn run_all(rt: &HostRuntime, program: &str, top: &str) -> io::Result<ExitCode> {
    let score = run_rows(rt, top)?;
    let ran = run_both(rt, program, id(rt.process()))?;
    if score.agree != score.rows {
        return Ok(ExitCode::FAILURE);
    }
    Ok(ran)
}

fn main(rt: HostRuntime) -> io::Result<ExitCode> {
    let mut words = env::args(&rt)?;
    let Some(program) = words.next() else {
        return Ok(ExitCode::FAILURE);
    };
    let Some(first) = words.next() else {
        return run_all(&rt, program.as_str(), HERE);
    };
    let Some(front) = words.next() else {
        return run_all(&rt, program.as_str(), first.as_str());
    };
    // Words that are no role must not begin a run: the run starts this program by such words.
    let (Some(back), None) = (words.next(), words.next()) else {
        return Ok(ExitCode::FAILURE);
    };
    Ok(play_role(&rt, first.as_str(), front.as_str(), back.as_str()))
}

//! Lists of words of the command line, and the texts that they ask for.
use case_rows::{Answers, Fault, Row, decoded, words_of};
use px_command::{Asked, RunOptions, asked_by, help_of_text, help_text, version_text};
use px_link::Bytes;
use std::alloc::Global;

/// Says what is wrong with words, without the text of help that stands behind it.
fn say_usage(alloc: Global, text: &[u8], answers: &mut Answers) -> Result<(), Fault> {
    let help = help_text(alloc)?;
    let reason = text.strip_suffix(help.as_slice()).unwrap_or(text);
    answers.say(reason.strip_suffix(b"\n\n".as_slice()).unwrap_or(reason));
    Ok(())
}

/// Says a number that options say, behind its name.
fn more_number(name: &[u8], number: Option<u32>, answers: &mut Answers) {
    if let Some(number) = number {
        answers.more(name);
        answers.more_count(u64::from(number));
    }
}

/// Says the options of `run`.
fn more_options(options: RunOptions, answers: &mut Answers) {
    more_number(b" sets ", options.sets, answers);
    more_number(b" connections ", options.connections, answers);
    more_number(b" workers ", options.workers, answers);
    if options.until_input_ends {
        answers.more(b" until-input-ends");
    }
    if options.logs {
        answers.more(b" log");
    }
}

/// Says a command of one file.
fn say_file(command: &[u8], name: &str, answers: &mut Answers) {
    answers.say(command);
    answers.bracket(name.as_bytes());
}

/// Says a command of two files.
fn say_files(command: &[u8], cfg: &str, rec: &str, answers: &mut Answers) {
    answers.say(command);
    answers.bracket(cfg.as_bytes());
    answers.more(b" ");
    answers.bracket(rec.as_bytes());
}

/// Says what words ask for.
fn say_asked(alloc: Global, asked: &Asked<'_>, answers: &mut Answers) -> Result<(), Fault> {
    match asked {
        Asked::Check { cfg } => say_file(b"check ", cfg, answers),
        Asked::CheckAll { cfg } => say_file(b"check --all ", cfg, answers),
        Asked::CheckPrint { cfg } => say_file(b"check --print ", cfg, answers),
        Asked::CheckRecord { rec } => say_file(b"check --record ", rec, answers),
        Asked::Replay { cfg, rec } => say_files(b"replay ", cfg, rec, answers),
        Asked::Explain { cfg, rec } => say_files(b"explain ", cfg, rec, answers),
        Asked::ExplainBlocks { cfg, rec } => say_files(b"explain --blocks ", cfg, rec, answers),
        Asked::Weave { cfg, rec, cores } => {
            say_files(b"weave ", cfg, rec, answers);
            answers.more(b" ");
            answers.more_count(u64::from(*cores));
        }
        Asked::Serve { cfg, connections } => {
            say_file(b"serve ", cfg, answers);
            answers.more(b" ");
            answers.more_count(u64::from(*connections));
        }
        Asked::Run { cfg, options } => {
            say_file(b"run ", cfg, answers);
            more_options(*options, answers);
        }
        Asked::Drill { seed, exchanges } => {
            answers.say(b"drill ");
            answers.more_count(u64::from(*seed));
            answers.more(b" ");
            answers.more_count(u64::from(*exchanges));
        }
        Asked::Help => answers.say(b"help"),
        Asked::HelpOf { command } => {
            answers.say(b"help of ");
            answers.more(command.word().as_bytes());
        }
        Asked::Version => answers.say(b"version"),
        Asked::Usage { text } => say_usage(alloc, text.as_slice(), answers)?,
    }
    Ok(())
}

/// NAME, words, and what they ask for, or what is wrong with them.
pub fn asked(alloc: Global, row: Row<'_>) -> Result<Vec<u8>, Fault> {
    let words = words_of(alloc, row.field(1))?;
    let mut answers = Answers::new(alloc);
    say_asked(alloc, &asked_by(alloc, &words)?, &mut answers)?;
    answers.into_text()
}

/// Whether a text has a part.
fn has_part(text: &[u8], part: &[u8]) -> bool {
    if part.is_empty() {
        return true;
    }
    for window in text.windows(part.len()) {
        if window == part {
            return true;
        }
    }
    false
}

/// The text that words ask for, or what is wrong with them; empty where they ask for no text.
fn text_for(alloc: Global, asked: Asked<'_>) -> Result<Bytes, Fault> {
    match asked {
        Asked::Help => Ok(help_text(alloc)?),
        Asked::HelpOf { command } => Ok(help_of_text(alloc, command)?),
        Asked::Version => Ok(version_text(alloc)?),
        Asked::Usage { text } => Ok(text),
        _ => Ok(Bytes::copy(alloc, b"")?),
    }
}

/// NAME, words that ask for a text, a part of the text, and whether it is there.
pub fn help_has(alloc: Global, row: Row<'_>) -> Result<Vec<u8>, Fault> {
    let words = words_of(alloc, row.field(1))?;
    let part = decoded(alloc, row.field(2).as_bytes())?;
    let text = text_for(alloc, asked_by(alloc, &words)?)?;
    let mut answers = Answers::new(alloc);
    answers.truth(has_part(text.as_slice(), &part));
    answers.into_text()
}

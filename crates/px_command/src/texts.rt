//! The texts of help and of what is wrong with words, as `clap` renders them.
ghost use Rattle.std.specs.Prelude.{IfOk, OnOk};
ghost use Rattle.px_command.specs.Texts.{EndsLine};

use crate::help::{CHECK, COMMANDS, DRILL, EXPLAIN, REPLAY, RUN, SERVE, WEAVE};
use crate::name::CommandName;
use crate::parser::{
    check_command, command, drill_command, explain_command, replay_command, run_command,
    serve_command, weave_command,
};
use crate::wrong::{Wrong, has_word, wrong_word};
use clap::{Command, Error};
use http_model::OutOfMemory;
use px_link::Bytes;
use std::alloc::{AllocError, Global};

/// Ends the last line of a text.
fn end_line(text: &mut Bytes) -> Result<(), OutOfMemory>
    ensures { OnOk result (EndsLine text.new) }
{
    text.push(b"\n")
}

/// The help of a command, and what is said of it behind that.
fn rendered(alloc: Global, command: &mut Command<'_>, rest: &[u8]) -> Result<Bytes, OutOfMemory>
    ensures { IfOk result EndsLine }
{
    let mut text = Bytes::copy(alloc, command.render_help()?.as_bytes())?;
    text.push(rest)?;
    end_line(&mut text)?;
    Ok(text)
}

/// A command under this name, where it could be made.
fn named<'a>(made: Result<Command<'a>, AllocError>, name: &str) -> Result<Command<'a>, AllocError> {
    match made {
        Ok(command) => command.bin_name(name),
        Err(fault) => Err(fault),
    }
}

/// The help of a command under this name, and what is said of it behind that.
fn help_under(
    alloc: Global,
    made: Result<Command<'_>, AllocError>,
    name: &str,
    rest: &[u8],
) -> Result<Bytes, OutOfMemory>
    ensures { IfOk result EndsLine }
{
    match named(made, name) {
        Ok(mut command) => {
            let text = rendered(alloc, &mut command, rest);
            drop(command);
            text
        }
        Err(_) => Err(OutOfMemory),
    }
}

/// The text of `--help`.
pub fn help_text(alloc: Global) -> Result<Bytes, OutOfMemory>
    ensures { IfOk result EndsLine }
{
    help_under(alloc, command(alloc), "htx_proxy", COMMANDS)
}

/// The text of `COMMAND --help`.
pub fn help_of_text(alloc: Global, command: CommandName) -> Result<Bytes, OutOfMemory>
    ensures { IfOk result EndsLine }
{
    match command {
        CommandName::Check => help_under(alloc, check_command(alloc), "htx_proxy check", CHECK),
        CommandName::Replay => help_under(alloc, replay_command(alloc), "htx_proxy replay", REPLAY),
        CommandName::Explain => {
            help_under(alloc, explain_command(alloc), "htx_proxy explain", EXPLAIN)
        }
        CommandName::Weave => help_under(alloc, weave_command(alloc), "htx_proxy weave", WEAVE),
        CommandName::Serve => help_under(alloc, serve_command(alloc), "htx_proxy serve", SERVE),
        CommandName::Run => help_under(alloc, run_command(alloc), "htx_proxy run", RUN),
        CommandName::Drill => help_under(alloc, drill_command(alloc), "htx_proxy drill", DRILL),
    }
}

/// The version of a command, on a line of its own.
fn version_of(alloc: Global, command: &Command<'_>) -> Result<Bytes, OutOfMemory>
    ensures { IfOk result EndsLine }
{
    let version = command.render_version()?;
    let mut line = Bytes::copy(alloc, version.as_str().trim_end().as_bytes())?;
    end_line(&mut line)?;
    Ok(line)
}

/// The text of `--version`.
pub fn version_text(alloc: Global) -> Result<Bytes, OutOfMemory>
    ensures { IfOk result EndsLine }
{
    match command(alloc) {
        Ok(command) => {
            let text = version_of(alloc, &command);
            drop(command);
            text
        }
        Err(_) => Err(OutOfMemory),
    }
}

/// Puts help behind what is wrong.
fn push_help(alloc: Global, text: &mut Bytes) -> Result<(), OutOfMemory>
    ensures { OnOk result (EndsLine text.new) }
{
    let help = help_text(alloc)?;
    text.push(help.as_slice())
}

/// What is wrong, in front of the help.
fn reason_and_help(alloc: Global, reason: &[u8]) -> Result<Bytes, OutOfMemory>
    ensures { IfOk result EndsLine }
{
    let mut text = Bytes::copy(alloc, b"error: ")?;
    text.push(reason)?;
    text.push(b"\n\n")?;
    push_help(alloc, &mut text)?;
    Ok(text)
}

/// The front of a text of `clap`, which ends where usage or a hint begins.
fn front_of(text: &str) -> &str {
    match text.split_once("\n\n") {
        Some((front, _)) => front,
        None => text,
    }
}

/// A text without the word in front that `clap` gives it.
fn without_title(text: &str) -> &str {
    match text.strip_prefix("error: ") {
        Some(rest) => rest,
        None => text,
    }
}

/// What is wrong with words that `clap` refused.
pub fn error_text(alloc: Global, error: &Error) -> Result<Bytes, OutOfMemory>
    ensures { IfOk result EndsLine }
{
    if !error.use_stderr() {
        return reason_and_help(
            alloc,
            b"help stands alone or with one command, and the version stands alone",
        );
    }
    let text = format!(in alloc; "{error}")?;
    reason_and_help(alloc, without_title(front_of(text.as_str())).as_bytes())
}

/// What is wrong with a word, and its bounds.
fn wrong_text(alloc: Global, wrong: &Wrong<'_>) -> Result<Bytes, OutOfMemory>
    ensures { IfOk result EndsLine }
{
    let mut reason = Bytes::copy(alloc, b"invalid value '")?;
    reason.push(wrong.word.as_bytes())?;
    reason.push(b"' for '<")?;
    reason.push(wrong.place.as_bytes())?;
    reason.push(b">': ")?;
    reason.push(wrong.bounds.as_bytes())?;
    reason_and_help(alloc, reason.as_slice())
}

/// What is wrong with the flag of `explain`.
const WRONG_BLOCKS: &[u8] = b"the argument '--blocks' must stand in front of '<CFG>'";

/// What is wrong with two flags of `check` that stand together.
fn wrong_flags(words: &[String]) -> Option<&'static [u8]> {
    if has_word(words, "--all") && has_word(words, "--record") {
        return Some(b"the argument '--all' cannot be used with '--record'");
    }
    if has_word(words, "--all") && has_word(words, "--print") {
        return Some(b"the argument '--all' cannot be used with '--print'");
    }
    if has_word(words, "--print") && has_word(words, "--record") {
        return Some(b"the argument '--print' cannot be used with '--record'");
    }
    None
}

/// What is wrong with the flags of `check`.
fn wrong_flag(words: &[String]) -> &'static [u8] {
    if let Some(wrong) = wrong_flags(words) {
        return wrong;
    }
    if has_word(words, "--all") {
        return b"the argument '--all' must stand in front of '<FILE>'";
    }
    if has_word(words, "--print") {
        return b"the argument '--print' must stand in front of '<FILE>'";
    }
    b"the argument '--record' must stand in front of '<FILE>'"
}

/// What is wrong with the options of `run`.
fn wrong_option(words: &[String]) -> &'static [u8] {
    if has_word(words, "--workers") && has_word(words, "--connections") {
        return b"the argument '--workers' cannot be used with '--connections'";
    }
    if has_word(words, "--workers") && has_word(words, "--until-input-ends") {
        return b"the argument '--workers' cannot be used with '--until-input-ends'";
    }
    b"options stand behind '<CFG>', and the number of one is a word of its own"
}

/// What is wrong with words of which none is wrong in its place.
fn wrong_order(words: &[String]) -> &'static [u8] {
    match words {
        [command, ..] if command.as_str() == "run" => wrong_option(words),
        [command, ..] if command.as_str() == "explain" => WRONG_BLOCKS,
        _ => wrong_flag(words),
    }
}

/// What is wrong with words that `clap` took, and the lists don't.
pub fn unlisted_text(alloc: Global, words: &[String]) -> Result<Bytes, OutOfMemory>
    ensures { IfOk result EndsLine }
{
    if has_word(words, "--") {
        return reason_and_help(alloc, b"unexpected argument '--' found");
    }
    match wrong_word(words) {
        Some(wrong) => wrong_text(alloc, &wrong),
        None => reason_and_help(alloc, wrong_order(words)),
    }
}

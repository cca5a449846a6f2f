//! What the words ask for.
ghost use Rattle.std.specs.Prelude.{ℕ, List, IfOk, IfErr, map, string_bytes};
ghost use Rattle.px_command.specs.Asked.{IsAsked};
ghost use Rattle.px_command.specs.Command.{AsksText, IsRun};
ghost use Rattle.px_command.specs.Parser.{IsRefused};
ghost use Rattle.px_command.specs.declared.options.RunOptions.{RunOptions as Options};

use crate::lists::{
    asks_help, asks_version, check_all_file, check_file, check_print_file, check_record_file,
    drill_numbers, explain_blocks_files, explain_files, help_command, replay_files, run_words,
    serve_words, weave_words,
};
use crate::name::CommandName;
use crate::options::RunOptions;
use crate::parser::command;
use crate::texts::{error_text, unlisted_text};
use clap::error::ErrorKind;
use clap::{ArgMatches, Error};
use http_model::OutOfMemory;
use px_link::Bytes;
use std::alloc::Global;

/// What the words of a command line ask for.
#[derive(Drop)]
pub enum Asked<'a> {
    /// `check CFG`.
    Check {
        cfg: &'a str,
    },
    /// `check --all CFG`.
    CheckAll {
        cfg: &'a str,
    },
    /// `check --print CFG`.
    CheckPrint {
        cfg: &'a str,
    },
    /// `check --record REC`.
    CheckRecord {
        rec: &'a str,
    },
    /// `replay CFG REC`.
    Replay {
        cfg: &'a str,
        rec: &'a str,
    },
    /// `explain CFG REC`.
    Explain {
        cfg: &'a str,
        rec: &'a str,
    },
    /// `explain --blocks CFG REC`.
    ExplainBlocks {
        cfg: &'a str,
        rec: &'a str,
    },
    /// `weave CFG REC K`.
    Weave {
        cfg: &'a str,
        rec: &'a str,
        cores: u32,
    },
    /// `serve CFG COUNT`.
    Serve {
        cfg: &'a str,
        connections: u32,
    },
    /// `run CFG` and options.
    Run {
        cfg: &'a str,
        options: RunOptions,
    },
    /// `drill SEED COUNT`.
    Drill {
        seed: u32,
        exchanges: u32,
    },
    /// `--help`, `-h` or `help`.
    Help,
    /// `COMMAND --help`, `COMMAND -h` or `help COMMAND`.
    HelpOf {
        command: CommandName,
    },
    /// `--version` or `-V`.
    Version,
    /// The words are no command. The text says what is wrong with them.
    Usage {
        text: Bytes,
    },
}

/// What words ask for that `clap` took, and that ask for no text.
fn taken<'a>(alloc: Global, words: &'a [String]) -> Result<Asked<'a>, OutOfMemory>
    requires text { AsksText (map string_bytes words.now) → ⊥ }
    requires run { (cfg : List ℕ) (options : Options) → IsRun (map string_bytes words.now) cfg options → ⊥ }
    ensures { IfOk result (IsAsked (map string_bytes words.now)) }
{
    if let Some(cfg) = check_file(words) {
        return Ok(Asked::Check { cfg });
    }
    if let Some(cfg) = check_all_file(words) {
        return Ok(Asked::CheckAll { cfg });
    }
    if let Some(cfg) = check_print_file(words) {
        return Ok(Asked::CheckPrint { cfg });
    }
    if let Some(rec) = check_record_file(words) {
        return Ok(Asked::CheckRecord { rec });
    }
    if let Some((cfg, rec)) = replay_files(words) {
        return Ok(Asked::Replay { cfg, rec });
    }
    if let Some((cfg, rec)) = explain_files(words) {
        return Ok(Asked::Explain { cfg, rec });
    }
    if let Some((cfg, rec)) = explain_blocks_files(words) {
        return Ok(Asked::ExplainBlocks { cfg, rec });
    }
    if let Some((cfg, rec, cores)) = weave_words(words) {
        return Ok(Asked::Weave { cfg, rec, cores });
    }
    if let Some((cfg, connections)) = serve_words(words) {
        return Ok(Asked::Serve { cfg, connections });
    }
    if let Some((seed, exchanges)) = drill_numbers(words) {
        return Ok(Asked::Drill { seed, exchanges });
    }
    let text = unlisted_text(alloc, words)?;
    Ok(Asked::Usage { text })
}

/// What words ask for that `clap` refused, and that ask for no text.
fn refused<'a>(alloc: Global, words: &[String], error: &Error) -> Result<Asked<'a>, OutOfMemory>
    requires refused { IsRefused (map string_bytes words.now) error.now }
    requires text { AsksText (map string_bytes words.now) → ⊥ }
    requires run { (cfg : List ℕ) (options : Options) → IsRun (map string_bytes words.now) cfg options → ⊥ }
    ensures { IfOk result (IsAsked (map string_bytes words.now)) }
{
    if error.kind() == ErrorKind::OutOfMemory {
        return Err(OutOfMemory);
    }
    let text = error_text(alloc, error)?;
    Ok(Asked::Usage { text })
}

/// The words as `clap` reads them, or why it refuses them.
fn matches_of<'a>(alloc: Global, words: &'a [String]) -> Result<ArgMatches<'a>, Error>
    ensures { IfErr result (IsRefused (map string_bytes words.now)) }
{
    match command(alloc) {
        Ok(command) => command.try_get_matches_from(words),
        Err(fault) => Err(Error::from(fault)),
    }
}

/// What words ask for that are not those of `run` and ask for no text: `clap` reads them, and then the lists of commands decide.
fn command_asked<'a>(alloc: Global, words: &'a [String]) -> Result<Asked<'a>, OutOfMemory>
    requires text { AsksText (map string_bytes words.now) → ⊥ }
    requires run { (cfg : List ℕ) (options : Options) → IsRun (map string_bytes words.now) cfg options → ⊥ }
    ensures { IfOk result (IsAsked (map string_bytes words.now)) }
{
    match matches_of(alloc, words) {
        Ok(_) => taken(alloc, words),
        Err(error) => refused(alloc, words, &error),
    }
}

/// What words ask for.
pub fn asked_by<'a>(alloc: Global, words: &'a [String]) -> Result<Asked<'a>, OutOfMemory>
    ensures { IfOk result (IsAsked (map string_bytes words.now)) }
{
    if asks_help(words) {
        return Ok(Asked::Help);
    }
    if let Some(command) = help_command(words) {
        return Ok(Asked::HelpOf { command });
    }
    if asks_version(words) {
        return Ok(Asked::Version);
    }
    if let Some((cfg, options)) = run_words(words) {
        return Ok(Asked::Run { cfg, options });
    }
    command_asked(alloc, words)
}

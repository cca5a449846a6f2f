//! The command line as `clap` reads it: the names of commands and their words, with what help says of them.
ghost use Rattle.std.specs.Prelude.{◌≡◌, ℕ, List, IfOk, false, codes};
ghost use Rattle.clap.specs.Words.{App, app_of, new_app, rule_of, with_rule, with_subcommand};
ghost use Rattle.clap.specs.declared.builder.command.Command.TheViews.{out-Command};
ghost use Rattle.px_command.specs.Parser.{word_rule, flag_rule, two_words, explain_shape, weave_shape, run_numbers, run_shape, option_rule, check_flags, check_shape, top_level, parser};

use clap::{Arg, ArgAction, Command};
use std::alloc::{AllocError, Global};

/// A word that must be given.
fn word<'a>(alloc: Global, name: &'a str, help: &'a str) -> Arg<'a>
    ensures rule { rule_of result ≡ word_rule name.now }
    ensures local { result.global ≡ false }
{
    Arg::new(alloc, name).required(true).help(help)
}

/// The file of a configuration.
fn cfg_word<'a>(alloc: Global) -> Arg<'a>
    ensures rule { rule_of result ≡ word_rule (codes "CFG") }
    ensures local { result.global ≡ false }
{
    word(alloc, "CFG", "The file of the configuration")
}

/// A flag.
fn flag<'a>(alloc: Global, name: &'a str, help: &'a str) -> Arg<'a>
    ensures rule { rule_of result ≡ flag_rule name.now }
    ensures local { result.global ≡ false }
{
    Arg::new(alloc, name)
        .long(name)
        .action(ArgAction::SetTrue)
        .help(help)
}

/// An option with a number.
fn option<'a>(alloc: Global, name: &'a str, value: &'a str, help: &'a str) -> Arg<'a>
    ensures rule { rule_of result ≡ option_rule name.now }
    ensures local { result.global ≡ false }
{
    Arg::new(alloc, name)
        .long(name)
        .value_name(value)
        .help(help)
}

/// A command with this argument.
fn one_argument<'a>(
    alloc: Global,
    name: &'a str,
    about: &'a str,
    first: Arg<'a>,
) -> Result<Command<'a>, AllocError>
    requires { first.global ≡ false }
    ensures app { IfOk result (λ c. app_of c ≡ with_rule (new_app name.now) (rule_of first.entry)) }
    ensures local { IfOk result (λ c. (out-Command c).has_globals ≡ false) }
{
    Command::new(alloc, name).about(about).arg(first)
}

/// A command with this argument, and a word that must be given behind it.
fn word_behind<'a>(
    alloc: Global,
    name: &'a str,
    about: &'a str,
    first: Arg<'a>,
    second: &'a str,
    help: &'a str,
) -> Result<Command<'a>, AllocError>
    requires { first.global ≡ false }
    ensures app { IfOk result (λ c. app_of c ≡ with_rule (with_rule (new_app name.now) (rule_of first.entry)) (word_rule second.now)) }
    ensures local { IfOk result (λ c. (out-Command c).has_globals ≡ false) }
{
    one_argument(alloc, name, about, first)?.arg(word(alloc, second, help))
}

/// `check` with its flags.
fn check_flags<'a>(alloc: Global) -> Result<Command<'a>, AllocError>
    ensures app { IfOk result (λ c. app_of c ≡ check_flags) }
    ensures local { IfOk result (λ c. (out-Command c).has_globals ≡ false) }
{
    let about = "Reads a configuration or a record, and says what it is or where it is refused";
    let all = flag(
        alloc,
        "all",
        "Writes each refused line of the configuration",
    );
    let print = flag(
        alloc,
        "print",
        "Writes the canonical text of the configuration",
    );
    let record = flag(
        alloc,
        "record",
        "The file is a record; writes it in the second format",
    );
    one_argument(alloc, "check", about, all)?
        .arg(print)?
        .arg(record)
}

/// `check CFG`, `check --all CFG`, `check --print CFG` and `check --record REC`.
pub fn check_command<'a>(alloc: Global) -> Result<Command<'a>, AllocError>
    ensures app { IfOk result (λ c. app_of c ≡ check_shape) }
    ensures local { IfOk result (λ c. (out-Command c).has_globals ≡ false) }
{
    check_flags(alloc)?.arg(word(
        alloc,
        "FILE",
        "The file of the configuration, or of the record behind --record",
    ))
}

/// `replay CFG REC`.
pub fn replay_command<'a>(alloc: Global) -> Result<Command<'a>, AllocError>
    ensures app { IfOk result (λ c. app_of c ≡ two_words (codes "replay") (codes "CFG") (codes "REC")) }
    ensures local { IfOk result (λ c. (out-Command c).has_globals ≡ false) }
{
    word_behind(
        alloc,
        "replay",
        "Runs the session that a record holds, and writes the report of what was sent",
        cfg_word(alloc),
        "REC",
        "The file of the record",
    )
}

/// `explain CFG REC` and `explain --blocks CFG REC`.
pub fn explain_command<'a>(alloc: Global) -> Result<Command<'a>, AllocError>
    ensures app { IfOk result (λ c. app_of c ≡ explain_shape) }
    ensures local { IfOk result (λ c. (out-Command c).has_globals ≡ false) }
{
    let about =
        "Says what each rule does to the first exchange of a record, and what its client is sent";
    let blocks = flag(
        alloc,
        "blocks",
        "Writes the blocks of the message behind each rule that ran",
    );
    let file = one_argument(alloc, "explain", about, blocks)?.arg(cfg_word(alloc))?;
    file.arg(word(alloc, "REC", "The file of the record"))
}

/// `weave CFG REC K`.
pub fn weave_command<'a>(alloc: Global) -> Result<Command<'a>, AllocError>
    ensures app { IfOk result (λ c. app_of c ≡ weave_shape) }
    ensures local { IfOk result (λ c. (out-Command c).has_globals ≡ false) }
{
    let about =
        "Runs the sessions that a record holds over shared cores, and writes the report of what was sent";
    let files = word_behind(
        alloc,
        "weave",
        about,
        cfg_word(alloc),
        "REC",
        "The file of the record",
    )?;
    files.arg(word(alloc, "K", "How many cores, 1 to 256"))
}

/// `serve CFG COUNT`.
pub fn serve_command<'a>(alloc: Global) -> Result<Command<'a>, AllocError>
    ensures app { IfOk result (λ c. app_of c ≡ two_words (codes "serve") (codes "CFG") (codes "COUNT")) }
    ensures local { IfOk result (λ c. (out-Command c).has_globals ≡ false) }
{
    word_behind(
        alloc,
        "serve",
        "Serves connections, one after another, and writes a line for each",
        cfg_word(alloc),
        "COUNT",
        "How many connections, 1 to 1000000",
    )
}

/// `run CFG` and the options that have numbers.
fn run_numbers<'a>(alloc: Global) -> Result<Command<'a>, AllocError>
    ensures app { IfOk result (λ c. app_of c ≡ run_numbers) }
    ensures local { IfOk result (λ c. (out-Command c).has_globals ≡ false) }
{
    let about = "Serves many connections at once, and writes a line for each once it is over";
    let file = one_argument(alloc, "run", about, cfg_word(alloc))?;
    let sets = option(
        alloc,
        "sets",
        "K",
        "How many are served at once, 1 to 4096; 256 where it isn't said",
    );
    let connections = option(
        alloc,
        "connections",
        "N",
        "Ends after so many connections, 1 to 1000000",
    );
    let workers = option(
        alloc,
        "workers",
        "W",
        "How many processes serve, 1 to 64; this one alone where it isn't said",
    );
    file.arg(sets)?.arg(connections)?.arg(workers)
}

/// `run CFG` and options.
pub fn run_command<'a>(alloc: Global) -> Result<Command<'a>, AllocError>
    ensures app { IfOk result (λ c. app_of c ≡ run_shape) }
    ensures local { IfOk result (λ c. (out-Command c).has_globals ≡ false) }
{
    let switch = flag(
        alloc,
        "until-input-ends",
        "Accepts nothing more once standard input has ended, and ends when all are served",
    );
    let log = flag(
        alloc,
        "log",
        "Writes a line for each exchange, beside that of each connection",
    );
    run_numbers(alloc)?.arg(switch)?.arg(log)
}

/// `drill SEED COUNT`.
pub fn drill_command<'a>(alloc: Global) -> Result<Command<'a>, AllocError>
    ensures app { IfOk result (λ c. app_of c ≡ two_words (codes "drill") (codes "SEED") (codes "COUNT")) }
    ensures local { IfOk result (λ c. (out-Command c).has_globals ≡ false) }
{
    word_behind(
        alloc,
        "drill",
        "Runs a session of generated exchanges, and writes what was sent",
        word(alloc, "SEED", "Where generating begins, 0 to 2147483647"),
        "COUNT",
        "How many exchanges, 0 to 4000",
    )
}

/// The program's own level.
fn top_command<'a>(alloc: Global) -> Command<'a>
    ensures app { app_of result ≡ top_level }
    ensures local { (out-Command result).has_globals ≡ false }
{
    Command::new(alloc, "htx_proxy")
        .version("0.1.0")
        .about("Rewrites HTTP exchanges by the rules of a configuration")
        .no_binary_name(true)
        .subcommand_required(true)
}

/// A level with one command more, where that could be made.
fn level_with<'a>(
    level: Command<'a>,
    made: Result<Command<'a>, AllocError>,
) -> Result<Command<'a>, AllocError>
    requires { IfOk made (λ c. (out-Command c).has_globals ≡ false) }
    ensures app { (below : App) → IfOk made.entry (λ c. app_of c ≡ below) → IfOk result (λ c. app_of c ≡ with_subcommand (app_of level.entry) below.top) }
{
    match made {
        Ok(command) => level.subcommand(command),
        Err(fault) => {
            drop(level);
            Err(fault)
        }
    }
}

/// A level with one command more, where both could be made.
fn with_command<'a>(
    level: Result<Command<'a>, AllocError>,
    made: Result<Command<'a>, AllocError>,
) -> Result<Command<'a>, AllocError>
    requires { IfOk made (λ c. (out-Command c).has_globals ≡ false) }
    ensures app { (above below : App) → IfOk level.entry (λ c. app_of c ≡ above) → IfOk made.entry (λ c. app_of c ≡ below)
        → IfOk result (λ c. app_of c ≡ with_subcommand above below.top) }
{
    match level {
        Ok(level) => level_with(level, made),
        Err(fault) => {
            drop(made);
            Err(fault)
        }
    }
}

/// The program's commands.
pub fn command<'a>(alloc: Global) -> Result<Command<'a>, AllocError>
    ensures { IfOk result (λ c. app_of c ≡ parser) }
{
    let check = with_command(Ok(top_command(alloc)), check_command(alloc));
    let replay = with_command(check, replay_command(alloc));
    let explain = with_command(replay, explain_command(alloc));
    let weave = with_command(explain, weave_command(alloc));
    let serve = with_command(weave, serve_command(alloc));
    let run = with_command(serve, run_command(alloc));
    with_command(run, drill_command(alloc))
}

//! The options of `run`, in any order, each at most once.
ghost use Rattle.std.specs.Prelude.{◌≡◌, map, string_bytes};
ghost use Rattle.px_command.specs.Options.{may_stand, nothing_said, number_within, options_behind, options_of, with_connections, with_flag, with_log, with_number, with_sets, with_soft_end, with_workers};

use crate::words::number;

/// What the words behind `run CFG` say.
#[derive(Clone, Copy)]
pub struct RunOptions {
    /// How many connections have a core at once, at most.
    pub sets: Option<u32>,
    /// Behind how many connections it ends. Where nothing is said of it, it goes on.
    pub connections: Option<u32>,
    /// How many processes serve. Where nothing is said of it, the one that was started does.
    pub workers: Option<u32>,
    /// Nothing more is accepted once standard input has ended.
    pub until_input_ends: bool,
    /// A line is written for each exchange.
    pub logs: bool,
}

/// What no word says.
fn no_options() -> RunOptions
    ensures { result ≡ nothing_said }
{
    RunOptions {
        sets: None,
        connections: None,
        workers: None,
        until_input_ends: false,
        logs: false,
    }
}

/// The number within bounds that a word is.
fn within(word: &str, least: u32, most: u32) -> Option<u32>
    ensures { result ≡ number_within least most word.now }
{
    number(word, least, most)
}

/// What is said with `--until-input-ends` more, where it wasn't said yet.
fn ended_softly(said: RunOptions) -> Option<RunOptions>
    ensures { result ≡ with_soft_end said }
{
    if said.until_input_ends {
        return None;
    }
    Some(RunOptions {
        until_input_ends: true,
        ..said
    })
}

/// The same of `--log`.
fn logged(said: RunOptions) -> Option<RunOptions>
    ensures { result ≡ with_log said }
{
    if said.logs {
        return None;
    }
    Some(RunOptions { logs: true, ..said })
}

/// What is said with this word more, where it is an option by itself that wasn't said yet.
fn flagged(said: RunOptions, word: &str) -> Option<RunOptions>
    ensures { result ≡ with_flag said word.now }
{
    if word == "--until-input-ends" {
        return ended_softly(said);
    }
    if word == "--log" {
        return logged(said);
    }
    None
}

/// What is said with this number of sets more, where none was said yet.
fn counted_sets(said: RunOptions, value: &str) -> Option<RunOptions>
    ensures { result ≡ with_sets said value.now }
{
    if said.sets.is_some() {
        return None;
    }
    let sets = within(value, 1, MOST_SETS)?;
    Some(RunOptions {
        sets: Some(sets),
        ..said
    })
}

/// The same of the number of connections.
fn counted_connections(said: RunOptions, value: &str) -> Option<RunOptions>
    ensures { result ≡ with_connections said value.now }
{
    if said.connections.is_some() {
        return None;
    }
    let connections = within(value, 1, MOST_CONNECTIONS)?;
    Some(RunOptions {
        connections: Some(connections),
        ..said
    })
}

/// The same of the number of workers.
fn counted_workers(said: RunOptions, value: &str) -> Option<RunOptions>
    ensures { result ≡ with_workers said value.now }
{
    if said.workers.is_some() {
        return None;
    }
    let workers = within(value, 1, MOST_WORKERS)?;
    Some(RunOptions {
        workers: Some(workers),
        ..said
    })
}

/// What is said with these two words more, where they are an option with its number, and it wasn't said yet.
fn numbered(said: RunOptions, name: &str, value: &str) -> Option<RunOptions>
    ensures { result ≡ with_number said name.now value.now }
{
    if name == "--sets" {
        return counted_sets(said, value);
    }
    if name == "--connections" {
        return counted_connections(said, value);
    }
    if name == "--workers" {
        return counted_workers(said, value);
    }
    None
}

/// The largest number of sets.
pub const MOST_SETS: u32 = 4096;

/// The largest number of connections behind which it ends.
pub const MOST_CONNECTIONS: u32 = 1000000;

/// The largest number of workers.
pub const MOST_WORKERS: u32 = 64;

/// What is said with these words more, where they are options that weren't said yet.
fn options_behind(said: RunOptions, words: &[String]) -> Option<RunOptions>
    ensures { result ≡ options_behind said (map string_bytes words.now) }
{
    let [word, rest @ ..] = words else {
        return Some(said);
    };
    if let Some(next) = flagged(said, word.as_str()) {
        return options_behind(next, rest);
    }
    let [value, behind @ ..] = rest else {
        return None;
    };
    let next = numbered(said, word.as_str(), value.as_str())?;
    options_behind(next, behind)
}

/// Whether the options may stand together.
fn stand(said: RunOptions) -> bool
    ensures { result ≡ may_stand said }
{
    said.workers.is_none() || (said.connections.is_none() && !said.until_input_ends)
}

/// The options that the words behind `run CFG` are.
pub fn options_of(words: &[String]) -> Option<RunOptions>
    ensures { result ≡ options_of (map string_bytes words.now) }
{
    let said = options_behind(no_options(), words)?;
    if !stand(said) {
        return None;
    }
    Some(said)
}

//! The lists of words that name a command, or a text of the program.
ghost use Rattle.std.specs.Prelude.{◌↔◌, ℕ, List, map, IsTrue, IfSome, IfNone, string_bytes};
ghost use Rattle.px_command.specs.Command.{IsFlagged, IsOfFiles, IsCheck, IsCheckAll, IsCheckPrint, IsCheckRecord, IsReplay, IsExplain, IsExplainBlocks, IsWeave, IsServe, IsRun, IsDrill, IsHelp, IsHelpOf, IsVersion};
ghost use Rattle.px_command.specs.declared.name.CommandName.{CommandName as Named};
ghost use Rattle.px_command.specs.declared.options.RunOptions.{RunOptions as Options};

use crate::name::CommandName;
use crate::options::{RunOptions, options_of};
use crate::words::{
    are_two, is_alone, is_file_word, number, one_behind, some_behind, three_behind, two_behind,
};

/// The file of `check CFG`.
pub fn check_file<'a>(words: &'a [String]) -> Option<&'a str>
    ensures some { IfSome result (λ cfg. IsCheck (map string_bytes words.now) cfg.now) }
    ensures none { IfNone result ((cfg : List ℕ) → IsCheck (map string_bytes words.now) cfg → ⊥) }
{
    let cfg = one_behind(words, "check")?;
    if !is_file_word(cfg) {
        return None;
    }
    Some(cfg)
}

/// The file behind `check` and this flag.
fn flagged_file<'a>(words: &'a [String], wanted: &str) -> Option<&'a str>
    ensures some { IfSome result (λ file. IsFlagged (map string_bytes words.now) wanted.now file.now) }
    ensures none { IfNone result ((file : List ℕ) → IsFlagged (map string_bytes words.now) wanted.now file → ⊥) }
{
    let (flag, file) = two_behind(words, "check")?;
    if flag != wanted {
        return None;
    }
    if !is_file_word(file) {
        return None;
    }
    Some(file)
}

/// The file of `check --all CFG`.
pub fn check_all_file<'a>(words: &'a [String]) -> Option<&'a str>
    ensures some { IfSome result (λ cfg. IsCheckAll (map string_bytes words.now) cfg.now) }
    ensures none { IfNone result ((cfg : List ℕ) → IsCheckAll (map string_bytes words.now) cfg → ⊥) }
{
    flagged_file(words, "--all")
}

/// The file of `check --print CFG`.
pub fn check_print_file<'a>(words: &'a [String]) -> Option<&'a str>
    ensures some { IfSome result (λ cfg. IsCheckPrint (map string_bytes words.now) cfg.now) }
    ensures none { IfNone result ((cfg : List ℕ) → IsCheckPrint (map string_bytes words.now) cfg → ⊥) }
{
    flagged_file(words, "--print")
}

/// The file of `check --record REC`.
pub fn check_record_file<'a>(words: &'a [String]) -> Option<&'a str>
    ensures some { IfSome result (λ rec. IsCheckRecord (map string_bytes words.now) rec.now) }
    ensures none { IfNone result ((rec : List ℕ) → IsCheckRecord (map string_bytes words.now) rec → ⊥) }
{
    flagged_file(words, "--record")
}

/// The two files behind this command.
fn files_behind<'a>(words: &'a [String], command: &str) -> Option<(&'a str, &'a str)>
    ensures some { IfSome result (λ files. IsOfFiles (map string_bytes words.now) command.now files.0.now files.1.now) }
    ensures none { IfNone result ((cfg rec : List ℕ) → IsOfFiles (map string_bytes words.now) command.now cfg rec → ⊥) }
{
    let (cfg, rec) = two_behind(words, command)?;
    if !is_file_word(cfg) || !is_file_word(rec) {
        return None;
    }
    Some((cfg, rec))
}

/// The two files of `replay CFG REC`.
pub fn replay_files<'a>(words: &'a [String]) -> Option<(&'a str, &'a str)>
    ensures some { IfSome result (λ files. IsReplay (map string_bytes words.now) files.0.now files.1.now) }
    ensures none { IfNone result ((cfg rec : List ℕ) → IsReplay (map string_bytes words.now) cfg rec → ⊥) }
{
    files_behind(words, "replay")
}

/// The two files of `explain CFG REC`.
pub fn explain_files<'a>(words: &'a [String]) -> Option<(&'a str, &'a str)>
    ensures some { IfSome result (λ files. IsExplain (map string_bytes words.now) files.0.now files.1.now) }
    ensures none { IfNone result ((cfg rec : List ℕ) → IsExplain (map string_bytes words.now) cfg rec → ⊥) }
{
    files_behind(words, "explain")
}

/// The two files of `explain --blocks CFG REC`.
pub fn explain_blocks_files<'a>(words: &'a [String]) -> Option<(&'a str, &'a str)>
    ensures some { IfSome result (λ files. IsExplainBlocks (map string_bytes words.now) files.0.now files.1.now) }
    ensures none { IfNone result ((cfg rec : List ℕ) → IsExplainBlocks (map string_bytes words.now) cfg rec → ⊥) }
{
    let (flag, cfg, rec) = three_behind(words, "explain")?;
    if flag != "--blocks" {
        return None;
    }
    if !is_file_word(cfg) || !is_file_word(rec) {
        return None;
    }
    Some((cfg, rec))
}

/// The two files and the number of cores of `weave CFG REC K`.
pub fn weave_words<'a>(words: &'a [String]) -> Option<(&'a str, &'a str, u32)>
    ensures some { IfSome result (λ told. IsWeave (map string_bytes words.now) told.0.now told.1.now told.2) }
    ensures none { IfNone result ((cfg rec : List ℕ) (cores : ℕ) → IsWeave (map string_bytes words.now) cfg rec cores → ⊥) }
{
    let (cfg, rec, count) = three_behind(words, "weave")?;
    if !is_file_word(cfg) || !is_file_word(rec) {
        return None;
    }
    let cores = number(count, 1, 256)?;
    Some((cfg, rec, cores))
}

/// The file and the number of connections of `serve CFG COUNT`.
pub fn serve_words<'a>(words: &'a [String]) -> Option<(&'a str, u32)>
    ensures some { IfSome result (λ told. IsServe (map string_bytes words.now) told.0.now told.1) }
    ensures none { IfNone result ((cfg : List ℕ) (connections : ℕ) → IsServe (map string_bytes words.now) cfg connections → ⊥) }
{
    let (cfg, count) = two_behind(words, "serve")?;
    if !is_file_word(cfg) {
        return None;
    }
    let connections = number(count, 1, 1000000)?;
    Some((cfg, connections))
}

/// The file and the options of `run CFG` and options.
pub fn run_words<'a>(words: &'a [String]) -> Option<(&'a str, RunOptions)>
    ensures some { IfSome result (λ told. IsRun (map string_bytes words.now) told.0.now told.1) }
    ensures none { IfNone result ((cfg : List ℕ) (options : Options) → IsRun (map string_bytes words.now) cfg options → ⊥) }
{
    let (cfg, behind) = some_behind(words, "run")?;
    if !is_file_word(cfg) {
        return None;
    }
    let options = options_of(behind)?;
    Some((cfg, options))
}

/// The seed and the number of exchanges of `drill SEED COUNT`.
pub fn drill_numbers(words: &[String]) -> Option<(u32, u32)>
    ensures some { IfSome result (λ told. IsDrill (map string_bytes words.now) told.0 told.1) }
    ensures none { IfNone result ((seed exchanges : ℕ) → IsDrill (map string_bytes words.now) seed exchanges → ⊥) }
{
    let (first, second) = two_behind(words, "drill")?;
    let seed = number(first, 0, 2147483647)?;
    let exchanges = number(second, 0, 4000)?;
    Some((seed, exchanges))
}

/// Whether the words ask for the text of help.
pub fn asks_help(words: &[String]) -> bool
    ensures { IsTrue result ↔ IsHelp (map string_bytes words.now) }
{
    is_alone(words, "--help") || is_alone(words, "-h") || is_alone(words, "help")
}

/// Whether the words ask for the version.
pub fn asks_version(words: &[String]) -> bool
    ensures { IsTrue result ↔ IsVersion (map string_bytes words.now) }
{
    is_alone(words, "--version") || is_alone(words, "-V")
}

/// Whether the words ask for the help of a command.
fn asks_help_of(words: &[String], command: CommandName) -> bool
    ensures { IsTrue result ↔ IsHelpOf (map string_bytes words.now) command }
{
    let name = command.word();
    are_two(words, name, "--help") || are_two(words, name, "-h") || are_two(words, "help", name)
}

/// The command whose help the words ask for.
pub fn help_command(words: &[String]) -> Option<CommandName>
    ensures some { IfSome result (IsHelpOf (map string_bytes words.now)) }
    ensures none { IfNone result ((command : Named) → IsHelpOf (map string_bytes words.now) command → ⊥) }
{
    if asks_help_of(words, CommandName::Check) {
        return Some(CommandName::Check);
    }
    if asks_help_of(words, CommandName::Replay) {
        return Some(CommandName::Replay);
    }
    if asks_help_of(words, CommandName::Explain) {
        return Some(CommandName::Explain);
    }
    if asks_help_of(words, CommandName::Weave) {
        return Some(CommandName::Weave);
    }
    if asks_help_of(words, CommandName::Serve) {
        return Some(CommandName::Serve);
    }
    if asks_help_of(words, CommandName::Run) {
        return Some(CommandName::Run);
    }
    if asks_help_of(words, CommandName::Drill) {
        return Some(CommandName::Drill);
    }
    None
}

//! The texts that commands make of their files. The first step that is refused decides: configuration file, configuration, record
//! file, record, session.
ghost use Rattle.std.specs.Prelude.{◌≡◌, ◌+◌, ◌<◌, ◌≤◌, ◌⊎◌, length, vec_len, true, false, ℕ, List, Option, Ok, IfOk, IfErr, OnOk};
ghost use Rattle.px_link.specs.Told.{NamedBytes, Reads};
ghost use Rattle.http_rules.specs.Valid.{IsValid};
ghost use Rattle.px_command.specs.Command.{IsCheck, IsCheckAll, IsCheckPrint, IsCheckRecord, IsReplay, IsExplain, IsExplainBlocks, IsWeave, IsDrill, NamesConfig};
ghost use Rattle.rec_format.specs.Numbered.{IsNumbered};
ghost use Rattle.rec_format.specs.Read.{meaning_of};
ghost use Rattle.rec_format.specs.Reports.{Reportable};
ghost use Rattle.proxy_commands.specs.Files.{IfTold, Builder, Configured, IsBuilt, Say, told_by};
ghost use Rattle.proxy_commands.specs.Stops.{Answers, ReadStops, SaysVerdict, StopsBy, given};
ghost use Rattle.proxy_commands.specs.Lines.{accepted_line};
ghost use Rattle.proxy_commands.specs.Modes.{RunsSo, refuses};

use crate::explaining::{block_explanation, explanation};
use crate::lines::accepted_line;
use crate::record_command::{RecordCommand, refuses};
use crate::refusals::refused_text;
use crate::stop::{Stop, WHOLE};
use cfg_parse::{CfgKind, Config, MAX_TEXT, Verdict, load, verdict_of};
use cfg_print::print_config;
use http_model::OutOfMemory;
use proxy_sessions::{drill_lines, replay_report, weave_report};
use px_link::{Bytes, Fault, Files};
use px_pattern::Patterns;
use rec_format::laws::{numbered, reportable};
use rec_format::{Record, read_record, write_record};
use std::alloc::Global;

/// The most bytes of a record.
const MAX_RECORD: usize = 67108864;

/// The first `limit` bytes of a file.
fn read<'a, F: Files>(
    alloc: Global,
    files: &mut F,
    name: &'a str,
    limit: usize,
) -> Result<Bytes, Stop<'a>>
    ensures bytes { IfOk result (λ bytes. Reads (F.files files.old) name.now limit bytes) }
    ensures stop { IfErr result (ReadStops name.now (F.last_failed files.new) (F.faults files.old) (F.faults files.new)) }
    ensures grows { F.faults files.old ≤ F.faults files.new }
    ensures files { F.files files.new ≡ F.files files.old }
{
    match files.read_file(alloc, name, limit) {
        Ok(bytes) => Ok(bytes),
        Err(Fault::Failed) => Err(Stop::File { name }),
        Err(Fault::OutOfMemory) => Err(Stop::OutOfMemory),
    }
}

/// The configuration that a file says.
pub fn configuration<'a, F: Files, P: Patterns>(
    alloc: Global,
    files: &mut F,
    name: &'a str,
    pats: &mut P,
) -> Result<Config, Stop<'a>>
    ensures accepted { IfOk result (λ cfg. IfTold (F.files files.old) (λ fs. Configured fs name.now (Ok cfg))) }
    ensures valid { IfOk result IsValid }
    ensures built { OnOk result (P.refusals pats.new ≡ P.refusals pats.old) }
    ensures stop { (words : List (List ℕ)) → NamesConfig words name.now
        → IfErr result (StopsBy (given words (F.files files.old) (told_by (P.refusals pats.old) (P.refusals pats.new) (P.last_refused pats.new)) (F.last_failed files.new) (F.faults files.old) (F.faults files.new))) }
    ensures grows { F.faults files.old ≤ F.faults files.new }
    ensures files { F.files files.new ≡ F.files files.old }
{
    let text = read(alloc, files, name, MAX_TEXT + 1)?;
    let cfg = load(alloc, text.as_slice(), pats)?;
    Ok(cfg)
}

/// The configuration that a file says, where the command takes it.
fn taken_configuration<'a, F: Files, P: Patterns>(
    alloc: Global,
    files: &mut F,
    name: &'a str,
    command: RecordCommand,
    pats: &mut P,
) -> Result<Config, Stop<'a>>
    ensures accepted { IfOk result (λ cfg. IfTold (F.files files.old) (λ fs. Configured fs name.now (Ok cfg))) }
    ensures taken { IfOk result (λ cfg. refuses command cfg ≡ false) }
    ensures valid { IfOk result IsValid }
    ensures built { OnOk result (P.refusals pats.new ≡ P.refusals pats.old) }
    ensures stop { (words : List (List ℕ)) (rec_name : List ℕ) → RunsSo command words name.now rec_name
        → IfErr result (StopsBy (given words (F.files files.old) (told_by (P.refusals pats.old) (P.refusals pats.new) (P.last_refused pats.new)) (F.last_failed files.new) (F.faults files.old) (F.faults files.new))) }
    ensures grows { F.faults files.old ≤ F.faults files.new }
    ensures files { F.files files.new ≡ F.files files.old }
{
    let cfg = configuration(alloc, files, name, pats)?;
    if refuses(command, &cfg) {
        drop(cfg);
        return Err(Stop::Refused {
            line: WHOLE,
            kind: CfgKind::Mode,
        });
    }
    Ok(cfg)
}

/// The line of an accepted configuration.
fn counts_line(alloc: Global, cfg: &Config) -> Result<Bytes, OutOfMemory>
    ensures { IfOk result (λ line. line ≡ accepted_line (length cfg.now.request) (length cfg.now.response + length cfg.now.after) (length cfg.now.req_filters + length cfg.now.res_filters)) }
{
    let answers = cfg.answer_rule_count();
    accepted_line(alloc, cfg.request.len(), answers, cfg.filter_count())
}

/// The line of `check CFG` for an accepted configuration.
pub fn check<'a, F: Files, P: Patterns>(
    alloc: Global,
    files: &mut F,
    name: &'a str,
    pats: &mut P,
) -> Result<Bytes, Stop<'a>>
    ensures { (words : List (List ℕ)) → IsCheck words name.now
        → Answers (given words (F.files files.old) (told_by (P.refusals pats.old) (P.refusals pats.new) (P.last_refused pats.new)) (F.last_failed files.new) (F.faults files.old) (F.faults files.new)) result }
{
    let cfg = configuration(alloc, files, name, pats)?;
    Ok(counts_line(alloc, &cfg)?)
}

/// What `check --all` says of a configuration's text, in the file of this name.
fn verdict_text<'a>(alloc: Global, name: &'a str, verdict: Verdict) -> Result<Bytes, Stop<'a>>
    ensures { SaysVerdict name.now verdict result }
{
    match verdict {
        Verdict::Accepted(cfg) => Ok(counts_line(alloc, &cfg)?),
        Verdict::Refused(refused) => {
            let text = refused_text(alloc, name, &refused)?;
            Err(Stop::RefusedAll { text })
        }
    }
}

/// The line of `check --all CFG` for an accepted configuration, or each of its refused lines.
pub fn check_all<'a, F: Files, P: Patterns>(
    alloc: Global,
    files: &mut F,
    name: &'a str,
    pats: &mut P,
) -> Result<Bytes, Stop<'a>>
    ensures { (words : List (List ℕ)) → IsCheckAll words name.now
        → Answers (given words (F.files files.old) (told_by (P.refusals pats.old) (P.refusals pats.new) (P.last_refused pats.new)) (F.last_failed files.new) (F.faults files.old) (F.faults files.new)) result }
{
    let text = read(alloc, files, name, MAX_TEXT + 1)?;
    let verdict = verdict_of(alloc, text.as_slice(), pats)?;
    verdict_text(alloc, name, verdict)
}

/// The canonical text of `check --print CFG`.
pub fn check_print<'a, F: Files, P: Patterns>(
    alloc: Global,
    files: &mut F,
    name: &'a str,
    pats: &mut P,
) -> Result<Bytes, Stop<'a>>
    ensures { (words : List (List ℕ)) → IsCheckPrint words name.now
        → Answers (given words (F.files files.old) (told_by (P.refusals pats.old) (P.refusals pats.new) (P.last_refused pats.new)) (F.last_failed files.new) (F.faults files.old) (F.faults files.new)) result }
{
    let cfg = configuration(alloc, files, name, pats)?;
    let text = print_config(alloc, &cfg)?;
    Ok(text)
}

/// The record of `check --record REC`, in the second format.
pub fn check_record<'a, F: Files>(
    alloc: Global,
    files: &mut F,
    name: &'a str,
) -> Result<Bytes, Stop<'a>>
    ensures { (words : List (List ℕ)) (builder : Builder) → IsCheckRecord words name.now → IsBuilt builder
        → Answers (given words (F.files files.old) builder (F.last_failed files.new) (F.faults files.old) (F.faults files.new)) result }
{
    let text = read(alloc, files, name, MAX_RECORD + 1)?;
    let record = read_record(alloc, text.as_slice())?;
    Ok(write_record(alloc, &record)?)
}

/// What the two files of `replay`, of `explain` and of `weave` say.
#[derive(Drop)]
pub struct TwoFiles {
    pub config: Config,
    pub record: Record,
}

/// The configuration and the record of two files, which are read in this order.
fn two_files<'a, F: Files, P: Patterns>(
    alloc: Global,
    files: &mut F,
    cfg_name: &'a str,
    rec_name: &'a str,
    command: RecordCommand,
    pats: &mut P,
) -> Result<TwoFiles, Stop<'a>>
    ensures taken { IfOk result (λ said. refuses command said.config ≡ false) }
    ensures say { IfOk result (λ said. IfTold (F.files files.old) (λ fs. Say fs cfg_name.now rec_name.now said.config (meaning_of said.record))) }
    ensures valid { IfOk result (λ said. IsValid said.config) }
    ensures reportable { IfOk result (λ said. Reportable said.record.version (vec_len said.record.conns)) }
    ensures numbered { IfOk result (λ said. IsNumbered (meaning_of said.record)) }
    ensures some { IfOk result (λ said. 0 < vec_len said.record.conns) }
    ensures built { OnOk result (P.refusals pats.new ≡ P.refusals pats.old) }
    ensures stop { (words : List (List ℕ)) → RunsSo command words cfg_name.now rec_name.now
        → IfErr result (StopsBy (given words (F.files files.old) (told_by (P.refusals pats.old) (P.refusals pats.new) (P.last_refused pats.new)) (F.last_failed files.new) (F.faults files.old) (F.faults files.new))) }
{
    let config = taken_configuration(alloc, files, cfg_name, command, pats)?;
    let text = read(alloc, files, rec_name, MAX_RECORD + 1)?;
    let record = read_record(alloc, text.as_slice())?;
    reportable();
    numbered();
    Ok(TwoFiles { config, record })
}

/// The report of `replay CFG REC`.
pub fn replay<'a, F: Files, P: Patterns>(
    alloc: Global,
    files: &mut F,
    cfg_name: &'a str,
    rec_name: &'a str,
    pats: &mut P,
) -> Result<Bytes, Stop<'a>>
    ensures { (words : List (List ℕ)) → IsReplay words cfg_name.now rec_name.now
        → Answers (given words (F.files files.old) (told_by (P.refusals pats.old) (P.refusals pats.new) (P.last_refused pats.new)) (F.last_failed files.new) (F.faults files.old) (F.faults files.new)) result }
{
    let said = two_files(
        alloc,
        files,
        cfg_name,
        rec_name,
        RecordCommand::Replay,
        pats,
    )?;
    Ok(replay_report(alloc, &said.config, &said.record)?)
}

/// What `explain CFG REC` tells.
pub fn explain<'a, F: Files, P: Patterns>(
    alloc: Global,
    files: &mut F,
    cfg_name: &'a str,
    rec_name: &'a str,
    pats: &mut P,
) -> Result<Bytes, Stop<'a>>
    ensures { (words : List (List ℕ)) → IsExplain words cfg_name.now rec_name.now
        → Answers (given words (F.files files.old) (told_by (P.refusals pats.old) (P.refusals pats.new) (P.last_refused pats.new)) (F.last_failed files.new) (F.faults files.old) (F.faults files.new)) result }
{
    let said = two_files(
        alloc,
        files,
        cfg_name,
        rec_name,
        RecordCommand::Explain,
        pats,
    )?;
    Ok(explanation(alloc, &said.config, &said.record)?)
}

/// What `explain --blocks CFG REC` tells.
pub fn explain_blocks<'a, F: Files, P: Patterns>(
    alloc: Global,
    files: &mut F,
    cfg_name: &'a str,
    rec_name: &'a str,
    pats: &mut P,
) -> Result<Bytes, Stop<'a>>
    ensures { (words : List (List ℕ)) → IsExplainBlocks words cfg_name.now rec_name.now
        → Answers (given words (F.files files.old) (told_by (P.refusals pats.old) (P.refusals pats.new) (P.last_refused pats.new)) (F.last_failed files.new) (F.faults files.old) (F.faults files.new)) result }
{
    let said = two_files(
        alloc,
        files,
        cfg_name,
        rec_name,
        RecordCommand::Explain,
        pats,
    )?;
    Ok(block_explanation(alloc, &said.config, &said.record)?)
}

/// The report of `weave CFG REC K`.
pub fn weave<'a, F: Files, P: Patterns>(
    alloc: Global,
    files: &mut F,
    cfg_name: &'a str,
    rec_name: &'a str,
    cores: u32,
    pats: &mut P,
) -> Result<Bytes, Stop<'a>>
    requires { 0 < cores }
    ensures { (words : List (List ℕ)) → IsWeave words cfg_name.now rec_name.now cores
        → Answers (given words (F.files files.old) (told_by (P.refusals pats.old) (P.refusals pats.new) (P.last_refused pats.new)) (F.last_failed files.new) (F.faults files.old) (F.faults files.new)) result }
{
    let said = two_files(alloc, files, cfg_name, rec_name, RecordCommand::Weave, pats)?;
    Ok(weave_report(alloc, &said.config, &said.record, cores)?)
}

/// The lines of `drill SEED COUNT`. The configuration of generated sessions is accepted, so only memory can be in the way.
pub fn drill<'a, P: Patterns>(
    alloc: Global,
    seed: u32,
    exchanges: u32,
    pats: &mut P,
) -> Result<Bytes, Stop<'a>>
    ensures { (words : List (List ℕ)) (files : Option (List NamedBytes)) (last : List ℕ) (reads reads_now : ℕ) → IsDrill words seed exchanges
        → Answers (given words files (told_by (P.refusals pats.old) (P.refusals pats.new) (P.last_refused pats.new)) last reads reads_now) result }
{
    let cfg = load(alloc, htx_drive::drill::configuration(), pats)?;
    Ok(drill_lines(alloc, &cfg, seed, exchanges)?)
}

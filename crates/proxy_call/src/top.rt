//! The program's one call.
ghost use Rattle.std.specs.Prelude.{◌≡◌, ◌⊎◌, ℕ, List, Option, map, string_bytes, Some};
ghost use Rattle.px_link.specs.Net.{Coming, Kept, address_of, with_address};
ghost use Rattle.px_link.specs.Told.{NamedBytes, Rose, Gains};
ghost use Rattle.px_command.specs.Command.{IsServe, IsUsage};
ghost use Rattle.px_command.specs.Texts.{EndsLine};
ghost use Rattle.serve_run.specs.Lines.{net_line};
ghost use Rattle.serve_run.specs.Served.{Breaks, NetFails, ServedAll};
ghost use Rattle.serve_run.specs.Told.{Visited};
ghost use Rattle.proxy_commands.specs.Lines.{file_line};
ghost use Rattle.proxy_call.specs.Ends.{RunsTo};
ghost use Rattle.proxy_commands.specs.Running.{NamesRun};
ghost use Rattle.proxy_sessions.specs.Running.{Runs};
ghost use Rattle.proxy_commands.specs.Answers.{IsGood, IsRefusal, IsRefusedBy, IsRecordRefusedOf, DecidesRecord, DecidesBy, NamesServe, WritesFront};
ghost use Rattle.proxy_call.specs.Due.{IsDue};
ghost use Rattle.proxy_commands.specs.Files.{told_by};
ghost use Rattle.proxy_commands.specs.Serving.{Serving};
ghost use Rattle.proxy_sessions.specs.Serving.{GainsBind, LostBy, ServedBy};

use fcgi_link::AsksApplication;
use proxy_commands::{Networks, Status, end, run};
use proxy_sessions::{Switch, Workers};
use px_link::{Files, Link, Net, Sink, Waits, WaitsNet, Wakes};
use px_pattern::Patterns;
use px_proxyproto::{HasPair, Introduces};
use px_run::Nets;
use std::alloc::Global;

/// The program: reads the words, runs the command that they name, and writes what it came to. Only `serve` makes calls on its net, and only `run` has
/// a use for its own. `pats` builds the patterns of a configuration.
pub fn htx_proxy<
    F: Files,
    H: Link + HasPair,
    N: Net<Link = H> + Introduces + AsksApplication,
    L: Waits + HasPair + Drop,
    M: WaitsNet<Link = L> + Introduces + AsksApplication + Drop,
    S: Nets<M> + Switch + Workers<M>,
    W: Wakes<M>,
    K: Sink,
    P: Patterns,
>(
    alloc: Global,
    words: &[String],
    files: &mut F,
    nets: &mut Networks<N, M, S, W>,
    out: &mut K,
    pats: &mut P,
) -> Status
    // Good has written what the words ask for, and nothing else. What `serve` and `run` did follows.
    ensures good { result ≡ Status.Good → NamesServe (map string_bytes words.now) ⊎ (NamesRun (map string_bytes words.now)
        ⊎ ((text : List ℕ) × IsGood (map string_bytes words.now) (F.files files.old) text × Gains (K.written out.old) (K.written out.new) text)) }

    // Good of `serve`: the net was bound, so many connections were served by the configuration, one after another, and their lines
    // were written and nothing else.
    ensures served { result ≡ Status.Good → NamesServe (map string_bytes words.now) → Serving (map string_bytes words.now) (F.files files.old)
        (λ cfg count. ServedAll N.seen (ServedBy H.seen H.wrote H.tells N.seen cfg) (address_of cfg.bind) count nets.old.serve nets.new.serve (K.written out.old) (K.written out.new)) }

    // Where the net tells its links, so many were accepted, in order, and each connection's servers and then its client were kept.
    ensures told { (cfg_name : List ℕ) (count : ℕ) → IsServe (map string_bytes words.now) cfg_name count → result ≡ Status.Good
        → (coming : List Coming) (answers : List (Option Coming)) (kept : List Kept)
        → (N.seen nets.old.serve).accepts ≡ Some coming → (N.seen nets.old.serve).answers ≡ Some answers → (N.seen nets.old.serve).kept ≡ Some kept
        → Visited (N.seen nets.new.serve) coming kept count }

    // Good of `run`: it did what running by the configuration does.
    ensures ran { result ≡ Status.Good → NamesRun (map string_bytes words.now)
        → RunsTo (map string_bytes words.now) (F.files files.old) (Runs L.seen L.wrote L.tells M.seen (S.accepts_none nets.new.run.nets) nets.old.run.net nets.new.run.net (K.faults out.old) (K.faults out.new) (K.written out.old) (K.written out.new)) result }

    // Good, and NetFault where `serve` or `run` had accepted its configuration, come only where the builder refused no pattern.
    ensures built { result ≡ Status.Good → P.refusals pats.new ≡ P.refusals pats.old }
    ensures net_built { result ≡ Status.NetFault → P.refusals pats.new ≡ P.refusals pats.old }

    // Usage comes only for words that are no command, and has written a usage text.
    ensures usage { result ≡ Status.Usage → IsUsage (map string_bytes words.now)
        × (text : List ℕ) × EndsLine text × Gains (K.written out.old) (K.written out.new) text }

    // Config comes only where the configuration is refused, and has written the line and what is wrong there: Pattern only
    // where the builder refused a pattern of the file, and it was the last one. Of `check --all` it has written each refused line.
    ensures config { result ≡ Status.Config → (text : List ℕ)
        × IsRefusedBy (map string_bytes words.now) (F.files files.old) (told_by (P.refusals pats.old) (P.refusals pats.new) (P.last_refused pats.new)) text × Gains (K.written out.old) (K.written out.new) text }

    // Record comes only where the record is refused, and has written the first byte of the line and what must stand there.
    ensures record_refused { result ≡ Status.Record → (name : List ℕ) × DecidesRecord (map string_bytes words.now) (F.files files.old) (told_by (P.refusals pats.old) (P.refusals pats.new) (P.last_refused pats.new)) name
        × (text : List ℕ) × IsRecordRefusedOf (F.files files.old) name text × Gains (K.written out.old) (K.written out.new) text }

    // A fault has its cause in the object that was handed in. The file is the one that decides: the record's only where the
    // configuration is accepted, each of its patterns built.
    ensures file_fault { result ≡ Status.FileFault → Rose (F.faults files.old) (F.faults files.new) }
    ensures file_name { result ≡ Status.FileFault → DecidesBy (map string_bytes words.now) (F.files files.old) (told_by (P.refusals pats.old) (P.refusals pats.new) (P.last_refused pats.new)) (F.last_failed files.new) }
    ensures file_line { result ≡ Status.FileFault → Gains (K.written out.old) (K.written out.new) (file_line (F.last_failed files.new)) }
    ensures out_fault { result ≡ Status.OutFault → Rose (K.faults out.old) (K.faults out.new) }

    // NetFault comes only in `serve`, where a bind or an accept failed, and its count rose, and the lines of exactly the connections before it
    // and then `net` were written; and in `run`, by what that does.
    ensures net_fault { result ≡ Status.NetFault → Serving (map string_bytes words.now) (F.files files.old)
        (λ cfg count. NetFails N.seen (ServedBy H.seen H.wrote H.tells N.seen cfg) (address_of cfg.bind) count net_line nets.old.serve nets.new.serve (K.written out.old) (K.written out.new))
        ⊎ RunsTo (map string_bytes words.now) (F.files files.old) (Runs L.seen L.wrote L.tells M.seen (S.accepts_none nets.new.run.nets) nets.old.run.net nets.new.run.net (K.faults out.old) (K.faults out.new) (K.written out.old) (K.written out.new)) result }

    // With a fault of the output a prefix of what another status would have written was written: the line of a file only where the files'
    // count rose, a good text, and lines of `serve`, only where the builder refused no pattern. It is said of each link that `serve` accepted
    // what was done with it; any other command left the net as it was.
    ensures front { result ≡ Status.OutFault
        → (WritesFront (map string_bytes words.now) (F.files files.old) (told_by (P.refusals pats.old) (P.refusals pats.new) (P.last_refused pats.new)) (F.last_failed files.new) (F.faults files.old) (F.faults files.new) (K.written out.old) (K.written out.new)
        × (nets.new.serve ≡ nets.old.serve))
        ⊎ ((P.refusals pats.new ≡ P.refusals pats.old) × Serving (map string_bytes words.now) (F.files files.old)
        (λ cfg count. Breaks N.seen (ServedBy H.seen H.wrote H.tells N.seen cfg) (LostBy H.seen H.wrote H.tells N.seen cfg) (address_of cfg.bind) count nets.old.serve nets.new.serve (K.written out.old) (K.written out.new))) }

    // Where memory ran out, nothing or such a prefix was written, and so it is said of each link that `serve` accepted: the session in hand was given up,
    // and its links were written a prefix of one. Or it ran out in `run`, by what that does.
    ensures memory { result ≡ Status.OutOfMemory
        → (((K.written out.new ≡ K.written out.old)
        ⊎ WritesFront (map string_bytes words.now) (F.files files.old) (told_by (P.refusals pats.old) (P.refusals pats.new) (P.last_refused pats.new)) (F.last_failed files.new) (F.faults files.old) (F.faults files.new) (K.written out.old) (K.written out.new))
        × (nets.new.serve ≡ nets.old.serve))
        ⊎ (((P.refusals pats.new ≡ P.refusals pats.old) × Serving (map string_bytes words.now) (F.files files.old)
        (λ cfg count. Breaks N.seen (ServedBy H.seen H.wrote H.tells N.seen cfg) (LostBy H.seen H.wrote H.tells N.seen cfg) (address_of cfg.bind) count nets.old.serve nets.new.serve (K.written out.old) (K.written out.new)))
        ⊎ ((P.refusals pats.new ≡ P.refusals pats.old) × RunsTo (map string_bytes words.now) (F.files files.old) (Runs L.seen L.wrote L.tells M.seen (S.accepts_none nets.new.run.nets) nets.old.run.net nets.new.run.net (K.faults out.old) (K.faults out.new) (K.written out.old) (K.written out.new)) result)) }

    // The net gains at most the configuration's address among those of binds, and has it where `serve` answers Good.
    ensures binds { result ≡ Status.Good → NamesServe (map string_bytes words.now) → Serving (map string_bytes words.now) (F.files files.old)
        (λ cfg count. GainsBind (N.seen nets.old.serve) (N.seen nets.new.serve) cfg) }
    ensures bound { ((N.seen nets.new.serve).bound ≡ (N.seen nets.old.serve).bound)
        ⊎ Serving (map string_bytes words.now) (F.files files.old) (λ cfg count. GainsBind (N.seen nets.old.serve) (N.seen nets.new.serve) cfg) }

    // It gains at most the configuration's server among those of connects, and has back each link that it lent.
    ensures dialled { ((N.seen nets.new.serve).dialled ≡ (N.seen nets.old.serve).dialled)
        ⊎ Serving (map string_bytes words.now) (F.files files.old) (λ cfg count. (N.seen nets.new.serve).dialled ≡ with_address (N.seen nets.old.serve).dialled (address_of cfg.server)) }
    ensures lent { (N.seen nets.new.serve).lent ≡ (N.seen nets.old.serve).lent }

    // Whatever the words are, a refusal of them, of a configuration, of a record or of a file leaves the net as it was. So does each answer to
    // words other than those of `serve`.
    ensures refused { IsRefusal result → nets.new.serve ≡ nets.old.serve }
    ensures untouched { (NamesServe (map string_bytes words.now) → ⊥) → nets.new.serve ≡ nets.old.serve }

    // What `run` is handed is as it was behind each such refusal, and whatever comes of other words; else `run` did what it does.
    ensures refused_idle { IsRefusal result → nets.new.run ≡ nets.old.run }
    ensures idle { (NamesRun (map string_bytes words.now) → ⊥) → nets.new.run ≡ nets.old.run }
    ensures left_idle { (nets.new.run ≡ nets.old.run) ⊎ RunsTo (map string_bytes words.now) (F.files files.old) (Runs L.seen L.wrote L.tells M.seen (S.accepts_none nets.new.run.nets) nets.old.run.net nets.new.run.net (K.faults out.old) (K.faults out.new) (K.written out.old) (K.written out.new)) result }

    // Where nothing failed, only memory is in the way of the status that words and files call for.
    ensures complete { (fs : List NamedBytes) → F.files files.old ≡ Some fs
        → (status : Status) → IsDue (map string_bytes words.now) fs status
        → (Rose (F.faults files.old) (F.faults files.new) → ⊥) → (Rose (K.faults out.old) (K.faults out.new) → ⊥)
        → (Rose (P.refusals pats.old) (P.refusals pats.new) → ⊥)
        → (NamesServe (map string_bytes words.now) → Rose (N.seen nets.old.serve).bind_faults (N.seen nets.new.serve).bind_faults → ⊥)
        → (result ≡ status) ⊎ (result ≡ Status.OutOfMemory) }
{
    match run(alloc, words, files, nets, out, pats) {
        Ok(()) => Status::Good,
        Err(stop) => end(alloc, stop, out),
    }
}

//! Reads from an open server and writes to it.
ghost use Rattle.std.specs.Prelude.{◌≡◌, ◌<◌, ◌⊎◌, ◌++◌, ◌∷◌, [], List, true, false, IsErrOf, ℕ, ◌≤◌, length, take};
ghost use Rattle.session_core.specs.History.{Past, Connect};
ghost use Rattle.px_link.specs.Link.{Writes};
ghost use Rattle.htx_drive.specs.Driven.{Linked, ServerMoves, Ends};
ghost use Rattle.htx_drive.specs.Turned.{most_of_server};
ghost use Rattle.htx_drive.specs.declared.act.Act.TheVariants as act;

use crate::resources::{MOST_AHEAD, MOST_KEPT, MOST_READ};
use crate::{Machine, SessionFault};
use px_link::{Ending, Failed, Fault, Link};

/// How many bytes the next read of its server asks for at most.
fn most_wanted<C: Machine>(core: &C) -> usize
    requires wanted { (C.seen core.now).wants.server_read ≡ true }
    requires sound { C.sound core.now }
    ensures some { 0 < result }
    ensures most { result ≤ most_of_server }
    ensures fits { (result ≤ (C.seen core.now).server_room) ⊎ C.at_once core.now result }
{
    let kept = match core.status() {
        Some(_) => MOST_KEPT,
        None => MOST_AHEAD,
    };
    MOST_READ
        .min(core.at_once())
        .max(kept.min(core.server_room()))
}

/// One read of the server's link into this buffer, whose end and whose failure are endings.
pub(crate) fn read_server<C: Machine, L: Link>(
    core: &mut C,
    link: &mut L,
    buffer: &mut [u8; MOST_READ],
    most: u32,
)
    requires wanted { (C.seen core.old).wants.server_read ≡ true }
    requires most { 0 < most }
    requires sound { C.sound core.old }
    ensures sound { C.sound core.new }
    ensures moves { (cfg : C.Settings) (first : L) (before : List Connect) (past : Past) (c : Connect) → C.stands cfg core.old past → past.connects ≡ before ++ c ∷ [] → Linked L.seen L.wrote first link.old c
        → ServerMoves (act.ServerRead most) (C.stands cfg core.new) L.seen L.wrote first link.new before past c }
    ensures serving { (C.seen core.new).serving ≡ (C.seen core.old).serving }
{
    let n = most_wanted(core).min(most as usize);
    match link.read(&mut buffer[..n]) {
        Ok(given) => {
            if given == 0 {
                core.server_ended(Ending::Closed);
            } else {
                core.from_server(&buffer[..given]);
            }
        }
        Err(Failed) => core.server_ended(Ending::Broke),
    }
}

/// Writes at most so many of the bytes that wait for the server. The core stays as it is.
fn offer_server<C: Machine, L: Link>(core: &mut C, link: &mut L, most: u32) -> Result<usize, Fault>
    requires some { 0 < length (C.seen core.old).to_server }
    requires most { 0 < most }
    requires sound { C.sound core.old }
    ensures same { core.new ≡ core.old }
    ensures writes { (n : ℕ) × (n ≤ most) × Writes (L.wrote link.old) (L.wrote link.new) (L.seen link.old) (L.seen link.new) (take n (C.seen core.old).to_server) result }
{
    let window: &[u8] = core.to_server();
    let n = window.len().min(most as usize);
    link.write(&window[..n])
}

/// One write of the server's link; where it fails the server has stopped taking.
pub(crate) fn write_server<C: Machine, L: Link>(
    core: &mut C,
    link: &mut L,
    most: u32,
) -> Result<(), SessionFault>
    requires wanted { (C.seen core.old).wants.server_write ≡ true }
    requires most { 0 < most }
    requires sound { C.sound core.old }
    ensures sound { C.sound core.new }
    ensures moves { (cfg : C.Settings) (first : L) (before : List Connect) (past : Past) (c : Connect) → C.stands cfg core.old past → past.connects ≡ before ++ c ∷ [] → Linked L.seen L.wrote first link.old c
        → Ends result (λ _. ServerMoves (act.ServerWrite most) (C.stands cfg core.new) L.seen L.wrote first link.new before past c) (λ failed. (failed ≡ false) × C.stands cfg core.new past × Linked L.seen L.wrote first link.new c) }
    ensures unspent { IsErrOf result SessionFault.Spent → ⊥ }
    ensures serving { (C.seen core.new).serving ≡ (C.seen core.old).serving }
{
    match offer_server(core, link, most) {
        Ok(taken) => {
            core.server_took(taken);
            Ok(())
        }
        Err(Fault::Failed) => {
            core.server_stopped();
            Ok(())
        }
        Err(Fault::OutOfMemory) => Err(SessionFault::OutOfMemory),
    }
}

//! Reads from the client and writes to it.
ghost use Rattle.std.specs.Prelude.{◌≡◌, ◌<◌, true, false, IsErrOf, ℕ, ◌≤◌, length, take};
ghost use Rattle.session_core.specs.History.{Past};
ghost use Rattle.px_link.specs.Link.{Writes};
ghost use Rattle.htx_drive.specs.Driven.{Idle, ClientMoves, Ends};
ghost use Rattle.htx_drive.specs.declared.act.Act.TheVariants as act;

use crate::resources::{MOST_KEPT, MOST_READ};
use crate::{Machine, SessionFault};
use px_link::{Ending, Failed, Fault, Link};

/// One read of the client's link into this buffer, whose end and whose failure are endings.
pub(crate) fn read_client<C: Machine, L: Link>(
    core: &mut C,
    client: &mut L,
    buffer: &mut [u8; MOST_READ],
    most: u32,
)
    requires wanted { (C.seen core.old).wants.client_read ≡ true }
    requires most { 0 < most }
    requires sound { C.sound core.old }
    ensures sound { C.sound core.new }
    ensures moves { (cfg : C.Settings) (first : L) (past : Past) → Idle (C.stands cfg core.old) L.seen L.wrote first client.old false past → ClientMoves (act.ClientRead most) (C.stands cfg core.new) L.seen L.wrote first client.new past }
    ensures serving { (C.seen core.new).serving ≡ (C.seen core.old).serving }
{
    let n = MOST_KEPT.min(core.client_room()).min(most as usize);
    match client.read(&mut buffer[..n]) {
        Ok(given) => {
            if given == 0 {
                core.client_ended(Ending::Closed);
            } else {
                core.from_client(&buffer[..given]);
            }
        }
        Err(Failed) => core.client_ended(Ending::Broke),
    }
}

/// Writes at most so many of the bytes that wait for the client. The core stays as it is.
fn offer_client<C: Machine, L: Link>(core: &mut C, link: &mut L, most: u32) -> Result<usize, Fault>
    requires some { 0 < length (C.seen core.old).to_client }
    requires most { 0 < most }
    requires sound { C.sound core.old }
    ensures same { core.new ≡ core.old }
    ensures writes { (n : ℕ) × (n ≤ most) × Writes (L.wrote link.old) (L.wrote link.new) (L.seen link.old) (L.seen link.new) (take n (C.seen core.old).to_client) result }
{
    let window: &[u8] = core.to_client();
    let n = window.len().min(most as usize);
    link.write(&window[..n])
}

/// One write of the client's link.
pub(crate) fn write_client<C: Machine, L: Link>(
    core: &mut C,
    client: &mut L,
    most: u32,
) -> Result<(), SessionFault>
    requires wanted { (C.seen core.old).wants.client_write ≡ true }
    requires most { 0 < most }
    requires sound { C.sound core.old }
    ensures sound { C.sound core.new }
    ensures moves { (cfg : C.Settings) (first : L) (past : Past) → Idle (C.stands cfg core.old) L.seen L.wrote first client.old false past
        → Ends result (λ _. ClientMoves (act.ClientWrite most) (C.stands cfg core.new) L.seen L.wrote first client.new past) (λ failed. Idle (C.stands cfg core.new) L.seen L.wrote first client.new failed past) }
    ensures unspent { IsErrOf result SessionFault.Spent → ⊥ }
    ensures serving { (C.seen core.new).serving ≡ (C.seen core.old).serving }
{
    match offer_client(core, client, most) {
        Ok(taken) => {
            core.client_took(taken);
            Ok(())
        }
        Err(Fault::Failed) => Err(SessionFault::ClientWrite),
        Err(Fault::OutOfMemory) => Err(SessionFault::OutOfMemory),
    }
}

//! An open server, until its link is to be closed.
ghost use Rattle.std.specs.Prelude.{◌≡◌, ◌<◌, ◌≤◌, ℕ, List, Some, None, true, false, length, IfOk, OnOk, IsErrOf};
ghost use Rattle.session_core.specs.History.{Past, Connect};
ghost use Rattle.px_link.specs.declared.turns.Turn.{Turn};
ghost use Rattle.htx_drive.specs.Driven.{Hand, HandGoes, Left};
ghost use Rattle.htx_drive.specs.Turned.{StandsIn, WorkedIn};
ghost use Rattle.htx_drive.specs.Underway.{TakesOne, ComesTo};
ghost use Rattle.htx_drive.specs.Acts.{moves_bytes};

use crate::resources::{MOST_READ, Resources};
use crate::turn::turn_open;
use crate::{Machine, SessionFault, Wants};
use px_link::{Close, Link, OutOfMemory, Turns};

/// The next turn, and whether it moved something.
fn serve_turn<C: Machine, L: Link, T: Turns>(
    core: &mut C,
    client: &mut L,
    link: &mut L,
    turns: &mut T,
    buffer: &mut [u8; MOST_READ],
    wants: &Wants,
) -> Result<bool, SessionFault>
    requires wants { wants.now ≡ (C.seen core.old).wants }
    requires some { moves_bytes wants.now ≡ true }
    requires no_open { wants.now.server_open ≡ false }
    requires no_close { wants.now.server_close ≡ None }
    requires going { wants.now.over ≡ None }
    requires sound { C.sound core.old }
    ensures sound { OnOk result (C.sound core.new) }
    ensures goes { (cfg : C.Settings) (all : List Turn) (budget spare : ℕ) (first first_link : L) (before : List Connect) (past : Past) (c : Connect) → TakesOne result (C.stands cfg) C.seen all (T.left turns.old) (T.left turns.new) budget spare core.old core.new
        (λ S. Hand S L.seen L.wrote first client.old first_link link.old false before past c) (λ S failed had has. HandGoes S L.seen L.wrote first client.new first_link link.new failed before past had has) }
    ensures serving { (C.seen core.new).serving ≡ (C.seen core.old).serving }
    ensures fewer { length (T.left turns.new) ≤ length (T.left turns.old) }
    ensures less { IfOk result (λ moved. moved ≡ false → length (T.left turns.new) < length (T.left turns.old)) }
    ensures unspent { IsErrOf result SessionFault.Spent → ⊥ }
{
    let turn = turns.next();
    turn_open(core, client, link, turn, buffer, wants)
}

/// Turns, until the server's link is to be closed, and how.
pub(crate) fn serve<C: Machine, L: Link, T: Turns>(
    core: &mut C,
    client: &mut L,
    link: &mut L,
    turns: &mut T,
    resources: &mut Resources,
) -> Result<Close, SessionFault>
    requires serving { (C.seen core.old).serving ≡ true }
    requires sound { C.sound core.old }
    ensures sound { OnOk result (C.sound core.new) }
    ensures goes { (cfg : C.Settings) (all : List Turn) (budget : ℕ) (first first_link : L) (before : List Connect) (past : Past) (c : Connect) → Hand (StandsIn (C.stands cfg) C.seen all (T.left turns.old) budget resources.old.left core.old) L.seen L.wrote first client.old first_link link.old false before past c
        → ComesTo result WorkedIn (Left (C.meaning cfg)) (C.stands cfg) C.seen all (T.left turns.new) budget resources.new.left core.new (λ S failed. HandGoes S L.seen L.wrote first client.new first_link link.new failed before past resources.old.left resources.new.left) }
    ensures how { IfOk result (λ how. (C.seen core.new).wants.server_close ≡ Some how) }
    ensures fewer { length (T.left turns.new) ≤ length (T.left turns.old) }
    ensures spends { resources.new.left ≤ resources.old.left }
    ensures spent { IsErrOf result SessionFault.Spent → resources.new.left ≡ 0 }
{
    'turns: loop {
        match core.work() {
            Ok(()) => {}
            Err(OutOfMemory) => return Err(SessionFault::OutOfMemory),
        }
        let wants = core.wants();
        if let Some(how) = wants.server_close {
            return Ok(how);
        }
        if resources.left == 0 {
            return Err(SessionFault::Spent);
        }
        match serve_turn(core, client, link, turns, &mut resources.buffer, &wants) {
            Ok(true) => resources.left -= 1,
            Ok(false) => {}
            Err(fault) => return Err(fault),
        }
    }
}

//! One turn of a session, whoever gives it: of the list of a call, or of connections that take turns.
ghost use Rattle.std.specs.Prelude.{◌≡◌, ◌<◌, ℕ, List, Some, None, true, false, IfOk, IsErrOf};
ghost use Rattle.session_core.specs.History.{Past, Connect};
ghost use Rattle.px_link.specs.declared.turns.Turn.{Turn};
ghost use Rattle.px_link.specs.Turns.{first_of, rest_of};
ghost use Rattle.htx_drive.specs.Driven.{Idle, IdleGoes, Hand, HandGoes};
ghost use Rattle.htx_drive.specs.Underway.{TakesOne};
ghost use Rattle.htx_drive.specs.Acts.{moves_bytes};

use crate::act::{Act, next_act};
use crate::client_side::{read_client, write_client};
use crate::resources::MOST_READ;
use crate::server_side::{read_server, write_server};
use crate::{Machine, SessionFault, Wants};
use px_link::{Link, Turn};

/// A turn while no server is open, and whether it moved something.
#[inline(always)]
pub(crate) fn turn_idle<C: Machine, L: Link>(
    core: &mut C,
    client: &mut L,
    turn: Option<Turn>,
    buffer: &mut [u8; MOST_READ],
    wants: &Wants,
) -> Result<bool, SessionFault>
    requires wants { wants.now ≡ (C.seen core.old).wants }
    requires some { moves_bytes wants.now ≡ true }
    requires no_open { wants.now.server_open ≡ false }
    requires no_close { wants.now.server_close ≡ None }
    requires going { wants.now.over ≡ None }
    requires no_read { wants.now.server_read ≡ false }
    requires no_write { wants.now.server_write ≡ false }
    requires sound { C.sound core.old }
    ensures sound { C.sound core.new }
    ensures goes { (cfg : C.Settings) (all ahead : List Turn) (budget spare : ℕ) (first : L) (past : Past) → turn ≡ first_of ahead → TakesOne result (C.stands cfg) C.seen all ahead (rest_of ahead) budget spare core.old core.new
        (λ S. Idle S L.seen L.wrote first client.old false past) (λ S failed had has. IdleGoes S L.seen L.wrote first client.new failed past had has) }
    ensures serving { (C.seen core.new).serving ≡ (C.seen core.old).serving }
    ensures behind { IfOk result (λ moved. turn ≡ None → moved ≡ true) }
    ensures unspent { IsErrOf result SessionFault.Spent → ⊥ }
{
    match next_act(turn, wants) {
        Act::Nothing => Ok(false),
        Act::ClientRead(most) => {
            read_client(core, client, buffer, most);
            Ok(true)
        }
        Act::ClientWrite(most) => match write_client(core, client, most) {
            Ok(()) => Ok(true),
            Err(fault) => Err(fault),
        },
        Act::ServerRead(_) => Ok(false),
        Act::ServerWrite(_) => Ok(false),
    }
}

/// A turn while a server is open, and whether it moved something.
#[inline(always)]
pub(crate) fn turn_open<C: Machine, L: Link>(
    core: &mut C,
    client: &mut L,
    link: &mut L,
    turn: Option<Turn>,
    buffer: &mut [u8; MOST_READ],
    wants: &Wants,
) -> Result<bool, SessionFault>
    requires wants { wants.now ≡ (C.seen core.old).wants }
    requires some { moves_bytes wants.now ≡ true }
    requires no_open { wants.now.server_open ≡ false }
    requires no_close { wants.now.server_close ≡ None }
    requires going { wants.now.over ≡ None }
    requires sound { C.sound core.old }
    ensures sound { C.sound core.new }
    ensures goes { (cfg : C.Settings) (all ahead : List Turn) (budget spare : ℕ) (first first_link : L) (before : List Connect) (past : Past) (c : Connect) → turn ≡ first_of ahead → TakesOne result (C.stands cfg) C.seen all ahead (rest_of ahead) budget spare core.old core.new
        (λ S. Hand S L.seen L.wrote first client.old first_link link.old false before past c) (λ S failed had has. HandGoes S L.seen L.wrote first client.new first_link link.new failed before past had has) }
    ensures serving { (C.seen core.new).serving ≡ (C.seen core.old).serving }
    ensures behind { IfOk result (λ moved. turn ≡ None → moved ≡ true) }
    ensures unspent { IsErrOf result SessionFault.Spent → ⊥ }
{
    match next_act(turn, wants) {
        Act::Nothing => Ok(false),
        Act::ClientRead(most) => {
            read_client(core, client, buffer, most);
            Ok(true)
        }
        Act::ClientWrite(most) => match write_client(core, client, most) {
            Ok(()) => Ok(true),
            Err(fault) => Err(fault),
        },
        Act::ServerRead(most) => {
            read_server(core, link, buffer, most);
            Ok(true)
        }
        Act::ServerWrite(most) => match write_server(core, link, most) {
            Ok(()) => Ok(true),
            Err(fault) => Err(fault),
        },
    }
}

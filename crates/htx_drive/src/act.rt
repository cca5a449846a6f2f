//! What a driver does for a turn.
ghost use Rattle.std.specs.Prelude.{◌≡◌, true, false, None};
ghost use Rattle.px_link.specs.declared.turns.Turn.{Turn};
ghost use Rattle.htx_drive.specs.Acts.{act_of, act_of_turn, act_of_wants, IsWanted, moves_bytes, is_nothing};

use px_link::Turn;
use session_core::Wants;

/// One read or write of at most so many bytes, or nothing.
#[derive(Clone, Copy)]
pub(crate) enum Act {
    Nothing,
    ClientRead(u32),
    ClientWrite(u32),
    ServerRead(u32),
    ServerWrite(u32),
}

/// What a turn of the list does: nothing where its want doesn't stand, or where its number is 0.
fn of_turn(turn: Turn, wants: &Wants) -> Act
    ensures is { result ≡ act_of_turn turn wants.now }
    ensures wanted { IsWanted wants.now result }
{
    match turn {
        Turn::ClientGives(most) => {
            if wants.client_read && most > 0 {
                Act::ClientRead(most)
            } else {
                Act::Nothing
            }
        }
        Turn::ClientTakes(most) => {
            if wants.client_write && most > 0 {
                Act::ClientWrite(most)
            } else {
                Act::Nothing
            }
        }
        Turn::ServerGives(most) => {
            if wants.server_read && most > 0 {
                Act::ServerRead(most)
            } else {
                Act::Nothing
            }
        }
        Turn::ServerTakes(most) => {
            if wants.server_write && most > 0 {
                Act::ServerWrite(most)
            } else {
                Act::Nothing
            }
        }
    }
}

/// What is done behind the list: the first want that stands. The client is passed over while it waits for a response head
/// and the server may give one.
fn of_wants(wants: &Wants) -> Act
    ensures is { result ≡ act_of_wants wants.now }
    ensures wanted { IsWanted wants.now result }
    ensures some { moves_bytes wants.now ≡ true → is_nothing result ≡ false }
{
    if wants.server_write {
        Act::ServerWrite(u32::MAX)
    } else if wants.client_write {
        Act::ClientWrite(u32::MAX)
    } else if wants.client_read {
        if wants.client_waits && wants.server_read {
            Act::ServerRead(u32::MAX)
        } else {
            Act::ClientRead(u32::MAX)
        }
    } else if wants.server_read {
        Act::ServerRead(u32::MAX)
    } else {
        Act::Nothing
    }
}

/// What is done for the next turn of a list, or behind it.
pub(crate) fn next_act(turn: Option<Turn>, wants: &Wants) -> Act
    ensures is { result ≡ act_of turn wants.now }
    ensures wanted { IsWanted wants.now result }
    ensures some { turn ≡ None → moves_bytes wants.now ≡ true → is_nothing result ≡ false }
{
    match turn {
        Some(turn) => of_turn(turn, wants),
        None => of_wants(wants),
    }
}

//! The turns of one connection.
ghost use Rattle.std.specs.Prelude.{◌≡◌, IfOk};
ghost use Rattle.htx_drive.specs.Replay.Memory.{turns_of};

use crate::{OutOfMemory, Turn};
use std::alloc::Global;

/// The turns of the connection of this number, counted from 1, in their order.
pub fn turns_of(alloc: Global, owner: u64, turns: &[(u32, Turn)]) -> Result<Vec<Turn>, OutOfMemory>
    ensures { IfOk result (λ own. own.items ≡ turns_of owner turns.now) }
{
    let mut own = Vec::new(alloc);
    for turn in turns {
        if u64::from(turn.0) == owner {
            own.push(turn.1)?;
        }
    }
    Ok(own)
}

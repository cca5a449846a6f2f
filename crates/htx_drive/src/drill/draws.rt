//! Numbers that follow from a seed.
ghost use Rattle.std.specs.Prelude.{◌≡◌, ◌++◌, ◌%◌, IfOk};
ghost use Rattle.htx_drive.specs.Drill.Plan.{next_state, draw_of, lengths_of};

use http_model::OutOfMemory;
use std::alloc::Global;

/// Draws a number below 32768.
#[tactic(auto, unfolding(crate::specs::Drill::Plan::next_state, crate::specs::Drill::Plan::draw_of))]
pub fn draw(state: &mut u32) -> u32
    ensures state { state.new ≡ next_state state.old }
    ensures drawn { result ≡ draw_of (next_state state.old) }
{
    *state = ((u64::from(*state) * 1103515245 + 12345) % 2147483648) as u32;
    *state / 65536 % 32768
}

/// Draws so many lengths below 32.
#[tactic(auto, unfolding(crate::specs::Drill::Plan::lengths_of))]
pub fn lengths(alloc: Global, count: u32, state: &mut u32) -> Result<Vec<u32>, OutOfMemory>
    ensures { IfOk result (λ drawn. (drawn.items, state.new) ≡ lengths_of count state.old) }
{
    let mut drawn = Vec::new(alloc);
    for _at in 0..count {
        let length = draw(state) % 32;
        drawn.push(length)?;
    }
    Ok(drawn)
}

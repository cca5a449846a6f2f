//! What is drawn for an exchange.
ghost use Rattle.std.specs.Prelude.{◌≡◌, IfOk};
ghost use Rattle.htx_drive.specs.Drill.Plan.{plan_of};
ghost use Rattle.htx_drive.specs.Drill.Drawn.{plan};

use crate::drill::draws::{draw, lengths};
use http_model::OutOfMemory;
use std::alloc::Global;

/// An exchange: the lengths of the values of its fields, and those of the bodies of its request and of its response.
#[derive(Drop)]
pub struct Plan {
    pub fields: Vec<u32>,
    pub request: u32,
    pub response: u32,
}

/// Draws the next exchange.
#[tactic(auto, unfolding(crate::specs::Drill::Plan::plan_of))]
pub fn next_plan(alloc: Global, state: &mut u32) -> Result<Plan, OutOfMemory>
    ensures { IfOk result (λ drawn. (plan drawn, state.new) ≡ plan_of state.old) }
{
    let count = draw(state) % 4;
    let fields = lengths(alloc, count, state)?;
    let request = draw(state) % 4096;
    let response = draw(state) % 16384;
    Ok(Plan {
        fields,
        request,
        response,
    })
}

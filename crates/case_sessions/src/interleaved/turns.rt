//! The turns of a record, for the driver.
use htx_drive::weave::Weft;
use px_link::Turn;

/// The turns of a record that were not given yet.
#[derive(Drop)]
pub(crate) struct TurnsLeft<'a> {
    pub(crate) turns: &'a [(u32, Turn)],
}

impl<'a> Weft for TurnsLeft<'a> {
    ghost left = { λ t. t.turns.now };

    fn next(&mut self) -> Option<(u32, Turn)> {
        match self.turns {
            [] => None,
            [first, rest @ ..] => {
                self.turns = rest;
                Some(*first)
            }
        }
    }
}

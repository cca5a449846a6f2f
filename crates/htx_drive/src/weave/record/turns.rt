//! The turns of a record.
ghost use Rattle.std.specs.Prelude.{◌≡◌};

use crate::Turn;
use crate::weave::weft::Weft;

/// The turns of a record that were not given yet.
#[derive(Drop)]
pub(crate) struct RecordTurns<'a> {
    left: &'a [(u32, Turn)],
}

impl<'a> RecordTurns<'a> {
    /// All turns of a record.
    pub(crate) fn new(turns: &'a [(u32, Turn)]) -> RecordTurns<'a>
        ensures { result.left.now ≡ turns.now }
    {
        RecordTurns { left: turns }
    }
}

impl<'a> Weft for RecordTurns<'a> {
    ghost left = { λ t. t.left.now };

    fn next(&mut self) -> Option<(u32, Turn)> {
        match self.left {
            [] => None,
            [first, rest @ ..] => {
                self.left = rest;
                Some(*first)
            }
        }
    }
}

//! Who moves next, and by how much.
ghost use Rattle.std.specs.Prelude.{◌≡◌, List};
ghost use Rattle.px_link.specs.Turns.{first_of, rest_of};

/// Who moves next, and at most how many bytes.
#[derive(Clone, Copy, Debug)]
pub enum Turn {
    ClientGives(u32),
    ClientTakes(u32),
    ServerGives(u32),
    ServerTakes(u32),
}

/// A list of turns.
pub trait Turns {
    ghost use Rattle.px_link.specs.declared.turns.Turn.{Turn};

    /// The turns that were not given yet.
    ghost left: { Self → List Turn };

    /// The next turn; none once all were given.
    fn next(&mut self) -> Option<Turn>
        ensures first { result ≡ first_of (left self.old) }
        ensures rest { left self.new ≡ rest_of (left self.old) };
}

//! Turns from a list.
ghost use Rattle.std.specs.Prelude.{◌≡◌};

use crate::{Turn, Turns};
use std::marker::Model;

/// Turns from a list. Contracts see those that were not given yet.
pub struct ListTurns {
    turns: Vec<Turn>,
    at: usize,
}

impl Drop for ListTurns {
    fn drop(self) {
        let ListTurns { turns: _, at: _ } = self;
    }
}

impl Model for ListTurns {
    ghost use Rattle.std.specs.Prelude.{List, ◌≤◌, drop, vec_len};
    ghost use Rattle.px_link.specs.declared.turns.Turn.{Turn};

    ghost Value = { List Turn };

    ghost view = { λ list. drop list.at list.turns.items };

    ghost invariant = { λ list. list.at ≤ vec_len list.turns };
}

impl ListTurns {
    pub fn new(list: Vec<Turn>) -> Self
        ensures { result ≡ list.items }
    {
        ListTurns { turns: list, at: 0 }
    }
}

impl Turns for ListTurns {
    ghost left = { λ list. list };

    fn next(&mut self) -> Option<Turn> {
        if self.at == self.turns.len() {
            return None;
        }
        let turn = self.turns[self.at];
        self.at += 1;
        Some(turn)
    }
}

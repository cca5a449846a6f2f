//! How many rows agree, and what is said of one that differs.
ghost use Rattle.std.specs.Prelude.{◌≡◌, ◌↔◌, IsTrue};
ghost use Rattle.case_rows.specs.Score.{Agrees, one_more};

use crate::fault::Fault;
use std::io;

/// How many rows there were, and how many agree. Each stays at the last value of a u64.
#[derive(Clone, Copy)]
pub struct Score {
    pub rows: u64,
    pub agree: u64,
}

/// Whether a row came to what it must come to.
fn agrees(made: &Result<Vec<u8>, Fault>, expected: &[u8]) -> bool
    ensures { IsTrue result ↔ Agrees made.now expected.now }
{
    match made {
        Ok(made) => made.as_slice() == expected,
        Err(_) => false,
    }
}

/// Prints what a row came to that differs.
fn say_difference<R: Print>(
    rt: &R,
    kind: &str,
    name: &str,
    made: &Result<Vec<u8>, Fault>,
) -> io::Result<()> {
    match made {
        Ok(made) => println!(rt; "{kind} {name} differs: {made:?}"),
        Err(fault) => println!(rt; "{kind} {name} differs: {fault:?}"),
    }
}

impl Score {
    /// No row yet.
    pub fn new() -> Self
        ensures rows { result.rows ≡ 0 }
        ensures agree { result.agree ≡ 0 }
    {
        Score { rows: 0, agree: 0 }
    }

    /// Counts a row, and prints its name and what it came to where that differs.
    pub fn note<R: Print>(
        &mut self,
        rt: &R,
        kind: &str,
        name: &str,
        expected: &[u8],
        made: &Result<Vec<u8>, Fault>,
    ) -> io::Result<()>
        ensures rows { self.new.rows ≡ one_more self.old.rows }
        ensures agree { Agrees made.now expected.now → self.new.agree ≡ one_more self.old.agree }
        ensures differs { (Agrees made.now expected.now → ⊥) → self.new.agree ≡ self.old.agree }
    {
        self.rows = self.rows.saturating_add(1);
        if agrees(made, expected) {
            self.agree = self.agree.saturating_add(1);
            return Ok(());
        }
        say_difference(rt, kind, name, made)
    }

    /// Prints how many agree.
    pub fn print<R: Print>(&self, rt: &R) -> io::Result<()> {
        let rows = self.rows;
        let agree = self.agree;
        println!(rt; "{agree} of {rows} rows agree")
    }
}

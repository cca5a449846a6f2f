//! What runs one connection of a record.
ghost use Rattle.std.specs.Prelude.{List, IfOk};
ghost use Rattle.session_model.specs.Session.{Out};
ghost use Rattle.px_link.specs.declared.turns.Turn.{Turn};
ghost use Rattle.rec_format.specs.Recorded.{Visit};
ghost use Rattle.rec_format.specs.Read.{visit};
ghost use Rattle.rec_format.specs.ReportParts.{out_of};

use crate::{OutOfMemory, Turn};
use rec_format::{Connection, Report};
use std::alloc::Global;

/// Runs connections of a record, each alone.
pub trait Replayer {
    /// Connections can be run.
    ghost ready: { Self → Type 0 };

    /// What a connection comes to by these turns.
    ghost comes_to: { Self → List Turn → Visit → Out → Type 0 };

    /// Runs a connection by these turns, and reports what it came to.
    fn run(&self, alloc: Global, conn: &Connection, turns: Vec<Turn>) -> Result<Report, OutOfMemory>
        requires ready { ready self.now }
        ensures { IfOk result (λ report. comes_to self.now turns.items (visit conn.now) (out_of report)) };
}

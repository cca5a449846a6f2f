//! A generated session: a long valid one that two numbers name, as a connection of a record, and the lines that are written of it.
//! Nothing here runs a session.

mod draws;
mod lines;
mod plan;
mod session;
mod texts;

pub use lines::write_lines;
pub use session::{configuration, drill};

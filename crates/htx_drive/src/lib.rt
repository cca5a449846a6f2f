//! The driver: it runs the session of a core over a client's link, a net and a list of turns. It knows no message and no rule.
//! In folders, over links and a net in memory: the sessions of a record, and a generated one.
#![tactic(auto)]

mod act;
mod client_side;
mod core_machine;
pub mod drill;
mod exchange;
pub mod laws;
mod machine;
pub mod replay;
mod resources;
mod serve;
mod server_side;
mod session;
mod step;
mod turn;
pub mod weave;

pub use machine::Machine;
pub use px_link::{Address, Close, End, Ending, Fault, Link, Net, OutOfMemory, Turn, Turns};
pub use resources::{MOST_READ, Resources};
pub use session::run_session;
pub use session_core::{Wants, Worked};
pub use step::{Did, Stepped, step_idle, step_open};

/// What a session that ended came to.
#[derive(Clone, Copy)]
pub struct Ran {
    pub end: End,
    /// The request heads that were read or refused. The count stays at its type's last value.
    pub exchanges: u32,
    /// Where a request was cut, whether its answer had begun.
    pub begun_cut: Option<bool>,
}

/// Why a session was given up.
#[derive(Clone, Copy)]
pub enum SessionFault {
    /// A write to the client failed, and its link has counted that.
    ClientWrite,
    /// The budget is spent: as many turns as it has each moved a byte, an ending or a stop, or opened a server.
    Spent,
    /// The machine has no memory left.
    OutOfMemory,
}

//! Runs the sessions of a record: each connection over links and a net in memory, with a core and turns of its own.
//! What makes the cores is handed in; it knows no rule.

mod asked;
pub(crate) mod budget;
mod cores;
mod headed;
pub mod laws;
pub(crate) mod links;
pub(crate) mod outcome;
mod over_cores;
pub(crate) mod record_net;
mod replayer;
mod reports;
mod sessions;
pub(crate) mod streams;
mod texts;
mod turns;

pub use asked::{Asked, replay_asking};
pub use cores::Cores;
pub use headed::replay_headed;
pub use replayer::Replayer;
pub use reports::report_text;
pub use sessions::{replay, replay_connection, replay_streams};
pub use streams::Streams;
pub use texts::{drill_text, replay_text};
pub use turns::turns_of;

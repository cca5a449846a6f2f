//! What each command does: it reads its files, answers or serves, and writes; and what is told where it stops.
#![tactic(auto)]

mod answer;
mod command;
mod explaining;
mod lines;
mod networks;
mod record_command;
mod refusals;
mod reply;
mod running;
mod serving;
mod status;
mod stop;

pub use command::run;
pub use networks::Networks;
pub use record_command::RecordCommand;
pub use reply::end;
pub use status::Status;
pub use stop::Stop;

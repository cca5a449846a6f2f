//! The real objects of the program: links and a net over the sockets of the system, files on disk, and standard output. They meet the
//! traits of `px_link` with their counts, and tell no bytes: no contract can say what a socket or a file gives.
#![tactic(auto)]

mod addresses;
mod dialling;
mod faults;
mod handover;
mod input_end;
mod linger;
mod numeric;
mod pairs;
mod ready;
mod ready_link;
mod ready_net;
mod ready_poll;
mod real_files;
mod real_link;
mod real_net;
mod real_sink;
mod stream_calls;
mod stream_waits;
mod telling;
mod tokens;

pub use handover::{end_listener, is_output_gone};
pub use input_end::InputEnd;
pub use ready_link::ReadyLink;
pub use ready_net::ReadyNet;
pub use ready_poll::ReadyPoll;
pub use real_files::RealFiles;
pub use real_link::RealLink;
pub use real_net::RealNet;
pub use real_sink::RealSink;

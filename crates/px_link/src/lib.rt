//! What the program is handed: links and a net, turns, files to read and a sink to write to, as traits that count
//! their faults, and each in memory. Besides them the small types in which bytes and lists pass between crates.
#![tactic(auto)]

mod address;
mod application;
mod bytes;
mod calls;
mod fault;
mod files;
mod item_list;
mod kept_name;
mod link;
mod list_turns;
mod mem_files;
mod mem_link;
mod mem_net;
mod mem_sink;
mod mem_wakes;
mod net;
mod script;
mod scripted;
mod scripted_net;
mod sink;
mod turns;
mod waits;
mod waits_net;
mod wakes;

pub use address::Address;
pub use application::Application;
pub use bytes::Bytes;
pub use fault::{Failed, Fault};
pub use files::Files;
pub use http_model::{Close, End, Ending, OutOfMemory};
pub use item_list::ItemList;
pub use link::Link;
pub use list_turns::ListTurns;
pub use mem_files::MemFiles;
pub use mem_link::MemLink;
pub use mem_net::MemNet;
pub use mem_sink::MemSink;
pub use mem_wakes::MemWakes;
pub use net::Net;
pub use script::Script;
pub use scripted::Scripted;
pub use scripted_net::{LinkScripts, ScriptedNet};
pub use sink::Sink;
pub use turns::{Turn, Turns};
pub use waits::Waits;
pub use waits_net::WaitsNet;
pub use wakes::{Readiness, Wake, Wakes, Watched};

//! The two formats of the program's files: the record of what clients and servers send, and the report of what they were sent.
#![tactic(auto)]

mod counts;
mod entries;
pub mod laws;
mod parts;
mod pieces;
mod read;
mod reader;
mod record;
mod report;
mod report_list;
mod writer;

pub use reader::read_record;
pub use record::{Connection, RecFault, RecKind, Record, ServerSpec, Stream};
pub use report::{Report, Sent, write_report};
pub use report_list::write_reports;
pub use writer::write_record;

//! The head of a record and the lengths of a pair (FastCGI 1.0 sections 3.3 and 3.4), written and read: what is written is read back, and what is read
//! was written so. It knows nothing of what records carry, and takes no memory.
#![tactic(auto)]

pub mod laws;
mod pair_lengths;
mod record_head;
mod record_kind;

pub use pair_lengths::{Lengths, put_lengths, read_lengths};
pub use record_head::{RecordHead, put_head, read_head};
pub use record_kind::RecordKind;

//! Rows of the program: words over files, with the status and what is written, and sessions of files.

mod facts;
mod records;
mod sessions;
mod weaves;

pub use facts::facts_of;
pub use records::record_in;
pub use sessions::{made, session_made};
pub use weaves::woven_made;

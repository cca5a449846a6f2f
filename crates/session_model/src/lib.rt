//! What a session puts out, over any meaning of reading, rules and filters: asking, answering, the exchanges in
//! turn. The definitions are in `specs/`; the crates above give the meaning, and nothing here knows it.
#![tactic(auto)]

pub use http_model::{Close, End, Ending, Framing, Limits};

//! What bytes of a request ask a FastCGI application: its head, its pairs, its body, and the records that carry them. The definitions are in `specs/`; the crates above make
//! the records.
#![tactic(auto)]

mod refusal;

pub use http_model::Framing;
pub use refusal::Refusal;

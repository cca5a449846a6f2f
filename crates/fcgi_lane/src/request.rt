//! What a request is for an application: pairs, and records (FastCGI 1.0 sections 3 and 5, RFC 3875 section 4.1).

mod body;
mod body_stages;
mod field_pairs;
mod field_texts;
mod head_reading;
pub mod laws;
mod opening;
mod packing;
mod pairs;
mod param_pairs;
mod records;
mod script;
mod state;
mod translator;
mod variables;

pub use fcgi_model::Refusal;
pub use state::RequestState;
pub use translator::Translator;

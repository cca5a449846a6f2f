//! What an application answers, as the HTTP stream that it is (FastCGI 1.0 sections 5 and 6, RFC 3875 section 6).

mod fields;
mod fixed_text;
mod head_reading;
mod head_text;
pub mod laws;
mod records;
mod squeezing;
mod status;
mod translator;

pub use head_reading::MAX_FIELDS;
pub use records::{RecordReader, Run};
pub use squeezing::squeeze;
pub use translator::{AnswerState, Translator};

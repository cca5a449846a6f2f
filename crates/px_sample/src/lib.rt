//! Samples, variables, and what gives samples: the words that converters, expressions, formats and conditions
//! share. Nothing here knows of a message; what a fetch gives is the meaning of an `Env`.
#![tactic(auto)]

mod buf;
mod cast;
mod env;
mod fetch;
mod form;
mod kept;
pub mod laws;
mod place;
mod sample;
mod scope;
mod share;
mod shelf;
mod slot;
mod spot;
mod text;
mod vars;

pub use buf::Buf;
pub use cast::{into_text, number_in, number_of_bytes, truth_in};
pub use env::Env;
pub use fetch::Fetch;
pub use htx_model::OutOfMemory;
pub use place::Place;
pub use sample::Sample;
pub use scope::Scope;
pub use text::Text;
pub use vars::Vars;

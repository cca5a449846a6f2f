//! What the words of the command line ask for. Lists of words tell the texts of help and of the version; all else `clap` reads,
//! and then the lists of commands decide.
#![tactic(auto)]

mod ask;
mod help;
mod lists;
mod name;
mod options;
mod parser;
mod texts;
mod words;
mod wrong;

pub use ask::{Asked, asked_by};
pub use name::CommandName;
pub use options::RunOptions;
pub use texts::{help_of_text, help_text, version_text};

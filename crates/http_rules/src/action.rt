//! What one rule makes of a message in an array: each action is a list of steps, and a step that fails leaves what stood in
//! front of it.

mod act;
mod extent;
mod fields;
mod filled;
mod hosts;
mod joining;
mod line;
mod listed;
mod location;
mod part;
mod payload;
mod place;
mod redirect;
mod removal;
mod removal_by;
mod replacement;
mod replacing;
mod reply_fields;
mod replying;
mod retarget;
mod returning;
mod scratch;
mod side;
mod status;
mod stepped;
mod target;
mod text_edits;
mod texts;
mod variables;
mod word;

pub use act::{Acted, run_action};
pub use part::TargetPart;
pub use replying::{answers, run_reply};
pub use scratch::Scratch;
pub use side::Side;
pub use stepped::Stepped;
pub use texts::is_met;

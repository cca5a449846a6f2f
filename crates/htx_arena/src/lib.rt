//! The blocks of one message in one array of bytes of a fixed size: an edit succeeds exactly where the list then fits, and one that is
//! refused changes nothing. It knows no rule of HTTP, and only `Arena::new` and `LateArena::new` take memory.
#![tactic(auto)]

mod arena;
mod fields;
mod late;
pub mod layout;
mod space;

pub use arena::{Arena, Full, Line};
pub use fields::Fields;
pub use htx_model::{Kind, OutOfMemory};
pub use late::LateArena;

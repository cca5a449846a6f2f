//! Connections over shared cores, interleaved: each move is one connection's, and changes no other.

mod all;
mod conn;
mod ends;
mod fault;
pub mod laws;
mod leaving;
mod mover;
mod moves;
mod record;
mod resets;
mod rounds;
mod sessions;
mod sets;
pub mod single;
mod step;
mod weft;

pub use conn::Conn;
pub use ends::{abandon, fail, finish};
pub use fault::WeaveFault;
pub use record::{cores_for, pool_of, weave_record, weave_text};
pub use resets::{Resets, ResetsFor};
pub use sessions::weave;
pub use weft::Weft;

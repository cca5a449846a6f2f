//! Rows of connections over shared cores: how many cores are out behind given turns.

mod conns;
mod cores;
mod interleaved;
mod turns;

pub use interleaved::made;

//! Rows of clients that `serve` and `run` serve over links and nets in memory, one call of which may fail.

mod failing;
pub(crate) mod links;
pub(crate) mod many;
mod served;

pub use many::{MemNetworks, RecordNets, many_of};
pub use served::{made, no_net};

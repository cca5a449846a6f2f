//! The cut of a target into scheme, authority, path and query, each lent from the target; the forms that a target may have; and
//! whether Host names the authority of a target. Nothing here takes memory.
#![tactic(auto)]

mod authority;
mod forms;
pub mod laws;
mod same;
mod target;

pub use authority::{is_authority, is_ipv6};
pub use forms::target_fits;
pub use same::host_agrees;
pub use target::{Parts, cut_target};

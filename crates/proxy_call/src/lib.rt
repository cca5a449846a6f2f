//! The program's one call: words, files, a net and an output go in; what was written and the status come out.
#![tactic(auto)]

mod top;

pub use proxy_commands::{Networks, Status};
pub use proxy_sessions::{Many, Switch, Workers};
pub use top::htx_proxy;

//! Laws over what a session means, whatever reads, rules and filters give it: a bound on its texts, and that what is decided stays
//! decided. Nothing here runs, and no machine is known.

pub mod laws;
mod means;

pub use means::Means;

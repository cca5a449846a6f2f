//! Rows of FastCGI applications: what their records come to, and what requests come to.

mod answers;
mod application;
mod kinds;
mod records;
mod requests;

pub use kinds::made;

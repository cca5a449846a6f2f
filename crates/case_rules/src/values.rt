//! Rows of samples: expressions, formats, templates, patterns, casts, buffers and variables, and what they come to.

mod convs;
mod expressions;
mod formats;
mod kinds;
mod patterns;
mod samples;
mod values;

pub use kinds::made;

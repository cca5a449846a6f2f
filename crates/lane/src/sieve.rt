//! Filters over a body that comes in parts and goes into an array, where what they have not used is held. It knows no
//! head and no text.

mod sieve;

pub use sieve::{BodyEnd, Sieve, Sifted};

//! A run of the program's one call over loopback, by a program that starts itself twice: once to serve two clients by that call, and once to play the
//! clients and the origin against it. `run_both` starts it and watches both; `play` plays the clients and the origin. What serves stands above this crate.

mod playing;
mod ports;
mod watching;

pub use playing::play;
pub use ports::Ports;
pub use watching::run_both;

/// The word that asks for what serves.
pub const SERVE: &str = "serve";

/// The word that asks for the clients and the origin.
pub const PLAY: &str = "play";

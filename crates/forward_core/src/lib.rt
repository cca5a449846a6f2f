//! What the core of the proxy runs: the direction of a session to its server and the one to its client, joined, with the rules between
//! them and what a configuration means. It knows no link and no socket.
#![tactic(auto)]

mod answer;
pub mod bounds;
pub mod joined;
pub mod meaning;
pub mod request;
mod rules;

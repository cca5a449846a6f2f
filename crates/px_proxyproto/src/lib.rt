//! Headers of the PROXY protocol, versions 1 and 2: what a header is, read as its bytes come and from a link,
//! and written, also in front of a link's text and of that of each connected link of a net. Nothing here takes memory.
#![tactic(auto)]

mod address;
mod binary;
mod front;
mod greeter;
mod greeting;
mod has_pair;
mod headers;
mod heading;
mod introduces;
pub mod laws;
mod line;
mod line_text;
mod meeting;
mod reader;
mod send_link;
mod send_net;
mod send_wakes;
mod state;
mod writing;

pub use front::{Front, front_of};
pub use greeter::Greeter;
pub use greeting::{Greeting, greet};
pub use has_pair::HasPair;
pub use headers::header_text;
pub use heading::{Heading, heading_for};
pub use introduces::Introduces;
pub use line_text::address_text;
pub use meeting::{Met, meet, source_of};
pub use px_peer::{Pair, Peer};
pub use reader::ProxyReader;
pub use send_link::SendLink;
pub use send_net::SendNet;
pub use send_wakes::SendWakes;
pub use state::ProxyState;

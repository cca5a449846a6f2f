//! What is answered in a server's place, and what becomes of a head before it is sent: reasons of status codes, refusals,
//! replies, redirects, and the fields that frame a finished message. Each is its list of blocks, and no call takes memory.
#![tactic(auto)]

mod body;
mod close;
mod finish;
mod framing;
pub mod laws;
mod reason;
mod refusals;
mod reply;

pub use body::add_payload;
pub use close::{add_close, has_room_to_close};
pub use finish::{finish_request, finish_response};
pub use reason::reason_of;
pub use refusals::refusal;
pub use reply::{begin_reply, redirect};

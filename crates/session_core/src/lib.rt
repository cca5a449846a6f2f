//! A core that stands for its history: the machine of a session over two directions that run side by side. It knows neither the bytes of a
//! head nor a rule.
#![tactic(auto)]

mod calls;
pub mod laws;
mod machine;
pub mod meaning_laws;
mod parts;
mod renewing;
mod sides;
mod turns;
mod wants;
mod work;

pub use http_model::{Close, End, Ending, OutOfMemory};
pub use machine::{At, Core, Wants};
pub use parts::Worked;
pub use renewing::{Renewable, RenewableFor};
pub use sides::{Asked, Works};

/// How the last that answers stands.
#[derive(Clone, Copy)]
pub enum Told {
    /// It goes on.
    Going,
    /// The session closes behind it: a refusal, or a plain one.
    Closes,
    /// It is a whole response, or a reply that isn't plain.
    Whole,
    /// It is a response that was cut.
    Cut,
}

/// Where a core stands in its session.
#[derive(Clone, Copy)]
pub enum Phase {
    /// In front of a request head.
    Reading,
    /// A server is to be opened.
    Opening,
    /// It was refused.
    Unserved,
    /// Both directions run.
    Serving,
    /// The server is closed.
    Served,
    /// A refusal goes out, with no server open.
    Refusing,
    /// A reply goes out, with no server; and whether the connection is kept behind it.
    Replying(bool),
    /// The session is over.
    Over(End),
}

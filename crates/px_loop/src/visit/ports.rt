//! The ports of a run. They lie below those that the system gives to clients: a client that is given the very port that it dials would
//! be connected with itself.
use px_link::{Address, Bytes, OutOfMemory};
use std::alloc::Global;

/// The first port that is used, and how many pairs follow.
const FIRST: u16 = 20000;

const PAIRS: u32 = 6000;

/// Where the program listens, and where its server does.
#[derive(Clone, Copy, Debug)]
pub struct Ports {
    pub front: u16,
    pub back: u16,
}

impl Ports {
    /// The ports for a process of this number: its own at first, so that runs at one time don't meet, and then those behind them.
    pub fn of(process: u32, attempt: u32) -> Self {
        let pair = (process % PAIRS + attempt % PAIRS) % PAIRS;
        let front = FIRST + pair as u16 * 2;
        Ports {
            front,
            back: front + 1,
        }
    }

    /// The ports that two words name.
    pub fn read(front: &str, back: &str) -> Option<Self> {
        let (Ok(front), Ok(back)) = (front.parse::<u16>(), back.parse::<u16>()) else {
            return None;
        };
        Some(Ports { front, back })
    }
}

/// A port of the loopback.
pub fn loopback(alloc: Global, port: u16) -> Result<Address, OutOfMemory> {
    let host = Bytes::copy(alloc, b"127.0.0.1")?;
    Ok(Address { host, port })
}

//! The two ends of a connection, as whoever reads, tells or writes them hands them on.
#![tactic(auto)]

/// One end: an address of either family, and a port. An IPv4 address is the low 32 bits of `addr`.
#[derive(Clone, Copy)]
pub struct Peer {
    pub v6: bool,
    pub addr: u128,
    pub port: u16,
}

/// Who asked, and whom. Both are of one family.
#[derive(Clone, Copy)]
pub struct Pair {
    pub src: Peer,
    pub dst: Peer,
}

//! Where a server listens: a host as it was written, and a port. Nothing here looks a host up.

use crate::Bytes;

/// Where a server listens.
pub struct Address {
    /// A host name or a numeric address, as it was written.
    pub host: Bytes,
    pub port: u16,
}

impl Drop for Address {
    fn drop(self) {
        let Address { host: _, port: _ } = self;
    }
}

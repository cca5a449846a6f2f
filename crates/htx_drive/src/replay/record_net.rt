//! The net of a connection of a record, which tells how many connects were refused.

use crate::{Address, Fault, Net};
use px_link::{MemLink, MemNet};

/// A net in memory that tells how many connects were refused.
#[derive(Drop)]
pub(crate) struct RecordNet {
    pub(crate) net: MemNet,
    /// The count stays at its type's last value.
    pub(crate) refused: u64,
}

impl Net for RecordNet {
    type Link = MemLink;

    ghost use Rattle.htx_drive.specs.Replay.Nets.{seen_by};

    ghost seen = { λ n. seen_by n.net n.refused };

    fn bind(&mut self, at: &Address) -> Result<(), Fault> {
        self.net.bind(at)
    }

    fn accept(&mut self) -> Result<MemLink, Fault> {
        self.net.accept()
    }

    fn connect(&mut self, to: &Address) -> Result<MemLink, Fault> {
        match self.net.connect(to) {
            Ok(link) => Ok(link),
            Err(Fault::Failed) => {
                self.refused = self.refused.saturating_add(1);
                Err(Fault::Failed)
            }
            Err(Fault::OutOfMemory) => Err(Fault::OutOfMemory),
        }
    }

    fn keep(&mut self, link: MemLink) {
        self.net.keep(link);
    }

    fn tells_kept(&self) -> bool {
        self.net.tells_kept()
    }
}

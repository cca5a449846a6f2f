//! Connections of a record that run over a core of their own each.
ghost use Rattle.std.specs.Prelude.{◌≡◌};
ghost use Rattle.htx_drive.specs.Replay.Replayed.{Replays};

use crate::replay::cores::Cores;
use crate::replay::replayer::Replayer;
use crate::replay::sessions::replay_connection;
use crate::{Address, Machine, OutOfMemory, Turn};
use rec_format::{Connection, Report};
use std::alloc::Global;
use std::marker::PhantomData;

/// Runs connections over cores that are made so, with the servers at one address.
pub(crate) struct OverCores<'a, C, K> {
    cores: &'a K,
    to: &'a Address,
    core: PhantomData<C>,
}

impl<'a, C, K> Drop for OverCores<'a, C, K> {
    fn drop(self) {
        let OverCores {
            cores: _,
            to: _,
            core: _,
        } = self;
    }
}

impl<'a, C, K> OverCores<'a, C, K> {
    pub(crate) fn new(cores: &'a K, to: &'a Address) -> Self
        ensures { result.cores.now ≡ cores.now }
    {
        OverCores {
            cores,
            to,
            core: PhantomData,
        }
    }
}

impl<'a, C: Machine + Drop, K: Cores<C>> Replayer for OverCores<'a, C, K> {
    ghost ready = { λ over. K.ready over.cores.now };

    ghost comes_to = { λ over. Replays (C.meaning (K.settings over.cores.now)) (C.stands (K.settings over.cores.now)) C.seen };

    fn run(
        &self,
        alloc: Global,
        conn: &Connection,
        turns: Vec<Turn>,
    ) -> Result<Report, OutOfMemory> {
        replay_connection(alloc, self.cores, self.to, conn, turns)
    }
}

//! The cores of a configuration.
ghost use Rattle.std.specs.Prelude.{◌≡◌};

use forward_core::joined::Directions;
use http_rules::Config;
use htx_drive::replay::Cores;
use px_link::OutOfMemory;
use session_core::Core;
use std::alloc::Global;

/// Makes the cores that connections share.
#[derive(Drop)]
pub(crate) struct SharedCores<'c> {
    pub(crate) config: &'c Config,
}

impl<'c> Cores<Core<Directions<'c>>> for SharedCores<'c> {
    ghost use Rattle.proxy_sessions.specs.Ready.{IsReady};

    ghost settings = { λ cores. (cores.config.now, cores.config.now.limits.bufsize) };

    ghost ready = { λ cores. IsReady cores.config.now cores.config.now.limits.bufsize };

    fn bufsize(&self) -> u32 {
        self.config.limits.bufsize
    }

    fn core(&self, alloc: Global) -> Result<Core<Directions<'c>>, OutOfMemory> {
        let directions = Directions::new(alloc, self.config, self.config.limits.bufsize)?;
        Ok(Core::new(directions))
    }

    ghost some_room = { λ cores ready. ready.some_room };

    ghost is_bounded = { λ cores ready. ready.bounded };

    ghost is_total = { λ cores ready. ready.total };
}

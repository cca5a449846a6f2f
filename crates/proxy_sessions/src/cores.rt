//! What makes the cores of a configuration.
ghost use Rattle.std.specs.Prelude.{◌≡◌, ◌≤◌, Option, IfOk, false};
ghost use Rattle.px_peer.specs.declared.Peer.{Peer};
ghost use Rattle.proxy_sessions.specs.Spare.{IsUsed};
ghost use Rattle.http_rules.specs.Valid.{IsValid};
ghost use Rattle.forward_core.specs.Meaning.Product.{meaning_of};
ghost use Rattle.session_core.specs.History.{nothing_yet};
ghost use Rattle.session_core.specs.Leads.{Stands};
ghost use Rattle.session_core.specs.Place.{IsPlaced};
ghost use Rattle.session_core.specs.Waits.{is_serving};
ghost use Rattle.forward_core.specs.Joined.Joined.{SessionStands, Placed, request_of, answer_of, HasWindows};

use forward_core::joined::Directions;
use http_model::OutOfMemory;
use http_rules::Config;
use htx_drive::replay::Cores;
use px_peer::Peer;
use serve_run::Opens;
use session_core::Core;
use std::alloc::Global;
use std::marker::Model;

/// The core of a session under a configuration.
pub(crate) type ConfigCore<'c> = Core<Directions<'c>>;

/// A core to which nothing has happened, with output windows of this size.
fn open_core<'c>(
    alloc: Global,
    config: &'c Config,
    window: u32,
) -> Result<ConfigCore<'c>, OutOfMemory>
    requires valid { IsValid config.now }
    requires window { 64 ≤ window }
    ensures stands { IfOk result (λ core. Stands (meaning_of config.now) request_of answer_of (SessionStands (config.now, window)) core.sides core.at nothing_yet) }
    ensures placed { IfOk result (λ core. IsPlaced (Placed core.sides) (answer_of core.sides) core.at.phase core.at.cut) }
    ensures idle { IfOk result (λ core. is_serving core.at.phase ≡ false) }
    ensures windows { IfOk result (λ core. HasWindows window core.sides) }
{
    let directions = Directions::new(alloc, config, window)?;
    Ok(Core::new(directions))
}

/// Makes the cores of the sessions of a record.
#[derive(Drop)]
pub(crate) struct RecordCores<'c> {
    pub(crate) config: &'c Config,
    /// How many bytes an output window has.
    pub(crate) window: u32,
    /// Whose connections they are, in the place of the configuration's.
    pub(crate) peer: Option<Peer>,
}

impl<'c> Cores<ConfigCore<'c>> for RecordCores<'c> {
    ghost use Rattle.proxy_sessions.specs.Ready.{IsReady};

    ghost settings = { λ cores. (record cores.config.now { peer = cores.peer }, cores.window) };

    ghost ready = { λ cores. IsReady (record cores.config.now { peer = cores.peer }) cores.window };

    fn bufsize(&self) -> u32 {
        self.config.limits.bufsize
    }

    fn core(&self, alloc: Global) -> Result<ConfigCore<'c>, OutOfMemory> {
        let mut core = open_core(alloc, self.config, self.window)?;
        core.reset_for(self.peer);
        Ok(core)
    }

    ghost some_room = { λ cores ready. ready.some_room };

    ghost is_bounded = { λ cores ready. ready.bounded };

    ghost is_total = { λ cores ready. ready.total };
}

/// Makes the cores of the sessions of clients. A session that came to its end leaves its memory to the next.
#[derive(Drop)]
pub(crate) struct ClientCores<'c> {
    alloc: Global,
    config: &'c Config,
    /// The core of an earlier session, for its memory.
    spare: Option<ConfigCore<'c>>,
}

impl<'c> Model for ClientCores<'c> {
    ghost use Rattle.http_rules.specs.declared.config.Config.{Config};
    ghost use Rattle.http_rules.specs.Valid.{IsValid};
    ghost use Rattle.proxy_sessions.specs.Spare.{IsSpare};

    ghost Value = { Config };

    ghost view = { λ cores. cores.config.now };

    ghost invariant = { λ cores. IsValid cores.config.now × IsSpare cores.config.now cores.spare };
}

impl<'c> ClientCores<'c> {
    pub(crate) fn new(alloc: Global, config: &'c Config) -> ClientCores<'c>
        requires { IsValid config.now }
        ensures { result ≡ config.now }
    {
        ClientCores {
            alloc,
            config,
            spare: None,
        }
    }

    /// A core in the memory of an earlier session, or in its own.
    fn next(&mut self) -> Result<ConfigCore<'c>, OutOfMemory>
        ensures used { IfOk result (IsUsed self.old) }
        ensures same { self.new ≡ self.old }
    {
        match self.spare.take() {
            Some(core) => Ok(core),
            None => open_core(self.alloc, self.config, self.config.limits.bufsize),
        }
    }
}

impl<'c> Opens<ConfigCore<'c>> for ClientCores<'c> {
    ghost settings = { λ cores. (cores, cores.limits.bufsize) };

    fn open(&mut self, peer: Option<Peer>) -> Result<ConfigCore<'c>, OutOfMemory> {
        match self.next() {
            Ok(used) => {
                let mut core = used;
                core.reset_for(peer);
                Ok(core)
            }
            Err(OutOfMemory) => Err(OutOfMemory),
        }
    }

    fn keep(&mut self, core: ConfigCore<'c>) {
        drop(self.spare.replace(core));
    }
}

//! Clients that connect, and their sessions.
ghost use Rattle.std.specs.Prelude.{◌≡◌, ◌⊎◌, ◌∷◌, ◌++◌, [], List, Option, Some, IsErrOf, IsOkUnless, OnOk, OnErr};
ghost use Rattle.http_rules.specs.Valid.{IsValid};
ghost use Rattle.htx_drive.specs.Dialled.{Dialled};
ghost use Rattle.px_link.specs.Net.{Coming, Kept, address_of};
ghost use Rattle.px_link.specs.Told.{Rose};
ghost use Rattle.proxy_sessions.specs.Connections.{ServesFor};
ghost use Rattle.serve_run.specs.Lines.{net_line};
ghost use Rattle.serve_run.specs.Served.{Breaks, LostOne, NetFails, ServedAll, ServedOne};
ghost use Rattle.serve_run.specs.Told.{Visited};

use crate::cores::{ClientCores, ConfigCore};
use crate::opening::responder_of;
use fcgi_link::AsksApplication;
use http_rules::Config;
use htx_drive::laws::ran_is_the_session;
use px_link::{Address, Application, Link, Net, Sink};
use px_proxyproto::{HasPair, Introduces};
use serve_run::{Driven, Ran, ServeFault, SessionFault, Sessions, serve};
use std::alloc::Global;

/// Sessions of one configuration with the servers at one address, one after another in the same memory.
#[derive(Drop)]
struct ConfigSessions<'c> {
    driven: Driven<'c, ConfigCore<'c>, ClientCores<'c>>,
}

impl<'c, H: Link + HasPair, N: Net<Link = H> + Introduces + AsksApplication> Sessions<N>
    for ConfigSessions<'c> {
    ghost use Rattle.px_link.specs.Net.{address_of};
    ghost use Rattle.proxy_sessions.specs.Connections.{ServesMet};

    type Settings = (
        Config,
        Address,
        bool,
        Option<u32>,
        Option<(Application, u32)>,
    );

    ghost settings = { λ s. (s.driven.opener, s.driven.to.now, s.driven.accepts_header, s.driven.sends_header, s.driven.responder) };

    ghost to = { λ settings. address_of settings.1 };

    ghost session = { λ settings first client first_net net result.
        ServesMet H.tells settings.2 settings.3 settings.4 settings.0 H.seen H.wrote (address_of settings.1) first client (N.seen first_net) (N.seen net) result };

    fn run(&mut self, client: &mut H, net: &mut N) -> Result<Ran, SessionFault> {
        ran_is_the_session::<ConfigCore<'c>, H>();
        self.driven.run(client, net)
    }
}

/// Listens where the configuration says, serves so many clients one after another, and writes a line for each once its session is over.
pub fn serve_clients<H: Link + HasPair, N: Net<Link = H> + Introduces + AsksApplication, K: Sink>(
    alloc: Global,
    config: &Config,
    count: u32,
    net: &mut N,
    out: &mut K,
) -> Result<(), ServeFault>
    requires valid { IsValid config.now }
    ensures good { OnOk result (ServedAll N.seen (ServedOne H.seen H.wrote N.seen
        (λ first client first_net net result. ServesFor H.tells config.now H.seen H.wrote (address_of config.now.server) first client (N.seen first_net) (N.seen net) result) (address_of config.now.server))
        (address_of config.now.bind) count net.old net.new (K.written out.old) (K.written out.new)) }
    ensures told { (coming : List Coming) (answers : List (Option Coming)) (kept : List Kept)
        → (N.seen net.old).accepts ≡ Some coming → (N.seen net.old).answers ≡ Some answers → (N.seen net.old).kept ≡ Some kept
        → OnOk result (Visited (N.seen net.new) coming kept count) }
    ensures net { IsErrOf result ServeFault.Net → NetFails N.seen (ServedOne H.seen H.wrote N.seen
        (λ first client first_net net result. ServesFor H.tells config.now H.seen H.wrote (address_of config.now.server) first client (N.seen first_net) (N.seen net) result) (address_of config.now.server))
        (address_of config.now.bind) count net_line net.old net.new (K.written out.old) (K.written out.new) }
    ensures output { IsErrOf result ServeFault.Output → Rose (K.faults out.old) (K.faults out.new) }
    ensures front { OnErr result (Breaks N.seen (ServedOne H.seen H.wrote N.seen
        (λ first client first_net net result. ServesFor H.tells config.now H.seen H.wrote (address_of config.now.server) first client (N.seen first_net) (N.seen net) result) (address_of config.now.server))
        (LostOne H.seen H.wrote N.seen
        (λ first client first_net net result. ServesFor H.tells config.now H.seen H.wrote (address_of config.now.server) first client (N.seen first_net) (N.seen net) result) (address_of config.now.server))
        (address_of config.now.bind) count net.old net.new (K.written out.old) (K.written out.new)) }
    ensures binds { OnOk result ((N.seen net.new).bound ≡ (N.seen net.old).bound ++ address_of config.now.bind ∷ []) }
    ensures bound { ((N.seen net.new).bound ≡ (N.seen net.old).bound) ⊎ ((N.seen net.new).bound ≡ (N.seen net.old).bound ++ address_of config.now.bind ∷ []) }
    ensures dialled { Dialled (N.seen net.old).dialled (N.seen net.new).dialled (address_of config.now.server) }
    ensures lent { (N.seen net.new).lent ≡ (N.seen net.old).lent }
    ensures complete { (Rose (N.seen net.old).bind_faults (N.seen net.new).bind_faults → ⊥) → (Rose (K.faults out.old) (K.faults out.new) → ⊥) → IsOkUnless result ServeFault.OutOfMemory }
{
    let mut sessions = ConfigSessions {
        driven: Driven::new(
            ClientCores::new(alloc, config),
            &config.server,
            config.accept_proxy,
            config.send_proxy,
            responder_of(config),
        ),
    };
    let served = serve(alloc, &config.bind, count, &mut sessions, net, out);
    drop(sessions);
    served
}

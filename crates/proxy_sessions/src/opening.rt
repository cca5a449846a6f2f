//! What each link to a server is told by a configuration before anything is written to it.
ghost use Rattle.std.specs.Prelude.{◌≡◌};
ghost use Rattle.proxy_sessions.specs.Connections.{responder_of};
ghost use Rattle.proxy_sessions.specs.Running.{opening_of};

use http_rules::Config;
use px_run::Opening;
use serve_run::Responder;

/// How the servers are asked by a configuration, where they are an application.
pub(crate) fn responder_of(config: &Config) -> Option<Responder<'_>>
    ensures { result ≡ responder_of config.now }
{
    match &config.application {
        Some(application) => Some(Responder {
            application,
            limit: config.limits.bufsize,
        }),
        None => None,
    }
}

/// What each link is told where many clients are served at once.
pub(crate) fn opening_of(config: &Config) -> Opening<'_>
    ensures { result ≡ opening_of config.now }
{
    Opening {
        sends_header: config.send_proxy,
        responder: responder_of(config),
    }
}

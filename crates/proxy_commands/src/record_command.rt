//! The commands that run a record by a configuration, and which configurations they refuse.
ghost use Rattle.std.specs.Prelude.{◌≡◌};
ghost use Rattle.proxy_commands.specs.Modes.{asks_application, refuses};

use cfg_parse::Config;

/// A command that runs a record by a configuration.
#[derive(Clone, Copy)]
pub enum RecordCommand {
    /// Each connection alone. It takes each configuration.
    Replay,
    /// The first exchange of the first connection. It takes none whose server is an application, or whose clients begin with a header of the PROXY protocol.
    Explain,
    /// All connections over cores that they share. It takes none whose server is an application, or with such a header on either side.
    Weave,
}

/// Whether the server is an application.
fn asks_application(config: &Config) -> bool
    ensures { result ≡ asks_application config.now }
{
    config.application.is_some()
}

/// Whether a command refuses a configuration as a whole.
pub(crate) fn refuses(command: RecordCommand, config: &Config) -> bool
    ensures { result ≡ refuses command config.now }
{
    match command {
        RecordCommand::Replay => false,
        RecordCommand::Explain => asks_application(config) || config.accept_proxy,
        RecordCommand::Weave => {
            asks_application(config) || config.accept_proxy || config.send_proxy.is_some()
        }
    }
}

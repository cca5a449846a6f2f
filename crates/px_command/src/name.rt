//! The names of commands.

/// A command.
#[derive(Clone, Copy)]
pub enum CommandName {
    Check,
    Replay,
    Explain,
    Weave,
    Serve,
    Run,
    Drill,
}

impl CommandName {
    ghost use Rattle.std.specs.Prelude.{◌≡◌};
    ghost use Rattle.px_command.specs.Command.{word_of};

    /// The word that names the command.
    pub fn word(&self) -> &'static str
        ensures { result.now ≡ word_of self.now }
    {
        match self {
            CommandName::Check => "check",
            CommandName::Replay => "replay",
            CommandName::Explain => "explain",
            CommandName::Weave => "weave",
            CommandName::Serve => "serve",
            CommandName::Run => "run",
            CommandName::Drill => "drill",
        }
    }
}

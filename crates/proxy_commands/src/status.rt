//! How the program ends.
ghost use Rattle.std.specs.Prelude.{◌≡◌};
ghost use Rattle.proxy_commands.specs.Numbers.{number_of};

/// How the program ended.
#[derive(Clone, Copy, Debug)]
pub enum Status {
    /// The command did what it was asked to.
    Good,
    /// The words are no command.
    Usage,
    /// The configuration is refused.
    Config,
    /// The record is refused.
    Record,
    /// A file could not be read.
    FileFault,
    /// The output could not be written.
    OutFault,
    /// A bind or an accept failed.
    NetFault,
    /// The machine has no memory left.
    OutOfMemory,
}

impl Status {
    /// The number that the process ends with.
    pub fn number(&self) -> u8
        ensures { result ≡ number_of self.now }
    {
        match self {
            Status::Good => 0,
            Status::Usage => 1,
            Status::Config => 2,
            Status::Record => 3,
            Status::FileFault => 4,
            Status::OutFault => 5,
            Status::NetFault => 6,
            Status::OutOfMemory => 7,
        }
    }
}

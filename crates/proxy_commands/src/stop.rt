//! Why a command stops. Each step of the program gives its value or a stop.
ghost use Rattle.std.specs.Prelude.{◌≡◌};
ghost use Rattle.proxy_commands.specs.Stops.{status_of};

use crate::status::Status;
use cfg_parse::{CfgFault, CfgKind};
use cfg_print::PrintFault;
use http_model::OutOfMemory;
use proxy_sessions::ServeFault;
use px_link::{Bytes, Fault};
use px_run::RunFault;
use rec_format::{RecFault, RecKind};

/// The line that stands for a configuration as a whole.
pub(crate) const WHOLE: u32 = 0;

/// Why a command stops.
#[derive(Drop)]
pub enum Stop<'a> {
    /// The words are no command. The text says what is wrong with them.
    Usage { text: Bytes },
    /// The configuration is refused at this line.
    Refused { line: u32, kind: CfgKind },
    /// Lines of the configuration are refused. The text tells each of them.
    RefusedAll { text: Bytes },
    /// The record is refused at this byte.
    Record { place: u32, kind: RecKind },
    /// The file of this name could not be read.
    File { name: &'a str },
    /// The output could not be written.
    Output,
    /// A bind or an accept failed.
    Net,
    /// The machine has no memory left.
    OutOfMemory,
}

impl<'a> Stop<'a> {
    /// The status that the program ends with.
    pub fn status(&self) -> Status
        ensures { result ≡ status_of self.now }
    {
        match self {
            Stop::Usage { .. } => Status::Usage,
            Stop::Refused { .. } | Stop::RefusedAll { .. } => Status::Config,
            Stop::Record { .. } => Status::Record,
            Stop::File { .. } => Status::FileFault,
            Stop::Output => Status::OutFault,
            Stop::Net => Status::NetFault,
            Stop::OutOfMemory => Status::OutOfMemory,
        }
    }
}

impl<'a> From<OutOfMemory> for Stop<'a> {
    ghost use Rattle.std.specs.Prelude.{◌≡◌};
    ghost use Rattle.proxy_commands.specs.declared.stop.Stop.TheVariants as stops;

    ghost from_gives = { λ _ stop. stop ≡ stops.OutOfMemory };

    fn from(_: OutOfMemory) -> Self {
        Stop::OutOfMemory
    }
}

/// A fault of the output. A file's fault is told with the file's name, where it is read.
impl<'a> From<Fault> for Stop<'a> {
    ghost use Rattle.std.specs.Prelude.{◌≡◌};
    ghost use Rattle.proxy_commands.specs.Stops.{stop_of_output};

    ghost from_gives = { λ fault stop. stop ≡ stop_of_output fault };

    fn from(fault: Fault) -> Self {
        match fault {
            Fault::Failed => Stop::Output,
            Fault::OutOfMemory => Stop::OutOfMemory,
        }
    }
}

impl<'a> From<CfgFault> for Stop<'a> {
    ghost use Rattle.std.specs.Prelude.{◌≡◌};
    ghost use Rattle.proxy_commands.specs.Stops.{stop_of_configuration};

    ghost from_gives = { λ fault stop. stop ≡ stop_of_configuration fault };

    fn from(fault: CfgFault) -> Self {
        match fault {
            CfgFault::Refused { line, kind } => Stop::Refused { line, kind },
            CfgFault::OutOfMemory => Stop::OutOfMemory,
        }
    }
}

/// A canonical text that would be too long refuses the configuration as a whole.
impl<'a> From<PrintFault> for Stop<'a> {
    ghost use Rattle.std.specs.Prelude.{◌≡◌};
    ghost use Rattle.proxy_commands.specs.Stops.{stop_of_printing};

    ghost from_gives = { λ fault stop. stop ≡ stop_of_printing fault };

    fn from(fault: PrintFault) -> Self {
        match fault {
            PrintFault::TooLong => Stop::Refused {
                line: WHOLE,
                kind: CfgKind::Limit,
            },
            PrintFault::OutOfMemory => Stop::OutOfMemory,
        }
    }
}

impl<'a> From<RecFault> for Stop<'a> {
    ghost use Rattle.std.specs.Prelude.{◌≡◌};
    ghost use Rattle.proxy_commands.specs.Stops.{stop_of_record};

    ghost from_gives = { λ fault stop. stop ≡ stop_of_record fault };

    fn from(fault: RecFault) -> Self {
        match fault {
            RecFault::Refused { place, kind } => Stop::Record { place, kind },
            RecFault::OutOfMemory => Stop::OutOfMemory,
        }
    }
}

impl<'a> From<ServeFault> for Stop<'a> {
    ghost use Rattle.std.specs.Prelude.{◌≡◌};
    ghost use Rattle.proxy_commands.specs.Stops.{stop_of_serving};

    ghost from_gives = { λ fault stop. stop ≡ stop_of_serving fault };

    fn from(fault: ServeFault) -> Self {
        match fault {
            ServeFault::Net => Stop::Net,
            ServeFault::Output => Stop::Output,
            ServeFault::OutOfMemory => Stop::OutOfMemory,
        }
    }
}

impl<'a> From<RunFault> for Stop<'a> {
    ghost use Rattle.std.specs.Prelude.{◌≡◌};
    ghost use Rattle.proxy_commands.specs.Stops.{stop_of_running};

    ghost from_gives = { λ fault stop. stop ≡ stop_of_running fault };

    fn from(fault: RunFault) -> Self {
        match fault {
            RunFault::Net => Stop::Net,
            RunFault::OutOfMemory => Stop::OutOfMemory,
            RunFault::Spent => Stop::Net,
        }
    }
}

//! Nets whose connected links ask an application, where one is told.
ghost use Rattle.std.specs.Prelude.{◌≡◌, OnOk, OnErr};
ghost use Rattle.fcgi_link.specs.Asked.{asking};

use px_link::{Application, Net, OutOfMemory};

/// A net that is told how an application is asked by its connected links.
pub trait AsksApplication: Net {
    /// Links that are connected from now on ask this application, whose heads have at most so many bytes. A net that was told one already stays as it is.
    fn ask(&mut self, application: &Application, limit: u32) -> Result<(), OutOfMemory>
        ensures asked { OnOk result (Self.seen self.new ≡ asking limit application.now (Self.seen self.old)) }
        ensures unasked { OnErr result (Self.seen self.new ≡ Self.seen self.old) };
}

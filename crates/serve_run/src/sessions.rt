//! What runs the sessions.
ghost use Rattle.std.specs.Prelude.{◌≡◌, Result, IsErrOf};
ghost use Rattle.htx_drive.specs.declared.Ran.{Ran};
ghost use Rattle.htx_drive.specs.declared.SessionFault.{SessionFault};
ghost use Rattle.htx_drive.specs.declared.SessionFault.TheVariants as faults;
ghost use Rattle.px_link.specs.Net.{Place};
ghost use Rattle.px_link.specs.Told.{Rose};
ghost use Rattle.serve_run.specs.Visits.{Visits, Puts};

use htx_drive::{Ran, SessionFault};
use px_link::{Link, Net};

/// Runs a session over each link that is accepted.
pub trait Sessions<N: Net> {
    /// The configuration.
    type Settings;

    ghost settings: { Self → Self.Settings };

    /// Where the servers are.
    ghost to: { Self.Settings → Place };

    /// What a session did with its client's link and the net, by its answer.
    ghost session: { Self.Settings → N.Link → N.Link → N → N → Result Ran SessionFault → Type 0 };

    /// Runs the session of a link that was accepted, and closes it.
    fn run(&mut self, client: &mut N::Link, net: &mut N) -> Result<Ran, SessionFault>
        ensures session { session (settings self.old) client.old client.new net.old net.new result }
        ensures settings { settings self.new ≡ settings self.old }
        ensures visits { Visits (to (settings self.old)) (N.seen net.old) (N.seen net.new) }
        ensures puts { Puts (N.Link.wrote client.old) (N.Link.wrote client.new) }
        ensures manner { (N.Link.seen client.new).manner ≡ (N.Link.seen client.old).manner }
        ensures fault { IsErrOf result faults.ClientWrite → Rose (N.Link.seen client.old).write_faults (N.Link.seen client.new).write_faults };
}

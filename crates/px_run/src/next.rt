//! What a connection does next: the first of its wants whose call is answered at once. Nothing here knows a link.
ghost use Rattle.std.specs.Prelude.{◌≡◌, None, false, if◌then◌else◌};
ghost use Rattle.px_run.specs.Next.{first_in, rows_of, moves_of, IsAllowed, may_move, may_act};

use http_model::{Close, End};
use px_link::Turn;
use session_core::Wants;

/// Which calls on the links of a connection are answered at once. One whose time is over is among them, since it fails at once.
#[derive(Clone, Copy)]
pub struct Ready {
    pub client_read: bool,
    pub client_write: bool,
    pub server_read: bool,
    pub server_write: bool,
    /// The connect to its server is over, well or not.
    pub connect: bool,
}

/// What a connection does next.
#[derive(Clone, Copy)]
pub enum Next {
    /// Its session is over, and it ends.
    End(End),
    /// The link of its server is closed.
    Close(Close),
    /// Its server is opened, or was refused.
    Open,
    /// One read or one write.
    Move(Turn),
    /// Nothing: no call that it wants is answered at once.
    Wait,
}

/// The first read or write that is wanted and answered at once.
fn move_of(wants: &Wants, ready: &Ready) -> Next
    requires going { wants.now.over ≡ None }
    requires no_close { wants.now.server_close ≡ None }
    requires no_open { wants.now.server_open ≡ false }
    ensures first { result ≡ first_in (moves_of wants.now ready.now) }
    ensures allowed { IsAllowed wants.now ready.now result }
    ensures waits { result ≡ Next.Wait → may_move wants.now ready.now ≡ false }
{
    if wants.server_write && ready.server_write {
        return Next::Move(Turn::ServerTakes(u32::MAX));
    }
    if wants.server_read && ready.server_read {
        return Next::Move(Turn::ServerGives(u32::MAX));
    }
    if wants.client_write && ready.client_write {
        return Next::Move(Turn::ClientTakes(u32::MAX));
    }
    if wants.client_read && ready.client_read {
        return Next::Move(Turn::ClientGives(u32::MAX));
    }
    Next::Wait
}

/// A server is wanted: it is opened once its connect is over.
fn open_of(connected: bool) -> Next
    ensures { result ≡ (if connected then Next.Open else Next.Wait) }
{
    if connected { Next::Open } else { Next::Wait }
}

/// What a connection does next, by what its core wants and by which calls are answered at once. One that wants a server waits for that alone.
pub fn next_of(wants: &Wants, ready: &Ready) -> Next
    ensures first { result ≡ first_in (rows_of wants.now ready.now) }
    ensures allowed { IsAllowed wants.now ready.now result }
    ensures waits { result ≡ Next.Wait → may_act wants.now ready.now ≡ false }
{
    if let Some(end) = wants.over {
        return Next::End(end);
    }
    if let Some(how) = wants.server_close {
        return Next::Close(how);
    }
    if wants.server_open {
        return open_of(ready.connect);
    }
    move_of(wants, ready)
}

//! What later waits are to tell of a connection: the link of its server, and a connect that is waited for.
ghost use Rattle.std.specs.Prelude.{◌≡◌};
ghost use Rattle.px_run.specs.Course.{IsSameServer};

use htx_drive::weave::Conn;
use px_link::{Waits, WaitsNet, Wakes};

/// Has later waits tell of a server's link that was opened.
pub(crate) fn watch_server<L: Waits, N: WaitsNet<Link = L>, W: Wakes<N>>(
    conn: &mut Conn<L, N>,
    place: usize,
    wakes: &mut W,
)
    ensures client { conn.new.client ≡ conn.old.client }
    ensures server { IsSameServer L.seen L.wrote conn.old.server conn.new.server }
    ensures net { conn.new.net ≡ conn.old.net }
    ensures ran { conn.new.ran ≡ conn.old.ran }
{
    match &mut conn.server {
        Some(link) => wakes.watch_server(place, link),
        None => {}
    }
}

/// Has later waits tell of the connect that is waited for.
pub(crate) fn watch_connect<L: Waits, N: WaitsNet<Link = L>, W: Wakes<N>>(
    conn: &mut Conn<L, N>,
    connects: bool,
    place: usize,
    wakes: &mut W,
)
    ensures client { conn.new.client ≡ conn.old.client }
    ensures server { conn.new.server ≡ conn.old.server }
    ensures net { N.seen conn.new.net ≡ N.seen conn.old.net }
    ensures ran { conn.new.ran ≡ conn.old.ran }
{
    if connects {
        wakes.watch_connect(place, &mut conn.net);
    }
}

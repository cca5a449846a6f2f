//! Which calls on the links of a connection are answered at once.
ghost use Rattle.std.specs.Prelude.{◌≡◌};
ghost use Rattle.px_run.specs.Course.{IsSame, IsSameServer};

use crate::Ready;
use htx_drive::Wants;
use htx_drive::weave::Conn;
use px_link::{Address, Waits, WaitsNet};

/// Whether a read is wanted and answered at once.
fn may_read<L: Waits>(link: &mut L, wanted: bool) -> bool
    ensures same { IsSame L.seen L.wrote link.old link.new }
{
    if !wanted {
        return false;
    }
    link.can_read()
}

/// Whether a write is wanted and answered at once.
fn may_write<L: Waits>(link: &mut L, wanted: bool) -> bool
    ensures same { IsSame L.seen L.wrote link.old link.new }
{
    if !wanted {
        return false;
    }
    link.can_write()
}

/// Whether a read of the server is wanted and answered at once.
fn may_read_server<L: Waits>(server: &mut Option<L>, wanted: bool) -> bool
    ensures same { IsSameServer L.seen L.wrote server.old server.new }
{
    match server {
        Some(link) => may_read(link, wanted),
        None => false,
    }
}

/// Whether a write to the server is wanted and answered at once.
fn may_write_server<L: Waits>(server: &mut Option<L>, wanted: bool) -> bool
    ensures same { IsSameServer L.seen L.wrote server.old server.new }
{
    match server {
        Some(link) => may_write(link, wanted),
        None => false,
    }
}

/// Whether a connect is wanted and is over, or its time is.
fn may_open<N: WaitsNet>(net: &mut N, to: &Address, wanted: bool, over: bool) -> bool
    ensures same { N.seen net.new ≡ N.seen net.old }
{
    if !wanted {
        return false;
    }
    if over {
        return true;
    }
    net.can_connect(to)
}

/// Tells a link whether it is written to now, and whether more follows at once.
fn cork<L: Waits>(link: &mut L, writes: bool, follows: bool)
    ensures same { IsSame L.seen L.wrote link.old link.new }
{
    link.cork(writes, follows);
}

/// Which call is answered at once, of those that are wanted: they are asked one after another in the order in which they are made (`next_of`), and none behind
/// the first, since each question may be a call of the system. Where enough waits for its client (`has_enough`) its server isn't asked before its client takes
/// none of it: what is read behind a window that is full goes the long way.
pub(crate) fn ready_of<L: Waits, N: WaitsNet<Link = L>>(
    conn: &mut Conn<L, N>,
    wants: &Wants,
    to: &Address,
    connect_over: bool,
    has_enough: bool,
) -> Ready
    ensures client { IsSame L.seen L.wrote conn.old.client conn.new.client }
    ensures server { IsSameServer L.seen L.wrote conn.old.server conn.new.server }
    ensures net { N.seen conn.new.net ≡ N.seen conn.old.net }
    ensures ran { conn.new.ran ≡ conn.old.ran }
{
    let connect = may_open(&mut conn.net, to, wants.server_open, connect_over);
    let server_write = may_write_server(&mut conn.server, wants.server_write);
    let goes_first = may_write(
        &mut conn.client,
        wants.client_write && has_enough && !server_write,
    );
    let server_read = may_read_server(
        &mut conn.server,
        wants.server_read && !server_write && !goes_first,
    );
    let server = server_write || server_read;
    let goes_behind = may_write(
        &mut conn.client,
        wants.client_write && !has_enough && !server,
    );
    let client_write = goes_first || goes_behind;
    let client_read = may_read(
        &mut conn.client,
        wants.client_read && !server && !client_write,
    );
    // where a server isn't to be read its bytes may wait within, behind a window that is full, and where enough waits more is on its way
    let within = (goes_first || client_write && !wants.server_read) && conn.server.is_some();
    cork(&mut conn.client, client_write, server_read || within);
    Ready {
        client_read,
        client_write,
        server_read,
        server_write,
        connect,
    }
}

//! One step of a connection that has a core: what it wants, of what its links answer at once.
ghost use Rattle.std.specs.Prelude.{◌≡◌, ◌<◌, ℕ, List, Some, None, true, false, IfOk, IfSome, OnOk, OnErr};
ghost use Rattle.px_link.specs.Net.{address_of, Place};
ghost use Rattle.px_link.specs.declared.turns.Turn.{Turn};
ghost use Rattle.htx_drive.specs.Weave.Woven.{Going};
ghost use Rattle.htx_drive.specs.Weave.Single.{Working, GivesUp, OrGivesUp};
ghost use Rattle.htx_drive.specs.Acts.{TakesTurn};
ghost use Rattle.px_run.specs.Course.{WorksOn, StepsTo, MayStep, HasCome, LeadsTo, IsUnderWay};
ghost use Rattle.px_run.specs.Next.{IsAllowed};
ghost use Rattle.px_run.specs.Log.{Logs};
ghost use Rattle.px_run.specs.declared.next.Ready.{Ready};

use crate::log::{Log, tell, waiting};
use crate::pace::Pace;
use crate::readiness::ready_of;
use crate::{Next, next_of};
use http_model::Close;
use htx_drive::weave::single::{close, end_said, open, take_turn, work, work_part};
use htx_drive::weave::{Conn, Resets, fail, finish};
use htx_drive::{MOST_READ, SessionFault, Wants};
use px_link::{Address, OutOfMemory, Turn, Waits, WaitsNet};

/// So many bytes for a client are written before its server is read again: three quarters of an output window of the default size, so that a read behind them
/// is none of a few bytes.
const ENOUGH: usize = 49152;

/// What all connections use, one after another.
#[derive(Drop)]
pub(crate) struct Tools {
    /// The time.
    pub now: u64,
    /// What reads read into.
    pub buffer: [u8; MOST_READ],
    /// The lines of the connection that is looked at.
    pub log: Log,
}

/// What a step came to.
#[derive(Clone, Copy)]
pub(crate) enum Stepped {
    /// Something was done.
    Moved,
    /// A server was asked for: it is open, or was refused.
    Opened,
    /// Nothing: no call that it wants is answered at once.
    Waits,
    /// Its session is over, or a write to its client failed: its client's link is closed.
    Ended,
    /// It found no memory, and was given up: its client's link is closed Failed. Its core takes no further call.
    Lost,
}

/// Opens its server.
fn opens<C: Resets, L: Waits, N: WaitsNet<Link = L>>(
    conn: &mut Conn<L, N>,
    core: &mut C,
    to: &Address,
) -> Stepped
    requires wanted { (C.seen core.old).wants.server_open ≡ true }
    requires may { MayStep C.seen C.sound core.old conn.old.server (N.seen conn.old.net) conn.old.ran }
    ensures goes { (cfg : C.Settings) (first : L) (first_net : N) → WorksOn (C.stands cfg) C.seen core.old L.seen L.wrote first conn.old.client conn.old.server (address_of to.now) (N.seen first_net) (N.seen conn.old.net)
        → LeadsTo result C.meaning C.stands cfg C.seen core.new L.seen L.wrote N.seen first (address_of to.now) first_net conn.new }
    ensures may { StepsTo result (MayStep C.seen C.sound core.new conn.new.server (N.seen conn.new.net) conn.new.ran) (HasCome result (C.sound core.new) conn.new.server conn.new.ran) }
{
    match open(conn, core, to) {
        Ok(()) => Stepped::Opened,
        Err(OutOfMemory) => {
            fail::<C, L, N>(conn, SessionFault::OutOfMemory);
            Stepped::Lost
        }
    }
}

/// Has its core work, and answers what it wants then. Where exchanges are told it works up to the end of one that is a refusal or a reply, and nothing is wanted before that is ended.
fn worked<C: Resets, L: Waits, N: WaitsNet<Link = L>>(
    conn: &mut Conn<L, N>,
    core: &mut C,
    logs: bool,
) -> Result<Option<Wants>, OutOfMemory>
    requires may { MayStep C.seen C.sound core.old conn.old.server (N.seen conn.old.net) conn.old.ran }
    ensures goes { (cfg : C.Settings) (all ahead : List Turn) (count : ℕ) (first : L) (to : Place) (first_net : N) → Going (C.stands cfg) C.seen all ahead core.old L.seen L.wrote first conn.old.client conn.old.server to (N.seen first_net) (N.seen conn.old.net) count
        → OrGivesUp result (Working (C.stands cfg) C.seen all ahead core.new L.seen L.wrote first conn.new.client conn.new.server to (N.seen first_net) (N.seen conn.new.net) count)
        (GivesUp (C.meaning cfg) (C.stands cfg) C.seen all core.new L.seen L.wrote first conn.new.client to (N.seen first_net) (N.seen conn.new.net) count false) }
    ensures wants { IfOk result (λ told. IfSome told (λ wants. wants ≡ (C.seen core.new).wants)) }
    ensures may { OnOk result (MayStep C.seen C.sound core.new conn.new.server (N.seen conn.new.net) conn.new.ran) }
    ensures none { OnErr result (conn.new.server ≡ None) }
    ensures ran { conn.new.ran ≡ conn.old.ran }
{
    if logs {
        return work_part(conn, core);
    }
    match work(conn, core) {
        Ok(wants) => Ok(Some(wants)),
        Err(OutOfMemory) => Err(OutOfMemory),
    }
}

/// Ends the exchange of a refusal or a reply of which all text was put out, and tells it first.
fn says<C: Resets, L: Waits, N: WaitsNet<Link = L>>(
    conn: &mut Conn<L, N>,
    core: &mut C,
    tools: &mut Tools,
)
    requires may { MayStep C.seen C.sound core.old conn.old.server (N.seen conn.old.net) conn.old.ran }
    ensures goes { (cfg : C.Settings) (first : L) (to : Place) (first_net : N) → WorksOn (C.stands cfg) C.seen core.old L.seen L.wrote first conn.old.client conn.old.server to (N.seen first_net) (N.seen conn.old.net)
        → IsUnderWay (C.stands cfg) C.seen core.new L.seen L.wrote N.seen first to first_net conn.new }
    ensures logs { (cfg : C.Settings) (first : L) (to : Place) (first_net : N) → WorksOn (C.stands cfg) C.seen core.old L.seen L.wrote first conn.old.client conn.old.server to (N.seen first_net) (N.seen conn.old.net)
        → Logs C.meaning C.stands cfg C.seen L.seen L.wrote N.seen first to first_net tools.old.log tools.new.log }
    ensures may { MayStep C.seen C.sound core.new conn.new.server (N.seen conn.new.net) conn.new.ran }
{
    tell(core, &mut tools.log, tools.now);
    end_said(conn, core);
}

/// Closes the link of its server, and tells the exchange first.
fn closes<C: Resets, L: Waits, N: WaitsNet<Link = L>>(
    conn: &mut Conn<L, N>,
    core: &mut C,
    how: Close,
    tools: &mut Tools,
)
    requires wanted { (C.seen core.old).wants.server_close ≡ Some how }
    requires may { MayStep C.seen C.sound core.old conn.old.server (N.seen conn.old.net) conn.old.ran }
    ensures goes { (cfg : C.Settings) (first : L) (to : Place) (first_net : N) → WorksOn (C.stands cfg) C.seen core.old L.seen L.wrote first conn.old.client conn.old.server to (N.seen first_net) (N.seen conn.old.net)
        → IsUnderWay (C.stands cfg) C.seen core.new L.seen L.wrote N.seen first to first_net conn.new }
    ensures logs { (cfg : C.Settings) (first : L) (to : Place) (first_net : N) → WorksOn (C.stands cfg) C.seen core.old L.seen L.wrote first conn.old.client conn.old.server to (N.seen first_net) (N.seen conn.old.net)
        → Logs C.meaning C.stands cfg C.seen L.seen L.wrote N.seen first to first_net tools.old.log tools.new.log }
    ensures may { MayStep C.seen C.sound core.new conn.new.server (N.seen conn.new.net) conn.new.ran }
{
    tell(core, &mut tools.log, tools.now);
    close(conn, core, how);
}

/// How many bytes wait for its client, where they are counted.
fn counted<C: Resets>(core: &mut C, log: &Log) -> usize
    requires sound { C.sound core.old }
    ensures same { core.new ≡ core.old }
{
    if !log.logs {
        return 0;
    }
    waiting(core)
}

/// One read or one write.
fn turns<C: Resets, L: Waits, N: WaitsNet<Link = L>>(
    conn: &mut Conn<L, N>,
    core: &mut C,
    turn: Turn,
    wants: &Wants,
    tools: &mut Tools,
) -> Stepped
    requires wants { wants.now ≡ (C.seen core.old).wants }
    requires takes { TakesTurn wants.now }
    requires may { MayStep C.seen C.sound core.old conn.old.server (N.seen conn.old.net) conn.old.ran }
    ensures goes { (cfg : C.Settings) (first : L) (to : Place) (first_net : N) → WorksOn (C.stands cfg) C.seen core.old L.seen L.wrote first conn.old.client conn.old.server to (N.seen first_net) (N.seen conn.old.net)
        → LeadsTo result C.meaning C.stands cfg C.seen core.new L.seen L.wrote N.seen first to first_net conn.new }
    ensures logs { (cfg : C.Settings) (first : L) (to : Place) (first_net : N) → WorksOn (C.stands cfg) C.seen core.old L.seen L.wrote first conn.old.client conn.old.server to (N.seen first_net) (N.seen conn.old.net)
        → Logs C.meaning C.stands cfg C.seen L.seen L.wrote N.seen first to first_net tools.old.log tools.new.log }
    ensures may { StepsTo result (MayStep C.seen C.sound core.new conn.new.server (N.seen conn.new.net) conn.new.ran) (HasCome result (C.sound core.new) conn.new.server conn.new.ran) }
{
    let waits = counted(core, &tools.log);
    match take_turn(conn, core, turn, &mut tools.buffer, wants) {
        Ok(_) => {
            let behind = counted(core, &tools.log);
            tools.log.tally.takes(waits, behind);
            Stepped::Moved
        }
        Err(SessionFault::ClientWrite) => {
            tools.log.tally.loses(waits);
            tell(core, &mut tools.log, tools.now);
            fail::<C, L, N>(conn, SessionFault::ClientWrite);
            Stepped::Ended
        }
        Err(SessionFault::OutOfMemory) => {
            fail::<C, L, N>(conn, SessionFault::OutOfMemory);
            Stepped::Lost
        }
        Err(SessionFault::Spent) => unreachable!(),
    }
}

/// Does what comes next.
fn act<C: Resets, L: Waits, N: WaitsNet<Link = L>>(
    conn: &mut Conn<L, N>,
    core: &mut C,
    next: Next,
    wants: &Wants,
    to: &Address,
    tools: &mut Tools,
) -> Stepped
    requires wants { wants.now ≡ (C.seen core.old).wants }
    requires allowed { (ready : Ready) × IsAllowed wants.now ready next }
    requires may { MayStep C.seen C.sound core.old conn.old.server (N.seen conn.old.net) conn.old.ran }
    ensures goes { (cfg : C.Settings) (first : L) (first_net : N) → WorksOn (C.stands cfg) C.seen core.old L.seen L.wrote first conn.old.client conn.old.server (address_of to.now) (N.seen first_net) (N.seen conn.old.net)
        → LeadsTo result C.meaning C.stands cfg C.seen core.new L.seen L.wrote N.seen first (address_of to.now) first_net conn.new }
    ensures logs { (cfg : C.Settings) (first : L) (first_net : N) → WorksOn (C.stands cfg) C.seen core.old L.seen L.wrote first conn.old.client conn.old.server (address_of to.now) (N.seen first_net) (N.seen conn.old.net)
        → Logs C.meaning C.stands cfg C.seen L.seen L.wrote N.seen first (address_of to.now) first_net tools.old.log tools.new.log }
    ensures may { StepsTo result (MayStep C.seen C.sound core.new conn.new.server (N.seen conn.new.net) conn.new.ran) (HasCome result (C.sound core.new) conn.new.server conn.new.ran) }
{
    match next {
        Next::End(end) => {
            finish(conn, core, end);
            Stepped::Ended
        }
        Next::Close(how) => {
            closes(conn, core, how, tools);
            Stepped::Moved
        }
        Next::Open => opens(conn, core, to),
        Next::Move(turn) => turns(conn, core, turn, wants, tools),
        Next::Wait => Stepped::Waits,
    }
}

/// Does what comes next of what it wants.
fn does<C: Resets, L: Waits, N: WaitsNet<Link = L>>(
    conn: &mut Conn<L, N>,
    core: &mut C,
    wants: &Wants,
    pace: &mut Pace,
    to: &Address,
    tools: &mut Tools,
) -> Stepped
    requires wants { wants.now ≡ (C.seen core.old).wants }
    requires may { MayStep C.seen C.sound core.old conn.old.server (N.seen conn.old.net) conn.old.ran }
    ensures goes { (cfg : C.Settings) (first : L) (first_net : N) → WorksOn (C.stands cfg) C.seen core.old L.seen L.wrote first conn.old.client conn.old.server (address_of to.now) (N.seen first_net) (N.seen conn.old.net)
        → LeadsTo result C.meaning C.stands cfg C.seen core.new L.seen L.wrote N.seen first (address_of to.now) first_net conn.new }
    ensures logs { (cfg : C.Settings) (first : L) (first_net : N) → WorksOn (C.stands cfg) C.seen core.old L.seen L.wrote first conn.old.client conn.old.server (address_of to.now) (N.seen first_net) (N.seen conn.old.net)
        → Logs C.meaning C.stands cfg C.seen L.seen L.wrote N.seen first (address_of to.now) first_net tools.old.log tools.new.log }
    ensures may { StepsTo result (MayStep C.seen C.sound core.new conn.new.server (N.seen conn.new.net) conn.new.ran) (HasCome result (C.sound core.new) conn.new.server conn.new.ran) }
{
    pace.wants(wants, core.client_room(), core.exchanges(), tools.now);
    let has_enough = waiting(core) >= ENOUGH;
    let ready = ready_of(conn, wants, to, pace.connect_over, has_enough);
    let next = next_of(wants, &ready);
    pace.did(&next, tools.now);
    act(conn, core, next, wants, to, tools)
}

/// One step of a connection that has this core.
pub(crate) fn step<C: Resets, L: Waits, N: WaitsNet<Link = L>>(
    conn: &mut Conn<L, N>,
    core: &mut C,
    pace: &mut Pace,
    to: &Address,
    tools: &mut Tools,
) -> Stepped
    requires may { MayStep C.seen C.sound core.old conn.old.server (N.seen conn.old.net) conn.old.ran }
    ensures goes { (cfg : C.Settings) (first : L) (first_net : N) → IsUnderWay (C.stands cfg) C.seen core.old L.seen L.wrote N.seen first (address_of to.now) first_net conn.old
        → LeadsTo result C.meaning C.stands cfg C.seen core.new L.seen L.wrote N.seen first (address_of to.now) first_net conn.new }
    ensures logs { (cfg : C.Settings) (first : L) (first_net : N) → IsUnderWay (C.stands cfg) C.seen core.old L.seen L.wrote N.seen first (address_of to.now) first_net conn.old
        → Logs C.meaning C.stands cfg C.seen L.seen L.wrote N.seen first (address_of to.now) first_net tools.old.log tools.new.log }
    ensures may { StepsTo result (MayStep C.seen C.sound core.new conn.new.server (N.seen conn.new.net) conn.new.ran) (HasCome result (C.sound core.new) conn.new.server conn.new.ran) }
{
    match worked(conn, core, tools.log.logs) {
        Ok(Some(wants)) => {
            tools.log.tally.sees(core.exchanges(), tools.now);
            does(conn, core, &wants, pace, to, tools)
        }
        Ok(None) => {
            says(conn, core, tools);
            Stepped::Moved
        }
        Err(OutOfMemory) => {
            fail::<C, L, N>(conn, SessionFault::OutOfMemory);
            Stepped::Lost
        }
    }
}

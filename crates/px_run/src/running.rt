//! The loop over many connections.
ghost use Rattle.std.specs.Prelude.{◌≡◌, ◌≤◌, ◌+◌, ◌⊎◌, ℕ, List, Bool, Option, true, false, IfSome, OnOk};
ghost use Rattle.std.specs.List.{AllByRecursion};
ghost use Rattle.px_link.specs.Net.{address_of, NetSeen, Place};
ghost use Rattle.htx_drive.specs.Weave.State.{IsReady};
ghost use Rattle.px_proxyproto.specs.Meeting.{source_in};
ghost use Rattle.px_run.specs.Connection.{◌∘◌, IsFreshFor};
ghost use Rattle.px_run.specs.Callers.{IsAtFor, CameBack};
ghost use Rattle.px_run.specs.History.{Visit};
ghost use Rattle.px_run.specs.declared.held.Held.{Held};
ghost use Rattle.px_run.specs.declared.plan.Opening.{Opening};
ghost use Rattle.px_run.specs.Served.{had_memory, ServedMany};
ghost use Rattle.px_run.specs.Hall.{IsPlaced, GaveUpAt, taken_at, count_taken, IsSameNet, IsBalanced, KeepsGoing, GoesFor};

use crate::accepts::{accepts, still_accepts};
use crate::agenda::Agenda;
use crate::boxed_core::boxed;
use crate::caller::{Caller, is_greeted};
use crate::connection::Connection;
use crate::hall::{Hall, is_empty, no_places};
use crate::lines::Output;
use crate::log::Log;
use crate::rounds::{looks, wait};
use crate::step::Tools;
use crate::{Nets, Plan, RunFault};
use fcgi_link::AsksApplication;
use http_model::Close;
use htx_drive::MOST_READ;
use htx_drive::weave::{Conn, ResetsFor, abandon};
use px_link::{OutOfMemory, Sink, Waits, WaitsNet, Wakes};
use px_proxyproto::{HasPair, Introduces};

/// How many connections may be open for each core: those that have none yet cost a link alone.
const PLACES_A_SET: usize = 4;

/// Rounds, until no connection is open and no further one is to be accepted.
fn rounds<
    C: ResetsFor + Drop,
    L: Waits + HasPair + Drop,
    N: WaitsNet<Link = L> + Introduces + AsksApplication + Drop,
    S: Nets<N>,
    W: Wakes<N>,
    K: Sink,
>(
    hall: &mut Hall<C, L, N>,
    net: &mut N,
    nets: &mut S,
    wakes: &mut W,
    out: &mut K,
    plan: &Plan,
) -> Result<(), RunFault>
    requires goes { (cfg : C.Settings) × (begun : NetSeen) × (writes : ℕ) × (before : Option (List ℕ)) × GoesFor C.meaning C.stands C.for_peer cfg C.seen C.sound C.rested L.seen L.wrote L.tells plan.now.accepts_header plan.now.logs plan.now.opening N.seen (address_of plan.now.to.now) true true begun (N.seen net.old) writes (K.faults out.old) before (K.written out.old) hall.old }
    requires lent { count_taken hall.old.places.items ≤ (N.seen net.old).lent }
    ensures goes { KeepsGoing C.meaning C.stands C.for_peer C.seen C.sound C.rested L.seen L.wrote L.tells plan.now.accepts_header plan.now.logs plan.now.opening N.seen (address_of plan.now.to.now) K.faults K.written (had_memory result) net.old net.new out.old out.new hall.old hall.new }
    ensures within { IfSome plan.now.connections (λ count. hall.old.accepted ≤ count → hall.new.accepted ≤ count) }
    ensures balanced { IsBalanced (N.seen net.old) (N.seen net.new) hall.old.places.items hall.new.places.items }
    ensures net { IsSameNet (N.seen net.old) (N.seen net.new) }
    ensures empty { OnOk result (count_taken hall.new.places.items ≡ 0) }
    ensures all { OnOk result (IfSome plan.now.connections (λ count. (count ≤ hall.new.accepted) ⊎ S.accepts_none nets.new)) }
{
    let mut agenda = match Agenda::new(plan.alloc, hall.places.capacity()) {
        Ok(agenda) => agenda,
        Err(OutOfMemory) => return Err(RunFault::OutOfMemory),
    };
    let mut more = true;
    for _ in 0..u64::MAX {
        more = still_accepts(more, agenda.may_accept, hall.accepted, plan, nets);
        if !more && is_empty(&hall.places) {
            return Ok(());
        }
        wait(hall, &mut agenda, wakes, more)?;
        hall.tools.now = wakes.now();
        match looks(hall, &mut agenda, net, wakes, out, plan) {
            Ok(()) => {}
            Err(OutOfMemory) => return Err(RunFault::OutOfMemory),
        }
        accepts(hall, &mut agenda, net, nets, wakes, plan)?;
        if agenda.gives_up() && is_empty(&hall.places) {
            return Err(RunFault::Net);
        }
    }
    Err(RunFault::Spent)
}

/// Gives up a connection that hasn't ended: each of its links that is still open is closed Failed, and its server's is kept.
fn give_up<C: ResetsFor, L: Waits + HasPair, N: WaitsNet<Link = L>>(
    caller: &Caller,
    conn: &mut Conn<L, N>,
)
    requires at { (cfg : C.Settings) × (accepts_header : Bool) × (opening : Opening) × (to : Place) × (first : L) × (first_net : N) × (held : Held C) × IsAtFor (C.meaning ∘ C.for_peer cfg ∘ source_in) (C.stands ∘ C.for_peer cfg ∘ source_in) C.seen C.sound C.rested L.seen L.wrote L.tells accepts_header opening N.seen first caller.now conn.old.client conn.old.server to (N.seen first_net) (N.seen conn.old.net) conn.old.ran held }
    ensures left { (cfg : C.Settings) (accepts_header : Bool) (opening : Opening) (to : Place) (first : L) (first_net : N) (held : Held C) → IsAtFor (C.meaning ∘ C.for_peer cfg ∘ source_in) (C.stands ∘ C.for_peer cfg ∘ source_in) C.seen C.sound C.rested L.seen L.wrote L.tells accepts_header opening N.seen first caller.now conn.old.client conn.old.server to (N.seen first_net) (N.seen conn.old.net) conn.old.ran held
        → CameBack (C.meaning ∘ C.for_peer cfg ∘ source_in) (C.stands ∘ C.for_peer cfg ∘ source_in) C.seen L.seen L.wrote L.tells accepts_header opening first conn.new.client to (N.seen first_net) (N.seen conn.new.net) conn.old.ran }
{
    if conn.ran.is_some() {
        return;
    }
    if is_greeted(caller) {
        conn.client.close(Close::Failed);
        return;
    }
    abandon::<C, L, N>(conn);
}

/// Gives up the connection of a place: each of its links that is still open is closed Failed, and all are given back.
fn leave<C: ResetsFor + Drop, L: Waits + HasPair + Drop, N: WaitsNet<Link = L> + Drop>(
    at: Option<Connection<C, L, N>>,
    net: &mut N,
)
    requires placed { (cfg : C.Settings) × (accepts_header : Bool) × (opening : Opening) × (to : Place) × (visits : List (Visit L N)) × IsPlaced (C.meaning ∘ C.for_peer cfg ∘ source_in) (C.stands ∘ C.for_peer cfg ∘ source_in) C.seen C.sound C.rested L.seen L.wrote L.tells accepts_header opening N.seen to visits at }
    requires lent { taken_at at ≤ (N.seen net.old).lent }
    ensures gave_up { (cfg : C.Settings) (accepts_header : Bool) (opening : Opening) (to : Place) → GaveUpAt (C.meaning ∘ C.for_peer cfg ∘ source_in) (C.stands ∘ C.for_peer cfg ∘ source_in) C.seen C.sound C.rested L.seen L.wrote L.tells accepts_header opening N.seen to (N.seen net.old) (N.seen net.new) at }
    ensures balanced { (N.seen net.new).lent + taken_at at ≡ (N.seen net.old).lent }
    ensures net { IsSameNet (N.seen net.old) (N.seen net.new) }
{
    match at {
        Some(connection) => {
            let mut conn = connection.conn;
            give_up::<C, L, N>(&connection.caller, &mut conn);
            net.keep(conn.client);
        }
        None => {}
    }
}

/// Gives up the connection at each place.
fn leave_all<C: ResetsFor + Drop, L: Waits + HasPair + Drop, N: WaitsNet<Link = L> + Drop>(
    hall: &mut Hall<C, L, N>,
    net: &mut N,
)
    requires goes { (cfg : C.Settings) × (accepts_header logs : Bool) × (opening : Opening) × (to : Place) × (fair whole : Bool) × (begun : NetSeen) × (writes writes_now : ℕ) × (before after : Option (List ℕ)) × GoesFor C.meaning C.stands C.for_peer cfg C.seen C.sound C.rested L.seen L.wrote L.tells accepts_header logs opening N.seen to fair whole begun (N.seen net.old) writes writes_now before after hall.old }
    requires lent { count_taken hall.old.places.items ≤ (N.seen net.old).lent }
    ensures goes { (cfg : C.Settings) (accepts_header logs : Bool) (opening : Opening) (to : Place) (fair whole : Bool) (begun : NetSeen) (writes writes_now : ℕ) (before after : Option (List ℕ)) → GoesFor C.meaning C.stands C.for_peer cfg C.seen C.sound C.rested L.seen L.wrote L.tells accepts_header logs opening N.seen to fair whole begun (N.seen net.old) writes writes_now before after hall.old
        → GoesFor C.meaning C.stands C.for_peer cfg C.seen C.sound C.rested L.seen L.wrote L.tells accepts_header logs opening N.seen to false whole begun (N.seen net.new) writes writes_now before after hall.new }
    ensures accepted { hall.new.accepted ≡ hall.old.accepted }
    ensures none { count_taken hall.new.places.items ≡ 0 }
    ensures balanced { IsBalanced (N.seen net.old) (N.seen net.new) hall.old.places.items hall.new.places.items }
    ensures net { IsSameNet (N.seen net.old) (N.seen net.new) }
{
    for left in 0..hall.places.len() {
        match hall.places.pop() {
            Some(at) => leave(at, net),
            None => return,
        }
    }
}

/// Serves many connections at once, each by the session of a core of its own, until so many were accepted and have ended, or until the caller accepts no more
/// and none is open. The net is bound already. `sets` are the cores that connections take in turn.
pub fn run<
    C: ResetsFor + Drop,
    L: Waits + HasPair + Drop,
    N: WaitsNet<Link = L> + Introduces + AsksApplication + Drop,
    S: Nets<N>,
    W: Wakes<N>,
    K: Sink,
>(
    net: &mut N,
    nets: &mut S,
    wakes: &mut W,
    out: &mut K,
    sets: Vec<C>,
    plan: &Plan,
) -> Result<(), RunFault>
    requires ready { AllByRecursion (IsReady C.seen C.sound) sets.items }
    requires fresh { (cfg : C.Settings) × AllByRecursion (IsFreshFor (λ pair. C.stands (C.for_peer cfg (source_in pair)))) sets.items }
    // Each link that was accepted is that of a connection, which was served to its end or given up, and was given back; and the lines were written.
    ensures served { (cfg : C.Settings) → AllByRecursion (IsFreshFor (λ pair. C.stands (C.for_peer cfg (source_in pair)))) sets.items → ServedMany (λ pair. C.meaning (C.for_peer cfg (source_in pair))) (λ pair. C.stands (C.for_peer cfg (source_in pair))) C.seen L.seen L.wrote L.tells plan.now.accepts_header plan.now.logs plan.now.opening N.seen (address_of plan.now.to.now) plan.now.connections (S.accepts_none nets.new) (N.seen net.old) (N.seen net.new) (K.faults out.old) (K.faults out.new) (K.written out.old) (K.written out.new) result }
    ensures lent { (N.seen net.new).lent ≡ (N.seen net.old).lent }
    ensures bound { (N.seen net.new).bound ≡ (N.seen net.old).bound }
    ensures dialled { (N.seen net.new).dialled ≡ (N.seen net.old).dialled }
{
    let count = sets.len().saturating_mul(PLACES_A_SET);
    let places = match no_places(plan.alloc, count) {
        Ok(places) => places,
        Err(OutOfMemory) => return Err(RunFault::OutOfMemory),
    };
    let sets = match boxed(plan.alloc, sets) {
        Ok(sets) => sets,
        Err(OutOfMemory) => return Err(RunFault::OutOfMemory),
    };
    wakes.watch_listener(net);
    let tools = Tools {
        now: wakes.now(),
        buffer: [0; MOST_READ],
        log: Log::new(plan.alloc),
    };
    let mut hall = Hall {
        places,
        sets,
        accepted: 0,
        output: Output::Open,
        tools,
    };
    match rounds(&mut hall, net, nets, wakes, out, plan) {
        Ok(()) => Ok(()),
        Err(fault) => {
            leave_all(&mut hall, net);
            Err(fault)
        }
    }
}

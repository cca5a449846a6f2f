//! All connections: their places, the cores that are free, and the lines of those that have ended.
ghost use Rattle.std.specs.Prelude.{◌≡◌, ◌≤◌, ◌++◌, ℕ, List, Option, true, is_ok, IfOk, OnOk};
ghost use Rattle.std.specs.List.{AllByRecursion};
ghost use Rattle.px_link.specs.Net.{address_of, NetSeen};
ghost use Rattle.htx_drive.specs.Weave.State.{IsReady};
ghost use Rattle.px_run.specs.Connection.{◌∘◌, AllFreshFor};
ghost use Rattle.px_proxyproto.specs.Meeting.{source_in};
ghost use Rattle.px_run.specs.Course.{IsSame, IsSameServer};
ghost use Rattle.px_run.specs.Lines.{Writes, ended_by, says_of, lines_of};
ghost use Rattle.px_run.specs.Log.{MoreLines};
ghost use Rattle.px_run.specs.History.{Visit, IsLogged};
ghost use Rattle.px_run.specs.Hall.{IsPlaced, IsAskedAt, LookedAt, MayGiveBack, HasEnded, AllStand, Advances, advanced, taken_at, count_taken, IsSameNet, IsBalancedAt, GoesFor};

use crate::boxed_core::BoxedCore;
use crate::connection::{Connection, Looked};
use crate::lines::{Output, write_line, write_log};
use crate::looking::look;
use crate::pace::Pace;
use crate::step::Tools;
use crate::{Call, Plan};
use htx_drive::weave::{Conn, Resets, ResetsFor};
use px_link::{OutOfMemory, Readiness, Sink, Waits, WaitsNet, Wakes};
use px_proxyproto::{HasPair, Introduces};
use std::alloc::Global;

/// All connections.
#[derive(Drop)]
pub(crate) struct Hall<C, L, N> {
    /// The connection at each place.
    pub places: Vec<Option<Connection<C, L, N>>>,
    /// The cores that are free.
    pub sets: Vec<BoxedCore<C>>,
    /// How many links were accepted.
    pub accepted: u32,
    pub output: Output,
    pub tools: Tools,
}

/// Memory for so many places, of which none is there yet: it is written to where a connection comes, so those that never come cost none.
pub(crate) fn no_places<C: Drop, L: Drop, N: Drop>(
    alloc: Global,
    count: usize,
) -> Result<Vec<Option<Connection<C, L, N>>>, OutOfMemory>
    ensures none { IfOk result (λ places. count_taken places.items ≡ 0) }
{
    Ok(Vec::with_capacity(alloc, count)?)
}

/// Whether no connection is open.
pub(crate) fn is_empty<C, L, N>(places: &[Option<Connection<C, L, N>>]) -> bool
    ensures { result ≡ true → count_taken places.now ≡ 0 }
{
    for at in places {
        if at.is_some() {
            return false;
        }
    }
    true
}

/// Takes in what an event tells of a client's link.
pub(crate) fn note_client<C: Resets, L: Waits, N: WaitsNet<Link = L>>(
    at: &mut Option<Connection<C, L, N>>,
    told: Readiness,
)
    ensures asked { IsAskedAt L.seen L.wrote N.seen at.old at.new }
{
    match at {
        Some(connection) => connection.conn.client.note(told),
        None => {}
    }
}

/// Takes in what an event tells of a server's link, or of a connect.
pub(crate) fn note_server<C: Resets, L: Waits, N: WaitsNet<Link = L>>(
    at: &mut Option<Connection<C, L, N>>,
    told: Readiness,
)
    ensures asked { IsAskedAt L.seen L.wrote N.seen at.old at.new }
{
    match at {
        Some(connection) => note_link(&mut connection.conn.server, told),
        None => {}
    }
}

/// The same of the link.
fn note_link<L: Waits>(server: &mut Option<L>, told: Readiness)
    ensures same { IsSameServer L.seen L.wrote server.old server.new }
{
    match server {
        Some(link) => link.note(told),
        None => {}
    }
}

/// Has each later read of a server's link fail.
fn expire_server_read<L: Waits>(server: &mut Option<L>)
    ensures same { IsSameServer L.seen L.wrote server.old server.new }
{
    match server {
        Some(link) => link.expire_read(),
        None => {}
    }
}

/// Has each later write to a server's link fail.
fn expire_server_write<L: Waits>(server: &mut Option<L>)
    ensures same { IsSameServer L.seen L.wrote server.old server.new }
{
    match server {
        Some(link) => link.expire_write(),
        None => {}
    }
}

/// Has the call of a connection fail whose time is over.
fn expire_call<L: Waits, N: WaitsNet<Link = L>>(conn: &mut Conn<L, N>, call: Call)
    ensures client { IsSame L.seen L.wrote conn.old.client conn.new.client }
    ensures server { IsSameServer L.seen L.wrote conn.old.server conn.new.server }
    ensures net { conn.new.net ≡ conn.old.net }
    ensures ran { conn.new.ran ≡ conn.old.ran }
{
    match call {
        Call::Connect => {}
        Call::ServerRead => expire_server_read(&mut conn.server),
        Call::ServerWrite => expire_server_write(&mut conn.server),
        Call::ClientWrite => conn.client.expire_write(),
        Call::ClientRead => conn.client.expire_read(),
    }
}

/// Has the call of the connection at a place fail.
pub(crate) fn expire<C: Resets, L: Waits, N: WaitsNet<Link = L>>(
    at: &mut Option<Connection<C, L, N>>,
    call: Call,
)
    ensures asked { IsAskedAt L.seen L.wrote N.seen at.old at.new }
{
    match at {
        Some(connection) => expire_call(&mut connection.conn, call),
        None => {}
    }
}

/// A look at the connection of a place.
fn look_at<
    C: ResetsFor + Drop,
    L: Waits + HasPair,
    N: WaitsNet<Link = L> + Introduces,
    W: Wakes<N>,
>(
    at: &mut Option<Connection<C, L, N>>,
    sets: &mut Vec<BoxedCore<C>>,
    pace: &mut Pace,
    wakes: &mut W,
    plan: &Plan,
    tools: &mut Tools,
) -> Looked
    requires at { (cfg : C.Settings) × (visits : List (Visit L N)) × AllFreshFor C.stands C.for_peer cfg sets.old.items × IsPlaced (C.meaning ∘ C.for_peer cfg ∘ source_in) (C.stands ∘ C.for_peer cfg ∘ source_in) C.seen C.sound C.rested L.seen L.wrote L.tells plan.now.accepts_header plan.now.opening N.seen (address_of plan.now.to.now) visits at.old }
    requires ready { AllByRecursion (IsReady C.seen C.sound) sets.old.items }
    ensures ready { AllByRecursion (IsReady C.seen C.sound) sets.new.items }
    ensures placed { (cfg : C.Settings) (visits : List (Visit L N)) → AllFreshFor C.stands C.for_peer cfg sets.old.items → IsPlaced (C.meaning ∘ C.for_peer cfg ∘ source_in) (C.stands ∘ C.for_peer cfg ∘ source_in) C.seen C.sound C.rested L.seen L.wrote L.tells plan.now.accepts_header plan.now.opening N.seen (address_of plan.now.to.now) visits at.old → IsPlaced (C.meaning ∘ C.for_peer cfg ∘ source_in) (C.stands ∘ C.for_peer cfg ∘ source_in) C.seen C.sound C.rested L.seen L.wrote L.tells plan.now.accepts_header plan.now.opening N.seen (address_of plan.now.to.now) (advanced at.new visits) at.new }
    ensures fresh { (cfg : C.Settings) (visits : List (Visit L N)) → AllFreshFor C.stands C.for_peer cfg sets.old.items → IsPlaced (C.meaning ∘ C.for_peer cfg ∘ source_in) (C.stands ∘ C.for_peer cfg ∘ source_in) C.seen C.sound C.rested L.seen L.wrote L.tells plan.now.accepts_header plan.now.opening N.seen (address_of plan.now.to.now) visits at.old → AllFreshFor C.stands C.for_peer cfg sets.new.items }
    ensures logs { (cfg : C.Settings) (visits : List (Visit L N)) → AllFreshFor C.stands C.for_peer cfg sets.old.items → IsPlaced (C.meaning ∘ C.for_peer cfg ∘ source_in) (C.stands ∘ C.for_peer cfg ∘ source_in) C.seen C.sound C.rested L.seen L.wrote L.tells plan.now.accepts_header plan.now.opening N.seen (address_of plan.now.to.now) visits at.old
        → MoreLines (IsLogged (C.meaning ∘ C.for_peer cfg ∘ source_in) (C.stands ∘ C.for_peer cfg ∘ source_in) C.seen L.seen L.wrote L.tells plan.now.accepts_header plan.now.logs plan.now.opening N.seen (address_of plan.now.to.now) visits) tools.old.log.text.items tools.new.log.text.items }
    ensures looked { LookedAt result at.old at.new }
{
    match at {
        Some(connection) => look(connection, sets, pace, wakes, plan, tools),
        None => Looked::Waits,
    }
}

/// A look at the connection of the place that this pace is of.
fn look_here<
    C: ResetsFor + Drop,
    L: Waits + HasPair,
    N: WaitsNet<Link = L> + Introduces,
    W: Wakes<N>,
>(hall: &mut Hall<C, L, N>, pace: &mut Pace, wakes: &mut W, plan: &Plan) -> Looked
    requires stands { (cfg : C.Settings) × (visits : List (Visit L N)) × AllStand (C.meaning ∘ C.for_peer cfg ∘ source_in) (C.stands ∘ C.for_peer cfg ∘ source_in) C.seen C.sound C.rested L.seen L.wrote L.tells plan.now.accepts_header plan.now.opening N.seen (address_of plan.now.to.now) visits hall.old.places.items hall.old.sets.items }
    ensures stands { (cfg : C.Settings) (visits : List (Visit L N)) → AllStand (C.meaning ∘ C.for_peer cfg ∘ source_in) (C.stands ∘ C.for_peer cfg ∘ source_in) C.seen C.sound C.rested L.seen L.wrote L.tells plan.now.accepts_header plan.now.opening N.seen (address_of plan.now.to.now) visits hall.old.places.items hall.old.sets.items
        → (behind : List (Visit L N)) × Advances result visits behind × AllStand (C.meaning ∘ C.for_peer cfg ∘ source_in) (C.stands ∘ C.for_peer cfg ∘ source_in) C.seen C.sound C.rested L.seen L.wrote L.tells plan.now.accepts_header plan.now.opening N.seen (address_of plan.now.to.now) behind hall.new.places.items hall.new.sets.items }
    ensures logs { (cfg : C.Settings) (visits : List (Visit L N)) → AllStand (C.meaning ∘ C.for_peer cfg ∘ source_in) (C.stands ∘ C.for_peer cfg ∘ source_in) C.seen C.sound C.rested L.seen L.wrote L.tells plan.now.accepts_header plan.now.opening N.seen (address_of plan.now.to.now) visits hall.old.places.items hall.old.sets.items
        → MoreLines (IsLogged (C.meaning ∘ C.for_peer cfg ∘ source_in) (C.stands ∘ C.for_peer cfg ∘ source_in) C.seen L.seen L.wrote L.tells plan.now.accepts_header plan.now.logs plan.now.opening N.seen (address_of plan.now.to.now) visits) hall.old.tools.log.text.items hall.new.tools.log.text.items }
    ensures taken { count_taken hall.new.places.items ≡ count_taken hall.old.places.items }
    ensures accepted { hall.new.accepted ≡ hall.old.accepted }
    ensures output { hall.new.output ≡ hall.old.output }
{
    let place = pace.place;
    if place >= hall.places.len() {
        return Looked::Waits;
    }
    look_at(
        &mut hall.places[place],
        &mut hall.sets,
        pace,
        wakes,
        plan,
        &mut hall.tools,
    )
}

/// A look at the connection of a place, and its line where it has ended.
pub(crate) fn visit<
    C: ResetsFor + Drop,
    L: Waits + HasPair,
    N: WaitsNet<Link = L> + Introduces,
    W: Wakes<N>,
    K: Sink,
>(
    hall: &mut Hall<C, L, N>,
    pace: &mut Pace,
    wakes: &mut W,
    out: &mut K,
    plan: &Plan,
) -> Result<Looked, OutOfMemory>
    requires stands { (cfg : C.Settings) × (visits : List (Visit L N)) × AllStand (C.meaning ∘ C.for_peer cfg ∘ source_in) (C.stands ∘ C.for_peer cfg ∘ source_in) C.seen C.sound C.rested L.seen L.wrote L.tells plan.now.accepts_header plan.now.opening N.seen (address_of plan.now.to.now) visits hall.old.places.items hall.old.sets.items }
    ensures goes { (cfg : C.Settings) (begun now : NetSeen) (writes : ℕ) (before : Option (List ℕ)) → GoesFor C.meaning C.stands C.for_peer cfg C.seen C.sound C.rested L.seen L.wrote L.tells plan.now.accepts_header plan.now.logs plan.now.opening N.seen (address_of plan.now.to.now) true true begun now writes (K.faults out.old) before (K.written out.old) hall.old
        → GoesFor C.meaning C.stands C.for_peer cfg C.seen C.sound C.rested L.seen L.wrote L.tells plan.now.accepts_header plan.now.logs plan.now.opening N.seen (address_of plan.now.to.now) (is_ok result) (is_ok result) begun now writes (K.faults out.new) before (K.written out.new) hall.new }
    ensures taken { count_taken hall.new.places.items ≡ count_taken hall.old.places.items }
    ensures accepted { hall.new.accepted ≡ hall.old.accepted }
{
    hall.tools.log.text.truncate(0);
    let looked = look_here(hall, pace, wakes, plan);
    match write_log(&hall.tools.log, &mut hall.output, out) {
        Ok(()) => say(looked, plan.alloc, &mut hall.output, out),
        Err(OutOfMemory) => Err(OutOfMemory),
    }
}

/// The line of a connection that ended in this look.
fn say<K: Sink>(
    looked: Looked,
    alloc: Global,
    output: &mut Output,
    out: &mut K,
) -> Result<Looked, OutOfMemory>
    // `text` is what was to be written before.
    ensures writes { (writes : ℕ) (before : Option (List ℕ)) (text : List ℕ) → Writes true output.old writes (K.faults out.old) before (K.written out.old) text
        → Writes (is_ok result) output.new writes (K.faults out.new) before (K.written out.new) (text ++ lines_of (says_of (ended_by looked))) }
    ensures kept_on { OnOk result (looked ≡ Looked.Lost → ⊥) }
{
    match looked {
        Looked::Ended(number, outcome) => match write_line(alloc, number, &outcome, output, out) {
            Ok(()) => Ok(looked),
            Err(OutOfMemory) => Err(OutOfMemory),
        },
        Looked::Lost => Err(OutOfMemory),
        Looked::Waits => Ok(looked),
        Looked::Rests => Ok(looked),
        Looked::GoesOn => Ok(looked),
        Looked::Hungry => Ok(looked),
        Looked::Leaves => Ok(looked),
    }
}

/// Whether the connection of a place has ended.
fn has_ended<C, L, N>(at: &Option<Connection<C, L, N>>) -> bool
    ensures { result ≡ true → HasEnded at.now }
{
    match at {
        Some(connection) => connection.conn.ran.is_some(),
        None => false,
    }
}

/// A connection that has ended leaves its place: its client's link is given back.
pub(crate) fn give_back<C: Resets + Drop, L: Waits + Drop, N: WaitsNet<Link = L> + Drop>(
    at: &mut Option<Connection<C, L, N>>,
    net: &mut N,
)
    requires lent { taken_at at.old ≤ (N.seen net.old).lent }
    ensures gives { MayGiveBack L.seen L.wrote (N.seen net.old) (N.seen net.new) at.old at.new }
    ensures balanced { IsBalancedAt (N.seen net.old) (N.seen net.new) at.old at.new }
    ensures net { IsSameNet (N.seen net.old) (N.seen net.new) }
{
    if !has_ended(at) {
        return;
    }
    match at.take() {
        Some(connection) => {
            let conn = connection.conn;
            net.keep(conn.client);
        }
        None => {}
    }
}

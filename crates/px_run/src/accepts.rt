//! Links that are accepted, while places are free.
ghost use Rattle.std.specs.Prelude.{◌≡◌, ◌<◌, ◌≤◌, ◌+◌, ◌-◌, ◌^◌, ◌++◌, ◌∷◌, [], ◌⊎◌, List, true, false, Option, None, Some, IfSome, IfOk, length, slice_index_or};
ghost use Rattle.px_link.specs.Net.{Place};
ghost use Rattle.px_run.specs.declared.connection.Connection.{Connection};
ghost use Rattle.px_run.specs.Course.{IsToldNet};
ghost use Rattle.px_run.specs.History.{Visit, new_visit};
ghost use Rattle.px_proxyproto.specs.Meeting.{source_in};
ghost use Rattle.px_run.specs.Connection.{◌∘◌};
ghost use Rattle.px_run.specs.Hall.{AllStand, AllAsked, count_taken, IsSameNet, IsBalanced, KeepsAll};

use crate::agenda::Agenda;
use crate::caller::{caller_of, introduce};
use crate::connection::Connection;
use crate::hall::Hall;
use crate::held::Held;
use crate::{Nets, Plan, RunFault, Times};
use fcgi_link::AsksApplication;
use htx_drive::weave::{Conn, Resets, ResetsFor};
use px_link::{Fault, OutOfMemory, Waits, WaitsNet, Wakes};
use px_proxyproto::{HasPair, Introduces};
use serve_run::{Responder, ask_for};

/// So many links are accepted in a round at most. Others wait in the system's backlog until those in hand have gone on: the fewer are in hand, the more of
/// what they need is in a cache of the processor.
const ACCEPTS_A_ROUND: u32 = 8;

/// Whether as many links were accepted as are to be, or as the number of a connection counts.
fn has_all(accepted: u32, connections: Option<u32>) -> bool
    ensures all { result ≡ true → IfSome connections (λ count. count ≤ accepted) }
    ensures within { result ≡ false → IfSome connections (λ count. accepted < count) }
    ensures more { result ≡ false → accepted < 2 ^ 32 - 1 }
{
    match connections {
        Some(count) => accepted >= count,
        None => accepted == u32::MAX,
    }
}

/// Whether a further link is to be accepted.
pub(crate) fn accepts_more<N: WaitsNet, S: Nets<N>>(
    accepted: u32,
    plan: &Plan,
    nets: &mut S,
) -> bool
    ensures more { result ≡ true → accepted < 2 ^ 32 - 1 }
    ensures within { result ≡ true → IfSome plan.now.connections (λ count. accepted < count) }
    ensures all { result ≡ false → IfSome plan.now.connections (λ count. (count ≤ accepted) ⊎ S.accepts_none nets.new) }
{
    if has_all(accepted, plan.connections) {
        return false;
    }
    nets.accepts_more()
}

/// The same, where this may have changed: it is asked again where a link may wait to be accepted, since what turns further ones off is told together with those.
pub(crate) fn still_accepts<N: WaitsNet, S: Nets<N>>(
    accepted_before: bool,
    may_accept: bool,
    accepted: u32,
    plan: &Plan,
    nets: &mut S,
) -> bool
    ensures all { result ≡ false → IfSome plan.now.connections (λ count. (count ≤ accepted) ⊎ S.accepts_none nets.new) }
{
    if accepted_before && !may_accept {
        return true;
    }
    accepts_more(accepted, plan, nets)
}

/// Puts a connection at a place at which none is.
fn put<T>(at: &mut Option<T>, value: T)
    requires { at.old ≡ None }
    ensures { at.new ≡ Some value }
{
    match at.replace(value) {
        None => {}
        Some(_) => unreachable!(),
    }
}

/// A connection over a link that was accepted, at a place at which none is. Its net is to introduce it already where it is known who asks.
fn take_in<
    C: ResetsFor + Drop,
    L: Waits + HasPair,
    N: WaitsNet<Link = L> + Introduces,
    W: Wakes<N>,
>(hall: &mut Hall<C, L, N>, place: usize, link: L, own: N, wakes: &mut W, plan: &Plan)
    requires within { place < length hall.old.places.items }
    requires none { (d : Option (Connection C L N)) → slice_index_or hall.old.places.items place d ≡ None }
    requires more { hall.old.accepted < 2 ^ 32 - 1 }
    requires own { IsToldNet plan.now.opening.responder (N.seen own) }
    ensures stands { (cfg : C.Settings) (to : Place) (visits : List (Visit L N)) → hall.old.accepted ≡ length visits → AllStand (C.meaning ∘ C.for_peer cfg ∘ source_in) (C.stands ∘ C.for_peer cfg ∘ source_in) C.seen C.sound C.rested L.seen L.wrote L.tells plan.now.accepts_header plan.now.opening N.seen to visits hall.old.places.items hall.old.sets.items
        → AllStand (C.meaning ∘ C.for_peer cfg ∘ source_in) (C.stands ∘ C.for_peer cfg ∘ source_in) C.seen C.sound C.rested L.seen L.wrote L.tells plan.now.accepts_header plan.now.opening N.seen to (visits ++ new_visit link own ∷ []) hall.new.places.items hall.new.sets.items }
    ensures accepted { hall.new.accepted ≡ hall.old.accepted + 1 }
    ensures output { hall.new.output ≡ hall.old.output }
    ensures taken { count_taken hall.new.places.items ≡ 1 + count_taken hall.old.places.items }
{
    let caller = caller_of(&link, plan.accepts_header);
    let mut own = own;
    introduce(&caller, &mut own, &plan.opening);
    let mut link = link;
    wakes.watch_client(place, &mut link);
    hall.accepted += 1;
    let connection = Connection {
        number: hall.accepted,
        caller,
        conn: Conn::new(link, own),
        core: Held::Nothing,
    };
    put(&mut hall.places[place], connection);
}

/// A net of its own for a connection, which was told of the application, where there is one.
fn told_net<N: WaitsNet + AsksApplication + Drop, S: Nets<N>>(
    nets: &mut S,
    responder: &Option<Responder<'_>>,
) -> Result<N, OutOfMemory>
    ensures { IfOk result (λ net. IsToldNet responder.now (N.seen net)) }
{
    let mut own = nets.net()?;
    match ask_for(&mut own, responder) {
        Ok(()) => Ok(own),
        Err(OutOfMemory) => Err(OutOfMemory),
    }
}

/// Accepts a link at a place at which no connection is.
fn accept<
    C: ResetsFor + Drop,
    L: Waits + HasPair,
    N: WaitsNet<Link = L> + Introduces + AsksApplication + Drop,
    S: Nets<N>,
    W: Wakes<N>,
>(
    hall: &mut Hall<C, L, N>,
    place: usize,
    net: &mut N,
    nets: &mut S,
    wakes: &mut W,
    plan: &Plan,
) -> Result<(), Fault>
    requires within { place < length hall.old.places.items }
    requires none { (d : Option (Connection C L N)) → slice_index_or hall.old.places.items place d ≡ None }
    requires more { hall.old.accepted < 2 ^ 32 - 1 }
    ensures goes { KeepsAll C.meaning C.stands C.for_peer C.seen C.sound C.rested L.seen L.wrote L.tells plan.now.accepts_header plan.now.logs plan.now.opening N.seen net.old net.new hall.old hall.new }
    ensures accepted { hall.new.accepted ≤ hall.old.accepted + 1 }
    ensures balanced { IsBalanced (N.seen net.old) (N.seen net.new) hall.old.places.items hall.new.places.items }
    ensures net { IsSameNet (N.seen net.old) (N.seen net.new) }
{
    let own = match told_net(nets, &plan.opening.responder) {
        Ok(own) => own,
        Err(OutOfMemory) => return Err(Fault::OutOfMemory),
    };
    match net.accept() {
        Ok(link) => {
            take_in(hall, place, link, own, wakes, plan);
            Ok(())
        }
        Err(Fault::Failed) => Err(Fault::Failed),
        Err(Fault::OutOfMemory) => Err(Fault::OutOfMemory),
    }
}

/// Whether this is a place at which no connection is.
fn is_free<C, L, N>(places: &[Option<Connection<C, L, N>>], place: usize) -> bool
    ensures { result ≡ true → (place < length places.now) × ((d : Option (Connection C L N)) → slice_index_or places.now place d ≡ None) }
{
    if place >= places.len() {
        return false;
    }
    places[place].is_none()
}

/// Accepts a link where one waits, and answers whether another may be accepted at once.
fn accept_next<
    C: ResetsFor + Drop,
    L: Waits + HasPair,
    N: WaitsNet<Link = L> + Introduces + AsksApplication + Drop,
    S: Nets<N>,
    W: Wakes<N>,
>(
    hall: &mut Hall<C, L, N>,
    agenda: &mut Agenda,
    net: &mut N,
    nets: &mut S,
    wakes: &mut W,
    plan: &Plan,
) -> Result<bool, RunFault>
    ensures goes { KeepsAll C.meaning C.stands C.for_peer C.seen C.sound C.rested L.seen L.wrote L.tells plan.now.accepts_header plan.now.logs plan.now.opening N.seen net.old net.new hall.old hall.new }
    ensures within { IfSome plan.now.connections (λ count. hall.old.accepted ≤ count → hall.new.accepted ≤ count) }
    ensures balanced { IsBalanced (N.seen net.old) (N.seen net.new) hall.old.places.items hall.new.places.items }
    ensures net { IsSameNet (N.seen net.old) (N.seen net.new) }
{
    if has_all(hall.accepted, plan.connections) {
        return Ok(false);
    }
    if !agenda.has_place() {
        return Ok(false);
    }
    if !net.can_accept() {
        agenda.may_accept = false;
        return Ok(false);
    }
    let Some(place) = agenda.free_place() else {
        return Ok(false);
    };
    if !is_free(&hall.places, place) {
        return Ok(false);
    }
    match accept(hall, place, net, nets, wakes, plan) {
        Ok(()) => match agenda.begin(place, hall.tools.now, &plan.times) {
            Ok(()) => Ok(true),
            Err(OutOfMemory) => Err(RunFault::OutOfMemory),
        },
        Err(Fault::Failed) => match agenda.accept_failed(place, hall.tools.now) {
            Ok(()) => Ok(false),
            Err(OutOfMemory) => Err(RunFault::OutOfMemory),
        },
        Err(Fault::OutOfMemory) => Err(RunFault::OutOfMemory),
    }
}

/// Has a further place where none of those that are there is free.
fn add_place<C: Resets, L: Waits, N: WaitsNet<Link = L>>(
    hall: &mut Hall<C, L, N>,
    agenda: &mut Agenda,
    times: &Times,
) -> Result<(), OutOfMemory>
    ensures asked { AllAsked L.seen L.wrote N.seen hall.old hall.new }
{
    if !agenda.lacks_place() || hall.places.len() >= hall.places.capacity() {
        return Ok(());
    }
    hall.places.push_reserved(None);
    agenda.add_place(times)
}

/// The same as `accept_next`, at a place that comes where none is free.
fn accept_further<
    C: ResetsFor + Drop,
    L: Waits + HasPair,
    N: WaitsNet<Link = L> + Introduces + AsksApplication + Drop,
    S: Nets<N>,
    W: Wakes<N>,
>(
    hall: &mut Hall<C, L, N>,
    agenda: &mut Agenda,
    net: &mut N,
    nets: &mut S,
    wakes: &mut W,
    plan: &Plan,
) -> Result<bool, RunFault>
    ensures goes { KeepsAll C.meaning C.stands C.for_peer C.seen C.sound C.rested L.seen L.wrote L.tells plan.now.accepts_header plan.now.logs plan.now.opening N.seen net.old net.new hall.old hall.new }
    ensures within { IfSome plan.now.connections (λ count. hall.old.accepted ≤ count → hall.new.accepted ≤ count) }
    ensures balanced { IsBalanced (N.seen net.old) (N.seen net.new) hall.old.places.items hall.new.places.items }
    ensures net { IsSameNet (N.seen net.old) (N.seen net.new) }
{
    match add_place(hall, agenda, &plan.times) {
        Ok(()) => accept_next(hall, agenda, net, nets, wakes, plan),
        Err(OutOfMemory) => Err(RunFault::OutOfMemory),
    }
}

/// Accepts the links that wait, while places are free, and so many at most.
pub(crate) fn accepts<
    C: ResetsFor + Drop,
    L: Waits + HasPair,
    N: WaitsNet<Link = L> + Introduces + AsksApplication + Drop,
    S: Nets<N>,
    W: Wakes<N>,
>(
    hall: &mut Hall<C, L, N>,
    agenda: &mut Agenda,
    net: &mut N,
    nets: &mut S,
    wakes: &mut W,
    plan: &Plan,
) -> Result<(), RunFault>
    ensures goes { KeepsAll C.meaning C.stands C.for_peer C.seen C.sound C.rested L.seen L.wrote L.tells plan.now.accepts_header plan.now.logs plan.now.opening N.seen net.old net.new hall.old hall.new }
    ensures within { IfSome plan.now.connections (λ count. hall.old.accepted ≤ count → hall.new.accepted ≤ count) }
    ensures balanced { IsBalanced (N.seen net.old) (N.seen net.new) hall.old.places.items hall.new.places.items }
    ensures net { IsSameNet (N.seen net.old) (N.seen net.new) }
{
    if !agenda.may_accept {
        return Ok(());
    }
    if !accepts_more(hall.accepted, plan, nets) {
        return Ok(());
    }
    for _ in 0..ACCEPTS_A_ROUND {
        match accept_further(hall, agenda, net, nets, wakes, plan) {
            Ok(true) => {}
            Ok(false) => return Ok(()),
            Err(fault) => return Err(fault),
        }
    }
    Ok(())
}

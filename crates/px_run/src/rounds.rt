//! A round of the loop: a wait, a look at each that may go on, deadlines.
ghost use Rattle.std.specs.Prelude.{◌≡◌, ◌≤◌, ℕ, List, Option, true, is_ok};
ghost use Rattle.px_link.specs.Net.{address_of, NetSeen};
ghost use Rattle.px_run.specs.Hall.{AllAsked, count_taken, IsSameNet, IsBalanced, KeepsGoing, GoesFor};

use crate::agenda::Agenda;
use crate::connection::Looked;
use crate::hall::{Hall, expire, give_back, note_client, note_server, visit};
use crate::pace::Pace;
use crate::{Call, Plan, RunFault};
use htx_drive::weave::{Resets, ResetsFor};
use px_link::{Fault, OutOfMemory, Sink, Waits, WaitsNet, Wake, Wakes, Watched};
use px_proxyproto::{HasPair, Introduces};

/// Takes in what an event tells.
fn note<C: Resets, L: Waits, N: WaitsNet<Link = L>>(
    hall: &mut Hall<C, L, N>,
    agenda: &mut Agenda,
    wake: Wake,
) -> Result<(), OutOfMemory>
    ensures asked { AllAsked L.seen L.wrote N.seen hall.old hall.new }
{
    match wake.whom {
        Watched::Listener => {
            agenda.may_accept = true;
            Ok(())
        }
        Watched::Client(place) => {
            if place >= hall.places.len() {
                return Ok(());
            }
            note_client(&mut hall.places[place], wake.readiness);
            agenda.call_next(place)
        }
        Watched::Server(place) => {
            if place >= hall.places.len() {
                return Ok(());
            }
            note_server(&mut hall.places[place], wake.readiness);
            agenda.call_next(place)
        }
    }
}

/// Waits, and takes in what that told.
pub(crate) fn wait<C: Resets, L: Waits, N: WaitsNet<Link = L>, W: Wakes<N>>(
    hall: &mut Hall<C, L, N>,
    agenda: &mut Agenda,
    wakes: &mut W,
    accepts: bool,
) -> Result<(), RunFault>
    ensures asked { AllAsked L.seen L.wrote N.seen hall.old hall.new }
{
    agenda.accepts = accepts;
    match wakes.wait(agenda.patience(accepts, hall.tools.now)) {
        Ok(()) => {}
        Err(Fault::Failed) => return Err(RunFault::Net),
        Err(Fault::OutOfMemory) => return Err(RunFault::OutOfMemory),
    }
    agenda.woken.truncate(0);
    match wakes.woken(&mut agenda.woken) {
        Ok(()) => {}
        Err(OutOfMemory) => return Err(RunFault::OutOfMemory),
    }
    for event in 0..agenda.woken.len() {
        if event >= agenda.woken.len() {
            return Ok(());
        }
        let wake = agenda.woken[event];
        match note(hall, agenda, wake) {
            Ok(()) => {}
            Err(OutOfMemory) => return Err(RunFault::OutOfMemory),
        }
    }
    Ok(())
}

/// When the connection at this place is looked at again.
fn again(
    agenda: &mut Agenda,
    place: usize,
    looked: Looked,
    plan: &Plan,
    now: u64,
) -> Result<(), OutOfMemory> {
    match looked {
        Looked::Waits => {
            agenda.rest(place, &plan.times);
            Ok(())
        }
        Looked::Rests => {
            agenda.rest(place, &plan.times);
            agenda.feed()
        }
        Looked::GoesOn => agenda.call_next(place),
        Looked::Hungry => {
            agenda.wait_for_core(place, &plan.times, now)?;
            agenda.call_lingering()
        }
        Looked::Ended(_, _) => {
            agenda.call_next(place)?;
            agenda.feed()
        }
        Looked::Lost => Ok(()),
        Looked::Leaves => agenda.leave(place),
    }
}

/// A look at the connection of a place, which leaves where it has ended and can.
fn visit_place<
    C: ResetsFor + Drop,
    L: Waits + HasPair + Drop,
    N: WaitsNet<Link = L> + Introduces + Drop,
    W: Wakes<N>,
    K: Sink,
>(
    hall: &mut Hall<C, L, N>,
    net: &mut N,
    pace: &mut Pace,
    wakes: &mut W,
    out: &mut K,
    plan: &Plan,
) -> Result<Looked, OutOfMemory>
    requires goes { (cfg : C.Settings) × (begun : NetSeen) × (writes : ℕ) × (before : Option (List ℕ)) × GoesFor C.meaning C.stands C.for_peer cfg C.seen C.sound C.rested L.seen L.wrote L.tells plan.now.accepts_header plan.now.logs plan.now.opening N.seen (address_of plan.now.to.now) true true begun (N.seen net.old) writes (K.faults out.old) before (K.written out.old) hall.old }
    requires lent { count_taken hall.old.places.items ≤ (N.seen net.old).lent }
    ensures goes { KeepsGoing C.meaning C.stands C.for_peer C.seen C.sound C.rested L.seen L.wrote L.tells plan.now.accepts_header plan.now.logs plan.now.opening N.seen (address_of plan.now.to.now) K.faults K.written (is_ok result) net.old net.new out.old out.new hall.old hall.new }
    ensures accepted { hall.new.accepted ≡ hall.old.accepted }
    ensures balanced { IsBalanced (N.seen net.old) (N.seen net.new) hall.old.places.items hall.new.places.items }
    ensures net { IsSameNet (N.seen net.old) (N.seen net.new) }
{
    pace.due = false;
    match visit(hall, pace, wakes, out, plan) {
        Ok(Looked::Leaves) => {
            if pace.place < hall.places.len() {
                give_back(&mut hall.places[pace.place], net);
            }
            Ok(Looked::Leaves)
        }
        Ok(looked) => Ok(looked),
        Err(OutOfMemory) => Err(OutOfMemory),
    }
}

/// A look at each that is due.
fn visits<
    C: ResetsFor + Drop,
    L: Waits + HasPair + Drop,
    N: WaitsNet<Link = L> + Introduces + Drop,
    W: Wakes<N>,
    K: Sink,
>(
    hall: &mut Hall<C, L, N>,
    agenda: &mut Agenda,
    net: &mut N,
    wakes: &mut W,
    out: &mut K,
    plan: &Plan,
) -> Result<(), OutOfMemory>
    requires goes { (cfg : C.Settings) × (begun : NetSeen) × (writes : ℕ) × (before : Option (List ℕ)) × GoesFor C.meaning C.stands C.for_peer cfg C.seen C.sound C.rested L.seen L.wrote L.tells plan.now.accepts_header plan.now.logs plan.now.opening N.seen (address_of plan.now.to.now) true true begun (N.seen net.old) writes (K.faults out.old) before (K.written out.old) hall.old }
    requires lent { count_taken hall.old.places.items ≤ (N.seen net.old).lent }
    ensures goes { KeepsGoing C.meaning C.stands C.for_peer C.seen C.sound C.rested L.seen L.wrote L.tells plan.now.accepts_header plan.now.logs plan.now.opening N.seen (address_of plan.now.to.now) K.faults K.written (is_ok result) net.old net.new out.old out.new hall.old hall.new }
    ensures accepted { hall.new.accepted ≡ hall.old.accepted }
    ensures balanced { IsBalanced (N.seen net.old) (N.seen net.new) hall.old.places.items hall.new.places.items }
    ensures net { IsSameNet (N.seen net.old) (N.seen net.new) }
{
    agenda.begin_round(hall.tools.now);
    for at in 0..agenda.now_due.len() {
        let Some(place) = agenda.due_at(at) else {
            return Ok(());
        };
        match visit_place(hall, net, &mut agenda.paces[place], wakes, out, plan) {
            Ok(looked) => match again(agenda, place, looked, plan, hall.tools.now) {
                Ok(()) => {}
                Err(OutOfMemory) => return Err(OutOfMemory),
            },
            Err(OutOfMemory) => return Err(OutOfMemory),
        }
    }
    Ok(())
}

/// The call of the connection at this place fails, if the deadline of that has come; or its core is asked whether it rests, if it is time.
fn expire_at<C: Resets, L: Waits, N: WaitsNet<Link = L>>(
    hall: &mut Hall<C, L, N>,
    agenda: &mut Agenda,
    place: usize,
    plan: &Plan,
) -> Result<(), OutOfMemory>
    ensures asked { AllAsked L.seen L.wrote N.seen hall.old hall.new }
{
    if place >= hall.places.len() {
        return Ok(());
    }
    match agenda.overdue(place, &plan.times, hall.tools.now) {
        Some(call) => {
            expire(&mut hall.places[place], call);
            agenda.call_next(place)
        }
        None => agenda.asks_for_rest(place, hall.tools.now),
    }
}

/// Has each call fail whose time is over.
fn expire_all<C: Resets, L: Waits, N: WaitsNet<Link = L>>(
    hall: &mut Hall<C, L, N>,
    agenda: &mut Agenda,
    plan: &Plan,
) -> Result<(), OutOfMemory>
    ensures asked { AllAsked L.seen L.wrote N.seen hall.old hall.new }
{
    if !agenda.deadline_comes(hall.tools.now) {
        return Ok(());
    }
    for place in 0..hall.places.len() {
        match expire_at(hall, agenda, place, plan) {
            Ok(()) => {}
            Err(OutOfMemory) => return Err(OutOfMemory),
        }
    }
    Ok(())
}

/// Where a connection waits for a core and none is free, or a link for a place, the read of the kept one fails that has rested longest of those that have what lacks.
fn free_one<C: Resets, L: Waits, N: WaitsNet<Link = L>>(
    hall: &mut Hall<C, L, N>,
    agenda: &mut Agenda,
) -> Result<(), OutOfMemory>
    ensures asked { AllAsked L.seen L.wrote N.seen hall.old hall.new }
{
    let Some(place) = agenda.gives_way() else {
        return Ok(());
    };
    if place >= hall.places.len() {
        return Ok(());
    }
    expire(&mut hall.places[place], Call::ClientRead);
    agenda.ends_rest(place)
}

/// A look at each that is due, and what follows of deadlines.
pub(crate) fn looks<
    C: ResetsFor + Drop,
    L: Waits + HasPair + Drop,
    N: WaitsNet<Link = L> + Introduces + Drop,
    W: Wakes<N>,
    K: Sink,
>(
    hall: &mut Hall<C, L, N>,
    agenda: &mut Agenda,
    net: &mut N,
    wakes: &mut W,
    out: &mut K,
    plan: &Plan,
) -> Result<(), OutOfMemory>
    requires goes { (cfg : C.Settings) × (begun : NetSeen) × (writes : ℕ) × (before : Option (List ℕ)) × GoesFor C.meaning C.stands C.for_peer cfg C.seen C.sound C.rested L.seen L.wrote L.tells plan.now.accepts_header plan.now.logs plan.now.opening N.seen (address_of plan.now.to.now) true true begun (N.seen net.old) writes (K.faults out.old) before (K.written out.old) hall.old }
    requires lent { count_taken hall.old.places.items ≤ (N.seen net.old).lent }
    ensures goes { KeepsGoing C.meaning C.stands C.for_peer C.seen C.sound C.rested L.seen L.wrote L.tells plan.now.accepts_header plan.now.logs plan.now.opening N.seen (address_of plan.now.to.now) K.faults K.written (is_ok result) net.old net.new out.old out.new hall.old hall.new }
    ensures accepted { hall.new.accepted ≡ hall.old.accepted }
    ensures balanced { IsBalanced (N.seen net.old) (N.seen net.new) hall.old.places.items hall.new.places.items }
    ensures net { IsSameNet (N.seen net.old) (N.seen net.new) }
{
    match visits(hall, agenda, net, wakes, out, plan) {
        Ok(()) => {}
        Err(OutOfMemory) => return Err(OutOfMemory),
    }
    match expire_all(hall, agenda, plan) {
        Ok(()) => {}
        Err(OutOfMemory) => return Err(OutOfMemory),
    }
    free_one(hall, agenda)
}

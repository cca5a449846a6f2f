//! One connection of many, from its accept until its client's link is given back.
ghost use Rattle.std.specs.Prelude.{◌≡◌, Option, Some, None, true, false, is_some, IfSome};
ghost use Rattle.std.specs.List.{AllByRecursion};
ghost use Rattle.px_link.specs.Net.{address_of, Place};
ghost use Rattle.px_peer.specs.declared.Pair.{Pair};
ghost use Rattle.px_proxyproto.specs.Meeting.{source_in};
ghost use Rattle.htx_drive.specs.Weave.State.{IsReady};
ghost use Rattle.px_run.specs.Course.{IsSame, StandsSomehow, StepsTo, MayStep, HasCome, HasCore, has_core, TakesUp, LeadsTo, IsUnderWay};
ghost use Rattle.htx_drive.specs.declared.SessionFault.{SessionFault};
ghost use Rattle.px_run.specs.Connection.{LookedSo, IsIdle, AllFreshFor, IsAtUnder};
ghost use Rattle.px_run.specs.Callers.{pair_of};
ghost use Rattle.px_run.specs.Log.{Logs};

use crate::boxed_core::BoxedCore;
use crate::caller::{Caller, pair_of};
use crate::held::{Held, has_core, prepare, rests_with};
use crate::pace::Pace;
use crate::step::{Stepped, Tools, step};
use crate::watching::{watch_connect, watch_server};
use htx_drive::weave::{Conn, Resets, ResetsFor};
use px_link::{Address, Waits, WaitsNet, Wakes};
use px_peer::Peer;
use px_proxyproto::source_of;
use serve_run::{Outcome, Ran, SessionFault};

/// How many steps one connection makes in a row, while others wait.
const STEPS: usize = 16;

/// One connection. It has no core before it was met and its client gives its first bytes, none while it rests between two requests, and none once it has ended.
#[derive(Drop)]
pub(crate) struct Connection<C, L, N> {
    /// Its number in the order in which links were accepted, from 1.
    pub number: u32,
    /// Who asks.
    pub caller: Caller,
    pub conn: Conn<L, N>,
    pub core: Held<C>,
}

/// What a look at a connection came to.
#[derive(Clone, Copy)]
pub(crate) enum Looked {
    /// It waits for an event or its deadline.
    Waits,
    /// It does so between two requests, and gave its core back now.
    Rests,
    /// It can go on at once.
    GoesOn,
    /// It can go on once a core is free.
    Hungry,
    /// The connection of this number has ended so now: its line is to be written.
    Ended(u32, Outcome),
    /// It was given up now, since it found no memory.
    Lost,
    /// It had ended before, and its client's link can be given back.
    Leaves,
}

/// A step of a connection that has this core, and what waits are to tell of behind it.
fn watched_step<C: Resets, L: Waits, N: WaitsNet<Link = L>, W: Wakes<N>>(
    conn: &mut Conn<L, N>,
    core: &mut C,
    pace: &mut Pace,
    wakes: &mut W,
    to: &Address,
    tools: &mut Tools,
) -> Stepped
    requires may { MayStep C.seen C.sound core.old conn.old.server (N.seen conn.old.net) conn.old.ran }
    ensures goes { (cfg : C.Settings) (first : L) (first_net : N) → IsUnderWay (C.stands cfg) C.seen core.old L.seen L.wrote N.seen first (address_of to.now) first_net conn.old
        → LeadsTo result C.meaning C.stands cfg C.seen core.new L.seen L.wrote N.seen first (address_of to.now) first_net conn.new }
    ensures logs { (cfg : C.Settings) (first : L) (first_net : N) → IsUnderWay (C.stands cfg) C.seen core.old L.seen L.wrote N.seen first (address_of to.now) first_net conn.old
        → Logs C.meaning C.stands cfg C.seen L.seen L.wrote N.seen first (address_of to.now) first_net tools.old.log tools.new.log }
    ensures may { StepsTo result (MayStep C.seen C.sound core.new conn.new.server (N.seen conn.new.net) conn.new.ran) (HasCome result (C.sound core.new) conn.new.server conn.new.ran) }
{
    match step(conn, core, pace, to, tools) {
        Stepped::Moved => Stepped::Moved,
        Stepped::Opened => {
            watch_server(conn, pace.place, wakes);
            Stepped::Moved
        }
        Stepped::Waits => {
            watch_connect(conn, pace.connects(), pace.place, wakes);
            Stepped::Waits
        }
        Stepped::Ended => Stepped::Ended,
        Stepped::Lost => Stepped::Lost,
    }
}

/// Steps of a connection that has this core, so many at most: where it then waits, and else whether it goes on.
fn moves<C: Resets, L: Waits, N: WaitsNet<Link = L>, W: Wakes<N>>(
    conn: &mut Conn<L, N>,
    core: &mut C,
    pace: &mut Pace,
    wakes: &mut W,
    to: &Address,
    tools: &mut Tools,
) -> Stepped
    requires may { MayStep C.seen C.sound core.old conn.old.server (N.seen conn.old.net) conn.old.ran }
    ensures goes { (cfg : C.Settings) (first : L) (first_net : N) → IsUnderWay (C.stands cfg) C.seen core.old L.seen L.wrote N.seen first (address_of to.now) first_net conn.old
        → LeadsTo result C.meaning C.stands cfg C.seen core.new L.seen L.wrote N.seen first (address_of to.now) first_net conn.new }
    ensures logs { (cfg : C.Settings) (first : L) (first_net : N) → IsUnderWay (C.stands cfg) C.seen core.old L.seen L.wrote N.seen first (address_of to.now) first_net conn.old
        → Logs C.meaning C.stands cfg C.seen L.seen L.wrote N.seen first (address_of to.now) first_net tools.old.log tools.new.log }
    ensures may { StepsTo result (MayStep C.seen C.sound core.new conn.new.server (N.seen conn.new.net) conn.new.ran) (HasCome result (C.sound core.new) conn.new.server conn.new.ran) }
{
    for _taken in 0..STEPS {
        match watched_step(conn, core, pace, wakes, to, tools) {
            Stepped::Moved => {}
            Stepped::Opened => return Stepped::Opened,
            Stepped::Waits => return Stepped::Waits,
            Stepped::Ended => return Stepped::Ended,
            Stepped::Lost => return Stepped::Lost,
        }
    }
    Stepped::Moved
}

/// Takes back the core of a connection that has ended: nothing has happened to it, and it is free. There is room for it, since it was taken out before.
fn give_set<C: ResetsFor + Drop>(set: BoxedCore<C>, sets: &mut Vec<BoxedCore<C>>)
    requires sound { C.sound set }
    requires ready { AllByRecursion (IsReady C.seen C.sound) sets.old.items }
    ensures ready { AllByRecursion (IsReady C.seen C.sound) sets.new.items }
    ensures fresh { (cfg : C.Settings) (pair : Option Pair) → StandsSomehow (C.stands (C.for_peer cfg (source_in pair))) set → AllFreshFor C.stands C.for_peer cfg sets.old.items → AllFreshFor C.stands C.for_peer cfg sets.new.items }
{
    let mut set = set;
    set.core().reset();
    drop(sets.push(set));
}

/// What is said of a connection that has ended so.
pub(crate) fn told(number: u32, ran: &Option<Result<Ran, SessionFault>>) -> Looked
    requires ended { is_some ran.now ≡ true }
    ensures looked { LookedSo result number None ran.now }
{
    match ran {
        Some(Ok(ran)) => Looked::Ended(number, Outcome::Ended(*ran)),
        Some(Err(SessionFault::ClientWrite)) => Looked::Ended(number, Outcome::ClientWrite),
        Some(Err(SessionFault::Spent)) => Looked::Lost,
        Some(Err(SessionFault::OutOfMemory)) => Looked::Lost,
        None => unreachable!(),
    }
}

/// Steps of a connection that has a core.
fn go<C: Resets, L: Waits, N: WaitsNet<Link = L>, W: Wakes<N>>(
    connection: &mut Connection<C, L, N>,
    pace: &mut Pace,
    wakes: &mut W,
    to: &Address,
    tools: &mut Tools,
) -> Stepped
    requires may { HasCore connection.old.core (λ core. MayStep C.seen C.sound core connection.old.conn.server (N.seen connection.old.conn.net) connection.old.conn.ran) }
    ensures goes { (cfg : C.Settings) (first : L) (first_net : N)
        → HasCore connection.old.core (λ core. IsUnderWay (C.stands cfg) C.seen core L.seen L.wrote N.seen first (address_of to.now) first_net connection.old.conn)
        → HasCore connection.new.core (λ core. LeadsTo result C.meaning C.stands cfg C.seen core L.seen L.wrote N.seen first (address_of to.now) first_net connection.new.conn) }
    ensures logs { (cfg : C.Settings) (first : L) (first_net : N) → HasCore connection.old.core (λ core. IsUnderWay (C.stands cfg) C.seen core L.seen L.wrote N.seen first (address_of to.now) first_net connection.old.conn)
        → Logs C.meaning C.stands cfg C.seen L.seen L.wrote N.seen first (address_of to.now) first_net tools.old.log tools.new.log }
    ensures may { HasCore connection.new.core (λ core. StepsTo result (MayStep C.seen C.sound core connection.new.conn.server (N.seen connection.new.conn.net) connection.new.conn.ran) (HasCome result (C.sound core) connection.new.conn.server connection.new.conn.ran)) }
    ensures number { connection.new.number ≡ connection.old.number }
    ensures caller { connection.new.caller ≡ connection.old.caller }
{
    match &mut connection.core {
        Held::Core(core) => moves(&mut connection.conn, core.core(), pace, wakes, to, tools),
        Held::Nothing => unreachable!(),
        Held::Rest(_) => unreachable!(),
    }
}

/// The core of a connection is free, and this stands in its place.
fn free<C: ResetsFor + Drop>(core: &mut Held<C>, instead: Held<C>, sets: &mut Vec<BoxedCore<C>>)
    requires sound { HasCore core.old C.sound }
    requires ready { AllByRecursion (IsReady C.seen C.sound) sets.old.items }
    ensures instead { core.new ≡ instead }
    ensures ready { AllByRecursion (IsReady C.seen C.sound) sets.new.items }
    ensures fresh { (cfg : C.Settings) (pair : Option Pair) → HasCore core.old (StandsSomehow (C.stands (C.for_peer cfg (source_in pair)))) → AllFreshFor C.stands C.for_peer cfg sets.old.items → AllFreshFor C.stands C.for_peer cfg sets.new.items }
{
    match std::mem::replace(core, instead) {
        Held::Core(set) => give_set(set, sets),
        Held::Nothing => unreachable!(),
        Held::Rest(_) => unreachable!(),
    }
}

/// A connection waits, with its core. Where that is asked now and rests between two requests it gives it back, and keeps the count of its exchanges alone.
fn rest<C: ResetsFor + Drop, L: Waits, N: WaitsNet<Link = L>>(
    connection: &mut Connection<C, L, N>,
    sets: &mut Vec<BoxedCore<C>>,
    pace: &mut Pace,
    now: u64,
) -> Looked
    requires may { HasCore connection.old.core (λ core. MayStep C.seen C.sound core connection.old.conn.server (N.seen connection.old.conn.net) connection.old.conn.ran) }
    requires ready { AllByRecursion (IsReady C.seen C.sound) sets.old.items }
    ensures ready { AllByRecursion (IsReady C.seen C.sound) sets.new.items }
    ensures at { (cfg : C.Settings) (first : L) (to : Place) (first_net : N) → HasCore connection.old.core (λ core. IsUnderWay (C.stands cfg) C.seen core L.seen L.wrote N.seen first to first_net connection.old.conn)
        → IsAtUnder C.meaning C.stands cfg C.seen C.sound C.rested L.seen L.wrote N.seen first to first_net connection.new }
    ensures fresh { (cfg : C.Settings) (pair : Option Pair) (first : L) (to : Place) (first_net : N) → HasCore connection.old.core (λ core. IsUnderWay (C.stands (C.for_peer cfg (source_in pair))) C.seen core L.seen L.wrote N.seen first to first_net connection.old.conn)
        → AllFreshFor C.stands C.for_peer cfg sets.old.items → AllFreshFor C.stands C.for_peer cfg sets.new.items }
    ensures looked { IsIdle result }
    ensures ran { connection.new.conn.ran ≡ None }
    ensures number { connection.new.number ≡ connection.old.number }
    ensures caller { connection.new.caller ≡ connection.old.caller }
{
    if !pace.asks_for_rest(now, sets.is_empty()) {
        return Looked::Waits;
    }
    let Some(exchanges) = rests_with(&mut connection.core) else {
        return Looked::Waits;
    };
    free(&mut connection.core, Held::Rest(exchanges), sets);
    pace.gives_core();
    Looked::Rests
}

/// Steps of a connection that has a core, which is free behind its end, but for one that found no memory, and while it rests between two requests.
pub(crate) fn moved<C: ResetsFor + Drop, L: Waits, N: WaitsNet<Link = L>, W: Wakes<N>>(
    connection: &mut Connection<C, L, N>,
    sets: &mut Vec<BoxedCore<C>>,
    pace: &mut Pace,
    wakes: &mut W,
    to: &Address,
    tools: &mut Tools,
) -> Looked
    requires may { HasCore connection.old.core (λ core. MayStep C.seen C.sound core connection.old.conn.server (N.seen connection.old.conn.net) connection.old.conn.ran) }
    requires ready { AllByRecursion (IsReady C.seen C.sound) sets.old.items }
    ensures ready { AllByRecursion (IsReady C.seen C.sound) sets.new.items }
    ensures at { (cfg : C.Settings) (first : L) (first_net : N) → HasCore connection.old.core (λ core. IsUnderWay (C.stands cfg) C.seen core L.seen L.wrote N.seen first (address_of to.now) first_net connection.old.conn)
        → IsAtUnder C.meaning C.stands cfg C.seen C.sound C.rested L.seen L.wrote N.seen first (address_of to.now) first_net connection.new }
    ensures logs { (cfg : C.Settings) (first : L) (first_net : N) → HasCore connection.old.core (λ core. IsUnderWay (C.stands cfg) C.seen core L.seen L.wrote N.seen first (address_of to.now) first_net connection.old.conn)
        → Logs C.meaning C.stands cfg C.seen L.seen L.wrote N.seen first (address_of to.now) first_net tools.old.log tools.new.log }
    ensures fresh { (cfg : C.Settings) (pair : Option Pair) (first : L) (first_net : N) → HasCore connection.old.core (λ core. IsUnderWay (C.stands (C.for_peer cfg (source_in pair))) C.seen core L.seen L.wrote N.seen first (address_of to.now) first_net connection.old.conn)
        → AllFreshFor C.stands C.for_peer cfg sets.old.items → AllFreshFor C.stands C.for_peer cfg sets.new.items }
    ensures looked { LookedSo result connection.old.number None connection.new.conn.ran }
    ensures number { connection.new.number ≡ connection.old.number }
    ensures caller { connection.new.caller ≡ connection.old.caller }
{
    match go(connection, pace, wakes, to, tools) {
        Stepped::Moved => Looked::GoesOn,
        Stepped::Opened => Looked::GoesOn,
        Stepped::Waits => rest(connection, sets, pace, tools.now),
        Stepped::Ended => {
            pace.ended(tools.now);
            free(&mut connection.core, Held::Nothing, sets);
            told(connection.number, &connection.conn.ran)
        }
        Stepped::Lost => {
            pace.ended(tools.now);
            drop(std::mem::replace(&mut connection.core, Held::Nothing));
            told(connection.number, &connection.conn.ran)
        }
    }
}

/// A core for a connection of this peer that has none, where one is free.
fn take_set<C: ResetsFor + Drop>(
    core: &mut Held<C>,
    sets: &mut Vec<BoxedCore<C>>,
    peer: Option<Peer>,
    pace: &mut Pace,
) -> bool
    requires none { has_core core.old ≡ false }
    requires ready { AllByRecursion (IsReady C.seen C.sound) sets.old.items }
    ensures ready { AllByRecursion (IsReady C.seen C.sound) sets.new.items }
    ensures fresh { (cfg : C.Settings) → AllFreshFor C.stands C.for_peer cfg sets.old.items → AllFreshFor C.stands C.for_peer cfg sets.new.items }
    ensures took { result ≡ true → HasCore core.new (λ set. IsReady C.seen C.sound set × ((cfg : C.Settings) → AllFreshFor C.stands C.for_peer cfg sets.old.items → TakesUp (C.stands (C.for_peer cfg peer)) C.seen C.rested core.old set)) }
    ensures none { result ≡ false → core.new ≡ core.old }
{
    match sets.pop() {
        Some(free) => {
            let mut set = free;
            let inside = set.core();
            prepare(inside, peer, core);
            pace.takes_core(inside.client_room());
            drop(std::mem::replace(core, Held::Core(set)));
            true
        }
        None => false,
    }
}

/// A look at a connection that has no core: whether it gets one, since its client gives its first bytes, or goes on behind a rest.
fn sit_down<C: ResetsFor + Drop, L: Waits, N: WaitsNet<Link = L>>(
    connection: &mut Connection<C, L, N>,
    sets: &mut Vec<BoxedCore<C>>,
    pace: &mut Pace,
) -> Option<Looked>
    requires none { has_core connection.old.core ≡ false }
    requires ready { AllByRecursion (IsReady C.seen C.sound) sets.old.items }
    ensures ready { AllByRecursion (IsReady C.seen C.sound) sets.new.items }
    ensures fresh { (cfg : C.Settings) → AllFreshFor C.stands C.for_peer cfg sets.old.items → AllFreshFor C.stands C.for_peer cfg sets.new.items }
    ensures took { result ≡ None → HasCore connection.new.core (λ set. IsReady C.seen C.sound set × ((cfg : C.Settings) → AllFreshFor C.stands C.for_peer cfg sets.old.items → TakesUp (C.stands (C.for_peer cfg (source_in (pair_of connection.old.caller)))) C.seen C.rested connection.old.core set)) }
    ensures none { is_some result ≡ true → connection.new.core ≡ connection.old.core }
    ensures looked { IfSome result IsIdle }
    ensures client { IsSame L.seen L.wrote connection.old.conn.client connection.new.conn.client }
    ensures server { connection.new.conn.server ≡ connection.old.conn.server }
    ensures net { connection.new.conn.net ≡ connection.old.conn.net }
    ensures ran { connection.new.conn.ran ≡ connection.old.conn.ran }
    ensures number { connection.new.number ≡ connection.old.number }
    ensures caller { connection.new.caller ≡ connection.old.caller }
{
    if !connection.conn.client.can_read() {
        return Some(Looked::Waits);
    }
    if take_set(
        &mut connection.core,
        sets,
        source_of(pair_of(&connection.caller)),
        pace,
    ) {
        return None;
    }
    Some(Looked::Hungry)
}

/// The same of one that may have a core already.
pub(crate) fn seat<C: ResetsFor + Drop, L: Waits, N: WaitsNet<Link = L>>(
    connection: &mut Connection<C, L, N>,
    sets: &mut Vec<BoxedCore<C>>,
    pace: &mut Pace,
) -> Option<Looked>
    requires goes_on { connection.old.conn.ran ≡ None }
    requires ready { AllByRecursion (IsReady C.seen C.sound) sets.old.items }
    ensures ready { AllByRecursion (IsReady C.seen C.sound) sets.new.items }
    ensures fresh { (cfg : C.Settings) → AllFreshFor C.stands C.for_peer cfg sets.old.items → AllFreshFor C.stands C.for_peer cfg sets.new.items }
    ensures at { (cfg : C.Settings) (first : L) (to : Place) (first_net : N) → AllFreshFor C.stands C.for_peer cfg sets.old.items → IsAtUnder C.meaning C.stands (C.for_peer cfg (source_in (pair_of connection.old.caller))) C.seen C.sound C.rested L.seen L.wrote N.seen first to first_net connection.old
        → IsAtUnder C.meaning C.stands (C.for_peer cfg (source_in (pair_of connection.old.caller))) C.seen C.sound C.rested L.seen L.wrote N.seen first to first_net connection.new }
    ensures has { result ≡ None → has_core connection.new.core ≡ true }
    ensures looked { IfSome result IsIdle }
    ensures ran { connection.new.conn.ran ≡ None }
    ensures number { connection.new.number ≡ connection.old.number }
    ensures caller { connection.new.caller ≡ connection.old.caller }
{
    if has_core(&connection.core) {
        return None;
    }
    sit_down(connection, sets, pace)
}

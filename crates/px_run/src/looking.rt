//! A look at one connection: its header is read where one is to come, it gets a core, makes steps, ends or leaves.
ghost use Rattle.std.specs.Prelude.{◌≡◌, ℕ, Option, Some, None, Bool, Result, Ok, true, is_some};
ghost use Rattle.std.specs.List.{AllByRecursion};
ghost use Rattle.px_link.specs.Net.{address_of, Place};
ghost use Rattle.htx_drive.specs.Weave.State.{IsReady};
ghost use Rattle.htx_drive.specs.declared.Ran.{Ran};
ghost use Rattle.htx_drive.specs.declared.SessionFault.{SessionFault};
ghost use Rattle.serve_run.specs.Met.{TurnedAway, unheard};
ghost use Rattle.px_run.specs.Course.{IsSame};
ghost use Rattle.px_run.specs.Connection.{◌∘◌, LookedSo, AllFreshFor, IsAtUnder};
ghost use Rattle.px_run.specs.Log.{IsToldOf, IsLine, MoreLines, LogsMore, Logs};
ghost use Rattle.px_proxyproto.specs.Meeting.{source_in};
ghost use Rattle.px_run.specs.Callers.{pair_of, is_greeted, ReadMore, StandsFor};

use crate::boxed_core::BoxedCore;
use crate::caller::{greet_on, introduce, is_greeted, is_refused, pair_of};
use crate::connection::{Connection, Looked, moved, seat, told};
use crate::pace::Pace;
use crate::step::Tools;
use crate::{Opening, Plan};
use http_model::{Close, End};
use htx_drive::weave::{Conn, ResetsFor};
use px_link::{Address, Link, Net, Waits, WaitsNet, Wakes};
use px_proxyproto::{HasPair, Introduces, source_of};
use serve_run::Ran;

/// A look at a connection that has ended: whether its client's link can be given back.
fn leaves<L: Waits>(client: &mut L, pace: &Pace) -> Looked
    ensures client { IsSame L.seen L.wrote client.old client.new }
    ensures looked { (number : ℕ) (ran : Option (Result Ran SessionFault)) → is_some ran ≡ true → LookedSo result number ran ran }
{
    if pace.expired {
        return Looked::Leaves;
    }
    if client.can_keep() {
        return Looked::Leaves;
    }
    Looked::Waits
}

/// Ends a connection whose client isn't heard: nothing is sent to anybody.
fn turn_away<L: Link, N: Net<Link = L>>(conn: &mut Conn<L, N>)
    ensures away { TurnedAway L.seen L.wrote conn.old.client conn.new.client (N.seen conn.old.net) (N.seen conn.new.net) unheard }
    ensures server { conn.new.server ≡ conn.old.server }
    ensures over { conn.new.ran ≡ Some (Ok unheard) }
{
    conn.client.close(Close::Failed);
    conn.ran = Some(Ok(Ran {
        end: End::Closed,
        exchanges: 0,
        begun_cut: None,
    }));
}

/// A look at a connection of which a header is read: that goes on, or it was met and its net is to introduce it, or its client isn't heard and it has ended.
fn hear<C: ResetsFor, L: Waits + HasPair, N: WaitsNet<Link = L> + Introduces>(
    connection: &mut Connection<C, L, N>,
    pace: &mut Pace,
    opening: &Opening<'_>,
    now: u64,
) -> Looked
    requires greeted { is_greeted connection.old.caller ≡ true }
    requires goes_on { connection.old.conn.ran ≡ None }
    ensures at { (cfg : C.Settings) (accepts_header : Bool) (first : L) (to : Place) (first_net : N) → StandsFor C.meaning C.stands C.for_peer cfg C.seen C.sound C.rested L.seen L.wrote L.tells accepts_header opening.now N.seen first to first_net connection.old
        → StandsFor C.meaning C.stands C.for_peer cfg C.seen C.sound C.rested L.seen L.wrote L.tells accepts_header opening.now N.seen first to first_net connection.new }
    ensures looked { LookedSo result connection.old.number None connection.new.conn.ran }
    ensures further { result ≡ Looked.GoesOn → ReadMore connection.old.caller connection.new.caller }
    ensures number { connection.new.number ≡ connection.old.number }
{
    if !connection.conn.client.can_read() {
        return Looked::Waits;
    }
    greet_on(&mut connection.caller, &mut connection.conn.client);
    if !is_refused(&connection.caller) {
        introduce(&connection.caller, &mut connection.conn.net, opening);
        return Looked::GoesOn;
    }
    turn_away(&mut connection.conn);
    pace.ended(now);
    told(connection.number, &connection.conn.ran)
}

/// A look at a connection that was met and hasn't ended: it gets a core, makes steps or ends.
fn serve<C: ResetsFor + Drop, L: Waits, N: WaitsNet<Link = L>, W: Wakes<N>>(
    connection: &mut Connection<C, L, N>,
    sets: &mut Vec<BoxedCore<C>>,
    pace: &mut Pace,
    wakes: &mut W,
    to: &Address,
    tools: &mut Tools,
) -> Looked
    requires goes_on { connection.old.conn.ran ≡ None }
    requires at { (cfg : C.Settings) × (first : L) × (first_net : N) × AllFreshFor C.stands C.for_peer cfg sets.old.items × IsAtUnder C.meaning C.stands (C.for_peer cfg (source_in (pair_of connection.old.caller))) C.seen C.sound C.rested L.seen L.wrote N.seen first (address_of to.now) first_net connection.old }
    requires ready { AllByRecursion (IsReady C.seen C.sound) sets.old.items }
    ensures ready { AllByRecursion (IsReady C.seen C.sound) sets.new.items }
    ensures at { (cfg : C.Settings) (first : L) (first_net : N) → AllFreshFor C.stands C.for_peer cfg sets.old.items → IsAtUnder C.meaning C.stands (C.for_peer cfg (source_in (pair_of connection.old.caller))) C.seen C.sound C.rested L.seen L.wrote N.seen first (address_of to.now) first_net connection.old
        → IsAtUnder C.meaning C.stands (C.for_peer cfg (source_in (pair_of connection.old.caller))) C.seen C.sound C.rested L.seen L.wrote N.seen first (address_of to.now) first_net connection.new }
    ensures logs { (cfg : C.Settings) (first : L) (first_net : N) → AllFreshFor C.stands C.for_peer cfg sets.old.items → IsAtUnder C.meaning C.stands (C.for_peer cfg (source_in (pair_of connection.old.caller))) C.seen C.sound C.rested L.seen L.wrote N.seen first (address_of to.now) first_net connection.old
        → Logs C.meaning C.stands (C.for_peer cfg (source_in (pair_of connection.old.caller))) C.seen L.seen L.wrote N.seen first (address_of to.now) first_net tools.old.log tools.new.log }
    ensures fresh { (cfg : C.Settings) (first : L) (first_net : N) → AllFreshFor C.stands C.for_peer cfg sets.old.items → IsAtUnder C.meaning C.stands (C.for_peer cfg (source_in (pair_of connection.old.caller))) C.seen C.sound C.rested L.seen L.wrote N.seen first (address_of to.now) first_net connection.old
        → AllFreshFor C.stands C.for_peer cfg sets.new.items }
    ensures looked { LookedSo result connection.old.number connection.old.conn.ran connection.new.conn.ran }
    ensures number { connection.new.number ≡ connection.old.number }
    ensures caller { connection.new.caller ≡ connection.old.caller }
{
    if let Some(looked) = seat(connection, sets, pace) {
        return looked;
    }
    moved(connection, sets, pace, wakes, to, tools)
}

/// A look at a connection: its header is read, it gets a core, makes steps, ends or leaves.
fn look_on<
    C: ResetsFor + Drop,
    L: Waits + HasPair,
    N: WaitsNet<Link = L> + Introduces,
    W: Wakes<N>,
>(
    connection: &mut Connection<C, L, N>,
    sets: &mut Vec<BoxedCore<C>>,
    pace: &mut Pace,
    wakes: &mut W,
    plan: &Plan,
    tools: &mut Tools,
) -> Looked
    requires at { (cfg : C.Settings) × (first : L) × (first_net : N) × AllFreshFor C.stands C.for_peer cfg sets.old.items × StandsFor C.meaning C.stands C.for_peer cfg C.seen C.sound C.rested L.seen L.wrote L.tells plan.now.accepts_header plan.now.opening N.seen first (address_of plan.now.to.now) first_net connection.old }
    requires ready { AllByRecursion (IsReady C.seen C.sound) sets.old.items }
    ensures ready { AllByRecursion (IsReady C.seen C.sound) sets.new.items }
    ensures at { (cfg : C.Settings) (first : L) (first_net : N) → AllFreshFor C.stands C.for_peer cfg sets.old.items → StandsFor C.meaning C.stands C.for_peer cfg C.seen C.sound C.rested L.seen L.wrote L.tells plan.now.accepts_header plan.now.opening N.seen first (address_of plan.now.to.now) first_net connection.old
        → StandsFor C.meaning C.stands C.for_peer cfg C.seen C.sound C.rested L.seen L.wrote L.tells plan.now.accepts_header plan.now.opening N.seen first (address_of plan.now.to.now) first_net connection.new }
    ensures fresh { (cfg : C.Settings) (first : L) (first_net : N) → AllFreshFor C.stands C.for_peer cfg sets.old.items → StandsFor C.meaning C.stands C.for_peer cfg C.seen C.sound C.rested L.seen L.wrote L.tells plan.now.accepts_header plan.now.opening N.seen first (address_of plan.now.to.now) first_net connection.old
        → AllFreshFor C.stands C.for_peer cfg sets.new.items }
    ensures logs { (cfg : C.Settings) (first : L) (first_net : N) → AllFreshFor C.stands C.for_peer cfg sets.old.items → StandsFor C.meaning C.stands C.for_peer cfg C.seen C.sound C.rested L.seen L.wrote L.tells plan.now.accepts_header plan.now.opening N.seen first (address_of plan.now.to.now) first_net connection.old
        → LogsMore (IsToldOf (C.meaning ∘ C.for_peer cfg ∘ source_in) (C.stands ∘ C.for_peer cfg ∘ source_in) C.seen L.seen L.wrote L.tells plan.now.accepts_header plan.now.opening N.seen (address_of plan.now.to.now) first first_net) tools.old.log tools.new.log }
    ensures looked { LookedSo result connection.old.number connection.old.conn.ran connection.new.conn.ran }
    ensures number { connection.new.number ≡ connection.old.number }
{
    if connection.conn.ran.is_some() {
        return leaves(&mut connection.conn.client, pace);
    }
    if is_greeted(&connection.caller) {
        return hear(connection, pace, &plan.opening, tools.now);
    }
    serve(connection, sets, pace, wakes, plan.to, tools)
}

/// The same, with a log of its own: that is begun for it, and what was counted of it before is counted on.
pub(crate) fn look<
    C: ResetsFor + Drop,
    L: Waits + HasPair,
    N: WaitsNet<Link = L> + Introduces,
    W: Wakes<N>,
>(
    connection: &mut Connection<C, L, N>,
    sets: &mut Vec<BoxedCore<C>>,
    pace: &mut Pace,
    wakes: &mut W,
    plan: &Plan,
    tools: &mut Tools,
) -> Looked
    requires at { (cfg : C.Settings) × (first : L) × (first_net : N) × AllFreshFor C.stands C.for_peer cfg sets.old.items × StandsFor C.meaning C.stands C.for_peer cfg C.seen C.sound C.rested L.seen L.wrote L.tells plan.now.accepts_header plan.now.opening N.seen first (address_of plan.now.to.now) first_net connection.old }
    requires ready { AllByRecursion (IsReady C.seen C.sound) sets.old.items }
    ensures ready { AllByRecursion (IsReady C.seen C.sound) sets.new.items }
    ensures at { (cfg : C.Settings) (first : L) (first_net : N) → AllFreshFor C.stands C.for_peer cfg sets.old.items → StandsFor C.meaning C.stands C.for_peer cfg C.seen C.sound C.rested L.seen L.wrote L.tells plan.now.accepts_header plan.now.opening N.seen first (address_of plan.now.to.now) first_net connection.old
        → StandsFor C.meaning C.stands C.for_peer cfg C.seen C.sound C.rested L.seen L.wrote L.tells plan.now.accepts_header plan.now.opening N.seen first (address_of plan.now.to.now) first_net connection.new }
    ensures fresh { (cfg : C.Settings) (first : L) (first_net : N) → AllFreshFor C.stands C.for_peer cfg sets.old.items → StandsFor C.meaning C.stands C.for_peer cfg C.seen C.sound C.rested L.seen L.wrote L.tells plan.now.accepts_header plan.now.opening N.seen first (address_of plan.now.to.now) first_net connection.old
        → AllFreshFor C.stands C.for_peer cfg sets.new.items }
    ensures logs { (cfg : C.Settings) (first : L) (first_net : N) → AllFreshFor C.stands C.for_peer cfg sets.old.items → StandsFor C.meaning C.stands C.for_peer cfg C.seen C.sound C.rested L.seen L.wrote L.tells plan.now.accepts_header plan.now.opening N.seen first (address_of plan.now.to.now) first_net connection.old
        → MoreLines (IsLine plan.now.logs connection.old.number (IsToldOf (C.meaning ∘ C.for_peer cfg ∘ source_in) (C.stands ∘ C.for_peer cfg ∘ source_in) C.seen L.seen L.wrote L.tells plan.now.accepts_header plan.now.opening N.seen (address_of plan.now.to.now) first first_net)) tools.old.log.text.items tools.new.log.text.items }
    ensures looked { LookedSo result connection.old.number connection.old.conn.ran connection.new.conn.ran }
    ensures number { connection.new.number ≡ connection.old.number }
{
    let peer = source_of(pair_of(&connection.caller));
    tools
        .log
        .begin(plan.logs, connection.number, peer, pace.tally);
    let looked = look_on(connection, sets, pace, wakes, plan, tools);
    pace.tally = tools.log.tally;
    looked
}

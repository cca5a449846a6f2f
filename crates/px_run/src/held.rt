//! What a connection has of a core.
ghost use Rattle.std.specs.Prelude.{◌≡◌, Option, false, IfSome};
ghost use Rattle.px_peer.specs.declared.Peer.{Peer};
ghost use Rattle.session_core.specs.History.{Past};
ghost use Rattle.px_run.specs.Course.{HasCore, has_core, TakesUp, RestsWith};

use crate::boxed_core::BoxedCore;
use htx_drive::Machine;
use htx_drive::weave::ResetsFor;
use px_peer::Peer;

/// What a connection has of a core.
#[derive(Drop)]
pub(crate) enum Held<C> {
    /// None: nothing of it was touched, or it has ended.
    Nothing,
    /// None: it rests between two requests, and goes on with so many exchanges behind it.
    Rest(u32),
    /// This one.
    Core(BoxedCore<C>),
}

/// Whether it has one.
pub(crate) fn has_core<C>(held: &Held<C>) -> bool
    ensures { result ≡ has_core held.now }
{
    match held {
        Held::Nothing => false,
        Held::Rest(_) => false,
        Held::Core(_) => true,
    }
}

/// With how many exchanges its core rests, and nothing where that doesn't rest.
pub(crate) fn rests_with<C: Machine>(held: &mut Held<C>) -> Option<u32>
    requires sound { HasCore held.old C.sound }
    ensures same { held.new ≡ held.old }
    ensures rests { IfSome result (λ exchanges. HasCore held.old (RestsWith C.seen C.rested exchanges)) }
{
    match held {
        Held::Core(set) => exchanges_at_rest(set.core()),
        Held::Nothing => unreachable!(),
        Held::Rest(_) => unreachable!(),
    }
}

/// The same of the core.
fn exchanges_at_rest<C: Machine>(core: &C) -> Option<u32>
    requires sound { C.sound core.now }
    ensures rests { IfSome result (λ exchanges. RestsWith C.seen C.rested exchanges core.now) }
{
    if core.rests() {
        return Some(core.exchanges());
    }
    None
}

/// Makes a free core ready for a connection of this peer: to go on where that rests, or else anew.
pub(crate) fn prepare<C: ResetsFor>(core: &mut C, peer: Option<Peer>, held: &Held<C>)
    requires sound { C.sound core.old }
    ensures sound { C.sound core.new }
    ensures idle { (C.seen core.new).serving ≡ false }
    ensures takes_up { (cfg : C.Settings) (other : Option Peer) (before : Past) → C.stands (C.for_peer cfg other) core.old before → TakesUp (C.stands (C.for_peer cfg peer)) C.seen C.rested held.now core.new }
{
    match held {
        Held::Nothing => core.reset_for(peer),
        Held::Rest(exchanges) => core.resume_for(peer, *exchanges),
        Held::Core(_) => core.reset_for(peer),
    }
}

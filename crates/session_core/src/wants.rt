//! What a core wants of its driver.
ghost use Rattle.std.specs.Prelude.{◌≡◌, Option, Some, None, Bool, if◌then◌else◌, not, ◌&&◌, nat_lt};
ghost use Rattle.session_core.specs.History.{close_by};
ghost use Rattle.session_core.specs.Waits.{wants_of, is_turned, is_empty, is_serving, is_opening, is_sending, takes_client, is_going, is_telling, has_ended, over_by};
ghost use Rattle.session_core.specs.Place.{IsPlaced, IsSomewhere};

use crate::machine::{Core, Wants};
use crate::sides::Works;
use crate::{Phase, Told};
use http_model::{Close, End, Source};

impl<S: Works> Core<S> {
    /// Both directions of the open server have ended.
    fn has_ended(&self) -> bool
        requires placed { IsSomewhere (S.placed self.now.sides) }
        ensures { result ≡ has_ended (S.request self.now.sides) (S.answer self.now.sides) }
    {
        self.sides.is_sent() && !self.sides.has_to_server() && self.sides.is_answered()
    }

    /// The client may give more of the request in hand, or of the next.
    fn takes_client(&self) -> bool
        requires placed { IsSomewhere (S.placed self.now.sides) }
        ensures { result ≡ takes_client (S.request self.now.sides).source self.now.at.phase }
    {
        match self.at.phase {
            Phase::Reading => true,
            Phase::Opening => self.is_going(),
            Phase::Serving => self.is_going(),
            Phase::Unserved => false,
            Phase::Served => false,
            Phase::Refusing => false,
            Phase::Replying(_) => false,
            Phase::Over(_) => false,
        }
    }

    /// The source of the request in hand goes on.
    fn is_going(&self) -> bool
        requires placed { IsSomewhere (S.placed self.now.sides) }
        ensures { result ≡ is_going (S.request self.now.sides).source }
    {
        match self.sides.source() {
            Source::Going => true,
            Source::Whole => false,
            Source::Cut(_) => false,
        }
    }

    /// The last that answers goes on.
    fn is_telling(&self) -> bool
        requires placed { IsSomewhere (S.placed self.now.sides) }
        ensures { result ≡ is_telling (S.answer self.now.sides).told }
    {
        match self.sides.told() {
            Told::Going => true,
            Told::Closes => false,
            Told::Whole => false,
            Told::Cut => false,
        }
    }

    /// How the server's link is to be closed.
    fn close(&self) -> Close
        ensures { result ≡ close_by self.now.at.cut }
    {
        match self.at.cut {
            None => Close::Clean,
            Some(_) => Close::Failed,
        }
    }

    fn over(&self) -> Option<End>
        requires placed { IsSomewhere (S.placed self.now.sides) }
        ensures { result ≡ over_by self.now.at.phase (is_empty (S.answer self.now.sides).window) }
    {
        match self.at.phase {
            Phase::Over(end) => {
                if self.sides.has_to_client() {
                    None
                } else {
                    Some(end)
                }
            }
            Phase::Reading => None,
            Phase::Opening => None,
            Phase::Unserved => None,
            Phase::Serving => None,
            Phase::Served => None,
            Phase::Refusing => None,
            Phase::Replying(_) => None,
        }
    }

    fn server_close(&self) -> Option<Close>
        requires placed { IsSomewhere (S.placed self.now.sides) }
        ensures { result ≡ (if is_serving self.now.at.phase && has_ended (S.request self.now.sides) (S.answer self.now.sides) then Some (close_by self.now.at.cut) else None) }
    {
        if is_serving(self.at.phase) && self.has_ended() {
            Some(self.close())
        } else {
            None
        }
    }

    fn server_read(&self) -> bool
        requires placed { IsSomewhere (S.placed self.now.sides) }
        ensures { result ≡ (is_serving self.now.at.phase && not (is_turned self.now.at.cut) && is_telling (S.answer self.now.sides).told && (S.answer self.now.sides).is_open && nat_lt 0 (S.answer self.now.sides).room) }
    {
        is_serving(self.at.phase)
            && !is_turned(self.at.cut)
            && self.is_telling()
            && self.sides.server_is_open()
            && self.sides.server_room() > 0
    }

    /// The client waits for a response head before it sends the body.
    fn client_waits(&self) -> bool
        requires placed { IsSomewhere (S.placed self.now.sides) }
        ensures { result ≡ (is_sending self.now.at.phase && (S.request self.now.sides).awaits && not (S.answer self.now.sides).heard) }
    {
        is_sending(self.at.phase) && self.sides.awaits_continue() && !self.sides.has_heard()
    }

    /// What the core wants of its driver. It changes with each event and with work alone.
    #[inline(always)]
    pub fn wants(&self) -> Wants
        requires placed { IsPlaced (S.placed self.now.sides) (S.answer self.now.sides) self.now.at.phase self.now.at.cut }
        ensures { result ≡ wants_of (S.request self.now.sides) (S.answer self.now.sides) self.now.at }
    {
        self.wants_here()
    }

    /// The same, wherever the directions stand.
    #[inline(always)]
    fn wants_here(&self) -> Wants
        requires placed { IsSomewhere (S.placed self.now.sides) }
        ensures { result ≡ wants_of (S.request self.now.sides) (S.answer self.now.sides) self.now.at }
    {
        Wants {
            client_read: self.takes_client()
                && self.sides.client_is_open()
                && self.sides.client_room() > 0,
            client_write: self.sides.has_to_client(),
            client_waits: self.client_waits(),
            server_open: is_opening(self.at.phase),
            server_read: self.server_read(),
            server_write: is_serving(self.at.phase) && self.sides.has_to_server(),
            server_close: self.server_close(),
            over: self.over(),
        }
    }
}

fn is_turned(cut: Option<bool>) -> bool
    ensures { result ≡ is_turned cut }
{
    match cut {
        Some(begun) => !begun,
        None => false,
    }
}

fn is_serving(phase: Phase) -> bool
    ensures { result ≡ is_serving phase }
{
    match phase {
        Phase::Serving => true,
        Phase::Reading => false,
        Phase::Opening => false,
        Phase::Unserved => false,
        Phase::Served => false,
        Phase::Refusing => false,
        Phase::Replying(_) => false,
        Phase::Over(_) => false,
    }
}

fn is_sending(phase: Phase) -> bool
    ensures { result ≡ is_sending phase }
{
    match phase {
        Phase::Opening => true,
        Phase::Serving => true,
        Phase::Reading => false,
        Phase::Unserved => false,
        Phase::Served => false,
        Phase::Refusing => false,
        Phase::Replying(_) => false,
        Phase::Over(_) => false,
    }
}

fn is_opening(phase: Phase) -> bool
    ensures { result ≡ is_opening phase }
{
    match phase {
        Phase::Opening => true,
        Phase::Serving => false,
        Phase::Reading => false,
        Phase::Unserved => false,
        Phase::Served => false,
        Phase::Refusing => false,
        Phase::Replying(_) => false,
        Phase::Over(_) => false,
    }
}

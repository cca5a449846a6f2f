//! From one exchange to the next, or to the end of the session.
ghost use Rattle.std.specs.Prelude.{◌≡◌, ◌≤◌, ◌<◌, ◌+◌, min, Option, Some, None, Bool, true, false, OnOk, IfOk, IsOk};
ghost use Rattle.session_core.specs.History.{Past};
ghost use Rattle.session_core.specs.Sided.{Sided, asker_in};
ghost use Rattle.session_core.specs.Stands.{most};
ghost use Rattle.session_core.specs.Waits.{is_serving, Ready, SayWaits, IsSaying, Ended, Settled};
ghost use Rattle.session_core.specs.Parts.{says_itself, BeginsOne};
ghost use Rattle.session_core.specs.Leads.{Stands, Keeps, Follows};
ghost use Rattle.session_core.specs.Place.{IsPlaced, IsSomewhere};

use crate::machine::{At, Core};
use crate::sides::{Asked, Works};
use crate::{Phase, Told};
use http_model::{End, OutOfMemory};

impl<S: Works> Core<S> {
    /// Where the exchange in hand has ended, what follows it.
    #[inline(always)]
    pub(crate) fn end_exchange(&mut self)
        requires placed { IsPlaced (S.placed self.old.sides) (S.answer self.old.sides) self.old.at.phase self.old.at.cut }
        ensures placed { IsPlaced (S.placed self.new.sides) (S.answer self.new.sides) self.new.at.phase self.new.at.cut }
        ensures keeps { Keeps S.meaning S.request S.answer S.stands self.old.sides self.old.at self.new.sides self.new.at }
        ensures cut { self.new.at.cut ≡ self.old.at.cut }
        ensures unread { (S.request self.new.sides).unread ≤ (S.request self.old.sides).unread }
        ensures serving { is_serving self.new.at.phase ≡ is_serving self.old.at.phase }
        ensures lost { self.new.lost ≡ self.old.lost }
        ensures ended { Ready self.old.at.phase self.old.at.cut (S.request self.old.sides) (S.answer self.old.sides) → Ended self.new.at.phase self.new.at.cut (S.request self.new.sides) (S.answer self.new.sides) }
        ensures exchanges { self.new.at.exchanges ≡ self.old.at.exchanges }
        ensures stays { says_itself self.old.at.phase ≡ true → (S.answer self.old.sides).answered ≡ false → self.new.at ≡ self.old.at }
    {
        match self.at.phase {
            Phase::Served => self.end_served(),
            Phase::Refusing => self.end_refused(),
            Phase::Replying(kept) => self.end_replied(kept),
            Phase::Reading => {}
            Phase::Opening => {}
            Phase::Unserved => {}
            Phase::Serving => {}
            Phase::Over(_) => {}
        }
    }

    fn end_refused(&mut self)
        requires phase { self.old.at.phase ≡ Phase.Refusing }
        requires placed { IsPlaced (S.placed self.old.sides) (S.answer self.old.sides) self.old.at.phase self.old.at.cut }
        ensures placed { IsPlaced (S.placed self.new.sides) (S.answer self.new.sides) self.new.at.phase self.new.at.cut }
        ensures keeps { Keeps S.meaning S.request S.answer S.stands self.old.sides self.old.at self.new.sides self.new.at }
        ensures cut { self.new.at.cut ≡ self.old.at.cut }
        ensures unread { (S.request self.new.sides).unread ≤ (S.request self.old.sides).unread }
        ensures serving { is_serving self.new.at.phase ≡ is_serving self.old.at.phase }
        ensures lost { self.new.lost ≡ self.old.lost }
        ensures ended { SayWaits (S.answer self.old.sides) → Ended self.new.at.phase self.new.at.cut (S.request self.new.sides) (S.answer self.new.sides) }
        ensures exchanges { self.new.at.exchanges ≡ self.old.at.exchanges }
        ensures stays { (S.answer self.old.sides).answered ≡ false → self.new.at ≡ self.old.at }
    {
        if self.sides.is_answered() {
            self.at.phase = Phase::Over(End::Closed);
        }
    }

    fn end_replied(&mut self, kept: bool)
        requires phase { self.old.at.phase ≡ Phase.Replying kept }
        requires placed { IsPlaced (S.placed self.old.sides) (S.answer self.old.sides) self.old.at.phase self.old.at.cut }
        ensures placed { IsPlaced (S.placed self.new.sides) (S.answer self.new.sides) self.new.at.phase self.new.at.cut }
        ensures keeps { Keeps S.meaning S.request S.answer S.stands self.old.sides self.old.at self.new.sides self.new.at }
        ensures cut { self.new.at.cut ≡ self.old.at.cut }
        ensures unread { (S.request self.new.sides).unread ≤ (S.request self.old.sides).unread }
        ensures serving { is_serving self.new.at.phase ≡ is_serving self.old.at.phase }
        ensures lost { self.new.lost ≡ self.old.lost }
        ensures ended { SayWaits (S.answer self.old.sides) → Ended self.new.at.phase self.new.at.cut (S.request self.new.sides) (S.answer self.new.sides) }
        ensures exchanges { self.new.at.exchanges ≡ self.old.at.exchanges }
        ensures stays { (S.answer self.old.sides).answered ≡ false → self.new.at ≡ self.old.at }
    {
        if !self.sides.is_answered() {
            return;
        }
        if kept {
            self.sides.next_replied();
            self.at.phase = Phase::Reading;
        } else {
            self.at.phase = Phase::Over(End::Closed);
        }
    }

    fn end_served(&mut self)
        requires phase { self.old.at.phase ≡ Phase.Served }
        requires placed { IsPlaced (S.placed self.old.sides) (S.answer self.old.sides) self.old.at.phase self.old.at.cut }
        ensures placed { IsPlaced (S.placed self.new.sides) (S.answer self.new.sides) self.new.at.phase self.new.at.cut }
        ensures keeps { Keeps S.meaning S.request S.answer S.stands self.old.sides self.old.at self.new.sides self.new.at }
        ensures cut { self.new.at.cut ≡ self.old.at.cut }
        ensures unread { (S.request self.new.sides).unread ≤ (S.request self.old.sides).unread }
        ensures serving { is_serving self.new.at.phase ≡ is_serving self.old.at.phase }
        ensures lost { self.new.lost ≡ self.old.lost }
        ensures ended { Ended self.new.at.phase self.new.at.cut (S.request self.new.sides) (S.answer self.new.sides) }
        ensures exchanges { self.new.at.exchanges ≡ self.old.at.exchanges }
    {
        if self.is_turned() {
            self.at.phase = Phase::Over(End::Closed);
            return;
        }
        match self.served_end() {
            Some(end) => {
                self.at.phase = Phase::Over(end);
            }
            None => {
                self.sides.next();
                self.at.phase = Phase::Reading;
            }
        }
    }

    /// How the session ends behind an answer of the server, if it does.
    fn served_end(&self) -> Option<End>
        requires placed { IsSomewhere (S.placed self.now.sides) }
        ensures follows { (cfg : S.Settings) (p : Sided (S.meaning cfg)) → S.stands cfg self.now.sides p → Follows (S.answer self.now.sides).told self.now.at.cut (asker_in p.asking).keep result }
        ensures uncut { result ≡ None → self.now.at.cut ≡ None }
    {
        match self.sides.told() {
            Told::Cut => Some(End::Cut),
            Told::Whole => match self.at.cut {
                Some(_) => Some(End::Closed),
                None => {
                    if self.sides.keeps() {
                        None
                    } else {
                        Some(End::Closed)
                    }
                }
            },
            Told::Closes => Some(End::Closed),
            Told::Going => Some(End::Closed),
        }
    }

    /// Begins the next exchange, and answers whether it has an answer of its own.
    pub(crate) fn begin_exchange(&mut self) -> Result<bool, OutOfMemory>
        requires placed { IsPlaced (S.placed self.old.sides) (S.answer self.old.sides) self.old.at.phase self.old.at.cut }
        ensures placed { OnOk result (IsPlaced (S.placed self.new.sides) (S.answer self.new.sides) self.new.at.phase self.new.at.cut) }
        ensures keeps { OnOk result (Keeps S.meaning S.request S.answer S.stands self.old.sides self.old.at self.new.sides self.new.at) }
        ensures succeeds { (cfg : S.Settings) (past : Past) → Stands (S.meaning cfg) S.request S.answer (S.stands cfg) self.old.sides self.old.at past → S.needs cfg ≡ false → IsOk result }
        ensures cut { OnOk result (self.new.at.cut ≡ self.old.at.cut) }
        ensures serving { OnOk result (is_serving self.new.at.phase ≡ is_serving self.old.at.phase) }
        ensures less { IfOk result (λ more. more ≡ true → (S.request self.new.sides).unread < (S.request self.old.sides).unread) }
        ensures saying { IfOk result (λ more. more ≡ true → IsSaying self.new.at.phase) }
        ensures settled { IfOk result (λ more. more ≡ false → Ended self.old.at.phase self.old.at.cut (S.request self.old.sides) (S.answer self.old.sides) → Settled self.new.at.phase self.new.at.cut (S.request self.new.sides) (S.answer self.new.sides)) }
        ensures begins { OnOk result (BeginsOne self.old.at self.new.at) }
        ensures stays { OnOk result (says_itself self.old.at.phase ≡ true → self.new.at ≡ self.old.at) }
    {
        match self.at.phase {
            Phase::Reading => self.ask(),
            Phase::Opening => Ok(false),
            Phase::Unserved => Ok(false),
            Phase::Serving => Ok(false),
            Phase::Served => Ok(false),
            Phase::Refusing => Ok(false),
            Phase::Replying(_) => Ok(false),
            Phase::Over(_) => Ok(false),
        }
    }

    fn ask(&mut self) -> Result<bool, OutOfMemory>
        requires phase { self.old.at.phase ≡ Phase.Reading }
        requires placed { IsPlaced (S.placed self.old.sides) (S.answer self.old.sides) self.old.at.phase self.old.at.cut }
        ensures placed { OnOk result (IsPlaced (S.placed self.new.sides) (S.answer self.new.sides) self.new.at.phase self.new.at.cut) }
        ensures keeps { OnOk result (Keeps S.meaning S.request S.answer S.stands self.old.sides self.old.at self.new.sides self.new.at) }
        ensures succeeds { (cfg : S.Settings) (past : Past) → Stands (S.meaning cfg) S.request S.answer (S.stands cfg) self.old.sides self.old.at past → S.needs cfg ≡ false → IsOk result }
        ensures cut { OnOk result (self.new.at.cut ≡ self.old.at.cut) }
        ensures serving { OnOk result (is_serving self.new.at.phase ≡ is_serving self.old.at.phase) }
        ensures less { IfOk result (λ more. more ≡ true → (S.request self.new.sides).unread < (S.request self.old.sides).unread) }
        ensures saying { IfOk result (λ more. more ≡ true → IsSaying self.new.at.phase) }
        ensures settled { IfOk result (λ more. more ≡ false → Settled self.new.at.phase self.new.at.cut (S.request self.new.sides) (S.answer self.new.sides)) }
        ensures begins { OnOk result (BeginsOne self.old.at self.new.at) }
    {
        let asked = self.sides.ask()?;
        match asked {
            Asked::More => Ok(false),
            Asked::Nothing => {
                self.at.phase = Phase::Over(End::Done);
                Ok(false)
            }
            Asked::Refuse => {
                self.at = counted(self.at, Phase::Refusing);
                Ok(true)
            }
            Asked::Reply(kept) => {
                self.at = counted(self.at, Phase::Replying(kept));
                Ok(true)
            }
            Asked::Send => {
                self.at = counted(self.at, Phase::Opening);
                Ok(false)
            }
        }
    }
}

/// One more exchange; the count stays at its type's last value.
fn counted(at: At, phase: Phase) -> At
    ensures { result ≡ record at { phase = phase; exchanges = min (at.exchanges + 1) most } }
{
    At {
        phase,
        cut: at.cut,
        exchanges: at.exchanges.saturating_add(1),
    }
}

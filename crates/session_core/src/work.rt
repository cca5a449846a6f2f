//! Work: all that can be done without another event.
ghost use Rattle.std.specs.Prelude.{◌≡◌, Option, Some, None, Bool, true, false, OnOk, IsOk, IsErr, IsTrue, ◌↔◌, MatchOption};
ghost use Rattle.session_core.specs.History.{Past, Work};
ghost use Rattle.session_core.specs.Sided.{IsUncut};
ghost use Rattle.session_core.specs.Waits.{wants_of, wants_any, is_serving, RequestWaits, AnswerWaitsAt, Stepped, Answered, Settled, refused_phase};
ghost use Rattle.session_core.specs.Leads.{Stands, Leads, Keeps, IsNote, Meets};
ghost use Rattle.session_core.specs.Place.{IsPlaced, IsSomewhere};

use crate::Phase;
use crate::machine::Core;
use crate::sides::Works;
use http_model::{OutOfMemory, Source};

impl<S: Works> Core<S> {
    /// Does all that can be done without another event.
    pub fn work(&mut self) -> Result<(), OutOfMemory>
        requires placed { IsPlaced (S.placed self.old.sides) (S.answer self.old.sides) self.old.at.phase self.old.at.cut }
        ensures placed { OnOk result (IsPlaced (S.placed self.new.sides) (S.answer self.new.sides) self.new.at.phase self.new.at.cut) }
        ensures leads { OnOk result ((note : Option Bool) × IsNote self.old.at.cut self.new.at.cut (S.answer self.old.sides).begun note × Leads S.meaning S.request S.answer S.stands self.old.sides self.old.at self.new.sides self.new.at (Work note)) }
        ensures succeeds { (cfg : S.Settings) (past : Past) → Stands (S.meaning cfg) S.request S.answer (S.stands cfg) self.old.sides self.old.at past → S.needs cfg ≡ false → IsOk result }
        ensures lost { IsErr result ↔ IsTrue self.new.lost }
        ensures serving { OnOk result (is_serving self.new.at.phase ≡ is_serving self.old.at.phase) }
        ensures settled { OnOk result (Settled self.new.at.phase self.new.at.cut (S.request self.new.sides) (S.answer self.new.sides)) }
        ensures wants { OnOk result (wants_any (wants_of (S.request self.new.sides) (S.answer self.new.sides) self.new.at) ≡ true) }
    {
        match self.run() {
            Ok(()) => {
                self.lost = false;
                Ok(())
            }
            Err(e) => {
                self.lost = true;
                Err(e)
            }
        }
    }

    fn run(&mut self) -> Result<(), OutOfMemory>
        requires placed { IsPlaced (S.placed self.old.sides) (S.answer self.old.sides) self.old.at.phase self.old.at.cut }
        ensures placed { OnOk result (IsPlaced (S.placed self.new.sides) (S.answer self.new.sides) self.new.at.phase self.new.at.cut) }
        ensures keeps { OnOk result (Keeps S.meaning S.request S.answer S.stands self.old.sides self.old.at self.new.sides self.new.at) }
        ensures succeeds { (cfg : S.Settings) (past : Past) → Stands (S.meaning cfg) S.request S.answer (S.stands cfg) self.old.sides self.old.at past → S.needs cfg ≡ false → IsOk result }
        ensures met { OnOk result (Meets self.old.at.cut self.new.at.cut (S.answer self.old.sides).begun) }
        ensures serving { OnOk result (is_serving self.new.at.phase ≡ is_serving self.old.at.phase) }
        ensures settled { OnOk result (Settled self.new.at.phase self.new.at.cut (S.request self.new.sides) (S.answer self.new.sides)) }
    {
        self.run_request();
        self.refuse_unserved()?;
        self.run_answer()?;
        self.end_exchange();
        while self.begin_exchange()? {
            self.run_answer()?;
            self.end_exchange();
        }
        Ok(())
    }

    /// The code of a cut that was not met before.
    fn newly_cut(&self) -> Option<u16>
        requires placed { IsSomewhere (S.placed self.now.sides) }
        ensures { MatchOption result (self.now.at.cut ≡ None → IsUncut (S.request self.now.sides).source) (λ code. (self.now.at.cut ≡ None) × ((S.request self.now.sides).source ≡ Source.Cut code)) }
    {
        match self.at.cut {
            Some(_) => None,
            None => match self.sides.source() {
                Source::Cut(code) => Some(code),
                Source::Going => None,
                Source::Whole => None,
            },
        }
    }

    /// The request direction, as far as it can go. Where the request is met as cut and the answer hasn't begun, a refusal
    /// takes its place.
    pub(crate) fn run_request(&mut self)
        requires placed { IsPlaced (S.placed self.old.sides) (S.answer self.old.sides) self.old.at.phase self.old.at.cut }
        ensures placed { IsPlaced (S.placed self.new.sides) (S.answer self.new.sides) self.new.at.phase self.new.at.cut }
        ensures keeps { Keeps S.meaning S.request S.answer S.stands self.old.sides self.old.at self.new.sides self.new.at }
        ensures met { Meets self.old.at.cut self.new.at.cut (S.answer self.old.sides).begun }
        ensures phase { self.new.at.phase ≡ self.old.at.phase }
        ensures stepped { Stepped self.new.at.phase (S.request self.new.sides) }
        ensures exchanges { self.new.at.exchanges ≡ self.old.at.exchanges }
    {
        match self.at.phase {
            Phase::Serving => self.step_request(),
            Phase::Reading => {}
            Phase::Opening => {}
            Phase::Unserved => {}
            Phase::Served => {}
            Phase::Refusing => {}
            Phase::Replying(_) => {}
            Phase::Over(_) => {}
        }
    }

    fn step_request(&mut self)
        requires phase { self.old.at.phase ≡ Phase.Serving }
        requires placed { IsPlaced (S.placed self.old.sides) (S.answer self.old.sides) self.old.at.phase self.old.at.cut }
        ensures placed { IsPlaced (S.placed self.new.sides) (S.answer self.new.sides) self.new.at.phase self.new.at.cut }
        ensures keeps { Keeps S.meaning S.request S.answer S.stands self.old.sides self.old.at self.new.sides self.new.at }
        ensures met { Meets self.old.at.cut self.new.at.cut (S.answer self.old.sides).begun }
        ensures phase { self.new.at.phase ≡ self.old.at.phase }
        ensures stepped { RequestWaits (S.request self.new.sides) }
        ensures exchanges { self.new.at.exchanges ≡ self.old.at.exchanges }
    {
        self.sides.step_request();
        match self.newly_cut() {
            None => {}
            Some(code) => {
                if self.sides.is_begun() {
                    self.at.cut = Some(true);
                } else {
                    self.sides.turn(code);
                    self.at.cut = Some(false);
                }
            }
        }
    }

    /// A server was refused: so is the client.
    pub(crate) fn refuse_unserved(&mut self) -> Result<(), OutOfMemory>
        requires placed { IsPlaced (S.placed self.old.sides) (S.answer self.old.sides) self.old.at.phase self.old.at.cut }
        ensures placed { OnOk result (IsPlaced (S.placed self.new.sides) (S.answer self.new.sides) self.new.at.phase self.new.at.cut) }
        ensures keeps { OnOk result (Keeps S.meaning S.request S.answer S.stands self.old.sides self.old.at self.new.sides self.new.at) }
        ensures succeeds { (cfg : S.Settings) (past : Past) → Stands (S.meaning cfg) S.request S.answer (S.stands cfg) self.old.sides self.old.at past → S.needs cfg ≡ false → IsOk result }
        ensures cut { OnOk result (self.new.at.cut ≡ self.old.at.cut) }
        ensures phase { OnOk result (self.new.at.phase ≡ refused_phase self.old.at.phase) }
        ensures request { OnOk result (S.request self.new.sides ≡ S.request self.old.sides) }
        ensures exchanges { OnOk result (self.new.at.exchanges ≡ self.old.at.exchanges) }
    {
        match self.at.phase {
            Phase::Unserved => self.refuse_server(),
            Phase::Reading => Ok(()),
            Phase::Opening => Ok(()),
            Phase::Serving => Ok(()),
            Phase::Served => Ok(()),
            Phase::Refusing => Ok(()),
            Phase::Replying(_) => Ok(()),
            Phase::Over(_) => Ok(()),
        }
    }

    fn refuse_server(&mut self) -> Result<(), OutOfMemory>
        requires phase { self.old.at.phase ≡ Phase.Unserved }
        requires placed { IsPlaced (S.placed self.old.sides) (S.answer self.old.sides) self.old.at.phase self.old.at.cut }
        ensures placed { OnOk result (IsPlaced (S.placed self.new.sides) (S.answer self.new.sides) self.new.at.phase self.new.at.cut) }
        ensures keeps { OnOk result (Keeps S.meaning S.request S.answer S.stands self.old.sides self.old.at self.new.sides self.new.at) }
        ensures succeeds { (cfg : S.Settings) (past : Past) → Stands (S.meaning cfg) S.request S.answer (S.stands cfg) self.old.sides self.old.at past → S.needs cfg ≡ false → IsOk result }
        ensures cut { OnOk result (self.new.at.cut ≡ self.old.at.cut) }
        ensures phase { OnOk result (self.new.at.phase ≡ Phase.Refusing) }
        ensures request { OnOk result (S.request self.new.sides ≡ S.request self.old.sides) }
        ensures exchanges { OnOk result (self.new.at.exchanges ≡ self.old.at.exchanges) }
    {
        self.sides.refuse(503)?;
        self.at.phase = Phase::Refusing;
        Ok(())
    }

    /// A refusal took the place of the server's answer.
    pub(crate) fn is_turned(&self) -> bool
        ensures { IsTrue result ↔ (self.now.at.cut ≡ Some false) }
    {
        match self.at.cut {
            Some(begun) => !begun,
            None => false,
        }
    }

    /// The answer direction, as far as it can go.
    #[inline(always)]
    pub(crate) fn run_answer(&mut self) -> Result<(), OutOfMemory>
        requires placed { IsPlaced (S.placed self.old.sides) (S.answer self.old.sides) self.old.at.phase self.old.at.cut }
        ensures placed { OnOk result (IsPlaced (S.placed self.new.sides) (S.answer self.new.sides) self.new.at.phase self.new.at.cut) }
        ensures keeps { OnOk result (Keeps S.meaning S.request S.answer S.stands self.old.sides self.old.at self.new.sides self.new.at) }
        ensures succeeds { (cfg : S.Settings) (past : Past) → Stands (S.meaning cfg) S.request S.answer (S.stands cfg) self.old.sides self.old.at past → S.needs cfg ≡ false → IsOk result }
        ensures at { OnOk result (self.new.at ≡ self.old.at) }
        ensures request { S.request self.new.sides ≡ S.request self.old.sides }
        ensures answered { OnOk result (Answered self.new.at.phase self.new.at.cut (S.answer self.new.sides)) }
    {
        match self.at.phase {
            Phase::Serving => self.answer_or_say(),
            Phase::Refusing => {
                self.sides.say();
                Ok(())
            }
            Phase::Replying(_) => {
                self.sides.say();
                Ok(())
            }
            Phase::Reading => Ok(()),
            Phase::Opening => Ok(()),
            Phase::Unserved => Ok(()),
            Phase::Served => Ok(()),
            Phase::Over(_) => Ok(()),
        }
    }

    fn answer_or_say(&mut self) -> Result<(), OutOfMemory>
        requires phase { self.old.at.phase ≡ Phase.Serving }
        requires placed { IsPlaced (S.placed self.old.sides) (S.answer self.old.sides) self.old.at.phase self.old.at.cut }
        ensures placed { OnOk result (IsPlaced (S.placed self.new.sides) (S.answer self.new.sides) self.new.at.phase self.new.at.cut) }
        ensures keeps { OnOk result (Keeps S.meaning S.request S.answer S.stands self.old.sides self.old.at self.new.sides self.new.at) }
        ensures succeeds { (cfg : S.Settings) (past : Past) → Stands (S.meaning cfg) S.request S.answer (S.stands cfg) self.old.sides self.old.at past → S.needs cfg ≡ false → IsOk result }
        ensures at { OnOk result (self.new.at ≡ self.old.at) }
        ensures request { S.request self.new.sides ≡ S.request self.old.sides }
        ensures answered { OnOk result (AnswerWaitsAt self.new.at.cut (S.answer self.new.sides)) }
    {
        if self.is_turned() {
            self.sides.say();
            return Ok(());
        }
        self.sides.step_answer()?;
        Ok(())
    }
}

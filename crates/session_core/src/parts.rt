//! Work in parts, for a driver that tells of each exchange: one that this core answers itself is seen before it ends.
ghost use Rattle.std.specs.Prelude.{◌≡◌, Option, None, Bool, true, false, OnOk, IfOk, IsOk, IsErr, IsTrue, ◌↔◌};
ghost use Rattle.session_core.specs.History.{Past, Work};
ghost use Rattle.session_core.specs.Waits.{wants_of, wants_any, is_serving, Settled};
ghost use Rattle.session_core.specs.Leads.{Stands, Leads, Keeps, IsNote, Meets};
ghost use Rattle.session_core.specs.Parts.{EndsNoneSaid};
ghost use Rattle.session_core.specs.Place.{IsPlaced};
ghost use Rattle.session_core.specs.Statuses.{whole_in, said_in};
ghost use Rattle.session_core.specs.declared.parts.Worked.{Worked};
ghost use Rattle.session_core.specs.declared.parts.Worked.TheVariants as worked;

use crate::Phase;
use crate::machine::Core;
use crate::sides::Works;
use http_model::OutOfMemory;

/// What a part of work came to.
#[derive(Clone, Copy)]
pub enum Worked {
    /// All is done that can be done without another event.
    Settled,
    /// All text of a refusal or a reply was put out, and its exchange is to be ended (`end_said`) before work goes on.
    Said,
}

impl<S: Works> Core<S> {
    /// Does what can be done without another event, up to the end of an exchange that is a refusal or a reply: that is left to `end_said`.
    pub fn work_part(&mut self) -> Result<Worked, OutOfMemory>
        requires placed { IsPlaced (S.placed self.old.sides) (S.answer self.old.sides) self.old.at.phase self.old.at.cut }
        ensures placed { OnOk result (IsPlaced (S.placed self.new.sides) (S.answer self.new.sides) self.new.at.phase self.new.at.cut) }
        ensures leads { OnOk result ((note : Option Bool) × IsNote self.old.at.cut self.new.at.cut (S.answer self.old.sides).begun note × Leads S.meaning S.request S.answer S.stands self.old.sides self.old.at self.new.sides self.new.at (Work note)) }
        ensures succeeds { (cfg : S.Settings) (past : Past) → Stands (S.meaning cfg) S.request S.answer (S.stands cfg) self.old.sides self.old.at past → S.needs cfg ≡ false → IsOk result }
        ensures lost { IsErr result ↔ IsTrue self.new.lost }
        ensures serving { OnOk result (is_serving self.new.at.phase ≡ is_serving self.old.at.phase) }
        ensures settled { IfOk result (λ done. done ≡ worked.Settled → Settled self.new.at.phase self.new.at.cut (S.request self.new.sides) (S.answer self.new.sides)) }
        ensures wants { IfOk result (λ done. done ≡ worked.Settled → wants_any (wants_of (S.request self.new.sides) (S.answer self.new.sides) self.new.at) ≡ true) }
        ensures said { IfOk result (λ done. done ≡ worked.Said → whole_in self.new.at.phase (S.answer self.new.sides).answered ≡ true) }
        ensures ends_none { OnOk result (EndsNoneSaid self.old.at self.new.at) }
    {
        match self.run_part() {
            Ok(done) => {
                self.lost = false;
                Ok(done)
            }
            Err(e) => {
                self.lost = true;
                Err(e)
            }
        }
    }

    /// Ends the exchange of a refusal or a reply of which all text was put out. Where there is none it does nothing.
    pub fn end_said(&mut self)
        requires placed { IsPlaced (S.placed self.old.sides) (S.answer self.old.sides) self.old.at.phase self.old.at.cut }
        ensures placed { IsPlaced (S.placed self.new.sides) (S.answer self.new.sides) self.new.at.phase self.new.at.cut }
        ensures leads { Leads S.meaning S.request S.answer S.stands self.old.sides self.old.at self.new.sides self.new.at (Work None) }
        ensures lost { self.new.lost ≡ self.old.lost }
        ensures serving { is_serving self.new.at.phase ≡ is_serving self.old.at.phase }
    {
        self.end_exchange();
    }

    /// Whether all text of a refusal or a reply was put out.
    fn has_said(&self) -> bool
        requires placed { IsPlaced (S.placed self.now.sides) (S.answer self.now.sides) self.now.at.phase self.now.at.cut }
        ensures { result ≡ said_in self.now.at.phase (S.answer self.now.sides).answered }
    {
        match self.at.phase {
            Phase::Refusing => self.sides.is_answered(),
            Phase::Replying(_) => self.sides.is_answered(),
            Phase::Reading => false,
            Phase::Opening => false,
            Phase::Unserved => false,
            Phase::Serving => false,
            Phase::Served => false,
            Phase::Over(_) => false,
        }
    }

    fn run_part(&mut self) -> Result<Worked, OutOfMemory>
        requires placed { IsPlaced (S.placed self.old.sides) (S.answer self.old.sides) self.old.at.phase self.old.at.cut }
        ensures placed { OnOk result (IsPlaced (S.placed self.new.sides) (S.answer self.new.sides) self.new.at.phase self.new.at.cut) }
        ensures keeps { OnOk result (Keeps S.meaning S.request S.answer S.stands self.old.sides self.old.at self.new.sides self.new.at) }
        ensures succeeds { (cfg : S.Settings) (past : Past) → Stands (S.meaning cfg) S.request S.answer (S.stands cfg) self.old.sides self.old.at past → S.needs cfg ≡ false → IsOk result }
        ensures met { OnOk result (Meets self.old.at.cut self.new.at.cut (S.answer self.old.sides).begun) }
        ensures serving { OnOk result (is_serving self.new.at.phase ≡ is_serving self.old.at.phase) }
        ensures settled { IfOk result (λ done. done ≡ worked.Settled → Settled self.new.at.phase self.new.at.cut (S.request self.new.sides) (S.answer self.new.sides)) }
        ensures said { IfOk result (λ done. done ≡ worked.Said → said_in self.new.at.phase (S.answer self.new.sides).answered ≡ true) }
        ensures ends_none { OnOk result (EndsNoneSaid self.old.at self.new.at) }
    {
        self.run_request();
        self.refuse_unserved()?;
        self.run_answer()?;
        if self.has_said() {
            return Ok(Worked::Said);
        }
        self.end_exchange();
        if self.begin_exchange()? {
            self.run_answer()?;
            if self.has_said() {
                return Ok(Worked::Said);
            }
        }
        Ok(Worked::Settled)
    }
}

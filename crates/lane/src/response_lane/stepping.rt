//! Text that a lane of answers puts out.
ghost use Rattle.std.specs.Prelude.{◌≡◌, ◌≤◌, [], length, true, false, List};
ghost use Rattle.body_filter.specs.declared.filter_spec.FilterSpec.{FilterSpec};
ghost use Rattle.lane.specs.Answering.{Exchange, Answers, PutsOut, IsSoundAnswer, IsAmongHeads, HoldsNothingBack, Rests, MayGoOn, HasFilters, shows_last, stage_of, source_of, input_of, ended_of, output_of, window_of, limits_of, has_begun, phase_of};
ghost use Rattle.lane.specs.declared.phase.Phase.TheVariants as phase;
ghost use Rattle.http_model.specs.declared.Source.TheVariants as source;
ghost use Rattle.lane.specs.declared.direction.stage.Stage.TheVariants as stage;

use crate::phase::Phase;
use crate::response_lane::ResponseLane;

impl ResponseLane {
    /// Does all that can be done with what came and what room there is.
    pub fn step(&mut self)
        requires sound { IsSoundAnswer self.old }
        requires sending { stage_of self.old ≡ stage.Sending }
        ensures answers { PutsOut self.old self.new }
        ensures no_stall { (p : Exchange) → Answers self.old p → stage_of self.new ≡ stage.Sending → MayGoOn self.new }
        ensures nothing_back { (p : Exchange) → Answers self.old p → phase_of self.new ≡ phase.Answering → output_of self.new ≡ [] → HoldsNothingBack self.new }
        ensures no_cut { (p : Exchange) → Answers self.old p → phase_of self.new ≡ phase.Answering → output_of self.new ≡ [] → Rests self.new }
        ensures begun { has_begun self.old ≡ true → has_begun self.new ≡ true }
        ensures last { shows_last (phase_of self.old) ≡ true → shows_last (phase_of self.new) ≡ true }
        ensures whole { shows_last (phase_of self.old) ≡ true → source_of self.old ≡ source.Whole → source_of self.new ≡ source.Whole }
        ensures heads { shows_last (phase_of self.old) ≡ false → IsAmongHeads self.new }
        ensures ended { ended_of self.new ≡ ended_of self.old }
        ensures shrinks { length (input_of self.new) ≤ length (input_of self.old) }
        ensures limits { limits_of self.new ≡ limits_of self.old }
        ensures window_size { (window_of self.new).capacity ≡ (window_of self.old).capacity }
        ensures sound { IsSoundAnswer self.new }
        ensures filters { (filters : List FilterSpec) → HasFilters self.old filters → HasFilters self.new filters }
    {
        match self.phase {
            Phase::Heads => {}
            Phase::Passing => self.pass_on(),
            Phase::Turning { no_body } => self.turn_on(no_body),
            Phase::Answering => self.answer_on(),
        }
    }

    /// Puts out more of an interim head; heads are read on behind it.
    fn pass_on(&mut self)
        requires sound { IsSoundAnswer self.old }
        requires at { phase_of self.old ≡ phase.Passing }
        ensures answers { PutsOut self.old self.new }
        ensures no_stall { (p : Exchange) → Answers self.old p → stage_of self.new ≡ stage.Sending → MayGoOn self.new }
        ensures nothing_back { (p : Exchange) → Answers self.old p → phase_of self.new ≡ phase.Answering → output_of self.new ≡ [] → HoldsNothingBack self.new }
        ensures no_cut { (p : Exchange) → Answers self.old p → phase_of self.new ≡ phase.Answering → output_of self.new ≡ [] → Rests self.new }
        ensures begun { has_begun self.old ≡ true → has_begun self.new ≡ true }
        ensures last { shows_last (phase_of self.old) ≡ true → shows_last (phase_of self.new) ≡ true }
        ensures whole { shows_last (phase_of self.old) ≡ true → source_of self.old ≡ source.Whole → source_of self.new ≡ source.Whole }
        ensures heads { shows_last (phase_of self.old) ≡ false → IsAmongHeads self.new }
        ensures ended { ended_of self.new ≡ ended_of self.old }
        ensures shrinks { length (input_of self.new) ≤ length (input_of self.old) }
        ensures limits { limits_of self.new ≡ limits_of self.old }
        ensures window_size { (window_of self.new).capacity ≡ (window_of self.old).capacity }
        ensures sound { IsSoundAnswer self.new }
        ensures filters { (filters : List FilterSpec) → HasFilters self.old filters → HasFilters self.new filters }
    {
        if self.lane.show_on() {
            self.lane.next();
            self.phase = Phase::Heads;
        }
    }

    /// Puts out more of an interim head, and then what stands in the first array.
    fn turn_on(&mut self, no_body: bool)
        requires sound { IsSoundAnswer self.old }
        requires at { phase_of self.old ≡ phase.Turning no_body }
        ensures answers { PutsOut self.old self.new }
        ensures no_stall { (p : Exchange) → Answers self.old p → stage_of self.new ≡ stage.Sending → MayGoOn self.new }
        ensures nothing_back { (p : Exchange) → Answers self.old p → phase_of self.new ≡ phase.Answering → output_of self.new ≡ [] → HoldsNothingBack self.new }
        ensures no_cut { (p : Exchange) → Answers self.old p → phase_of self.new ≡ phase.Answering → output_of self.new ≡ [] → Rests self.new }
        ensures begun { has_begun self.old ≡ true → has_begun self.new ≡ true }
        ensures last { shows_last (phase_of self.old) ≡ true → shows_last (phase_of self.new) ≡ true }
        ensures whole { shows_last (phase_of self.old) ≡ true → source_of self.old ≡ source.Whole → source_of self.new ≡ source.Whole }
        ensures ended { ended_of self.new ≡ ended_of self.old }
        ensures shrinks { length (input_of self.new) ≤ length (input_of self.old) }
        ensures limits { limits_of self.new ≡ limits_of self.old }
        ensures window_size { (window_of self.new).capacity ≡ (window_of self.old).capacity }
        ensures sound { IsSoundAnswer self.new }
        ensures filters { (filters : List FilterSpec) → HasFilters self.old filters → HasFilters self.new filters }
    {
        if self.lane.show_on() {
            self.lane.hide();
            self.lane.say_msg(no_body);
            self.phase = Phase::Answering;
            self.answer_on();
        }
    }

    /// Puts out more of the last that answers.
    fn answer_on(&mut self)
        requires sound { IsSoundAnswer self.old }
        requires at { phase_of self.old ≡ phase.Answering }
        requires sending { stage_of self.old ≡ stage.Sending }
        ensures answers { PutsOut self.old self.new }
        ensures no_stall { (p : Exchange) → Answers self.old p → stage_of self.new ≡ stage.Sending → MayGoOn self.new }
        ensures nothing_back { (p : Exchange) → Answers self.old p → phase_of self.new ≡ phase.Answering → output_of self.new ≡ [] → HoldsNothingBack self.new }
        ensures no_cut { (p : Exchange) → Answers self.old p → phase_of self.new ≡ phase.Answering → output_of self.new ≡ [] → Rests self.new }
        ensures begun { has_begun self.old ≡ true → has_begun self.new ≡ true }
        ensures last { shows_last (phase_of self.old) ≡ true → shows_last (phase_of self.new) ≡ true }
        ensures whole { shows_last (phase_of self.old) ≡ true → source_of self.old ≡ source.Whole → source_of self.new ≡ source.Whole }
        ensures ended { ended_of self.new ≡ ended_of self.old }
        ensures shrinks { length (input_of self.new) ≤ length (input_of self.old) }
        ensures limits { limits_of self.new ≡ limits_of self.old }
        ensures window_size { (window_of self.new).capacity ≡ (window_of self.old).capacity }
        ensures sound { IsSoundAnswer self.new }
        ensures filters { (filters : List FilterSpec) → HasFilters self.old filters → HasFilters self.new filters }
    {
        let before = self.lane.output_len();
        self.lane.step();
        if self.lane.output_len() > before {
            self.begun = true;
        }
    }
}

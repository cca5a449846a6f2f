//! Data of a server that goes to the client at once.
ghost use Rattle.std.specs.Prelude.{◌≡◌, ◌≤◌, ◌<◌, ◌+◌, ◌-◌, ℕ, length, take, true, List};
ghost use Rattle.body_filter.specs.declared.filter_spec.FilterSpec.{FilterSpec};
ghost use Rattle.lane.specs.Answering.{MayPassOn, AnswerGoesAtOnce, AnswerIsStraight, straight_room, PassedSo, IsOpen, IsSoundAnswer, HasFilters, stage_of, input_of, came_in, most_of, ended_of, window_of, limits_of, phase_of};
ghost use Rattle.lane.specs.declared.phase.Phase.TheVariants as phase;
ghost use Rattle.lane.specs.declared.direction.stage.Stage.TheVariants as stage;

use crate::phase::Phase;
use crate::response_lane::ResponseLane;

impl ResponseLane {
    /// Whether the last that answers is put out.
    fn is_answering(&self) -> bool
        ensures answering { result ≡ true → phase_of self.now ≡ phase.Answering }
        ensures only { phase_of self.now ≡ phase.Answering → result ≡ true }
    {
        match self.phase {
            Phase::Answering => true,
            Phase::Heads | Phase::Passing | Phase::Turning { no_body: _ } => false,
        }
    }

    /// So many bytes of the server, whatever they are, go to the client at once where they come.
    pub fn at_once(&self) -> usize
        ensures goes { AnswerGoesAtOnce self.now result }
        ensures most { AnswerIsStraight self.now → result ≡ straight_room self.now }
    {
        if !self.is_answering() {
            return 0;
        }
        self.lane.at_once()
    }

    /// Bytes of the server's stream come, and go to the client at once, as many at the front as can; how many did. The caller
    /// pushes the others. It is as if these were pushed and put out, but each is copied once.
    pub fn pass_data(&mut self, bytes: &[u8]) -> usize
        requires open { IsOpen self.old }
        requires sound { IsSoundAnswer self.old }
        requires room { length (input_of self.old) + length bytes.now ≤ most_of self.old }
        ensures within { result ≤ length bytes.now }
        ensures none { result ≡ 0 → self.new ≡ self.old }
        ensures some { 0 < result → (phase_of self.old ≡ phase.Answering) × (stage_of self.old ≡ stage.Sending) }
        ensures takes { MayPassOn self.old bytes.now → 0 < result }
        ensures all { (count : ℕ) → AnswerGoesAtOnce self.old count → length bytes.now ≤ count → (result ≡ length bytes.now) × AnswerGoesAtOnce self.new (count - length bytes.now) }
        ensures as_if { 0 < result → PassedSo self.old (take result bytes.now) self.new }
        ensures stage { stage_of self.new ≡ stage_of self.old }
        ensures came { came_in self.new ≡ came_in self.old }
        ensures ended { ended_of self.new ≡ ended_of self.old }
        ensures phase { phase_of self.new ≡ phase_of self.old }
        ensures limits { limits_of self.new ≡ limits_of self.old }
        ensures window_size { (window_of self.new).capacity ≡ (window_of self.old).capacity }
        ensures sound { IsSoundAnswer self.new }
        ensures filters { (filters : List FilterSpec) → HasFilters self.old filters → HasFilters self.new filters }
    {
        if !self.is_answering() {
            return 0;
        }
        let before = self.lane.output_len();
        let count = self.lane.pass_data(bytes);
        if self.lane.output_len() > before {
            self.begun = true;
            return count;
        }
        count
    }
}

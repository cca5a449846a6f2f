//! Data of a server that goes to the client at once.
ghost use Rattle.std.specs.Prelude.{◌≡◌, ◌≤◌, ◌<◌, ◌+◌, ◌-◌, ◌⊎◌, ℕ, List, length, take, true};
ghost use Rattle.forward_core.specs.Answer.Seen as spec;
ghost use Rattle.forward_core.specs.Answer.Seen.{seen, place_of, size_of, window_size_of};
ghost use Rattle.forward_core.specs.Answer.AtOnce.{TakesAtOnce, IsStraightSide, straight_room_of};
ghost use Rattle.forward_core.specs.Answer.Stands.{IsSoundSide};
ghost use Rattle.forward_core.specs.Answer.Said.{AnswerPuts};

use crate::answer::side::AnswerSide;
use crate::answer::side::putting::is_last;

impl AnswerSide {
    /// So many bytes of the server, whatever they are, go to the client at once where they come.
    pub fn at_once(&self) -> usize
        ensures goes { TakesAtOnce self.now result }
        ensures most { IsStraightSide self.now → result ≡ straight_room_of self.now }
    {
        if !is_last(self.place) {
            return 0;
        }
        self.lane.at_once()
    }

    /// Bytes of the server come, and data at their front goes to the client at once; how many did. It is as if these had come and
    /// had been put out. The caller hands on the others.
    pub fn pass_data(&mut self, bytes: &[u8]) -> usize
        requires sound { IsSoundSide self.old }
        requires open { (seen self.old).is_open ≡ true }
        requires room { (length bytes.now ≤ (seen self.old).room) ⊎ TakesAtOnce self.old (length bytes.now) }
        ensures within { result ≤ length bytes.now }
        ensures none { result ≡ 0 → self.new ≡ self.old }
        ensures leads { 0 < result → AnswerPuts self.old self.new (take result bytes.now) }
        ensures begun { (seen self.old).begun ≡ true → (seen self.new).begun ≡ true }
        ensures heard { (seen self.new).heard ≡ (seen self.old).heard }
        ensures open { (seen self.new).is_open ≡ (seen self.old).is_open }
        ensures room { length bytes.now ≤ result + (seen self.new).room }
        ensures place { place_of self.new ≡ place_of self.old }
        ensures size { size_of self.new ≡ size_of self.old }
        ensures window_size { window_size_of self.new ≡ window_size_of self.old }
        ensures sound { IsSoundSide self.new }
    {
        if !is_last(self.place) {
            return 0;
        }
        let passed = self.pass_wide(bytes);
        passed + self.pass_on(&bytes[passed..])
    }

    /// The same of bytes that are more than there is room for, where the last that answers goes out: as many as leave no more than that.
    fn pass_wide(&mut self, bytes: &[u8]) -> usize
        requires sound { IsSoundSide self.old }
        requires last { spec.is_last (place_of self.old) ≡ true }
        requires open { (seen self.old).is_open ≡ true }
        requires room { (length bytes.now ≤ (seen self.old).room) ⊎ TakesAtOnce self.old (length bytes.now) }
        ensures within { result ≤ length bytes.now }
        ensures none { result ≡ 0 → self.new ≡ self.old }
        ensures leads { AnswerPuts self.old self.new (take result bytes.now) }
        ensures begun { (seen self.old).begun ≡ true → (seen self.new).begun ≡ true }
        ensures heard { (seen self.new).heard ≡ (seen self.old).heard }
        ensures open { (seen self.new).is_open ≡ (seen self.old).is_open }
        ensures room { length bytes.now ≤ result + (seen self.new).room }
        ensures place { place_of self.new ≡ place_of self.old }
        ensures size { size_of self.new ≡ size_of self.old }
        ensures window_size { window_size_of self.new ≡ window_size_of self.old }
        ensures sound { IsSoundSide self.new }
    {
        let mut passed = 0;
        'parts: while bytes.len() - passed > self.room() {
            let end = passed + self.room();
            passed += self.pass_on(&bytes[passed..end]);
        }
        passed
    }

    /// The same of bytes for which there is room.
    fn pass_on(&mut self, bytes: &[u8]) -> usize
        requires sound { IsSoundSide self.old }
        requires last { spec.is_last (place_of self.old) ≡ true }
        requires open { (seen self.old).is_open ≡ true }
        requires room { length bytes.now ≤ (seen self.old).room }
        ensures within { result ≤ length bytes.now }
        ensures none { result ≡ 0 → self.new ≡ self.old }
        ensures leads { AnswerPuts self.old self.new (take result bytes.now) }
        ensures all { (count : ℕ) → TakesAtOnce self.old count → length bytes.now ≤ count → (result ≡ length bytes.now) × TakesAtOnce self.new (count - length bytes.now) }
        ensures begun { (seen self.old).begun ≡ true → (seen self.new).begun ≡ true }
        ensures heard { (seen self.new).heard ≡ (seen self.old).heard }
        ensures open { (seen self.new).is_open ≡ (seen self.old).is_open }
        ensures room { length bytes.now ≤ result + (seen self.new).room }
        ensures place { place_of self.new ≡ place_of self.old }
        ensures size { size_of self.new ≡ size_of self.old }
        ensures window_size { window_size_of self.new ≡ window_size_of self.old }
        ensures sound { IsSoundSide self.new }
    {
        let count = self.lane.pass_data(bytes);
        if count == 0 {
            return 0;
        }
        self.at_rest = false;
        count
    }
}

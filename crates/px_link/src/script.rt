//! Answers to questions, given in order.

/// Answers to the questions of one kind: each takes the next, and behind the last the answer is yes.
pub struct Script {
    answers: Vec<bool>,
    asked: usize,
}

impl Drop for Script {
    fn drop(self) {
        let Script {
            answers: _,
            asked: _,
        } = self;
    }
}

impl Script {
    /// A script with these answers.
    pub fn new(answers: Vec<bool>) -> Self {
        Script { answers, asked: 0 }
    }

    /// The next answer.
    pub(crate) fn answer(&mut self) -> bool {
        let told = self.answers.get(self.asked).copied().unwrap_or(true);
        self.asked = self.asked.saturating_add(1);
        told
    }

    /// Each later answer is yes.
    pub(crate) fn end(&mut self) {
        self.asked = usize::MAX;
    }
}

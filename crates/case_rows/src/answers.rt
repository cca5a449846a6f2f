//! What the steps of a row say, one behind another with semicolons between them. Want of memory is kept, and told at the end.
use crate::fault::Fault;
use std::alloc::Global;
use std::fmt::Debug;

/// What was said so far.
pub struct Answers {
    alloc: Global,
    text: Vec<u8>,
    short: bool,
}

impl Drop for Answers {
    fn drop(self) {
        let Answers {
            alloc: _,
            text: _,
            short: _,
        } = self;
    }
}

impl Answers {
    pub fn new(alloc: Global) -> Self {
        Answers {
            alloc,
            text: Vec::new(alloc),
            short: false,
        }
    }

    /// Puts bytes behind what was said, as part of the same answer.
    pub fn more(&mut self, bytes: &[u8]) {
        if self.text.extend_from_slice(bytes).is_err() {
            self.short = true;
        }
    }

    /// Says these bytes.
    pub fn say(&mut self, bytes: &[u8]) {
        if !self.text.is_empty() {
            self.more(b"; ");
        }
        self.more(bytes);
    }

    /// Says these bytes in double quotes.
    pub fn quote(&mut self, bytes: &[u8]) {
        self.say(b"\"");
        self.more(bytes);
        self.more(b"\"");
    }

    /// Puts bytes in brackets behind what was said, as part of the same answer.
    pub fn bracket(&mut self, bytes: &[u8]) {
        self.more(b"[");
        self.more(bytes);
        self.more(b"]");
    }

    /// Puts a number behind what was said, as part of the same answer.
    pub fn more_count(&mut self, number: u64) {
        match number.to_string(self.alloc) {
            Ok(text) => self.more(text.as_bytes()),
            Err(_) => self.short = true,
        }
    }

    /// Says a number.
    pub fn count(&mut self, number: u64) {
        self.say(b"");
        self.more_count(number);
    }

    /// Says a number with its sign.
    pub fn signed(&mut self, number: i64) {
        match number.to_string(self.alloc) {
            Ok(text) => self.say(text.as_bytes()),
            Err(_) => self.short = true,
        }
    }

    /// Puts what `Debug` writes behind what was said, as part of the same answer.
    pub fn more_name<T: Debug>(&mut self, value: &T) {
        match format!(in self.alloc; "{value:?}") {
            Ok(text) => self.more(text.as_bytes()),
            Err(_) => self.short = true,
        }
    }

    /// Says whether something is so.
    pub fn truth(&mut self, truth: bool) {
        if truth {
            self.say(b"yes");
        } else {
            self.say(b"no");
        }
    }

    /// Says bytes in double quotes, or that there are none.
    pub fn some_quote(&mut self, bytes: Option<&[u8]>) {
        match bytes {
            Some(bytes) => self.quote(bytes),
            None => self.say(b"none"),
        }
    }

    /// Says a number, or that there is none.
    pub fn some_count(&mut self, number: Option<u64>) {
        match number {
            Some(number) => self.count(number),
            None => self.say(b"none"),
        }
    }

    /// What was said.
    pub fn into_text(self) -> Result<Vec<u8>, Fault> {
        let Answers {
            alloc: _,
            text,
            short,
        } = self;
        if short {
            return Err(Fault::OutOfMemory);
        }
        Ok(text)
    }

    /// What was said, where saying it went well.
    pub fn told(self, said: Result<(), Fault>) -> Result<Vec<u8>, Fault> {
        match said {
            Ok(()) => self.into_text(),
            Err(fault) => Err(fault),
        }
    }

    /// The same where anything was to be said; else none.
    pub fn told_some(self, said: Option<Result<(), Fault>>) -> Option<Result<Vec<u8>, Fault>> {
        match said {
            Some(said) => Some(self.told(said)),
            None => None,
        }
    }
}

//! The words of a line while its parts are read. The bytes of all words stand in one vector.

ghost use Rattle.std.specs.Prelude.{◌≡◌, ◌++◌, ◌∷◌, [], ◌≤◌, length, OnOk, IfOk, fold};
ghost use Rattle.cfg_lex.specs.Words.{with_part, with_bytes, nothing, end_parts, verdict, Gives};

use crate::fault::LineFault;
use crate::item::{Part, Quotes};
use crate::reading::MAX_WORDS;
use crate::words::{Span, Words};
use htx_model::OutOfMemory;
use std::alloc::Global;
use std::marker::Model;

pub struct Draft {
    bytes: Vec<u8>,
    spans: Vec<Span>,
    is_open: bool,
    from: usize,
    faulty: bool,
}

impl Drop for Draft {
    fn drop(self) {
        let Draft {
            bytes: _,
            spans: _,
            is_open: _,
            from: _,
            faulty: _,
        } = self;
    }
}

impl Model for Draft {
    ghost use Rattle.std.specs.Prelude.{List, ℕ, ◌≤◌, length};
    ghost use Rattle.cfg_lex.specs.Words.{Sofar};
    ghost use Rattle.cfg_lex.specs.Spans.{spans_bytes, open_bytes, AreWithin};

    ghost Value = { Sofar };

    ghost view = { λ draft. record {
      whole = spans_bytes draft.bytes.items draft.spans.items;
      begun = open_bytes draft.is_open draft.from draft.bytes.items;
      faulty = draft.faulty;
    } };

    ghost invariant = { λ draft. (draft.from ≤ length draft.bytes.items) × AreWithin draft.bytes.items draft.spans.items };
}

impl Draft {
    /// No part yet, with room for so many bytes.
    pub fn new(alloc: Global, room: usize) -> Result<Draft, OutOfMemory>
        ensures { IfOk result (λ draft. draft ≡ nothing) }
    {
        Ok(Draft {
            bytes: Vec::with_capacity(alloc, room)?,
            spans: Vec::new(alloc),
            is_open: false,
            from: 0,
            faulty: false,
        })
    }

    /// A word is here, even if it stays empty.
    fn begin(&mut self)
        ensures { self.new ≡ with_bytes self.old [] }
    {
        if !self.is_open {
            self.is_open = true;
            self.from = self.bytes.len();
        }
    }

    /// The word goes on with a byte.
    fn push(&mut self, byte: u8) -> Result<(), OutOfMemory>
        ensures { OnOk result (self.new ≡ with_bytes self.old (byte ∷ [])) }
    {
        self.begin();
        self.bytes.push(byte)?;
        Ok(())
    }

    /// The word that went on is whole.
    fn close(&mut self) -> Result<(), OutOfMemory>
        ensures { OnOk result (self.new ≡ with_part self.old Part.Gap) }
    {
        if self.is_open {
            let len = self.bytes.len() - self.from;
            self.spans.push(Span {
                from: self.from,
                len,
            })?;
            self.is_open = false;
        }
        Ok(())
    }

    /// One more part.
    pub fn add(&mut self, part: Part) -> Result<(), OutOfMemory>
        ensures { OnOk result (self.new ≡ with_part self.old part) }
    {
        match part {
            Part::Gap => self.close()?,
            Part::Quote => self.begin(),
            Part::Byte(byte) => self.push(byte)?,
            Part::Kept(byte) => {
                self.push(b'\\')?;
                self.push(byte)?;
            }
            Part::Fault => {
                self.begin();
                self.faulty = true;
            }
        }
        Ok(())
    }

    /// The line ends between these quotes, where a quote without end is a fault.
    pub fn end(&mut self, quotes: Quotes) -> Result<(), OutOfMemory>
        ensures { OnOk result (self.new ≡ fold with_part self.old (end_parts quotes)) }
    {
        match quotes {
            Quotes::Outside => Ok(()),
            Quotes::Single | Quotes::Double => self.add(Part::Fault),
        }
    }

    /// The words, if the line ends here.
    #[tactic(auto, unfolding(crate::specs::Words::verdict))]
    pub fn finish(mut self) -> Result<Words, LineFault>
        ensures { Gives result (verdict self) }
    {
        self.close()?;
        let Draft {
            bytes,
            spans,
            is_open: _,
            from: _,
            faulty,
        } = self;
        if spans.len() > MAX_WORDS {
            return Err(LineFault::Limit);
        }
        if faulty {
            return Err(LineFault::Word);
        }
        Ok(Words::from_spans(bytes, spans))
    }
}

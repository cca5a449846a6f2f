//! The text so far, and the word in hand: a word is put together first, since its spelling depends on all of it.
ghost use Rattle.std.specs.Prelude.{◌≡◌, ◌++◌, [], OnOk};
ghost use Rattle.std.specs.Fmt.{decimal};
ghost use Rattle.cfg_print.specs.Words.{spaced};
ghost use Rattle.cfg_print.specs.Exprs.{expr_text};
ghost use Rattle.cfg_print.specs.Formats.{format_text};

use crate::exprs::put_expr;
use crate::formats::put_format;
use crate::words::put_spaced;
use log_format::Fmt;
use px_bytes::write_decimal;
use px_expr::Expr;
use px_link::OutOfMemory;
use std::alloc::Global;

/// A text that grows line by line, and room for the word in hand.
#[derive(Drop)]
pub(crate) struct Page {
    pub text: Vec<u8>,
    /// The word in hand. What stands in it between two calls means nothing.
    pub word: Vec<u8>,
}

impl Page {
    /// An empty text. Nothing has taken memory.
    pub fn new(alloc: Global) -> Page
        ensures { result.text.items ≡ [] }
    {
        Page {
            text: Vec::new(alloc),
            word: Vec::new(alloc),
        }
    }

    /// Puts bytes behind the text as they are.
    pub fn put(&mut self, bytes: &[u8]) -> Result<(), OutOfMemory>
        ensures { OnOk result (self.new.text.items ≡ self.old.text.items ++ bytes.now) }
    {
        self.text.extend_from_slice(bytes)?;
        Ok(())
    }

    /// Puts a word behind the others of its line.
    pub fn put_word(&mut self, word: &[u8]) -> Result<(), OutOfMemory>
        ensures { OnOk result (self.new.text.items ≡ self.old.text.items ++ spaced word.now) }
    {
        put_spaced(&mut self.text, word)
    }

    /// The same of a number.
    pub fn put_number(&mut self, n: u64) -> Result<(), OutOfMemory>
        ensures { OnOk result (self.new.text.items ≡ self.old.text.items ++ spaced (decimal n)) }
    {
        let mut text = [0; 20];
        let len = write_decimal(n, &mut text);
        put_spaced(&mut self.text, &text[..len])
    }

    /// The same of a format.
    pub fn put_format(&mut self, fmt: &Fmt) -> Result<(), OutOfMemory>
        ensures { OnOk result (self.new.text.items ≡ self.old.text.items ++ spaced (format_text fmt.now)) }
    {
        self.word.clear();
        put_format(&mut self.word, fmt)?;
        put_spaced(&mut self.text, &self.word)
    }

    /// The same of an expression.
    pub fn put_expr(&mut self, expr: &Expr) -> Result<(), OutOfMemory>
        ensures { OnOk result (self.new.text.items ≡ self.old.text.items ++ spaced (expr_text expr.now)) }
    {
        self.word.clear();
        put_expr(&mut self.word, expr)?;
        put_spaced(&mut self.text, &self.word)
    }
}

//! Bytes of names, texts and templates.
ghost use Rattle.std.specs.Prelude.{◌≡◌, ◌++◌, IfOk, OnOk, OnErr};

use htx_model::OutOfMemory;
use std::alloc::Global;
use std::marker::Model;

/// The bytes of a name, a text or a template, on the heap. Contracts see the list of them.
#[derive(Clone, Debug)]
pub struct Text {
    items: Vec<u8>,
}

impl Drop for Text {
    fn drop(self) {
        let Text { items: _ } = self;
    }
}

impl Model for Text {
    ghost use Rattle.std.specs.Prelude.{List, ℕ};

    ghost Value = { List ℕ };

    ghost view = { λ text. text.items.items };
}

impl Text {
    /// A copy of these.
    pub fn copy(alloc: Global, bytes: &[u8]) -> Result<Text, OutOfMemory>
        ensures { IfOk result (λ copied. copied ≡ bytes.now) }
    {
        Ok(Text {
            items: Vec::from_slice(alloc, bytes)?,
        })
    }

    /// Puts these behind the others.
    pub fn push(&mut self, bytes: &[u8]) -> Result<(), OutOfMemory>
        ensures ok { OnOk result (self.new ≡ self.old ++ bytes.now) }
        ensures err { OnErr result (self.new ≡ self.old) }
    {
        self.items.extend_from_slice(bytes)?;
        Ok(())
    }

    pub fn as_slice(&self) -> &[u8]
        ensures { result.now ≡ self.now }
    {
        &self.items
    }
}

//! A name that is kept, in memory of its own as far as that goes.
ghost use Rattle.std.specs.Prelude.{◌≡◌, ◌≤◌, [], length, IsOk, OnOk, OnErr};
ghost use Rattle.px_link.specs.MemFiles.{name_room};

use crate::OutOfMemory;
use std::alloc::Global;
use std::marker::Model;

/// How many bytes of a name are kept without memory from elsewhere.
const NAME_ROOM: usize = 255;

/// A name. Contracts see its bytes.
pub(crate) struct KeptName {
    first: [u8; NAME_ROOM],
    count: usize,
    rest: Vec<u8>,
}

impl Drop for KeptName {
    fn drop(self) {
        let KeptName {
            first: _,
            count: _,
            rest: _,
        } = self;
    }
}

impl Model for KeptName {
    ghost use Rattle.std.specs.Prelude.{List, ℕ, ◌≤◌, ◌++◌, take};

    ghost Value = { List ℕ };

    ghost view = { λ name. take name.count name.first ++ name.rest.items };

    ghost invariant = { λ name. name.count ≤ 255 };
}

impl KeptName {
    /// The empty name.
    pub(crate) fn new(alloc: Global) -> Self
        ensures { result ≡ [] }
    {
        KeptName {
            first: [0; NAME_ROOM],
            count: 0,
            rest: Vec::new(alloc),
        }
    }

    /// Keeps this name in place of the one before. A short one takes no memory.
    pub(crate) fn keep(&mut self, name: &[u8]) -> Result<(), OutOfMemory>
        ensures ok { OnOk result (self.new ≡ name.now) }
        ensures err { OnErr result (self.new ≡ self.old) }
        ensures short { length name.now ≤ name_room → IsOk result }
    {
        let count = name.len().min(NAME_ROOM);
        let (first, rest) = name.split_at(count);
        if rest.is_empty() {
            self.rest.clear();
        } else {
            self.rest = Vec::from_slice(*self.rest.allocator(), rest)?;
        }
        self.first[..count].copy_from_slice(first);
        self.count = count;
        Ok(())
    }
}

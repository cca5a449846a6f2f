//! A list that grows at its end, which contracts see as the list of its items. Where memory runs out it stays as it was.
ghost use Rattle.std.specs.Prelude.{◌≡◌, ◌<◌, ◌++◌, ◌∷◌, [], length, slice_get, ◌↔◌, IsTrue, OnOk, OnErr};

use http_model::OutOfMemory;
use std::alloc::Global;
use std::marker::Model;

/// A list that grows at its end, of at most 4294967295 items. Contracts see the list of them.
pub struct ItemList<T> {
    items: Vec<T>,
}

impl<T: Drop> Drop for ItemList<T> {
    fn drop(self) {
        let ItemList { items: _ } = self;
    }
}

impl<T> Model for ItemList<T> {
    ghost use Rattle.std.specs.Prelude.{List, ◌≤◌, length};

    ghost Value = { List T };

    ghost view = { λ list. list.items.items };

    ghost invariant = { λ list. length list.items.items ≤ 4294967295 };
}

impl<T> ItemList<T> {
    /// An empty list, which has taken no memory yet.
    pub fn new(alloc: Global) -> Self
        ensures { result ≡ [] }
    {
        ItemList {
            items: Vec::new(alloc),
        }
    }

    /// Puts an item behind the others.
    pub fn push(&mut self, item: T) -> Result<(), OutOfMemory>
    where
        T: Drop,
        requires { length self.old < 4294967295 }
        ensures ok { OnOk result (self.new ≡ self.old ++ item ∷ []) }
        ensures err { OnErr result (self.new ≡ self.old) }
    {
        self.items.push(item)?;
        Ok(())
    }

    pub fn len(&self) -> u32
        ensures { result ≡ length self.now }
    {
        self.items.len() as u32
    }

    pub fn is_empty(&self) -> bool
        ensures { IsTrue result ↔ (self.now ≡ []) }
    {
        self.items.is_empty()
    }

    pub fn get(&self, at: u32) -> &T
        requires { at < length self.now }
        ensures { slice_get self.now at ≡ Some result.now }
    {
        &self.items[at as usize]
    }

    /// The items, in order.
    pub fn as_slice(&self) -> &[T]
        ensures { result.now ≡ self.now }
    {
        self.items.as_slice()
    }
}

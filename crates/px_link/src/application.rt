//! How a FastCGI application is asked, as a configuration says it.
ghost use Rattle.std.specs.Prelude.{◌≡◌, IfOk, List, ℕ};

use crate::{Bytes, ItemList};
use http_model::OutOfMemory;
use std::alloc::Global;
use std::marker::Model;

/// How an application is asked. Contracts see it as `fcgi_model` has it.
pub struct Application {
    /// Where its files lie.
    pub root: Bytes,
    /// The file behind a path that ends in `/`.
    pub index: Option<Bytes>,
    /// The one file that is asked, whatever the path.
    pub script: Option<Bytes>,
    /// The names of the pairs that fields of the request are made for.
    pub params: ItemList<Bytes>,
}

impl Drop for Application {
    fn drop(self) {
        let Application {
            root: _,
            index: _,
            script: _,
            params: _,
        } = self;
    }
}

impl Model for Application {
    ghost use Rattle.fcgi_model.specs.Application as model;

    ghost Value = { model.Application };

    ghost view = { λ it. record { root = it.root; index = it.index; script = it.script; params = it.params } };
}

/// A copy of bytes, where there are some.
fn copy_some(alloc: Global, bytes: &Option<Bytes>) -> Result<Option<Bytes>, OutOfMemory>
    ensures { IfOk result (λ copied. copied ≡ bytes.now) }
{
    match bytes {
        Some(bytes) => Ok(Some(Bytes::copy(alloc, bytes.as_slice())?)),
        None => Ok(None),
    }
}

/// A copy of names.
fn copy_names(alloc: Global, names: &ItemList<Bytes>) -> Result<ItemList<Bytes>, OutOfMemory>
    ensures { IfOk result (λ copied. copied ≡ names.now) }
{
    let mut copied = ItemList::new(alloc);
    for at in 0..names.len() {
        copied.push(Bytes::copy(alloc, names.get(at).as_slice())?)?;
    }
    Ok(copied)
}

impl Application {
    /// A copy of it.
    pub fn copy(&self, alloc: Global) -> Result<Application, OutOfMemory>
        ensures { IfOk result (λ copied. copied ≡ self.now) }
    {
        Ok(Application {
            root: Bytes::copy(alloc, self.root.as_slice())?,
            index: copy_some(alloc, &self.index)?,
            script: copy_some(alloc, &self.script)?,
            params: copy_names(alloc, &self.params)?,
        })
    }
}

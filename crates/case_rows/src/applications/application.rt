//! An application, as a row says it: the root of its files, and behind semicolons `index FILE`, `script FILE` and `param NAME`.
use crate::{Fault, Step, Steps};
use px_link::{Application, Bytes, ItemList};
use std::alloc::Global;

/// Adds what a step says.
fn add_part(alloc: Global, step: &Step<'_>, application: &mut Application) -> Result<(), Fault> {
    let bytes = Bytes::copy(alloc, step.bytes(1))?;
    match step.word(0) {
        "index" => application.index = Some(bytes),
        "script" => application.script = Some(bytes),
        "param" if application.params.len() < u32::MAX => application.params.push(bytes)?,
        _ => return Err(Fault::Malformed),
    }
    Ok(())
}

/// An application whose files lie below this root.
fn below(alloc: Global, root: &Step<'_>) -> Result<Application, Fault> {
    Ok(Application {
        root: Bytes::copy(alloc, root.bytes(0))?,
        index: None,
        script: None,
        params: ItemList::new(alloc),
    })
}

/// The application that a text says.
pub fn application_of(alloc: Global, text: &str) -> Result<Application, Fault> {
    let steps = Steps::read(alloc, text)?;
    let [root, parts @ ..] = steps.as_slice() else {
        return Err(Fault::Malformed);
    };
    let mut application = below(alloc, root)?;
    for part in parts {
        add_part(alloc, part, &mut application)?;
    }
    Ok(application)
}

//! The file that is asked.
ghost use Rattle.std.specs.Prelude.{◌≡◌, ◌++◌, IfOk};
ghost use Rattle.fcgi_model.specs.Pairs as pairs;

use http_model::OutOfMemory;
use px_link::{Application, Bytes};
use std::alloc::Global;

/// A path, and what follows it where it ends in `/`.
fn with_index<'t>(index: &'t Option<Bytes>, path: &'t [u8]) -> (&'t [u8], &'t [u8])
    ensures { pairs.with_index index.now path.now ≡ result.0.now ++ result.1.now }
{
    match index {
        Some(file) if path.ends_with(b"/") => (path, file.as_slice()),
        _ => (b"", path),
    }
}

/// The file that is asked, in two pieces: always the same one, or that of the path.
fn script_or<'t>(
    script: &'t Option<Bytes>,
    index: &'t Option<Bytes>,
    path: &'t [u8],
) -> (&'t [u8], &'t [u8])
    ensures { pairs.script_or script.now index.now path.now ≡ result.0.now ++ result.1.now }
{
    match script {
        Some(file) => (b"", file.as_slice()),
        None => with_index(index, path),
    }
}

/// The root, and the file that is asked below it.
pub(crate) fn script_file(
    alloc: Global,
    application: &Application,
    path: &[u8],
) -> Result<Vec<u8>, OutOfMemory>
    ensures { IfOk result (λ file. file.items ≡ application.now.root ++ pairs.script_of application.now path.now) }
{
    let (front, behind) = script_or(&application.script, &application.index, path);
    let mut file = Vec::new(alloc);
    file.extend_from_slice(application.root.as_slice())?;
    file.extend_from_slice(front)?;
    file.extend_from_slice(behind)?;
    Ok(file)
}

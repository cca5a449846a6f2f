//! The lines of `listen` that say where the files of an application lie, and which file is asked.
ghost use Rattle.std.specs.Prelude.{◌≡◌, OnErr};
ghost use Rattle.cfg_parse.specs.Reading.{Gives, Leaves};
ghost use Rattle.cfg_parse.specs.Applications.{path_of, last_path, docroot_line, names_file, index_line, begins_with_slash, script_of, script_line};

use crate::arguments::Arguments;
use crate::draft::{ApplicationLines, Draft};
use crate::fault::{CfgKind, LineRefusal};
use crate::limits::MAX_PATH;
use px_link::Bytes;
use std::alloc::Global;

/// A root or a file.
#[tactic(auto, unfolding(crate::specs::Applications::path_of))]
fn path_of(word: &[u8]) -> Result<&[u8], LineRefusal>
    ensures { Gives (λ path. path.now) result (path_of word.now) }
{
    if word.is_empty() || word.len() > MAX_PATH {
        return Err(LineRefusal::Refused(CfgKind::Argument));
    }
    Ok(word)
}

/// The same, behind which nothing stands.
#[tactic(auto, unfolding(crate::specs::Applications::last_path))]
fn last_path(arguments: Arguments<'_>) -> Result<&[u8], LineRefusal>
    ensures { Gives (λ path. path.now) result (last_path arguments.entry) }
{
    let (word, arguments) = arguments.argument()?;
    let path = path_of(word)?;
    arguments.no_more()?;
    Ok(path)
}

/// `fcgi-docroot DIR`.
#[tactic(auto, unfolding(crate::specs::Applications::docroot_line))]
pub fn set_docroot(
    alloc: Global,
    draft: &mut Draft,
    arguments: Arguments<'_>,
) -> Result<(), LineRefusal>
    ensures leaves { Leaves result draft.new (docroot_line draft.old arguments.entry) }
    ensures unchanged { OnErr result (draft.new ≡ draft.old) }
{
    if draft.application.root.is_some() {
        return Err(LineRefusal::Refused(CfgKind::Argument));
    }
    let root = Bytes::copy(alloc, last_path(arguments)?)?;
    drop(draft.application.root.replace(root));
    Ok(())
}

/// A line says already which file is asked.
fn names_file(lines: &ApplicationLines) -> bool
    ensures { result ≡ names_file lines.now }
{
    lines.index.is_some() || lines.script.is_some()
}

/// `fcgi-index FILE`.
#[tactic(auto, unfolding(crate::specs::Applications::index_line))]
pub fn set_index(
    alloc: Global,
    draft: &mut Draft,
    arguments: Arguments<'_>,
) -> Result<(), LineRefusal>
    ensures leaves { Leaves result draft.new (index_line draft.old arguments.entry) }
    ensures unchanged { OnErr result (draft.new ≡ draft.old) }
{
    if names_file(&draft.application) {
        return Err(LineRefusal::Refused(CfgKind::Argument));
    }
    let index = Bytes::copy(alloc, last_path(arguments)?)?;
    drop(draft.application.index.replace(index));
    Ok(())
}

/// The first byte is `/`.
fn begins_with_slash(path: &[u8]) -> bool
    ensures { result ≡ begins_with_slash path.now }
{
    match path {
        [b'/', ..] => true,
        _ => false,
    }
}

/// The last word as a path that begins with `/`.
#[tactic(auto, unfolding(crate::specs::Applications::script_of))]
fn script_of(arguments: Arguments<'_>) -> Result<&[u8], LineRefusal>
    ensures { Gives (λ path. path.now) result (script_of arguments.entry) }
{
    let path = last_path(arguments)?;
    if !begins_with_slash(path) {
        return Err(LineRefusal::Refused(CfgKind::Argument));
    }
    Ok(path)
}

/// `fcgi-script FILE`.
#[tactic(auto, unfolding(crate::specs::Applications::script_line))]
pub fn set_script(
    alloc: Global,
    draft: &mut Draft,
    arguments: Arguments<'_>,
) -> Result<(), LineRefusal>
    ensures leaves { Leaves result draft.new (script_line draft.old arguments.entry) }
    ensures unchanged { OnErr result (draft.new ≡ draft.old) }
{
    if names_file(&draft.application) {
        return Err(LineRefusal::Refused(CfgKind::Argument));
    }
    let script = Bytes::copy(alloc, script_of(arguments)?)?;
    drop(draft.application.script.replace(script));
    Ok(())
}

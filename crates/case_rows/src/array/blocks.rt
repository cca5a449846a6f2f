//! Blocks that a step takes out, cuts or overwrites, and bytes of the array.
ghost use Rattle.std.specs.Prelude.{◌≡◌, ◌<◌, length, IfOk};
ghost use Rattle.htx_model.specs.Block.{kind_of};
ghost use Rattle.htx_model.specs.Blocks.{block_at};
ghost use Rattle.htx_model.specs.declared.Kind.TheVariants as kinds;

use crate::{Answers, Fault, Step};
use htx_arena::{Arena, Kind};

/// Writes the first of some bytes over the one at a place.
pub fn overwrite(bytes: &mut [u8], place: usize, written: &[u8]) -> Result<(), Fault> {
    if place >= bytes.len() || written.is_empty() {
        return Err(Fault::Malformed);
    }
    bytes[place] = written[0];
    Ok(())
}

/// The place of data.
fn data_place(step: &Step<'_>, msg: &Arena) -> Result<u32, Fault>
    ensures within { IfOk result (λ at. at < length msg.now.blocks) }
    ensures is_data { IfOk result (λ at. kind_of (block_at msg.now.blocks at) ≡ kinds.Data) }
{
    let at = step.place(1)?;
    if at >= msg.len() {
        return Err(Fault::Malformed);
    }
    match msg.kind(at) {
        Kind::Data => Ok(at),
        _ => Err(Fault::Malformed),
    }
}

/// Takes bytes off the front of data.
fn cut(step: &Step<'_>, msg: &mut Arena) -> Result<(), Fault> {
    let at = data_place(step, msg)?;
    let count = step.place(2)?;
    if count as usize > msg.value(at).len() {
        return Err(Fault::Malformed);
    }
    msg.cut_front(at, count);
    Ok(())
}

/// Writes a byte of data through the slice that is lent.
fn write(step: &Step<'_>, msg: &mut Arena) -> Result<(), Fault> {
    let at = data_place(step, msg)?;
    let place = step.count(2)?;
    overwrite(msg.value_mut(at), place, step.bytes(3))
}

/// Takes a block out.
fn remove(step: &Step<'_>, msg: &mut Arena) -> Result<(), Fault> {
    let at = step.place(1)?;
    if at >= msg.len() {
        return Err(Fault::Malformed);
    }
    msg.remove(at);
    Ok(())
}

/// Keeps so many blocks in front, or drops them.
fn keep_or_drop(step: &Step<'_>, keeps: bool, msg: &mut Arena) -> Result<(), Fault> {
    let count = step.place(1)?;
    if count > msg.len() {
        return Err(Fault::Malformed);
    }
    if keeps {
        msg.truncate(count);
    } else {
        msg.drop_first(count);
    }
    Ok(())
}

/// Says bytes of the array.
pub fn say_raw(step: &Step<'_>, msg: &Arena, answers: &mut Answers) -> Result<(), Fault> {
    let from = step.count(1)?;
    let to = step.count(2)?;
    match msg.raw().get(from..to) {
        Some(bytes) => {
            answers.quote(bytes);
            Ok(())
        }
        None => Err(Fault::Malformed),
    }
}

/// Takes a step with all blocks, or one that puts data behind them; none where it is no such step.
fn step_whole(step: &Step<'_>, msg: &mut Arena) -> Option<Result<(), Fault>> {
    match step.word(0) {
        "data" => {
            let _ = msg.add_data(step.bytes(1));
        }
        "defrag" => msg.defrag(),
        "clear" => msg.clear(),
        _ => return None,
    }
    Some(Ok(()))
}

/// Takes a step that takes blocks out, cuts or overwrites them; none where it is no such step.
pub fn step_blocks(step: &Step<'_>, msg: &mut Arena) -> Option<Result<(), Fault>> {
    match step.word(0) {
        "remove" => Some(remove(step, msg)),
        "truncate" => Some(keep_or_drop(step, true, msg)),
        "drop" => Some(keep_or_drop(step, false, msg)),
        "cut" => Some(cut(step, msg)),
        "write" => Some(write(step, msg)),
        _ => step_whole(step, msg),
    }
}

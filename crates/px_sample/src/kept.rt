//! The variables of four scopes, scope by scope, in two blocks of memory that are taken once.
ghost use Rattle.std.specs.Prelude.{◌≡◌, ◌≢◌, ◌+◌, ◌≤◌, [], ◌∷◌, ◌++◌, length, take, drop, Some, None, IfOk};
ghost use Rattle.px_sample.specs.Sample.{value_in, within};
ghost use Rattle.px_sample.specs.Shape.{IsShape};
ghost use Rattle.px_sample.specs.Entry.{lookup, scope_limit};
ghost use Rattle.px_sample.specs.Slot.{value_of, freed_by};
ghost use Rattle.px_sample.specs.Shares.{share_of};
ghost use Rattle.px_sample.specs.Variables.{no_variables, variable, entries_in, with_entries, set_variable, unset_variable, clear_scope};
ghost use Rattle.px_sample.specs.Held.{variables_of, IsHeld, IsFoundIn};

use crate::form::Form;
use crate::share::{Share, Shares, Start};
use crate::shelf::{SCOPE_LIMIT, close, find, freed, is_room, put_in, read, take_out};
use crate::slot::Slot;
use crate::spot::Spot;
use crate::{Buf, Sample, Scope};
use htx_model::OutOfMemory;
use std::alloc::Global;

/// The variables of four scopes, those of a scope that were set last behind: what is known of each, their names and
/// values one after another, and how much of both each scope has.
pub struct Kept {
    pub slots: Vec<Slot>,
    pub bytes: Vec<u8>,
    pub shares: Shares,
}

impl Drop for Kept {
    fn drop(self) {
        let Kept {
            slots: _,
            bytes: _,
            shares: _,
        } = self;
    }
}

/// Room for the variables of four scopes, and none there. This call alone takes memory.
pub fn empty(alloc: Global) -> Result<Kept, OutOfMemory>
    ensures held { IfOk result IsHeld }
    ensures variables { IfOk result (λ kept. variables_of kept ≡ no_variables) }
{
    Ok(Kept {
        slots: Vec::with_capacity(alloc, 4 * (SCOPE_LIMIT + 1))?,
        bytes: Vec::with_capacity(alloc, 4 * SCOPE_LIMIT)?,
        shares: Shares::none(),
    })
}

/// So many of them from a place on.
fn part_of<T>(items: &[T], at: usize, count: usize) -> &[T]
    requires { at + count ≤ length items.now }
    ensures part { result.now ≡ take count (drop at items.now) }
    ensures len { length result.now ≡ count }
{
    &items[at..at + count]
}

/// The bytes from a place on.
fn rest_of(bytes: &[u8], at: usize) -> &[u8]
    requires { at ≤ length bytes.now }
    ensures { result.now ≡ drop at bytes.now }
{
    &bytes[at..]
}

/// The variable of a name.
fn find_in(kept: &Kept, scope: Scope, name: &[u8]) -> Option<Spot>
    requires { IsHeld kept.now }
    ensures found { IsFoundIn kept.now scope name.now result }
    ensures freed { freed_by result ≤ (share_of kept.now.shares scope).bytes }
{
    let start = kept.shares.start(scope);
    let own = kept.shares.of(scope);
    let slots = part_of(&kept.slots, start.slot, own.slots as usize);
    find(slots, rest_of(&kept.bytes, start.byte), name)
}

/// Takes out the variable of this name, if it was found.
fn clear_name(kept: &mut Kept, scope: Scope, name: &[u8], found: Option<Spot>)
    requires held { IsHeld kept.old }
    requires found { IsFoundIn kept.old scope name.now found }
    ensures held { IsHeld kept.new }
    ensures variables { variables_of kept.new ≡ unset_variable (variables_of kept.old) scope name.now }
    ensures freed { (share_of kept.new.shares scope).bytes + freed_by found ≡ (share_of kept.old.shares scope).bytes }
{
    let Some(spot) = found else {
        return;
    };
    let start = kept.shares.start(scope);
    let own = kept.shares.of(scope);
    let there = Spot {
        index: start.slot + spot.index,
        at: start.byte + spot.at,
        slot: spot.slot,
    };
    take_out(&mut kept.slots, &mut kept.bytes, there);
    let rest = Share {
        slots: own.slots - 1,
        bytes: own.bytes - (spot.slot.name + spot.slot.value),
    };
    kept.shares.set(scope, rest);
}

/// Puts a variable behind the others of its scope, which have other names.
fn add(kept: &mut Kept, scope: Scope, name: &[u8], form: Form, value: &[u8])
    requires held { IsHeld kept.old }
    requires absent { variable (variables_of kept.old) scope name.now ≡ None }
    requires shaped { IsShape form (length value.now) }
    requires short { (share_of kept.old.shares scope).bytes + length name.now + length value.now ≤ scope_limit }
    ensures held { IsHeld kept.new }
    ensures variables { variables_of kept.new ≡ with_entries (variables_of kept.old) scope (entries_in (variables_of kept.old) scope ++ (name.now, value_of form value.now) ∷ []) }
{
    let start = kept.shares.start(scope);
    let own = kept.shares.of(scope);
    let end = Start {
        slot: start.slot + own.slots as usize,
        byte: start.byte + own.bytes as usize,
    };
    put_in(&mut kept.slots, &mut kept.bytes, end, name, form, value);
    let more = Share {
        slots: own.slots + 1,
        bytes: own.bytes + (name.len() + value.len()) as u16,
    };
    kept.shares.set(scope, more);
}

/// Sets a variable, unless its scope would hold too much.
pub fn set(kept: &mut Kept, scope: Scope, name: &[u8], form: Form, value: &[u8])
    requires held { IsHeld kept.old }
    requires shaped { IsShape form (length value.now) }
    ensures held { IsHeld kept.new }
    ensures variables { variables_of kept.new ≡ set_variable (variables_of kept.old) scope name.now (Some (value_of form value.now)) }
{
    let found = find_in(kept, scope, name);
    let rest = kept.shares.of(scope).bytes as usize - freed(&found);
    if is_room(rest, name.len(), value.len()) {
        clear_name(kept, scope, name, found);
        add(kept, scope, name, form, value);
    }
}

/// Takes out a variable, if it is there.
pub fn unset(kept: &mut Kept, scope: Scope, name: &[u8])
    requires held { IsHeld kept.old }
    ensures held { IsHeld kept.new }
    ensures variables { variables_of kept.new ≡ unset_variable (variables_of kept.old) scope name.now }
{
    let found = find_in(kept, scope, name);
    clear_name(kept, scope, name, found);
}

/// Takes out all of a scope.
pub fn clear(kept: &mut Kept, scope: Scope)
    requires held { IsHeld kept.old }
    ensures held { IsHeld kept.new }
    ensures variables { variables_of kept.new ≡ clear_scope (variables_of kept.old) scope }
{
    let own = kept.shares.of(scope);
    if own.slots == 0 {
        return;
    }
    let start = kept.shares.start(scope);
    close(&mut kept.slots, start.slot, own.slots as usize);
    close(&mut kept.bytes, start.byte, own.bytes as usize);
    kept.shares.set(scope, Share { slots: 0, bytes: 0 });
}

/// The value of a variable. Bytes are written over what the buffer holds; any other answer leaves it as it was.
pub fn get(kept: &Kept, scope: Scope, name: &[u8], into: &mut Buf) -> Sample
    requires { IsHeld kept.now }
    ensures value { value_in result into.new.bytes ≡ within into.old.cap (variable (variables_of kept.now) scope name.now) }
    ensures unchanged { result ≢ Sample.InBuf → into.new ≡ into.old }
    ensures cap { into.new.cap ≡ into.old.cap }
{
    let Some(spot) = find_in(kept, scope, name) else {
        return Sample::Absent;
    };
    let start = kept.shares.start(scope).byte + spot.at + spot.slot.name as usize;
    let value = part_of(&kept.bytes, start, spot.slot.value as usize);
    read(spot.slot.form, value, into)
}

//! Variables one after another in bytes that are taken once: what is known of each, and its name and value.
ghost use Rattle.std.specs.Prelude.{◌≡◌, ◌≢◌, ◌+◌, ◌<◌, ◌≤◌, ◌++◌, length, take, drop, remove, insert, sum_by, vec_len, vec_capacity, slice_index_or, nat_le, Some, IfSome};
ghost use Rattle.px_sample.specs.Sample.{value_in, within};
ghost use Rattle.px_sample.specs.Shape.{IsShape};
ghost use Rattle.px_sample.specs.Entry.{scope_limit};
ghost use Rattle.px_sample.specs.Slot.{len_of, value_of, entries_of, IsFound, freed_by};

use crate::form::Form;
use crate::share::Start;
use crate::slot::Slot;
use crate::spot::Spot;
use crate::{Buf, Sample};

/// The most bytes that names and values of one scope have together.
pub const SCOPE_LIMIT: usize = 4096;

/// The variable of a name.
#[tactic(auto, using(crate::proofs::SlotLemmas::laid))]
pub fn find(slots: &[Slot], bytes: &[u8], name: &[u8]) -> Option<Spot>
    requires { sum_by len_of slots.now ≤ length bytes.now }
    ensures found { IsFound slots.now bytes.now name.now result }
    ensures within { IfSome result (λ spot. spot.at + len_of spot.slot ≤ length bytes.now) }
    ensures freed { freed_by result ≤ length bytes.now }
{
    let mut at = 0;
    for (index, slot) in slots.iter().enumerate() {
        let end = at + slot.name as usize;
        if &bytes[at..end] == name {
            return Some(Spot {
                index,
                at,
                slot: *slot,
            });
        }
        at = end + slot.value as usize;
    }
    None
}

/// Takes `len` of them out.
pub fn close<T: Copy>(items: &mut Vec<T>, at: usize, len: usize)
    requires { at + len ≤ vec_len items.old }
    ensures items { items.new.items ≡ take at items.old.items ++ drop (at + len) items.old.items }
    ensures capacity { vec_capacity items.new ≡ vec_capacity items.old }
    ensures len { vec_len items.new + len ≡ vec_len items.old }
{
    items.copy_within(at + len.., at);
    items.truncate(items.len() - len);
}

/// Puts these before the bytes that begin at a place.
fn widen(bytes: &mut Vec<u8>, at: usize, name: &[u8], value: &[u8])
    requires inside { at ≤ vec_len bytes.old }
    requires room { vec_len bytes.old + length name.now + length value.now ≤ vec_capacity bytes.old }
    ensures bytes { bytes.new.items ≡ take at bytes.old.items ++ name.now ++ value.now ++ drop at bytes.old.items }
    ensures len { vec_len bytes.new ≡ vec_len bytes.old + length name.now + length value.now }
    ensures room { vec_capacity bytes.old ≤ vec_capacity bytes.new }
{
    bytes.extend_from_slice(name).unwrap();
    bytes.extend_from_slice(value).unwrap();
    bytes[at..].rotate_right(name.len() + value.len());
}

/// Takes out the variable that was found.
#[tactic(auto, using(crate::proofs::SlotLemmas::laid))]
pub fn take_out(slots: &mut Vec<Slot>, bytes: &mut Vec<u8>, spot: Spot)
    requires gapless { sum_by len_of slots.old.items ≡ vec_len bytes.old }
    requires inside { spot.index < vec_len slots.old }
    requires starts { spot.at ≡ sum_by len_of (take spot.index slots.old.items) }
    requires is_slot { spot.slot ≡ slice_index_or slots.old.items spot.index spot.slot }
    ensures gapless { sum_by len_of slots.new.items ≡ vec_len bytes.new }
    ensures entries { entries_of slots.new.items bytes.new.items ≡ remove (entries_of slots.old.items bytes.old.items) spot.index }
    ensures slot_room { vec_capacity slots.new ≡ vec_capacity slots.old }
    ensures byte_room { vec_capacity bytes.new ≡ vec_capacity bytes.old }
    ensures freed { vec_len bytes.new + len_of spot.slot ≡ vec_len bytes.old }
{
    let len = spot.slot.name as usize + spot.slot.value as usize;
    close(bytes, spot.at, len);
    slots.remove(spot.index);
}

/// Puts a variable between those before a place and those behind it.
#[tactic(auto, using(crate::proofs::SlotLemmas::laid))]
pub fn put_in(
    slots: &mut Vec<Slot>,
    bytes: &mut Vec<u8>,
    end: Start,
    name: &[u8],
    form: Form,
    value: &[u8],
)
    requires gapless { sum_by len_of slots.old.items ≡ vec_len bytes.old }
    requires shaped { IsShape form (length value.now) }
    requires inside { end.slot ≤ vec_len slots.old }
    requires starts { end.byte ≡ sum_by len_of (take end.slot slots.old.items) }
    requires few { vec_len slots.old < vec_capacity slots.old }
    requires short { length name.now + length value.now ≤ scope_limit }
    requires room { vec_len bytes.old + length name.now + length value.now ≤ vec_capacity bytes.old }
    ensures gapless { sum_by len_of slots.new.items ≡ vec_len bytes.new }
    ensures entries { entries_of slots.new.items bytes.new.items ≡ insert (entries_of slots.old.items bytes.old.items) end.slot (name.now, value_of form value.now) }
    ensures slot_room { vec_capacity slots.old ≤ vec_capacity slots.new }
    ensures byte_room { vec_capacity bytes.old ≤ vec_capacity bytes.new }
{
    let slot = Slot {
        name: name.len() as u16,
        value: value.len() as u16,
        form,
    };
    slots.insert(end.slot, slot).unwrap();
    widen(bytes, end.byte, name, value);
}

/// How many bytes come free where this variable is taken out.
pub fn freed(found: &Option<Spot>) -> usize
    ensures { result ≡ freed_by found.now }
{
    match found {
        Some(spot) => spot.slot.name as usize + spot.slot.value as usize,
        None => 0,
    }
}

/// Whether a name and a value of these lengths go beside so many bytes.
pub fn is_room(kept: usize, name: usize, value: usize) -> bool
    requires { kept ≤ scope_limit }
    ensures { result ≡ nat_le (kept + name + value) scope_limit }
{
    let room = SCOPE_LIMIT - kept;
    name <= room && value <= room - name
}

/// The value of this form that the bytes hold.
pub fn read(form: Form, value: &[u8], into: &mut Buf) -> Sample
    requires { IsShape form (length value.now) }
    ensures value { value_in result into.new.bytes ≡ within into.old.cap (Some (value_of form value.now)) }
    ensures unchanged { result ≢ Sample.InBuf → into.new ≡ into.old }
    ensures cap { into.new.cap ≡ into.old.cap }
{
    match form {
        Form::Truth => Sample::Truth(value[0] == 1),
        Form::Number => {
            let mut bytes = [0; 8];
            bytes.copy_from_slice(value);
            Sample::Number(i64::from_le_bytes(bytes))
        }
        Form::Bytes => {
            if value.len() > into.cap() {
                return Sample::Absent;
            }
            into.clear();
            into.push(value);
            Sample::InBuf
        }
    }
}

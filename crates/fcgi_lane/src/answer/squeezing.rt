//! The output among bytes of records.
ghost use Rattle.std.specs.Prelude.{◌≡◌, ◌<◌, ◌≤◌, ◌+◌, ◌-◌, ◌++◌, length, take, drop, true, List, ℕ};
ghost use Rattle.fcgi_lane.specs.Answer.Flow.{Goes};
ghost use Rattle.fcgi_lane.specs.Answer.Flow.{Passes};
ghost use Rattle.fcgi_lane.specs.Answer.Flow.{is_going, patience};

use crate::answer::records::{RecordReader, Run};

/// Puts the `count` bytes from `used` on behind the first `found` ones.
fn move_front(bytes: &mut [u8], found: usize, used: usize, count: usize)
    requires found { found ≤ used }
    requires within { used + count ≤ length bytes.old }
    ensures front { take (found + count) bytes.new ≡ take found bytes.old ++ take count (drop used bytes.old) }
    ensures behind { drop (used + count) bytes.new ≡ drop (used + count) bytes.old }
    ensures len { length bytes.new ≡ length bytes.old }
{
    bytes.copy_within(used..used + count, found);
}

/// Reads the next run behind `used` bytes, and puts its output behind the `found` ones at the front. Answers both numbers behind it.
fn squeeze_run(
    records: &mut RecordReader,
    bytes: &mut [u8],
    found: usize,
    used: usize,
) -> (usize, usize)
    requires found { found ≤ used }
    requires some { used < length bytes.old }
    requires going { is_going records.old.place ≡ true }
    ensures found { (found ≤ result.0) × (result.0 ≤ result.1) }
    ensures used { (used < result.1) × (result.1 ≤ length bytes.old) }
    ensures len { length bytes.new ≡ length bytes.old }
    ensures behind { drop result.1 bytes.new ≡ drop result.1 bytes.old }
    ensures goes { (out : List ℕ) × Goes records.old (take (result.1 - used) (drop used bytes.old)) records.new out × (take result.0 bytes.new ≡ take found bytes.old ++ out) }
    ensures idle { result.0 ≡ found → records.new.idle ≡ records.old.idle + (result.1 - used) }
    ensures patient { is_going records.new.place ≡ true → records.new.idle < patience }
{
    match records.feed(&bytes[used..]) {
        Run::Output(count) => {
            move_front(bytes, found, used, count);
            (found + count, used + count)
        }
        Run::Quiet(count) => (found, used + count),
    }
}

/// Puts the output among these bytes of records to their front, and answers how many bytes it is. Where the request ends or is faulty among them, what
/// follows is dropped.
pub fn squeeze(records: &mut RecordReader, bytes: &mut [u8]) -> usize
    ensures within { result ≤ length bytes.old }
    ensures len { length bytes.new ≡ length bytes.old }
    ensures passes { Passes records.old bytes.old records.new (take result bytes.new) }
    ensures idle { result ≡ 0 → is_going records.new.place ≡ true → records.new.idle ≡ records.old.idle + length bytes.old }
    ensures patient { 0 < length bytes.old → is_going records.new.place ≡ true → records.new.idle < patience }
{
    let (mut found, mut used) = (0, 0);
    while used < bytes.len() {
        if !records.is_going() {
            return found;
        }
        (found, used) = squeeze_run(records, bytes, found, used);
    }
    found
}

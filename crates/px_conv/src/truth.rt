//! Converters of truth values.
ghost use Rattle.std.specs.Prelude.{◌≡◌, not, Some, if◌then◌else◌};
ghost use Rattle.px_sample.specs.Sample.{Truth, Bytes, value_in, bounded};
ghost use Rattle.px_conv.specs.Conv.{of_truth};

use px_sample::{Buf, Sample, Text};

pub fn negate(truth: Option<bool>, buf: &Buf) -> Sample
    ensures { value_in result buf.now.bytes ≡ of_truth (λ b. Some (Truth (not b))) truth }
{
    match truth {
        Some(truth) => Sample::Truth(!truth),
        None => Sample::Absent,
    }
}

pub fn sample_of(truth: Option<bool>, buf: &Buf) -> Sample
    ensures { value_in result buf.now.bytes ≡ of_truth (λ b. Some (Truth b)) truth }
{
    match truth {
        Some(truth) => Sample::Truth(truth),
        None => Sample::Absent,
    }
}

/// Writes one of two texts over what the buffer holds.
pub fn choose(truth: Option<bool>, yes: &Text, no: &Text, buf: &mut Buf) -> Sample
    ensures value { value_in result buf.new.bytes ≡ of_truth (λ b. bounded buf.old.cap (Bytes (if b then yes.now else no.now))) truth }
    ensures cap { buf.new.cap ≡ buf.old.cap }
{
    let Some(truth) = truth else {
        return Sample::Absent;
    };
    let text = if truth { yes } else { no };
    buf.clear();
    if buf.push(text.as_slice()) {
        Sample::InBuf
    } else {
        Sample::Absent
    }
}

//! Converters of bytes, in the buffer that holds them.
ghost use Rattle.std.specs.Prelude.{◌≡◌, ℕ, pos, List, length, take, drop, option_and_then, Some, None, if◌then◌else◌};
ghost use Rattle.std.specs.Str.{str_to_ascii_lowercase, str_to_ascii_uppercase};
ghost use Rattle.px_sample.specs.Sample.{Value, Number, Bytes, value_in};
ghost use Rattle.px_conv.specs.Conv.{of_bytes, count};

use px_sample::{Buf, Sample, into_text};

/// Makes bytes of the sample in the buffer; false where there is none, or where they are too many.
pub fn hold(sample: Sample, buf: &mut Buf) -> bool
    ensures value { (f : List ℕ → Value) → option_and_then (of_bytes buf.old.cap f) (value_in sample buf.old.bytes) ≡ (if result then Some (f buf.new.bytes) else None) }
    ensures cap { buf.new.cap ≡ buf.old.cap }
{
    into_text(sample, buf) == Sample::InBuf
}

pub fn lower(sample: Sample, buf: &mut Buf) -> Sample
    ensures value { value_in result buf.new.bytes ≡ option_and_then (of_bytes buf.old.cap (λ bytes. Bytes (str_to_ascii_lowercase bytes))) (value_in sample buf.old.bytes) }
    ensures cap { buf.new.cap ≡ buf.old.cap }
{
    if !hold(sample, buf) {
        return Sample::Absent;
    }
    buf.make_lower();
    Sample::InBuf
}

pub fn upper(sample: Sample, buf: &mut Buf) -> Sample
    ensures value { value_in result buf.new.bytes ≡ option_and_then (of_bytes buf.old.cap (λ bytes. Bytes (str_to_ascii_uppercase bytes))) (value_in sample buf.old.bytes) }
    ensures cap { buf.new.cap ≡ buf.old.cap }
{
    if !hold(sample, buf) {
        return Sample::Absent;
    }
    buf.make_upper();
    Sample::InBuf
}

pub fn length(sample: Sample, buf: &mut Buf) -> Sample
    ensures value { value_in result buf.new.bytes ≡ option_and_then (of_bytes buf.old.cap (λ bytes. Number (pos (length bytes)))) (value_in sample buf.old.bytes) }
    ensures cap { buf.new.cap ≡ buf.old.cap }
{
    if !hold(sample, buf) {
        return Sample::Absent;
    }
    Sample::Number(buf.bytes().len() as i64)
}

/// A number of an argument as one of bytes.
pub fn count_of(n: i64) -> usize
    ensures { result ≡ count n }
{
    if n < 0 { 0 } else { n as usize }
}

/// The bytes from an offset on.
pub fn cut_front(sample: Sample, from: usize, buf: &mut Buf) -> Sample
    ensures value { value_in result buf.new.bytes ≡ option_and_then (of_bytes buf.old.cap (λ bytes. Bytes (drop from bytes))) (value_in sample buf.old.bytes) }
    ensures cap { buf.new.cap ≡ buf.old.cap }
{
    if !hold(sample, buf) {
        return Sample::Absent;
    }
    let held = buf.bytes().len();
    buf.keep(from, held);
    Sample::InBuf
}

/// The bytes from an offset on, at most so many.
pub fn cut(sample: Sample, from: usize, len: usize, buf: &mut Buf) -> Sample
    ensures value { value_in result buf.new.bytes ≡ option_and_then (of_bytes buf.old.cap (λ bytes. Bytes (take len (drop from bytes)))) (value_in sample buf.old.bytes) }
    ensures cap { buf.new.cap ≡ buf.old.cap }
{
    if !hold(sample, buf) {
        return Sample::Absent;
    }
    buf.keep(from, len);
    Sample::InBuf
}

//! Converters that write bytes as text of another form, or read it: into the second buffer, which then changes places
//! with the first.
ghost use Rattle.std.specs.Prelude.{◌≡◌, ◌≤◌, ◌↔◌, length, option_and_then, IsTrue};
ghost use Rattle.std.specs.Bool.{OnTrue};
ghost use Rattle.px_sample.specs.Sample.{value_in};
ghost use Rattle.px_conv.specs.Conv.{of_bytes_anew};
ghost use Rattle.px_conv.specs.Encode.{base64_text, hex_text, url_decoded};

use crate::bytes::hold;
use base64::encoded_len;
use base64::engine::general_purpose::STANDARD;
use hex::encode_to_slice;
use percent_encoding::percent_decode;
use px_sample::{Buf, Sample};
use std::mem;

/// Writes the base64 text of some bytes over what a buffer holds: false where it doesn't fit.
fn write_base64(bytes: &[u8], into: &mut Buf) -> bool
    ensures fits { IsTrue result ↔ (length (base64_text bytes.now) ≤ into.old.cap) }
    ensures written { OnTrue result (into.new.bytes ≡ base64_text bytes.now) }
    ensures cap { into.new.cap ≡ into.old.cap }
{
    let Some(len) = encoded_len(bytes.len(), true) else {
        return false;
    };
    if !into.resize(len) {
        return false;
    }
    STANDARD.encode_slice(bytes, into.bytes_mut()).is_ok()
}

/// Writes the hexadecimal digits of some bytes over what a buffer holds: false where they don't fit.
fn write_hex(bytes: &[u8], into: &mut Buf) -> bool
    ensures fits { IsTrue result ↔ (length (hex_text bytes.now) ≤ into.old.cap) }
    ensures written { OnTrue result (into.new.bytes ≡ hex_text bytes.now) }
    ensures cap { into.new.cap ≡ into.old.cap }
{
    let Some(len) = bytes.len().checked_mul(2) else {
        return false;
    };
    if !into.resize(len) {
        return false;
    }
    let written = encode_to_slice(bytes, into.bytes_mut()).is_ok();
    into.make_upper();
    written
}

/// Writes what the escapes of some bytes stand for over what a buffer holds: false where it doesn't fit.
#[tactic(auto, unfolding(crate::specs::Encode::url_decoded))]
fn write_decoded(bytes: &[u8], into: &mut Buf) -> bool
    ensures fits { IsTrue result ↔ (length (url_decoded bytes.now) ≤ into.old.cap) }
    ensures written { OnTrue result (into.new.bytes ≡ url_decoded bytes.now) }
    ensures cap { into.new.cap ≡ into.old.cap }
{
    into.clear();
    for byte in percent_decode(bytes) {
        if !into.push_byte(byte) {
            return false;
        }
    }
    true
}

#[tactic(auto, using(crate::proofs::EncodeLemmas::anew))]
pub fn base64(sample: Sample, buf: &mut Buf, spare: &mut Buf) -> Sample
    requires { spare.old.cap ≡ buf.old.cap }
    ensures value { value_in result buf.new.bytes ≡ option_and_then (of_bytes_anew buf.old.cap base64_text) (value_in sample buf.old.bytes) }
    ensures cap { buf.new.cap ≡ buf.old.cap }
    ensures spare_cap { spare.new.cap ≡ buf.old.cap }
{
    if !hold(sample, buf) {
        return Sample::Absent;
    }
    if !write_base64(buf.bytes(), spare) {
        return Sample::Absent;
    }
    mem::swap(buf, spare);
    Sample::InBuf
}

#[tactic(auto, using(crate::proofs::EncodeLemmas::anew))]
pub fn hex(sample: Sample, buf: &mut Buf, spare: &mut Buf) -> Sample
    requires { spare.old.cap ≡ buf.old.cap }
    ensures value { value_in result buf.new.bytes ≡ option_and_then (of_bytes_anew buf.old.cap hex_text) (value_in sample buf.old.bytes) }
    ensures cap { buf.new.cap ≡ buf.old.cap }
    ensures spare_cap { spare.new.cap ≡ buf.old.cap }
{
    if !hold(sample, buf) {
        return Sample::Absent;
    }
    if !write_hex(buf.bytes(), spare) {
        return Sample::Absent;
    }
    mem::swap(buf, spare);
    Sample::InBuf
}

#[tactic(auto, using(crate::proofs::EncodeLemmas::anew))]
pub fn url_dec(sample: Sample, buf: &mut Buf, spare: &mut Buf) -> Sample
    requires { spare.old.cap ≡ buf.old.cap }
    ensures value { value_in result buf.new.bytes ≡ option_and_then (of_bytes_anew buf.old.cap url_decoded) (value_in sample buf.old.bytes) }
    ensures cap { buf.new.cap ≡ buf.old.cap }
    ensures spare_cap { spare.new.cap ≡ buf.old.cap }
{
    if !hold(sample, buf) {
        return Sample::Absent;
    }
    if !write_decoded(buf.bytes(), spare) {
        return Sample::Absent;
    }
    mem::swap(buf, spare);
    Sample::InBuf
}

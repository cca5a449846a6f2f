//! Each converter on a sample, by its own line of the table.
ghost use Rattle.std.specs.Prelude.{◌≡◌, false, IsOk, IfOk};
ghost use Rattle.px_sample.specs.Sample.{value_in};
ghost use Rattle.px_conv.specs.Conv.{converted, has_pattern};

use crate::conv::Conv;
use crate::regsub::Substitution;
use crate::{bytes, encode, fields, number, regsub, truth};
use px_pattern::Searchers;
use px_sample::{Buf, OutOfMemory, Sample, number_in, truth_in};

/// What a converter makes of a sample, whose bytes stand in `buf` and stand there again afterwards. A result of
/// more bytes than the buffer holds is absent, and so is what is made of a sample that is absent or can't be cast.
/// `spare` has the buffer's size; what it holds afterwards is left open. `regsub` alone takes memory, and where none
/// is left, what the buffers hold is left open.
pub fn convert(
    searchers: &mut Searchers,
    conv: &Conv,
    sample: Sample,
    buf: &mut Buf,
    spare: &mut Buf,
) -> Result<Sample, OutOfMemory>
    requires { spare.old.cap ≡ buf.old.cap }
    ensures value { IfOk result (λ made. value_in made buf.new.bytes ≡ converted buf.old.cap conv.now (value_in sample buf.old.bytes)) }
    ensures succeeds { has_pattern conv.now ≡ false → IsOk result }
    ensures cap { buf.new.cap ≡ buf.old.cap }
    ensures spare_cap { spare.new.cap ≡ buf.old.cap }
{
    let made = match conv {
        Conv::Lower => bytes::lower(sample, buf),
        Conv::Upper => bytes::upper(sample, buf),
        Conv::Length => bytes::length(sample, buf),
        Conv::Bytes(from, None) => bytes::cut_front(sample, bytes::count_of(*from), buf),
        Conv::Bytes(from, Some(len)) => bytes::cut(
            sample,
            bytes::count_of(*from),
            bytes::count_of(*len),
            buf,
        ),
        Conv::Field(index, separators, n) => fields::field(sample, *index, separators, *n, buf),
        Conv::Word(index, separators, n) => fields::word(sample, *index, separators, *n, buf),
        Conv::Iif(yes, no) => truth::choose(truth_in(sample, buf), yes, no, buf),
        Conv::Add(n) => number::add(number_in(sample, buf), *n),
        Conv::Sub(n) => number::sub(number_in(sample, buf), *n),
        Conv::Mul(n) => number::mul(number_in(sample, buf), *n),
        Conv::Div(n) => number::div(number_in(sample, buf), *n),
        Conv::Mod(n) => number::rem(number_in(sample, buf), *n),
        Conv::Neg => number::neg(number_in(sample, buf)),
        Conv::Not => truth::negate(truth_in(sample, buf), buf),
        Conv::Bool => truth::sample_of(truth_in(sample, buf), buf),
        Conv::Base64 => encode::base64(sample, buf, spare),
        Conv::Hex => encode::hex(sample, buf, spare),
        Conv::UrlDec => encode::url_dec(sample, buf, spare),
        Conv::Regsub(pat, template, which) => {
            let by = Substitution {
                pat,
                template: template.as_slice(),
                which: *which,
            };
            regsub::substitute(searchers, by, sample, buf, spare)?
        }
    };
    Ok(made)
}

//! Converters with their arguments, one variant for each.
use px_pattern::Pat;
use px_sample::Text;

/// A converter with its arguments (Configuration Manual, section 7.3.1).
pub enum Conv {
    /// `lower`: ASCII letters in lower case.
    Lower,
    /// `upper`: ASCII letters in upper case.
    Upper,
    /// `length`: the number of bytes.
    Length,
    /// `bytes(offset[,length])`: bytes from an offset on, at most so many.
    Bytes(i64, Option<i64>),
    /// `field(index,separators[,count])`: the fields between these bytes from an index on, so many of them, or all that
    /// are left for 0. From 1 on the index counts from the front, from -1 on from the back, and so do the fields that
    /// are taken with it. The count is 1 where none is written.
    Field(i64, Text, i64),
    /// `word(index,separators[,count])`: the same of the fields that aren't empty.
    Word(i64, Text, i64),
    /// `iif(true,false)`: the first text where the sample is true, else the second.
    Iif(Text, Text),
    /// `add(number)`, which stays within 64 bits, as the next three do.
    Add(i64),
    /// `sub(number)`.
    Sub(i64),
    /// `mul(number)`.
    Mul(i64),
    /// `div(number)`: towards 0; by zero the greatest number.
    Div(i64),
    /// `mod(number)`: the remainder of `div`; by zero 0.
    Mod(i64),
    /// `neg`: the number with the other sign.
    Neg,
    /// `not`: the other truth value.
    Not,
    /// `bool`: the truth value.
    Bool,
    /// `base64`: the standard alphabet with padding (RFC 4648, section 4).
    Base64,
    /// `hex`: two hexadecimal digits a byte, in upper case.
    Hex,
    /// `url_dec`: escapes of `%` and two digits decoded; anything else stays.
    UrlDec,
    /// `regsub(pattern,template[,flags])`: the first match replaced by the template, with the flag `g` each match.
    Regsub(Pat, Text, Matches),
}

impl Drop for Conv {
    fn drop(self) {
        match self {
            Conv::Lower => {}
            Conv::Upper => {}
            Conv::Length => {}
            Conv::Bytes(_, _) => {}
            Conv::Field(_, _, _) => {}
            Conv::Word(_, _, _) => {}
            Conv::Iif(_, _) => {}
            Conv::Add(_) => {}
            Conv::Sub(_) => {}
            Conv::Mul(_) => {}
            Conv::Div(_) => {}
            Conv::Mod(_) => {}
            Conv::Neg => {}
            Conv::Not => {}
            Conv::Bool => {}
            Conv::Base64 => {}
            Conv::Hex => {}
            Conv::UrlDec => {}
            Conv::Regsub(_, _, _) => {}
        }
    }
}

/// Which matches of a pattern are replaced.
#[derive(Clone, Copy, Debug, PartialEq, Eq)]
pub enum Matches {
    First,
    All,
}

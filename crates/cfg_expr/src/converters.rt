//! Converters by their names and arguments.
ghost use Rattle.std.specs.Prelude.{◌≡◌, ◌==◌, true, false, drop, MatchOption};
ghost use Rattle.std.specs.List.{list_all, list_any};
ghost use Rattle.cfg_expr.specs.Calls.{args_of};
ghost use Rattle.cfg_expr.specs.Faults.{Gives, ReadsText};
ghost use Rattle.cfg_expr.specs.Convs.{bare_conv, conv_with_one, conv_with_two, conv_with_three, plain_conv, is_flag, flags_of, replacing, replacing_of};
ghost use Rattle.cfg_expr.specs.Exprs.{replaced, conv_of, conv_at, convs_at, goes_on};

use crate::numbers::{count, number};
use crate::patterns::build;
use crate::{Args, TextFault, TextKind, call_in, is_word};
use px_conv::Matches;
use px_expr::{Conv, ConvList, Text};
use px_pattern::Patterns;
use std::alloc::Global;

/// The most converters of an expression.
const MAX_CONVS: u32 = 16;

/// The flags of `regsub`.
#[derive(Clone, Copy)]
struct Flags {
    /// `i`: case is ignored.
    icase: bool,
    /// With `g` each match is replaced.
    which: Matches,
}

#[tactic(auto, unfolding(crate::specs::Convs::bare_conv))]
fn bare_conv(name: &[u8]) -> Option<Conv>
    ensures { result ≡ bare_conv name.now }
{
    if is_word(name, b"lower") {
        Some(Conv::Lower)
    } else if is_word(name, b"upper") {
        Some(Conv::Upper)
    } else if is_word(name, b"length") {
        Some(Conv::Length)
    } else if is_word(name, b"neg") {
        Some(Conv::Neg)
    } else if is_word(name, b"not") {
        Some(Conv::Not)
    } else if is_word(name, b"bool") {
        Some(Conv::Bool)
    } else if is_word(name, b"base64") {
        Some(Conv::Base64)
    } else if is_word(name, b"hex") {
        Some(Conv::Hex)
    } else if is_word(name, b"url_dec") {
        Some(Conv::UrlDec)
    } else {
        None
    }
}

#[tactic(auto, unfolding(crate::specs::Convs::conv_with_one))]
fn conv_with_one(name: &[u8], arg: &[u8]) -> Result<Conv, TextFault>
    ensures { Gives (λ conv. conv) result (conv_with_one name.now arg.now) }
{
    if is_word(name, b"bytes") {
        Ok(Conv::Bytes(count(arg)?, None))
    } else if is_word(name, b"add") {
        Ok(Conv::Add(number(arg)?))
    } else if is_word(name, b"sub") {
        Ok(Conv::Sub(number(arg)?))
    } else if is_word(name, b"mul") {
        Ok(Conv::Mul(number(arg)?))
    } else if is_word(name, b"div") {
        Ok(Conv::Div(number(arg)?))
    } else if is_word(name, b"mod") {
        Ok(Conv::Mod(number(arg)?))
    } else {
        Err(TextFault::Refused(TextKind::Expr))
    }
}

#[tactic(auto, unfolding(crate::specs::Convs::conv_with_two))]
fn conv_with_two(alloc: Global, name: &[u8], first: &[u8], second: &[u8]) -> Result<Conv, TextFault>
    ensures { Gives (λ conv. conv) result (conv_with_two name.now first.now second.now) }
{
    if is_word(name, b"bytes") {
        let offset = count(first)?;
        Ok(Conv::Bytes(offset, Some(count(second)?)))
    } else if is_word(name, b"field") {
        Ok(Conv::Field(number(first)?, Text::copy(alloc, second)?, 1))
    } else if is_word(name, b"word") {
        Ok(Conv::Word(number(first)?, Text::copy(alloc, second)?, 1))
    } else if is_word(name, b"iif") {
        let chosen = Text::copy(alloc, first)?;
        Ok(Conv::Iif(chosen, Text::copy(alloc, second)?))
    } else {
        Err(TextFault::Refused(TextKind::Expr))
    }
}

#[tactic(auto, unfolding(crate::specs::Convs::conv_with_three))]
fn conv_with_three(
    alloc: Global,
    name: &[u8],
    first: &[u8],
    second: &[u8],
    third: &[u8],
) -> Result<Conv, TextFault>
    ensures { Gives (λ conv. conv) result (conv_with_three name.now first.now second.now third.now) }
{
    if is_word(name, b"field") {
        let index = number(first)?;
        let n = count(third)?;
        Ok(Conv::Field(index, Text::copy(alloc, second)?, n))
    } else if is_word(name, b"word") {
        let index = number(first)?;
        let n = count(third)?;
        Ok(Conv::Word(index, Text::copy(alloc, second)?, n))
    } else {
        Err(TextFault::Refused(TextKind::Expr))
    }
}

/// The converter of a name and its arguments, but for `regsub`.
#[tactic(auto, unfolding(crate::specs::Convs::plain_conv))]
fn plain_conv(alloc: Global, name: &[u8], args: Args<'_>) -> Result<Conv, TextFault>
    ensures { Gives (λ conv. conv) result (plain_conv name.now (args_of args.entry)) }
{
    match args {
        Args::Bare => match bare_conv(name) {
            Some(conv) => Ok(conv),
            None => Err(TextFault::Refused(TextKind::Expr)),
        },
        Args::One(arg) => conv_with_one(name, arg),
        Args::Two(first, second) => conv_with_two(alloc, name, first, second),
        Args::Three(first, second, third) => conv_with_three(alloc, name, first, second, third),
    }
}

fn is_flag(b: u8) -> bool
    ensures { result ≡ is_flag b }
{
    b == b'g' || b == b'i'
}

fn are_flags(text: &[u8]) -> bool
    ensures { result ≡ list_all is_flag text.now }
{
    text.iter().all(|b| is_flag(*b))
}

fn has(text: &[u8], byte: u8) -> bool
    ensures { result ≡ list_any (λ b. b == byte) text.now }
{
    text.contains(&byte)
}

/// The letters `g` and `i`.
fn flags_of(text: &[u8]) -> Result<Flags, TextFault>
    ensures { Gives (λ flags. record { icase = flags.icase; which = flags.which }) result (flags_of text.now) }
{
    if !are_flags(text) {
        return Err(TextFault::Refused(TextKind::Expr));
    }
    Ok(Flags {
        icase: has(text, b'i'),
        which: if has(text, b'g') {
            Matches::All
        } else {
            Matches::First
        },
    })
}

/// A pattern, a template and flags as `regsub` has them.
#[derive(Clone, Copy)]
struct Replacing<'t> {
    text: &'t [u8],
    template: &'t [u8],
    flags: Flags,
}

#[tactic(auto, unfolding(crate::specs::Convs::replacing_of))]
fn replacing_of(args: Args<'_>) -> Result<Replacing<'_>, TextFault>
    ensures { Gives (λ parts. replacing parts.text.now parts.template.now (record { icase = parts.flags.icase; which = parts.flags.which })) result (replacing_of (args_of args.entry)) }
{
    match args {
        Args::Two(text, template) => {
            let flags = Flags {
                icase: false,
                which: Matches::First,
            };
            Ok(Replacing {
                text,
                template,
                flags,
            })
        }
        Args::Three(text, template, letters) => {
            let flags = flags_of(letters)?;
            Ok(Replacing {
                text,
                template,
                flags,
            })
        }
        Args::Bare | Args::One(_) => Err(TextFault::Refused(TextKind::Expr)),
    }
}

/// `regsub`, whose pattern is built last.
fn replaced<P: Patterns>(
    alloc: Global,
    parts: &Replacing<'_>,
    pats: &mut P,
) -> Result<Conv, TextFault>
    ensures { ReadsText (λ conv. conv) (replaced (replacing parts.now.text.now parts.now.template.now (record { icase = parts.now.flags.icase; which = parts.now.flags.which }))) (P.refusals pats.old) (P.refusals pats.new) (P.last_refused pats.new) result }
{
    let template = Text::copy(alloc, parts.template)?;
    match build(alloc, parts.text, parts.flags.icase, pats) {
        Ok(pat) => Ok(Conv::Regsub(pat, template, parts.flags.which)),
        Err(fault) => {
            drop(template);
            Err(fault)
        }
    }
}

/// The converter of a name and its arguments.
#[tactic(auto, unfolding(crate::specs::Exprs::conv_of))]
fn conv_of<P: Patterns>(
    alloc: Global,
    name: &[u8],
    args: Args<'_>,
    pats: &mut P,
) -> Result<Conv, TextFault>
    ensures { ReadsText (λ conv. conv) (conv_of name.now (args_of args.entry)) (P.refusals pats.old) (P.refusals pats.new) (P.last_refused pats.new) result }
{
    if is_word(name, b"regsub") {
        let parts = replacing_of(args)?;
        return replaced(alloc, &parts, pats);
    }
    plain_conv(alloc, name, args)
}

/// A converter at the front of a text, and what is behind it.
#[tactic(auto, unfolding(crate::specs::Exprs::conv_at))]
fn conv_at<'t, P: Patterns>(
    alloc: Global,
    text: &'t [u8],
    pats: &mut P,
) -> Result<(Conv, &'t [u8]), TextFault>
    ensures { ReadsText (λ found. (found.0, found.1.now)) (conv_at text.now) (P.refusals pats.old) (P.refusals pats.new) (P.last_refused pats.new) result }
{
    let Some(call) = call_in(text) else {
        return Err(TextFault::Refused(TextKind::Expr));
    };
    match conv_of(alloc, call.name, call.args, pats) {
        Ok(conv) => Ok((conv, call.rest)),
        Err(fault) => Err(fault),
    }
}

/// What is behind a comma at the front, if there is one.
fn behind_comma(text: &[u8]) -> Option<&[u8]>
    ensures { MatchOption result (goes_on 44 text.now ≡ false) (λ rest. (goes_on 44 text.now ≡ true) × (rest.now ≡ drop 1 text.now)) }
{
    match text.split_first() {
        Some((b',', rest)) => Some(rest),
        _ => None,
    }
}

/// Converters, each behind a comma, and what is behind the last. An expression has at most 16.
pub fn read_convs<'t, P: Patterns>(
    alloc: Global,
    text: &'t [u8],
    pats: &mut P,
) -> Result<(ConvList, &'t [u8]), TextFault>
    ensures { ReadsText (λ found. (found.0, found.1.now)) (convs_at text.now) (P.refusals pats.old) (P.refusals pats.new) (P.last_refused pats.new) result }
{
    let mut convs = ConvList::new(alloc);
    let mut rest = text;
    'each: while let Some(behind) = behind_comma(rest) {
        if convs.len() == MAX_CONVS {
            drop(convs);
            return Err(TextFault::Refused(TextKind::Limit));
        }
        match conv_at(alloc, behind, pats) {
            Ok((conv, after)) => {
                convs.push(conv)?;
                rest = after;
            }
            Err(fault) => {
                drop(convs);
                return Err(fault);
            }
        }
    }
    Ok((convs, rest))
}

//! Fetches by their names and arguments.
ghost use Rattle.std.specs.Prelude.{◌≡◌, option_map};
ghost use Rattle.std.specs.List.{list_all};
ghost use Rattle.cfg_expr.specs.Calls.{args_of};
ghost use Rattle.cfg_expr.specs.Faults.{Gives};
ghost use Rattle.cfg_expr.specs.Fetches.{scope_of, is_variable_byte, is_variable_name, variable_of, variable_fetch, bare_fetch, peer_variable, bare_source, field_fetch, field_source, fetch_with, source_with, source_at_occurrence, source_of};

use crate::call::{around, first_of};
use crate::numbers::{field_name, number, occurrence, truth};
use crate::{Args, Source, TextFault, TextKind, is_word};
use px_sample::{Fetch, Scope, Text};
use std::alloc::Global;

/// The fetches of a field, which may have an occurrence.
#[derive(Clone, Copy)]
enum FieldFetch {
    Hdr,
    ReqHdr,
    ResHdr,
    ReqFhdr,
    ResFhdr,
}

#[tactic(auto, unfolding(crate::specs::Fetches::scope_of))]
fn scope_of(text: &[u8]) -> Option<Scope>
    ensures { result ≡ scope_of text.now }
{
    if is_word(text, b"sess") {
        Some(Scope::Sess)
    } else if is_word(text, b"txn") {
        Some(Scope::Txn)
    } else if is_word(text, b"req") {
        Some(Scope::Req)
    } else if is_word(text, b"res") {
        Some(Scope::Res)
    } else {
        None
    }
}

/// A letter, a digit, `_` or `.`.
fn is_variable_byte(b: u8) -> bool
    ensures { result ≡ is_variable_byte b }
{
    b.is_ascii_alphanumeric() || b == b'_' || b == b'.'
}

fn are_variable_bytes(text: &[u8]) -> bool
    ensures { result ≡ list_all is_variable_byte text.now }
{
    text.iter().all(|b| is_variable_byte(*b))
}

fn is_variable_name(text: &[u8]) -> bool
    ensures { result ≡ is_variable_name text.now }
{
    1 <= text.len() && are_variable_bytes(text)
}

/// `SCOPE.NAME`, with the first dot between. None where the scope is unknown or the name is none.
#[tactic(auto, unfolding(crate::specs::Fetches::variable_of))]
pub fn variable_of(text: &[u8]) -> Option<(Scope, &[u8])>
    ensures { option_map (λ found. (found.0, found.1.now)) result ≡ variable_of text.now }
{
    let Some(at) = first_of(b'.', text) else {
        return None;
    };
    let (front, name) = around(at, text);
    let Some(scope) = scope_of(front) else {
        return None;
    };
    if is_variable_name(name) {
        Some((scope, name))
    } else {
        None
    }
}

#[tactic(auto, unfolding(crate::specs::Fetches::bare_fetch))]
fn bare_fetch(name: &[u8]) -> Option<Fetch>
    ensures { result ≡ bare_fetch name.now }
{
    if is_word(name, b"path") {
        Some(Fetch::Path)
    } else if is_word(name, b"query") {
        Some(Fetch::Query)
    } else if is_word(name, b"pathq") {
        Some(Fetch::Pathq)
    } else if is_word(name, b"url") {
        Some(Fetch::Url)
    } else if is_word(name, b"base") {
        Some(Fetch::Base)
    } else if is_word(name, b"method") {
        Some(Fetch::Method)
    } else if is_word(name, b"req.ver") {
        Some(Fetch::ReqVer)
    } else if is_word(name, b"res.ver") {
        Some(Fetch::ResVer)
    } else if is_word(name, b"status") {
        Some(Fetch::Status)
    } else if is_word(name, b"always_true") {
        Some(Fetch::AlwaysTrue)
    } else if is_word(name, b"always_false") {
        Some(Fetch::AlwaysFalse)
    } else {
        None
    }
}

/// The variable of the session that `src` and `src_port` are. No configuration can spell these names.
#[tactic(auto, unfolding(crate::specs::Fetches::peer_variable))]
fn peer_variable(name: &[u8]) -> Option<&'static [u8]>
    ensures { option_map (λ text. text.now) result ≡ peer_variable name.now }
{
    if is_word(name, b"src") {
        Some(b":src")
    } else if is_word(name, b"src_port") {
        Some(b":src_port")
    } else {
        None
    }
}

/// The source of a name without arguments.
fn bare_source(alloc: Global, name: &[u8]) -> Result<Source, TextFault>
    ensures { Gives (λ source. source) result (bare_source (peer_variable name.now) name.now) }
{
    match peer_variable(name) {
        Some(variable) => Ok(Source::Of(Fetch::Var(Scope::Sess, Text::copy(alloc, variable)?))),
        None => match bare_fetch(name) {
            Some(fetch) => Ok(Source::Of(fetch)),
            None => Err(TextFault::Refused(TextKind::Expr)),
        },
    }
}

#[tactic(auto, unfolding(crate::specs::Fetches::field_fetch))]
fn field_fetch(name: &[u8]) -> Option<FieldFetch>
    ensures { result ≡ field_fetch name.now }
{
    if is_word(name, b"hdr") {
        Some(FieldFetch::Hdr)
    } else if is_word(name, b"req.hdr") {
        Some(FieldFetch::ReqHdr)
    } else if is_word(name, b"res.hdr") {
        Some(FieldFetch::ResHdr)
    } else if is_word(name, b"req.fhdr") {
        Some(FieldFetch::ReqFhdr)
    } else if is_word(name, b"res.fhdr") {
        Some(FieldFetch::ResFhdr)
    } else {
        None
    }
}

fn field_source(which: FieldFetch, name: Text, occurrence: Option<i64>) -> Source
    ensures { result ≡ field_source which name occurrence }
{
    match which {
        FieldFetch::Hdr => Source::Hdr(name, occurrence),
        FieldFetch::ReqHdr => Source::Of(Fetch::ReqHdr(name, occurrence)),
        FieldFetch::ResHdr => Source::Of(Fetch::ResHdr(name, occurrence)),
        FieldFetch::ReqFhdr => Source::Of(Fetch::ReqFhdr(name, occurrence)),
        FieldFetch::ResFhdr => Source::Of(Fetch::ResFhdr(name, occurrence)),
    }
}

/// `var`: the variable of a scope and a name.
fn variable_fetch(alloc: Global, arg: &[u8]) -> Result<Fetch, TextFault>
    ensures { Gives (λ fetch. fetch) result (variable_fetch (variable_of arg.now)) }
{
    match variable_of(arg) {
        Some((scope, name)) => Ok(Fetch::Var(scope, Text::copy(alloc, name)?)),
        None => Err(TextFault::Refused(TextKind::Expr)),
    }
}

#[tactic(auto, unfolding(crate::specs::Fetches::fetch_with))]
fn fetch_with(alloc: Global, name: &[u8], arg: &[u8]) -> Result<Fetch, TextFault>
    ensures { Gives (λ fetch. fetch) result (fetch_with name.now arg.now) }
{
    if is_word(name, b"req.hdr_cnt") {
        Ok(Fetch::ReqHdrCnt(field_name(alloc, arg)?))
    } else if is_word(name, b"res.hdr_cnt") {
        Ok(Fetch::ResHdrCnt(field_name(alloc, arg)?))
    } else if is_word(name, b"url_param") {
        Ok(Fetch::UrlParam(Text::copy(alloc, arg)?))
    } else if is_word(name, b"str") {
        Ok(Fetch::Str(Text::copy(alloc, arg)?))
    } else if is_word(name, b"int") {
        Ok(Fetch::Int(number(arg)?))
    } else if is_word(name, b"bool") {
        Ok(Fetch::Bool(truth(arg)?))
    } else if is_word(name, b"var") {
        variable_fetch(alloc, arg)
    } else {
        Err(TextFault::Refused(TextKind::Expr))
    }
}

fn source_with(alloc: Global, name: &[u8], arg: &[u8]) -> Result<Source, TextFault>
    ensures { Gives (λ source. source) result (source_with (field_fetch name.now) name.now arg.now) }
{
    match field_fetch(name) {
        Some(which) => {
            let field = field_name(alloc, arg)?;
            Ok(field_source(which, field, None))
        }
        None => {
            let fetch = fetch_with(alloc, name, arg)?;
            Ok(Source::Of(fetch))
        }
    }
}

fn source_at_occurrence(
    alloc: Global,
    name: &[u8],
    first: &[u8],
    second: &[u8],
) -> Result<Source, TextFault>
    ensures { Gives (λ source. source) result (source_at_occurrence (field_fetch name.now) first.now second.now) }
{
    let Some(which) = field_fetch(name) else {
        return Err(TextFault::Refused(TextKind::Expr));
    };
    let field = field_name(alloc, first)?;
    match occurrence(second) {
        Ok(occurrence) => Ok(field_source(which, field, Some(occurrence))),
        Err(fault) => {
            drop(field);
            Err(fault)
        }
    }
}

/// The fetch of a name and its arguments. Which direction has it is asked by `checked` and `on_side`.
#[tactic(auto, unfolding(crate::specs::Fetches::source_of))]
pub fn read_source(alloc: Global, name: &[u8], args: Args<'_>) -> Result<Source, TextFault>
    ensures { Gives (λ source. source) result (source_of name.now (args_of args.entry)) }
{
    match args {
        Args::Bare => bare_source(alloc, name),
        Args::One(arg) => source_with(alloc, name, arg),
        Args::Two(first, second) => source_at_occurrence(alloc, name, first, second),
        Args::Three(_, _, _) => Err(TextFault::Refused(TextKind::Expr)),
    }
}

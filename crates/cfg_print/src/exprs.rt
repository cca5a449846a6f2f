//! The text of an expression: a fetch, and its converters behind commas.
ghost use Rattle.std.specs.Prelude.{◌≡◌, ◌++◌, ◌∷◌, [], OnOk};
ghost use Rattle.std.specs.List.{flat_map};
ghost use Rattle.cfg_print.specs.Exprs.{argument_text, call_text, truth_text, scope_text, variable_text, variable_call, fetch_call, conv_call, conv_text, expr_text};

use crate::calls::{
    are_bare_bytes, put_call, put_call_at, put_call_on, put_choice_call, put_pattern_call,
    put_piece_call, put_range_call,
};
use crate::words::put;
use cfg_expr::is_word;
use px_conv::Conv;
use px_expr::Expr;
use px_link::OutOfMemory;
use px_sample::{Fetch, Scope};

fn truth_text(truth: bool) -> &'static [u8]
    ensures { result.now ≡ truth_text truth }
{
    if truth { b"true" } else { b"false" }
}

fn scope_text(scope: Scope) -> &'static [u8]
    ensures { result.now ≡ scope_text scope }
{
    match scope {
        Scope::Sess => b"sess",
        Scope::Txn => b"txn",
        Scope::Req => b"req",
        Scope::Res => b"res",
    }
}

/// Puts a variable behind a text: its scope, a dot and its name.
pub(crate) fn put_variable_text(
    out: &mut Vec<u8>,
    scope: Scope,
    name: &[u8],
) -> Result<(), OutOfMemory>
    ensures { OnOk result (out.new.items ≡ out.old.items ++ variable_text scope name.now) }
{
    put(out, scope_text(scope))?;
    put(out, b".")?;
    put(out, name)
}

fn put_quoted_variable(out: &mut Vec<u8>, scope: Scope, name: &[u8]) -> Result<(), OutOfMemory>
    ensures { OnOk result (out.new.items ≡ out.old.items ++ (39 ∷ variable_text scope name.now ++ 39 ∷ [])) }
{
    put(out, b"'")?;
    put_variable_text(out, scope, name)?;
    put(out, b"'")
}

/// Puts a variable that is an argument behind a text. No scope needs quotes.
fn put_variable_argument(out: &mut Vec<u8>, scope: Scope, name: &[u8]) -> Result<(), OutOfMemory>
    ensures { OnOk result (out.new.items ≡ out.old.items ++ argument_text (variable_text scope name.now)) }
{
    if are_bare_bytes(name) {
        return put_variable_text(out, scope, name);
    }
    put_quoted_variable(out, scope, name)
}

/// Puts the fetch of a variable behind a text.
#[tactic(auto, unfolding(crate::specs::Exprs::variable_call))]
fn put_variable(out: &mut Vec<u8>, scope: Scope, name: &[u8]) -> Result<(), OutOfMemory>
    ensures { OnOk result (out.new.items ≡ out.old.items ++ call_text (variable_call scope name.now)) }
{
    if is_word(name, b":src") {
        return put(out, b"src");
    }
    if is_word(name, b":src_port") {
        return put(out, b"src_port");
    }
    put(out, b"var(")?;
    put_variable_argument(out, scope, name)?;
    put(out, b")")
}

/// Puts a fetch behind a text.
#[tactic(auto, unfolding(crate::specs::Exprs::fetch_call))]
fn put_fetch(out: &mut Vec<u8>, fetch: &Fetch) -> Result<(), OutOfMemory>
    ensures { OnOk result (out.new.items ≡ out.old.items ++ call_text (fetch_call fetch.now)) }
{
    match fetch {
        Fetch::ReqHdr(name, at) => put_call_at(out, b"req.hdr", name.as_slice(), *at),
        Fetch::ResHdr(name, at) => put_call_at(out, b"res.hdr", name.as_slice(), *at),
        Fetch::ReqFhdr(name, at) => put_call_at(out, b"req.fhdr", name.as_slice(), *at),
        Fetch::ResFhdr(name, at) => put_call_at(out, b"res.fhdr", name.as_slice(), *at),
        Fetch::ReqHdrCnt(name) => put_call(out, b"req.hdr_cnt", name.as_slice()),
        Fetch::ResHdrCnt(name) => put_call(out, b"res.hdr_cnt", name.as_slice()),
        Fetch::Path => put(out, b"path"),
        Fetch::Query => put(out, b"query"),
        Fetch::Pathq => put(out, b"pathq"),
        Fetch::Url => put(out, b"url"),
        Fetch::Base => put(out, b"base"),
        Fetch::UrlParam(name) => put_call(out, b"url_param", name.as_slice()),
        Fetch::Method => put(out, b"method"),
        Fetch::ReqVer => put(out, b"req.ver"),
        Fetch::ResVer => put(out, b"res.ver"),
        Fetch::Status => put(out, b"status"),
        Fetch::Var(scope, name) => put_variable(out, *scope, name.as_slice()),
        Fetch::Str(text) => put_call(out, b"str", text.as_slice()),
        Fetch::Int(n) => put_call_on(out, b"int", *n),
        Fetch::Bool(truth) => put_call(out, b"bool", truth_text(*truth)),
        Fetch::AlwaysTrue => put(out, b"always_true"),
        Fetch::AlwaysFalse => put(out, b"always_false"),
    }
}

/// Puts a converter behind a text.
#[tactic(auto, unfolding(crate::specs::Exprs::conv_call))]
fn put_conv(out: &mut Vec<u8>, conv: &Conv) -> Result<(), OutOfMemory>
    ensures { OnOk result (out.new.items ≡ out.old.items ++ call_text (conv_call conv.now)) }
{
    match conv {
        Conv::Lower => put(out, b"lower"),
        Conv::Upper => put(out, b"upper"),
        Conv::Length => put(out, b"length"),
        Conv::Bytes(offset, len) => put_range_call(out, b"bytes", *offset, *len),
        Conv::Field(index, separators, count) => put_piece_call(
            out,
            b"field",
            *index,
            separators.as_slice(),
            *count,
        ),
        Conv::Word(index, separators, count) => put_piece_call(
            out,
            b"word",
            *index,
            separators.as_slice(),
            *count,
        ),
        Conv::Iif(yes_text, no_text) => put_choice_call(
            out,
            b"iif",
            yes_text.as_slice(),
            no_text.as_slice(),
        ),
        Conv::Add(n) => put_call_on(out, b"add", *n),
        Conv::Sub(n) => put_call_on(out, b"sub", *n),
        Conv::Mul(n) => put_call_on(out, b"mul", *n),
        Conv::Div(n) => put_call_on(out, b"div", *n),
        Conv::Mod(n) => put_call_on(out, b"mod", *n),
        Conv::Neg => put(out, b"neg"),
        Conv::Not => put(out, b"not"),
        Conv::Bool => put(out, b"bool"),
        Conv::Base64 => put(out, b"base64"),
        Conv::Hex => put(out, b"hex"),
        Conv::UrlDec => put(out, b"url_dec"),
        Conv::Regsub(pat, template, which) => put_pattern_call(
            out,
            b"regsub",
            pat,
            template.as_slice(),
            *which,
        ),
    }
}

/// Puts converters behind a text, each behind a comma.
fn put_convs(out: &mut Vec<u8>, convs: &[Conv]) -> Result<(), OutOfMemory>
    ensures { OnOk result (out.new.items ≡ out.old.items ++ flat_map conv_text convs.now) }
{
    for conv in convs {
        put(out, b",")?;
        put_conv(out, conv)?;
    }
    Ok(())
}

/// Puts an expression behind a text.
#[tactic(auto, unfolding(crate::specs::Exprs::expr_text))]
pub(crate) fn put_expr(out: &mut Vec<u8>, expr: &Expr) -> Result<(), OutOfMemory>
    ensures { OnOk result (out.new.items ≡ out.old.items ++ expr_text expr.now) }
{
    put_fetch(out, &expr.fetch)?;
    put_convs(out, expr.convs.as_slice())
}

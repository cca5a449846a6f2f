//! The words of an action, with each option written that has a default.
ghost use Rattle.std.specs.Prelude.{◌≡◌, ◌++◌, ◌∷◌, [], codes, OnOk};
ghost use Rattle.std.specs.Fmt.{decimal};
ghost use Rattle.cfg_print.specs.Words.{spaced, words_text};
ghost use Rattle.cfg_print.specs.Formats.{format_text};
ghost use Rattle.cfg_print.specs.Exprs.{expr_text};
ghost use Rattle.cfg_print.specs.Actions.{matched, del_words, reason_words, variable_word, switch_text, by_format, by_pattern, action_words};

use crate::exprs::put_variable_text;
use crate::page::Page;
use crate::replies::{put_redirect, put_return, put_with_text};
use crate::words::{put, put_spaced};
use http_rules::{Action, DelBy, Expr, Fmt, Pat, Scope, Text};
use px_link::OutOfMemory;

/// Puts a name or a part of one behind `del-header`, and how it is compared.
fn put_matched(page: &mut Page, text: &[u8], how: &[u8]) -> Result<(), OutOfMemory>
    ensures { OnOk result (page.new.text.items ≡ page.old.text.items ++ words_text (matched text.now how.now)) }
{
    page.put_word(text)?;
    page.put_word(b"-m")?;
    page.put_word(how)
}

/// Puts what stands behind `del-header`.
fn put_del(page: &mut Page, by: &DelBy) -> Result<(), OutOfMemory>
    ensures { OnOk result (page.new.text.items ≡ page.old.text.items ++ words_text (del_words by.now)) }
{
    match by {
        DelBy::Str(name) => page.put_word(name.as_slice()),
        DelBy::Beg(text) => put_matched(page, text.as_slice(), b"beg"),
        DelBy::End(text) => put_matched(page, text.as_slice(), b"end"),
        DelBy::Sub(text) => put_matched(page, text.as_slice(), b"sub"),
        DelBy::Reg(pat) => put_matched(page, pat.text(), b"reg"),
    }
}

/// Puts `del-header` and what stands behind it.
fn put_del_header(page: &mut Page, by: &DelBy) -> Result<(), OutOfMemory>
    ensures { OnOk result (page.new.text.items ≡ page.old.text.items ++ words_text (codes "del-header" ∷ del_words by.now)) }
{
    page.put_word(b"del-header")?;
    put_del(page, by)
}

/// Puts an action whose argument is a format.
fn put_by_format(page: &mut Page, command: &[u8], fmt: &Fmt) -> Result<(), OutOfMemory>
    ensures { OnOk result (page.new.text.items ≡ page.old.text.items ++ words_text (by_format command.now fmt.now)) }
{
    page.put_word(command)?;
    page.put_format(fmt)
}

/// Puts an action whose arguments are a pattern and a format.
fn put_by_pattern(page: &mut Page, command: &[u8], pat: &Pat, fmt: &Fmt) -> Result<(), OutOfMemory>
    ensures { OnOk result (page.new.text.items ≡ page.old.text.items ++ words_text (by_pattern command.now pat.now fmt.now)) }
{
    page.put_word(command)?;
    page.put_word(pat.text())?;
    page.put_format(fmt)
}

/// Puts an action whose arguments are the name of a field and a format.
fn put_field(page: &mut Page, command: &[u8], name: &Text, fmt: &Fmt) -> Result<(), OutOfMemory>
    ensures { OnOk result (page.new.text.items ≡ page.old.text.items ++ words_text (command.now ∷ name.now ∷ format_text fmt.now ∷ [])) }
{
    page.put_word(command)?;
    page.put_word(name.as_slice())?;
    page.put_format(fmt)
}

/// The same with a pattern in front of the format.
fn put_replacing(
    page: &mut Page,
    command: &[u8],
    name: &Text,
    pat: &Pat,
    fmt: &Fmt,
) -> Result<(), OutOfMemory>
    ensures { OnOk result (page.new.text.items ≡ page.old.text.items ++ words_text (command.now ∷ name.now ∷ pat.now.text ∷ format_text fmt.now ∷ [])) }
{
    page.put_word(command)?;
    page.put_word(name.as_slice())?;
    page.put_word(pat.text())?;
    page.put_format(fmt)
}

/// Puts a refusal.
fn put_deny(page: &mut Page, code: u16) -> Result<(), OutOfMemory>
    ensures { OnOk result (page.new.text.items ≡ page.old.text.items ++ words_text (codes "deny" ∷ codes "status" ∷ decimal code ∷ [])) }
{
    page.put_word(b"deny")?;
    page.put_word(b"status")?;
    page.put_number(u64::from(code))
}

/// Puts a reason, where there is one.
fn put_reason(page: &mut Page, reason: &Option<Text>) -> Result<(), OutOfMemory>
    ensures { OnOk result (page.new.text.items ≡ page.old.text.items ++ words_text (reason_words reason.now)) }
{
    match reason {
        None => Ok(()),
        Some(text) => {
            page.put_word(b"reason")?;
            page.put_word(text.as_slice())
        }
    }
}

/// Puts a status and its reason.
fn put_status(page: &mut Page, code: u16, reason: &Option<Text>) -> Result<(), OutOfMemory>
    ensures { OnOk result (page.new.text.items ≡ page.old.text.items ++ words_text (codes "set-status" ∷ decimal code ∷ reason_words reason.now)) }
{
    page.put_word(b"set-status")?;
    page.put_number(u64::from(code))?;
    put_reason(page, reason)
}

/// Puts an action whose own word has a variable in brackets.
fn put_variable(
    page: &mut Page,
    command: &[u8],
    scope: Scope,
    name: &Text,
) -> Result<(), OutOfMemory>
    ensures { OnOk result (page.new.text.items ≡ page.old.text.items ++ spaced (variable_word command.now scope name.now)) }
{
    page.word.clear();
    put(&mut page.word, command)?;
    put(&mut page.word, b"(")?;
    put_variable_text(&mut page.word, scope, name.as_slice())?;
    put(&mut page.word, b")")?;
    put_spaced(&mut page.text, &page.word)
}

/// Puts a variable that is set, and to what.
fn put_set_var(page: &mut Page, scope: Scope, name: &Text, expr: &Expr) -> Result<(), OutOfMemory>
    ensures { OnOk result (page.new.text.items ≡ page.old.text.items ++ words_text (variable_word (codes "set-var") scope name.now ∷ expr_text expr.now ∷ [])) }
{
    put_variable(page, b"set-var", scope, name)?;
    page.put_expr(expr)
}

fn switch_text(on: bool) -> &'static [u8]
    ensures { result.now ≡ switch_text on }
{
    if on { b"on" } else { b"off" }
}

/// Puts the mode of failures.
fn put_mode(page: &mut Page, on: bool) -> Result<(), OutOfMemory>
    ensures { OnOk result (page.new.text.items ≡ page.old.text.items ++ words_text (codes "strict-mode" ∷ switch_text on ∷ [])) }
{
    put_with_text(page, b"strict-mode", switch_text(on))
}

/// Puts the words of an action behind those of its line.
#[tactic(auto, unfolding(crate::specs::Actions::action_words))]
pub(crate) fn put_action(page: &mut Page, action: &Action) -> Result<(), OutOfMemory>
    ensures { OnOk result (page.new.text.items ≡ page.old.text.items ++ words_text (action_words action.now)) }
{
    match action {
        Action::Allow => page.put_word(b"allow"),
        Action::Deny(code) => put_deny(page, *code),
        Action::AddHeader(name, fmt) => put_field(page, b"add-header", name, fmt),
        Action::SetHeader(name, fmt) => put_field(page, b"set-header", name, fmt),
        Action::DelHeader(by) => put_del_header(page, by),
        Action::ReplaceHeader(name, pat, fmt) => {
            put_replacing(page, b"replace-header", name, pat, fmt)
        }
        Action::ReplaceValue(name, pat, fmt) => {
            put_replacing(page, b"replace-value", name, pat, fmt)
        }
        Action::SetMethod(fmt) => put_by_format(page, b"set-method", fmt),
        Action::SetPath(fmt) => put_by_format(page, b"set-path", fmt),
        Action::SetPathq(fmt) => put_by_format(page, b"set-pathq", fmt),
        Action::SetUri(fmt) => put_by_format(page, b"set-uri", fmt),
        Action::SetQuery(fmt) => put_by_format(page, b"set-query", fmt),
        Action::ReplacePath(pat, fmt) => put_by_pattern(page, b"replace-path", pat, fmt),
        Action::ReplacePathq(pat, fmt) => put_by_pattern(page, b"replace-pathq", pat, fmt),
        Action::ReplaceUri(pat, fmt) => put_by_pattern(page, b"replace-uri", pat, fmt),
        Action::SetStatus(code, reason) => put_status(page, *code, reason),
        Action::Redirect {
            to,
            code,
            drop_query,
            append_slash,
        } => put_redirect(page, to, *code, *drop_query, *append_slash),
        Action::Return {
            status,
            content_type,
            payload,
            hdrs,
        } => put_return(page, *status, content_type, payload, hdrs.as_slice()),
        Action::SetVar(scope, name, expr) => put_set_var(page, *scope, name, expr),
        Action::UnsetVar(scope, name) => put_variable(page, b"unset-var", *scope, name),
        Action::StrictMode(on) => put_mode(page, *on),
    }
}

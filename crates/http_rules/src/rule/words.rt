//! The words of the actions, as a line of rules has them.
ghost use Rattle.std.specs.Prelude.{◌≡◌, codes};
ghost use Rattle.std.specs.Str.{bytes_eq};
ghost use Rattle.http_rules.specs.Rule.Actions as spec;

use crate::rule::action::ActionName;

/// Whether a text is a word.
fn is_word(text: &[u8], word: &[u8]) -> bool
    ensures { result ≡ bytes_eq text.now word.now }
{
    text == word
}

/// Actions on fields and on the mode, and the end of the rules.
#[tactic(auto, unfolding(crate::specs::Rule::Actions::field_action))]
fn field_action(word: &[u8]) -> Option<ActionName>
    ensures { result ≡ spec.field_action word.now }
{
    if is_word(word, b"allow") {
        Some(ActionName::Allow)
    } else if is_word(word, b"add-header") {
        Some(ActionName::AddHeader)
    } else if is_word(word, b"set-header") {
        Some(ActionName::SetHeader)
    } else if is_word(word, b"del-header") {
        Some(ActionName::DelHeader)
    } else if is_word(word, b"replace-header") {
        Some(ActionName::ReplaceHeader)
    } else if is_word(word, b"replace-value") {
        Some(ActionName::ReplaceValue)
    } else if is_word(word, b"strict-mode") {
        Some(ActionName::StrictMode)
    } else {
        None
    }
}

/// Actions on a request line.
#[tactic(auto, unfolding(crate::specs::Rule::Actions::line_action))]
fn line_action(word: &[u8]) -> Option<ActionName>
    ensures { result ≡ spec.line_action word.now }
{
    if is_word(word, b"set-method") {
        Some(ActionName::SetMethod)
    } else if is_word(word, b"set-path") {
        Some(ActionName::SetPath)
    } else if is_word(word, b"set-pathq") {
        Some(ActionName::SetPathq)
    } else if is_word(word, b"set-uri") {
        Some(ActionName::SetUri)
    } else if is_word(word, b"set-query") {
        Some(ActionName::SetQuery)
    } else if is_word(word, b"replace-path") {
        Some(ActionName::ReplacePath)
    } else if is_word(word, b"replace-pathq") {
        Some(ActionName::ReplacePathq)
    } else if is_word(word, b"replace-uri") {
        Some(ActionName::ReplaceUri)
    } else {
        None
    }
}

/// The word is `set-var`, or has a bracket behind that.
fn is_set_var(word: &[u8]) -> bool
    ensures { result ≡ spec.is_call_of (codes "set-var") word.now }
{
    is_word(word, b"set-var") || word.starts_with(b"set-var(")
}

/// The same of `unset-var`.
fn is_unset_var(word: &[u8]) -> bool
    ensures { result ≡ spec.is_call_of (codes "unset-var") word.now }
{
    is_word(word, b"unset-var") || word.starts_with(b"unset-var(")
}

/// Answers, a status, and variables.
#[tactic(auto, unfolding(crate::specs::Rule::Actions::other_action))]
fn other_action(word: &[u8]) -> Option<ActionName>
    ensures { result ≡ spec.other_action word.now }
{
    if is_word(word, b"deny") {
        Some(ActionName::Deny)
    } else if is_word(word, b"redirect") {
        Some(ActionName::Redirect)
    } else if is_word(word, b"return") {
        Some(ActionName::Return)
    } else if is_word(word, b"set-status") {
        Some(ActionName::SetStatus)
    } else if is_set_var(word) {
        Some(ActionName::SetVar)
    } else if is_unset_var(word) {
        Some(ActionName::UnsetVar)
    } else {
        None
    }
}

/// The action of a word; that of `set-var` and `unset-var` also with a bracket behind it.
pub fn action_named(word: &[u8]) -> Option<ActionName>
    ensures { result ≡ spec.action_named word.now }
{
    if let Some(name) = field_action(word) {
        return Some(name);
    }
    if let Some(name) = line_action(word) {
        return Some(name);
    }
    other_action(word)
}

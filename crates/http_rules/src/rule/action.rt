//! What rules do: the actions with their names, the lists of rules in which each may stand, and their arguments.
ghost use Rattle.std.specs.Prelude.{◌≡◌, IfSome};
ghost use Rattle.http_rules.specs.Rule.Actions as spec;
ghost use Rattle.http_rules.specs.Rule.Valid.{IsGoodAction};

use crate::rule::reply::{HdrList, Payload, RedirectTo};
use log_format::Fmt;
use px_expr::{Expr, Pat, Scope, Text};

/// What a rule does (Configuration Manual, sections 4.2 and 6). Names of fields are in lower case. A name that a rule
/// makes is a token of 1 to 255 bytes that frames no message.
pub enum Action {
    /// `allow`: no later rule runs.
    Allow,
    /// `deny`: a refusal with this code, 400 to 599.
    Deny(u16),
    /// `add-header`: one more field behind the others.
    AddHeader(Text, Fmt),
    /// `set-header`: all fields of the name go, and one stands behind the others.
    SetHeader(Text, Fmt),
    /// `del-header`: fields go, but those that frame a message or speak of its connection.
    DelHeader(DelBy),
    /// `replace-header`: a whole field value in which the pattern matches becomes the text, with the groups put in.
    ReplaceHeader(Text, Pat, Fmt),
    /// `replace-value`: the same for each value of a field that holds a list.
    ReplaceValue(Text, Pat, Fmt),
    /// `set-method`.
    SetMethod(Fmt),
    /// `set-path`: the path of the target.
    SetPath(Fmt),
    /// `set-pathq`: path and query, so what stands behind the authority.
    SetPathq(Fmt),
    /// `set-uri`: the whole target.
    SetUri(Fmt),
    /// `set-query`: what follows the first `?`.
    SetQuery(Fmt),
    /// `replace-path`: a path in which the pattern matches becomes the text, with the groups put in.
    ReplacePath(Pat, Fmt),
    /// `replace-pathq`: the same of path and query.
    ReplacePathq(Pat, Fmt),
    /// `replace-uri`: the same of the whole target.
    ReplaceUri(Pat, Fmt),
    /// `set-status`: a status, 200 to 999 without 204 and 304, and a reason; without one that of the table.
    SetStatus(u16, Option<Text>),
    /// `redirect`: a reply with a location, under one of the codes 301, 302, 303, 307 and 308.
    Redirect {
        to: RedirectTo,
        code: u16,
        /// The query is left out; for a prefix and a scheme alone.
        drop_query: bool,
        /// With `drop_query` the location ends with `/`; for a prefix alone.
        append_slash: bool,
    },
    /// `return`: a reply under a code of 200 to 599.
    Return {
        status: u16,
        /// It is there where a payload is.
        content_type: Option<Text>,
        /// None for 204 and 304.
        payload: Option<Payload>,
        hdrs: HdrList,
    },
    /// `set-var`: a variable is set to the sample of the expression. An absent sample, and a set that does not fit its
    /// scope, change nothing.
    SetVar(Scope, Text, Expr),
    /// `unset-var`.
    UnsetVar(Scope, Text),
    /// `strict-mode`: whether a failure of a later rule decides.
    StrictMode(bool),
}

impl Drop for Action {
    fn drop(self) {
        match self {
            Action::Allow => {}
            Action::Deny(_) => {}
            Action::AddHeader(_, _) => {}
            Action::SetHeader(_, _) => {}
            Action::DelHeader(_) => {}
            Action::ReplaceHeader(_, _, _) => {}
            Action::ReplaceValue(_, _, _) => {}
            Action::SetMethod(_) => {}
            Action::SetPath(_) => {}
            Action::SetPathq(_) => {}
            Action::SetUri(_) => {}
            Action::SetQuery(_) => {}
            Action::ReplacePath(_, _) => {}
            Action::ReplacePathq(_, _) => {}
            Action::ReplaceUri(_, _) => {}
            Action::SetStatus(_, _) => {}
            Action::Redirect {
                to: _,
                code: _,
                drop_query: _,
                append_slash: _,
            } => {}
            Action::Return {
                status: _,
                content_type: _,
                payload: _,
                hdrs: _,
            } => {}
            Action::SetVar(_, _, _) => {}
            Action::UnsetVar(_, _) => {}
            Action::StrictMode(_) => {}
        }
    }
}

/// Which names `del-header` means. A name is compared in lower case.
pub enum DelBy {
    /// The name is this one.
    Str(Text),
    /// It begins so.
    Beg(Text),
    /// It ends so.
    End(Text),
    /// It has this somewhere.
    Sub(Text),
    /// The pattern matches somewhere in it.
    Reg(Pat),
}

impl Drop for DelBy {
    fn drop(self) {
        match self {
            DelBy::Str(_) => {}
            DelBy::Beg(_) => {}
            DelBy::End(_) => {}
            DelBy::Sub(_) => {}
            DelBy::Reg(_) => {}
        }
    }
}

impl Action {
    /// The action's name.
    pub fn name(&self) -> ActionName
        ensures { result ≡ spec.name_of self.now }
    {
        match self {
            Action::Allow => ActionName::Allow,
            Action::Deny(_) => ActionName::Deny,
            Action::AddHeader(_, _) => ActionName::AddHeader,
            Action::SetHeader(_, _) => ActionName::SetHeader,
            Action::DelHeader(_) => ActionName::DelHeader,
            Action::ReplaceHeader(_, _, _) => ActionName::ReplaceHeader,
            Action::ReplaceValue(_, _, _) => ActionName::ReplaceValue,
            Action::SetMethod(_) => ActionName::SetMethod,
            Action::SetPath(_) => ActionName::SetPath,
            Action::SetPathq(_) => ActionName::SetPathq,
            Action::SetUri(_) => ActionName::SetUri,
            Action::SetQuery(_) => ActionName::SetQuery,
            Action::ReplacePath(_, _) => ActionName::ReplacePath,
            Action::ReplacePathq(_, _) => ActionName::ReplacePathq,
            Action::ReplaceUri(_, _) => ActionName::ReplaceUri,
            Action::SetStatus(_, _) => ActionName::SetStatus,
            Action::Redirect { .. } => ActionName::Redirect,
            Action::Return { .. } => ActionName::Return,
            Action::SetVar(_, _, _) => ActionName::SetVar,
            Action::UnsetVar(_, _) => ActionName::UnsetVar,
            Action::StrictMode(_) => ActionName::StrictMode,
        }
    }

    /// The action on a request line of this name whose argument is a text.
    pub fn by_text(name: ActionName, fmt: Fmt) -> Option<Action>
        ensures action { result ≡ spec.by_text name fmt }
        ensures named { IfSome result (λ action. spec.name_of action ≡ name) }
        ensures good { IfSome result IsGoodAction }
    {
        match name {
            ActionName::SetMethod => Some(Action::SetMethod(fmt)),
            ActionName::SetPath => Some(Action::SetPath(fmt)),
            ActionName::SetPathq => Some(Action::SetPathq(fmt)),
            ActionName::SetUri => Some(Action::SetUri(fmt)),
            ActionName::SetQuery => Some(Action::SetQuery(fmt)),
            _ => None,
        }
    }

    /// The action on a request line of this name whose arguments are a pattern and a text.
    pub fn by_pattern(name: ActionName, pat: Pat, fmt: Fmt) -> Option<Action>
        ensures action { result ≡ spec.by_pattern name pat fmt }
        ensures named { IfSome result (λ action. spec.name_of action ≡ name) }
        ensures good { IfSome result IsGoodAction }
    {
        match name {
            ActionName::ReplacePath => Some(Action::ReplacePath(pat, fmt)),
            ActionName::ReplacePathq => Some(Action::ReplacePathq(pat, fmt)),
            ActionName::ReplaceUri => Some(Action::ReplaceUri(pat, fmt)),
            _ => None,
        }
    }
}

/// The list that a rule stands in.
#[derive(Clone, Copy, PartialEq, Eq)]
pub enum Direction {
    /// `http-request`.
    Request,
    /// `http-response`.
    Response,
    /// `http-after-response`: on each final response, reply and refusal.
    After,
}

/// The actions by name (Configuration Manual, section 4.2).
#[derive(Clone, Copy)]
pub enum ActionName {
    Allow,
    Deny,
    AddHeader,
    SetHeader,
    DelHeader,
    ReplaceHeader,
    ReplaceValue,
    SetMethod,
    SetPath,
    SetPathq,
    SetUri,
    SetQuery,
    ReplacePath,
    ReplacePathq,
    ReplaceUri,
    SetStatus,
    Redirect,
    Return,
    SetVar,
    UnsetVar,
    StrictMode,
}

/// Whether rules of this direction may have the action: the one table of it.
pub fn stands_in(direction: Direction, name: ActionName) -> bool
    ensures { result ≡ spec.stands_in direction name }
{
    match name {
        ActionName::Allow
        | ActionName::AddHeader
        | ActionName::SetHeader
        | ActionName::DelHeader
        | ActionName::ReplaceHeader
        | ActionName::ReplaceValue
        | ActionName::SetVar
        | ActionName::UnsetVar
        | ActionName::StrictMode => true,
        ActionName::Deny | ActionName::Return => direction != Direction::After,
        ActionName::SetStatus => direction != Direction::Request,
        ActionName::SetMethod
        | ActionName::SetPath
        | ActionName::SetPathq
        | ActionName::SetUri
        | ActionName::SetQuery
        | ActionName::ReplacePath
        | ActionName::ReplacePathq
        | ActionName::ReplaceUri
        | ActionName::Redirect => direction == Direction::Request,
    }
}

/// Whether an action on a request line has a pattern in front of its text.
pub fn takes_pattern(name: ActionName) -> bool
    ensures { result ≡ spec.takes_pattern name }
{
    match name {
        ActionName::ReplacePath | ActionName::ReplacePathq | ActionName::ReplaceUri => true,
        _ => false,
    }
}

//! What the lines come to, once all are read.

ghost use Rattle.std.specs.Prelude.{◌≡◌, ◌+◌, ◌≤◌, ◌++◌, length, map, IfOk, OnOk};
ghost use Rattle.cfg_parse.specs.Reading.{Gives, Leaves};
ghost use Rattle.cfg_parse.specs.Draft.{default_timeouts, no_application, start};
ghost use Rattle.std.specs.List.{list_any};
ghost use Rattle.cfg_parse.specs.Whole.{is_allow, ends_rules, stops_pairs, limits_of, with_last, param_removal, with_pairs, tells_more, application_below, application_of, whole};

use crate::action::param_field;
use crate::draft::{ApplicationLines, Draft, Listen, Section};
use crate::fault::{CfgKind, LineRefusal};
use crate::limits::{DEFAULT_BUFSIZE, DEFAULT_MAXREWRITE, MAX_RULES, MIN_HEAD};
use crate::waiting::WaitingRules;
use cfg_expr::condition::AclList;
use http_rules::{Action, Config, DelBy, Filters, Limits, Rule, Rules, Timeouts};
use px_link::{Application, Bytes, ItemList, OutOfMemory};
use std::alloc::Global;

/// The times where no line gives them.
pub fn default_timeouts() -> Timeouts
    ensures { result ≡ default_timeouts }
{
    Timeouts {
        client: 60_000,
        server: 60_000,
        connect: 5_000,
        http_request: 10_000,
        http_keep_alive: 10_000,
    }
}

/// No line says how an application is asked.
fn no_application(alloc: Global) -> ApplicationLines
    ensures { result ≡ no_application }
{
    ApplicationLines {
        is_asked: false,
        root: None,
        index: None,
        script: None,
        params: ItemList::new(alloc),
    }
}

/// Before the first line.
pub fn start(alloc: Global) -> Draft
    ensures { result ≡ start }
{
    Draft {
        section: Section::Before,
        listen: Listen::Missing,
        bufsize: None,
        maxrewrite: None,
        timeouts: default_timeouts(),
        bind: None,
        accept_proxy: false,
        server: None,
        send_proxy: None,
        application: no_application(alloc),
        acls: AclList::new(alloc),
        tests: 0,
        request: Rules::new(alloc),
        response: Rules::new(alloc),
        after: Rules::new(alloc),
        param_rules: WaitingRules::new(alloc),
        req_filters: Filters::new(alloc),
        res_filters: Filters::new(alloc),
        forwarding: None,
    }
}

/// The sizes, with what they are where no line gives them.
fn limits_of(draft: &Draft) -> Limits
    ensures { result ≡ limits_of draft.now }
{
    let bufsize = draft.bufsize.unwrap_or(DEFAULT_BUFSIZE);
    let maxrewrite = draft
        .maxrewrite
        .unwrap_or((bufsize / 2).min(DEFAULT_MAXREWRITE));
    Limits {
        bufsize,
        maxrewrite,
    }
}

/// Rules with one more behind them, where there is one.
fn add_last(rules: &mut Rules, last: Option<Rule>) -> Result<(), LineRefusal>
    ensures { Leaves result rules.new (with_last rules.old last) }
{
    let Some(rule) = last else {
        return Ok(());
    };
    if rules.len() >= MAX_RULES {
        drop(rule);
        return Err(LineRefusal::Refused(CfgKind::Limit));
    }
    rules.push(rule)?;
    Ok(())
}

/// Whether an action ends the rules on a request, and lets it pass.
#[tactic(auto, unfolding(crate::specs::Whole::is_allow))]
fn is_allow(action: &Action) -> bool
    ensures { result ≡ is_allow action.now }
{
    matches!(action, Action::Allow)
}

/// Whether one of these rules does.
fn some_ends(rules: &Rules) -> bool
    ensures { result ≡ list_any ends_rules rules.now }
{
    for at in 0..rules.len() {
        if is_allow(&rules.get(at).action) {
            return true;
        }
    }
    false
}

/// Whether a rule would keep those of pairs from running, of which there are some.
fn stops_pairs(draft: &Draft) -> bool
    ensures { result ≡ stops_pairs draft.now }
{
    !draft.application.params.is_empty() && some_ends(&draft.request)
}

/// The rule that takes away what a client sends as the field of a pair.
fn param_removal(alloc: Global, name: &[u8]) -> Result<Rule, OutOfMemory>
    ensures { IfOk result (λ rule. rule ≡ param_removal name.now) }
{
    Ok(Rule {
        action: Action::DelHeader(DelBy::Str(param_field(alloc, name)?)),
        cond: None,
    })
}

/// Puts such a rule for each name behind others.
fn add_removals(alloc: Global, rules: &mut Rules, names: &[Bytes]) -> Result<(), OutOfMemory>
    requires { length rules.old + length names.now ≤ 4294967295 }
    ensures { OnOk result (rules.new ≡ rules.old ++ map param_removal names.now) }
{
    for name in names {
        rules.push(param_removal(alloc, name.as_slice())?)?;
    }
    Ok(())
}

/// Rules with those of pairs behind them.
fn add_pairs(
    alloc: Global,
    rules: &mut Rules,
    names: &ItemList<Bytes>,
    sets: WaitingRules,
) -> Result<(), LineRefusal>
    ensures { Leaves result rules.new (with_pairs rules.old names.now sets) }
{
    let count = u64::from(rules.len()) + u64::from(names.len()) + sets.len() as u64;
    if count > u64::from(MAX_RULES) {
        drop(sets);
        return Err(LineRefusal::Refused(CfgKind::Limit));
    }
    add_removals(alloc, rules, names.as_slice())?;
    sets.put_behind(rules)?;
    Ok(())
}

/// A line says which file of an application is asked, or a pair.
fn tells_more(lines: &ApplicationLines) -> bool
    ensures { result ≡ tells_more lines.now }
{
    lines.index.is_some() || lines.script.is_some() || !lines.params.is_empty()
}

/// An application, which has a root.
fn application_below(lines: ApplicationLines) -> Result<Option<Application>, LineRefusal>
    ensures { Gives (λ application. application) result (application_below lines lines.root) }
{
    let ApplicationLines {
        is_asked: _,
        root,
        index,
        script,
        params,
    } = lines;
    let Some(root) = root else {
        return Err(LineRefusal::Refused(CfgKind::Missing));
    };
    Ok(Some(Application {
        root,
        index,
        script,
        params,
    }))
}

/// How the server is asked, where it is an application.
#[tactic(auto, unfolding(crate::specs::Whole::application_of))]
fn application_of(lines: ApplicationLines) -> Result<Option<Application>, LineRefusal>
    ensures { Gives (λ application. application) result (application_of lines) }
{
    if lines.is_asked {
        return application_below(lines);
    }
    let lacks = tells_more(&lines);
    drop(lines);
    if lacks {
        return Err(LineRefusal::Refused(CfgKind::Missing));
    }
    Ok(None)
}

/// The configuration of all lines.
#[tactic(auto, unfolding(crate::specs::Whole::whole))]
pub fn whole(alloc: Global, draft: Draft) -> Result<Config, LineRefusal>
    ensures { Gives (λ config. config) result (whole draft) }
{
    let limits = limits_of(&draft);
    if limits.maxrewrite > limits.bufsize.saturating_sub(MIN_HEAD) {
        drop(draft);
        return Err(LineRefusal::Refused(CfgKind::Limit));
    }
    if stops_pairs(&draft) {
        drop(draft);
        return Err(LineRefusal::Refused(CfgKind::Argument));
    }
    let Draft {
        listen,
        timeouts,
        bind,
        accept_proxy,
        server,
        send_proxy,
        application,
        mut request,
        response,
        after,
        req_filters,
        res_filters,
        param_rules,
        forwarding,
        ..
    } = draft;
    add_last(&mut request, forwarding)?;
    add_pairs(alloc, &mut request, &application.params, param_rules)?;
    let application = application_of(application)?;
    match (bind, server) {
        (Some(bind), Some(server)) if listen == Listen::Begun => Ok(Config {
            limits,
            timeouts,
            bind,
            accept_proxy,
            server,
            send_proxy,
            application,
            request,
            response,
            after,
            req_filters,
            res_filters,
            peer: None,
        }),
        _ => Err(LineRefusal::Refused(CfgKind::Missing)),
    }
}

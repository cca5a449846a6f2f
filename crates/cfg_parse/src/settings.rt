//! The lines of a section, but for rules and filters.

ghost use Rattle.std.specs.Prelude.{◌≡◌, OnErr};
ghost use Rattle.cfg_parse.specs.Reading.{Gives, Leaves};
ghost use Rattle.cfg_parse.specs.Settings.{bufsize_line, maxrewrite_line, mode_line, with_time, has_effect, timeout_line, bind_options, bind_line, protocol, server_options, server_line};

use crate::address::{address_of, server_address_of};
use crate::arguments::Arguments;
use crate::draft::{Draft, Listen, Section};
use crate::fault::{CfgKind, LineRefusal};
use crate::keywords::{TimeoutName, header_version, timeout_of};
use crate::sizes::{number_up_to, size_of};
use crate::times::time_of;
use cfg_expr::is_word;
use http_model::{MAX_BUFSIZE, MIN_BUFSIZE};
use http_rules::Timeouts;
use std::alloc::Global;

#[tactic(auto, unfolding(crate::specs::Settings::bufsize_line))]
pub fn set_bufsize(draft: &mut Draft, arguments: Arguments<'_>) -> Result<(), LineRefusal>
    ensures leaves { Leaves result draft.new (bufsize_line draft.old arguments.entry) }
    ensures unchanged { OnErr result (draft.new ≡ draft.old) }
{
    let (word, arguments) = arguments.argument()?;
    let size = size_of(word, MIN_BUFSIZE, MAX_BUFSIZE)?;
    arguments.no_more()?;
    draft.bufsize = Some(size);
    Ok(())
}

#[tactic(auto, unfolding(crate::specs::Settings::maxrewrite_line))]
pub fn set_maxrewrite(draft: &mut Draft, arguments: Arguments<'_>) -> Result<(), LineRefusal>
    ensures leaves { Leaves result draft.new (maxrewrite_line draft.old arguments.entry) }
    ensures unchanged { OnErr result (draft.new ≡ draft.old) }
{
    let (word, arguments) = arguments.argument()?;
    let size = number_up_to(word, u64::from(MAX_BUFSIZE))?;
    arguments.no_more()?;
    draft.maxrewrite = Some(size as u32);
    Ok(())
}

#[tactic(auto, unfolding(crate::specs::Settings::mode_line))]
pub fn read_mode(draft: &mut Draft, arguments: Arguments<'_>) -> Result<(), LineRefusal>
    ensures leaves { Leaves result draft.new (mode_line draft.old arguments.entry) }
    ensures unchanged { OnErr result (draft.new ≡ draft.old) }
{
    let (word, arguments) = arguments.argument()?;
    if !is_word(word, b"http") {
        return Err(LineRefusal::Refused(CfgKind::Argument));
    }
    arguments.no_more()?;
    Ok(())
}

/// Puts a time in its place.
fn put_time(times: &mut Timeouts, name: TimeoutName, time: u64)
    ensures { times.new ≡ with_time times.old name time }
{
    match name {
        TimeoutName::Client => times.client = time,
        TimeoutName::Server => times.server = time,
        TimeoutName::Connect => times.connect = time,
        TimeoutName::HttpRequest => times.http_request = time,
        TimeoutName::HttpKeepAlive => times.http_keep_alive = time,
        TimeoutName::Idle => {}
    }
}

/// Whether a `timeout` line here speaks of the `listen` section.
pub fn has_effect(draft: &Draft) -> bool
    ensures { result ≡ has_effect draft.now }
{
    match draft.section {
        Section::Listen => true,
        Section::Before | Section::Global | Section::Defaults => draft.listen == Listen::Missing,
    }
}

#[tactic(auto, unfolding(crate::specs::Settings::timeout_line))]
pub fn set_timeout(draft: &mut Draft, arguments: Arguments<'_>) -> Result<(), LineRefusal>
    ensures leaves { Leaves result draft.new (timeout_line draft.old arguments.entry) }
    ensures unchanged { OnErr result (draft.new ≡ draft.old) }
{
    let (word, arguments) = arguments.argument()?;
    let Some(name) = timeout_of(word) else {
        return Err(LineRefusal::Refused(CfgKind::Argument));
    };
    let (word, arguments) = arguments.argument()?;
    let time = time_of(word)?;
    arguments.no_more()?;
    if has_effect(draft) {
        put_time(&mut draft.timeouts, name, time);
    }
    Ok(())
}

/// Whether `accept-proxy` stands behind the address of a `bind` line, where nothing else may.
#[tactic(auto, unfolding(crate::specs::Settings::bind_options))]
fn bind_options(mut options: Arguments<'_>) -> Result<bool, LineRefusal>
    ensures { Gives (λ accepts. accepts) result (bind_options options.entry) }
{
    let Some(word) = options.next() else {
        return Ok(false);
    };
    if !is_word(word, b"accept-proxy") {
        return Err(LineRefusal::Refused(CfgKind::Argument));
    }
    options.no_more()?;
    Ok(true)
}

#[tactic(auto, unfolding(crate::specs::Settings::bind_line))]
pub fn set_bind(
    alloc: Global,
    draft: &mut Draft,
    arguments: Arguments<'_>,
) -> Result<(), LineRefusal>
    ensures leaves { Leaves result draft.new (bind_line draft.old arguments.entry) }
    ensures unchanged { OnErr result (draft.new ≡ draft.old) }
{
    if draft.bind.is_some() {
        return Err(LineRefusal::Refused(CfgKind::Argument));
    }
    let (word, arguments) = arguments.argument()?;
    let address = address_of(alloc, word)?;
    let accepts = bind_options(arguments)?;
    drop(draft.bind.replace(address));
    draft.accept_proxy = accepts;
    Ok(())
}

/// Behind `proto`: `fcgi` alone.
#[tactic(auto, unfolding(crate::specs::Settings::protocol))]
fn protocol(words: Arguments<'_>) -> Result<(Option<u32>, bool), LineRefusal>
    ensures { Gives (λ manner. (manner.0, manner.1)) result (protocol words.entry) }
{
    let (word, behind) = words.argument()?;
    if !is_word(word, b"fcgi") {
        return Err(LineRefusal::Refused(CfgKind::Argument));
    }
    behind.no_more()?;
    Ok((None, true))
}

/// The version of the header that an option behind the address of a `server` line asks for, and whether the server is an application. One option may stand
/// there, and nothing else.
#[tactic(auto, unfolding(crate::specs::Settings::server_options))]
fn server_options(mut words: Arguments<'_>) -> Result<(Option<u32>, bool), LineRefusal>
    ensures { Gives (λ manner. (manner.0, manner.1)) result (server_options words.entry) }
{
    let Some(option) = words.next() else {
        return Ok((None, false));
    };
    if is_word(option, b"proto") {
        return protocol(words);
    }
    let Some(version) = header_version(option) else {
        return Err(LineRefusal::Refused(CfgKind::Argument));
    };
    words.no_more()?;
    Ok((Some(version), false))
}

#[tactic(auto, unfolding(crate::specs::Settings::server_line))]
pub fn set_server(
    alloc: Global,
    draft: &mut Draft,
    arguments: Arguments<'_>,
) -> Result<(), LineRefusal>
    ensures leaves { Leaves result draft.new (server_line draft.old arguments.entry) }
    ensures unchanged { OnErr result (draft.new ≡ draft.old) }
{
    if draft.server.is_some() {
        return Err(LineRefusal::Refused(CfgKind::Argument));
    }
    let (_name, arguments) = arguments.argument()?;
    let (word, arguments) = arguments.argument()?;
    let address = server_address_of(alloc, word)?;
    let (version, is_application) = server_options(arguments)?;
    drop(draft.server.replace(address));
    draft.send_proxy = version;
    draft.application.is_asked = is_application;
    Ok(())
}

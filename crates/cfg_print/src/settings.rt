//! What is said without rules: sizes, addresses, times, an application, and filters.
ghost use Rattle.std.specs.Prelude.{◌≡◌, ◌++◌, ◌∷◌, [], codes, OnOk};
ghost use Rattle.std.specs.List.{list_any};
ghost use Rattle.std.specs.Fmt.{decimal};
ghost use Rattle.cfg_print.specs.Words.{spaced, words_text, line_text};
ghost use Rattle.cfg_print.specs.Printed as spec;

use crate::numbers::put_decimal;
use crate::page::Page;
use crate::words::{put, put_spaced};
use http_rules::{Address, Config, Limits, Timeouts};
use px_link::{Application, Bytes, OutOfMemory};

/// Puts a line of a name and a number behind a text.
fn put_size(page: &mut Page, name: &[u8], size: u32) -> Result<(), OutOfMemory>
    ensures { OnOk result (page.new.text.items ≡ page.old.text.items ++ line_text (name.now ∷ decimal size ∷ [])) }
{
    page.put(b"   ")?;
    page.put_word(name)?;
    page.put_number(u64::from(size))?;
    page.put(b"\n")
}

/// Puts the section of sizes behind a text.
#[tactic(auto, unfolding(crate::specs::Printed::global_text))]
fn put_global(page: &mut Page, limits: Limits) -> Result<(), OutOfMemory>
    ensures { OnOk result (page.new.text.items ≡ page.old.text.items ++ spec.global_text limits) }
{
    page.put(b"global\n")?;
    put_size(page, b"tune.bufsize", limits.bufsize)?;
    put_size(page, b"tune.maxrewrite", limits.maxrewrite)
}

fn has_colon(host: &[u8]) -> bool
    ensures { result ≡ list_any spec.is_colon host.now }
{
    host.iter().any(|byte| *byte == b':')
}

/// Puts a host behind a text, in brackets where it is an IPv6 address.
fn put_host(out: &mut Vec<u8>, host: &[u8]) -> Result<(), OutOfMemory>
    ensures { OnOk result (out.new.items ≡ out.old.items ++ spec.host_text host.now) }
{
    if !has_colon(host) {
        return put(out, host);
    }
    put(out, b"[")?;
    put(out, host)?;
    put(out, b"]")
}

/// Puts an address behind the words of its line.
#[tactic(auto, unfolding(crate::specs::Printed::address_text))]
fn put_address(page: &mut Page, address: &Address) -> Result<(), OutOfMemory>
    ensures { OnOk result (page.new.text.items ≡ page.old.text.items ++ spaced (spec.address_text address.now)) }
{
    page.word.clear();
    put_host(&mut page.word, address.host.as_slice())?;
    put(&mut page.word, b":")?;
    put_decimal(&mut page.word, u64::from(address.port))?;
    put_spaced(&mut page.text, &page.word)
}

fn put_accept(page: &mut Page, accept_proxy: bool) -> Result<(), OutOfMemory>
    ensures { OnOk result (page.new.text.items ≡ page.old.text.items ++ words_text (spec.accept_words accept_proxy)) }
{
    if accept_proxy {
        return page.put_word(b"accept-proxy");
    }
    Ok(())
}

/// Puts the line of the address that clients connect to behind a text.
fn put_bind(page: &mut Page, config: &Config) -> Result<(), OutOfMemory>
    ensures { OnOk result (page.new.text.items ≡ page.old.text.items ++ spec.bind_line config.now) }
{
    page.put(b"   ")?;
    page.put_word(b"bind")?;
    put_address(page, &config.bind)?;
    put_accept(page, config.accept_proxy)?;
    page.put(b"\n")
}

/// Puts the word of the header that the server is sent.
fn put_header(page: &mut Page, send_proxy: Option<u32>) -> Result<(), OutOfMemory>
    ensures { OnOk result (page.new.text.items ≡ page.old.text.items ++ words_text (spec.header_words send_proxy)) }
{
    match send_proxy {
        None => Ok(()),
        Some(version) => {
            if version == 1 {
                return page.put_word(b"send-proxy");
            }
            page.put_word(b"send-proxy-v2")
        }
    }
}

/// Puts how the server is asked.
fn put_manner(
    page: &mut Page,
    application: &Option<Application>,
    send_proxy: Option<u32>,
) -> Result<(), OutOfMemory>
    ensures { OnOk result (page.new.text.items ≡ page.old.text.items ++ words_text (spec.manner_words application.now send_proxy)) }
{
    match application {
        None => put_header(page, send_proxy),
        Some(_) => {
            page.put_word(b"proto")?;
            page.put_word(b"fcgi")
        }
    }
}

/// Puts the line of the server behind a text.
fn put_server(page: &mut Page, config: &Config) -> Result<(), OutOfMemory>
    ensures { OnOk result (page.new.text.items ≡ page.old.text.items ++ spec.server_line config.now) }
{
    page.put(b"   ")?;
    page.put_word(b"server")?;
    page.put_word(b"app")?;
    put_address(page, &config.server)?;
    put_manner(page, &config.application, config.send_proxy)?;
    page.put(b"\n")
}

/// Puts a time in milliseconds behind the words of its line.
fn put_milliseconds(page: &mut Page, time: u64) -> Result<(), OutOfMemory>
    ensures { OnOk result (page.new.text.items ≡ page.old.text.items ++ spaced (decimal time ++ codes "ms")) }
{
    page.word.clear();
    put_decimal(&mut page.word, time)?;
    put(&mut page.word, b"ms")?;
    put_spaced(&mut page.text, &page.word)
}

/// Puts the line of a time behind a text.
fn put_time(page: &mut Page, name: &[u8], time: u64) -> Result<(), OutOfMemory>
    ensures { OnOk result (page.new.text.items ≡ page.old.text.items ++ spec.time_line name.now time) }
{
    page.put(b"   ")?;
    page.put_word(b"timeout")?;
    page.put_word(name)?;
    put_milliseconds(page, time)?;
    page.put(b"\n")
}

/// Puts the lines of times behind a text.
#[tactic(auto, unfolding(crate::specs::Printed::times_text))]
fn put_times(page: &mut Page, times: Timeouts) -> Result<(), OutOfMemory>
    ensures { OnOk result (page.new.text.items ≡ page.old.text.items ++ spec.times_text times) }
{
    put_time(page, b"client", times.client)?;
    put_time(page, b"server", times.server)?;
    put_time(page, b"connect", times.connect)?;
    put_time(page, b"http-request", times.http_request)?;
    put_time(page, b"http-keep-alive", times.http_keep_alive)
}

/// Puts a line of a name and a path behind a text.
fn put_path(page: &mut Page, name: &[u8], path: &Bytes) -> Result<(), OutOfMemory>
    ensures { OnOk result (page.new.text.items ≡ page.old.text.items ++ line_text (name.now ∷ path.now ∷ [])) }
{
    page.put(b"   ")?;
    page.put_word(name)?;
    page.put_word(path.as_slice())?;
    page.put(b"\n")
}

/// Puts the line of a path behind a text, where there is one.
fn put_some_path(page: &mut Page, name: &[u8], path: &Option<Bytes>) -> Result<(), OutOfMemory>
    ensures { OnOk result (page.new.text.items ≡ page.old.text.items ++ spec.path_line name.now path.now) }
{
    match path {
        None => Ok(()),
        Some(path) => put_path(page, name, path),
    }
}

/// Puts what an application is behind a text.
#[tactic(auto, unfolding(crate::specs::Printed::application_text))]
fn put_application(page: &mut Page, application: &Option<Application>) -> Result<(), OutOfMemory>
    ensures { OnOk result (page.new.text.items ≡ page.old.text.items ++ spec.application_text application.now) }
{
    match application {
        None => Ok(()),
        Some(app) => {
            put_path(page, b"fcgi-docroot", &app.root)?;
            put_some_path(page, b"fcgi-index", &app.index)?;
            put_some_path(page, b"fcgi-script", &app.script)
        }
    }
}

/// Puts the line of the mode behind a text.
fn put_mode(page: &mut Page) -> Result<(), OutOfMemory>
    ensures { OnOk result (page.new.text.items ≡ page.old.text.items ++ line_text (codes "mode" ∷ codes "http" ∷ [])) }
{
    page.put(b"   ")?;
    page.put_word(b"mode")?;
    page.put_word(b"http")?;
    page.put(b"\n")
}

/// Puts the beginning of the section of rules behind a text.
#[tactic(auto, unfolding(crate::specs::Printed::settings_text))]
fn put_listen(page: &mut Page, config: &Config) -> Result<(), OutOfMemory>
    ensures { OnOk result (page.new.text.items ≡ page.old.text.items ++ spec.settings_text config.now) }
{
    page.put(b"\nlisten proxy\n")?;
    put_mode(page)?;
    put_bind(page, config)?;
    put_server(page, config)?;
    put_times(page, config.timeouts)?;
    put_application(page, &config.application)
}

/// Puts all that is said without rules behind a text, but for filters.
pub(crate) fn put_settings(page: &mut Page, config: &Config) -> Result<(), OutOfMemory>
    ensures { OnOk result (page.new.text.items ≡ page.old.text.items ++ (spec.global_text config.now.limits ++ spec.settings_text config.now)) }
{
    put_global(page, config.limits)?;
    put_listen(page, config)
}

//! The addresses of `bind` and `server` lines: `HOST:PORT`, where an IPv6 address stands in brackets, and a port of 1 to 65535. Nothing here looks a
//! host up.
ghost use Rattle.std.specs.Prelude.{◌≡◌, ◌<◌, length, position, IfSome};
ghost use Rattle.cfg_parse.specs.Reading.{Gives};
ghost use Rattle.cfg_parse.specs.Addresses.{is_colon, is_closing_bracket, port_of, with_port, named, with_port_behind, bracketed, address_of, server_address_of};

use crate::fault::{CfgKind, LineRefusal};
use crate::limits::MAX_DIGITS;
use cfg_expr::is_word;
use px_bytes::read_decimal;
use px_link::{Address, Bytes};
use std::alloc::Global;
use uri_parts::is_ipv6;

/// Where the first colon stands.
fn first_colon(word: &[u8]) -> Option<usize>
    ensures value { result ≡ position is_colon word.now }
    ensures within { IfSome result (λ at. at < length word.now) }
{
    word.iter().position(|byte| *byte == b':')
}

/// Where the first closing bracket stands.
fn first_closing_bracket(text: &[u8]) -> Option<usize>
    ensures value { result ≡ position is_closing_bracket text.now }
    ensures within { IfSome result (λ at. at < length text.now) }
{
    text.iter().position(|byte| *byte == b']')
}

/// A port, 1 to 65535.
#[tactic(auto, unfolding(crate::specs::Addresses::port_of))]
fn port_of(digits: &[u8]) -> Result<u16, LineRefusal>
    ensures { Gives (λ port. port) result (port_of digits.now) }
{
    match read_decimal(digits, MAX_DIGITS) {
        Some(port) if port >= 1 && port <= 65535 => Ok(port as u16),
        _ => Err(LineRefusal::Refused(CfgKind::Argument)),
    }
}

/// A host with the port in these digits.
#[tactic(auto, unfolding(crate::specs::Addresses::with_port))]
fn with_port(alloc: Global, host: &[u8], digits: &[u8]) -> Result<Address, LineRefusal>
    ensures { Gives (λ address. address) result (with_port host.now digits.now) }
{
    let port = port_of(digits)?;
    let host = Bytes::copy(alloc, host)?;
    Ok(Address { host, port })
}

/// A host with the port behind a colon.
#[tactic(auto, unfolding(crate::specs::Addresses::with_port_behind))]
fn with_port_behind(alloc: Global, host: &[u8], behind: &[u8]) -> Result<Address, LineRefusal>
    ensures { Gives (λ address. address) result (with_port_behind host.now behind.now) }
{
    match behind {
        [b':', digits @ ..] => with_port(alloc, host, digits),
        _ => Err(LineRefusal::Refused(CfgKind::Argument)),
    }
}

/// `HOST:PORT`, where the host has no colon and may be empty.
#[tactic(auto, unfolding(crate::specs::Addresses::named))]
fn named(alloc: Global, word: &[u8]) -> Result<Address, LineRefusal>
    ensures { Gives (λ address. address) result (named word.now) }
{
    let Some(at) = first_colon(word) else {
        return Err(LineRefusal::Refused(CfgKind::Argument));
    };
    with_port(alloc, &word[..at], &word[at + 1..])
}

/// `ADDRESS]:PORT`, behind an opening bracket.
#[tactic(auto, unfolding(crate::specs::Addresses::bracketed))]
fn bracketed(alloc: Global, text: &[u8]) -> Result<Address, LineRefusal>
    ensures { Gives (λ address. address) result (bracketed text.now) }
{
    let Some(at) = first_closing_bracket(text) else {
        return Err(LineRefusal::Refused(CfgKind::Argument));
    };
    let host = &text[..at];
    if !is_ipv6(host) {
        return Err(LineRefusal::Refused(CfgKind::Argument));
    }
    with_port_behind(alloc, host, &text[at + 1..])
}

/// `HOST:PORT`, or `[ADDRESS]:PORT` of an IPv6 address, whose host has no brackets.
#[tactic(auto, unfolding(crate::specs::Addresses::address_of))]
pub fn address_of(alloc: Global, word: &[u8]) -> Result<Address, LineRefusal>
    ensures { Gives (λ address. address) result (address_of word.now) }
{
    match word {
        [b'[', text @ ..] => bracketed(alloc, text),
        [_, ..] => named(alloc, word),
        [] => Err(LineRefusal::Refused(CfgKind::Argument)),
    }
}

/// The same of a server: the host is neither empty nor `*`.
#[tactic(auto, unfolding(crate::specs::Addresses::server_address_of))]
pub fn server_address_of(alloc: Global, word: &[u8]) -> Result<Address, LineRefusal>
    ensures { Gives (λ address. address) result (server_address_of word.now) }
{
    let address = address_of(alloc, word)?;
    let host = address.host.as_slice();
    if host.is_empty() || is_word(host, b"*") {
        drop(address);
        return Err(LineRefusal::Refused(CfgKind::Argument));
    }
    Ok(address)
}

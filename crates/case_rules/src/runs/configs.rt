//! The configuration of a row: buffers of a size, and lines of `acl` and of rules.
ghost use Rattle.std.specs.Prelude.{IfOk};
ghost use Rattle.http_rules.specs.Valid.{IsValid};

use case_rows::{Fault, decoded};
use cfg_parse::{CfgFault, load};
use http_rules::Config;
use px_pattern::RealPatterns;
use std::alloc::Global;

/// What stands around the lines.
const FRONT: &[u8] = b"global\ntune.bufsize ";

const BEHIND: &[u8] = b"\ntune.maxrewrite 256\nlisten p\nbind 127.0.0.1:8080\n";

/// The server, where the lines don't begin with one.
const SERVER: &[u8] = b"server s 127.0.0.1:8081\n";

/// The configuration of a text.
fn loaded(alloc: Global, text: &[u8]) -> Result<Config, Fault>
    ensures { IfOk result IsValid }
{
    let mut pats = RealPatterns::new();
    match load(alloc, text, &mut pats) {
        Ok(cfg) => Ok(cfg),
        Err(CfgFault::OutOfMemory) => Err(Fault::OutOfMemory),
        Err(CfgFault::Refused { .. }) => Err(Fault::Malformed),
    }
}

/// The configuration with buffers of this size and these lines.
pub fn config_of(alloc: Global, size: &str, lines: &str) -> Result<Config, Fault>
    ensures { IfOk result IsValid }
{
    let mut text = Vec::new(alloc);
    text.extend_from_slice(FRONT)?;
    text.extend_from_slice(size.as_bytes())?;
    text.extend_from_slice(BEHIND)?;
    let lines = decoded(alloc, lines.as_bytes())?;
    if !lines.starts_with(b"server ") {
        text.extend_from_slice(SERVER)?;
    }
    text.extend_from_slice(&lines)?;
    loaded(alloc, &text)
}

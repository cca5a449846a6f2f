//! `redirect` (RFC 9110 section 15.4).
ghost use Rattle.std.specs.Prelude.{◌≡◌, ℕ, List, [], false, IsOk, IfOk};
ghost use Rattle.uri_parts.specs.Target.{target_parts};
ghost use Rattle.http_fetch.specs.Fetches.{host_in};
ghost use Rattle.http_rules.specs.Rule.Actions.{location_holds_pattern};
ghost use Rattle.http_rules.specs.Action.Given.{Env};
ghost use Rattle.http_rules.specs.Action.Replies as spec;
ghost use Rattle.http_rules.specs.Action.Joining.{Joins};
ghost use Rattle.http_rules.specs.Action.Outcome.{IsScratch, IsPlaceOf, Answers};
ghost use Rattle.http_rules.specs.Action.Told.{redirect_of, location_of};
ghost use Rattle.http_rules.specs.Action.Written.{led_target};

use crate::action::fields::{are_value_bytes, step_of};
use crate::action::joining::Joined;
use crate::action::location::{join_prefixed, join_schemed, led_target};
use crate::action::place::Place;
use crate::action::scratch::Scratch;
use crate::action::stepped::Stepped;
use crate::action::texts::write_text;
use crate::rule::RedirectTo;
use http_fetch::host_in;
use http_model::Why;
use htx_arena::Arena;
use log_format::Fmt;
use px_bytes::trim;
use px_sample::{Buf, OutOfMemory};

/// Where a redirect leads, and with what status.
#[derive(Clone, Copy)]
pub(crate) struct Destination<'a> {
    pub(crate) to: &'a RedirectTo,
    pub(crate) code: u16,
    /// The location is without the target's query.
    pub(crate) drop_query: bool,
    /// A `/` stands behind the path in place of the query.
    pub(crate) append_slash: bool,
}

/// The format of a location.
fn format_of(to: &RedirectTo) -> &Fmt
    ensures { result.now ≡ spec.format_of to.now }
{
    match to {
        RedirectTo::Location(fmt) | RedirectTo::Prefix(fmt) | RedirectTo::Scheme(fmt) => fmt,
    }
}

/// Writes the redirect to a location.
fn lead_to(code: u16, location: &[u8], reply: &mut Arena) -> Stepped
    requires { reply.old.blocks ≡ [] }
    ensures came { Answers (spec.led_to reply.old.size code location.now) result reply.new.blocks }
    ensures size { reply.new.size ≡ reply.old.size }
{
    if !are_value_bytes(location) {
        return Stepped::Failed(Why::Bytes);
    }
    step_of(px_reply::redirect(code, trim(location), reply))
}

/// Writes the redirect to a location that was joined: it fails for a byte of it before it fails for room.
fn lead_by(joined: Joined, code: u16, location: &[u8], reply: &mut Arena) -> Stepped
    requires { reply.old.blocks ≡ [] }
    ensures came { (wanted : List ℕ) → Joins reply.old.size wanted joined location.now → Answers (spec.led_to reply.old.size code wanted) result reply.new.blocks }
    ensures size { reply.new.size ≡ reply.old.size }
{
    match joined {
        Joined::Held => lead_to(code, location, reply),
        Joined::Over => Stepped::Failed(Why::Room),
        Joined::Bad => Stepped::Failed(Why::Bytes),
    }
}

/// Writes the redirect by the text of its format. `made` takes the location.
fn lead(
    destination: Destination<'_>,
    msg: &Arena,
    text: &[u8],
    made: &mut Buf,
    reply: &mut Arena,
) -> Stepped
    requires empty { reply.old.blocks ≡ [] }
    requires made { made.old.cap ≡ reply.old.size }
    ensures came { Answers (spec.led_to reply.old.size destination.entry.code (location_of destination.entry text.now (host_in msg.now.blocks) (target_parts (led_target msg.now.blocks)))) result reply.new.blocks }
    ensures size { reply.new.size ≡ reply.old.size }
    ensures made { made.new.cap ≡ made.old.cap }
{
    let Destination {
        to,
        code,
        drop_query,
        append_slash,
    } = destination;
    match to {
        RedirectTo::Location(_) => lead_to(code, text, reply),
        RedirectTo::Prefix(_) => {
            let joined = join_prefixed(drop_query, append_slash, text, led_target(msg), made);
            lead_by(joined, code, made.bytes(), reply)
        }
        RedirectTo::Scheme(_) => {
            let joined = join_schemed(drop_query, text, host_in(msg), led_target(msg), made);
            lead_by(joined, code, made.bytes(), reply)
        }
    }
}

/// `redirect`. The reply is without a field that speaks of the connection, and one with `connection: close` would fit.
pub(crate) fn redirect(
    destination: Destination<'_>,
    place: Place<'_>,
    scratch: &mut Scratch,
    reply: &mut Arena,
) -> Result<Stepped, OutOfMemory>
    requires scratch { IsScratch place.msg.now.size scratch.old }
    requires sizes { reply.old.size ≡ place.msg.now.size }
    requires empty { reply.old.blocks ≡ [] }
    ensures came { IfOk result (λ step. (env : Env) → IsPlaceOf env place.entry
        → Answers (redirect_of place.entry.msg.now.size destination.entry env) step reply.new.blocks) }
    ensures succeeds { location_holds_pattern destination.entry.to.now ≡ false → IsOk result }
    ensures size { reply.new.size ≡ reply.old.size }
    ensures scratch { IsScratch place.entry.msg.now.size scratch.new }
{
    let fmt = format_of(destination.to);
    if !write_text(fmt, place, scratch)? {
        return Ok(Stepped::Failed(Why::Bytes));
    }
    let Scratch { text, made, .. } = scratch;
    Ok(lead(destination, place.msg, text.bytes(), made, reply))
}

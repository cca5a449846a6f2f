//! The location of a redirect: a prefix or a scheme and a host, in front of path and query of a target.
ghost use Rattle.std.specs.Prelude.{◌≡◌};
ghost use Rattle.uri_parts.specs.Target.{target_parts};
ghost use Rattle.http_rules.specs.Action.Replies as spec;
ghost use Rattle.http_rules.specs.Action.Joining.{Joins};
ghost use Rattle.http_rules.specs.Action.Written.{led_target};

use crate::action::joining::{Joined, join_three, put_piece};
use crate::action::target::cut_query;
use crate::action::word::is_word;
use htx_arena::Arena;
use htx_view::request_parts;
use px_sample::Buf;
use uri_parts::cut_target;

/// The target of a request, and nothing of an answer.
pub(crate) fn led_target(msg: &Arena) -> &[u8]
    ensures { result.now ≡ led_target msg.now.blocks }
{
    match request_parts(msg) {
        Some(line) => line.b,
        None => &[],
    }
}

/// Whether a target's path stands for the server as a whole.
fn is_star(target: &[u8]) -> bool
    ensures { result ≡ spec.is_star (target_parts target.now).path }
{
    is_word(cut_target(target).path, b"*")
}

/// The path that a client is led to.
fn led_path(target: &[u8]) -> &[u8]
    ensures { result.now ≡ spec.led_path (target_parts target.now) }
{
    let path = cut_target(target).path;
    if path.len() == 0 || is_star(target) {
        b"/"
    } else {
        path
    }
}

/// The query with its `?`.
fn led_query(target: &[u8]) -> &[u8]
    ensures { result.now ≡ spec.led_query (target_parts target.now) }
{
    if is_star(target) {
        &[]
    } else {
        cut_query(target).1
    }
}

/// A prefix, and nothing where it is `/`.
fn led_prefix(text: &[u8]) -> &[u8]
    ensures { result.now ≡ spec.led_prefix text.now }
{
    if is_word(text, b"/") { &[] } else { text }
}

/// A `/` behind a path, where it is asked for and the path does not end with one.
fn slash_behind(asked: bool, path: &[u8]) -> &'static [u8]
    ensures { result.now ≡ spec.slash_behind asked path.now }
{
    if asked && !path.ends_with(b"/") {
        b"/"
    } else {
        &[]
    }
}

/// What stands behind the path of a prefixed location.
fn behind_prefixed(drop_query: bool, append_slash: bool, target: &[u8]) -> &[u8]
    ensures { result.now ≡ spec.behind_prefixed drop_query append_slash (target_parts target.now) }
{
    if drop_query {
        slash_behind(append_slash, led_path(target))
    } else {
        led_query(target)
    }
}

/// What stands behind the path of a location under a scheme.
fn behind_schemed(drop_query: bool, target: &[u8]) -> &[u8]
    ensures { result.now ≡ spec.behind_schemed drop_query (target_parts target.now) }
{
    if drop_query { &[] } else { led_query(target) }
}

/// Joins a location behind a prefix over what a buffer holds.
pub(crate) fn join_prefixed(
    drop_query: bool,
    append_slash: bool,
    text: &[u8],
    target: &[u8],
    into: &mut Buf,
) -> Joined
    ensures joins { Joins into.old.cap (spec.prefixed drop_query append_slash text.now (target_parts target.now)) result into.new.bytes }
    ensures cap { into.new.cap ≡ into.old.cap }
{
    let behind = behind_prefixed(drop_query, append_slash, target);
    join_three(led_prefix(text), led_path(target), behind, into)
}

/// Joins a location under a scheme over what a buffer holds.
pub(crate) fn join_schemed(
    drop_query: bool,
    text: &[u8],
    host: &[u8],
    target: &[u8],
    into: &mut Buf,
) -> Joined
    ensures joins { Joins into.old.cap (spec.schemed drop_query text.now host.now (target_parts target.now)) result into.new.bytes }
    ensures cap { into.new.cap ≡ into.old.cap }
{
    let behind = behind_schemed(drop_query, target);
    let front = join_three(text, b"://", host, into);
    let both = put_piece(front, led_path(target), into);
    put_piece(both, behind, into)
}

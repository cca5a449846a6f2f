//! The samples of start lines and targets.
ghost use Rattle.std.specs.Prelude.{◌≡◌, ◌++◌, drop, pos, option_map, option_and_then};
ghost use Rattle.htx_view.specs.Lines.{request_in, response_in, status_in};
ghost use Rattle.px_sample.specs.Sample.{Bytes, Number};
ghost use Rattle.http_fetch.specs.Fetches as spec;
ghost use Rattle.http_fetch.specs.Found.{value_of};

use crate::found::{Found, bytes_or_absent};
use crate::param::param;
use header_ops::nth_value;
use htx_arena::Arena;
use htx_view::{request_parts, response_parts, status_of};
use uri_parts::cut_target;

/// The target of a request.
fn target_in(msg: &Arena) -> Option<&[u8]>
    ensures { option_map (λ target. target.now) result ≡ spec.target_in msg.now.blocks }
{
    match request_parts(msg) {
        Some(line) => Some(line.b),
        None => None,
    }
}

/// These bytes, unless there are none.
fn some_bytes(bytes: &[u8]) -> Found<'_>
    ensures { value_of result ≡ spec.some_bytes bytes.now }
{
    match bytes {
        [] => Found::Absent,
        [..] => Found::Bytes(bytes),
    }
}

/// The path of a target.
fn path_of(target: &[u8]) -> Found<'_>
    ensures { value_of result ≡ spec.path_of target.now }
{
    some_bytes(cut_target(target).path)
}

/// Its query.
fn query_of(target: &[u8]) -> Found<'_>
    ensures { value_of result ≡ spec.query_of target.now }
{
    bytes_or_absent(cut_target(target).query)
}

/// Path and query.
fn pathq_of(target: &[u8]) -> Found<'_>
    ensures { value_of result ≡ spec.pathq_of target.now }
{
    let parts = cut_target(target);
    match parts.query {
        Some(query) => Found::Joined(parts.path, b"?", query),
        None => Found::Bytes(parts.path),
    }
}

/// The first Host value of a message; nothing where there is none (RFC 9110 section 7.2).
pub fn host_in(msg: &Arena) -> &[u8]
    ensures { result.now ≡ spec.host_in msg.now.blocks }
{
    match nth_value(msg, b"host", 0) {
        Some(host) => host,
        None => b"",
    }
}

/// Two texts, one behind the other, unless both are empty.
#[tactic(auto, using(crate::proofs::Joins::joins))]
fn joined<'a>(front: &'a [u8], behind: &'a [u8]) -> Found<'a>
    ensures { value_of result ≡ spec.some_bytes (front.now ++ behind.now) }
{
    if front.is_empty() {
        return some_bytes(behind);
    }
    Found::Joined(front, b"", behind)
}

/// The first Host value and the path.
fn base_of<'a>(msg: &'a Arena, target: &'a [u8]) -> Found<'a>
    ensures { value_of result ≡ spec.base_of msg.now.blocks target.now }
{
    joined(host_in(msg), cut_target(target).path)
}

/// A parameter of the query.
fn url_param_of<'a>(target: &'a [u8], name: &[u8]) -> Found<'a>
    ensures { value_of result ≡ spec.url_param_of name.now target.now }
{
    match cut_target(target).query {
        Some(query) => bytes_or_absent(param(query, name)),
        None => Found::Absent,
    }
}

/// The path of a request.
pub(crate) fn path(msg: &Arena) -> Found<'_>
    ensures { value_of result ≡ option_and_then spec.path_of (spec.target_in msg.now.blocks) }
{
    match target_in(msg) {
        Some(target) => path_of(target),
        None => Found::Absent,
    }
}

/// Its query.
pub(crate) fn query(msg: &Arena) -> Found<'_>
    ensures { value_of result ≡ option_and_then spec.query_of (spec.target_in msg.now.blocks) }
{
    match target_in(msg) {
        Some(target) => query_of(target),
        None => Found::Absent,
    }
}

/// Its path and query.
pub(crate) fn pathq(msg: &Arena) -> Found<'_>
    ensures { value_of result ≡ option_and_then spec.pathq_of (spec.target_in msg.now.blocks) }
{
    match target_in(msg) {
        Some(target) => pathq_of(target),
        None => Found::Absent,
    }
}

/// Its target.
pub(crate) fn url(msg: &Arena) -> Found<'_>
    ensures { value_of result ≡ option_map Bytes (spec.target_in msg.now.blocks) }
{
    bytes_or_absent(target_in(msg))
}

/// Its first Host value and path.
pub(crate) fn base(msg: &Arena) -> Found<'_>
    ensures { value_of result ≡ option_and_then (spec.base_of msg.now.blocks) (spec.target_in msg.now.blocks) }
{
    match target_in(msg) {
        Some(target) => base_of(msg, target),
        None => Found::Absent,
    }
}

/// A parameter of its query.
pub(crate) fn url_param<'a>(msg: &'a Arena, name: &[u8]) -> Found<'a>
    ensures { value_of result ≡ option_and_then (spec.url_param_of name.now) (spec.target_in msg.now.blocks) }
{
    match target_in(msg) {
        Some(target) => url_param_of(target, name),
        None => Found::Absent,
    }
}

/// The method of a request.
pub(crate) fn method(msg: &Arena) -> Found<'_>
    ensures { value_of result ≡ option_map (λ line. Bytes line.0) (request_in msg.now.blocks) }
{
    match request_parts(msg) {
        Some(line) => Found::Bytes(line.a),
        None => Found::Absent,
    }
}

/// The numbers of a version.
fn version_numbers(version: &[u8]) -> &[u8]
    ensures { result.now ≡ drop 5 version.now }
{
    if version.len() < 5 {
        return &version[version.len()..];
    }
    &version[5..]
}

/// The version of a request.
pub(crate) fn request_version(msg: &Arena) -> Found<'_>
    ensures { value_of result ≡ option_map (λ line. spec.version_numbers line.2) (request_in msg.now.blocks) }
{
    match request_parts(msg) {
        Some(line) => Found::Bytes(version_numbers(line.c)),
        None => Found::Absent,
    }
}

/// The version of a response.
pub(crate) fn response_version(msg: &Arena) -> Found<'_>
    ensures { value_of result ≡ option_map (λ line. spec.version_numbers line.0) (response_in msg.now.blocks) }
{
    match response_parts(msg) {
        Some(line) => Found::Bytes(version_numbers(line.a)),
        None => Found::Absent,
    }
}

/// The status of a response.
pub(crate) fn status(msg: &Arena) -> Found<'_>
    ensures { value_of result ≡ option_map (λ number. Number (pos number)) (status_in msg.now.blocks) }
{
    match status_of(msg) {
        Some(number) => Found::Number(i64::from(number)),
        None => Found::Absent,
    }
}

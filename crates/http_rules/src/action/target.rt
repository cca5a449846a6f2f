//! The parts of a target, each a slice of it.
ghost use Rattle.std.specs.Prelude.{◌≡◌, ◌+◌, ◌++◌, ◌≤◌, length};
ghost use Rattle.http_rules.specs.Action.Lines as spec;
ghost use Rattle.http_rules.specs.Action.Pieces.{query_bytes};

use crate::action::part::TargetPart;
use uri_parts::cut_target;
use uri_parts::laws::one_cut;

/// How many bytes a query has with its `?`.
fn query_len(query: Option<&[u8]>) -> usize
    ensures { result ≡ length (query_bytes query.entry) }
{
    match query {
        Some(query) => query.len() + 1,
        None => 0,
    }
}

/// What stands in front of a query, and the query with its `?`.
pub(crate) fn cut_query(target: &[u8]) -> (&[u8], &[u8])
    ensures front { result.0.now ≡ spec.origin_of target.now ++ spec.path_of target.now }
    ensures query { result.1.now ≡ spec.query_of target.now }
{
    one_cut();
    let parts = cut_target(target);
    target.split_at(target.len() - query_len(parts.query))
}

/// What stands in front of a path, and the path with the query behind it.
fn cut_path(target: &[u8]) -> (&[u8], &[u8])
    ensures origin { result.0.now ≡ spec.origin_of target.now }
    ensures pathq { result.1.now ≡ spec.pathq_of target.now }
{
    one_cut();
    let parts = cut_target(target);
    target.split_at(target.len() - parts.path.len() - query_len(parts.query))
}

/// A part of a target.
pub(crate) fn part_of(part: TargetPart, target: &[u8]) -> &[u8]
    ensures { result.now ≡ spec.part_of part target.now }
{
    match part {
        TargetPart::Path => cut_target(target).path,
        TargetPart::Pathq => cut_path(target).1,
        TargetPart::Uri => target,
    }
}

/// What stands in front of a part, and behind it.
pub(crate) fn around(part: TargetPart, target: &[u8]) -> (&[u8], &[u8])
    ensures front { result.0.now ≡ spec.front_of part target.now }
    ensures back { result.1.now ≡ spec.back_of part target.now }
{
    match part {
        TargetPart::Path => (cut_path(target).0, cut_query(target).1),
        TargetPart::Pathq => (cut_path(target).0, &[]),
        TargetPart::Uri => (&[], &[]),
    }
}

/// The `?` in front of a new query: where there was one, or the query is not empty.
fn mark_before(query: &[u8], text: &[u8]) -> &'static [u8]
    ensures { result.now ≡ spec.mark_by query.now text.now }
{
    match query {
        [_, ..] => b"?",
        [] => match text {
            [_, ..] => b"?",
            [] => &[],
        },
    }
}

/// What stands in front of a new query: the target without its query, and the `?`, if there is to be one.
pub(crate) fn before_query<'a>(target: &'a [u8], text: &[u8]) -> (&'a [u8], &'a [u8])
    ensures { result.0.now ++ (result.1.now ++ text.now) ≡ spec.with_query target.now text.now }
{
    let (front, query) = cut_query(target);
    (front, mark_before(query, text))
}

//! Which fetches a direction has.
ghost use Rattle.std.specs.Prelude.{◌≡◌};
ghost use Rattle.cfg_expr.specs.Faults.{Gives};
ghost use Rattle.cfg_expr.specs.Sides.{is_of_request, is_of_response, is_on, on_side, checked};

use crate::{Source, TextFault, TextKind};
use px_sample::Fetch;

/// Whose rules a text stands in.
#[derive(Clone, Copy)]
pub enum Side {
    Request,
    Response,
}

/// The fetch asks for a part of a request, which rules on responses don't have.
fn is_of_request(fetch: &Fetch) -> bool
    ensures { result ≡ is_of_request fetch.now }
{
    match fetch {
        Fetch::ReqHdr(_, _)
        | Fetch::ReqFhdr(_, _)
        | Fetch::ReqHdrCnt(_)
        | Fetch::Path
        | Fetch::Query
        | Fetch::Pathq
        | Fetch::Url
        | Fetch::Base
        | Fetch::UrlParam(_)
        | Fetch::ReqVer => true,
        _ => false,
    }
}

/// The fetch asks for a part of a response, which rules on requests don't have.
fn is_of_response(fetch: &Fetch) -> bool
    ensures { result ≡ is_of_response fetch.now }
{
    match fetch {
        Fetch::ResHdr(_, _)
        | Fetch::ResFhdr(_, _)
        | Fetch::ResHdrCnt(_)
        | Fetch::ResVer
        | Fetch::Status => true,
        _ => false,
    }
}

/// The direction has the fetch.
fn is_on(side: Side, fetch: &Fetch) -> bool
    ensures { result ≡ is_on side fetch.now }
{
    match side {
        Side::Request => !is_of_response(fetch),
        Side::Response => !is_of_request(fetch),
    }
}

/// The fetch that a source is in a direction, if the direction has it.
pub fn on_side(side: Side, source: Source) -> Option<Fetch>
    ensures { result ≡ on_side side source }
{
    match source {
        Source::Hdr(name, occurrence) => match side {
            Side::Request => Some(Fetch::ReqHdr(name, occurrence)),
            Side::Response => Some(Fetch::ResHdr(name, occurrence)),
        },
        Source::Of(fetch) => {
            if is_on(side, &fetch) {
                Some(fetch)
            } else {
                drop(fetch);
                None
            }
        }
    }
}

/// Refuses a source that the direction doesn't have; where none is given yet, each is taken.
pub fn checked(place: Option<Side>, source: &Source) -> Result<(), TextFault>
    ensures { Gives (λ nothing. nothing) result (checked place source.now) }
{
    let Some(side) = place else {
        return Ok(());
    };
    match source {
        Source::Hdr(_, _) => Ok(()),
        Source::Of(fetch) => {
            if is_on(side, fetch) {
                Ok(())
            } else {
                Err(TextFault::Refused(TextKind::Expr))
            }
        }
    }
}

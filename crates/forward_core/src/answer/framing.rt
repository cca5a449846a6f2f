//! How a response is framed for its client, and whether its declared length passes a limit.
ghost use Rattle.std.specs.Prelude.{◌≡◌, Option, None, false, not, ◌&&◌, ◌||◌, if◌then◌else◌};
ghost use Rattle.http_model.specs.Finish.{response_framing};
ghost use Rattle.session_model.specs.Meaning.{declares_too_much, is_bodiless};
ghost use Rattle.forward_core.specs.Meaning.Product.{filters_of};

use crate::answer::asker::Asker;
use crate::meaning::passes_limit;
use http_model::Framing;
use http_rules::Filters;

/// How a body is framed whose length isn't known: chunks, or bytes up to the close.
fn framing_of_open(knows_chunks: bool) -> Framing
    ensures { result ≡ response_framing false knows_chunks Framing.Chunked }
{
    if knows_chunks {
        return Framing::Chunked;
    }
    Framing::ToClose
}

/// In which framing a body is sent to a client, by the framing in which it comes.
pub fn response_framing(replaces: bool, knows_chunks: bool, framing: Framing) -> Framing
    ensures { result ≡ response_framing replaces knows_chunks framing }
{
    match framing {
        Framing::Absent => Framing::Absent,
        Framing::Length(length) => {
            if replaces {
                return framing_of_open(knows_chunks);
            }
            Framing::Length(length)
        }
        Framing::Chunked => framing_of_open(knows_chunks),
        Framing::ToClose => framing_of_open(knows_chunks),
    }
}

/// Whether no body follows.
fn is_bodiless(framing: Framing) -> bool
    ensures { result ≡ is_bodiless framing }
{
    match framing {
        Framing::Absent => true,
        Framing::Length(length) => length == 0,
        Framing::Chunked => false,
        Framing::ToClose => false,
    }
}

/// Whether the declared length of a body passes a limit.
pub fn declares_too_much(filters: &Filters, declared: Option<u64>, framing: Framing) -> bool
    ensures { result ≡ (declares_too_much (filters_of filters.now) declared && not (is_bodiless framing)) }
{
    match declared {
        None => false,
        Some(length) => passes_limit(filters, length) && !is_bodiless(framing),
    }
}

/// The length that a response without a body tells all the same: the one that was declared to a HEAD, or with status 304.
pub fn declared_for(
    asker: Asker,
    replaces: bool,
    declared: Option<u64>,
    not_modified: bool,
) -> Option<u64>
    ensures { result ≡ (if not replaces && (asker.head_asked || not_modified) then declared else None) }
{
    if replaces {
        return None;
    }
    if asker.head_asked {
        return declared;
    }
    if not_modified {
        return declared;
    }
    None
}

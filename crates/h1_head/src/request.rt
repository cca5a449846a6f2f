//! What a window says of the request head that a stream begins with.
ghost use Rattle.std.specs.Prelude.{◌≡◌, ◌≢◌, ◌≤◌, ◌<◌, ◌+◌, ◌++◌, ◌∷◌, [], length, drop, Err, IfOk, IfErr, OnErr};
ghost use Rattle.http_model.specs.Reading.{Refused};
ghost use Rattle.http_model.specs.Sizes.{least_size, most_size, least_head};
ghost use Rattle.h1_head.specs.Answers.{IfMore, IfHead, IfRefuse, UnlessHead, Keeps, IsKept};
ghost use Rattle.h1_head.specs.Kind.{request_heads};
ghost use Rattle.h1_head.specs.Request.{RequestOf};
ghost use Rattle.h1_head.specs.Stream.{behind};
ghost use Rattle.h1_head.specs.Rows.{request_code, decision};
ghost use Rattle.h1_head.specs.Spans.{span_parts, AreSpansGood};
ghost use Rattle.h1_head.specs.Numbers.{most_fields};
ghost use Rattle.httparse.specs.Grammar.{HasNoRequest};
ghost use Rattle.httparse.specs.Outcome.{IfComplete, OnPartial};
ghost use Rattle.httparse.specs.Spans.{IsRequestWithin, IsRequestOf, RequestOverflows};
ghost use Rattle.h1_head.specs.Decides.{OnEachStream, MayWait, RefusesFor, WhereLong, IsTooLong};

use crate::host::fits_target;
use crate::lines::empty_lines;
use crate::received::push_head;
use crate::survey::survey_fields;
use crate::text::{FEW_FIELDS, Kept, MAX_FIELDS, Wait, is_lone_cr, wait_for, wants_places};
use crate::{HeadRead, HeadWhy};
use http_model::{Framing, Limits};
use httparse::spans::{EMPTY_HEADER_SPAN, HeaderSpan, RequestSpans, parse_request};
use httparse::{Error, Status};
use htx_arena::Arena;

/// Refuses for this reason.
fn refuse(why: HeadWhy) -> HeadRead
    ensures { result ≡ HeadRead.Refuse (request_code why) why }
{
    HeadRead::Refuse {
        code: why.request_code(),
        why,
    }
}

/// What the rows make of a head: its blocks are in the array where they keep it.
fn receive(
    text: &[u8],
    head: &RequestSpans,
    fields: &[HeaderSpan],
    limits: Limits,
    to: &mut Arena,
) -> Result<Kept, HeadWhy>
    requires spans { AreSpansGood text.now head.now fields.now }
    requires reserve { limits.maxrewrite ≤ limits.bufsize }
    requires empty { to.old.blocks ≡ [] }
    requires size { to.old.size ≡ limits.bufsize }
    ensures kept { IfOk result (λ kept. IsKept (decision limits (span_parts text.now head.now fields.now)) to.new.blocks kept.framing kept.declared kept.close) }
    ensures refused { IfErr result (λ why. decision limits (span_parts text.now head.now fields.now) ≡ Err why) }
    ensures unkept { OnErr result (to.new.blocks ≡ []) }
    ensures size { to.new.size ≡ to.old.size }
{
    let survey = survey_fields(text, fields);
    let fits = fits_target(text, head, fields);
    if let Some(why) = survey.refusal(head.method.of(text), head.version, fits) {
        return Err(why);
    }
    let pushed = push_head(text, head, fields, survey.removes, to);
    if pushed.is_err() || to.load() > limits.bufsize - limits.maxrewrite {
        to.clear();
        return Err(HeadWhy::Receive);
    }
    Ok(Kept {
        framing: survey.framing(Framing::Absent),
        declared: survey.declared(),
        close: survey.close,
    })
}

/// What a parse says of a text that has no empty line in front. The parse had places enough, or the text has too many fields.
fn judge(
    text: &[u8],
    parsed: httparse::Result<RequestSpans>,
    places: &[HeaderSpan],
    whole: bool,
    limits: Limits,
    to: &mut Arena,
) -> HeadRead
    requires within { IfComplete parsed (IsRequestWithin text.now places.now) }
    requires complete { IfComplete parsed (IsRequestOf text.now places.now) }
    requires partial { OnPartial parsed (HasNoRequest text.now) }
    requires overflows { OnErr parsed (RequestOverflows most_fields text.now) }
    requires places { length places.now ≤ most_fields }
    requires reserve { limits.maxrewrite ≤ limits.bufsize }
    requires text { length text.now ≤ limits.bufsize }
    requires alone { behind text.now ≡ text.now }
    requires some { text.now ≢ [] }
    requires begun { text.now ≢ 13 ∷ [] }
    requires empty { to.old.blocks ≡ [] }
    requires size { to.old.size ≡ limits.bufsize }
    ensures skip { IfMore result (λ skip. skip ≡ 0) }
    ensures waits { IfMore result (λ _. MayWait request_heads limits whole text.now) }
    ensures head { IfHead result (Keeps request_heads limits whole text.now to.new.blocks) }
    ensures code { IfRefuse result (λ code why. code ≡ request_code why) }
    ensures why { IfRefuse result (λ _ why. RefusesFor request_heads limits whole text.now why) }
    ensures long { IfRefuse result (λ _ why. WhereLong why (IsTooLong request_heads limits whole text.now)) }
    ensures unkept { UnlessHead result (to.new.blocks ≡ []) }
    ensures size { to.new.size ≡ to.old.size }
{
    match parsed {
        Ok(Status::Complete(head)) => {
            match receive(text, &head, &places[..head.headers], limits, to) {
                Ok(kept) => HeadRead::Head {
                    used: head.len,
                    framing: kept.framing,
                    declared: kept.declared,
                    close: kept.close,
                },
                Err(why) => refuse(why),
            }
        }
        Ok(Status::Partial) => match wait_for(text, whole, limits) {
            Wait::More => HeadRead::More { skip: 0 },
            Wait::Ended => refuse(HeadWhy::Grammar),
            Wait::Long => refuse(HeadWhy::Long),
        },
        Err(Error::TooManyHeaders) => refuse(HeadWhy::Long),
        Err(_) => refuse(HeadWhy::Grammar),
    }
}

/// Reads the head at the front of a text that has no empty line in front. Few places are cleared for its fields; all that a head
/// may have only where it has more.
fn read_text(text: &[u8], whole: bool, limits: Limits, to: &mut Arena) -> HeadRead
    requires reserve { limits.maxrewrite ≤ limits.bufsize }
    requires text { length text.now ≤ limits.bufsize }
    requires alone { behind text.now ≡ text.now }
    requires some { text.now ≢ [] }
    requires begun { text.now ≢ 13 ∷ [] }
    requires empty { to.old.blocks ≡ [] }
    requires size { to.old.size ≡ limits.bufsize }
    ensures skip { IfMore result (λ skip. skip ≡ 0) }
    ensures waits { IfMore result (λ _. MayWait request_heads limits whole text.now) }
    ensures head { IfHead result (Keeps request_heads limits whole text.now to.new.blocks) }
    ensures code { IfRefuse result (λ code why. code ≡ request_code why) }
    ensures why { IfRefuse result (λ _ why. RefusesFor request_heads limits whole text.now why) }
    ensures long { IfRefuse result (λ _ why. WhereLong why (IsTooLong request_heads limits whole text.now)) }
    ensures unkept { UnlessHead result (to.new.blocks ≡ []) }
    ensures size { to.new.size ≡ to.old.size }
{
    let mut few = [EMPTY_HEADER_SPAN; FEW_FIELDS];
    let parsed = parse_request(text, &mut few);
    if wants_places(&parsed) {
        let mut places = [EMPTY_HEADER_SPAN; MAX_FIELDS];
        let parsed = parse_request(text, &mut places);
        return judge(text, parsed, &places, whole, limits, to);
    }
    judge(text, parsed, &few, whole, limits, to)
}

/// Reads the head of a request at the front of the window, behind its empty lines (RFC 9112 sections 2.2 and 3).
/// The window is the bytes of the stream that were not used yet, and `whole` says that the stream has ended
/// behind it. Where a head is received, `to` holds its blocks; else `to` is empty.
///
/// A head is refused with 501 for its method or its transfer coding, and with 400 for each other reason.
pub fn read_request(window: &[u8], whole: bool, limits: Limits, to: &mut Arena) -> HeadRead
    requires least { least_size ≤ limits.bufsize }
    requires most { limits.bufsize ≤ most_size }
    requires reserve { limits.maxrewrite + least_head ≤ limits.bufsize }
    requires window { length window.now ≤ limits.bufsize }
    requires empty { to.old.blocks ≡ [] }
    requires size { to.old.size ≡ limits.bufsize }

    // More is asked for only where the grammar parses nothing and a head has room, and what may be skipped is the empty lines
    // in front.
    ensures skip { IfMore result (λ skip. skip ≤ length window.now) }
    ensures lines { IfMore result (λ skip. drop skip window.now ≡ behind window.now) }
    ensures waits { IfMore result (λ _. MayWait request_heads limits whole window.now) }

    // A head is the one of each stream that begins with the window.
    ensures head { IfHead result (Keeps request_heads limits whole window.now to.new.blocks) }

    // A refusal is the one of each stream that begins with the window.
    ensures code { IfRefuse result (λ code why. code ≡ request_code why) }
    ensures why { IfRefuse result (λ _ why. RefusesFor request_heads limits whole window.now why) }
    ensures long { IfRefuse result (λ _ why. WhereLong why (IsTooLong request_heads limits whole window.now)) }
    ensures refused { IfRefuse result (λ code _. OnEachStream whole (λ more. RequestOf limits (window.now ++ more) (Refused code))) }

    ensures unkept { UnlessHead result (to.new.blocks ≡ []) }
    ensures size { to.new.size ≡ to.old.size }
{
    let skip = empty_lines(window);
    let text = &window[skip..];
    if text.is_empty() {
        return HeadRead::More { skip };
    }
    if is_lone_cr(text) {
        if whole {
            return refuse(HeadWhy::Grammar);
        }
        return HeadRead::More { skip };
    }
    match read_text(text, whole, limits, to) {
        HeadRead::More { skip: _ } => HeadRead::More { skip },
        HeadRead::Head {
            used,
            framing,
            declared,
            close,
        } => HeadRead::Head {
            used: skip + used,
            framing,
            declared,
            close,
        },
        HeadRead::Refuse { code, why } => HeadRead::Refuse { code, why },
    }
}

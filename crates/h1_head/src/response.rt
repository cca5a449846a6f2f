//! What a window says of the response head that a stream begins with.
ghost use Rattle.std.specs.Prelude.{◌≡◌, ◌≢◌, ◌≤◌, ◌<◌, ◌+◌, ◌++◌, ◌∷◌, [], length, drop, Err, IfOk, IfErr, OnErr, ◌||◌, if◌then◌else◌};
ghost use Rattle.http_model.specs.Reading.{Refused};
ghost use Rattle.http_model.specs.Sizes.{least_size, most_size, least_head};
ghost use Rattle.h1_head.specs.Answers.{IfMore, IfHead, IfRefuse, UnlessHead, Keeps, IsKept};
ghost use Rattle.h1_head.specs.Kind.{response_heads};
ghost use Rattle.h1_head.specs.Response.{ResponseOf};
ghost use Rattle.h1_head.specs.Stream.{behind};
ghost use Rattle.h1_head.specs.Rows.{response_code, response_decision, has_no_content, framing_told};
ghost use Rattle.h1_head.specs.Survey.{declared_by};
ghost use Rattle.http_model.specs.declared.Framing.TheVariants as framing;
ghost use Rattle.h1_head.specs.Spans.{response_span_parts, AreResponseSpansGood};
ghost use Rattle.h1_head.specs.Numbers.{most_fields};
ghost use Rattle.httparse.specs.Grammar.{HasNoResponse};
ghost use Rattle.httparse.specs.Outcome.{IfComplete, OnPartial};
ghost use Rattle.httparse.specs.Spans.{IsResponseWithin, IsResponseOf, ResponseOverflows};
ghost use Rattle.h1_head.specs.Decides.{OnEachStream, MayWait, RefusesFor, WhereLong, IsTooLong};

use crate::lines::empty_lines;
use crate::received::push_response_head;
use crate::survey::{Survey, survey_fields};
use crate::text::{FEW_FIELDS, Kept, MAX_FIELDS, Wait, is_lone_cr, wait_for, wants_places};
use crate::{HeadRead, HeadWhy};
use http_model::{Framing, Limits};
use httparse::spans::{EMPTY_HEADER_SPAN, HeaderSpan, ResponseSpans, parse_response};
use httparse::{Error, Status};
use htx_arena::Arena;

/// What is known before a response comes: whether its request's method was HEAD, and the limits of its head.
#[derive(Clone, Copy)]
struct Terms {
    head_asked: bool,
    limits: Limits,
}

/// Refuses for this reason.
fn refuse(why: HeadWhy) -> HeadRead
    ensures { result ≡ HeadRead.Refuse (response_code why) why }
{
    HeadRead::Refuse {
        code: why.response_code(),
        why,
    }
}

/// How the body of a response with this status is framed.
fn framing_for(head_asked: bool, code: u16, survey: &Survey) -> Framing
    ensures { result ≡ (if head_asked || has_no_content code then framing.Absent else framing_told framing.ToClose survey.now.has_coding (declared_by survey.now.lengths)) }
{
    if head_asked || code < 200 || code == 204 || code == 304 {
        return Framing::Absent;
    }
    survey.framing(Framing::ToClose)
}

/// What the rows make of a head: its blocks are in the array where they keep it.
fn receive(
    text: &[u8],
    head: &ResponseSpans,
    fields: &[HeaderSpan],
    terms: Terms,
    to: &mut Arena,
) -> Result<Kept, HeadWhy>
    requires spans { AreResponseSpansGood text.now head.now fields.now }
    requires reserve { terms.limits.maxrewrite ≤ terms.limits.bufsize }
    requires empty { to.old.blocks ≡ [] }
    requires size { to.old.size ≡ terms.limits.bufsize }
    ensures kept { IfOk result (λ kept. IsKept (response_decision terms.head_asked terms.limits (response_span_parts text.now head.now fields.now)) to.new.blocks kept.framing kept.declared kept.close) }
    ensures refused { IfErr result (λ why. response_decision terms.head_asked terms.limits (response_span_parts text.now head.now fields.now) ≡ Err why) }
    ensures unkept { OnErr result (to.new.blocks ≡ []) }
    ensures size { to.new.size ≡ to.old.size }
{
    let Terms { head_asked, limits } = terms;
    let survey = survey_fields(text, fields);
    if let Some(why) = survey.response_refusal(head.code, head.version) {
        return Err(why);
    }
    let pushed = push_response_head(text, head, fields, survey.removes, to);
    if pushed.is_err() || to.load() > limits.bufsize - limits.maxrewrite {
        to.clear();
        return Err(HeadWhy::Receive);
    }
    Ok(Kept {
        framing: framing_for(head_asked, head.code, &survey),
        declared: survey.declared(),
        close: survey.close,
    })
}

/// What a parse says of a text that has no empty line in front. The parse had places enough, or the text has too many fields.
fn judge(
    text: &[u8],
    parsed: httparse::Result<ResponseSpans>,
    places: &[HeaderSpan],
    whole: bool,
    terms: Terms,
    to: &mut Arena,
) -> HeadRead
    requires within { IfComplete parsed (IsResponseWithin text.now places.now) }
    requires complete { IfComplete parsed (IsResponseOf text.now places.now) }
    requires partial { OnPartial parsed (HasNoResponse text.now) }
    requires overflows { OnErr parsed (ResponseOverflows most_fields text.now) }
    requires places { length places.now ≤ most_fields }
    requires reserve { terms.limits.maxrewrite ≤ terms.limits.bufsize }
    requires text { length text.now ≤ terms.limits.bufsize }
    requires alone { behind text.now ≡ text.now }
    requires some { text.now ≢ [] }
    requires begun { text.now ≢ 13 ∷ [] }
    requires empty { to.old.blocks ≡ [] }
    requires size { to.old.size ≡ terms.limits.bufsize }
    ensures skip { IfMore result (λ skip. skip ≡ 0) }
    ensures waits { IfMore result (λ _. MayWait (response_heads terms.head_asked) terms.limits whole text.now) }
    ensures head { IfHead result (Keeps (response_heads terms.head_asked) terms.limits whole text.now to.new.blocks) }
    ensures code { IfRefuse result (λ code why. code ≡ response_code why) }
    ensures why { IfRefuse result (λ _ why. RefusesFor (response_heads terms.head_asked) terms.limits whole text.now why) }
    ensures long { IfRefuse result (λ _ why. WhereLong why (IsTooLong (response_heads terms.head_asked) terms.limits whole text.now)) }
    ensures unkept { UnlessHead result (to.new.blocks ≡ []) }
    ensures size { to.new.size ≡ to.old.size }
{
    match parsed {
        Ok(Status::Complete(head)) => {
            if head.code < 100 {
                return refuse(HeadWhy::Grammar);
            }
            match receive(text, &head, &places[..head.headers], terms, to) {
                Ok(kept) => HeadRead::Head {
                    used: head.len,
                    framing: kept.framing,
                    declared: kept.declared,
                    close: kept.close,
                },
                Err(why) => refuse(why),
            }
        }
        Ok(Status::Partial) => match wait_for(text, whole, terms.limits) {
            Wait::More => HeadRead::More { skip: 0 },
            Wait::Ended => refuse(HeadWhy::Grammar),
            Wait::Long => refuse(HeadWhy::Long),
        },
        Err(Error::TooManyHeaders) => refuse(HeadWhy::Long),
        Err(_) => refuse(HeadWhy::Grammar),
    }
}

/// Reads the head at the front of a text that has no empty line in front. Few places are cleared for its fields; all that a head
/// may have only where it has more.
fn read_text(text: &[u8], whole: bool, terms: Terms, to: &mut Arena) -> HeadRead
    requires reserve { terms.limits.maxrewrite ≤ terms.limits.bufsize }
    requires text { length text.now ≤ terms.limits.bufsize }
    requires alone { behind text.now ≡ text.now }
    requires some { text.now ≢ [] }
    requires begun { text.now ≢ 13 ∷ [] }
    requires empty { to.old.blocks ≡ [] }
    requires size { to.old.size ≡ terms.limits.bufsize }
    ensures skip { IfMore result (λ skip. skip ≡ 0) }
    ensures waits { IfMore result (λ _. MayWait (response_heads terms.head_asked) terms.limits whole text.now) }
    ensures head { IfHead result (Keeps (response_heads terms.head_asked) terms.limits whole text.now to.new.blocks) }
    ensures code { IfRefuse result (λ code why. code ≡ response_code why) }
    ensures why { IfRefuse result (λ _ why. RefusesFor (response_heads terms.head_asked) terms.limits whole text.now why) }
    ensures long { IfRefuse result (λ _ why. WhereLong why (IsTooLong (response_heads terms.head_asked) terms.limits whole text.now)) }
    ensures unkept { UnlessHead result (to.new.blocks ≡ []) }
    ensures size { to.new.size ≡ to.old.size }
{
    let mut few = [EMPTY_HEADER_SPAN; FEW_FIELDS];
    let parsed = parse_response(text, &mut few);
    if wants_places(&parsed) {
        let mut places = [EMPTY_HEADER_SPAN; MAX_FIELDS];
        let parsed = parse_response(text, &mut places);
        return judge(text, parsed, &places, whole, terms, to);
    }
    judge(text, parsed, &few, whole, terms, to)
}

/// Reads the head of a response at the front of the window, behind its empty lines (RFC 9112 sections 2.2 and 4).
/// `head_asked` says that the request's method was HEAD, to whose response no body belongs.
/// The window is the bytes of the stream that were not used yet, and `whole` says that the stream has ended
/// behind it. Where a head is received, `to` holds its blocks; else `to` is empty.
///
/// Each refusal is 502. A status below 100 is no head, and 101 is refused.
pub fn read_response(
    window: &[u8],
    whole: bool,
    head_asked: bool,
    limits: Limits,
    to: &mut Arena,
) -> HeadRead
    requires least { least_size ≤ limits.bufsize }
    requires most { limits.bufsize ≤ most_size }
    requires reserve { limits.maxrewrite + least_head ≤ limits.bufsize }
    requires window { length window.now ≤ limits.bufsize }
    requires empty { to.old.blocks ≡ [] }
    requires size { to.old.size ≡ limits.bufsize }

    // More is asked for only where the grammar parses nothing and a head has room, and what may be skipped is the empty lines
    // in front.
    ensures skip { IfMore result (λ skip. skip ≤ length window.now) }
    ensures lines { IfMore result (λ skip. drop skip window.now ≡ behind window.now) }
    ensures waits { IfMore result (λ _. MayWait (response_heads head_asked) limits whole window.now) }

    // A head is the one of each stream that begins with the window.
    ensures head { IfHead result (Keeps (response_heads head_asked) limits whole window.now to.new.blocks) }

    // A refusal is the one of each stream that begins with the window.
    ensures code { IfRefuse result (λ code why. code ≡ response_code why) }
    ensures why { IfRefuse result (λ _ why. RefusesFor (response_heads head_asked) limits whole window.now why) }
    ensures long { IfRefuse result (λ _ why. WhereLong why (IsTooLong (response_heads head_asked) limits whole window.now)) }
    ensures refused { IfRefuse result (λ code _. OnEachStream whole (λ more. ResponseOf head_asked limits (window.now ++ more) (Refused code))) }

    ensures unkept { UnlessHead result (to.new.blocks ≡ []) }
    ensures size { to.new.size ≡ to.old.size }
{
    let skip = empty_lines(window);
    let text = &window[skip..];
    if text.is_empty() {
        return HeadRead::More { skip };
    }
    if is_lone_cr(text) {
        if whole {
            return refuse(HeadWhy::Grammar);
        }
        return HeadRead::More { skip };
    }
    let terms = Terms { head_asked, limits };
    match read_text(text, whole, terms, to) {
        HeadRead::More { skip: _ } => HeadRead::More { skip },
        HeadRead::Head {
            used,
            framing,
            declared,
            close,
        } => HeadRead::Head {
            used: skip + used,
            framing,
            declared,
            close,
        },
        HeadRead::Refuse { code, why } => HeadRead::Refuse { code, why },
    }
}

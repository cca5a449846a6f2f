//! What the definitions say together.
ghost use Rattle.std.specs.Prelude.{◌≡◌, ℕ, List, [], Bool, true, false, Some};
ghost use Rattle.h1_head.specs.Decides.{MayWait};
ghost use Rattle.h1_head.specs.Kind.{response_heads};
ghost use Rattle.h1_head.specs.Response.{ResponseOf};
ghost use Rattle.http_model.specs.declared.Ending.{Ending};
ghost use Rattle.http_model.specs.Head.{Head, Message, front_blocks, message_blocks};
ghost use Rattle.http_model.specs.Reading.{Received, Begins};
ghost use Rattle.http_model.specs.Refusal.{refusal, closing};
ghost use Rattle.http_model.specs.Spelling.{Spells};
ghost use Rattle.session_model.specs.Amending.{reply_sent};
ghost use Rattle.session_model.specs.Meaning.{is_interim};
ghost use Rattle.px_sample.specs.Variables.{Variables};
ghost use Rattle.forward_core.specs.Answer.Listed.{IsListed};
ghost use Rattle.http_rules.specs.declared.config.Config.{Config};
ghost use Rattle.http_rules.specs.Lives.{answering};
ghost use Rattle.forward_core.specs.Meaning.Product.{meaning_of};
ghost use Rattle.session_core.specs.Lanes.{IsTotalAnswers};
ghost use Rattle.session_core.specs.History.{Coming};
ghost use Rattle.session_core.specs.Sided.{Sided, Asking, asker_in, AnswersSo, IsBefore, Saying};
ghost use Rattle.session_core.specs.declared.Told.TheVariants as told;
ghost use Rattle.lane.specs.Answering.{HeadsCame};
ghost use Rattle.forward_core.specs.Answer.HeadsRead.{BeginsWithHead, HeadBegins};
ghost use Rattle.forward_core.specs.Answer.Resting.{AwaitsHead, PutsOutBody};
ghost use Rattle.forward_core.specs.Answer.Seen.{seen, place_of};
ghost use Rattle.forward_core.specs.Answer.Stands.{AnswerStands, TellsStatuses, IsSoundSide, is_serving, list_text};
ghost use Rattle.forward_core.specs.declared.answer.place.Place.TheVariants as place;
ghost use Rattle.forward_core.specs.declared.answer.side.AnswerSide.{AnswerSide};

use h1_body::readings::reading;

/// Each stream of a server has a head's reading, each body has one, and a head is at least one byte.
pub fn total()
    ensures { (cfg : Config) → IsTotalAnswers (meaning_of cfg) }
{
    h1_head::laws::some_reading();
    h1_head::laws::has_bytes();
    reading();
}

/// While a server answers, what was put out to the client is a front of its answer, however its stream goes on.
pub fn answers()
    ensures { (cfg : Config) (side : AnswerSide) (p : Sided (meaning_of cfg))
        → AnswerStands cfg side p.asking p.server p.to_client p.now p.saying → is_serving (place_of side) ≡ true → AnswersSo (meaning_of cfg) (seen side) p }
{
    total();
    lane::laws::answer_promise();
    lane::direction::laws::promise();
}

/// While a server answers, the status of its answer is told: none while heads are read, and then that of what the client is sent behind interim heads.
pub fn statuses()
    ensures { (cfg : Config) → TellsStatuses cfg }
{
    total();
    lane::laws::answer_promise();
    lane::direction::laws::promise();
}

/// While the last that answers hasn't begun, the client got interim heads alone.
pub fn comes_before()
    ensures { (cfg : Config) (side : AnswerSide) (p : Sided (meaning_of cfg)) → AnswerStands cfg side p.asking p.server p.to_client p.now p.saying
        → is_serving (place_of side) ≡ true → (seen side).begun ≡ false → IsBefore (meaning_of cfg) p }
{
    lane::laws::answer_promise();
}

/// While a server answers and nothing was left undone, and the client has taken all that was put out: where the last that answers hasn't begun,
/// all interim heads were put out whole, the server's stream goes on, and what follows them allows More. So it has begun once the stream ended,
/// once a whole final head came, and once the bytes in its place allow no More.
pub fn begun_or_waits()
    ensures waits { (cfg : Config) (side : AnswerSide) (asking : Asking Variables) (server : Coming) (to_client : List ℕ) (now : Variables) (saying : Saying) → IsSoundSide side → AnswerStands cfg side asking server to_client now saying
        → is_serving (place_of side) ≡ true → (seen side).at_rest ≡ true → (seen side).window ≡ [] → (seen side).begun ≡ false → AwaitsHead cfg (asker_in asking) server to_client }
    ensures ended { (cfg : Config) (side : AnswerSide) (asking : Asking Variables) (server : Coming) (to_client : List ℕ) (now : Variables) (saying : Saying) → IsSoundSide side → AnswerStands cfg side asking server to_client now saying
        → is_serving (place_of side) ≡ true → (seen side).at_rest ≡ true → (seen side).window ≡ [] → (how : Ending) → server.ending ≡ Some how → (seen side).begun ≡ true }
    ensures head { (cfg : Config) (side : AnswerSide) (asking : Asking Variables) (server : Coming) (to_client : List ℕ) (now : Variables) (saying : Saying) → IsSoundSide side → AnswerStands cfg side asking server to_client now saying
        → is_serving (place_of side) ≡ true → (seen side).at_rest ≡ true → (seen side).window ≡ [] → (heads : List Head) (left : List ℕ) → HeadsCame (asker_in asking).head_asked cfg.limits server.ending heads server.bytes left
        → (received : Received) (rest : List ℕ) → ResponseOf (asker_in asking).head_asked cfg.limits left (Begins received rest) → is_interim received.head ≡ false → (seen side).begun ≡ true }
    ensures hopeless { (cfg : Config) (side : AnswerSide) (asking : Asking Variables) (server : Coming) (to_client : List ℕ) (now : Variables) (saying : Saying) → IsSoundSide side → AnswerStands cfg side asking server to_client now saying
        → is_serving (place_of side) ≡ true → (seen side).at_rest ≡ true → (seen side).window ≡ [] → (heads : List Head) (left : List ℕ) → HeadsCame (asker_in asking).head_asked cfg.limits server.ending heads server.bytes left
        → ((received : Received) (rest : List ℕ) → ResponseOf (asker_in asking).head_asked cfg.limits left (Begins received rest) → is_interim received.head ≡ false)
        → ¬ (MayWait (response_heads (asker_in asking).head_asked) cfg.limits false left) → (seen side).begun ≡ true }
{
    lane::laws::answer_promise();
    lane::laws::answer_begun();
    h1_head::laws::one_reading();
}

/// While a server's response goes on and nothing was left undone, and the client has taken all that was put out: that was the interim heads, the
/// final head as rules left it, and all of the body that came, but what filters keep back.
pub fn body_put_out()
    ensures { (cfg : Config) (side : AnswerSide) (asking : Asking Variables) (server : Coming) (to_client : List ℕ) (now : Variables) (saying : Saying) → AnswerStands cfg side asking server to_client now saying
        → place_of side ≡ place.Response → (seen side).told ≡ told.Going → (seen side).at_rest ≡ true → (seen side).window ≡ [] → PutsOutBody cfg (asker_in asking) (answering asking.vars) server to_client now }
{
    lane::laws::answer_not_held_back();
}

/// Whether a response head was read. Where one was, the server's stream begins with it, however it goes on (`came`). Where the bytes so far begin
/// with one, interim or final, it was read once all was done that could be (`read`).
pub fn head_heard()
    ensures came { (cfg : Config) (side : AnswerSide) (asking : Asking Variables) (server : Coming) (to_client : List ℕ) (now : Variables) (saying : Saying) → AnswerStands cfg side asking server to_client now saying
        → (seen side).heard ≡ true → HeadBegins cfg (asker_in asking) server }
    ensures read { (cfg : Config) (side : AnswerSide) (asking : Asking Variables) (server : Coming) (to_client : List ℕ) (now : Variables) (saying : Saying) → IsSoundSide side → AnswerStands cfg side asking server to_client now saying
        → is_serving (place_of side) ≡ true → (seen side).at_rest ≡ true → BeginsWithHead cfg (asker_in asking) server.bytes → (seen side).heard ≡ true }
{
    h1_head::laws::one_reading();
}

/// Refusals and replies stand as a head with its body behind it, and their text is that of both.
pub fn lists()
    ensures blocks { (m : Message) → IsListed m → message_blocks m ≡ front_blocks m.head m.body }
    ensures spelled { (m : Message) (no_body : Bool) → IsListed m → Spells true no_body m (list_text no_body m.head m.body) }
    ensures refusal { (code : ℕ) → IsListed (refusal code) }
    ensures closing { (code : ℕ) → IsListed (closing (refusal code)) }
    ensures sent { (cfg : Config) (m : Message) (method : List ℕ) (vars : Variables) (keep : Bool) → IsListed m → IsListed (reply_sent (meaning_of cfg) m method vars keep) }
{}

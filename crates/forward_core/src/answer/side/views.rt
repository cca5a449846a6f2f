//! What is seen of the answer direction.
ghost use Rattle.std.specs.Prelude.{◌≡◌, not};
ghost use Rattle.session_core.specs.Waits.{is_empty};
ghost use Rattle.forward_core.specs.Answer.Seen.{seen, place_of, asker_of};
ghost use Rattle.forward_core.specs.Answer.Stands.{IsSoundSide};

use crate::answer::place::Place;
use crate::answer::side::AnswerSide;
use http_model::Source;
use lane::Stage;
use session_core::Told;

/// How a response stands, by its body.
fn told_by(body: Source) -> Told
    ensures { result ≡ Rattle.forward_core.specs.Answer.Seen.told_by body }
{
    match body {
        Source::Going => Told::Going,
        Source::Whole => Told::Whole,
        Source::Cut(_) => Told::Cut,
    }
}

/// Whether all of a message is put out.
pub(super) fn is_done(stage: Stage) -> bool
    ensures { result ≡ Rattle.forward_core.specs.Answer.Seen.is_done stage }
{
    match stage {
        Stage::Done => true,
        Stage::Reading | Stage::Head | Stage::Sending => false,
    }
}

impl AnswerSide {
    ghost use Rattle.std.specs.Borrow.{sem};
    ghost use Rattle.forward_core.specs.Answer.Lent.{LendsText};

    /// What is put out.
    pub fn place(&self) -> Place
        ensures { result ≡ place_of self.now }
    {
        self.place
    }

    /// How the last that answers stands.
    pub fn told(&self) -> Told
        ensures { result ≡ (seen self.now).told }
    {
        match self.place {
            Place::Idle => Told::Going,
            Place::Heads => Told::Going,
            Place::Response => told_by(self.lane.source()),
            Place::Closing => Told::Closes,
            Place::Keeping => Told::Whole,
            Place::Saying => Told::Closes,
        }
    }

    /// Whether all of the answer's text was put out.
    pub fn is_answered(&self) -> bool
        ensures { result ≡ (seen self.now).answered }
    {
        match self.place {
            Place::Idle => false,
            Place::Heads => false,
            Place::Response => is_done(self.lane.stage()),
            Place::Closing => is_done(self.lane.stage()),
            Place::Keeping => is_done(self.lane.stage()),
            Place::Saying => is_done(self.lane.stage()),
        }
    }

    /// Whether a byte of the last that answers was put out.
    pub fn is_begun(&self) -> bool
        ensures { result ≡ (seen self.now).begun }
    {
        self.lane.begun()
    }

    /// Whether a response head was read.
    pub fn has_heard(&self) -> bool
        ensures { result ≡ (seen self.now).heard }
    {
        self.heard
    }

    /// The status of what goes out: none in front of an answer.
    pub fn status(&self) -> Option<u16>
        ensures { result ≡ (seen self.now).status }
    {
        match self.place {
            Place::Idle => None,
            Place::Heads => None,
            Place::Response => self.status,
            Place::Closing => self.status,
            Place::Keeping => self.status,
            Place::Saying => self.status,
        }
    }

    /// Whether the request in hand lets the connection be kept.
    pub fn keeps(&self) -> bool
        ensures { result ≡ (asker_of self.now).keep }
    {
        self.asker.keep
    }

    /// Whether the server's stream has not ended.
    pub fn is_open(&self) -> bool
        requires { IsSoundSide self.now }
        ensures { result ≡ (seen self.now).is_open }
    {
        self.open
    }

    /// How many bytes of the server can be taken.
    pub fn room(&self) -> usize
        ensures { result ≡ (seen self.now).room }
    {
        self.lane.room()
    }

    /// Whether the request in hand is a HEAD (RFC 9110 section 9.3.2).
    pub fn asks_head(&self) -> bool
        ensures { result ≡ (asker_of self.now).head_asked }
    {
        self.asker.head_asked
    }

    /// Whether bytes wait for the client.
    pub fn has_to_client(&self) -> bool
        ensures { result ≡ not (is_empty (seen self.now).window) }
    {
        self.lane.output_len() > 0
    }

    /// The bytes that wait for the client.
    pub fn to_client(&mut self) -> &mut [u8]
        ensures* back { sem 𝓛 (LendsText self.entry result) }
        ensures value { result.now ≡ (seen self.old).window }
    {
        self.lane.output()
    }
}

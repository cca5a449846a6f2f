//! What is seen of the request direction.
ghost use Rattle.std.specs.Prelude.{◌≡◌, ℕ, List, true, not};
ghost use Rattle.session_core.specs.Sided.{HoldsList};
ghost use Rattle.session_core.specs.Waits.{is_empty};
ghost use Rattle.forward_core.specs.Request.Seen.{seen, place_of, is_open, room_of, window_of, array_of, line_of};
ghost use Rattle.forward_core.specs.Request.Edits.{framing_of, declared_of, close_of};
ghost use Rattle.forward_core.specs.Request.Stands.{RequestStands};
ghost use Rattle.forward_core.specs.declared.request.place.Place.TheVariants as place;
ghost use Rattle.px_sample.specs.Variables.{Variables};
ghost use Rattle.http_rules.specs.declared.config.Config.{Config};
ghost use Rattle.session_core.specs.History.{Coming, no_stream};
ghost use Rattle.session_core.specs.Sided.{Asking, Reply};

use crate::request::place::Place;
use crate::request::side::RequestSide;
use http_model::{Framing, Source};
use htx_arena::Arena;
use lane::Stage;

impl RequestSide {
    ghost use Rattle.std.specs.Borrow.{sem};
    ghost use Rattle.forward_core.specs.Request.Edits.{LendsHead, LendsText};

    /// What is made of the client's next request.
    pub fn place(&self) -> Place
        ensures { result ≡ place_of self.now }
    {
        self.place
    }

    /// How the body of the request stands that goes to a server.
    pub fn source(&self) -> Source
        ensures { result ≡ (seen self.now).source }
    {
        match self.place {
            Place::Sending => self.lane.source(),
            Place::Reading => Source::Cut(400),
            Place::Idle => Source::Cut(400),
            Place::Replied => Source::Cut(400),
        }
    }

    /// All of the request's text was put out, or is dropped.
    pub fn is_sent(&self) -> bool
        ensures { result ≡ (seen self.now).sent }
    {
        match self.place {
            Place::Sending => match self.lane.stage() {
                Stage::Done => true,
                Stage::Reading => false,
                Stage::Head => false,
                Stage::Sending => false,
            },
            Place::Reading => true,
            Place::Idle => true,
            Place::Replied => true,
        }
    }

    /// The client waits for a response head before it sends the body of the request in hand.
    pub fn awaits_continue(&self) -> bool
        ensures { result ≡ (seen self.now).awaits }
    {
        self.awaits
    }

    /// How many bytes of the client's stream can be taken.
    pub fn client_room(&self) -> usize
        ensures { result ≡ room_of self.now }
    {
        self.lane.room()
    }

    /// The bytes of the array on which rules run (HTX API).
    pub fn request_raw(&self) -> &[u8]
        ensures { HoldsList result.now (seen self.now).list }
    {
        self.lane.raw()
    }

    /// The method, one space and the target of the head that was read in this exchange, as they were received. Where none was
    /// read it is empty.
    pub fn request_line(&self) -> &[u8]
        ensures { result.now ≡ line_of self.now }
    {
        self.line.bytes()
    }

    /// The array in which the head stands that was read, for rules to edit.
    pub fn head(&mut self) -> &mut Arena
        ensures* back { sem 𝓛 (LendsHead self.entry result) }
        ensures value { result.now ≡ array_of self.old }
    {
        self.lane.head()
    }

    /// How the body of that head is framed where it comes from.
    pub fn framing(&self) -> Framing
        ensures { result ≡ framing_of self.now }
    {
        self.lane.framing()
    }

    /// The length that a field of that head declared, in bytes.
    pub fn declared(&self) -> Option<u64>
        ensures { result ≡ declared_of self.now }
    {
        self.lane.declared()
    }

    /// Whether a Connection element of that head was `close` (RFC 9112 section 9.6).
    pub fn close(&self) -> bool
        ensures { result ≡ close_of self.now }
    {
        self.lane.close()
    }

    /// Whether bytes wait for the server.
    pub fn has_to_server(&self) -> bool
        ensures { result ≡ not (is_empty (window_of self.now)) }
    {
        self.lane.output_len() > 0
    }

    /// The client's stream has not ended.
    pub fn client_is_open(&self) -> bool
        ensures { result ≡ is_open self.now }
    {
        self.lane.is_open()
    }

    /// Whether nothing of the client's stream has come since the exchange before.
    pub fn is_untouched(&self) -> bool
        requires reading { place_of self.now ≡ place.Reading }
        ensures untouched { result ≡ true → (cfg : Config) (vars : Variables) (came : Coming) (asking : Asking Variables) (to_server : List ℕ) (reply : Reply Variables)
            → RequestStands cfg self.now vars came asking to_server reply → came ≡ no_stream }
    {
        self.untouched && self.lane.is_open()
    }

    /// The bytes that wait for the server.
    pub fn to_server(&mut self) -> &mut [u8]
        ensures* back { sem 𝓛 (LendsText self.entry result) }
        ensures value { result.now ≡ window_of self.old }
    {
        self.lane.output()
    }
}

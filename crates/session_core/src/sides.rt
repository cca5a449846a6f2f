//! The two directions of a core, as it sees them.
ghost use Rattle.std.specs.Prelude.{◌≡◌, ◌≢◌, ◌≤◌, ◌<◌, ◌⊎◌, ◌++◌, ◌+◌, ◌-◌, [], ℕ, List, Bool, Option, true, false, not, nat_lt, length, take, drop, OnOk, IfOk, IsOk, IsTrue};
ghost use Rattle.session_model.specs.Meaning.{Meaning};
ghost use Rattle.session_core.specs.Consequences.{IsTotal};
ghost use Rattle.session_core.specs.History.{no_stream, gains, ends};
ghost use Rattle.std.specs.Borrow.{sem};
ghost use Rattle.session_core.specs.Sided.{Sided, asker_in, RequestSeen, AnswerSeen, Requests, AnswersSo, IsBefore, HoldsList};
ghost use Rattle.session_core.specs.Waits.{is_empty};
ghost use Rattle.session_core.specs.Place as place;
ghost use Rattle.session_core.specs.Place.{Place, is_saying, place_behind, IsSomewhere, IsAtServer, Stay};
ghost use Rattle.session_core.specs.Lending.{LendsText};
ghost use Rattle.session_core.specs.Resting.{IsUntouched};
ghost use Rattle.session_core.specs.Lines.{IsLineOf, LineAt};
ghost use Rattle.session_core.specs.Statuses.{StatusAt};
ghost use Rattle.session_core.specs.Leads.{StepsRequest, KeepsRequest, StepsAnswer, AnswerWaits, Says, Refuses, Turns, AsksTo, AskKeeps, Renews, RenewsReplied};

use crate::Told;
use http_model::{Ending, OutOfMemory, Source};

/// What the client's next request asks for.
#[derive(Clone, Copy)]
pub enum Asked {
    /// It hasn't come yet.
    More,
    /// The client asks for nothing more.
    Nothing,
    /// It is refused.
    Refuse,
    /// The rules reply, and whether the connection is kept behind it.
    Reply(bool),
    /// A server is to be opened for it.
    Send,
}

/// The two directions: their lanes, the rules and the variables. Contracts see what a core sees of each, and that the
/// directions stand for a past of the exchange in hand.
pub trait Works {
    /// The configuration.
    type Settings;

    ghost meaning: { Self.Settings → Meaning };

    /// The rules hold patterns, so matching takes memory.
    ghost needs: { Self.Settings → Bool };

    ghost request: { Self → RequestSeen };

    ghost answer: { Self → AnswerSeen };

    ghost stands: { (cfg : Self.Settings) → Self → Sided (meaning cfg) → Type 0 };

    /// Where they stand for a past, each stream of a client has a head's reading, and a head is at least one byte.
    ghost total: { (cfg : Self.Settings) (sides : Self) (p : Sided (meaning cfg)) → stands cfg sides p → IsTotal (meaning cfg) };

    /// They are sound, and stand at this place of the exchange in hand.
    ghost placed: { Self → Place → Type 0 };

    /// So many bytes of the server, whatever they are, go to the client at once where they come.
    ghost at_once: { Self → ℕ → Type 0 };

    /// They are so, with this text in place of the one that waits for the client, or for the server.
    ghost with_to_client: { Self → List ℕ → Self };

    ghost with_to_server: { Self → List ℕ → Self };

    // ---- what a core sees of the exchange in hand

    fn source(&self) -> Source
        requires placed { IsSomewhere (placed self.now) }
        ensures { result ≡ (request self.now).source };

    /// All of the request's text was put out, or is dropped.
    fn is_sent(&self) -> bool
        requires placed { IsSomewhere (placed self.now) }
        ensures { result ≡ (request self.now).sent };

    fn told(&self) -> Told
        requires placed { IsSomewhere (placed self.now) }
        ensures { result ≡ (answer self.now).told };

    /// All of the answer's text was put out.
    fn is_answered(&self) -> bool
        requires placed { IsSomewhere (placed self.now) }
        ensures { result ≡ (answer self.now).answered };

    /// A byte of the last that answers was put out.
    fn is_begun(&self) -> bool
        requires placed { IsSomewhere (placed self.now) }
        ensures { result ≡ (answer self.now).begun };

    /// The request in hand lets the connection be kept.
    fn keeps(&self) -> bool
        requires placed { IsSomewhere (placed self.now) }
        ensures { (cfg : Self.Settings) (p : Sided (meaning cfg)) → stands cfg self.now p → result ≡ (asker_in p.asking).keep };

    /// The client waits for a response head before it sends the body of the request in hand.
    fn awaits_continue(&self) -> bool
        requires placed { IsSomewhere (placed self.now) }
        ensures { result ≡ (request self.now).awaits };

    /// A response head was read.
    fn has_heard(&self) -> bool
        requires placed { IsSomewhere (placed self.now) }
        ensures { result ≡ (answer self.now).heard };

    /// In front of a head: of the client's stream nothing has come since the exchange before, and the variables are those with which a session begins.
    /// It may also answer false where that is so.
    fn is_untouched(&self) -> bool
        requires placed { placed self.now place.Reads }
        ensures untouched { result ≡ true → (cfg : Self.Settings) (p : Sided (meaning cfg)) → stands cfg self.now p → IsUntouched (meaning cfg) p };

    /// The status of the last that answers, once it is known which that is.
    fn status(&self) -> Option<u16>
        requires placed { IsSomewhere (placed self.now) }
        ensures { result ≡ (answer self.now).status };

    // ---- what it sees of streams and windows

    fn client_is_open(&self) -> bool
        requires placed { IsSomewhere (placed self.now) }
        ensures { result ≡ (request self.now).is_open };

    fn client_room(&self) -> usize
        requires placed { IsSomewhere (placed self.now) }
        ensures { result ≡ (request self.now).room };

    fn server_is_open(&self) -> bool
        requires placed { IsSomewhere (placed self.now) }
        ensures { result ≡ (answer self.now).is_open };

    fn server_room(&self) -> usize
        requires placed { IsSomewhere (placed self.now) }
        ensures { result ≡ (answer self.now).room };

    /// So many bytes of the server, whatever they are, go to the client at once where they come.
    fn at_once(&self) -> usize
        requires placed { IsSomewhere (placed self.now) }
        ensures goes { at_once self.now result };

    /// Bytes wait for the client.
    fn has_to_client(&self) -> bool
        requires placed { IsSomewhere (placed self.now) }
        ensures { result ≡ not (is_empty (answer self.now).window) };

    /// Bytes wait for the server.
    fn has_to_server(&self) -> bool
        requires placed { IsSomewhere (placed self.now) }
        ensures { result ≡ not (is_empty (request self.now).window) };

    /// The array on which request rules run.
    fn request_raw(&self) -> &[u8]
        requires placed { IsSomewhere (placed self.now) }
        ensures { HoldsList result.now (request self.now).list };

    /// The method, one space and the target of the request in hand, as they were received. Where no head was read it is empty.
    fn request_line(&self) -> &[u8]
        requires placed { IsSomewhere (placed self.now) }
        ensures { result.now ≡ (request self.now).line };

    // ---- the texts that wait, to be read alone

    /// The bytes that wait for the client, to be read alone.
    fn to_client(&mut self) -> &mut [u8]
        requires placed { IsSomewhere (placed self.old) }
        ensures* back { sem 𝓛 (LendsText Self.row self.entry result with_to_client) }
        ensures value { result.now ≡ (answer self.old).window };

    /// The bytes that wait for the server, to be read alone.
    fn to_server(&mut self) -> &mut [u8]
        requires placed { IsSomewhere (placed self.old) }
        ensures* back { sem 𝓛 (LendsText Self.row self.entry result with_to_server) }
        ensures value { result.now ≡ (request self.old).window };

    // ---- what peers give and take

    fn from_client(&mut self, bytes: &[u8])
        requires open { IsTrue (request self.old).is_open }
        requires room { length bytes.now ≤ (request self.old).room }
        requires placed { IsSomewhere (placed self.old) }
        ensures placed { Stay (placed self.old) (placed self.new) }
        ensures leads { (cfg : Self.Settings) (p : Sided (meaning cfg)) → stands cfg self.old p → stands cfg self.new (record p { came = gains p.came bytes.now }) }
        ensures request { (unread : ℕ) × (request self.new ≡ record (request self.old) { room = (request self.old).room - length bytes.now; unread = unread; at_rest = false }) }
        ensures answer { answer self.new ≡ answer self.old };

    fn client_ended(&mut self, how: Ending)
        requires open { IsTrue (request self.old).is_open }
        requires placed { IsSomewhere (placed self.old) }
        ensures placed { Stay (placed self.old) (placed self.new) }
        ensures leads { (cfg : Self.Settings) (p : Sided (meaning cfg)) → stands cfg self.old p → stands cfg self.new (record p { came = ends p.came how }) }
        ensures request { request self.new ≡ record (request self.old) { is_open = false; at_rest = false } }
        ensures answer { answer self.new ≡ answer self.old };

    fn client_took(&mut self, n: usize)
        requires within { n ≤ length (answer self.old).window }
        requires placed { IsSomewhere (placed self.old) }
        ensures placed { Stay (placed self.old) (placed self.new) }
        ensures leads { (cfg : Self.Settings) (p : Sided (meaning cfg)) → stands cfg self.old p → stands cfg self.new p }
        ensures request { request self.new ≡ request self.old }
        ensures answer { answer self.new ≡ record (answer self.old) { window = drop n (answer self.old).window; at_rest = false } };

    fn from_server(&mut self, bytes: &[u8])
        requires open { IsTrue (answer self.old).is_open }
        requires room { length bytes.now ≤ (answer self.old).room }
        requires placed { IsSomewhere (placed self.old) }
        ensures placed { Stay (placed self.old) (placed self.new) }
        ensures leads { (cfg : Self.Settings) (p : Sided (meaning cfg)) → stands cfg self.old p → stands cfg self.new (record p { server = gains p.server bytes.now }) }
        ensures request { request self.new ≡ request self.old }
        ensures answer { answer self.new ≡ record (answer self.old) { room = (answer self.old).room - length bytes.now; at_rest = false } };

    /// Bytes of the server come, and data at their front goes to the client at once; how many did. It is as if these had come
    /// and a step had put them out. The caller hands on the others.
    fn pass_data(&mut self, bytes: &[u8]) -> usize
        requires open { IsTrue (answer self.old).is_open }
        requires room { (length bytes.now ≤ (answer self.old).room) ⊎ at_once self.old (length bytes.now) }
        requires placed { placed self.old place.Serves }
        ensures within { result ≤ length bytes.now }
        ensures none { result ≡ 0 → self.new ≡ self.old }
        ensures placed { placed self.new place.Serves }
        ensures leads { 0 < result → (cfg : Self.Settings) (p : Sided (meaning cfg)) → stands cfg self.old p
            → StepsAnswer (meaning cfg) (stands cfg self.new) (answer self.old) (answer self.new) (record p { server = gains p.server (take result bytes.now) }) }
        ensures open { (answer self.new).is_open ≡ (answer self.old).is_open }
        ensures room { length bytes.now ≤ result + (answer self.new).room }
        ensures request { request self.new ≡ request self.old };

    fn server_ended(&mut self, how: Ending)
        requires open { IsTrue (answer self.old).is_open }
        requires placed { IsSomewhere (placed self.old) }
        ensures placed { Stay (placed self.old) (placed self.new) }
        ensures leads { (cfg : Self.Settings) (p : Sided (meaning cfg)) → stands cfg self.old p → stands cfg self.new (record p { server = ends p.server how }) }
        ensures request { request self.new ≡ request self.old }
        ensures answer { answer self.new ≡ record (answer self.old) { is_open = false; at_rest = false } };

    fn server_took(&mut self, n: usize)
        requires within { n ≤ length (request self.old).window }
        requires placed { IsSomewhere (placed self.old) }
        ensures placed { Stay (placed self.old) (placed self.new) }
        ensures leads { (cfg : Self.Settings) (p : Sided (meaning cfg)) → stands cfg self.old p → stands cfg self.new p }
        ensures request { request self.new ≡ record (request self.old) { window = drop n (request self.old).window; at_rest = false } }
        ensures answer { answer self.new ≡ answer self.old };

    /// The server takes nothing more: what stands in its window, and all that follows, is dropped. No block is left in the array on which
    /// request rules run.
    fn drop_request(&mut self)
        requires waits { (request self.old).window ≢ [] }
        requires placed { IsSomewhere (placed self.old) }
        ensures placed { Stay (placed self.old) (placed self.new) }
        ensures leads { (cfg : Self.Settings) (p : Sided (meaning cfg)) (put : List ℕ) → stands cfg self.old p → put ++ (request self.old).window ≡ p.to_server → stands cfg self.new (record p { to_server = put }) }
        ensures request { request self.new ≡ record (request self.old) { window = []; dropped = true; at_rest = false; list = [] } }
        ensures answer { answer self.new ≡ answer self.old };

    /// A server is open for the request in hand.
    fn open_server(&mut self)
        requires placed { placed self.old place.Opens }
        ensures placed { placed self.new place.Serves }
        ensures leads { (cfg : Self.Settings) (p : Sided (meaning cfg)) → stands cfg self.old p → stands cfg self.new (record p { server = no_stream }) }
        ensures answers { (cfg : Self.Settings) (p : Sided (meaning cfg)) → stands cfg self.old p → p.to_client ≡ [] → AnswersSo (meaning cfg) (answer self.new) (record p { server = no_stream }) }
        ensures request { request self.new ≡ request self.old }
        ensures open { (answer self.new).is_open ≡ true }
        ensures begun { (answer self.new).begun ≡ false }
        ensures heard { (answer self.new).heard ≡ false }
        ensures window { (answer self.new).window ≡ (answer self.old).window };

    // ---- what the directions do

    /// Reads the next request, runs its rules and finishes it.
    fn ask(&mut self) -> Result<Asked, OutOfMemory>
        requires placed { placed self.old place.Reads }
        ensures placed { IfOk result (λ asked. placed self.new (place_behind asked)) }
        ensures succeeds { (cfg : Self.Settings) (p : Sided (meaning cfg)) → stands cfg self.old p → needs cfg ≡ false → IsOk result }
        ensures leads { IfOk result (λ asked. (cfg : Self.Settings) (p : Sided (meaning cfg)) → stands cfg self.old p → AsksTo (meaning cfg) (stands cfg self.new) (request self.new) p asked) }
        ensures request { IfOk result (AskKeeps (request self.old) (request self.new)) }
        ensures window { OnOk result ((answer self.new).window ≡ (answer self.old).window) }
        ensures starts { OnOk result ((answer self.new).answered ≡ false) }
        ensures heard { OnOk result ((answer self.new).heard ≡ false) };

    /// Reads, filters and puts out as much of the request as there is room for, while a server is open for it.
    fn step_request(&mut self)
        requires placed { IsAtServer (placed self.old) }
        ensures placed { Stay (placed self.old) (placed self.new) }
        ensures leads { (cfg : Self.Settings) (p : Sided (meaning cfg)) → stands cfg self.old p → Requests (meaning cfg) (request self.old) p → StepsRequest (meaning cfg) (stands cfg self.new) (request self.old) (request self.new) p }
        ensures keeps { KeepsRequest (request self.old) (request self.new) }
        ensures answer { answer self.new ≡ answer self.old };

    /// Reads heads of the server, runs the rules on the final one, and puts out as much of the answer as there is room for.
    fn step_answer(&mut self) -> Result<(), OutOfMemory>
        requires placed { placed self.old place.Serves }
        ensures placed { OnOk result (placed self.new place.Serves) }
        ensures succeeds { (cfg : Self.Settings) (p : Sided (meaning cfg)) → stands cfg self.old p → needs cfg ≡ false → IsOk result }
        ensures leads { OnOk result ((cfg : Self.Settings) (p : Sided (meaning cfg)) → stands cfg self.old p → AnswersSo (meaning cfg) (answer self.old) p
            → StepsAnswer (meaning cfg) (stands cfg self.new) (answer self.old) (answer self.new) p) }
        ensures waits { OnOk result (AnswerWaits (answer self.new)) }
        ensures open { OnOk result ((answer self.new).is_open ≡ (answer self.old).is_open) }
        ensures request { request self.new ≡ request self.old };

    /// Begins the refusal of the request in hand, for which no server is open.
    fn refuse(&mut self, code: u16) -> Result<(), OutOfMemory>
        requires placed { placed self.old place.Opens }
        ensures placed { OnOk result (placed self.new place.Says) }
        ensures succeeds { (cfg : Self.Settings) (p : Sided (meaning cfg)) → stands cfg self.old p → needs cfg ≡ false → IsOk result }
        ensures leads { OnOk result ((cfg : Self.Settings) (p : Sided (meaning cfg)) → stands cfg self.old p → Refuses (meaning cfg) (stands cfg self.new) p code) }
        ensures request { OnOk result (request self.new ≡ request self.old) }
        ensures window { OnOk result ((answer self.new).window ≡ (answer self.old).window) }
        ensures starts { OnOk result ((answer self.new).answered ≡ false) };

    /// In place of the server's answer, which hasn't begun, the client is refused behind the interim heads, each whole. No
    /// rule runs on this refusal.
    fn turn(&mut self, code: u16)
        requires placed { placed self.old place.Serves }
        requires begun { (answer self.old).begun ≡ false }
        ensures placed { placed self.new place.Says }
        ensures leads { (cfg : Self.Settings) (p : Sided (meaning cfg)) → stands cfg self.old p → IsBefore (meaning cfg) p → Turns (meaning cfg) (stands cfg self.new) (answer self.new) p code }
        ensures request { request self.new ≡ request self.old }
        ensures window { (answer self.new).window ≡ (answer self.old).window }
        ensures open { (answer self.new).is_open ≡ (answer self.old).is_open };

    /// Puts out as much of a refusal or reply as there is room for.
    fn say(&mut self)
        requires placed { (at : Place) × (is_saying at ≡ true) × placed self.old at }
        ensures placed { (at : Place) → is_saying at ≡ true → placed self.old at → placed self.new at }
        ensures leads { (cfg : Self.Settings) (p : Sided (meaning cfg)) → stands cfg self.old p → Says (meaning cfg) (stands cfg self.new) (answer self.old) (answer self.new) p }
        ensures waits { (answer self.new).answered ≡ false → (answer self.new).window ≢ [] }
        ensures open { (answer self.new).is_open ≡ (answer self.old).is_open }
        ensures request { request self.new ≡ request self.old };

    /// The next exchange begins behind a request that came whole.
    fn next(&mut self)
        requires placed { placed self.old place.Serves }
        requires answered { (answer self.old).answered ≡ true }
        ensures placed { placed self.new place.Reads }
        ensures leads { (cfg : Self.Settings) (p : Sided (meaning cfg)) → stands cfg self.old p → Requests (meaning cfg) (request self.old) p → (request self.old).source ≡ Source.Whole → (request self.old).sent ≡ true
            → Renews (meaning cfg) (stands cfg self.new) (request self.old) p }
        ensures request { (request self.new).is_open ≡ (request self.old).is_open }
        ensures window { (request self.new).window ≡ [] }
        ensures unread { (request self.new).unread ≤ (request self.old).unread }
        ensures answer { (answer self.new).window ≡ (answer self.old).window };

    /// The next exchange begins behind a request that was replied to.
    fn next_replied(&mut self)
        requires placed { placed self.old place.Replies }
        requires answered { (answer self.old).answered ≡ true }
        ensures placed { placed self.new place.Reads }
        ensures leads { (cfg : Self.Settings) (p : Sided (meaning cfg)) → stands cfg self.old p → RenewsReplied (meaning cfg) (stands cfg self.new) p }
        ensures request { (request self.new).is_open ≡ (request self.old).is_open }
        ensures window { (request self.new).window ≡ [] }
        ensures unread { (request self.new).unread ≤ (request self.old).unread }
        ensures answer { (answer self.new).window ≡ (answer self.old).window };

    // ---- laws

    /// Of fewer bytes it is so too.
    ghost fewer_at_once: { (sides : Self) (most count : ℕ) → at_once sides most → count ≤ most → at_once sides count };

    ghost lends_to_client: { (sides : Self) → with_to_client sides (answer sides).window ≡ sides };

    ghost lends_to_server: { (sides : Self) → with_to_server sides (request sides).window ≡ sides };

    /// A refusal or a reply that goes out has begun exactly where less than all of it is left.
    ghost begins_so: { (cfg : Self.Settings) (sides : Self) (p : Sided (meaning cfg)) (at : Place) → stands cfg sides p → is_saying at ≡ true → placed sides at
        → (answer sides).begun ≡ nat_lt (length p.saying.left) (length p.saying.text) };

    /// The line that is told is that of the exchange in hand, or nothing.
    ghost line_is: { (cfg : Self.Settings) (sides : Self) (p : Sided (meaning cfg)) → stands cfg sides p → IsLineOf (meaning cfg) p.came (request sides).line };

    /// It is nothing in front of a head, and behind one only where none comes.
    ghost line_at: { (cfg : Self.Settings) (sides : Self) (p : Sided (meaning cfg)) (at : Place) → stands cfg sides p → placed sides at → LineAt at (meaning cfg) p.came (request sides).line };

    /// The status that is told is that of what the client is sent, by where they stand: none in front of an answer, and some once all text of it was put out.
    ghost status_at: { (cfg : Self.Settings) (sides : Self) (p : Sided (meaning cfg)) (at : Place) → stands cfg sides p → placed sides at → StatusAt at (answer sides) p };
}

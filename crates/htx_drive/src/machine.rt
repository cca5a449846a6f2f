//! A core, as its driver sees it: calls, wants and laws.
ghost use Rattle.std.specs.Prelude.{◌≡◌, ◌≤◌, ◌<◌, ◌⊎◌, [], ℕ, List, Option, Some, Bool, true, false, length, take, None, OnOk, IfOk, IsErr, ◌↔◌};
ghost use Rattle.http_model.specs.declared.Close.{Close};
ghost use Rattle.http_model.specs.declared.End.{End};
ghost use Rattle.session_model.specs.Meaning.{Meaning};
ghost use Rattle.session_core.specs.History.{Past, FromClient, ClientEnded, ClientTook, ServerOpened, FromServer, ServerEnded, ServerTook, ServerStopped, ServerClosed, Work};
ghost use Rattle.session_core.specs.Waits.{wants_any};
ghost use Rattle.session_core.specs.Consequences.{IsFinal, IsFront, out_of_past};
ghost use Rattle.session_core.specs.Drives.{WantsSay};
ghost use Rattle.std.specs.Borrow.{sem};
ghost use Rattle.session_core.specs.Lending.{LendsText};
ghost use Rattle.htx_drive.specs.Machine.{CoreSeen, WantsMean, Leads, TellsSo};

use px_link::{Close, End, Ending, OutOfMemory};
use session_core::{Wants, Worked};

/// A core: events lead its history on, and its wants tell the driver what it may do.
pub trait Machine {
    /// The configuration.
    type Settings;

    ghost meaning: { Self.Settings → Meaning };

    ghost stands: { (cfg : Self.Settings) → Self → Past → Type 0 };

    ghost seen: { Self → CoreSeen };

    /// It may be called: it is so from its making on, until `work` finds no memory.
    ghost sound: { Self → Type 0 };

    /// It rests between two exchanges: nothing of a further request has come, and nothing of it is to be kept but its count of exchanges.
    ghost rested: { Self → Type 0 };

    /// So many bytes of the server, whatever they are, may be given at once, though there may be less room.
    ghost at_once: { Self → ℕ → Type 0 };

    /// It is so, with this text in place of the one that waits for the client, or for the server.
    ghost with_to_client: { Self → List ℕ → Self };

    ghost with_to_server: { Self → List ℕ → Self };

    fn wants(&self) -> Wants
        requires sound { sound self.now }
        ensures { result ≡ (seen self.now).wants };

    fn client_room(&self) -> usize
        requires sound { sound self.now }
        ensures { result ≡ (seen self.now).client_room };

    fn server_room(&self) -> usize
        requires sound { sound self.now }
        ensures { result ≡ (seen self.now).server_room };

    /// So many bytes of the server, whatever they are, may be given at once, though there may be less room: they go to the client as they come.
    fn at_once(&self) -> usize
        requires sound { sound self.now }
        ensures goes { at_once self.now result };

    /// The bytes that wait for the client, to be read alone.
    fn to_client(&mut self) -> &mut [u8]
        requires sound { sound self.old }
        ensures* back { sem 𝓛 (LendsText Self.row self.entry result with_to_client) }
        ensures value { result.now ≡ (seen self.old).to_client };

    /// The bytes that wait for the server, to be read alone.
    fn to_server(&mut self) -> &mut [u8]
        requires sound { sound self.old }
        ensures* back { sem 𝓛 (LendsText Self.row self.entry result with_to_server) }
        ensures value { result.now ≡ (seen self.old).to_server };

    fn cut(&self) -> Option<bool>
        ensures { result ≡ (seen self.now).cut };

    fn exchanges(&self) -> u32
        ensures { result ≡ (seen self.now).exchanges };

    /// Whether it rests, as far as it can tell: no server is open then.
    fn rests(&self) -> bool
        requires sound { sound self.now }
        ensures rested { result ≡ true → rested self.now }
        ensures idle { result ≡ true → (seen self.now).serving ≡ false };

    /// The method, one space and the target of the request in hand, as they were received.
    fn request_line(&self) -> &[u8]
        requires sound { sound self.now }
        ensures { result.now ≡ (seen self.now).line };

    /// The status that the client is sent in the exchange in hand.
    fn status(&self) -> Option<u16>
        requires sound { sound self.now }
        ensures { result ≡ (seen self.now).status };

    fn from_client(&mut self, bytes: &[u8])
        requires wanted { (seen self.old).wants.client_read ≡ true }
        requires room { length bytes.now ≤ (seen self.old).client_room }
        requires sound { sound self.old }
        ensures sound { sound self.new }
        ensures leads { Leads stands self.old self.new (FromClient bytes.now) }
        ensures serving { (seen self.new).serving ≡ (seen self.old).serving };

    fn client_ended(&mut self, how: Ending)
        requires wanted { (seen self.old).wants.client_read ≡ true }
        requires sound { sound self.old }
        ensures sound { sound self.new }
        ensures leads { Leads stands self.old self.new (ClientEnded how) }
        ensures serving { (seen self.new).serving ≡ (seen self.old).serving };

    fn client_took(&mut self, n: usize)
        requires some { 0 < n }
        requires within { n ≤ length (seen self.old).to_client }
        requires sound { sound self.old }
        ensures sound { sound self.new }
        ensures leads { Leads stands self.old self.new (ClientTook (take n (seen self.old).to_client)) }
        ensures serving { (seen self.new).serving ≡ (seen self.old).serving };

    fn server_opened(&mut self, yes: bool)
        requires wanted { (seen self.old).wants.server_open ≡ true }
        requires sound { sound self.old }
        ensures sound { sound self.new }
        ensures leads { Leads stands self.old self.new (ServerOpened yes) }
        ensures serving { (seen self.new).serving ≡ yes };

    fn from_server(&mut self, bytes: &[u8])
        requires wanted { (seen self.old).wants.server_read ≡ true }
        requires room { (length bytes.now ≤ (seen self.old).server_room) ⊎ at_once self.old (length bytes.now) }
        requires sound { sound self.old }
        ensures sound { sound self.new }
        ensures leads { Leads stands self.old self.new (FromServer bytes.now) }
        ensures serving { (seen self.new).serving ≡ (seen self.old).serving };

    fn server_ended(&mut self, how: Ending)
        requires wanted { (seen self.old).wants.server_read ≡ true }
        requires sound { sound self.old }
        ensures sound { sound self.new }
        ensures leads { Leads stands self.old self.new (ServerEnded how) }
        ensures serving { (seen self.new).serving ≡ (seen self.old).serving };

    fn server_took(&mut self, n: usize)
        requires wanted { (seen self.old).wants.server_write ≡ true }
        requires some { 0 < n }
        requires within { n ≤ length (seen self.old).to_server }
        requires sound { sound self.old }
        ensures sound { sound self.new }
        ensures leads { Leads stands self.old self.new (ServerTook (take n (seen self.old).to_server)) }
        ensures serving { (seen self.new).serving ≡ (seen self.old).serving };

    fn server_stopped(&mut self)
        requires wanted { (seen self.old).wants.server_write ≡ true }
        requires sound { sound self.old }
        ensures sound { sound self.new }
        ensures leads { Leads stands self.old self.new ServerStopped }
        ensures serving { (seen self.new).serving ≡ (seen self.old).serving };

    fn server_closed(&mut self)
        requires wanted { (how : Close) × ((seen self.old).wants.server_close ≡ Some how) }
        requires sound { sound self.old }
        ensures sound { sound self.new }
        ensures leads { Leads stands self.old self.new ServerClosed }
        ensures serving { (seen self.new).serving ≡ false };

    fn work(&mut self) -> Result<(), OutOfMemory>
        requires sound { sound self.old }
        ensures sound { OnOk result (sound self.new) }
        ensures leads { OnOk result ((note : Option Bool) × Leads stands self.old self.new (Work note)) }
        ensures wants { OnOk result (wants_any (seen self.new).wants ≡ true) }
        ensures serving { OnOk result ((seen self.new).serving ≡ (seen self.old).serving) }
        ensures lost { IsErr result ↔ ((seen self.new).lost ≡ true) };

    /// The same up to the end of an exchange that is a refusal or a reply, which `end_said` ends.
    fn work_part(&mut self) -> Result<Worked, OutOfMemory>
        requires sound { sound self.old }
        ensures sound { OnOk result (sound self.new) }
        ensures leads { OnOk result ((note : Option Bool) × Leads stands self.old self.new (Work note)) }
        ensures wants { IfOk result (λ done. done ≡ Worked.Settled → wants_any (seen self.new).wants ≡ true) }
        ensures said { IfOk result (λ done. done ≡ Worked.Said → (seen self.new).whole ≡ true) }
        ensures serving { OnOk result ((seen self.new).serving ≡ (seen self.old).serving) }
        ensures lost { IsErr result ↔ ((seen self.new).lost ≡ true) };

    /// Ends the exchange of a refusal or a reply of which all text was put out. Where there is none it does nothing.
    fn end_said(&mut self)
        requires sound { sound self.old }
        ensures sound { sound self.new }
        ensures leads { Leads stands self.old self.new (Work None) }
        ensures serving { (seen self.new).serving ≡ (seen self.old).serving }
        ensures lost { (seen self.new).lost ≡ (seen self.old).lost };

    /// Of fewer bytes it is so too.
    ghost fewer_at_once: { (c : Self) (most count : ℕ) → at_once c most → count ≤ most → at_once c count };

    ghost lends_to_client: { (c : Self) → with_to_client c (seen c).to_client ≡ c };

    ghost lends_to_server: { (c : Self) → with_to_server c (seen c).to_server ≡ c };

    ghost wants_mean: { (c : Self) → WantsMean (seen c) };

    ghost wants_say: { (cfg : Self.Settings) (c : Self) (past : Past) → stands cfg c past → WantsSay (seen c).wants past };

    ghost cut_is_noted: { (cfg : Self.Settings) (c : Self) (past : Past) → stands cfg c past → (seen c).cut ≡ past.note };

    /// What is seen of the exchange in hand is so.
    ghost tells: { (cfg : Self.Settings) (c : Self) (past : Past) → stands cfg c past → sound c → TellsSo (meaning cfg) past (seen c) };

    /// Where a server's link is to be closed, all text of the answer was put out.
    ghost close_is_whole: { (c : Self) (how : Close) → (seen c).wants.server_close ≡ Some how → (seen c).whole ≡ true };

    /// Where a session is over, what was put out is its session, whatever the open streams go on to give.
    ghost over_is_the_session: { (cfg : Self.Settings) (c : Self) (past : Past) (how : End) → stands cfg c past → (seen c).wants.over ≡ Some how → IsFinal (meaning cfg) past (out_of_past past past.taken (seen c).exchanges how) };

    /// At every moment what was taken is a front.
    ghost taken_is_a_front: { (cfg : Self.Settings) (c : Self) (past : Past) → stands cfg c past → IsFront (meaning cfg) past [] [] (seen c).begun };
}

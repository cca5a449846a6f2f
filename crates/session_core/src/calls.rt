//! What peers give and take: the calls that a driver makes.
ghost use Rattle.std.specs.Prelude.{◌≡◌, ◌≢◌, ◌≤◌, ◌<◌, ◌+◌, ◌⊎◌, [], length, take, IsTrue, Bool, true, false};
ghost use Rattle.session_core.specs.History.{FromClient, ClientEnded, ClientTook, ServerOpened, FromServer, ServerEnded, ServerTook, ServerStopped, ServerClosed};
ghost use Rattle.session_core.specs.Waits.{is_serving, IsAtOnce};
ghost use Rattle.session_core.specs.Leads.{Leads};
ghost use Rattle.session_core.specs.Place.{IsPlaced};

use crate::Phase;
use crate::machine::Core;
use crate::sides::Works;
use http_model::Ending;

impl<S: Works> Core<S> {
    /// The client gives these bytes.
    pub fn from_client(&mut self, bytes: &[u8])
        requires open { IsTrue (S.request self.old.sides).is_open }
        requires room { length bytes.now ≤ (S.request self.old.sides).room }
        requires placed { IsPlaced (S.placed self.old.sides) (S.answer self.old.sides) self.old.at.phase self.old.at.cut }
        ensures placed { IsPlaced (S.placed self.new.sides) (S.answer self.new.sides) self.new.at.phase self.new.at.cut }
        ensures leads { Leads S.meaning S.request S.answer S.stands self.old.sides self.old.at self.new.sides self.new.at (FromClient bytes.now) }
        ensures serving { is_serving self.new.at.phase ≡ is_serving self.old.at.phase }
        ensures lost { self.new.lost ≡ self.old.lost }
    {
        self.sides.from_client(bytes);
    }

    /// The client's stream has ended.
    pub fn client_ended(&mut self, how: Ending)
        requires open { IsTrue (S.request self.old.sides).is_open }
        requires placed { IsPlaced (S.placed self.old.sides) (S.answer self.old.sides) self.old.at.phase self.old.at.cut }
        ensures placed { IsPlaced (S.placed self.new.sides) (S.answer self.new.sides) self.new.at.phase self.new.at.cut }
        ensures leads { Leads S.meaning S.request S.answer S.stands self.old.sides self.old.at self.new.sides self.new.at (ClientEnded how) }
        ensures serving { is_serving self.new.at.phase ≡ is_serving self.old.at.phase }
        ensures lost { self.new.lost ≡ self.old.lost }
    {
        self.sides.client_ended(how);
    }

    /// The client took so many bytes of its output window.
    pub fn client_took(&mut self, n: usize)
        requires within { n ≤ length (S.answer self.old.sides).window }
        requires placed { IsPlaced (S.placed self.old.sides) (S.answer self.old.sides) self.old.at.phase self.old.at.cut }
        ensures placed { IsPlaced (S.placed self.new.sides) (S.answer self.new.sides) self.new.at.phase self.new.at.cut }
        ensures leads { Leads S.meaning S.request S.answer S.stands self.old.sides self.old.at self.new.sides self.new.at (ClientTook (take n (S.answer self.old.sides).window)) }
        ensures serving { is_serving self.new.at.phase ≡ is_serving self.old.at.phase }
        ensures lost { self.new.lost ≡ self.old.lost }
    {
        self.sides.client_took(n);
    }

    /// A server was opened, or was refused.
    pub fn server_opened(&mut self, yes: bool)
        requires phase { self.old.at.phase ≡ Phase.Opening }
        requires placed { IsPlaced (S.placed self.old.sides) (S.answer self.old.sides) self.old.at.phase self.old.at.cut }
        ensures placed { IsPlaced (S.placed self.new.sides) (S.answer self.new.sides) self.new.at.phase self.new.at.cut }
        ensures leads { Leads S.meaning S.request S.answer S.stands self.old.sides self.old.at self.new.sides self.new.at (ServerOpened yes) }
        ensures serving { is_serving self.new.at.phase ≡ yes }
        ensures lost { self.new.lost ≡ self.old.lost }
    {
        if yes {
            self.sides.open_server();
            self.at.phase = Phase::Serving;
        } else {
            self.at.phase = Phase::Unserved;
        }
    }

    /// The server gives these bytes. Data at their front goes to the client at once where nothing is to be done with it. So they may be more than there
    /// is room for, where all of them surely go so.
    pub fn from_server(&mut self, bytes: &[u8])
        requires serving { self.old.at.phase ≡ Phase.Serving }
        requires open { IsTrue (S.answer self.old.sides).is_open }
        requires room { (length bytes.now ≤ (S.answer self.old.sides).room) ⊎ IsAtOnce (S.at_once self.old.sides) self.old.at.cut (length bytes.now) }
        requires placed { IsPlaced (S.placed self.old.sides) (S.answer self.old.sides) self.old.at.phase self.old.at.cut }
        ensures placed { IsPlaced (S.placed self.new.sides) (S.answer self.new.sides) self.new.at.phase self.new.at.cut }
        ensures leads { Leads S.meaning S.request S.answer S.stands self.old.sides self.old.at self.new.sides self.new.at (FromServer bytes.now) }
        ensures serving { is_serving self.new.at.phase ≡ is_serving self.old.at.phase }
        ensures lost { self.new.lost ≡ self.old.lost }
    {
        let passed = self.pass_data(bytes);
        self.take_in(&bytes[passed..]);
    }

    /// Data at the front goes to the client at once; how many bytes did.
    fn pass_data(&mut self, bytes: &[u8]) -> usize
        requires serving { self.old.at.phase ≡ Phase.Serving }
        requires open { IsTrue (S.answer self.old.sides).is_open }
        requires room { (length bytes.now ≤ (S.answer self.old.sides).room) ⊎ IsAtOnce (S.at_once self.old.sides) self.old.at.cut (length bytes.now) }
        requires placed { IsPlaced (S.placed self.old.sides) (S.answer self.old.sides) self.old.at.phase self.old.at.cut }
        ensures within { result ≤ length bytes.now }
        ensures none { result ≡ 0 → self.new ≡ self.old }
        ensures placed { IsPlaced (S.placed self.new.sides) (S.answer self.new.sides) self.new.at.phase self.new.at.cut }
        ensures leads { 0 < result → Leads S.meaning S.request S.answer S.stands self.old.sides self.old.at self.new.sides self.new.at (FromServer (take result bytes.now)) }
        ensures open { IsTrue (S.answer self.new.sides).is_open }
        ensures room { length bytes.now ≤ result + (S.answer self.new.sides).room }
        ensures at { self.new.at ≡ self.old.at }
        ensures lost { self.new.lost ≡ self.old.lost }
    {
        if self.is_turned() {
            return 0;
        }
        self.sides.pass_data(bytes)
    }

    /// Bytes of the server come, and wait for the work with them.
    fn take_in(&mut self, bytes: &[u8])
        requires serving { self.old.at.phase ≡ Phase.Serving }
        requires open { IsTrue (S.answer self.old.sides).is_open }
        requires room { length bytes.now ≤ (S.answer self.old.sides).room }
        requires placed { IsPlaced (S.placed self.old.sides) (S.answer self.old.sides) self.old.at.phase self.old.at.cut }
        ensures placed { IsPlaced (S.placed self.new.sides) (S.answer self.new.sides) self.new.at.phase self.new.at.cut }
        ensures leads { Leads S.meaning S.request S.answer S.stands self.old.sides self.old.at self.new.sides self.new.at (FromServer bytes.now) }
        ensures serving { is_serving self.new.at.phase ≡ is_serving self.old.at.phase }
        ensures lost { self.new.lost ≡ self.old.lost }
    {
        self.sides.from_server(bytes);
    }

    /// The server's stream has ended.
    pub fn server_ended(&mut self, how: Ending)
        requires serving { self.old.at.phase ≡ Phase.Serving }
        requires open { IsTrue (S.answer self.old.sides).is_open }
        requires placed { IsPlaced (S.placed self.old.sides) (S.answer self.old.sides) self.old.at.phase self.old.at.cut }
        ensures placed { IsPlaced (S.placed self.new.sides) (S.answer self.new.sides) self.new.at.phase self.new.at.cut }
        ensures leads { Leads S.meaning S.request S.answer S.stands self.old.sides self.old.at self.new.sides self.new.at (ServerEnded how) }
        ensures serving { is_serving self.new.at.phase ≡ is_serving self.old.at.phase }
        ensures lost { self.new.lost ≡ self.old.lost }
    {
        self.sides.server_ended(how);
    }

    /// The server took so many bytes of its output window.
    pub fn server_took(&mut self, n: usize)
        requires serving { self.old.at.phase ≡ Phase.Serving }
        requires within { n ≤ length (S.request self.old.sides).window }
        requires placed { IsPlaced (S.placed self.old.sides) (S.answer self.old.sides) self.old.at.phase self.old.at.cut }
        ensures placed { IsPlaced (S.placed self.new.sides) (S.answer self.new.sides) self.new.at.phase self.new.at.cut }
        ensures leads { Leads S.meaning S.request S.answer S.stands self.old.sides self.old.at self.new.sides self.new.at (ServerTook (take n (S.request self.old.sides).window)) }
        ensures serving { is_serving self.new.at.phase ≡ is_serving self.old.at.phase }
        ensures lost { self.new.lost ≡ self.old.lost }
    {
        self.sides.server_took(n);
    }

    /// The server takes nothing more: what waits for it, and all that follows, is dropped. No block is left in the array on which request
    /// rules run.
    pub fn server_stopped(&mut self)
        requires serving { self.old.at.phase ≡ Phase.Serving }
        requires waits { (S.request self.old.sides).window ≢ [] }
        requires placed { IsPlaced (S.placed self.old.sides) (S.answer self.old.sides) self.old.at.phase self.old.at.cut }
        ensures placed { IsPlaced (S.placed self.new.sides) (S.answer self.new.sides) self.new.at.phase self.new.at.cut }
        ensures leads { Leads S.meaning S.request S.answer S.stands self.old.sides self.old.at self.new.sides self.new.at ServerStopped }
        ensures list { (S.request self.new.sides).list ≡ [] }
        ensures serving { is_serving self.new.at.phase ≡ is_serving self.old.at.phase }
        ensures lost { self.new.lost ≡ self.old.lost }
    {
        self.sides.drop_request();
    }

    /// The server's link was closed.
    pub fn server_closed(&mut self)
        requires serving { self.old.at.phase ≡ Phase.Serving }
        requires sent { IsTrue (S.request self.old.sides).sent }
        requires taken { (S.request self.old.sides).window ≡ [] }
        requires answered { IsTrue (S.answer self.old.sides).answered }
        requires placed { IsPlaced (S.placed self.old.sides) (S.answer self.old.sides) self.old.at.phase self.old.at.cut }
        ensures placed { IsPlaced (S.placed self.new.sides) (S.answer self.new.sides) self.new.at.phase self.new.at.cut }
        ensures leads { Leads S.meaning S.request S.answer S.stands self.old.sides self.old.at self.new.sides self.new.at ServerClosed }
        ensures serving { is_serving self.new.at.phase ≡ false }
        ensures lost { self.new.lost ≡ self.old.lost }
    {
        self.at.phase = Phase::Served;
    }
}

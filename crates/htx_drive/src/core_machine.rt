//! The core of a session, whatever its two directions, as a driver's machine.
ghost use Rattle.std.specs.Prelude.{◌<◌};

use crate::Machine;
use crate::weave::{Resets, ResetsFor};
use px_link::{Ending, OutOfMemory};
use px_peer::Peer;
use session_core::{Core, Renewable, RenewableFor, Wants, Worked, Works};

impl<S: Works> Machine for Core<S> {
    type Settings = S::Settings;

    ghost use Rattle.session_core.specs.Leads.{Stands};
    ghost use Rattle.session_core.specs.Waits.{IsAtOnce};
    ghost use Rattle.session_core.specs.Place.{IsPlaced};
    ghost use Rattle.session_core.specs.Resting.{IsRested};
    ghost use Rattle.htx_drive.specs.Cores.{core_seen, core_means, core_says, core_noted, core_tells, core_closes, core_over, core_front, core_lends, core_takes_fewer};

    ghost meaning = { S.meaning };

    ghost stands = { λ cfg core past. Stands (S.meaning cfg) S.request S.answer (S.stands cfg) core.sides core.at past };

    ghost seen = { λ core. core_seen (S.request core.sides) (S.answer core.sides) core.at core.lost };

    ghost sound = { λ core. IsPlaced (S.placed core.sides) (S.answer core.sides) core.at.phase core.at.cut };

    ghost rested = { λ core. IsRested S.meaning S.answer S.stands core.sides core.at };

    ghost at_once = { λ core. IsAtOnce (S.at_once core.sides) core.at.cut };

    ghost with_to_client = { λ core text. record core { sides = S.with_to_client core.sides text } };

    ghost with_to_server = { λ core text. record core { sides = S.with_to_server core.sides text } };

    #[inline(always)]
    fn wants(&self) -> Wants {
        self.wants()
    }

    fn client_room(&self) -> usize {
        self.client_room()
    }

    fn server_room(&self) -> usize {
        self.server_room()
    }

    fn at_once(&self) -> usize {
        self.at_once()
    }

    fn to_client(&mut self) -> &mut [u8] {
        self.to_client()
    }

    fn to_server(&mut self) -> &mut [u8] {
        self.to_server()
    }

    fn cut(&self) -> Option<bool> {
        self.cut()
    }

    fn exchanges(&self) -> u32 {
        self.exchanges()
    }

    fn rests(&self) -> bool {
        self.rests()
    }

    fn request_line(&self) -> &[u8] {
        self.request_line()
    }

    fn status(&self) -> Option<u16> {
        self.status()
    }

    fn from_client(&mut self, bytes: &[u8]) {
        self.from_client(bytes);
    }

    fn client_ended(&mut self, how: Ending) {
        self.client_ended(how);
    }

    fn client_took(&mut self, n: usize) {
        self.client_took(n);
    }

    fn server_opened(&mut self, yes: bool) {
        self.server_opened(yes);
    }

    fn from_server(&mut self, bytes: &[u8]) {
        self.from_server(bytes);
    }

    fn server_ended(&mut self, how: Ending) {
        self.server_ended(how);
    }

    fn server_took(&mut self, n: usize) {
        self.server_took(n);
    }

    fn server_stopped(&mut self) {
        self.server_stopped();
    }

    fn server_closed(&mut self) {
        self.server_closed();
    }

    fn work(&mut self) -> Result<(), OutOfMemory> {
        self.work()
    }

    fn work_part(&mut self) -> Result<Worked, OutOfMemory> {
        self.work_part()
    }

    fn end_said(&mut self) {
        self.end_said();
    }

    ghost fewer_at_once = { λ core most count goes fewer. core_takes_fewer (S.at_once core.sides) (λ more. S.fewer_at_once core.sides more) core.at.cut most count goes fewer };

    ghost lends_to_client = { λ core. core_lends (λ sides. record core { sides = sides }) (S.lends_to_client core.sides) };

    ghost lends_to_server = { λ core. core_lends (λ sides. record core { sides = sides }) (S.lends_to_server core.sides) };

    ghost wants_mean = { λ core. core_means (S.request core.sides) (S.answer core.sides) core.at core.lost };

    ghost wants_say = { λ cfg core past s. core_says (S.meaning cfg) S.request S.answer (S.stands cfg) core.sides core.at past s };

    ghost cut_is_noted = { λ cfg core past s. core_noted (S.meaning cfg) S.request S.answer (S.stands cfg) core.sides core.at past s };

    ghost tells = { λ cfg core past s here. core_tells (S.meaning cfg) S.request S.answer (S.stands cfg) (S.placed core.sides) core.sides core.at core.lost past s here (S.line_is cfg core.sides) (S.line_at cfg core.sides) (S.status_at cfg core.sides) };

    ghost close_is_whole = { λ core how closes. core_closes (S.request core.sides) (S.answer core.sides) core.at how closes };

    ghost over_is_the_session = { λ cfg core past how s over. core_over (S.meaning cfg) S.request S.answer (S.stands cfg) core.sides core.at past how s over };

    ghost taken_is_a_front = { λ cfg core past s. core_front (S.meaning cfg) (S.total cfg core.sides s.sided s.stand) S.request S.answer (S.stands cfg) core.sides core.at past s };
}

impl<S: Renewable> Resets for Core<S> {
    fn reset(&mut self) {
        self.reset();
    }
}

impl<S: RenewableFor> ResetsFor for Core<S> {
    ghost for_peer = { S.for_peer };

    fn reset_for(&mut self, peer: Option<Peer>) {
        self.reset_for(peer);
    }

    fn resume_for(&mut self, peer: Option<Peer>, exchanges: u32) {
        self.resume_for(peer, exchanges);
    }
}

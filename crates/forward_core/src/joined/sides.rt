//! Both directions as a core sees them.
ghost use Rattle.std.specs.Prelude.{◌≡◌};

use crate::answer::laws::statuses;
use crate::joined::directions::Directions;
use crate::joined::saying;
use crate::request::laws::total;
use http_model::{Ending, OutOfMemory, Source};
use http_rules::Config;
use px_peer::Peer;
use session_core::{Asked, Renewable, RenewableFor, Told, Works};

impl<'c> Works for Directions<'c> {
    /// The configuration, and how many bytes an output window has.
    type Settings = (Config, u32);

    ghost use Rattle.forward_core.specs.Meaning.Product.{meaning_of};
    ghost use Rattle.forward_core.specs.Rules.Ruling.{holds_pattern};
    ghost use Rattle.forward_core.specs.Joined.Joined.{SessionStands, Placed, request_of, answer_of};
    ghost use Rattle.forward_core.specs.Joined.Lent.{with_to_client, with_to_server, LendsToClient, LendsToServer, client_lent, server_lent};
    ghost use Rattle.forward_core.specs.Answer.AtOnce.{TakesAtOnce, fewer_at_once};
    ghost use Rattle.std.specs.Borrow.{sem};
    ghost use Rattle.forward_core.specs.Joined.Begins.{begins};
    ghost use Rattle.forward_core.specs.Joined.Tells.{line_is, line_at};
    ghost use Rattle.forward_core.specs.Joined.Statuses.{status_at};

    ghost meaning = { λ settings. meaning_of settings.0 };

    ghost total = { λ settings d p s. s.directions.laws.total };

    ghost needs = { λ settings. holds_pattern settings.0 };

    ghost request = { request_of };

    ghost answer = { answer_of };

    ghost stands = { SessionStands };

    ghost placed = { Placed };

    ghost at_once = { λ d. TakesAtOnce d.answer };

    ghost with_to_client = { with_to_client };

    ghost with_to_server = { with_to_server };

    fn source(&self) -> Source {
        self.request.source()
    }

    fn is_sent(&self) -> bool {
        self.request.is_sent()
    }

    fn told(&self) -> Told {
        self.answer.told()
    }

    fn is_answered(&self) -> bool {
        self.answer.is_answered()
    }

    fn is_begun(&self) -> bool {
        self.answer.is_begun()
    }

    fn keeps(&self) -> bool {
        self.answer.keeps()
    }

    fn awaits_continue(&self) -> bool {
        self.request.awaits_continue()
    }

    fn has_heard(&self) -> bool {
        self.answer.has_heard()
    }

    fn is_untouched(&self) -> bool {
        self.request.is_untouched() && self.rules.is_as_begun()
    }

    fn status(&self) -> Option<u16> {
        self.answer.status()
    }

    fn client_is_open(&self) -> bool {
        self.request.client_is_open()
    }

    fn client_room(&self) -> usize {
        self.request.client_room()
    }

    fn server_is_open(&self) -> bool {
        self.answer.is_open()
    }

    fn server_room(&self) -> usize {
        self.answer.room()
    }

    fn at_once(&self) -> usize {
        self.answer.at_once()
    }

    fn has_to_client(&self) -> bool {
        self.answer.has_to_client()
    }

    fn has_to_server(&self) -> bool {
        self.request.has_to_server()
    }

    fn request_raw(&self) -> &[u8] {
        self.request.request_raw()
    }

    fn request_line(&self) -> &[u8] {
        self.request.request_line()
    }

    fn to_client(&mut self) -> &mut [u8]
        ensures* back { sem 𝓛 (LendsToClient self.entry result) }
        ensures value { result.now ≡ (answer_of self.old).window }
    {
        self.answer.to_client()
    }

    fn to_server(&mut self) -> &mut [u8]
        ensures* back { sem 𝓛 (LendsToServer self.entry result) }
        ensures value { result.now ≡ (request_of self.old).window }
    {
        self.request.to_server()
    }

    fn from_client(&mut self, bytes: &[u8]) {
        self.request.from_client(bytes);
    }

    fn client_ended(&mut self, how: Ending) {
        self.request.client_ended(how);
    }

    fn client_took(&mut self, n: usize) {
        self.answer.client_took(n);
    }

    fn from_server(&mut self, bytes: &[u8]) {
        self.answer.from_server(bytes);
    }

    fn pass_data(&mut self, bytes: &[u8]) -> usize {
        crate::answer::laws::answers();
        crate::answer::laws::comes_before();
        self.answer.pass_data(bytes)
    }

    fn server_ended(&mut self, how: Ending) {
        self.answer.server_ended(how);
    }

    fn server_took(&mut self, n: usize) {
        self.request.server_took(n);
    }

    fn drop_request(&mut self) {
        self.request.drop_request();
    }

    fn open_server(&mut self) {
        crate::answer::laws::answers();
        self.rules.begin_answer();
        self.answer.open_server();
    }

    fn ask(&mut self) -> Result<Asked, OutOfMemory> {
        self.ask_next()
    }

    fn step_request(&mut self) {
        crate::request::laws::requests();
        self.request.step_request();
    }

    fn step_answer(&mut self) -> Result<(), OutOfMemory> {
        crate::answer::laws::answers();
        crate::answer::laws::comes_before();
        self.answer
            .step_answer(&mut self.rules, self.method.bytes())?;
        Ok(())
    }

    fn refuse(&mut self, code: u16) -> Result<(), OutOfMemory> {
        let no_body = self.answer.asks_head();
        saying::refuse(
            &mut self.answer,
            &mut self.rules,
            self.method.bytes(),
            code,
            no_body,
        )?;
        Ok(())
    }

    fn turn(&mut self, code: u16) {
        crate::answer::laws::lists();
        self.rules.say_closing(code);
        // called for its clause alone: the list weighs no more than its array, so the answer direction can take it
        let said = self.rules.said.arena();
        let _room = said.room();
        self.answer.turn_to(said);
    }

    fn say(&mut self) {
        self.answer.say();
    }

    fn next(&mut self) {
        crate::request::laws::came_whole();
        self.request.next();
        self.answer.next();
        self.rules.begin_exchange();
    }

    fn next_replied(&mut self) {
        crate::request::laws::came_replied();
        self.request.next();
        self.answer.next();
        self.rules.begin_exchange();
    }

    ghost fewer_at_once = { λ d most count goes fewer. fewer_at_once d.answer most count goes fewer };

    ghost lends_to_client = { client_lent };

    ghost lends_to_server = { server_lent };

    ghost begins_so = { λ settings d p at s says placed. begins settings.0 d p at s.directions says placed };

    ghost line_is = { λ settings d p s. line_is settings.0 d p s.directions };

    ghost line_at = { λ settings d p at s placed. line_at settings.0 d p at s.directions placed };

    ghost status_at = { λ settings d p at s placed. status_at settings.0 d p at s.directions placed };
}

impl<'c> Renewable for Directions<'c> {
    // the bytes of the memory stay as they are until others are written over them
    fn renew(&mut self) {
        self.request.renew();
        self.answer.renew();
        let peer = self.rules.peer();
        self.rules.renew_for(peer, &mut self.method);
    }
}

impl<'c> RenewableFor for Directions<'c> {
    ghost for_peer = { λ settings peer. (record settings.0 { peer = peer }, settings.1) };

    fn renew_for(&mut self, peer: Option<Peer>) {
        total();
        statuses();
        self.request.renew();
        self.answer.renew();
        self.rules.renew_for(peer, &mut self.method);
    }
}

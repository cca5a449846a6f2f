//! The rules of a session on the heads of its messages, and the lives of its variables.
ghost use Rattle.std.specs.Prelude.{◌≡◌, ◌≤◌, [], false, true, List, ℕ, IfOk, IsOk};
ghost use Rattle.http_model.specs.Head.{Head, head_blocks, front_blocks};
ghost use Rattle.session_model.specs.Env.{request_env, response_env};
ghost use Rattle.http_rules.specs.declared.action.side.Side.TheVariants as sides;
ghost use Rattle.http_rules.specs.Lives.{renewed, answering};
ghost use Rattle.http_rules.specs.Run.{IsHead, Leaves};
ghost use Rattle.http_rules.specs.Valid.{IsValid};
ghost use Rattle.forward_core.specs.Meaning.Product.{meaning_of};
ghost use Rattle.forward_core.specs.Meaning.Beginning.{beginning};
ghost use Rattle.forward_core.specs.Rules.Steady.{IsSteady};

use crate::rules::beginning::begin_with;
use crate::rules::steady::is_steady;
use http_model::OutOfMemory;
use http_rules::{
    Config, Scratch, Vars, Verdict, begin_answer, begin_exchange, body_stays, run_after,
    run_request, run_response,
};
use htx_arena::{Arena, LateArena};
use px_peer::Peer;
use px_sample::{Buf, Scope};
use std::alloc::Global;

/// The rules of a configuration in one session.
pub struct SessionRules<'c> {
    /// The variables of the four scopes.
    pub vars: Vars,
    /// What is said to the client in place of a server's answer. Its memory waits until something is.
    pub said: LateArena,
    config: &'c Config,
    /// Whose session it is.
    peer: Option<Peer>,
    scratch: Scratch,
    /// No rule sets a variable of the session, or takes one out.
    steady: bool,
    /// The variables of the session are those with which it began. It may be false where they are.
    begun: bool,
    /// No other variables are there. It may be false where none are.
    clear: bool,
}

impl Drop for SessionRules<'_> {
    fn drop(self) {
        let SessionRules {
            vars: _,
            said: _,
            config: _,
            peer: _,
            scratch: _,
            steady: _,
            begun: _,
            clear: _,
        } = self;
    }
}

ghost use Rattle.forward_core.specs.Rules.Ruling.{IsReady, config_of, size_of, holds_pattern, is_pass, AmendsHead, AmendsFront};

/// Whether rules passed.
fn passed(verdict: Verdict) -> bool
    ensures { result ≡ is_pass verdict }
{
    match verdict {
        Verdict::Pass => true,
        Verdict::Reply | Verdict::Deny(_) | Verdict::Fail(_) => false,
    }
}

impl<'c> SessionRules<'c> {
    /// The rules of a session that begins: the variables are those of its peer, nothing is said. Beside rules with patterns, this
    /// call alone takes memory. The buffer is for the address.
    pub fn new(
        alloc: Global,
        config: &'c Config,
        text: &mut Buf,
    ) -> Result<SessionRules<'c>, OutOfMemory>
        requires valid { IsValid config.now }
        requires room { 40 ≤ text.old.cap }
        ensures ready { IfOk result IsReady }
        ensures config { IfOk result (λ rules. config_of rules ≡ config.now) }
        ensures vars { IfOk result (λ rules. rules.vars ≡ beginning config.now.peer) }
        ensures said { IfOk result (λ rules. rules.said.blocks ≡ []) }
        ensures cap { text.new.cap ≡ text.old.cap }
    {
        let said = LateArena::new(alloc, config.limits.bufsize)?;
        let scratch = Scratch::new(alloc, config.limits.bufsize)?;
        let mut vars = Vars::new(alloc)?;
        begin_with(&mut vars, config.peer, text);
        Ok(SessionRules {
            said,
            scratch,
            vars,
            config,
            peer: config.peer,
            steady: is_steady(config),
            begun: true,
            clear: true,
        })
    }

    /// As new ones for a session of this peer, in the same memory: the variables are those
    /// of the peer, nothing is said. The buffer is for the address.
    #[tactic(auto, using(crate::proofs::RulesLemmas::Peers::peers))]
    pub fn renew_for(&mut self, peer: Option<Peer>, text: &mut Buf)
        requires ready { IsReady self.old }
        requires room { 40 ≤ text.old.cap }
        ensures ready { IsReady self.new }
        ensures config { config_of self.new ≡ record (config_of self.old) { peer = peer } }
        ensures vars { self.new.vars ≡ beginning peer }
        ensures said { self.new.said.blocks ≡ [] }
        ensures empty { text.new.bytes ≡ [] }
        ensures cap { text.new.cap ≡ text.old.cap }
    {
        self.begun = false;
        self.peer = peer;
        self.begin_exchange();
        self.vars.clear(Scope::Sess);
        begin_with(&mut self.vars, peer, text);
        self.begun = true;
        self.clear = true;
        self.said.clear();
    }

    /// Whose session it is.
    pub fn peer(&self) -> Option<Peer>
        ensures { result ≡ (config_of self.now).peer }
    {
        self.peer
    }

    /// The configuration, whose own peer doesn't count.
    pub fn config(&self) -> &'c Config
        ensures { record result.now { peer = (config_of self.now).peer } ≡ config_of self.now }
    {
        self.config
    }

    /// Whether the variables are those with which the session began. It may answer false where they are.
    pub fn is_as_begun(&self) -> bool
        requires ready { IsReady self.now }
        ensures begun { result ≡ true → self.now.vars ≡ beginning (config_of self.now).peer }
    {
        self.begun && self.clear
    }

    /// Before the rules of a request: the variables of the session go on, the others are gone.
    pub fn begin_exchange(&mut self)
        ensures vars { self.new.vars ≡ renewed self.old.vars }
        ensures said { self.new.said ≡ self.old.said }
        ensures config { config_of self.new ≡ config_of self.old }
        ensures ready { IsReady self.old → IsReady self.new }
    {
        begin_exchange(&mut self.vars);
        self.clear = true;
    }

    /// Before the first rules on an answer, a reply or a refusal: the variables of the request's rules are gone.
    pub fn begin_answer(&mut self)
        ensures vars { self.new.vars ≡ answering self.old.vars }
        ensures said { self.new.said ≡ self.old.said }
        ensures config { config_of self.new ≡ config_of self.old }
        ensures ready { IsReady self.old → IsReady self.new }
    {
        begin_answer(&mut self.vars);
    }

    /// Whether rules leave the variables of the session as they began.
    fn stays(&self) -> bool
        requires ready { IsReady self.now }
        ensures steady { result ≡ true → IsSteady (config_of self.now) }
        ensures begun { result ≡ true → self.now.vars.sess ≡ (beginning (config_of self.now).peer).sess }
    {
        self.steady && self.begun
    }

    /// Runs the rules of requests on a head. A reply of theirs is what is said, without a field that speaks of the connection.
    pub fn on_request(&mut self, msg: &mut Arena) -> Result<Verdict, OutOfMemory>
        requires ready { IsReady self.old }
        requires size { msg.old.size ≡ size_of self.old }
        requires head { IsHead msg.old.blocks }
        ensures runs { IfOk result (λ verdict. (head : Head) → msg.old.blocks ≡ head_blocks head → Leaves sides.Request ((meaning_of (config_of self.old)).request_rules (request_env self.old.vars head)) verdict msg.new.blocks self.new.vars self.new.said.blocks) }
        ensures succeeds { holds_pattern (config_of self.old) ≡ false → IsOk result }
        ensures ready { IsReady self.new }
        ensures config { config_of self.new ≡ config_of self.old }
        ensures size { msg.new.size ≡ msg.old.size }
    {
        self.said.clear();
        let config = self.config;
        let stays = self.stays();
        self.begun = false;
        self.clear = false;
        let verdict = run_request(
            &config.request,
            msg,
            &mut self.vars,
            &mut self.scratch,
            &mut self.said,
        )?;
        self.begun = stays;
        Ok(verdict)
    }

    /// Runs the rules of responses on a head, which answers a request of this method. As `on_request`.
    pub fn on_response(&mut self, method: &[u8], msg: &mut Arena) -> Result<Verdict, OutOfMemory>
        requires ready { IsReady self.old }
        requires size { msg.old.size ≡ size_of self.old }
        requires head { IsHead msg.old.blocks }
        ensures runs { IfOk result (λ verdict. (head : Head) → msg.old.blocks ≡ head_blocks head → Leaves (sides.Answer method.entry) ((meaning_of (config_of self.old)).response_rules (response_env self.old.vars method.now head)) verdict msg.new.blocks self.new.vars self.new.said.blocks) }
        ensures succeeds { holds_pattern (config_of self.old) ≡ false → IsOk result }
        ensures ready { IsReady self.new }
        ensures config { config_of self.new ≡ config_of self.old }
        ensures size { msg.new.size ≡ msg.old.size }
    {
        self.said.clear();
        let config = self.config;
        let stays = self.stays();
        self.begun = false;
        self.clear = false;
        let verdict = run_response(
            &config.response,
            method,
            msg,
            &mut self.vars,
            &mut self.scratch,
            &mut self.said,
        )?;
        self.begun = stays;
        Ok(verdict)
    }

    /// Runs the rules on all that the client is sent on a server's head; false where a rule fails.
    pub fn on_sent_head(&mut self, method: &[u8], msg: &mut Arena) -> Result<bool, OutOfMemory>
        requires ready { IsReady self.old }
        requires size { msg.old.size ≡ size_of self.old }
        requires head { IsHead msg.old.blocks }
        ensures amends { IfOk result (λ edited. (head : Head) → msg.old.blocks ≡ head_blocks head → AmendsHead ((meaning_of (config_of self.old)).after_rules (response_env self.old.vars method.now head)) edited msg.new.blocks self.new.vars) }
        ensures succeeds { holds_pattern (config_of self.old) ≡ false → IsOk result }
        ensures said { self.new.said ≡ self.old.said }
        ensures ready { IsReady self.new }
        ensures config { config_of self.new ≡ config_of self.old }
        ensures size { msg.new.size ≡ msg.old.size }
    {
        body_stays();
        let config = self.config;
        let stays = self.stays();
        self.begun = false;
        self.clear = false;
        let verdict = run_after(
            &config.after,
            method,
            msg,
            &mut self.vars,
            &mut self.scratch,
        )?;
        self.begun = stays;
        Ok(passed(verdict))
    }

    /// Runs the rules on all that the client is sent on what is said; false where a rule fails.
    pub(crate) fn on_said(&mut self, method: &[u8]) -> Result<bool, OutOfMemory>
        requires ready { IsReady self.old }
        requires front { (head : Head) × (body : List ℕ) × (self.old.said.blocks ≡ front_blocks head body) }
        ensures amends { IfOk result (λ edited. (head : Head) (body : List ℕ) → self.old.said.blocks ≡ front_blocks head body → AmendsFront body ((meaning_of (config_of self.old)).after_rules (record { is_request = false; head = head; body = body; method = method.now; vars = self.old.vars })) edited self.new.said.blocks self.new.vars) }
        ensures succeeds { holds_pattern (config_of self.old) ≡ false → IsOk result }
        ensures ready { IsReady self.new }
        ensures config { config_of self.new ≡ config_of self.old }
    {
        body_stays();
        let config = self.config;
        let stays = self.stays();
        self.begun = false;
        self.clear = false;
        let verdict = run_after(
            &config.after,
            method,
            self.said.arena(),
            &mut self.vars,
            &mut self.scratch,
        )?;
        self.begun = stays;
        Ok(passed(verdict))
    }
}

//! Both directions of a session, and the rules between them.
ghost use Rattle.std.specs.Prelude.{◌≡◌, ◌≤◌, IfOk};
ghost use Rattle.http_rules.specs.Valid.{IsValid};

use crate::answer::AnswerSide;
use crate::answer::laws::statuses;
use crate::request::RequestSide;
use crate::request::laws::total;
use crate::rules::SessionRules;
use http_model::OutOfMemory;
use http_rules::Config;
use px_sample::Buf;
use std::alloc::Global;

/// Both directions of a session, and the rules between them.
pub struct Directions<'c> {
    pub(crate) request: RequestSide,
    pub(crate) answer: AnswerSide,
    pub(crate) rules: SessionRules<'c>,
    /// The method of the request in hand, as its rules left it (RFC 9110 section 9). Where no head was read it is empty.
    pub(crate) method: Buf,
}

impl Drop for Directions<'_> {
    fn drop(self) {
        let Directions {
            request: _,
            answer: _,
            rules: _,
            method: _,
        } = self;
    }
}

ghost use Rattle.session_core.specs.Place as at;
ghost use Rattle.http_rules.specs.declared.config.Config.{Config};
ghost use Rattle.session_core.specs.Sided.{Sided};
ghost use Rattle.session_core.specs.Leads.{IsFresh};
ghost use Rattle.forward_core.specs.Meaning.Product.{meaning_of};
ghost use Rattle.forward_core.specs.Joined.Joined.{DirectionsStand, Placed, request_of, answer_of, settings_of, HasWindows};

impl<'c> Directions<'c> {
    /// Directions to which nothing has happened. Their arrays and input windows have `tune.bufsize` bytes, their output windows
    /// `window`. Beside rules with patterns, this call alone takes memory.
    #[tactic(auto, using(crate::proofs::RulesLemmas::Peers::peers))]
    pub fn new(
        alloc: Global,
        config: &'c Config,
        window: u32,
    ) -> Result<Directions<'c>, OutOfMemory>
        requires valid { IsValid config.now }
        requires window { 64 ≤ window }
        ensures stands { IfOk result (λ d. (p : Sided (meaning_of config.now)) × DirectionsStand config.now d p × IsFresh (meaning_of config.now) (request_of d) (answer_of d) p) }
        ensures placed { IfOk result (λ d. Placed d at.Reads) }
        ensures settings { IfOk result (λ d. settings_of d ≡ config.now) }
        ensures windows { IfOk result (HasWindows window) }
    {
        total();
        statuses();
        let mut method = Buf::new(alloc, config.limits.bufsize)?;
        let request = RequestSide::new(
            alloc,
            config.limits,
            window,
            config.req_filters.as_slice(),
        )?;
        let answer = match AnswerSide::new(
            alloc,
            config.limits,
            window,
            config.res_filters.as_slice(),
        ) {
            Ok(answer) => answer,
            Err(fault) => {
                drop(request);
                return Err(fault);
            }
        };
        let rules = match SessionRules::new(alloc, config, &mut method) {
            Ok(rules) => rules,
            Err(fault) => {
                drop(request);
                drop(answer);
                return Err(fault);
            }
        };
        Ok(Directions {
            request,
            answer,
            rules,
            method,
        })
    }
}

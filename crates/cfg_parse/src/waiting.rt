//! Rules that wait until every line is read.
ghost use Rattle.std.specs.Prelude.{◌≡◌, ◌+◌, ◌≤◌, ◌++◌, ◌∷◌, [], length, take, OnOk, OnErr};

use http_rules::{Rule, Rules};
use px_link::OutOfMemory;
use std::alloc::Global;
use std::marker::Model;

/// Rules that wait until they are put behind others. Contracts see the list of them.
#[derive(Drop)]
pub struct WaitingRules {
    rules: Vec<Rule>,
}

impl Model for WaitingRules {
    ghost use Rattle.std.specs.Prelude.{List};
    ghost use Rattle.http_rules.specs.declared.rule.rule.Rule.{Rule};

    ghost Value = { List Rule };

    ghost view = { λ waiting. waiting.rules.items };
}

impl WaitingRules {
    /// No rule.
    pub fn new(alloc: Global) -> Self
        ensures { result ≡ [] }
    {
        WaitingRules {
            rules: Vec::new(alloc),
        }
    }

    pub fn len(&self) -> usize
        ensures { result ≡ length self.now }
    {
        self.rules.len()
    }

    /// Puts a rule behind the others.
    pub fn push(&mut self, rule: Rule) -> Result<(), OutOfMemory>
        ensures ok { OnOk result (self.new ≡ self.old ++ rule ∷ []) }
        ensures err { OnErr result (self.new ≡ self.old) }
    {
        self.rules.push(rule)?;
        Ok(())
    }

    /// Takes out all but the first ones, so many.
    pub fn truncate(&mut self, count: usize)
        ensures { self.new ≡ take count self.old }
    {
        self.rules.truncate(count);
    }

    /// Puts all behind these rules.
    pub fn put_behind(self, rules: &mut Rules) -> Result<(), OutOfMemory>
        requires { length rules.old + length self ≤ 4294967295 }
        ensures { OnOk result (rules.new ≡ rules.old ++ self) }
    {
        let WaitingRules { rules: waiting } = self;
        for rule in waiting {
            rules.push(rule)?;
        }
        Ok(())
    }
}

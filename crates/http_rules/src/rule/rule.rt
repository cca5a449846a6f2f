//! Rules, in their order.
use crate::rule::action::Action;
use acl_eval::Cond;
use px_link::ItemList;

/// One rule, which runs where its condition holds.
pub struct Rule {
    pub action: Action,
    /// None where the rule always runs.
    pub cond: Option<Cond>,
}

impl Drop for Rule {
    fn drop(self) {
        let Rule { action: _, cond: _ } = self;
    }
}

/// Rules, in their order.
pub type Rules = ItemList<Rule>;

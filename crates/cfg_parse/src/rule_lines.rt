//! The lines of `acl`, `http-request`, `http-response` and `http-after-response`.

ghost use Rattle.std.specs.Prelude.{◌≡◌, ◌-◌, ◌^◌, min, length, IfOk, OnOk, OnErr};
ghost use Rattle.cfg_parse.specs.Reading.{Leaves};
ghost use Rattle.http_rules.specs.Rule.Valid.{IsGoodRule};
ghost use Rattle.cfg_parse.specs.Action.Rules.{rule_of};
ghost use Rattle.cfg_parse.specs.Asking.{ReadsLine, of_rule};
ghost use Rattle.cfg_parse.specs.Sound.{IsSound};
ghost use Rattle.http_rules.specs.declared.rule.action.Direction.TheVariants as directions;
ghost use Rattle.cfg_parse.specs.Action.Forwarding.{forwarding_rule};
ghost use Rattle.cfg_parse.specs.Rules.{tests_of, rules_in, has_room, rule_added, rule_line, acl_setting, with_forwarding, forwarding_line, option_line};

use crate::action::{read_forwarding, read_rule};
use crate::arguments::Arguments;
use crate::draft::Draft;
use crate::fault::{CfgKind, LineRefusal};
use crate::limits::{MAX_RULES, MAX_TESTS};
use crate::settings::has_effect;
use cfg_expr::condition::{AclList, count_tests, read_acl};
use cfg_expr::is_word;
use http_rules::{Cond, Direction, Rule};
use px_pattern::Patterns;
use std::alloc::Global;

/// How many tests a rule's condition has; the greatest number where there are more.
pub fn tests_of(cond: &Option<Cond>) -> u64
    ensures { result ≡ min (tests_of cond.now) (2 ^ 64 - 1) }
{
    match cond {
        Some(cond) => count_tests(cond),
        None => 0,
    }
}

/// How many rules of a direction there are so far.
fn rule_count(draft: &Draft, direction: Direction) -> u32
    ensures { result ≡ length (rules_in draft.now direction) }
{
    match direction {
        Direction::Request => draft.request.len(),
        Direction::Response => draft.response.len(),
        Direction::After => draft.after.len(),
    }
}

/// One more rule with this condition fits behind those of a direction.
#[tactic(auto, unfolding(crate::specs::Rules::has_room))]
fn has_room(draft: &Draft, direction: Direction, cond: &Option<Cond>) -> bool
    ensures { result ≡ has_room draft.now direction (tests_of cond.now) }
{
    let tests = tests_of(cond);
    rule_count(draft, direction) < MAX_RULES
        && tests <= MAX_TESTS
        && draft.tests <= MAX_TESTS - tests
}

/// One more rule of a direction.
#[tactic(auto, unfolding(crate::specs::Rules::rule_added, crate::specs::Rules::has_room))]
fn add_rule(draft: &mut Draft, direction: Direction, rule: Rule) -> Result<(), LineRefusal>
    ensures leaves { Leaves result draft.new (rule_added draft.old direction rule) }
    ensures unchanged { OnErr result (draft.new ≡ draft.old) }
{
    if !has_room(draft, direction, &rule.cond) {
        drop(rule);
        return Err(LineRefusal::Refused(CfgKind::Limit));
    }
    let tests = tests_of(&rule.cond);
    match direction {
        Direction::Request => draft.request.push(rule)?,
        Direction::Response => draft.response.push(rule)?,
        Direction::After => draft.after.push(rule)?,
    }
    draft.tests += tests;
    Ok(())
}

/// The rule that the words behind `http-request` and its like say.
#[tactic(auto, using(crate::proofs::LineReadings::parts))]
fn rule_of_words<P: Patterns>(
    alloc: Global,
    direction: Direction,
    acls: &AclList,
    arguments: Arguments<'_>,
    pats: &mut P,
) -> Result<Rule, LineRefusal>
    ensures reads { ReadsLine (λ rule. rule) (of_rule (rule_of direction acls.now arguments.entry)) (P.refusals pats.old) (P.refusals pats.new) (P.last_refused pats.new) result }
    ensures good { IfOk result (IsGoodRule direction) }
{
    match read_rule(alloc, direction, acls, arguments.left(), pats) {
        Ok(rule) => Ok(rule),
        Err(fault) => Err(LineRefusal::from(fault)),
    }
}

/// The words behind `http-request` and its like: one more rule.
#[tactic(auto, using(crate::proofs::LineReadings::parts))]
pub fn read_rule_line<P: Patterns>(
    alloc: Global,
    draft: &mut Draft,
    direction: Direction,
    arguments: Arguments<'_>,
    pats: &mut P,
) -> Result<(), LineRefusal>
    ensures reads { ReadsLine (λ nothing. draft.new) (rule_line draft.old direction arguments.entry) (P.refusals pats.old) (P.refusals pats.new) (P.last_refused pats.new) result }
    ensures sound { IsSound draft.old → OnOk result (IsSound draft.new) }
    ensures unchanged { OnErr result (draft.new ≡ draft.old) }
{
    let rule = match rule_of_words(alloc, direction, &draft.acls, arguments, pats) {
        Ok(rule) => rule,
        Err(refusal) => return Err(refusal),
    };
    add_rule(draft, direction, rule)
}

/// The words behind `acl`: one more line.
#[tactic(auto, using(crate::proofs::LineReadings::parts))]
pub fn read_acl_line<P: Patterns>(
    alloc: Global,
    draft: &mut Draft,
    arguments: Arguments<'_>,
    pats: &mut P,
) -> Result<(), LineRefusal>
    ensures reads { ReadsLine (λ nothing. draft.new) (acl_setting draft.old arguments.entry) (P.refusals pats.old) (P.refusals pats.new) (P.last_refused pats.new) result }
    ensures sound { IsSound draft.old → OnOk result (IsSound draft.new) }
    ensures unchanged { OnErr result (draft.new ≡ draft.old) }
{
    match read_acl(alloc, arguments.left(), &mut draft.acls, pats) {
        Ok(()) => Ok(()),
        Err(fault) => Err(LineRefusal::from(fault)),
    }
}

/// The rule that the words behind `option forwardfor` say.
#[tactic(auto, using(crate::proofs::LineReadings::parts))]
fn forwarding_of_words<P: Patterns>(
    alloc: Global,
    arguments: Arguments<'_>,
    pats: &mut P,
) -> Result<Rule, LineRefusal>
    ensures reads { ReadsLine (λ rule. rule) (of_rule (forwarding_rule arguments.entry)) (P.refusals pats.old) (P.refusals pats.new) (P.last_refused pats.new) result }
    ensures good { IfOk result (IsGoodRule directions.Request) }
{
    match read_forwarding(alloc, arguments.left(), pats) {
        Ok(rule) => Ok(rule),
        Err(fault) => Err(LineRefusal::from(fault)),
    }
}

/// Puts the rule of `option forwardfor` in its place.
fn put_forwarding(draft: &mut Draft, rule: Rule)
    ensures put { draft.new ≡ with_forwarding draft.old rule }
{
    if !has_effect(draft) {
        drop(rule);
        return;
    }
    drop(draft.forwarding.replace(rule));
}

/// The words behind `option forwardfor`.
#[tactic(auto, using(crate::proofs::LineReadings::parts), unfolding(crate::specs::Rules::forwarding_line))]
fn read_forwarding_line<P: Patterns>(
    alloc: Global,
    draft: &mut Draft,
    arguments: Arguments<'_>,
    pats: &mut P,
) -> Result<(), LineRefusal>
    ensures reads { ReadsLine (λ nothing. draft.new) (forwarding_line draft.old arguments.entry) (P.refusals pats.old) (P.refusals pats.new) (P.last_refused pats.new) result }
    ensures sound { IsSound draft.old → OnOk result (IsSound draft.new) }
    ensures unchanged { OnErr result (draft.new ≡ draft.old) }
{
    match forwarding_of_words(alloc, arguments, pats) {
        Ok(rule) => {
            put_forwarding(draft, rule);
            Ok(())
        }
        Err(refusal) => Err(refusal),
    }
}

/// The words behind `option`.
#[tactic(auto, using(crate::proofs::LineReadings::parts), unfolding(crate::specs::Rules::option_line))]
pub fn read_option_line<P: Patterns>(
    alloc: Global,
    draft: &mut Draft,
    arguments: Arguments<'_>,
    pats: &mut P,
) -> Result<(), LineRefusal>
    ensures reads { ReadsLine (λ nothing. draft.new) (option_line draft.old arguments.entry) (P.refusals pats.old) (P.refusals pats.new) (P.last_refused pats.new) result }
    ensures sound { IsSound draft.old → OnOk result (IsSound draft.new) }
    ensures unchanged { OnErr result (draft.new ≡ draft.old) }
{
    match arguments.argument() {
        Ok((word, arguments)) => {
            if is_word(word, b"forwardfor") {
                read_forwarding_line(alloc, draft, arguments, pats)
            } else {
                Err(LineRefusal::Refused(CfgKind::Argument))
            }
        }
        Err(refusal) => Err(refusal),
    }
}

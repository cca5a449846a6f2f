//! A test: CRITERION FLAGS VALUES.
ghost use Rattle.std.specs.Prelude.{◌≡◌};
ghost use Rattle.cfg_expr.specs.Faults.{ReadsText};
ghost use Rattle.cfg_expr.specs.Condition.Tests.{first_of_two, chosen_match, flagged_test, test_behind, test_of};

use crate::condition::criterion::{Criterion, default_match, read_criterion};
use crate::condition::flags::{Flags, NO_FLAGS, read_flags};
use crate::condition::values::read_values;
use crate::condition::{WordsLeft, WrittenTest};
use crate::{Side, TextFault};
use acl_eval::Match;
use px_pattern::Patterns;
use std::alloc::Global;

/// The match that counts.
fn chosen_match(criterion: &Criterion, flags: Flags) -> Match
    ensures { result ≡ chosen_match criterion.now flags }
{
    match flags.how {
        Some(how) => how,
        None => match criterion.how {
            Some(how) => how,
            None => default_match(&criterion.written),
        },
    }
}

/// What stands behind the criterion and the flags.
#[tactic(auto, unfolding(crate::specs::Condition::Tests::flagged_test))]
fn flagged_test<P: Patterns>(
    alloc: Global,
    criterion: Criterion,
    flags: Flags,
    words: WordsLeft<'_>,
    pats: &mut P,
) -> Result<WrittenTest, TextFault>
    ensures { ReadsText (λ test. test) (flagged_test criterion flags words.entry) (P.refusals pats.old) (P.refusals pats.new) (P.last_refused pats.new) result }
{
    let how = chosen_match(&criterion, flags);
    let icase = flags.icase;
    let written = criterion.written;
    match read_values(alloc, how, icase, words, pats) {
        Ok(values) => Ok(WrittenTest {
            written,
            how,
            icase,
            values,
        }),
        Err(fault) => {
            drop(written);
            Err(fault)
        }
    }
}

/// What stands behind the criterion.
#[tactic(auto, unfolding(crate::specs::Condition::Tests::test_behind))]
fn test_behind<P: Patterns>(
    alloc: Global,
    criterion: Criterion,
    words: WordsLeft<'_>,
    pats: &mut P,
) -> Result<WrittenTest, TextFault>
    ensures { ReadsText (λ test. test) (test_behind criterion words.entry) (P.refusals pats.old) (P.refusals pats.new) (P.last_refused pats.new) result }
{
    match read_flags(NO_FLAGS, words) {
        Ok((flags, words)) => flagged_test(alloc, criterion, flags, words, pats),
        Err(fault) => {
            drop(criterion);
            Err(fault)
        }
    }
}

/// The test of a criterion and the words behind it; of a direction, or of none yet.
#[tactic(auto, unfolding(crate::specs::Condition::Tests::test_of))]
pub(crate) fn read_test<P: Patterns>(
    alloc: Global,
    place: Option<Side>,
    word: &[u8],
    words: WordsLeft<'_>,
    pats: &mut P,
) -> Result<WrittenTest, TextFault>
    ensures { ReadsText (λ test. test) (test_of place word.now words.entry) (P.refusals pats.old) (P.refusals pats.new) (P.last_refused pats.new) result }
{
    let criterion = read_criterion(alloc, place, word, pats)?;
    test_behind(alloc, criterion, words, pats)
}

//! How many tests a condition has.
ghost use Rattle.std.specs.Prelude.{◌≡◌, ◌^◌, ◌-◌, min, sum_by};
ghost use Rattle.cfg_expr.specs.Condition.Conditions.{tests_in, test_count, most_count};

use acl_eval::{Cond, TermList};

fn count_in_group(terms: &TermList) -> u64
    ensures { result ≡ min (sum_by tests_in terms.now) most_count }
{
    let mut count = 0u64;
    'each: for at in 0..terms.len() {
        count = count.saturating_add(u64::from(terms.get(at).tests.len()));
    }
    count
}

/// How many tests a condition has, those of each line of the names that it uses among them; the greatest number where
/// there are more.
pub fn count_tests(cond: &Cond) -> u64
    ensures { result ≡ min (test_count cond.now) most_count }
{
    let mut count = 0u64;
    'each: for at in 0..cond.groups.len() {
        count = count.saturating_add(count_in_group(cond.groups.get(at)));
    }
    count
}

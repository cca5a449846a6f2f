//! The codes of redirects.
ghost use Rattle.std.specs.Prelude.{◌≡◌, true, IfOk};
ghost use Rattle.px_bytes.specs.Numbers.{decimal_of};
ghost use Rattle.http_rules.specs.Rule.Valid.{is_redirect_code};
ghost use Rattle.cfg_parse.specs.Action.Faults.{Gives};
ghost use Rattle.cfg_parse.specs.Action.Arguments.{most_digits};
ghost use Rattle.cfg_parse.specs.Action.Redirects.{as_redirect_code, written_code};

use crate::action::arguments::{MAX_DIGITS, argument};
use crate::action::fault::{RuleFault, RuleKind};
use cfg_expr::condition::WordsLeft;
use px_bytes::read_decimal;

/// One of the codes of redirects.
fn redirect_code(word: &[u8]) -> Result<u16, RuleFault>
    ensures gives { Gives (λ code. code) result (as_redirect_code (decimal_of most_digits word.now)) }
    ensures good { IfOk result (λ code. is_redirect_code code ≡ true) }
{
    match read_decimal(word, MAX_DIGITS) {
        Some(code) => {
            if code == 301 || code == 302 || code == 303 || code == 307 || code == 308 {
                Ok(code as u16)
            } else {
                Err(RuleFault::Refused(RuleKind::Argument))
            }
        }
        None => Err(RuleFault::Refused(RuleKind::Argument)),
    }
}

/// The number behind `code`, and the words behind it.
#[tactic(auto, unfolding(crate::specs::Action::Redirects::written_code))]
pub fn written_code(others: WordsLeft<'_>) -> Result<(u16, WordsLeft<'_>), RuleFault>
    ensures gives { Gives (λ found. (found.0, found.1)) result (written_code others.entry) }
    ensures good { IfOk result (λ found. is_redirect_code found.0 ≡ true) }
{
    let (word, others) = argument(others)?;
    let code = redirect_code(word)?;
    Ok((code, others))
}

//! The options of `redirect`, in any order.
ghost use Rattle.std.specs.Prelude.{◌≡◌, ◌||◌, Some, true, false, IfOk};
ghost use Rattle.http_rules.specs.declared.rule.action.ActionName.TheVariants as names;
ghost use Rattle.http_rules.specs.Rule.Valid.{may_drop_query, may_append_slash};
ghost use Rattle.http_rules.specs.declared.rule.reply.RedirectTo.TheVariants.{Location, Prefix, Scheme};
ghost use Rattle.cfg_parse.specs.Action.Faults.{Gives, ReadsRule};
ghost use Rattle.cfg_parse.specs.Action.Good.{IsNamed, AreRedirectOptions};
ghost use Rattle.cfg_parse.specs.Action.Redirects.{redirect_word, may_come, may_stand, goes_with, code_at, with_drop_query, with_append_slash, redirect_of};
ghost use Rattle.cfg_parse.specs.Action.RedirectOptions.{with_location, alone, redirect_option, redirect_options};

use crate::action::arguments::format_at;
use crate::action::codes::written_code;
use crate::action::fault::{RuleFault, RuleKind};
use cfg_expr::condition::WordsLeft;
use cfg_expr::{Side, is_word};
use http_rules::rule::{Action, RedirectTo};
use px_pattern::Patterns;
use std::alloc::Global;

/// The code of a redirect where none is written.
const FOUND: u16 = 302;

/// The options so far, each at most once.
#[derive(Drop)]
pub struct RedirectOptions {
    pub to: Option<RedirectTo>,
    pub code: Option<u16>,
    pub drop_query: bool,
    pub append_slash: bool,
}

/// The options by name.
#[derive(Clone, Copy)]
enum RedirectWord {
    Location,
    Prefix,
    Scheme,
    Code,
    DropQuery,
    AppendSlash,
}

#[tactic(auto, unfolding(crate::specs::Action::Redirects::redirect_word))]
fn redirect_word(word: &[u8]) -> Option<RedirectWord>
    ensures { result ≡ redirect_word word.now }
{
    if is_word(word, b"location") {
        Some(RedirectWord::Location)
    } else if is_word(word, b"prefix") {
        Some(RedirectWord::Prefix)
    } else if is_word(word, b"scheme") {
        Some(RedirectWord::Scheme)
    } else if is_word(word, b"code") {
        Some(RedirectWord::Code)
    } else if is_word(word, b"drop-query") {
        Some(RedirectWord::DropQuery)
    } else if is_word(word, b"append-slash") {
        Some(RedirectWord::AppendSlash)
    } else {
        None
    }
}

/// An option may stand where it doesn't yet, and goes with the location.
fn may_stand(stands: bool, goes: bool) -> Result<(), RuleFault>
    ensures gives { Gives (λ nothing. nothing) result (may_stand stands goes) }
    ensures good { IfOk result (λ nothing. goes ≡ true) }
{
    if stands {
        return Err(RuleFault::Refused(RuleKind::Argument));
    }
    if !goes {
        return Err(RuleFault::Refused(RuleKind::Argument));
    }
    Ok(())
}

/// What a location clashes with stands there.
fn clashes(options: &RedirectOptions) -> bool
    ensures { result ≡ (options.now.drop_query || options.now.append_slash) }
{
    options.drop_query || options.append_slash
}

/// A location may still come, unless what stands there clashes with it.
fn may_come(clashes: bool, options: &RedirectOptions) -> Result<(), RuleFault>
    ensures gives { Gives (λ nothing. nothing) result (may_come clashes options.now) }
    ensures good { IfOk result (λ nothing. clashes ≡ false) }
{
    if options.to.is_some() || clashes {
        return Err(RuleFault::Refused(RuleKind::Argument));
    }
    Ok(())
}

fn may_drop_query(to: &Option<RedirectTo>) -> bool
    ensures { result ≡ goes_with may_drop_query to.now }
{
    match to {
        Some(RedirectTo::Location(_)) => false,
        Some(RedirectTo::Prefix(_)) => true,
        Some(RedirectTo::Scheme(_)) => true,
        None => true,
    }
}

fn may_append_slash(to: &Option<RedirectTo>) -> bool
    ensures { result ≡ goes_with may_append_slash to.now }
{
    match to {
        Some(RedirectTo::Location(_)) => false,
        Some(RedirectTo::Prefix(_)) => true,
        Some(RedirectTo::Scheme(_)) => false,
        None => true,
    }
}

/// `code` and its number, which may stand once.
#[tactic(auto, unfolding(crate::specs::Action::Redirects::code_at))]
fn code_at<'w>(
    options: &mut RedirectOptions,
    others: WordsLeft<'w>,
) -> Result<WordsLeft<'w>, RuleFault>
    ensures gives { Gives (λ behind. (options.new, behind)) result (code_at options.old others.entry) }
    ensures good { AreRedirectOptions options.old → IfOk result (λ behind. AreRedirectOptions options.new) }
{
    may_stand(options.code.is_some(), true)?;
    let (code, others) = written_code(others)?;
    options.code = Some(code);
    Ok(others)
}

/// `drop-query`.
fn with_drop_query<'w>(
    options: &mut RedirectOptions,
    others: WordsLeft<'w>,
) -> Result<WordsLeft<'w>, RuleFault>
    ensures gives { Gives (λ behind. (options.new, behind)) result ((alone others.entry (with_drop_query options.old)).gives) }
    ensures good { AreRedirectOptions options.old → IfOk result (λ behind. AreRedirectOptions options.new) }
{
    may_stand(options.drop_query, may_drop_query(&options.to))?;
    options.drop_query = true;
    Ok(others)
}

/// `append-slash`.
fn with_append_slash<'w>(
    options: &mut RedirectOptions,
    others: WordsLeft<'w>,
) -> Result<WordsLeft<'w>, RuleFault>
    ensures gives { Gives (λ behind. (options.new, behind)) result ((alone others.entry (with_append_slash options.old)).gives) }
    ensures good { AreRedirectOptions options.old → IfOk result (λ behind. AreRedirectOptions options.new) }
{
    may_stand(options.append_slash, may_append_slash(&options.to))?;
    options.append_slash = true;
    Ok(others)
}

/// The location stands there.
fn go_to(options: &mut RedirectOptions, to: RedirectTo)
    ensures { options.new ≡ record options.old { to = Some to } }
{
    drop(options.to.replace(to));
}

/// `location` and its format.
#[tactic(auto, using(crate::proofs::ActionLemmas::GoodLemmas::redirects))]
fn with_location<'w, P: Patterns>(
    alloc: Global,
    side: Side,
    options: &mut RedirectOptions,
    others: WordsLeft<'w>,
    pats: &mut P,
) -> Result<WordsLeft<'w>, RuleFault>
    ensures reads { ReadsRule (λ behind. (options.new, behind)) (with_location side Location (options.old.drop_query || options.old.append_slash) options.old others.entry) (P.refusals pats.old) (P.refusals pats.new) (P.last_refused pats.new) result }
    ensures good { AreRedirectOptions options.old → IfOk result (λ behind. AreRedirectOptions options.new) }
{
    may_come(clashes(options), options)?;
    let (fmt, others) = format_at(alloc, side, others, pats)?;
    go_to(options, RedirectTo::Location(fmt));
    Ok(others)
}

/// `prefix` and its format.
#[tactic(auto, using(crate::proofs::ActionLemmas::GoodLemmas::redirects))]
fn with_prefix<'w, P: Patterns>(
    alloc: Global,
    side: Side,
    options: &mut RedirectOptions,
    others: WordsLeft<'w>,
    pats: &mut P,
) -> Result<WordsLeft<'w>, RuleFault>
    ensures reads { ReadsRule (λ behind. (options.new, behind)) (with_location side Prefix false options.old others.entry) (P.refusals pats.old) (P.refusals pats.new) (P.last_refused pats.new) result }
    ensures good { AreRedirectOptions options.old → IfOk result (λ behind. AreRedirectOptions options.new) }
{
    may_come(false, options)?;
    let (fmt, others) = format_at(alloc, side, others, pats)?;
    go_to(options, RedirectTo::Prefix(fmt));
    Ok(others)
}

/// `scheme` and its format.
#[tactic(auto, using(crate::proofs::ActionLemmas::GoodLemmas::redirects))]
fn with_scheme<'w, P: Patterns>(
    alloc: Global,
    side: Side,
    options: &mut RedirectOptions,
    others: WordsLeft<'w>,
    pats: &mut P,
) -> Result<WordsLeft<'w>, RuleFault>
    ensures reads { ReadsRule (λ behind. (options.new, behind)) (with_location side Scheme options.old.append_slash options.old others.entry) (P.refusals pats.old) (P.refusals pats.new) (P.last_refused pats.new) result }
    ensures good { AreRedirectOptions options.old → IfOk result (λ behind. AreRedirectOptions options.new) }
{
    may_come(options.append_slash, options)?;
    let (fmt, others) = format_at(alloc, side, others, pats)?;
    go_to(options, RedirectTo::Scheme(fmt));
    Ok(others)
}

/// An option and the words behind it.
#[tactic(auto, unfolding(crate::specs::Action::RedirectOptions::redirect_option))]
fn redirect_option<'w, P: Patterns>(
    alloc: Global,
    side: Side,
    options: &mut RedirectOptions,
    which: RedirectWord,
    others: WordsLeft<'w>,
    pats: &mut P,
) -> Result<WordsLeft<'w>, RuleFault>
    ensures reads { ReadsRule (λ behind. (options.new, behind)) (redirect_option side options.old which others.entry) (P.refusals pats.old) (P.refusals pats.new) (P.last_refused pats.new) result }
    ensures good { AreRedirectOptions options.old → IfOk result (λ behind. AreRedirectOptions options.new) }
{
    match which {
        RedirectWord::Location => with_location(alloc, side, options, others, pats),
        RedirectWord::Prefix => with_prefix(alloc, side, options, others, pats),
        RedirectWord::Scheme => with_scheme(alloc, side, options, others, pats),
        RedirectWord::Code => code_at(options, others),
        RedirectWord::DropQuery => with_drop_query(options, others),
        RedirectWord::AppendSlash => with_append_slash(options, others),
    }
}

/// Options up to a word that is none, of which so many more may come.
#[tactic(auto, unfolding(crate::specs::Action::RedirectOptions::redirect_options))]
pub fn redirect_options<'w, P: Patterns>(
    alloc: Global,
    side: Side,
    most: u32,
    mut options: RedirectOptions,
    words: WordsLeft<'w>,
    pats: &mut P,
) -> Result<(RedirectOptions, WordsLeft<'w>), RuleFault>
    ensures reads { ReadsRule (λ next. (next.0, next.1)) (redirect_options side most options words.entry) (P.refusals pats.old) (P.refusals pats.new) (P.last_refused pats.new) result }
    ensures good { AreRedirectOptions options → IfOk result (λ next. AreRedirectOptions next.0) }
{
    let mut others = words.again();
    let Some(word) = others.next() else {
        return Ok((options, words));
    };
    if most == 0 {
        return Ok((options, words));
    }
    match redirect_word(word) {
        None => Ok((options, words)),
        Some(which) => match redirect_option(alloc, side, &mut options, which, others, pats) {
            Ok(behind) => redirect_options(alloc, side, most - 1, options, behind, pats),
            Err(fault) => {
                drop(options);
                Err(fault)
            }
        },
    }
}

/// The redirect of its options.
#[tactic(auto, using(crate::proofs::ActionLemmas::GoodLemmas::redirects))]
pub fn redirect_of(options: RedirectOptions) -> Result<Action, RuleFault>
    ensures gives { Gives (λ action. action) result (redirect_of options) }
    ensures good { AreRedirectOptions options → IfOk result (IsNamed names.Redirect) }
{
    let RedirectOptions {
        to,
        code,
        drop_query,
        append_slash,
    } = options;
    match to {
        Some(to) => Ok(Action::Redirect {
            to,
            code: code.unwrap_or(FOUND),
            drop_query,
            append_slash,
        }),
        None => Err(RuleFault::Refused(RuleKind::Argument)),
    }
}

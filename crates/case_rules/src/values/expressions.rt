//! Expressions: how many bytes a buffer holds, the samples of `path`, the expression, and its sample, or each of its
//! samples.
ghost use Rattle.std.specs.Prelude.{◌≡◌, ◌≤◌, IfOk};

use crate::values::convs::{conv_of, fetch_of};
use crate::values::samples::{given_list, say_sample};
use case_rows::{Answers, Call, Fault, Held, Row, count_of, held_list};
use px_expr::{Buf, ConvList, Expr, MemEnv, eval, eval_nth};
use px_pattern::Searchers;
use std::alloc::Global;

/// The most converters of a row.
const MOST: usize = 1000;

/// Puts the converters that a text says behind a list.
fn push_convs(alloc: Global, text: &[u8], convs: &mut ConvList) -> Result<(), Fault> {
    let mut rest = text;
    for _ in 0..MOST {
        if rest.is_empty() || convs.len() == u32::MAX {
            break;
        }
        let (call, behind) = Call::first(rest);
        convs.push(conv_of(alloc, &call)?)?;
        rest = behind;
    }
    Ok(())
}

/// The converters that a text says.
fn convs_of(alloc: Global, text: &[u8]) -> Result<ConvList, Fault> {
    let mut convs = ConvList::new(alloc);
    push_convs(alloc, text, &mut convs)?;
    Ok(convs)
}

/// The expression that a text says.
pub fn expr_of(alloc: Global, text: &[u8]) -> Result<Expr, Fault> {
    let (fetch, rest) = Call::first(text);
    let fetch = fetch_of(alloc, &fetch)?;
    let convs = convs_of(alloc, rest)?;
    Ok(Expr { fetch, convs })
}

/// The size that a text says.
fn size_of(text: &str) -> Result<u32, Fault>
    ensures { IfOk result (λ size. size ≤ 262144) }
{
    let size = count_of(text.as_bytes())?;
    if size > 262144 {
        return Err(Fault::Malformed);
    }
    Ok(size as u32)
}

/// A buffer of the size that a text says.
pub fn buffer_of(alloc: Global, text: &str) -> Result<Buf, Fault> {
    Ok(Buf::new(alloc, size_of(text)?)?)
}

/// Which samples of its expression a row asks for.
#[derive(Drop)]
enum Which {
    /// The one that the expression has as a whole.
    One,
    /// Each, one after another.
    Each,
}

/// What a row asks for.
#[derive(Drop)]
struct Question {
    size: u32,
    held: Vec<Held>,
    expr: Expr,
}

/// What a row asks for.
fn question_of(alloc: Global, row: Row<'_>) -> Result<Question, Fault>
    ensures { IfOk result (λ question. question.size ≤ 262144) }
{
    Ok(Question {
        size: size_of(row.field(1))?,
        held: held_list(alloc, row.field(2))?,
        expr: expr_of(alloc, row.field(3).as_bytes())?,
    })
}

/// A buffer of a size, with bytes that are left over.
fn spare_of(alloc: Global, size: u32) -> Result<Buf, Fault>
    ensures { IfOk result (λ spare. spare.cap ≡ size) }
{
    let mut spare = Buf::new(alloc, size)?;
    let _ = spare.push(b"left over");
    Ok(spare)
}

/// Says the sample of an expression.
fn say_eval(
    alloc: Global,
    question: &Question,
    env: &MemEnv<'_>,
    answers: &mut Answers,
) -> Result<(), Fault> {
    let mut buf = Buf::new(alloc, question.size)?;
    let mut spare = spare_of(alloc, question.size)?;
    let mut searchers = Searchers::new(alloc);
    let sample = eval(&mut searchers, &question.expr, env, &mut buf, &mut spare)?;
    say_sample(sample, &buf, answers);
    Ok(())
}

/// Says the nth sample of an expression. Whether there is one.
fn say_nth(
    alloc: Global,
    question: &Question,
    nth: u32,
    env: &MemEnv<'_>,
    answers: &mut Answers,
) -> Result<bool, Fault> {
    let mut buf = Buf::new(alloc, question.size)?;
    let mut spare = spare_of(alloc, question.size)?;
    let mut searchers = Searchers::new(alloc);
    match eval_nth(
        &mut searchers,
        &question.expr,
        nth,
        env,
        &mut buf,
        &mut spare,
    ) {
        Ok(Some(sample)) => {
            say_sample(sample, &buf, answers);
            Ok(true)
        }
        Ok(None) => Ok(false),
        Err(_) => Err(Fault::OutOfMemory),
    }
}

/// Says the first nine samples of an expression, as far as they are there.
fn say_each(
    alloc: Global,
    question: &Question,
    env: &MemEnv<'_>,
    answers: &mut Answers,
) -> Result<(), Fault> {
    for nth in 0..9u32 {
        if !say_nth(alloc, question, nth, env, answers)? {
            break;
        }
    }
    Ok(())
}

/// Says the samples of a question.
fn say_which(
    alloc: Global,
    question: &Question,
    which: Which,
    env: &MemEnv<'_>,
    answers: &mut Answers,
) -> Result<(), Fault> {
    match which {
        Which::One => say_eval(alloc, question, env, answers),
        Which::Each => say_each(alloc, question, env, answers),
    }
}

/// The samples of a question, with what it gives.
fn told(
    alloc: Global,
    question: &Question,
    which: Which,
    env: &MemEnv<'_>,
) -> Result<Vec<u8>, Fault> {
    let mut answers = Answers::new(alloc);
    say_which(alloc, question, which, env, &mut answers)?;
    answers.into_text()
}

/// The samples of a question.
fn answered(alloc: Global, question: &Question, which: Which) -> Result<Vec<u8>, Fault> {
    let given = given_list(alloc, &question.held)?;
    told(alloc, question, which, &MemEnv { given: &given })
}

/// The samples of a row that it asks for.
fn sampled(alloc: Global, row: Row<'_>, which: Which) -> Result<Vec<u8>, Fault> {
    let question = question_of(alloc, row)?;
    answered(alloc, &question, which)
}

/// The sample of a row.
pub fn one_sample(alloc: Global, row: Row<'_>) -> Result<Vec<u8>, Fault> {
    sampled(alloc, row, Which::One)
}

/// The samples of a row.
pub fn each_sample(alloc: Global, row: Row<'_>) -> Result<Vec<u8>, Fault> {
    sampled(alloc, row, Which::Each)
}

//! The tests of a name, copied into each term that uses it. A pattern is shared and not built anew.
ghost use Rattle.std.specs.Prelude.{◌≡◌, IfOk};
ghost use Rattle.cfg_expr.specs.Faults.{Gives};
ghost use Rattle.cfg_expr.specs.Condition.Lines.{test_on};

use crate::condition::WrittenTest;
use crate::{Side, Source, TextFault, TextKind, Written, on_side};
use acl_eval::{Test, TestValue, ValueList};
use px_conv::Conv;
use px_expr::{ConvList, Expr};
use px_sample::{OutOfMemory, Text};
use std::alloc::Global;

fn copy_source(alloc: Global, source: &Source) -> Result<Source, OutOfMemory>
    ensures { IfOk result (λ copied. copied ≡ source.now) }
{
    match source {
        Source::Hdr(name, occurrence) => Ok(Source::Hdr(copy_text(alloc, name)?, *occurrence)),
        Source::Of(fetch) => Ok(Source::Of(fetch.copy()?)),
    }
}

fn copy_text(alloc: Global, text: &Text) -> Result<Text, OutOfMemory>
    ensures { IfOk result (λ copied. copied ≡ text.now) }
{
    Text::copy(alloc, text.as_slice())
}

/// Both texts of `iif`.
fn copy_iif(alloc: Global, first: &Text, second: &Text) -> Result<Conv, OutOfMemory>
    ensures { IfOk result (λ copied. copied ≡ Conv.Iif first.now second.now) }
{
    let first = copy_text(alloc, first)?;
    match copy_text(alloc, second) {
        Ok(second) => Ok(Conv::Iif(first, second)),
        Err(fault) => {
            drop(first);
            Err(fault)
        }
    }
}

fn copy_conv(alloc: Global, conv: &Conv) -> Result<Conv, OutOfMemory>
    ensures { IfOk result (λ copied. copied ≡ conv.now) }
{
    match conv {
        Conv::Lower => Ok(Conv::Lower),
        Conv::Upper => Ok(Conv::Upper),
        Conv::Length => Ok(Conv::Length),
        Conv::Bytes(offset, len) => Ok(Conv::Bytes(*offset, *len)),
        Conv::Field(index, separators, count) => {
            Ok(Conv::Field(*index, copy_text(alloc, separators)?, *count))
        }
        Conv::Word(index, separators, count) => {
            Ok(Conv::Word(*index, copy_text(alloc, separators)?, *count))
        }
        Conv::Iif(first, second) => copy_iif(alloc, first, second),
        Conv::Add(n) => Ok(Conv::Add(*n)),
        Conv::Sub(n) => Ok(Conv::Sub(*n)),
        Conv::Mul(n) => Ok(Conv::Mul(*n)),
        Conv::Div(n) => Ok(Conv::Div(*n)),
        Conv::Mod(n) => Ok(Conv::Mod(*n)),
        Conv::Neg => Ok(Conv::Neg),
        Conv::Not => Ok(Conv::Not),
        Conv::Bool => Ok(Conv::Bool),
        Conv::Base64 => Ok(Conv::Base64),
        Conv::Hex => Ok(Conv::Hex),
        Conv::UrlDec => Ok(Conv::UrlDec),
        Conv::Regsub(pat, template, which) => {
            Ok(Conv::Regsub(pat.share(), copy_text(alloc, template)?, *which))
        }
    }
}

fn copy_convs(alloc: Global, convs: &ConvList) -> Result<ConvList, OutOfMemory>
    ensures { IfOk result (λ copied. copied ≡ convs.now) }
{
    let mut copied = ConvList::new(alloc);
    'each: for at in 0..convs.len() {
        copied.push(copy_conv(alloc, convs.get(at))?)?;
    }
    Ok(copied)
}

fn copy_value(alloc: Global, value: &TestValue) -> Result<TestValue, OutOfMemory>
    ensures { IfOk result (λ copied. copied ≡ value.now) }
{
    match value {
        TestValue::Range { low, high } => Ok(TestValue::Range {
            low: *low,
            high: *high,
        }),
        TestValue::Literal(text) => Ok(TestValue::Literal(copy_text(alloc, text)?)),
        TestValue::Pattern(pat) => Ok(TestValue::Pattern(pat.share())),
    }
}

fn copy_values(alloc: Global, values: &ValueList) -> Result<ValueList, OutOfMemory>
    ensures { IfOk result (λ copied. copied ≡ values.now) }
{
    let mut copied = ValueList::new(alloc);
    'each: for at in 0..values.len() {
        copied.push(copy_value(alloc, values.get(at))?)?;
    }
    Ok(copied)
}

/// A copy of an expression.
fn copy_written(alloc: Global, written: &Written) -> Result<Written, OutOfMemory>
    ensures { IfOk result (λ copied. copied ≡ written.now) }
{
    let convs = copy_convs(alloc, &written.convs)?;
    match copy_source(alloc, &written.source) {
        Ok(source) => Ok(Written { source, convs }),
        Err(fault) => {
            drop(convs);
            Err(fault)
        }
    }
}

/// A copy of a test.
fn copy_test(alloc: Global, test: &WrittenTest) -> Result<WrittenTest, OutOfMemory>
    ensures { IfOk result (λ copied. copied ≡ test.now) }
{
    let values = copy_values(alloc, &test.values)?;
    match copy_written(alloc, &test.written) {
        Ok(written) => Ok(WrittenTest {
            written,
            how: test.how,
            icase: test.icase,
            values,
        }),
        Err(fault) => {
            drop(values);
            Err(fault)
        }
    }
}

/// A copy of a test with the fetch that its source is in a direction.
pub(crate) fn copy_on(alloc: Global, side: Side, written: &WrittenTest) -> Result<Test, TextFault>
    ensures { Gives (λ test. test) result (test_on side written.now) }
{
    let copied = copy_test(alloc, written)?;
    move_on(side, copied)
}

/// The test itself with the fetch that its source is in a direction.
pub(crate) fn move_on(side: Side, written: WrittenTest) -> Result<Test, TextFault>
    ensures { Gives (λ test. test) result (test_on side written) }
{
    let WrittenTest {
        written: Written { source, convs },
        how,
        icase,
        values,
    } = written;
    match on_side(side, source) {
        Some(fetch) => Ok(Test {
            expr: Expr { fetch, convs },
            how,
            icase,
            values,
        }),
        None => {
            drop(convs);
            drop(values);
            Err(TextFault::Refused(TextKind::Acl))
        }
    }
}

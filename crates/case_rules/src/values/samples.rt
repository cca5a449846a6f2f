//! Samples as an environment gives them, and as rows say them.
ghost use Rattle.std.specs.Prelude.{◌≤◌, length, IfOk};

use case_rows::{Answers, Fault, Held};
use px_expr::{Buf, Given, Sample};
use std::alloc::Global;

/// The most samples of a row.
const MOST: usize = 1000;

/// What a row gives, as an environment gives it.
fn given_of(held: &Held) -> Given<'_> {
    match held {
        Held::Absent => Given::Absent,
        Held::Truth(truth) => Given::Truth(*truth),
        Held::Number(number) => Given::Number(*number),
        Held::Bytes(bytes) => Given::Bytes(bytes),
    }
}

/// The samples of a row, as an environment gives them.
pub fn given_list(alloc: Global, list: &[Held]) -> Result<Vec<Given<'_>>, Fault>
    ensures { IfOk result (λ given. length given.items ≤ 1000) }
{
    let mut given = Vec::new(alloc);
    for held in list {
        given.push(given_of(held))?;
    }
    if given.len() > MOST {
        return Err(Fault::Malformed);
    }
    Ok(given)
}

/// Says a truth.
fn say_truth(truth: bool, answers: &mut Answers) {
    if truth {
        answers.say(b"true");
    } else {
        answers.say(b"false");
    }
}

/// Says a sample.
pub fn say_sample(sample: Sample, buf: &Buf, answers: &mut Answers) {
    match sample {
        Sample::Absent => answers.say(b"absent"),
        Sample::Truth(truth) => say_truth(truth, answers),
        Sample::Number(number) => answers.signed(number),
        Sample::InBuf => answers.quote(buf.bytes()),
    }
}

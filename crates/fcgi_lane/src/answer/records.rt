//! The records of an application, in whatever pieces they come.
ghost use Rattle.std.specs.Prelude.{◌≡◌, ◌<◌, ◌≤◌, ◌+◌, ◌^◌, ◌-◌, [], length, take, true, false, Some, None, ℕ, Bool};
ghost use Rattle.fcgi_record.specs.Heads.{head_of};
ghost use Rattle.fcgi_lane.specs.Answer.Flow as flow;
ghost use Rattle.fcgi_lane.specs.Answer.Flow.{Goes, InRecord, InEnd, opens, opens_own, tired, leads, patience, is_going, is_over};
ghost use Rattle.fcgi_lane.specs.Answer.Reader.{place_of, IsStage, used_by, output_by, after_output};

use fcgi_record::{RecordHead, read_head};
use std::marker::Model;

/// How many bytes in a row may add none to the output.
const PATIENCE: u32 = 1_048_576;

/// Where the stream of records stands.
#[derive(Clone, Copy, Debug)]
pub(crate) enum Stage {
    /// In a header, behind `len` bytes of it.
    Head { head: [u8; 8], len: usize },
    /// So many bytes of output are to come, and then so many of padding.
    Output { left: u16, pad: u8 },
    /// So many bytes are to come that say nothing.
    Skip { left: u32 },
    /// In the end of the request, behind so many bytes of it.
    End { behind: u8 },
    /// The request was ended, and not refused.
    Over,
    Faulty,
}

/// What the next bytes are.
#[derive(Clone, Copy, Debug, PartialEq, Eq)]
pub enum Run {
    /// So many bytes of output.
    Output(usize),
    /// So many bytes that are none.
    Quiet(usize),
}

/// So many bytes that say nothing, and then a header.
fn skip(left: u32) -> Stage
    ensures place { place_of result ≡ flow.skip left }
    ensures stage { IsStage result }
{
    if left == 0 {
        Stage::Head {
            head: [0; 8],
            len: 0,
        }
    } else {
        Stage::Skip { left }
    }
}

/// What follows the header of a record of the request.
fn open_own(shut: bool, head: RecordHead) -> (Stage, bool)
    ensures place { (place_of result.0, result.1) ≡ opens_own shut head }
    ensures stage { IsStage result.0 }
{
    match head.kind {
        7 => (skip(u32::from(head.len) + u32::from(head.pad)), shut),
        6 if shut => (Stage::Faulty, shut),
        6 if head.len == 0 => (skip(u32::from(head.pad)), true),
        6 => (
            Stage::Output {
                left: head.len,
                pad: head.pad,
            },
            false,
        ),
        3 if head.len == 8 => (Stage::End { behind: 0 }, shut),
        _ => (Stage::Faulty, shut),
    }
}

/// What follows a header.
fn open(shut: bool, bytes: &[u8; 8]) -> (Stage, bool)
    ensures place { (place_of result.0, result.1) ≡ opens shut (head_of bytes.now) }
    ensures stage { IsStage result.0 }
{
    let Some(head) = read_head(bytes) else {
        return (Stage::Faulty, shut);
    };
    match head.id {
        0 => (skip(u32::from(head.len) + u32::from(head.pad)), shut),
        1 => open_own(shut, head),
        _ => (Stage::Faulty, shut),
    }
}

/// What a header becomes by one more byte.
fn head_byte(mut head: [u8; 8], len: usize, shut: bool, byte: u8) -> (Stage, bool)
    requires { len < 8 }
    ensures place { (place_of result.0, result.1) ≡ leads (InRecord (take len head)) shut byte }
    ensures stage { IsStage result.0 }
{
    head[len] = byte;
    if len == 7 {
        open(shut, &head)
    } else {
        (Stage::Head { head, len: len + 1 }, shut)
    }
}

/// What the end of the request becomes by one more byte: its fifth byte says whether the request was refused.
fn end_byte(behind: u8, byte: u8) -> Stage
    requires { behind < 8 }
    ensures place { (shut : Bool) → (place_of result, shut) ≡ leads (InEnd behind) shut byte }
    ensures stage { IsStage result }
{
    match behind {
        4 if byte != 0 => Stage::Faulty,
        7 => Stage::Over,
        _ => Stage::End { behind: behind + 1 },
    }
}

/// How many of so many bytes are output, and what follows them.
fn output_run(left: u16, pad: u8, len: usize) -> (Stage, usize)
    requires left { 0 < left }
    requires len { 0 < len }
    ensures some { 0 < result.1 }
    ensures within { (result.1 ≤ len) × (result.1 ≤ left) }
    ensures place { place_of result.0 ≡ after_output left pad result.1 }
    ensures stage { IsStage result.0 }
{
    let count = usize::from(left).min(len);
    let left = left - count as u16;
    if left == 0 {
        (skip(u32::from(pad)), count)
    } else {
        (Stage::Output { left, pad }, count)
    }
}

/// How many of so many bytes say nothing, where so many more may, and what follows them.
fn skip_run(left: u32, len: usize, most: u32) -> (Stage, u32)
    requires left { 0 < left }
    requires len { 0 < len }
    requires most { 0 < most }
    ensures some { 0 < result.1 }
    ensures within { (result.1 ≤ len) × (result.1 ≤ left) × (result.1 ≤ most) }
    ensures place { place_of result.0 ≡ flow.skip (left - result.1) }
    ensures stage { IsStage result.0 }
{
    let most = left.min(most);
    let count = if len < most as usize {
        len as u32
    } else {
        most
    };
    (skip(left - count), count)
}

/// Faulty, where too many bytes in a row added none to the output and the end has not come.
fn tire(stage: Stage, idle: u32) -> Stage
    requires { IsStage stage }
    ensures place { place_of result ≡ tired (place_of stage) idle }
    ensures stage { IsStage result }
    ensures going { is_going (place_of result) ≡ true → idle < patience }
{
    if idle < PATIENCE {
        return stage;
    }
    match stage {
        Stage::Over => Stage::Over,
        _ => Stage::Faulty,
    }
}

/// A reader of the records of an application, whose bytes come in any pieces. It takes no memory.
#[derive(Debug, Drop)]
pub struct RecordReader {
    stage: Stage,
    shut: bool,
    idle: u32,
}

impl Model for RecordReader {
    ghost use Rattle.std.specs.Prelude.{◌≡◌, ◌<◌, true};
    ghost use Rattle.fcgi_lane.specs.Answer.Flow.{Flow, patience, is_going};
    ghost use Rattle.fcgi_lane.specs.Answer.Reader.{place_of, IsStage};

    ghost Value = { Flow };

    ghost view = { λ r. record { place = place_of r.stage; shut = r.shut; idle = r.idle } };

    ghost invariant = { λ r. IsStage r.stage × (is_going (place_of r.stage) ≡ true → r.idle < patience) };
}

impl RecordReader {
    /// A reader of a stream that has not begun.
    pub fn new() -> RecordReader
        ensures { result ≡ flow.fresh }
    {
        RecordReader {
            stage: skip(0),
            shut: false,
            idle: 0,
        }
    }

    /// Whether the request is neither ended nor faulty.
    pub fn is_going(&self) -> bool
        ensures going { result ≡ is_going self.now.place }
        ensures patient { result ≡ true → self.now.idle < patience }
    {
        !matches!(self.stage, Stage::Over | Stage::Faulty)
    }

    /// Whether the request was ended, and not refused.
    pub fn is_over(&self) -> bool
        ensures { result ≡ is_over self.now.place }
    {
        matches!(self.stage, Stage::Over)
    }

    /// Reads bytes at the front, and says how many these are and whether they are output.
    #[tactic(auto, using(crate::proofs::AnswerLemmas::Runs::output_run_goes))]
    pub fn feed(&mut self, bytes: &[u8]) -> Run
        requires some { 0 < length bytes.now }
        requires going { is_going self.old.place ≡ true }
        ensures some { 0 < used_by result }
        ensures within { used_by result ≤ length bytes.now }
        ensures goes { Goes self.old (take (used_by result) bytes.now) self.new (output_by result bytes.now) }
        ensures idle { (n : ℕ) → result ≡ Run.Quiet n → self.new.idle ≡ self.old.idle + n }
        ensures patient { is_going self.new.place ≡ true → self.new.idle < patience }
    {
        match self.stage {
            Stage::Output { left, pad } => {
                let (stage, count) = output_run(left, pad, bytes.len());
                self.stage = stage;
                self.idle = 0;
                Run::Output(count)
            }
            Stage::Skip { left } => {
                let (stage, count) = skip_run(left, bytes.len(), PATIENCE - self.idle);
                self.idle += count;
                self.stage = tire(stage, self.idle);
                Run::Quiet(count as usize)
            }
            Stage::Head { head, len } => {
                let (stage, shut) = head_byte(head, len, self.shut, bytes[0]);
                self.idle += 1;
                self.stage = tire(stage, self.idle);
                self.shut = shut;
                Run::Quiet(1)
            }
            Stage::End { behind } => {
                let stage = end_byte(behind, bytes[0]);
                self.idle += 1;
                self.stage = tire(stage, self.idle);
                Run::Quiet(1)
            }
            Stage::Over | Stage::Faulty => Run::Quiet(bytes.len()),
        }
    }
}

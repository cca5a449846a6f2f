//! Where the body of a request stands, read as the proxy spells it (RFC 9112 sections 6 and 7.1). It takes no memory.
ghost use Rattle.std.specs.Prelude.{◌≡◌, ◌<◌, ◌≤◌, length, take, false};
ghost use Rattle.fcgi_model.specs.Body as body;
ghost use Rattle.fcgi_model.specs.Body.{Goes, leads, size_by, if_byte, body_at, is_whole, is_going};
ghost use Rattle.fcgi_lane.specs.Request.Stages.{place_of, IsStage, used_by, found_by};

use crate::request::records::MOST_CONTENT;
use http_model::Framing;
use px_bytes::hex_value;

/// Where a body stands.
#[derive(Clone, Copy, Debug)]
pub(crate) enum BodyStage {
    /// So many bytes are to come.
    Length { left: u64 },
    /// In the size of a chunk, which is this number so far; whether it has a digit.
    Size { some: bool, size: u32 },
    /// Behind the CR of that line.
    BehindSize { size: u32 },
    /// So many bytes of a chunk are to come.
    Chunk { left: u32 },
    BehindChunk,
    BehindReturn,
    /// At the beginning of a line behind the chunks.
    AtTrailer,
    InTrailer,
    BehindTrailer,
    /// Behind the CR of the empty line.
    AtLast,
    Whole,
    Broken,
}

/// What the next bytes are.
#[derive(Clone, Copy, Debug)]
pub(crate) enum BodyRun {
    /// So many bytes of the body.
    Body(usize),
    /// One byte that isn't.
    Frame,
}

/// So many bytes of a body of known length are left.
fn length_left(left: u64) -> BodyStage
    ensures place { place_of result ≡ body.length_left left }
    ensures stage { IsStage result }
{
    if left == 0 {
        BodyStage::Whole
    } else {
        BodyStage::Length { left }
    }
}

/// So many bytes of a chunk are left.
fn chunk_left(left: u32) -> BodyStage
    ensures place { place_of result ≡ body.chunk_left left }
    ensures stage { IsStage result }
{
    if left == 0 {
        BodyStage::BehindChunk
    } else {
        BodyStage::Chunk { left }
    }
}

/// Where a body of this framing begins.
pub(crate) fn body_at(framing: Framing) -> BodyStage
    ensures place { place_of result ≡ body_at framing }
    ensures stage { IsStage result }
{
    match framing {
        Framing::Absent => BodyStage::Whole,
        Framing::Length(n) => length_left(n),
        Framing::Chunked => BodyStage::Size {
            some: false,
            size: 0,
        },
        Framing::ToClose => BodyStage::Broken,
    }
}

/// Whether a body is whole.
pub(crate) fn is_whole(stage: BodyStage) -> bool
    ensures { result ≡ is_whole (place_of stage) }
{
    matches!(stage, BodyStage::Whole)
}

/// Whether more of a body is to come.
pub(crate) fn is_going(stage: BodyStage) -> bool
    ensures { result ≡ is_going (place_of stage) }
{
    !matches!(stage, BodyStage::Whole | BodyStage::Broken)
}

/// The stage, where the byte is the one that is wanted.
fn if_byte(byte: u8, wanted: u8, stage: BodyStage) -> BodyStage
    requires { IsStage stage }
    ensures place { place_of result ≡ if_byte byte wanted (place_of stage) }
    ensures stage { IsStage result }
{
    if byte == wanted {
        stage
    } else {
        BodyStage::Broken
    }
}

/// What a size becomes by one more byte.
fn size_byte(some: bool, size: u32, byte: u8) -> BodyStage
    ensures place { place_of result ≡ size_by some size byte }
    ensures stage { IsStage result }
{
    let Some(digit) = hex_value(byte) else {
        if some {
            return if_byte(byte, b'\r', BodyStage::BehindSize { size });
        }
        return BodyStage::Broken;
    };
    if size < 0x1000_0000 {
        return BodyStage::Size {
            some: true,
            size: size * 16 + digit,
        };
    }
    BodyStage::Broken
}

/// What follows the line of a size.
fn behind_size(size: u32) -> BodyStage
    ensures place { place_of result ≡ body.behind_size size }
    ensures stage { IsStage result }
{
    if size == 0 {
        BodyStage::AtTrailer
    } else {
        BodyStage::Chunk { left: size }
    }
}

/// Where one more byte leads behind the chunks.
fn trailer_byte(at: BodyStage, byte: u8, other: BodyStage) -> BodyStage
    requires at { IsStage at }
    requires other { IsStage other }
    ensures place { place_of result ≡ body.at_return byte (place_of at) (place_of other) }
    ensures stage { IsStage result }
{
    if byte == b'\r' { at } else { other }
}

/// Where one more byte leads.
fn step(stage: BodyStage, byte: u8) -> BodyStage
    requires { IsStage stage }
    ensures place { place_of result ≡ leads (place_of stage) byte }
    ensures stage { IsStage result }
{
    match stage {
        BodyStage::Length { left } => length_left(left - 1),
        BodyStage::Size { some, size } => size_byte(some, size, byte),
        BodyStage::BehindSize { size } => if_byte(byte, b'\n', behind_size(size)),
        BodyStage::Chunk { left } => chunk_left(left - 1),
        BodyStage::BehindChunk => if_byte(byte, b'\r', BodyStage::BehindReturn),
        BodyStage::BehindReturn => if_byte(
            byte,
            b'\n',
            BodyStage::Size {
                some: false,
                size: 0,
            },
        ),
        BodyStage::AtTrailer => trailer_byte(BodyStage::AtLast, byte, BodyStage::InTrailer),
        BodyStage::InTrailer => trailer_byte(BodyStage::BehindTrailer, byte, BodyStage::InTrailer),
        BodyStage::BehindTrailer => if_byte(byte, b'\n', BodyStage::AtTrailer),
        BodyStage::AtLast => if_byte(byte, b'\n', BodyStage::Whole),
        BodyStage::Whole => BodyStage::Whole,
        BodyStage::Broken => BodyStage::Broken,
    }
}

/// What bytes at the front are, at most a record of the body, and what follows them.
#[tactic(auto, using(crate::proofs::RequestLemmas::Places::one_frame))]
pub(crate) fn read_run(stage: BodyStage, bytes: &[u8]) -> (BodyStage, BodyRun)
    requires some { 0 < length bytes.now }
    requires stage { IsStage stage }
    ensures some { 0 < used_by result.1 }
    ensures within { used_by result.1 ≤ length bytes.now }
    ensures short { used_by result.1 ≤ 8192 }
    ensures goes { Goes (place_of stage) (take (used_by result.1) bytes.now) (place_of result.0) (found_by result.1 bytes.now) }
    ensures stage { IsStage result.0 }
{
    let most = bytes.len().min(MOST_CONTENT);
    match stage {
        BodyStage::Length { left } => {
            let count = left.min(most as u64);
            (length_left(left - count), BodyRun::Body(count as usize))
        }
        BodyStage::Chunk { left } => {
            let count = left.min(most as u32);
            (chunk_left(left - count), BodyRun::Body(count as usize))
        }
        _ => (step(stage, bytes[0]), BodyRun::Frame),
    }
}

//! What each stage of a reader makes of a window.
ghost use Rattle.std.specs.Prelude.{◌≡◌, ◌≤◌, ◌<◌, ◌⊎◌, [], ℕ};
ghost use Rattle.h1_body.specs.declared.stages.Stage.TheVariants as stage;
ghost use Rattle.h1_body.specs.Stands.{Feeds, WaitsAt, TakesAhead};

use crate::line::{LineRead, read_line};
use crate::section::{SectionRead, read_section};

/// Where the reader stands, always between two lines, ends of lines or pieces of data.
#[derive(Clone, Copy)]
pub enum Stage {
    /// So many bytes are to come.
    Left(u64),
    /// All bytes are data.
    UntilClose,
    /// A chunk line is next.
    Line,
    /// So many bytes of a chunk are to come.
    Data(u32),
    /// The end of a chunk is next.
    LineEnd,
    /// The trailer section is next.
    Section,
    /// The body is whole.
    Over,
    /// No continuation is a body.
    Dead,
}

/// What a step found at the front of the bytes that it used.
#[derive(Clone, Copy)]
pub enum Found {
    Nothing,
    /// So many bytes of data.
    Data(usize),
    /// A trailer section of so many bytes.
    Section(usize),
}

/// What a stage makes of a window: the next stage, the bytes used, and what was found in them.
#[derive(Clone, Copy)]
pub struct Fed {
    pub stage: Stage,
    pub used: usize,
    pub found: Found,
}

/// How many bytes of the window there is room for.
fn fitting(window: usize, room: u32) -> usize
    ensures within { (result ≤ window) × (result ≤ room) }
    ensures most { (result ≡ window) ⊎ (result ≡ room) }
{
    if window <= room as usize {
        window
    } else {
        room as usize
    }
}

/// How many bytes of data a step takes.
fn data_len(left: u64, window: usize, room: u32) -> usize
    ensures within { (result ≤ left) × (result ≤ window) × (result ≤ room) }
    ensures most { (result ≡ left) ⊎ ((result ≡ window) ⊎ (result ≡ room)) }
{
    let most = fitting(window, room);
    if (most as u64) <= left {
        most
    } else {
        left as usize
    }
}

/// So many bytes are to come.
fn feed_left(left: u64, window: &[u8], room: u32) -> Fed
    ensures feeds { (most : ℕ) → Feeds most (stage.Left left) window.now room result }
    ensures ahead { TakesAhead (stage.Left left) window.now room result }
{
    let len = data_len(left, window.len(), room);
    let stage = if len as u64 == left {
        Stage::Over
    } else {
        Stage::Left(left - len as u64)
    };
    Fed {
        stage,
        used: len,
        found: Found::Data(len),
    }
}

/// All bytes are data.
fn feed_until_close(window: &[u8], room: u32) -> Fed
    ensures feeds { (most : ℕ) → Feeds most stage.UntilClose window.now room result }
    ensures ahead { TakesAhead stage.UntilClose window.now room result }
{
    let len = fitting(window.len(), room);
    Fed {
        stage: Stage::UntilClose,
        used: len,
        found: Found::Data(len),
    }
}

/// So many bytes of a chunk are to come.
fn feed_data(left: u32, window: &[u8], room: u32) -> Fed
    ensures { (most : ℕ) → Feeds most (stage.Data left) window.now room result }
{
    let len = data_len(left as u64, window.len(), room);
    let stage = if len as u64 == left as u64 {
        Stage::LineEnd
    } else {
        Stage::Data(left - len as u32)
    };
    Fed {
        stage,
        used: len,
        found: Found::Data(len),
    }
}

/// A chunk line is next.
fn feed_line(window: &[u8], room: u32) -> Fed
    ensures { (most : ℕ) → Feeds most stage.Line window.now room result }
{
    match read_line(window) {
        LineRead::Line { len, size } => {
            if size == 0 {
                Fed {
                    stage: Stage::Section,
                    used: len,
                    found: Found::Nothing,
                }
            } else {
                Fed {
                    stage: Stage::Data(size),
                    used: len,
                    found: Found::Nothing,
                }
            }
        }
        LineRead::More => Fed {
            stage: Stage::Line,
            used: 0,
            found: Found::Nothing,
        },
        LineRead::Bad(used) => Fed {
            stage: Stage::Dead,
            used,
            found: Found::Nothing,
        },
    }
}

/// The end of a chunk is next.
fn feed_line_end(window: &[u8], room: u32) -> Fed
    ensures { (most : ℕ) → Feeds most stage.LineEnd window.now room result }
{
    let (stage, used) = match window {
        [] => (Stage::LineEnd, 0),
        [b'\r'] => (Stage::LineEnd, 0),
        [b'\r', b'\n', ..] => (Stage::Line, 2),
        [b'\r', _, ..] => (Stage::Dead, 2),
        [_, ..] => (Stage::Dead, 1),
    };
    Fed {
        stage,
        used,
        found: Found::Nothing,
    }
}

/// A trailer section of at most `limit` bytes is next.
fn feed_section(window: &[u8], room: u32, limit: u32) -> Fed
    ensures { Feeds limit stage.Section window.now room result }
{
    match read_section(window, limit) {
        SectionRead::Whole(used) => Fed {
            stage: Stage::Over,
            used,
            found: Found::Section(used),
        },
        SectionRead::More => Fed {
            stage: Stage::Section,
            used: 0,
            found: Found::Nothing,
        },
        SectionRead::Bad => Fed {
            stage: Stage::Dead,
            used: window.len(),
            found: Found::Nothing,
        },
    }
}

/// Nothing is next.
fn stay(stage: Stage, window: &[u8], room: u32) -> Fed
    requires { (most : ℕ) → WaitsAt most stage window.now room }
    ensures { (most : ℕ) → Feeds most stage window.now room result }
{
    Fed {
        stage,
        used: 0,
        found: Found::Nothing,
    }
}

/// What a stage makes of a window.
pub fn feed_at(stage: Stage, window: &[u8], room: u32, limit: u32) -> Fed
    ensures feeds { Feeds limit stage window.now room result }
    ensures ahead { TakesAhead stage window.now room result }
{
    match stage {
        Stage::Left(left) => feed_left(left, window, room),
        Stage::UntilClose => feed_until_close(window, room),
        Stage::Line => feed_line(window, room),
        Stage::Data(left) => feed_data(left, window, room),
        Stage::LineEnd => feed_line_end(window, room),
        Stage::Section => feed_section(window, room, limit),
        Stage::Over => stay(Stage::Over, window, room),
        Stage::Dead => stay(Stage::Dead, window, room),
    }
}

//! How far a window is known to be the front of a trailer section, so that one that comes byte by byte isn't parsed once a byte.
ghost use Rattle.std.specs.Prelude.{◌≡◌, ◌≤◌, ◌<◌, ◌+◌, ◌++◌, ◌∷◌, [], if◌then◌else◌, List, ℕ, length, drop, true, IfSome};
ghost use Rattle.h1_head.specs.Decides.{is_line_feed};
ghost use Rattle.h1_body.specs.Scan.{IsFront, IsScanned};
ghost use Rattle.h1_body.specs.declared.stages.Stage.TheVariants as stages;

use crate::section::MAX_FIELDS;
use crate::stages::Stage;
use px_bytes::is_token;

/// Where the front of a trailer section ends.
#[derive(Clone, Copy)]
pub enum SectionPlace {
    /// Behind whole fields.
    LineStart,
    /// In a name.
    Name,
    /// Behind the colon, in a value.
    Value,
    /// Behind the carriage return of a field.
    Return,
}

/// How far a window was looked at for a trailer section: so many bytes, with so many lines among them.
#[derive(Clone, Copy)]
pub struct SectionScan {
    len: usize,
    lines: usize,
    place: SectionPlace,
}

impl SectionScan {
    /// Nothing was looked at.
    pub fn new() -> SectionScan
        ensures { (window : List ℕ) → IsScanned window result }
    {
        SectionScan {
            len: 0,
            lines: 0,
            place: SectionPlace::LineStart,
        }
    }
}

/// The place behind a byte of a value, or behind its end.
fn behind_value(byte: u8) -> Option<SectionPlace>
    ensures { IfSome result (λ next. (bytes : List ℕ) → IsFront SectionPlace.Value bytes → IsFront next (bytes ++ byte ∷ [])) }
{
    if byte == b'\t' {
        return Some(SectionPlace::Value);
    }
    if byte >= 32 && byte != 127 {
        return Some(SectionPlace::Value);
    }
    if byte == b'\r' {
        return Some(SectionPlace::Return);
    }
    if byte == b'\n' {
        return Some(SectionPlace::LineStart);
    }
    None
}

/// The place behind one more byte, where the front of a section goes on so. The empty line is no front.
fn next_place(place: SectionPlace, byte: u8) -> Option<SectionPlace>
    ensures { IfSome result (λ next. (bytes : List ℕ) → IsFront place bytes → IsFront next (bytes ++ byte ∷ [])) }
{
    match place {
        SectionPlace::LineStart => {
            if is_token(&[byte]) {
                return Some(SectionPlace::Name);
            }
            None
        }
        SectionPlace::Name => {
            if is_token(&[byte]) {
                return Some(SectionPlace::Name);
            }
            if byte == b':' {
                return Some(SectionPlace::Value);
            }
            None
        }
        SectionPlace::Value => behind_value(byte),
        SectionPlace::Return => {
            if byte == b'\n' {
                return Some(SectionPlace::LineStart);
            }
            None
        }
    }
}

/// How many lines ended behind one more byte.
fn lines_behind(lines: usize, byte: u8) -> usize
    requires { lines < 65 }
    ensures count { result ≡ lines + (if is_line_feed byte then 1 else 0) }
    ensures few { result ≤ 65 }
{
    if byte == b'\n' { lines + 1 } else { lines }
}

/// Goes on over a window as far as it is the front of a section of at most 64 lines of fields.
fn scan_on(scan: SectionScan, window: &[u8]) -> SectionScan
    requires { IsScanned window.now scan }
    ensures { IsScanned window.now result }
{
    let mut lines = scan.lines;
    let mut place = scan.place;
    for at in scan.len..window.len() {
        let byte = window[at];
        let behind = lines_behind(lines, byte);
        match next_place(place, byte) {
            Some(next) => {
                if behind > MAX_FIELDS {
                    return SectionScan {
                        len: at,
                        lines,
                        place,
                    };
                }
                place = next;
                lines = behind;
            }
            None => {
                return SectionScan {
                    len: at,
                    lines,
                    place,
                };
            }
        }
    }
    SectionScan {
        len: window.len(),
        lines,
        place,
    }
}

/// Looks on where a section is next.
pub fn look_on(stage: Stage, scan: SectionScan, window: &[u8]) -> SectionScan
    requires { IsScanned window.now scan }
    ensures { IsScanned window.now result }
{
    match stage {
        Stage::Section => scan_on(scan, window),
        Stage::Left(_) => scan,
        Stage::UntilClose => scan,
        Stage::Line => scan,
        Stage::Data(_) => scan,
        Stage::LineEnd => scan,
        Stage::Over => scan,
        Stage::Dead => scan,
    }
}

/// Whether a section is next, and all of the window is the front of one within its limit.
pub fn is_early(stage: Stage, scan: SectionScan, window: &[u8], limit: u32) -> bool
    ensures { result ≡ true → (stage ≡ stages.Section) × (scan.len ≡ length window.now) × (length window.now < limit) }
{
    match stage {
        Stage::Section => {
            if scan.len != window.len() {
                return false;
            }
            window.len() < limit as usize
        }
        Stage::Left(_) => false,
        Stage::UntilClose => false,
        Stage::Line => false,
        Stage::Data(_) => false,
        Stage::LineEnd => false,
        Stage::Over => false,
        Stage::Dead => false,
    }
}

/// What is known of a window once so many bytes were used.
pub fn behind_used(scan: SectionScan, window: &[u8], used: usize) -> SectionScan
    requires { IsScanned window.now scan }
    ensures { IsScanned (drop used window.now) result }
{
    if used == 0 {
        return scan;
    }
    SectionScan::new()
}

//! The head that a whole stream begins with.
ghost use Rattle.std.specs.Prelude.{◌≡◌, ◌≤◌, take, drop, codes, length};
ghost use Rattle.std.specs.Str.{bytes_eq};
ghost use Rattle.http_model.specs.Head.{Head as SpecHead, head_blocks};
ghost use Rattle.http_model.specs.Sizes.{least_size, most_size, least_head};
ghost use Rattle.session_model.specs.Asking.{Asker};
ghost use Rattle.session_model.specs.Meaning.{is_interim};
ghost use Rattle.http_rules.specs.declared.config.Config.{Config};
ghost use Rattle.http_rules.specs.Valid.{AreLimits};
ghost use Rattle.h1_head.specs.Sides.{kind_of};
ghost use Rattle.px_explain.specs.Found.{IsFound, IsFoundFinal};

use h1_head::laws::{drops_lines, has_bytes};
use h1_head::{HeadRead, Side, read_head};
use http_model::{Framing, Limits};
use htx_arena::Arena;
use htx_view::response_parts;

/// A head that was received, whose blocks stand in an array.
#[derive(Clone, Copy)]
pub(crate) struct Head {
    /// The bytes in front of what follows it.
    pub(crate) used: usize,
    pub(crate) framing: Framing,
    pub(crate) declared: Option<u64>,
    pub(crate) close: bool,
}

/// What a stream begins with.
#[derive(Clone, Copy)]
pub(crate) enum Found {
    /// Empty lines alone.
    Nothing,
    /// No head, or one that is refused with this code.
    Refused(u16),
    Head(Head),
}

/// The first bytes, as many as there may be.
pub(crate) fn front(bytes: &[u8], most: usize) -> &[u8]
    ensures { result.now ≡ take most bytes.now }
{
    if bytes.len() <= most {
        return bytes;
    }
    &bytes[..most]
}

/// The bytes behind so many.
fn bytes_from(bytes: &[u8], from: usize) -> &[u8]
    requires { from ≤ length bytes.now }
    ensures { result.now ≡ drop from bytes.now }
{
    &bytes[from..]
}

/// The head that a stream begins with.
pub(crate) fn find_head(stream: &[u8], side: Side, limits: Limits, to: &mut Arena) -> Found
    requires limits { AreLimits limits }
    requires size { to.old.size ≡ limits.bufsize }
    ensures found { IsFound (kind_of side) limits stream.now result to.new.blocks }
    ensures size { to.new.size ≡ to.old.size }
{
    drops_lines();
    let most = limits.bufsize as usize;
    let mut from = 0;
    'windows: loop {
        to.clear();
        let rest = bytes_from(stream, from);
        let whole = rest.len() <= most;
        match read_head(front(rest, most), whole, side, limits, to) {
            HeadRead::More { skip } => {
                if whole {
                    return Found::Nothing;
                }
                from += skip;
            }
            HeadRead::Refuse { code, why: _ } => return Found::Refused(code),
            HeadRead::Head {
                used,
                framing,
                declared,
                close,
            } => {
                return Found::Head(Head {
                    used: from + used,
                    framing,
                    declared,
                    close,
                });
            }
        }
    }
}

/// Whether the first byte is the digit 1.
fn begins_with_1(status: &[u8]) -> bool
    ensures { result ≡ bytes_eq (take 1 status.now) (codes "1") }
{
    let first = status.len().min(1);
    &status[..first] == b"1".as_slice()
}

/// Whether a head is that of an interim response: its status is 100 to 199 (RFC 9110 section 15.2).
fn is_interim(msg: &Arena) -> bool
    ensures { (head : SpecHead) → msg.now.blocks ≡ head_blocks head → result ≡ is_interim head }
{
    match response_parts(msg) {
        Some(line) => begins_with_1(line.b),
        None => false,
    }
}

/// The first head of a server's stream that isn't an interim one, or what stands in its place.
pub(crate) fn find_final(stream: &[u8], head_asked: bool, limits: Limits, to: &mut Arena) -> Found
    requires limits { AreLimits limits }
    requires size { to.old.size ≡ limits.bufsize }
    ensures found { (cfg : Config) (asker : Asker) → cfg.limits ≡ limits → asker.head_asked ≡ head_asked → IsFoundFinal cfg asker stream.now result to.new.blocks }
    ensures size { to.new.size ≡ to.old.size }
{
    has_bytes();
    let mut from = 0;
    'heads: loop {
        let rest = bytes_from(stream, from);
        match find_head(rest, Side::Response { head_asked }, limits, to) {
            Found::Nothing => return Found::Nothing,
            Found::Refused(code) => return Found::Refused(code),
            Found::Head(head) => {
                if !is_interim(to) {
                    return Found::Head(head);
                }
                from += head.used;
            }
        }
    }
}

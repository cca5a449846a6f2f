//! Templates with the groups of a match put in, all of one or nothing.
ghost use Rattle.std.specs.Prelude.{◌≡◌, ◌+◌, ◌<◌, ◌≤◌, ◌↔◌, ◌++◌, ◌==◌, not, length, IsTrue};
ghost use Rattle.std.specs.Bool.{OnTrue, OnFalse};
ghost use Rattle.std.specs.List.{prefix_len};
ghost use Rattle.px_pattern.specs.Groups.{group_at, LieIn};
ghost use Rattle.px_conv.specs.Template.{bytes_of, expanded};

use px_pattern::Groups;
use px_sample::Buf;

/// The bytes of a group.
fn group_bytes<'a>(groups: &Groups, n: u32, text: &'a [u8]) -> &'a [u8]
    requires { LieIn (length text.now) groups.now }
    ensures { result.now ≡ bytes_of text.now (group_at groups.now n) }
{
    match groups.span(n) {
        Some(span) => &text[span.from..span.from + span.len],
        None => &[],
    }
}

/// How many bytes there are before the first backslash.
fn plain_len(template: &[u8]) -> usize
    ensures { result ≡ prefix_len (λ b. not (b == 92)) template.now }
{
    template.iter().take_while(|b| **b != b'\\').count()
}

/// What the front of a template gives, and what is left of it.
fn next_piece<'a>(template: &'a [u8], groups: &Groups, text: &'a [u8]) -> (&'a [u8], &'a [u8])
    requires some { 0 < length template.now }
    requires inside { LieIn (length text.now) groups.now }
    ensures joined { expanded groups.now text.now template.now ≡ result.0.now ++ expanded groups.now text.now result.1.now }
    ensures shorter { length result.1.now < length template.now }
{
    let plain = plain_len(template);
    if plain > 0 {
        return template.split_at(plain);
    }
    if template.len() == 1 {
        return template.split_at(1);
    }
    let next = template[1];
    if next.is_ascii_digit() {
        return (
            group_bytes(groups, u32::from(next - b'0'), text),
            &template[2..],
        );
    }
    if next == b'\\' {
        return (&template[..1], &template[2..]);
    }
    template.split_at(1)
}

/// Puts the template behind what the buffer holds, with the groups of a match in the text: `\0` to `\9` are the
/// groups, empty where they took no part or don't exist, `\\` is one backslash, and another backslash stays.
/// False where the whole doesn't fit, and then the buffer is unchanged.
pub fn expand(template: &[u8], groups: &Groups, text: &[u8], into: &mut Buf) -> bool
    requires { LieIn (length text.now) groups.now }
    ensures fits { IsTrue result ↔ (length into.old.bytes + length (expanded groups.now text.now template.now) ≤ into.old.cap) }
    ensures expanded { OnTrue result (into.new.bytes ≡ into.old.bytes ++ expanded groups.now text.now template.now) }
    ensures unchanged { OnFalse result (into.new ≡ into.old) }
    ensures cap { into.new.cap ≡ into.old.cap }
{
    let held = into.bytes().len();
    let mut rest = template;
    'pieces: while !rest.is_empty() {
        let (piece, after) = next_piece(rest, groups, text);
        if !into.push(piece) {
            into.truncate(held);
            return false;
        }
        rest = after;
    }
    true
}

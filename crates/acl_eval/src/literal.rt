//! Texts against literals, with the case of ASCII letters ignored or not.
ghost use Rattle.std.specs.Prelude.{◌≡◌, nat_eq};
ghost use Rattle.std.specs.Str.{bytes_eq};
ghost use Rattle.std.specs.List.{starts_with, ends_with};
ghost use Rattle.acl_eval.specs.Matches.{compared, contains_text, literal_matches};

use crate::condition::Match;

/// Whether a literal equals a text.
fn equals(icase: bool, literal: &[u8], text: &[u8]) -> bool
    ensures { result ≡ bytes_eq (compared icase literal.now) (compared icase text.now) }
{
    if icase {
        literal.eq_ignore_ascii_case(text)
    } else {
        literal == text
    }
}

/// Whether a text begins with a literal.
fn begins(icase: bool, literal: &[u8], text: &[u8]) -> bool
    ensures { result ≡ starts_with nat_eq (compared icase text.now) (compared icase literal.now) }
{
    if text.len() < literal.len() {
        return false;
    }
    equals(icase, literal, &text[..literal.len()])
}

/// Whether it ends with one.
fn ends(icase: bool, literal: &[u8], text: &[u8]) -> bool
    ensures { result ≡ ends_with nat_eq (compared icase text.now) (compared icase literal.now) }
{
    if text.len() < literal.len() {
        return false;
    }
    equals(icase, literal, &text[text.len() - literal.len()..])
}

/// Whether it contains one.
fn contains(icase: bool, literal: &[u8], text: &[u8]) -> bool
    ensures { result ≡ contains_text (compared icase text.now) (compared icase literal.now) }
{
    for at in 0..text.len() {
        if begins(icase, literal, &text[at..]) {
            return true;
        }
    }
    begins(icase, literal, &text[text.len()..])
}

/// Whether a text matches a literal.
pub fn matches_literal(how: Match, icase: bool, literal: &[u8], text: &[u8]) -> bool
    ensures { result ≡ literal_matches how (compared icase text.now) (compared icase literal.now) }
{
    match how {
        Match::Str => equals(icase, text, literal),
        Match::Beg => begins(icase, literal, text),
        Match::End => ends(icase, literal, text),
        Match::Sub => contains(icase, literal, text),
        Match::Found | Match::Bool | Match::Int | Match::Len | Match::Reg => false,
    }
}

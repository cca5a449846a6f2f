//! Version 1: one line of text.
ghost use Rattle.std.specs.Prelude.{◌≡◌, ◌≢◌, ◌++◌, ◌∷◌, ℕ, true, false, All, List, Option, IfSome, IfNone, codes, length, take, drop};
ghost use Rattle.px_peer.specs.declared.Pair.{Pair};
ghost use Rattle.px_proxyproto.specs.Lines.{IsInWord, IsPairText, IsFamilyLine, IsLineOf, AreOf, four_words};
ghost use Rattle.px_proxyproto.specs.Lines as Spec;

use crate::address::{read_address, read_port};
use px_peer::{Pair, Peer};

/// Whether the bytes begin with a word.
pub fn begins(bytes: &[u8], word: &[u8]) -> bool
    ensures yes { result ≡ true → take (length word.now) bytes.now ≡ word.now }
    ensures no { result ≡ false → take (length word.now) bytes.now ≢ word.now }
{
    bytes.starts_with(word)
}

/// The word in front of the first space, and what follows it.
fn cut(text: &[u8]) -> Option<(&[u8], &[u8])>
    ensures some { IfSome result (λ r. (text.now ≡ r.0.now ++ (32 ∷ r.1.now)) × All IsInWord r.0.now) }
    ensures none { IfNone result (All IsInWord text.now) }
{
    for i in 0..text.len() {
        if text[i] == b' ' {
            return Some((&text[..i], &text[i + 1..]));
        }
    }
    None
}

/// The pair of four words.
fn pair_of(v6: bool, src: &[u8], dst: &[u8], src_port: &[u8], dst_port: &[u8]) -> Option<Pair>
    ensures some { IfSome result (λ pair. AreOf v6 (four_words src.now dst.now src_port.now dst_port.now) pair) }
    ensures none { IfNone result ((pair : Pair) → ¬ (AreOf v6 (four_words src.now dst.now src_port.now dst_port.now) pair)) }
{
    let src_addr = read_address(v6, src)?;
    let dst_addr = read_address(v6, dst)?;
    let src_port = read_port(src_port)?;
    let dst_port = read_port(dst_port)?;
    Some(Pair {
        src: Peer {
            v6,
            addr: src_addr,
            port: src_port,
        },
        dst: Peer {
            v6,
            addr: dst_addr,
            port: dst_port,
        },
    })
}

/// The pair that the text behind the family's word writes.
#[tactic(auto, using(crate::proofs::Cuts::none_1, crate::proofs::Cuts::none_2, crate::proofs::Cuts::none_3, crate::proofs::Cuts::none_4, crate::proofs::Cuts::words_given))]
fn pair(v6: bool, text: &[u8]) -> Option<Pair>
    ensures some { IfSome result (λ pair. IsPairText v6 text.now pair) }
    ensures none { IfNone result ((pair : Pair) → ¬ (IsPairText v6 text.now pair)) }
{
    let Some((src, rest)) = cut(text) else {
        return None;
    };
    let Some((dst, ports)) = cut(rest) else {
        return None;
    };
    let Some((src_port, dst_port)) = cut(ports) else {
        return None;
    };
    match pair_of(v6, src, dst, src_port, dst_port) {
        Some(pair) => Some(pair),
        None => None,
    }
}

/// The word before both addresses.
pub fn family_word(v6: bool) -> &'static [u8; 11]
    ensures { result.now ≡ Spec.family_word v6 }
{
    if v6 { b"PROXY TCP6 " } else { b"PROXY TCP4 " }
}

/// The pair of a line of this family.
#[tactic(auto, using(crate::proofs::Cuts::no_family, crate::proofs::Cuts::no_pair, crate::proofs::Cuts::is_family))]
fn family_line(v6: bool, line: &[u8]) -> Option<Pair>
    ensures some { IfSome result (λ pair. IsFamilyLine v6 line.now pair) }
    ensures none { IfNone result ((pair : Pair) → ¬ (IsFamilyLine v6 line.now pair)) }
{
    let word = family_word(v6);
    if !begins(line, word) {
        return None;
    }
    match pair(v6, &line[word.len()..]) {
        Some(pair) => Some(pair),
        None => None,
    }
}

/// What a line tells, without its CR LF: a pair or that there is none. It is None where no header has this line.
#[tactic(auto, using(crate::proofs::Cuts::given_word, crate::proofs::Cuts::no_word))]
pub fn read_line(line: &[u8]) -> Option<Option<Pair>>
    ensures some { IfSome result (λ told. IsLineOf line.now told) }
    ensures none { IfNone result ((told : Option Pair) → ¬ (IsLineOf line.now told)) }
{
    if begins(line, b"PROXY UNKNOWN") {
        return Some(None);
    }
    match family_line(false, line) {
        Some(pair) => Some(Some(pair)),
        None => match family_line(true, line) {
            Some(pair) => Some(Some(pair)),
            None => None,
        },
    }
}

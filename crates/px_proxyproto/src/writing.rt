//! Writes a header of version 2.
ghost use Rattle.std.specs.Prelude.{◌≡◌, ◌+◌, ◌≤◌, ◌++◌, length, take, option_copied};
ghost use Rattle.px_proxyproto.specs.Texts as Spec;

use crate::binary::{LOCAL, PROXY, SIGNATURE, TCP4, TCP6};
use px_peer::Pair;

/// Writes a text behind the bytes that were written, and tells where it ends.
pub fn put(into: &mut [u8; 107], at: usize, text: &[u8]) -> usize
    requires room { at + length text.now ≤ 107 }
    ensures end { result ≡ at + length text.now }
    ensures front { take result into.new ≡ take at into.old ++ text.now }
{
    let end = at + text.len();
    into[at..end].copy_from_slice(text);
    end
}

#[tactic(auto, unfolding(crate::specs::Texts::octets_4))]
pub fn octets_4(addr: u128) -> [u8; 4]
    ensures { result ≡ Spec.octets_4 addr }
{
    let low = (addr % 0x1_0000_0000) as u32;
    low.to_be_bytes()
}

#[tactic(auto, unfolding(crate::specs::Texts::octets_6))]
fn octets_6(addr: u128) -> [u8; 16]
    ensures { result ≡ Spec.octets_6 addr }
{
    addr.to_be_bytes()
}

fn put_ports(into: &mut [u8; 107], at: usize, pair: &Pair) -> usize
    requires room { at + 4 ≤ 107 }
    ensures end { result ≡ at + 4 }
    ensures front { take result into.new ≡ take at into.old ++ Spec.ports_block pair.now }
{
    let at = put(into, at, &pair.src.port.to_be_bytes());
    put(into, at, &pair.dst.port.to_be_bytes())
}

pub fn put_block_4(into: &mut [u8; 107], at: usize, pair: &Pair) -> usize
    requires room { at ≤ 12 }
    ensures end { result ≡ at + 16 }
    ensures front { take result into.new ≡ take at into.old ++ Spec.block_4 pair.now }
{
    let at = put(into, at, &[PROXY, TCP4, 0, 12]);
    let at = put(into, at, &octets_4(pair.src.addr));
    let at = put(into, at, &octets_4(pair.dst.addr));
    put_ports(into, at, pair)
}

pub fn put_block_6(into: &mut [u8; 107], at: usize, pair: &Pair) -> usize
    requires room { at ≤ 12 }
    ensures end { result ≡ at + 40 }
    ensures front { take result into.new ≡ take at into.old ++ Spec.block_6 pair.now }
{
    let at = put(into, at, &[PROXY, TCP6, 0, 36]);
    let at = put(into, at, &octets_6(pair.src.addr));
    let at = put(into, at, &octets_6(pair.dst.addr));
    put_ports(into, at, pair)
}

/// Writes a header of version 2 at the front, and tells its length. Without a pair it is one that tells none. The family is that
/// of the source.
pub fn binary_text(pair: Option<&Pair>, into: &mut [u8; 107]) -> usize
    ensures within { result ≤ 107 }
    ensures front { take result into.new ≡ Spec.binary_of (option_copied pair.entry) }
{
    let at = put(into, 0, &SIGNATURE);
    match pair {
        Some(pair) => {
            if pair.src.v6 {
                return put_block_6(into, at, pair);
            }
            put_block_4(into, at, pair)
        }
        None => put(into, at, &[LOCAL, 0, 0, 0]),
    }
}

//! Writes a header of version 1.
ghost use Rattle.std.specs.Prelude.{◌≡◌, ◌+◌, ◌*◌, ◌≤◌, ◌++◌, ◌∷◌, decimal, length, take, true, false, option_copied};
ghost use Rattle.px_proxyproto.specs.Lines as Lines;
ghost use Rattle.px_proxyproto.specs.Texts as Spec;

use crate::line::family_word;
use crate::writing::{octets_4, put};
use px_bytes::{write_decimal, write_hex};
use px_peer::{Pair, Peer};
use std::net::Ipv6Addr;

/// Writes a number of at most five digits.
fn put_decimal(into: &mut [u8; 107], at: usize, n: u16) -> usize
    requires room { at + 5 ≤ 107 }
    ensures within { result ≤ at + 5 }
    ensures front { take result into.new ≡ take at into.old ++ decimal n }
{
    let mut text = [0; 20];
    let len = write_decimal(n as u64, &mut text);
    put(into, at, &text[..len])
}

/// Writes a number of at most three digits.
fn put_octet(into: &mut [u8; 107], at: usize, n: u8) -> usize
    requires room { at + 3 ≤ 107 }
    ensures within { result ≤ at + 3 }
    ensures front { take result into.new ≡ take at into.old ++ decimal n }
{
    let mut text = [0; 20];
    let len = write_decimal(n as u64, &mut text);
    put(into, at, &text[..len])
}

/// Writes a group of an address of IPv6, behind a colon where it isn't the first.
fn put_group(into: &mut [u8; 107], at: usize, first: bool, n: u16) -> usize
    requires room { at + 5 ≤ 107 }
    ensures within { result ≤ at + 5 }
    ensures front { take result into.new ≡ take at into.old ++ Spec.next_group first n }
{
    let mut text = [0; 8];
    let len = write_hex(n as u32, &mut text);
    if first {
        return put(into, at, &text[..len]);
    }
    let at = put(into, at, b":");
    put(into, at, &text[..len])
}

/// Writes groups with a colon between them.
fn put_groups(into: &mut [u8; 107], at: usize, groups: &[u16; 8]) -> usize
    requires room { at + 40 ≤ 107 }
    ensures within { result ≤ at + 40 }
    ensures front { take result into.new ≡ take at into.old ++ Spec.groups_text groups.now }
{
    let mut end = at;
    for i in 0..8 {
        end = put_group(into, end, i == 0, groups[i]);
    }
    end
}

/// Writes a dot, and a number behind it.
fn put_next_octet(into: &mut [u8; 107], at: usize, n: u8) -> usize
    requires room { at + 4 ≤ 107 }
    ensures within { result ≤ at + 4 }
    ensures front { take result into.new ≡ take at into.old ++ (46 ∷ decimal n) }
{
    let at = put(into, at, b".");
    put_octet(into, at, n)
}

/// Writes four numbers with a dot between them.
fn put_octets(into: &mut [u8; 107], at: usize, octets: &[u8; 4]) -> usize
    requires room { at + 15 ≤ 107 }
    ensures within { result ≤ at + 15 }
    ensures front { take result into.new ≡ take at into.old ++ Spec.dotted_text octets.now }
{
    let at = put_octet(into, at, octets[0]);
    let at = put_next_octet(into, at, octets[1]);
    let at = put_next_octet(into, at, octets[2]);
    put_next_octet(into, at, octets[3])
}

/// Writes an address of IPv6.
fn put_address_6(into: &mut [u8; 107], at: usize, addr: u128) -> usize
    requires room { at + 40 ≤ 107 }
    ensures within { result ≤ at + 40 }
    ensures front { take result into.new ≡ take at into.old ++ Spec.address_text true addr }
{
    let address = Ipv6Addr::from_bits(addr);
    let groups = address.segments();
    put_groups(into, at, &groups)
}

/// Writes an address of IPv4: the low 32 bits.
fn put_address_4(into: &mut [u8; 107], at: usize, addr: u128) -> usize
    requires room { at + 40 ≤ 107 }
    ensures within { result ≤ at + 40 }
    ensures front { take result into.new ≡ take at into.old ++ Spec.address_text false addr }
{
    let octets = octets_4(addr);
    put_octets(into, at, &octets)
}

/// Writes the address of an end, as one of this family.
fn put_address(into: &mut [u8; 107], at: usize, v6: bool, addr: u128) -> usize
    requires room { at + 40 ≤ 107 }
    ensures within { result ≤ at + 40 }
    ensures front { take result into.new ≡ take at into.old ++ Spec.address_text v6 addr }
{
    if v6 {
        return put_address_6(into, at, addr);
    }
    put_address_4(into, at, addr)
}

/// Writes the address of an end at the front, and tells its length: four numbers with a dot between them, or all eight groups.
pub fn address_text(peer: &Peer, into: &mut [u8; 107]) -> usize
    ensures within { result ≤ 40 }
    ensures front { take result into.new ≡ Spec.address_text peer.now.v6 peer.now.addr }
{
    put_address(into, 0, peer.v6, peer.addr)
}

/// Writes both addresses with a space behind each.
fn put_addresses(into: &mut [u8; 107], at: usize, pair: &Pair) -> usize
    requires room { at + 82 ≤ 107 }
    ensures within { result ≤ at + 82 }
    ensures front { take result into.new ≡ take at into.old ++ Spec.addresses_text pair.now }
{
    let v6 = pair.src.v6;
    let at = put_address(into, at, v6, pair.src.addr);
    let at = put(into, at, b" ");
    let at = put_address(into, at, v6, pair.dst.addr);
    put(into, at, b" ")
}

/// Writes both ports with a space between them.
fn put_port_texts(into: &mut [u8; 107], at: usize, pair: &Pair) -> usize
    requires room { at + 11 ≤ 107 }
    ensures within { result ≤ at + 11 }
    ensures front { take result into.new ≡ take at into.old ++ Spec.ports_text pair.now }
{
    let at = put_decimal(into, at, pair.src.port);
    let at = put(into, at, b" ");
    put_decimal(into, at, pair.dst.port)
}

/// Writes the line of a pair at the front, and tells its length.
fn put_line(into: &mut [u8; 107], pair: &Pair) -> usize
    ensures within { result ≤ 107 }
    ensures front { take result into.new ≡ Spec.line_text pair.now ++ Lines.line_end }
{
    let at = put(into, 0, family_word(pair.src.v6));
    let at = put_addresses(into, at, pair);
    let at = put_port_texts(into, at, pair);
    put(into, at, b"\r\n")
}

/// Writes a header of version 1 at the front, and tells its length. Without a pair it is one that tells none. The family is that
/// of the source.
pub fn text_header(pair: Option<&Pair>, into: &mut [u8; 107]) -> usize
    ensures within { result ≤ 107 }
    ensures front { take result into.new ≡ Spec.text_of (option_copied pair.entry) }
{
    match pair {
        Some(pair) => put_line(into, pair),
        None => put(into, 0, b"PROXY UNKNOWN\r\n"),
    }
}

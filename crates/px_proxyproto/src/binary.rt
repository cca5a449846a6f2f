//! Version 2: a signature, command, family and length, and a block of so many bytes.
ghost use Rattle.std.specs.Prelude.{◌≡◌, ◌+◌, ◌≤◌, true, length, take, drop};
ghost use Rattle.std.specs.Int.{w16, w32, from_be_bytes};
ghost use Rattle.px_proxyproto.specs.Binary as Spec;

use px_peer::{Pair, Peer};

/// CR LF CR LF NUL CR LF QUIT LF.
pub const SIGNATURE: [u8; 12] = [13, 10, 13, 10, 0, 13, 10, 81, 85, 73, 84, 10];

/// The command of a header that tells no pair, and of one that does.
pub const LOCAL: u8 = 0x20;

pub const PROXY: u8 = 0x21;

/// TCP over IPv4 and over IPv6.
pub const TCP4: u8 = 0x11;

pub const TCP6: u8 = 0x21;

/// The number of the first two bytes, the high one first.
fn number_16(bytes: &[u8]) -> u16
    requires { 2 ≤ length bytes.now }
    ensures { result ≡ from_be_bytes w16 (take 2 bytes.now) }
{
    let mut front = [0; 2];
    front.copy_from_slice(&bytes[..2]);
    u16::from_be_bytes(front)
}

fn number_32(bytes: &[u8]) -> u32
    requires { 4 ≤ length bytes.now }
    ensures { result ≡ from_be_bytes w32 (take 4 bytes.now) }
{
    let mut front = [0; 4];
    front.copy_from_slice(&bytes[..4]);
    u32::from_be_bytes(front)
}

#[tactic(auto, unfolding(crate::specs::Binary::number_128))]
fn number_128(bytes: &[u8]) -> u128
    requires { 16 ≤ length bytes.now }
    ensures { result ≡ Spec.number_128 bytes.now }
{
    let mut front = [0; 16];
    front.copy_from_slice(&bytes[..16]);
    u128::from_be_bytes(front)
}

fn peer_4(addr: &[u8], port: &[u8]) -> Peer
    requires addr { 4 ≤ length addr.now }
    requires port { 2 ≤ length port.now }
    ensures { result ≡ Spec.peer_4 addr.now port.now }
{
    Peer {
        v6: false,
        addr: number_32(addr) as u128,
        port: number_16(port),
    }
}

fn peer_6(addr: &[u8], port: &[u8]) -> Peer
    requires addr { 16 ≤ length addr.now }
    requires port { 2 ≤ length port.now }
    ensures { result ≡ Spec.peer_6 addr.now port.now }
{
    Peer {
        v6: true,
        addr: number_128(addr),
        port: number_16(port),
    }
}

/// What follows the first bytes.
pub fn behind(block: &[u8], at: usize) -> &[u8]
    requires { at ≤ length block.now }
    ensures bytes { result.now ≡ drop at block.now }
    ensures len { length result.now + at ≡ length block.now }
{
    &block[at..]
}

fn pair_4(block: &[u8]) -> Pair
    requires { 12 ≤ length block.now }
    ensures { result ≡ Spec.pair_4 block.now }
{
    Pair {
        src: peer_4(block, behind(block, 8)),
        dst: peer_4(behind(block, 4), behind(block, 10)),
    }
}

fn pair_6(block: &[u8]) -> Pair
    requires { 36 ≤ length block.now }
    ensures { result ≡ Spec.pair_6 block.now }
{
    Pair {
        src: peer_6(block, behind(block, 32)),
        dst: peer_6(behind(block, 16), behind(block, 34)),
    }
}

/// Whether command, family and length may stand in a header.
pub fn may_stand(command: u8, family: u8, len: u16) -> bool
    ensures { result ≡ Spec.may_stand command family len }
{
    if command == LOCAL {
        return true;
    }
    if command != PROXY {
        return false;
    }
    if family == TCP4 {
        return 12 <= len;
    }
    if family == TCP6 {
        return 36 <= len;
    }
    family / 16 <= 3 && family % 16 <= 2
}

/// The pair of a block, whose bytes are as many as its family wants.
pub fn pair_in(command: u8, family: u8, block: &[u8]) -> Option<Pair>
    requires { Spec.may_stand command family (length block.now) ≡ true }
    ensures { result ≡ Spec.pair_in command family block.now }
{
    if command == LOCAL {
        return None;
    }
    if family == TCP4 {
        return Some(pair_4(block));
    }
    if family == TCP6 {
        return Some(pair_6(block));
    }
    None
}

/// How many bytes follow the first sixteen.
pub fn block_len(front: &[u8]) -> u16
    requires { 16 ≤ length front.now }
    ensures { result ≡ Spec.block_len front.now }
{
    number_16(&front[14..])
}

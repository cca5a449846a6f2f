//! A payload in up to four pieces, and how it is written, without joining them first. It knows no kind of block.
ghost use Rattle.std.specs.Prelude.{◌≡◌, ◌+◌, ◌≤◌, ◌++◌, length};
ghost use Rattle.htx_arena.specs.Space.Windows.{overwritten};

use crate::space::Space;
use std::marker::Model;

/// A payload in pieces, which are written one behind the other.
pub struct Payload<'a> {
    head: &'a [u8],
    first: &'a [u8],
    second: &'a [u8],
    third: &'a [u8],
}

impl Drop for Payload<'_> {
    fn drop(self) {
        let Payload {
            head: _,
            first: _,
            second: _,
            third: _,
        } = self;
    }
}

impl<'a> Model for Payload<'a> {
    ghost use Rattle.std.specs.Prelude.{List, ℕ, ◌++◌, ◌≤◌, length};

    ghost Value = { List ℕ };

    ghost view = { λ p. p.head.now ++ (p.first.now ++ (p.second.now ++ p.third.now)) };

    ghost invariant = { λ p. length (p.head.now ++ (p.first.now ++ (p.second.now ++ p.third.now))) ≤ 262144 };
}

impl<'a> Payload<'a> {
    pub fn new(head: &'a [u8], first: &'a [u8], second: &'a [u8], third: &'a [u8]) -> Self
        requires { length (head.now ++ (first.now ++ (second.now ++ third.now))) ≤ 262144 }
        ensures { result ≡ head.now ++ (first.now ++ (second.now ++ third.now)) }
    {
        Payload {
            head,
            first,
            second,
            third,
        }
    }

    /// A payload in one piece.
    pub fn one(piece: &'a [u8]) -> Self
        requires { length piece.now ≤ 262144 }
        ensures { result ≡ piece.now }
    {
        Payload {
            head: piece,
            first: &[],
            second: &[],
            third: &[],
        }
    }

    pub fn len(&self) -> u32
        ensures { result ≡ length self.now }
    {
        (self.head.len() + self.first.len() + self.second.len() + self.third.len()) as u32
    }
}

/// Writes a payload.
#[inline(always)]
pub fn put(space: &mut Space, at: u32, payload: &Payload<'_>)
    requires inside { at + length payload.now ≤ length space.old }
    requires small { length space.old ≤ 262144 }
    ensures { space.new ≡ overwritten space.old at payload.now }
{
    let mut to = at;
    space.put(to, payload.head);
    to += payload.head.len() as u32;
    space.put(to, payload.first);
    to += payload.first.len() as u32;
    space.put(to, payload.second);
    to += payload.second.len() as u32;
    space.put(to, payload.third);
}

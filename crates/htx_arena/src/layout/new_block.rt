//! A block before it stands in an array.
ghost use Rattle.std.specs.Prelude.{◌≡◌, ◌+◌, ◌≤◌, ◌<◌, ◌++◌, [], length};
ghost use Rattle.htx_model.specs.Block.{block, payload_len, IsLineKind, IsFieldKind, IsEndKind};
ghost use Rattle.htx_model.specs.Block.{Data as DataBlock};
ghost use Rattle.htx_arena.specs.Layout.Raw.{Tells, Describes, block_of, payload_of, line_head as head_bytes};

use crate::layout::payload::Payload;
use crate::layout::words::Info;
use htx_model::Kind;
use std::marker::Model;

/// The info word and the payload of a block, the payload in pieces.
pub struct NewBlock<'a> {
    info: Info,
    payload: Payload<'a>,
}

impl Drop for NewBlock<'_> {
    fn drop(self) {
        let NewBlock {
            info: _,
            payload: _,
        } = self;
    }
}

impl<'a> Model for NewBlock<'a> {
    ghost use Rattle.htx_model.specs.Block.{Block};
    ghost use Rattle.htx_arena.specs.Layout.Raw.{IsNew, block_of};

    ghost Value = { Block };

    ghost view = { λ n. block_of n.info.0 n.payload };

    ghost invariant = { λ n. IsNew n.info.0 n.payload };
}

impl<'a> NewBlock<'a> {
    /// A header or trailer.
    pub fn field(kind: Kind, name: &'a [u8], value: &'a [u8]) -> Self
        requires kind { IsFieldKind kind }
        requires named { 1 ≤ length name.now }
        requires short { length name.now ≤ 255 }
        requires small { length name.now + length value.now ≤ 262144 }
        ensures { result ≡ block kind name.now value.now [] }
    {
        let info = Info::field(kind, name.len() as u32, value.len() as u32);
        let payload = Payload::new(&[], name, value, &[]);
        NewBlock { info, payload }
    }

    /// A start line. The head of its payload is that which `line_head` makes of the lengths of its parts.
    pub fn line(kind: Kind, head: &'a [u8], a: &'a [u8], b: &'a [u8], c: &'a [u8]) -> Self
        requires kind { IsLineKind kind }
        requires head { head.now ≡ head_bytes (length a.now) (length b.now) (length c.now) }
        requires small { 12 + length a.now + length b.now + length c.now ≤ 262144 }
        ensures { result ≡ block kind a.now b.now c.now }
    {
        let info = Info::other(kind, (12 + a.len() + b.len() + c.len()) as u32);
        let payload = Payload::new(head, a, b, c);
        NewBlock { info, payload }
    }

    /// The end of headers or of trailers.
    pub fn end(kind: Kind) -> Self
        requires { IsEndKind kind }
        ensures { result ≡ block kind [] [] [] }
    {
        let info = Info::other(kind, 1);
        let payload = Payload::one(&[0]);
        NewBlock { info, payload }
    }

    /// Data.
    pub fn data(piece: &'a [u8]) -> Self
        requires some { 0 < length piece.now }
        requires small { length piece.now ≤ 262144 }
        ensures { result ≡ DataBlock piece.now }
    {
        let info = Info::other(Kind::Data, piece.len() as u32);
        let payload = Payload::one(piece);
        NewBlock { info, payload }
    }

    /// The block that an info word and a payload tell.
    pub(crate) fn copied(info: Info, payload: &'a [u8]) -> Self
        requires tells { Tells info.0 payload.now }
        requires some { 0 < length payload.now }
        requires small { length payload.now ≤ 262144 }
        ensures { result ≡ block_of info.0 payload.now }
    {
        let payload = Payload::one(payload);
        NewBlock { info, payload }
    }

    /// How many bytes the payload has: at least one.
    pub fn len(&self) -> u32
        ensures len { result ≡ payload_len self.now }
        ensures some { 0 < result }
    {
        self.payload.len()
    }

    pub(crate) fn info(&self) -> Info
        ensures { Describes result.0 self.now }
    {
        self.info
    }

    pub(crate) fn payload(&self) -> &Payload<'a>
        ensures { result.now ≡ payload_of self.now }
    {
        &self.payload
    }
}

//! The words that describe a payload: the packed word of a descriptor, and the lengths of a start line's parts.
ghost use Rattle.std.specs.Prelude.{◌≡◌, ◌+◌, ◌*◌, ◌^◌, ◌<◌, ◌≤◌, length};
ghost use Rattle.htx_arena.specs.Layout.Raw.{info_len, info_kind, name_len, value_len, code_of, line_head as head_bytes};
ghost use Rattle.htx_arena.specs.Space.Windows.{desc_at};
ghost use Rattle.htx_arena.specs.Layout.Sound.{end_of};
ghost use Rattle.htx_arena.specs.Layout.Values.{value_start, value_length};

use crate::space::Space;
use htx_model::Kind;

/// The packed word of a descriptor: four bits for the type, then 20 for the length of a field's value and 8 for that of
/// its name, or 28 for the length of any other payload.
#[derive(Clone, Copy)]
pub struct Info(pub u32);

impl Info {
    /// The word of a field.
    pub fn field(kind: Kind, name: u32, value: u32) -> Self
        requires name { name ≤ 255 }
        requires value { value < 2 ^ 20 }
        ensures { result.0 ≡ 2 ^ 28 * code_of kind + (256 * value + name) }
    {
        Info(0x1000_0000 * code_of(kind) + (256 * value + name))
    }

    /// The word of a block that is no field.
    pub fn other(kind: Kind, len: u32) -> Self
        requires { len < 2 ^ 28 }
        ensures { result.0 ≡ 2 ^ 28 * code_of kind + len }
    {
        Info(0x1000_0000 * code_of(kind) + len)
    }

    /// The type of the block.
    pub fn kind(self) -> Kind
        ensures { result ≡ info_kind self.0 }
    {
        match self.0 >> 28 {
            0 => Kind::RequestLine,
            1 => Kind::ResponseLine,
            2 => Kind::Header,
            3 => Kind::EndHeaders,
            4 => Kind::Data,
            5 => Kind::Trailer,
            _ => Kind::EndTrailers,
        }
    }

    /// How long the payload is.
    #[tactic(auto, unfolding(crate::specs::Layout::Raw::info_len))]
    pub fn payload_len(self) -> u32
        ensures { result ≡ info_len self.0 }
    {
        match self.kind() {
            Kind::Header | Kind::Trailer => self.name_len() + self.value_len(),
            _ => self.0 % 0x1000_0000,
        }
    }

    /// How long a field's name is.
    pub fn name_len(self) -> u32
        ensures is { result ≡ name_len self.0 }
        ensures short { result ≤ 255 }
    {
        self.0 % 256
    }

    /// How long a field's value is.
    fn value_len(self) -> u32
        ensures is { result ≡ value_len self.0 }
        ensures short { result < 2 ^ 20 }
    {
        self.0 / 256 % 0x10_0000
    }
}

/// Where the value of a block stands, and how long it is.
#[tactic(auto, unfolding(crate::specs::Layout::Raw::info_len))]
pub fn value_place(space: &Space, at: u32) -> (u32, u32)
    requires listed { 8 * (at + 1) ≤ length space.now }
    requires within { end_of (desc_at space.now at) ≤ length space.now }
    requires small { length space.now ≤ 262144 }
    ensures start { result.0 ≡ value_start space.now at }
    ensures len { result.1 ≡ value_length space.now at }
{
    let desc = space.descriptor(at);
    let info = Info(desc.info);
    match info.kind() {
        Kind::Header | Kind::Trailer => (desc.addr + info.name_len(), info.value_len()),
        _ => (desc.addr, info.0 % 0x1000_0000),
    }
}

/// The number of a type.
fn code_of(kind: Kind) -> u32
    ensures { result ≡ code_of kind }
{
    match kind {
        Kind::RequestLine => 0,
        Kind::ResponseLine => 1,
        Kind::Header => 2,
        Kind::EndHeaders => 3,
        Kind::Data => 4,
        Kind::Trailer => 5,
        Kind::EndTrailers => 6,
    }
}

/// The lengths of a start line's parts, as they begin its payload.
pub fn line_head(a: u32, b: u32, c: u32) -> [u8; 12]
    ensures { result ≡ head_bytes a b c }
{
    let [p, q, r, s] = a.to_le_bytes();
    let [t, u, v, w] = b.to_le_bytes();
    let [x, y, z, e] = c.to_le_bytes();
    [p, q, r, s, t, u, v, w, x, y, z, e]
}

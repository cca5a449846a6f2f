//! The head of a record (FastCGI 1.0 section 3.3): eight bytes, and as many of content and of padding behind them as it says.
ghost use Rattle.std.specs.Prelude.{◌≡◌};
ghost use Rattle.fcgi_record.specs.Heads.{head_bytes, head_of};

/// A head of version 1.
#[derive(Clone, Copy, Debug, PartialEq, Eq)]
pub struct RecordHead {
    /// What the record is for, as `RecordKind::byte` has it.
    pub kind: u8,
    /// The request that it belongs to; 0 for a record of the application itself.
    pub id: u16,
    /// The bytes of its content.
    pub len: u16,
    /// The bytes of padding behind its content.
    pub pad: u8,
}

/// Writes a head: version, kind, request, length of the content and of the padding, the numbers with their high byte first, and a reserved 0.
pub fn put_head(head: RecordHead, into: &mut [u8; 8])
    ensures { into.new ≡ head_bytes head 0 }
{
    let [id_high, id_low] = head.id.to_be_bytes();
    let [len_high, len_low] = head.len.to_be_bytes();
    *into = [
        1, head.kind, id_high, id_low, len_high, len_low, head.pad, 0,
    ];
}

/// Reads a head. There is none exactly where the version isn't 1; kind and reserved byte may be any.
pub fn read_head(bytes: &[u8; 8]) -> Option<RecordHead>
    ensures { result ≡ head_of bytes.now }
{
    let [version, kind, id_high, id_low, len_high, len_low, pad, _] = *bytes;
    if version != 1 {
        return None;
    }
    Some(RecordHead {
        kind,
        id: u16::from_be_bytes([id_high, id_low]),
        len: u16::from_be_bytes([len_high, len_low]),
        pad,
    })
}

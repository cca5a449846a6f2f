//! What is written is read back, and what is read was written so. No code runs here: each law is the contract of an empty function.
ghost use Rattle.std.specs.Prelude.{◌≡◌, ◌<◌, ◌≤◌, ◌^◌, ◌++◌, ℕ, List, Some, get_or, length};
ghost use Rattle.fcgi_record.specs.Heads.{head_bytes, head_of, FitsHead, AreBytes};
ghost use Rattle.fcgi_record.specs.Kinds.{kind_byte, kind_of};
ghost use Rattle.fcgi_record.specs.Pairs.{lengths_bytes, lengths_at, IsLength};
ghost use Rattle.fcgi_record.specs.declared.record_head.RecordHead.{RecordHead};
ghost use Rattle.fcgi_record.specs.declared.record_kind.RecordKind.{RecordKind};

/// A head is read back from its bytes, whatever its reserved byte. Eight bytes that have a head are the bytes of it, with their own reserved byte.
pub fn heads_both_ways()
    ensures again { (head : RecordHead) (reserved : ℕ) → FitsHead head → head_of (head_bytes head reserved) ≡ Some head }
    ensures alone { (head : RecordHead) (bytes : List ℕ) → length bytes ≡ 8 → AreBytes bytes → head_of bytes ≡ Some head → bytes ≡ head_bytes head (get_or bytes 7 0) }
{}

/// The lengths of a pair are read back from their bytes, whatever follows. What is read are two lengths, each in one of its two forms.
pub fn lengths_both_ways()
    ensures again { (name value : ℕ) (rest : List ℕ) → name < 2 ^ 31 → value < 2 ^ 31 → lengths_at (lengths_bytes name value ++ rest) ≡ Some (name, value, rest) }
    ensures alone { (name value : ℕ) (rest bytes : List ℕ) → AreBytes bytes → lengths_at bytes ≡ Some (name, value, rest)
        → (a : List ℕ) × (b : List ℕ) × (bytes ≡ a ++ (b ++ rest)) × IsLength name a × IsLength value b }
{}

/// A kind is read back from its byte, and a byte that has a kind is that kind's.
pub fn kinds_both_ways()
    ensures again { (kind : RecordKind) → kind_of (kind_byte kind) ≡ Some kind }
    ensures alone { (kind : RecordKind) (byte : ℕ) → kind_of byte ≡ Some kind → byte ≡ kind_byte kind }
{}

//! The two lengths in front of a name and a value (FastCGI 1.0 section 3.4): one byte below 128, or four with the top bit set.
ghost use Rattle.std.specs.Prelude.{◌≡◌, ◌<◌, ◌≤◌, ◌^◌, List, length, take, drop, Some, None, IfSome, IsNone};
ghost use Rattle.fcgi_record.specs.Pairs.{length_bytes, lengths_bytes, length_at, lengths_at};

/// The lengths of a pair, and in how many bytes they stand.
#[derive(Clone, Copy, Debug, PartialEq, Eq)]
pub struct Lengths {
    pub name: u32,
    pub value: u32,
    pub used: usize,
}

/// Writes a length at the front, and answers how many bytes it takes: one below 128, and else four with the top bit set.
fn put_length(n: u32, into: &mut [u8]) -> usize
    requires small { n < 2 ^ 31 }
    requires room { 4 ≤ length into.old }
    ensures count { result ≡ length (length_bytes n) }
    ensures front { take result into.new ≡ length_bytes n }
    ensures behind { drop result into.new ≡ drop result into.old }
    ensures len { length into.new ≡ length into.old }
{
    if n < 128 {
        into[..1].copy_from_slice(&[n as u8]);
        return 1;
    }
    into[..4].copy_from_slice(&(n | 0x8000_0000).to_be_bytes());
    4
}

/// Writes the lengths of a pair at the front, and answers how many bytes they take.
pub fn put_lengths(name: u32, value: u32, into: &mut [u8; 8]) -> usize
    requires name { name < 2 ^ 31 }
    requires value { value < 2 ^ 31 }
    ensures count { result ≡ length (lengths_bytes name value) }
    ensures front { take result into.new ≡ lengths_bytes name value }
{
    let front = put_length(name, into);
    front + put_length(value, &mut into[front..])
}

/// The length that bytes begin with, and in how many bytes it stands.
fn read_length(bytes: &[u8]) -> Option<(u32, usize)>
    ensures some { IfSome result (λ r. (r.1 ≤ length bytes.now) × (length_at bytes.now ≡ Some (r.0, drop r.1 bytes.now))) }
    ensures none { IsNone result → length_at bytes.now ≡ None }
{
    match bytes {
        [short @ 0..=127, ..] => Some((u32::from(*short), 1)),
        [a, b, c, d, ..] => Some((u32::from_be_bytes([*a, *b, *c, *d]) & 0x7fff_ffff, 4)),
        _ => None,
    }
}

/// The two lengths that bytes begin with. A length may stand in four bytes where one would do.
pub fn read_lengths(bytes: &[u8]) -> Option<Lengths>
    ensures some { IfSome result (λ l. (l.used ≤ length bytes.now) × (lengths_at bytes.now ≡ Some (l.name, l.value, drop l.used bytes.now))) }
    ensures none { IsNone result → lengths_at bytes.now ≡ None }
{
    let (name, front) = read_length(bytes)?;
    let (value, behind) = read_length(&bytes[front..])?;
    Some(Lengths {
        name,
        value,
        used: front + behind,
    })
}

//! The names of the fields that frame a message or speak of its connection, in one place (RFC 9110 section 7.6.1).
ghost use Rattle.std.specs.Prelude.{◌≡◌};
ghost use Rattle.std.specs.List.{list_any};
ghost use Rattle.http_model.specs.Fields.{same_name};
ghost use Rattle.http_model.specs.Finish.{framing_names};

/// The names, in lower case.
pub const FRAMING_NAMES: [&[u8]; 7] = [
    b"connection",
    b"keep-alive",
    b"proxy-connection",
    b"te",
    b"upgrade",
    b"transfer-encoding",
    b"content-length",
];

/// Whether the name is in a table, without regard to case.
fn is_among(name: &[u8], table: &[&'static [u8]]) -> bool
    ensures { result ≡ list_any (λ entry. same_name name.now entry.now) table.now }
{
    table.iter().any(|entry| name.eq_ignore_ascii_case(entry))
}

/// Whether the name is one of them, without regard to case.
pub fn is_framing_name(name: &[u8]) -> bool
    ensures { result ≡ list_any (λ framing. same_name name.now framing) framing_names }
{
    is_among(name, &FRAMING_NAMES)
}

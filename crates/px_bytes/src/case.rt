//! The case of ASCII letters.
ghost use Rattle.std.specs.Prelude.{◌≡◌};
ghost use Rattle.std.specs.Str.{str_to_ascii_lowercase, str_eq_ignore_ascii_case};

/// Whether the bytes are equal but for the case of ASCII letters.
pub fn eq_fold(a: &[u8], b: &[u8]) -> bool
    ensures { result ≡ str_eq_ignore_ascii_case a.now b.now }
{
    a.eq_ignore_ascii_case(b)
}

/// Makes each ASCII letter lower case, and leaves every other byte.
pub fn fold(bytes: &mut [u8])
    ensures { bytes.new ≡ str_to_ascii_lowercase bytes.old }
{
    bytes.make_ascii_lowercase();
}

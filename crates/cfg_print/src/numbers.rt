//! Numbers in decimal digits.
ghost use Rattle.std.specs.Prelude.{◌≡◌, ◌++◌, OnOk};
ghost use Rattle.std.specs.Fmt.{decimal, signed_decimal};

use crate::words::put;
use px_bytes::{write_decimal, write_signed};
use px_link::OutOfMemory;

/// Puts a number behind a text.
pub(crate) fn put_decimal(out: &mut Vec<u8>, n: u64) -> Result<(), OutOfMemory>
    ensures { OnOk result (out.new.items ≡ out.old.items ++ decimal n) }
{
    let mut text = [0; 20];
    let len = write_decimal(n, &mut text);
    put(out, &text[..len])
}

/// The same of a number with a sign.
pub(crate) fn put_signed(out: &mut Vec<u8>, n: i64) -> Result<(), OutOfMemory>
    ensures { OnOk result (out.new.items ≡ out.old.items ++ signed_decimal n) }
{
    let mut text = [0; 20];
    let len = write_signed(n, &mut text);
    put(out, &text[..len])
}

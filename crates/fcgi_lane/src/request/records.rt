//! Records of the one request (FastCGI 1.0 section 3.3).
ghost use Rattle.std.specs.Prelude.{◌≡◌, ◌≤◌, ◌++◌, length, OnOk};
ghost use Rattle.fcgi_model.specs.Records.{record_bytes, most_alone};

use fcgi_record::{RecordHead, RecordKind, put_head};
use http_model::OutOfMemory;

/// What a record holds, unless a single pair has more.
pub(crate) const MOST_CONTENT: usize = 8192;

/// What a record can hold.
pub(crate) const MOST_ALONE: usize = 65535;

/// Puts a record of the one request behind a text, without padding.
pub(crate) fn push_record(
    text: &mut Vec<u8>,
    kind: RecordKind,
    content: &[u8],
) -> Result<(), OutOfMemory>
    requires { length content.now ≤ most_alone }
    ensures { OnOk result (text.new.items ≡ text.old.items ++ record_bytes kind content.now) }
{
    let mut head = [0; 8];
    put_head(
        RecordHead {
            kind: kind.byte(),
            id: 1,
            len: content.len() as u16,
            pad: 0,
        },
        &mut head,
    );
    text.extend_from_slice(&head)?;
    text.extend_from_slice(content)?;
    Ok(())
}

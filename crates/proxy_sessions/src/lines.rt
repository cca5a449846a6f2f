//! The line that says where it listens.
ghost use Rattle.std.specs.Prelude.{◌≡◌, IfOk};
ghost use Rattle.px_link.specs.Net.{address_of};
ghost use Rattle.proxy_sessions.specs.Lines.{listening_line};

use http_model::OutOfMemory;
use px_link::{Address, Bytes};
use std::alloc::Global;

/// It listens at this address.
#[tactic(auto, unfolding(crate::specs::Lines::listening_line))]
pub fn listening_line(alloc: Global, at: &Address) -> Result<Bytes, OutOfMemory>
    ensures { IfOk result (λ text. text ≡ listening_line (address_of at.now)) }
{
    let mut text = Bytes::copy(alloc, b"listening ")?;
    text.push(at.host.as_slice())?;
    text.push(b":")?;
    text.push(at.port.to_string(alloc)?.as_bytes())?;
    text.push(b"\n")?;
    Ok(text)
}

//! `connection: close`, as the last field of a message that ends its connection (RFC 9112 section 9.6).
ghost use Rattle.std.specs.Prelude.{◌≡◌, ◌↔◌, ◌+◌, OnOk, OnErr, IsOk, IsTrue};
ghost use Rattle.http_model.specs.Block.{Header};
ghost use Rattle.http_model.specs.Blocks.{Fits};
ghost use Rattle.http_model.specs.Head.{Message, message_blocks};
ghost use Rattle.http_model.specs.Finish.{close_field};
ghost use Rattle.http_model.specs.Refusal.{closing};
ghost use Rattle.header_ops.specs.Headers.{HasEnd, with_header};

use header_ops::add_field;
use htx_arena::{Arena, Full};

/// What `connection: close` weighs, in bytes.
pub const CLOSE_WEIGHT: u32 = 23;

/// Puts `connection: close` behind the other fields.
#[tactic(auto, using(crate::proofs::Messages::closes))]
pub fn add_close(msg: &mut Arena) -> Result<(), Full>
    requires end { HasEnd msg.old.blocks }
    ensures ok { OnOk result (msg.new.blocks ≡ with_header (Header close_field.0 close_field.1) msg.old.blocks) }
    ensures fits { IsOk result ↔ Fits (with_header (Header close_field.0 close_field.1) msg.old.blocks) msg.old.size }
    ensures full { OnErr result (msg.new ≡ msg.old) }
    ensures end { HasEnd msg.new.blocks }
    ensures size { msg.new.size ≡ msg.old.size }
{
    add_field(msg, b"connection", b"close")
}

/// Whether `connection: close` fits behind the fields of a message.
#[tactic(auto, using(crate::proofs::Messages::closes))]
pub fn has_room_to_close(msg: &Arena) -> bool
    requires { HasEnd msg.now.blocks }
    ensures { IsTrue result ↔ Fits (with_header (Header close_field.0 close_field.1) msg.now.blocks) msg.now.size }
{
    msg.room() >= CLOSE_WEIGHT
}

//! Bytes of a body behind a head.
ghost use Rattle.std.specs.Prelude.{◌≡◌, ◌≤◌, [], ◌↔◌, OnOk, OnErr, IsOk, IsTrue};
ghost use Rattle.http_model.specs.Head.{Head, head_blocks, front_blocks};
ghost use Rattle.htx_arena.specs.Blocks.{load, Fits, append_data};

use htx_arena::{Arena, Full};

/// Puts all of these bytes behind the blocks.
#[tactic(auto, using(crate::proofs::Bodies::pushes))]
pub fn push(msg: &mut Arena, bytes: &[u8])
    requires { Fits (append_data msg.old.blocks bytes.now) msg.old.size }
    ensures blocks { msg.new.blocks ≡ append_data msg.old.blocks bytes.now }
    ensures size { msg.new.size ≡ msg.old.size }
{
    msg.add_data(bytes);
}

/// Whether a block of these bytes, or none where there are none, is within so much room.
fn fits_in(room: usize, bytes: &[u8]) -> bool
    ensures { IsTrue result ↔ (load (append_data [] bytes.now) ≤ room) }
{
    bytes.is_empty() || (bytes.len() <= room && 8 + bytes.len() <= room)
}

/// Puts a payload behind a head, whole or not at all. An empty one is no block.
#[tactic(auto, using(crate::proofs::Bodies::fronts))]
pub fn add_payload(msg: &mut Arena, bytes: &[u8]) -> Result<(), Full>
    ensures ok { (head : Head) → msg.old.blocks ≡ head_blocks head → OnOk result (msg.new.blocks ≡ front_blocks head bytes.now) }
    ensures fits { (head : Head) → msg.old.blocks ≡ head_blocks head → IsOk result ↔ Fits (front_blocks head bytes.now) msg.old.size }
    ensures full { OnErr result (msg.new ≡ msg.old) }
    ensures size { msg.new.size ≡ msg.old.size }
{
    let room = msg.room() as usize;
    if fits_in(room, bytes) {
        msg.add_data(bytes);
        return Ok(());
    }
    Err(Full)
}

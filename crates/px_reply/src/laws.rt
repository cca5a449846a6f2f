//! What the edits make of a message in an array.
ghost use Rattle.std.specs.Prelude.{◌≡◌, ℕ, List};
ghost use Rattle.http_model.specs.Block.{Header};
ghost use Rattle.http_model.specs.Head.{Head, Message, head_blocks, front_blocks, message_blocks};
ghost use Rattle.http_model.specs.Finish.{close_field};
ghost use Rattle.http_model.specs.Refusal.{closing};
ghost use Rattle.htx_arena.specs.Blocks.{append_data};
ghost use Rattle.header_ops.specs.Headers.{HasEnd, with_header};

use header_ops::laws::edits_of_heads;

/// What a message in an array is, and what it is with `connection: close` or a body behind it.
pub fn replies_of_messages()
    ensures end { (m : Message) → HasEnd (message_blocks m) }
    ensures close { (m : Message) → with_header (Header close_field.0 close_field.1) (message_blocks m) ≡ message_blocks (closing m) }
    ensures body { (head : Head) (body : List ℕ) → append_data (head_blocks head) body ≡ front_blocks head body }
{
    edits_of_heads();
}

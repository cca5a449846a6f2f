//! The request line of a head, as it was received.
ghost use Rattle.std.specs.Prelude.{◌≡◌, ◌≤◌};
ghost use Rattle.forward_core.specs.Request.Words.{words_at};

use htx_arena::Arena;
use htx_view::request_parts;
use lane::Lane;
use px_sample::Buf;

/// Keeps the method, one space and the target of the head that stands in an array.
fn keep_words(line: &mut Buf, msg: &Arena)
    requires { msg.now.size ≤ line.old.cap }
    ensures kept { line.new.bytes ≡ words_at msg.now.blocks }
    ensures cap { line.new.cap ≡ line.old.cap }
{
    line.clear();
    // called for its clause alone: the blocks weigh no more than the array, so the buffer has room for the words
    let _room = msg.room();
    match request_parts(msg) {
        Some(parts) => {
            // so they are all kept
            let _method = line.push(parts.a);
            let _space = line.push_byte(b' ');
            let _target = line.push(parts.b);
        }
        None => {}
    }
}

/// Keeps those of the head that a lane has read, before any rule edits it. The lane stays as it is.
pub(crate) fn keep_line(line: &mut Buf, lane: &mut Lane)
    requires { lane.old.msg.size ≤ line.old.cap }
    ensures kept { line.new.bytes ≡ words_at lane.old.msg.blocks }
    ensures cap { line.new.cap ≡ line.old.cap }
    ensures same { lane.new ≡ lane.old }
{
    keep_words(line, lane.head());
}

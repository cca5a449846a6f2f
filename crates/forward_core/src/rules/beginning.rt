//! The variables with which a session begins.
ghost use Rattle.std.specs.Prelude.{◌≡◌, ◌≤◌, []};
ghost use Rattle.px_proxyproto.specs.Texts as spec;
ghost use Rattle.forward_core.specs.Meaning.Beginning.{with_peer};

use http_rules::Vars;
use px_peer::Peer;
use px_proxyproto::address_text;
use px_sample::{Buf, Sample, Scope};

/// Writes the text of an address over what the buffer holds.
fn write_address(peer: &Peer, into: &mut Buf)
    requires room { 40 ≤ into.old.cap }
    ensures bytes { into.new.bytes ≡ spec.address_text peer.now.v6 peer.now.addr }
    ensures cap { into.new.cap ≡ into.old.cap }
{
    let mut text = [0; 107];
    let len = address_text(peer, &mut text);
    into.clear();
    into.push(&text[..len]);
}

/// Sets the variables in which the address and the port of a peer stand, where one is told. The buffer is empty behind it.
#[tactic(auto, unfolding(crate::specs::Meaning::Beginning::src_of))]
pub(crate) fn begin_with(vars: &mut Vars, peer: Option<Peer>, text: &mut Buf)
    requires room { 40 ≤ text.old.cap }
    ensures vars { vars.new ≡ with_peer peer vars.old }
    ensures empty { text.new.bytes ≡ [] }
    ensures cap { text.new.cap ≡ text.old.cap }
{
    let Some(peer) = peer else {
        text.clear();
        return;
    };
    write_address(&peer, text);
    vars.set(Scope::Sess, b":src", Sample::InBuf, text);
    vars.set(
        Scope::Sess,
        b":src_port",
        Sample::Number(i64::from(peer.port)),
        text,
    );
    text.clear();
}

//! The session as a connection of a record.
ghost use Rattle.std.specs.Prelude.{◌≡◌, ◌++◌, ◌∷◌, [], ◌<◌, ◌^◌, ◌+◌, map, option_map, IfOk, OnOk, Some};
ghost use Rattle.htx_drive.specs.Drill.Plan.{plan_of};
ghost use Rattle.htx_drive.specs.Drill.Drill.{configuration, request_text, server_of, drill_of};
ghost use Rattle.htx_drive.specs.Drill.Drawn.{plan};
ghost use Rattle.rec_format.specs.Read.{visit, server, servers};

use crate::drill::plan::{Plan, next_plan};
use crate::drill::texts::{put_request, put_response};
use http_model::OutOfMemory;
use px_link::{Bytes, Ending};
use rec_format::{Connection, ServerSpec, Stream};
use std::alloc::Global;

/// The server of an exchange.
fn server_for(alloc: Global, drawn: &Plan) -> Result<ServerSpec, OutOfMemory>
    ensures { IfOk result (λ made. option_map server (Some made) ≡ server_of (plan drawn.now)) }
{
    let mut text = Vec::new(alloc);
    put_response(&mut text, drawn)?;
    Ok(ServerSpec {
        stream: Stream {
            bytes: Bytes::from(text),
            ending: Ending::Closed,
        },
        takes: None,
    })
}

/// Puts the exchange that is drawn next behind the others: its request behind the client's stream, its server behind the others.
fn put_exchange(
    alloc: Global,
    number: u32,
    state: &mut u32,
    client: &mut Vec<u8>,
    others: &mut Vec<Option<ServerSpec>>,
) -> Result<(), OutOfMemory>
    ensures client { OnOk result (client.new.items ≡ client.old.items ++ request_text number (plan_of state.old).0) }
    ensures servers { OnOk result (servers others.new.items ≡ servers others.old.items ++ server_of (plan_of state.old).0 ∷ []) }
    ensures state { OnOk result (state.new ≡ (plan_of state.old).1) }
{
    let drawn = next_plan(alloc, state)?;
    put_request(client, number, &drawn)?;
    let server = server_for(alloc, &drawn)?;
    others.push(Some(server))?;
    Ok(())
}

/// The generated session of a seed and a number of exchanges, as a connection of a record: the client's stream, and a server for each exchange.
#[tactic(auto, unfolding(crate::specs::Drill::Drill::drill_of))]
pub fn drill(alloc: Global, seed: u32, exchanges: u32) -> Result<Connection, OutOfMemory>
    ensures { IfOk result (λ made. visit made ≡ drill_of seed exchanges) }
{
    let mut state = seed;
    let mut client = Vec::new(alloc);
    let mut servers = Vec::new(alloc);
    for at in 0..exchanges {
        put_exchange(alloc, at + 1, &mut state, &mut client, &mut servers)?;
    }
    Ok(Connection {
        client: Stream {
            bytes: Bytes::from(client),
            ending: Ending::Closed,
        },
        servers,
    })
}

/// The configuration of every generated session.
#[tactic(auto, unfolding(crate::specs::Drill::Drill::configuration))]
pub fn configuration() -> &'static [u8]
    ensures { result.now ≡ configuration }
{
    b"listen p
  bind 127.0.0.1:8080
  server s 127.0.0.1:8081
  http-request set-header x-drill %[req.hdr_cnt(f0)]
  http-response del-header server
"
}

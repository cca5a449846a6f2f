//! What `run` is handed in memory: a net on which the clients of a record come, a net for each connection with its servers, and a wait that names all. Each
//! call can be made at once.
ghost use Rattle.std.specs.Prelude.{◌≡◌, [], IfOk};
ghost use Rattle.px_link.specs.MemNet.{net_of};

use crate::served::links::put_servers;
use case_rows::{Call, Fault};
use fcgi_link::AppNet;
use proxy_commands::Networks;
use proxy_sessions::{Many, Switch, Workers};
use px_link::{Fault as Failure, MemNet, MemWakes, Net, OutOfMemory, Script, ScriptedNet, Sink};
use px_proxyproto::SendNet;
use px_run::Nets;
use rec_format::Connection;
use std::alloc::Global;

/// A net that says yes to each question, whose servers may be an application, or be sent headers first.
pub type ReadyNet = AppNet<SendNet<ScriptedNet<MemNet>>>;

fn ready(alloc: Global, net: MemNet) -> ReadyNet
    requires lent { net.lent ≡ 0 }
    ensures seen { ⟦<AppNet<SendNet<ScriptedNet<MemNet>>> as Net>⟧.seen result ≡ net_of net }
{
    let accepts = Script::new(Vec::new(alloc));
    let connects = Script::new(Vec::new(alloc));
    let scripted = ScriptedNet::new(alloc, net, accepts, connects, Vec::new(alloc));
    AppNet::new(alloc, SendNet::new(scripted))
}

/// The nets of the connections of a record, in their order, and behind them nets without a server.
#[derive(Drop)]
pub struct RecordNets<'r> {
    alloc: Global,
    conns: &'r [Connection],
    asked: usize,
}

/// It has no switch.
impl<'r> Switch for RecordNets<'r> {
    fn heed(&mut self, _: bool) {}
}

/// Its workers are none, and say nothing.
impl<'r> Workers<ReadyNet> for RecordNets<'r> {
    fn start(&mut self, _net: &ReadyNet, _count: u32) -> Result<(), Failure> {
        Ok(())
    }

    fn pass_on<K: Sink>(&mut self, _net: &ReadyNet, _out: &mut K) -> Result<(), Failure> {
        Ok(())
    }
}

/// A net with the servers of a connection, on which no call fails.
fn net_with(alloc: Global, conn: &Connection) -> Result<MemNet, Fault>
    ensures lent { IfOk result (λ net. net.lent ≡ 0) }
    ensures dialled { IfOk result (λ net. net.dialled ≡ []) }
    ensures kept { IfOk result (λ net. net.kept ≡ []) }
{
    let (nothing, _) = Call::first(b"nothing");
    let mut servers = Vec::new(alloc);
    put_servers(alloc, &conn.servers, &nothing, &mut servers)?;
    Ok(MemNet::new(alloc, Vec::new(alloc), servers)?)
}

impl<'r> Nets<ReadyNet> for RecordNets<'r> {
    #[tactic(auto, using(crate::proofs::NewNets::new_net))]
    fn net(&mut self) -> Result<ReadyNet, OutOfMemory> {
        let asked = self.asked;
        self.asked = asked.saturating_add(1);
        let net = match self.conns.get(asked) {
            Some(conn) => match net_with(self.alloc, conn) {
                Ok(net) => net,
                Err(_) => return Err(OutOfMemory),
            },
            None => MemNet::new(self.alloc, Vec::new(self.alloc), Vec::new(self.alloc))?,
        };
        Ok(ready(self.alloc, net))
    }

    fn accepts_more(&mut self) -> bool {
        true
    }
}

/// What `run` is handed in memory.
pub type MemMany<'r> = Many<ReadyNet, RecordNets<'r>, MemWakes>;

/// What the program is handed in memory.
pub type MemNetworks<'r> = Networks<AppNet<SendNet<MemNet>>, ReadyNet, RecordNets<'r>, MemWakes>;

/// What `run` is handed, with the clients on this net, and the servers of these connections. Its clock stands still.
pub fn many_of<'r>(alloc: Global, net: MemNet, conns: &'r [Connection]) -> MemMany<'r>
    requires { net.lent ≡ 0 }
{
    Many {
        net: ready(alloc, net),
        nets: RecordNets {
            alloc,
            conns,
            asked: 0,
        },
        wakes: MemWakes::new(Vec::new(alloc)),
    }
}

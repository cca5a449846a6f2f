//! A net in memory, of which calls of chosen numbers fail.
ghost use Rattle.std.specs.Prelude.{◌≡◌, ◌<◌, ◌∷◌, ◌++◌, [], true, false, Some, IfOk, IsErr, IsErrOf, OnOk, OnErr};
ghost use Rattle.std.specs.List.{list_all, list_any};
ghost use Rattle.px_link.specs.Addresses.{addresses_of};
ghost use Rattle.px_link.specs.Calls.{next_call, faults_after};
ghost use Rattle.px_link.specs.Net.{Binds, Accepts, Connects, Keeps, address_of, same_address, with_address, is_among};
ghost use Rattle.px_link.specs.MemLink.{link_of, is_unused, is_unused_or_none};
ghost use Rattle.px_link.specs.MemNet.{net_of, fails_next, fails_accept, fails_connect, next_connect};

use crate::{Address, Bytes, Fault, MemLink, Net, OutOfMemory, calls};
use std::alloc::Global;
use std::collections::VecDeque;
use std::marker::Model;

/// A net in memory.
pub struct MemNet {
    accepts: VecDeque<MemLink>,
    servers: VecDeque<Option<MemLink>>,
    kept: Vec<MemLink>,
    bound: Vec<Address>,
    dialled: Vec<Address>,
    lent: u64,
    failing: Vec<u64>,
    calls: u64,
    connects: u32,
    bind_faults: u64,
    connect_faults: u64,
}

impl Drop for MemNet {
    fn drop(self) {
        let MemNet {
            accepts: _,
            servers: _,
            kept: _,
            bound: _,
            dialled: _,
            lent: _,
            failing: _,
            calls: _,
            connects: _,
            bind_faults: _,
            connect_faults: _,
        } = self;
    }
}

impl Model for MemNet {
    ghost use Rattle.std.specs.Prelude.{◌≡◌, ◌+◌, ◌≤◌, true, vec_len, vec_capacity};
    ghost use Rattle.std.specs.VecDeque.{deque_len};
    ghost use Rattle.std.specs.List.{list_all};
    ghost use Rattle.px_link.specs.Addresses.{addresses_of};
    ghost use Rattle.px_link.specs.MemLink.{is_unused, is_unused_or_none};
    ghost use Rattle.px_link.specs.MemNet.{MemNetSeen};

    ghost Value = { MemNetSeen };

    ghost view = { λ n. record {
      accepts = n.accepts.items;
      servers = n.servers.items;
      kept = n.kept.items;
      bound = addresses_of n.bound.items;
      dialled = addresses_of n.dialled.items;
      lent = n.lent;
      failing = n.failing.items;
      calls = n.calls;
      connects = n.connects;
      bind_faults = n.bind_faults;
      connect_faults = n.connect_faults;
    } };

    ghost invariant = { λ n. (vec_len n.kept + n.lent + deque_len n.accepts + deque_len n.servers ≤ vec_capacity n.kept)
        × (list_all is_unused n.accepts.items ≡ true)
        × (list_all is_unused_or_none n.servers.items ≡ true) };
}

impl MemNet {
    /// A net with these links to accept and these servers, none for a refused one, on which no call was made
    /// yet. It takes the memory for all links that may be kept.
    pub fn new(
        alloc: Global,
        accepts: Vec<MemLink>,
        servers: Vec<Option<MemLink>>,
    ) -> Result<MemNet, OutOfMemory>
        requires accepts { list_all is_unused accepts.items ≡ true }
        requires servers { list_all is_unused_or_none servers.items ≡ true }
        ensures { IfOk result (λ net. net ≡ record {
          accepts = accepts.items;
          servers = servers.items;
          kept = [];
          bound = [];
          dialled = [];
          lent = 0;
          failing = [];
          calls = 0;
          connects = 0;
          bind_faults = 0;
          connect_faults = 0;
        }) }
    {
        let Some(count) = accepts.len().checked_add(servers.len()) else {
            return Err(OutOfMemory);
        };
        Ok(MemNet {
            accepts: VecDeque::from(accepts),
            servers: VecDeque::from(servers),
            kept: Vec::with_capacity(alloc, count)?,
            bound: Vec::new(alloc),
            dialled: Vec::new(alloc),
            lent: 0,
            failing: Vec::new(alloc),
            calls: 0,
            connects: 0,
            bind_faults: 0,
            connect_faults: 0,
        })
    }

    /// The links that were kept, in order.
    pub fn kept(&self) -> &[MemLink]
        ensures { result.now ≡ self.now.kept }
    {
        &self.kept
    }

    /// How many connects there were, refused ones included; it stays at 4294967295.
    pub fn connects(&self) -> u32
        ensures { result ≡ self.now.connects }
    {
        self.connects
    }

    /// The binds, accepts and connects of these numbers, counted together from 1 and from the first of all,
    /// fail. Numbers that were named before no longer count.
    pub fn fail_at(&mut self, calls: Vec<u64>)
        ensures { self.new ≡ record self.old { failing = calls.items } }
    {
        self.failing = calls;
    }
}

/// Whether both are the same address.
fn is_same(a: &Address, b: &Address) -> bool
    ensures { result ≡ same_address (address_of a.now) (address_of b.now) }
{
    a.host.as_slice() == b.host.as_slice() && a.port == b.port
}

/// The address again.
fn again(alloc: Global, address: &Address) -> Result<Address, OutOfMemory>
    ensures { IfOk result (λ copied. address_of copied ≡ address_of address.now) }
{
    Ok(Address {
        host: Bytes::copy(alloc, address.host.as_slice())?,
        port: address.port,
    })
}

/// Whether an address is among these.
fn has(all: &[Address], one: &Address) -> bool
    ensures { result ≡ list_any (λ other. same_address (address_of other) (address_of one.now)) all.now }
{
    all.iter().any(|other| is_same(other, one))
}

/// Adds an address.
fn add(all: &mut Vec<Address>, one: &Address) -> Result<(), OutOfMemory>
    ensures ok { OnOk result (addresses_of all.new.items ≡ addresses_of all.old.items ++ address_of one.now ∷ []) }
    ensures err { OnErr result (addresses_of all.new.items ≡ addresses_of all.old.items) }
{
    let alloc = *all.allocator();
    let own = match again(alloc, one) {
        Ok(own) => own,
        Err(OutOfMemory) => return Err(OutOfMemory),
    };
    if all.push(own).is_err() {
        return Err(OutOfMemory);
    }
    Ok(())
}

/// Adds an address that isn't there. One that is there takes no memory.
#[tactic(auto, using(crate::proofs::Among::among_map))]
fn note(all: &mut Vec<Address>, one: &Address) -> Result<(), OutOfMemory>
    ensures ok { OnOk result (addresses_of all.new.items ≡ with_address (addresses_of all.old.items) (address_of one.now)) }
    ensures err { OnErr result (addresses_of all.new.items ≡ addresses_of all.old.items) }
    ensures memory { IsErr result → is_among (address_of one.now) (addresses_of all.old.items) ≡ false }
{
    if has(all, one) {
        return Ok(());
    }
    add(all, one)
}

impl Net for MemNet {
    type Link = MemLink;

    ghost seen = { net_of };

    /// A bind whose number is listed fails, and no other.
    fn bind(&mut self, at: &Address) -> Result<(), Fault>
        ensures binds { Binds (net_of self.old) (net_of self.new) (address_of at.now) result }
        ensures fails { fails_next self.old ≡ true → IsErr result }
        ensures only { IsErrOf result Fault.Failed → fails_next self.old ≡ true }
        ensures calls { self.new.calls ≡ next_call self.old.calls }
        ensures faults { self.new.bind_faults ≡ faults_after result self.old.bind_faults }
        ensures links { (self.new.accepts ≡ self.old.accepts) × (self.new.servers ≡ self.old.servers) × (self.new.kept ≡ self.old.kept) }
        ensures failing { self.new.failing ≡ self.old.failing }
        ensures connects { self.new.connects ≡ self.old.connects }
    {
        self.calls = self.calls.saturating_add(1);
        if add(&mut self.bound, at).is_err() {
            return Err(Fault::OutOfMemory);
        }
        if calls::is_among(&self.failing, self.calls) {
            self.bind_faults = self.bind_faults.saturating_add(1);
            return Err(Fault::Failed);
        }
        Ok(())
    }

    /// An accept whose number is listed fails, as does one past the last link, and no other. It takes no memory.
    fn accept(&mut self) -> Result<MemLink, Fault>
        ensures accepts { Accepts link_of (λ link bytes. bytes ≡ link.written) (net_of self.old) (net_of self.new) result }
        ensures ok { IfOk result (λ link. self.old.accepts ≡ link ∷ self.new.accepts) }
        ensures fails { fails_accept self.old ≡ true → IsErrOf result Fault.Failed }
        ensures only { IsErr result → fails_accept self.old ≡ true }
        ensures calls { self.new.calls ≡ next_call self.old.calls }
        ensures faults { self.new.bind_faults ≡ faults_after result self.old.bind_faults }
        ensures links { OnErr result (self.new.accepts ≡ self.old.accepts) × (self.new.servers ≡ self.old.servers) × (self.new.kept ≡ self.old.kept) }
        ensures failing { self.new.failing ≡ self.old.failing }
        ensures connects { self.new.connects ≡ self.old.connects }
    {
        self.calls = self.calls.saturating_add(1);
        if calls::is_among(&self.failing, self.calls) || self.lent == u64::MAX {
            self.bind_faults = self.bind_faults.saturating_add(1);
            return Err(Fault::Failed);
        }
        match self.accepts.pop_front() {
            Some(link) => {
                self.lent += 1;
                Ok(link)
            }
            None => {
                self.bind_faults = self.bind_faults.saturating_add(1);
                Err(Fault::Failed)
            }
        }
    }

    /// A connect whose number is listed fails, as does one to a refused server or past the last one, and no other.
    /// One to an address that was dialled before takes no memory.
    fn connect(&mut self, to: &Address) -> Result<MemLink, Fault>
        ensures connects { Connects link_of (λ link bytes. bytes ≡ link.written) (net_of self.old) (net_of self.new) (address_of to.now) result }
        ensures ok { IfOk result (λ link. self.old.servers ≡ Some link ∷ self.new.servers) }
        ensures fails { fails_connect self.old ≡ true → IsErr result }
        ensures only { IsErrOf result Fault.Failed → fails_connect self.old ≡ true }
        ensures memory { IsErrOf result Fault.OutOfMemory → is_among (address_of to.now) self.old.dialled ≡ false }
        ensures listed { fails_next self.old ≡ true → self.new.servers ≡ self.old.servers }
        ensures calls { self.new.calls ≡ next_call self.old.calls }
        ensures counted { self.new.connects ≡ next_connect self.old.connects }
        ensures faults { self.new.connect_faults ≡ faults_after result self.old.connect_faults }
        ensures links { (self.new.accepts ≡ self.old.accepts) × (self.new.kept ≡ self.old.kept) }
        ensures failing { self.new.failing ≡ self.old.failing }
    {
        self.calls = self.calls.saturating_add(1);
        self.connects = self.connects.saturating_add(1);
        if note(&mut self.dialled, to).is_err() {
            return Err(Fault::OutOfMemory);
        }
        if calls::is_among(&self.failing, self.calls) || self.lent == u64::MAX {
            self.connect_faults = self.connect_faults.saturating_add(1);
            return Err(Fault::Failed);
        }
        match self.servers.pop_front() {
            Some(Some(link)) => {
                self.lent += 1;
                Ok(link)
            }
            Some(None) | None => {
                self.connect_faults = self.connect_faults.saturating_add(1);
                Err(Fault::Failed)
            }
        }
    }

    fn keep(&mut self, link: MemLink)
        requires { 0 < self.old.lent }
        ensures keeps { Keeps (λ bytes. bytes ≡ link.written) (net_of self.old) (net_of self.new) (link_of link) }
        ensures kept { self.new ≡ record self.old { kept = self.old.kept ++ link ∷ []; lent = self.new.lent } }
    {
        self.lent -= 1;
        self.kept.push(link).unwrap();
    }

    fn tells_kept(&self) -> bool {
        true
    }
}

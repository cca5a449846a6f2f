//! A net whose connected links ask an application.
ghost use Rattle.std.specs.Prelude.{◌≡◌, ◌<◌, ◌≤◌, ◌+◌, List, Option, OnErr, [], ◌∷◌, ◌++◌, None, IfOk, OnOk, vec_len, vec_capacity};
ghost use Rattle.px_link.specs.Link.{AsItIs};
ghost use Rattle.fcgi_link.specs.declared.note.Note.{Note};
ghost use Rattle.fcgi_link.specs.Asked.{asking};
ghost use Rattle.fcgi_link.specs.Nets.{asking_some, with_notes, IsOver, IsBegun, notes_with};

use crate::app_link::AppLink;
use crate::asks_application::AsksApplication;
use crate::boxed_exchange::BoxedExchange;
use crate::note::Note;
use crate::responder::Responder;
use http_model::OutOfMemory;
use px_link::{Address, Application, Fault, Net, WaitsNet, Wakes};
use px_proxyproto::{Heading, Introduces};
use std::alloc::Global;
use std::marker::Model;

/// A net over one whose links pass on all as it is. Links that are connected ask an application, where it was told one; accepted ones pass on all as it is.
/// Contracts see the net below, the application that links ask which are connected next, and what is noted of links that were kept.
#[derive(Drop)]
pub struct AppNet<N: Net> {
    alloc: Global,
    inner: N,
    responder: Option<Responder>,
    /// Of the links that were kept, in order, where the net below tells of them. There is room for each link that is lent.
    notes: Vec<Option<Note>>,
    lent: usize,
}

impl<N: Net> Model for AppNet<N> {
    ghost use Rattle.std.specs.Prelude.{◌≡◌, ◌≤◌, ◌+◌, List, Option, OnErr, vec_len, vec_capacity};
    ghost use Rattle.fcgi_link.specs.Nets.{AppNetSeen, IsOver, HaveNotes};

    ghost Value = { AppNetSeen N };

    ghost view = { λ net. record { inner = net.inner; responder = net.responder; notes = net.notes.items } };

    ghost invariant = { λ net. IsOver net.responder (N.seen net.inner).manner
        × (net.lent ≡ (N.seen net.inner).lent)
        × (vec_len net.notes + net.lent ≤ vec_capacity net.notes)
        × HaveNotes net.notes.items (N.seen net.inner).kept };
}

/// What a link asks that is connected next. This call alone takes memory for it.
fn exchange_of(
    alloc: Global,
    responder: &Option<Responder>,
) -> Result<Option<BoxedExchange>, OutOfMemory>
    ensures { IfOk result (λ exchange. IsBegun responder.now exchange) }
{
    match responder {
        None => Ok(None),
        Some(responder) => Ok(Some(BoxedExchange::new(
            alloc,
            &responder.application,
            responder.limit,
        )?)),
    }
}

/// Takes the memory for the note of one link more than are lent.
fn take_room(notes: &mut Vec<Option<Note>>, lent: usize) -> Result<(), OutOfMemory>
    ensures items { notes.new.items ≡ notes.old.items }
    ensures capacity { vec_capacity notes.old ≤ vec_capacity notes.new }
    ensures room { OnOk result (vec_len notes.new + (lent + 1) ≤ vec_capacity notes.new) }
{
    let Some(count) = lent.checked_add(1) else {
        return Err(OutOfMemory);
    };
    notes.reserve(count)?;
    Ok(())
}

/// Notes a link that was kept behind the others, where such links are told. There is room for it.
fn note_kept(notes: &mut Vec<Option<Note>>, note: Option<Note>, tells: bool)
    requires { vec_len notes.old < vec_capacity notes.old }
    ensures items { notes.new.items ≡ notes_with tells notes.old.items note }
    ensures longer { vec_len notes.new ≤ vec_len notes.old + 1 }
    ensures capacity { vec_capacity notes.old ≤ vec_capacity notes.new }
{
    if tells {
        notes.push(note).unwrap();
    }
}

/// The memory that is wanted before a link is connected: that of its note, and that of what it asks.
fn prepare(
    alloc: Global,
    responder: &Option<Responder>,
    notes: &mut Vec<Option<Note>>,
    lent: usize,
) -> Result<Option<BoxedExchange>, OutOfMemory>
    ensures items { notes.new.items ≡ notes.old.items }
    ensures capacity { vec_capacity notes.old ≤ vec_capacity notes.new }
    ensures room { OnOk result (vec_len notes.new + (lent + 1) ≤ vec_capacity notes.new) }
    ensures begun { IfOk result (λ exchange. IsBegun responder.now exchange) }
{
    take_room(notes, lent)?;
    exchange_of(alloc, responder)
}

impl<N: Net> AppNet<N> {
    /// Links that are connected pass on all as it is, until an application is told. The net below passes on all as it is, and has no link lent.
    pub fn new(alloc: Global, inner: N) -> AppNet<N>
        requires lent { (N.seen inner).lent ≡ 0 }
        requires manner { (N.seen inner).manner ≡ AsItIs }
        ensures is { result ≡ record { inner = inner; responder = None; notes = [] } }
        ensures seen { ⟦<AppNet<N> as Net>⟧.seen result ≡ N.seen inner }
    {
        AppNet {
            alloc,
            inner,
            responder: None,
            notes: Vec::new(alloc),
            lent: 0,
        }
    }

    /// Links that are connected ask this application, the heads of whose answers have at most so many bytes. The net below passes on all as it is, and has no
    /// link lent.
    pub fn asking(alloc: Global, inner: N, application: Application, limit: u32) -> AppNet<N>
        requires lent { (N.seen inner).lent ≡ 0 }
        requires manner { (N.seen inner).manner ≡ AsItIs }
        ensures inner { result.inner ≡ inner }
        ensures seen { ⟦<AppNet<N> as Net>⟧.seen result ≡ asking limit application (N.seen inner) }
    {
        AppNet {
            alloc,
            inner,
            responder: Some(Responder { application, limit }),
            notes: Vec::new(alloc),
            lent: 0,
        }
    }

    /// The net below.
    pub fn inner(&self) -> &N
        ensures { result.now ≡ self.now.inner }
    {
        &self.inner
    }

    /// What is noted of the links that were kept, in order. Where the net below tells of none nothing is.
    pub fn notes(&self) -> &[Option<Note>]
        ensures { result.now ≡ self.now.notes }
    {
        &self.notes
    }

    /// Has this wait watch the listener of the net below.
    pub(crate) fn watch_listener<W: Wakes<N>>(&mut self, wakes: &mut W)
        ensures { ⟦<AppNet<N> as Net>⟧.seen self.new ≡ ⟦<AppNet<N> as Net>⟧.seen self.old }
    {
        wakes.watch_listener(&mut self.inner);
    }

    /// Has this wait leave the listener of the net below.
    pub(crate) fn leave_listener<W: Wakes<N>>(&mut self, wakes: &mut W)
        ensures { ⟦<AppNet<N> as Net>⟧.seen self.new ≡ ⟦<AppNet<N> as Net>⟧.seen self.old }
    {
        wakes.leave_listener(&mut self.inner);
    }

    /// Has this wait watch the connect that the net below has begun.
    pub(crate) fn watch_connect<W: Wakes<N>>(&mut self, wakes: &mut W, place: usize)
        ensures { ⟦<AppNet<N> as Net>⟧.seen self.new ≡ ⟦<AppNet<N> as Net>⟧.seen self.old }
    {
        wakes.watch_connect(place, &mut self.inner);
    }
}

impl<N: Net> Net for AppNet<N> {
    ghost use Rattle.std.specs.Prelude.{is_some};
    ghost use Rattle.px_link.specs.Net.{Keeps};
    ghost use Rattle.fcgi_link.specs.Exchange.{LinkWrote, link_over, note_of};
    ghost use Rattle.fcgi_link.specs.Nets.{net_over};

    type Link = AppLink<N::Link>;

    ghost seen = { λ net. net_over N.seen net };

    fn bind(&mut self, at: &Address) -> Result<(), Fault> {
        self.inner.bind(at)
    }

    fn accept(&mut self) -> Result<AppLink<N::Link>, Fault> {
        let Ok(()) = take_room(&mut self.notes, self.lent) else {
            return Err(Fault::OutOfMemory);
        };
        match self.inner.accept() {
            Ok(link) => {
                self.lent += 1;
                Ok(AppLink::plain(link))
            }
            Err(fault) => Err(fault),
        }
    }

    fn connect(&mut self, to: &Address) -> Result<AppLink<N::Link>, Fault> {
        let Ok(exchange) = prepare(self.alloc, &self.responder, &mut self.notes, self.lent) else {
            return Err(Fault::OutOfMemory);
        };
        match self.inner.connect(to) {
            Ok(link) => {
                self.lent += 1;
                Ok(AppLink::over(link, exchange))
            }
            Err(fault) => Err(fault),
        }
    }

    /// Where the net below tells of no links that were kept nothing is noted, and so no memory stays with a link that was.
    fn keep(&mut self, link: AppLink<N::Link>)
        requires { 0 < (net_over N.seen self.old).lent }
        ensures keeps { Keeps (LinkWrote N.Link.wrote link) (net_over N.seen self.old) (net_over N.seen self.new) (link_over N.Link.seen link) }
        ensures notes { self.new.notes ≡ notes_with (is_some (N.seen self.new.inner).kept) self.old.notes (note_of link.exchange) }
    {
        let note = link.note();
        self.inner.keep(link.into_inner());
        note_kept(&mut self.notes, note, self.inner.tells_kept());
        self.lent -= 1;
    }

    fn tells_kept(&self) -> bool {
        self.inner.tells_kept()
    }
}

/// Has the links ask this application that the net below connects, where they ask none yet.
fn tell<N: Introduces>(
    alloc: Global,
    inner: &mut N,
    responder: &mut Option<Responder>,
    application: &Application,
    limit: u32,
) -> Result<(), OutOfMemory>
    requires over { IsOver responder.old (N.seen inner.old).manner }
    ensures over { IsOver responder.new (N.seen inner.new).manner }
    ensures asked { (notes : List (Option Note)) → OnOk result (asking_some responder.new (with_notes notes (N.seen inner.new)) ≡ asking limit application.now (asking_some responder.old (with_notes notes (N.seen inner.old)))) }
    ensures inner { OnErr result (inner.new ≡ inner.old) }
    ensures responder { OnErr result (responder.new ≡ responder.old) }
    ensures lent { (N.seen inner.new).lent ≡ (N.seen inner.old).lent }
    ensures kept { (N.seen inner.new).kept ≡ (N.seen inner.old).kept }
{
    if responder.is_some() {
        return Ok(());
    }
    let application = application.copy(alloc)?;
    inner.introduce(None);
    *responder = Some(Responder { application, limit });
    Ok(())
}

impl<N: Introduces> AsksApplication for AppNet<N> {
    fn ask(&mut self, application: &Application, limit: u32) -> Result<(), OutOfMemory> {
        tell(
            self.alloc,
            &mut self.inner,
            &mut self.responder,
            application,
            limit,
        )
    }
}

impl<N: Introduces> Introduces for AppNet<N> {
    fn introduce(&mut self, heading: Option<Heading>) {
        let None = self.responder else {
            return;
        };
        self.inner.introduce(heading);
    }
}

impl<N: WaitsNet> WaitsNet for AppNet<N> {
    fn can_accept(&mut self) -> bool {
        self.inner.can_accept()
    }

    fn can_connect(&mut self, to: &Address) -> bool {
        self.inner.can_connect(to)
    }
}

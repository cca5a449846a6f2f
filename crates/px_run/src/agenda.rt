//! Who is looked at next, and when. No contract speaks of it: what a connection does is right in any order.

ghost use Rattle.std.specs.Prelude.{◌<◌, IfSome, vec_len};

use crate::pace::Pace;
use crate::{Call, Times};
use px_link::{OutOfMemory, Wake};
use std::alloc::Global;

/// How long it takes until an accept is tried again that failed, in milliseconds.
const RETRY: u64 = 100;

/// How many accepts in a row may fail while no connection is open.
const MOST_FAILED: u32 = 100;

/// Who is looked at next, and when.
#[derive(Drop)]
pub(crate) struct Agenda {
    /// Of each place that is there, when its connection is looked at again.
    pub paces: Vec<Pace>,
    /// How many places there may be.
    most: usize,
    /// The places that are looked at in this round.
    pub now_due: Vec<usize>,
    /// Those that are looked at in the next.
    due: Vec<usize>,
    /// Those that go on once a core is free, in their order.
    hungry: Vec<usize>,
    /// Those of the places that are there at which no connection is.
    free: Vec<usize>,
    /// What the last wait told.
    pub woken: Vec<Wake>,
    /// No deadline comes before this time.
    pub next: Option<u64>,
    /// A link may wait to be accepted.
    pub may_accept: bool,
    /// Further links are accepted.
    pub accepts: bool,
    /// The place of a connection that was ended so that a further one finds a place, until it has left.
    makes_room: Option<usize>,
    /// When an accept is tried again that failed.
    retry: Option<u64>,
    /// How many accepts in a row failed.
    failed: u32,
}

/// The sooner of two times.
fn sooner(one: Option<u64>, other: Option<u64>) -> Option<u64> {
    match (one, other) {
        (Some(one), Some(other)) => Some(one.min(other)),
        (Some(one), None) => Some(one),
        (None, other) => other,
    }
}

impl Agenda {
    /// Nobody is looked at, and no place is there yet. There may be so many, and the memory for what is known of them is taken here.
    pub fn new(alloc: Global, most: usize) -> Result<Agenda, OutOfMemory> {
        Ok(Agenda {
            paces: Vec::with_capacity(alloc, most)?,
            most,
            now_due: Vec::new(alloc),
            due: Vec::new(alloc),
            hungry: Vec::new(alloc),
            free: Vec::with_capacity(alloc, most)?,
            woken: Vec::new(alloc),
            next: None,
            may_accept: true,
            accepts: true,
            makes_room: None,
            retry: None,
            failed: 0,
        })
    }

    /// How long a wait takes at most: not at all where something can be done now.
    pub fn patience(&self, accepts: bool, now: u64) -> Option<u64> {
        let accepts_now = accepts && self.may_accept && self.has_place();
        if accepts_now || !self.due.is_empty() {
            return Some(0);
        }
        match sooner(self.next, self.retry) {
            Some(at) => Some(at.saturating_sub(now)),
            None => None,
        }
    }

    /// Those that were due are looked at now.
    pub fn begin_round(&mut self, now: u64) {
        std::mem::swap(&mut self.now_due, &mut self.due);
        self.due.truncate(0);
        if let Some(at) = self.retry {
            if at <= now {
                self.retry = None;
                self.may_accept = true;
            }
        }
    }

    /// The connection at this place is looked at next.
    pub fn call_next(&mut self, place: usize) -> Result<(), OutOfMemory> {
        if place >= self.paces.len() {
            return Ok(());
        }
        if self.paces[place].due {
            return Ok(());
        }
        self.paces[place].due = true;
        self.due.push(place)?;
        Ok(())
    }

    /// The connection at this place is looked at when its deadline comes.
    pub fn rest(&mut self, place: usize, times: &Times) {
        if place >= self.paces.len() {
            return;
        }
        self.paces[place].rests(times);
        let until = sooner(self.paces[place].until, self.paces[place].gives_at);
        self.next = sooner(self.next, until);
    }

    /// The connection at this place is looked at next, where its core is to be asked now whether it rests.
    pub fn asks_for_rest(&mut self, place: usize, now: u64) -> Result<(), OutOfMemory> {
        if place >= self.paces.len() {
            return Ok(());
        }
        match self.paces[place].gives_at {
            Some(at) => {
                if at > now {
                    self.next = sooner(self.next, Some(at));
                    return Ok(());
                }
                self.paces[place].gives_at = None;
                self.call_next(place)
            }
            None => Ok(()),
        }
    }

    /// Of those that keep their cores behind an answer, the one that has done so longest is looked at next.
    pub fn call_lingering(&mut self) -> Result<(), OutOfMemory> {
        let mut found = None;
        let mut since = u64::MAX;
        for place in 0..self.paces.len() {
            if let Some(at) = self.paces[place].lingers_since() {
                if at < since {
                    since = at;
                    found = Some(place);
                }
            }
        }
        match found {
            Some(place) => self.asks_for_rest(place, u64::MAX),
            None => Ok(()),
        }
    }

    /// The connection at this place goes on once a core is free.
    pub fn wait_for_core(
        &mut self,
        place: usize,
        times: &Times,
        now: u64,
    ) -> Result<(), OutOfMemory> {
        if place >= self.paces.len() {
            return Ok(());
        }
        self.paces[place].hungers(times, now);
        let until = self.paces[place].until;
        self.next = sooner(self.next, until);
        if self.paces[place].hungry {
            return Ok(());
        }
        self.paces[place].hungry = true;
        self.hungry.push(place)?;
        Ok(())
    }

    /// A core is free: the first of those that still wait for one is looked at next.
    pub fn feed(&mut self) -> Result<(), OutOfMemory> {
        if !self.lacks_cores() || self.hungry.is_empty() {
            return Ok(());
        }
        let place = self.hungry.remove(0);
        if place < self.paces.len() {
            self.paces[place].hungry = false;
        }
        self.call_next(place)
    }

    /// The place of this number of those that are looked at in this round, which has a pace.
    pub fn due_at(&self, at: usize) -> Option<usize>
        ensures within { IfSome result (λ place. place < vec_len self.now.paces) }
    {
        if at >= self.now_due.len() {
            return None;
        }
        let place = self.now_due[at];
        if place >= self.paces.len() {
            return None;
        }
        Some(place)
    }

    /// Whether some deadline may have come.
    pub fn deadline_comes(&mut self, now: u64) -> bool {
        match self.next {
            Some(at) => {
                if at > now {
                    return false;
                }
                self.next = None;
                true
            }
            None => false,
        }
    }

    /// The call that fails of the connection at this place, if its deadline has come.
    pub fn overdue(&mut self, place: usize, times: &Times, now: u64) -> Option<Call> {
        if place >= self.paces.len() {
            return None;
        }
        match self.paces[place].until {
            Some(at) => {
                if at > now {
                    self.next = sooner(self.next, Some(at));
                    return None;
                }
                self.paces[place].expires(times, now)
            }
            None => None,
        }
    }

    /// The kept connection at this place rests no longer.
    pub fn ends_rest(&mut self, place: usize) -> Result<(), OutOfMemory> {
        if place < self.paces.len() {
            self.paces[place].expired = true;
        }
        self.call_next(place)
    }

    /// A connection at this place was accepted now.
    pub fn begin(&mut self, place: usize, now: u64, times: &Times) -> Result<(), OutOfMemory> {
        self.failed = 0;
        if place >= self.paces.len() {
            return Ok(());
        }
        self.paces[place] = Pace::new(place, now, times);
        self.call_next(place)
    }

    /// Whether some connection waits for a core. Those that got one meanwhile are forgotten.
    pub fn lacks_cores(&mut self) -> bool {
        for _ in 0..self.hungry.len() {
            if self.hungry.is_empty() {
                return false;
            }
            let place = self.hungry[0];
            if place < self.paces.len() && self.paces[place].hungry {
                return true;
            }
            self.hungry.remove(0);
        }
        false
    }

    /// The place of a kept connection that is ended for others: where one waits for a core, of those that have one; where a link may wait to be accepted and no
    /// place is left, of those that have none.
    pub fn gives_way(&mut self) -> Option<usize> {
        if self.lacks_cores() {
            return self.longest_rested(true);
        }
        if self.lacks_room() {
            self.makes_room = self.longest_rested(false);
            return self.makes_room;
        }
        None
    }

    /// Whether a link may wait that is to be accepted, no place is left for it, and no connection was ended for it yet that is still to leave.
    fn lacks_room(&self) -> bool {
        self.accepts && self.may_accept && self.makes_room.is_none() && !self.has_place()
    }

    /// The place of the kept connection that has rested longest, with a core or without.
    fn longest_rested(&self, has_core: bool) -> Option<usize> {
        let mut found = None;
        let mut since = u64::MAX;
        for place in 0..self.paces.len() {
            if let Some(rested) = self.paces[place].rested_since(has_core) {
                if rested < since {
                    since = rested;
                    found = Some(place);
                }
            }
        }
        found
    }

    /// A place that is there, at which no connection is.
    pub fn free_place(&mut self) -> Option<usize> {
        self.free.pop()
    }

    /// Whether there is one, or may be.
    pub fn has_place(&self) -> bool {
        !self.free.is_empty() || self.may_grow()
    }

    /// Whether a further place is to come, since none of those that are there is free.
    pub fn lacks_place(&self) -> bool {
        self.free.is_empty() && self.may_grow()
    }

    fn may_grow(&self) -> bool {
        self.paces.len() < self.most
    }

    /// A further place is there, behind the others.
    pub fn add_place(&mut self, times: &Times) -> Result<(), OutOfMemory> {
        let place = self.paces.len();
        self.paces.push(Pace::new(place, 0, times))?;
        self.free.push(place)?;
        Ok(())
    }

    /// No connection is at this place any more.
    pub fn leave(&mut self, place: usize) -> Result<(), OutOfMemory> {
        if let Some(ended) = self.makes_room {
            if ended == place {
                self.makes_room = None;
            }
        }
        self.free.push(place)?;
        Ok(())
    }

    /// An accept failed. It is tried again later.
    pub fn accept_failed(&mut self, place: usize, now: u64) -> Result<(), OutOfMemory> {
        self.failed = self.failed.saturating_add(1);
        self.may_accept = false;
        self.retry = Some(now.saturating_add(RETRY));
        self.free.push(place)?;
        Ok(())
    }

    /// So many accepts in a row failed that no more are tried while no connection is open.
    pub fn gives_up(&self) -> bool {
        self.failed >= MOST_FAILED
    }
}

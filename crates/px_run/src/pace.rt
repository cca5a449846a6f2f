//! When a connection is looked at again: how far its client's request is, and when what it waits for began. No contract speaks of it.

use crate::log::Tally;
use crate::{Call, Marks, Next, Phase, Times, deadline_of, expired_of};
use px_link::Turn;
use session_core::Wants;

/// How long a client's link that was closed waits for the end of its peer, in milliseconds.
const PATIENCE: u64 = 2000;

/// How long a connection keeps its core behind an answer while others are free, in milliseconds: where its client asks again at once no core is made anew.
const LINGER: u64 = 100;

/// What a connection wants that has no core yet: the first bytes of its client, or the header in front of them. All of these have the time of the first head.
const WAITING: Wants = Wants {
    client_read: true,
    client_write: false,
    client_waits: false,
    server_open: false,
    server_read: false,
    server_write: false,
    server_close: None,
    over: None,
};

/// What of a connection tells when it is looked at again.
#[derive(Clone, Copy)]
pub(crate) struct Pace {
    /// The number of the place.
    pub place: usize,
    marks: Marks,
    phase: Phase,
    /// What was wanted when it was looked at last.
    wants: Wants,
    /// The room for bytes of its client while none of them wait; none while it has no core.
    room: Option<usize>,
    /// It rests between two requests, and gave its core back.
    at_rest: bool,
    /// It waits for a core.
    pub hungry: bool,
    /// When its core is asked whether it rests.
    pub gives_at: Option<u64>,
    /// Its core was asked since it did something last.
    asked: bool,
    /// The time of its connect is over.
    pub connect_over: bool,
    /// The time of something that it waits for is over, and nothing was done since.
    pub expired: bool,
    /// When the first of what it waits for is over.
    pub until: Option<u64>,
    /// It is looked at next.
    pub due: bool,
    /// What was counted of it for its log.
    pub tally: Tally,
}

/// This time if the want is new, or else the one before.
fn began(was: bool, now: u64, before: u64) -> u64 {
    if was { before } else { now }
}

/// How far the request is, by what is wanted, whether a part of a head has come, and how many heads were read.
fn phase_of(wants: &Wants, part: bool, requests: u32) -> Phase {
    let busy = wants.server_open || wants.server_read || wants.server_write || wants.client_write;
    if busy {
        Phase::Exchange
    } else if part {
        Phase::Head
    } else if requests == 0 {
        Phase::First
    } else {
        Phase::Kept
    }
}

/// Whether a head begins, that isn't a connection's first.
fn begins(before: Phase, now: Phase) -> bool {
    match now {
        Phase::Head => !matches!(before, Phase::Head | Phase::First),
        Phase::First => false,
        Phase::Kept => false,
        Phase::Exchange => false,
    }
}

impl Pace {
    /// Of a connection that was accepted now.
    pub fn new(place: usize, now: u64, times: &Times) -> Pace {
        let marks = Marks {
            accepted: now,
            answered: now,
            head: now,
            client_read: now,
            client_write: now,
            connect: now,
            server: now,
        };
        Pace {
            place,
            marks,
            phase: Phase::First,
            wants: WAITING,
            room: None,
            at_rest: false,
            hungry: false,
            gives_at: None,
            asked: false,
            connect_over: false,
            expired: false,
            until: deadline_of(&WAITING, Phase::First, times, &marks),
            due: false,
            tally: Tally::new(),
        }
    }

    /// It has a core, with so much room for bytes of its client while none of them wait.
    pub fn takes_core(&mut self, room: usize) {
        self.room = Some(room);
        self.at_rest = false;
        self.hungry = false;
    }

    /// It waits, with a core. Whether that is asked now whether it rests: some time behind an answer, or at once where no core is free. It is asked once.
    pub fn asks_for_rest(&mut self, now: u64, lacks: bool) -> bool {
        if self.asked || !matches!(self.phase, Phase::Kept) {
            return false;
        }
        self.asked = lacks || self.marks.answered.saturating_add(LINGER) <= now;
        self.asked
    }

    /// It rests, and gave its core back. What it wants and since when stays.
    pub fn gives_core(&mut self) {
        self.room = None;
        self.at_rest = true;
        self.gives_at = None;
    }

    /// It wants a core, and none is free. Where it rested its client goes on: the time of a head begins.
    pub fn hungers(&mut self, times: &Times, now: u64) {
        let kept = matches!(self.phase, Phase::Kept);
        if kept && self.at_rest && !self.expired {
            self.phase = Phase::Head;
            self.marks.head = now;
            self.until = deadline_of(&self.wants, self.phase, times, &self.marks);
        }
    }

    /// It wants this now. `room` is the room for bytes of its client, and `requests` how many heads were read.
    pub fn wants(&mut self, wants: &Wants, room: usize, requests: u32, now: u64) {
        let was = self.wants;
        self.marks.client_read = began(was.client_read, now, self.marks.client_read);
        self.marks.client_write = began(was.client_write, now, self.marks.client_write);
        self.marks.connect = began(was.server_open, now, self.marks.connect);
        self.wants = *wants;
        let part = match self.room {
            Some(most) => room < most,
            None => false,
        };
        let phase = phase_of(wants, part, requests);
        if begins(self.phase, phase) {
            self.marks.head = now;
        }
        self.phase = phase;
    }

    /// It waits for its connect.
    pub fn connects(&self) -> bool {
        self.wants.server_open
    }

    /// Since when it rests between two requests, with a core or without.
    pub fn rested_since(&self, has_core: bool) -> Option<u64> {
        let so = if has_core {
            self.room.is_some()
        } else {
            self.at_rest
        };
        // who has one that wasn't asked yet may give it back
        let so = so && (self.asked || !has_core);
        if so && matches!(self.phase, Phase::Kept) && !self.expired {
            Some(self.marks.answered)
        } else {
            None
        }
    }

    /// It waits from now on, for what it wants.
    pub fn rests(&mut self, times: &Times) {
        let counts = self.room.is_some() || self.at_rest;
        if counts && !self.expired {
            self.until = deadline_of(&self.wants, self.phase, times, &self.marks);
        }
        let keeps = matches!(self.phase, Phase::Kept) && self.room.is_some();
        self.gives_at = if keeps && !self.asked {
            Some(self.marks.answered.saturating_add(LINGER))
        } else {
            None
        };
    }

    /// Since when it keeps its core behind an answer, where that wasn't asked yet whether it rests.
    pub fn lingers_since(&self) -> Option<u64> {
        match self.gives_at {
            Some(_) => Some(self.marks.answered),
            None => None,
        }
    }

    /// The time of something is over: the call that fails now. One that has no core, or has ended, is looked at all the same.
    pub fn expires(&mut self, times: &Times, now: u64) -> Option<Call> {
        self.expired = true;
        self.until = None;
        if self.room.is_none() {
            return Some(Call::ClientRead);
        }
        let call = expired_of(&self.wants, self.phase, times, &self.marks, now);
        if let Some(Call::Connect) = call {
            self.connect_over = true;
        }
        call
    }

    /// It has ended, and its client's link waits for the end of its peer.
    pub fn ended(&mut self, now: u64) {
        self.room = None;
        self.at_rest = false;
        self.gives_at = None;
        self.expired = false;
        self.until = Some(now.saturating_add(PATIENCE));
    }

    /// This was done.
    pub fn did(&mut self, next: &Next, now: u64) {
        match next {
            Next::Open => {
                self.connect_over = false;
                self.expired = false;
                self.marks.server = now;
            }
            Next::Move(turn) => {
                self.expired = false;
                self.moved(*turn, now);
            }
            Next::End(_) => {}
            Next::Close(_) => {}
            Next::Wait => {}
        }
    }

    /// This read or write was made.
    fn moved(&mut self, turn: Turn, now: u64) {
        self.asked = false;
        match turn {
            Turn::ClientGives(_) => self.marks.client_read = now,
            Turn::ClientTakes(_) => {
                self.marks.client_write = now;
                self.marks.answered = now;
            }
            Turn::ServerGives(_) => self.marks.server = now,
            Turn::ServerTakes(_) => self.marks.server = now,
        }
    }
}

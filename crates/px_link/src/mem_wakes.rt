//! A wait in memory, which waits for nothing.

use crate::{Fault, Net, OutOfMemory, Readiness, Wake, Wakes, Watched};

/// Each event tells that all can be done, which a script of the link may deny.
const ALL: Readiness = Readiness {
    reads: true,
    writes: true,
    ended: false,
};

/// A wait that comes to its end at once, and names the listener and each place at which something was watched, both sides of it. Its clock gives the
/// numbers of a list, and then the last for ever.
pub struct MemWakes {
    /// Each place at which something was watched is below.
    places: usize,
    listens: bool,
    times: Vec<u64>,
    readings: usize,
    time: u64,
}

impl Drop for MemWakes {
    fn drop(self) {
        let MemWakes {
            places: _,
            listens: _,
            times: _,
            readings: _,
            time: _,
        } = self;
    }
}

impl MemWakes {
    /// A wait with these readings of the clock; with none it stands at 0.
    pub fn new(times: Vec<u64>) -> Self {
        MemWakes {
            places: 0,
            listens: false,
            times,
            readings: 0,
            time: 0,
        }
    }

    /// Something is watched at this place.
    fn watch(&mut self, place: usize) {
        self.places = self.places.max(place.saturating_add(1));
    }
}

/// Names both sides of this place.
fn name_both(into: &mut Vec<Wake>, place: usize) -> Result<(), OutOfMemory> {
    for whom in [Watched::Client(place), Watched::Server(place)] {
        into.push(Wake {
            whom,
            readiness: ALL,
        })?;
    }
    Ok(())
}

impl<N: Net> Wakes<N> for MemWakes {
    fn watch_listener(&mut self, _: &mut N) {
        self.listens = true;
    }

    fn leave_listener(&mut self, _: &mut N) {
        self.listens = false;
    }

    fn watch_client(&mut self, place: usize, _: &mut N::Link) {
        self.watch(place);
    }

    fn watch_server(&mut self, place: usize, _: &mut N::Link) {
        self.watch(place);
    }

    fn watch_connect(&mut self, place: usize, _: &mut N) {
        self.watch(place);
    }

    fn wait(&mut self, _: Option<u64>) -> Result<(), Fault> {
        Ok(())
    }

    fn woken(&mut self, into: &mut Vec<Wake>) -> Result<(), OutOfMemory> {
        if self.listens {
            into.push(Wake {
                whom: Watched::Listener,
                readiness: ALL,
            })?;
        }
        for place in 0..self.places {
            name_both(into, place)?;
        }
        Ok(())
    }

    fn now(&mut self) -> u64 {
        if let Some(time) = self.times.get(self.readings) {
            self.time = *time;
            self.readings += 1;
        }
        self.time
    }
}

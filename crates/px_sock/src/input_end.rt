//! The end of standard input, as a switch. What it holds is read and thrown away.
use libc::net as c;
use libc::types::pollfd;

/// The number of standard input.
pub(crate) const INPUT: i32 = 0;

const PIECE: usize = 4096;

/// How many pieces one question throws away at most.
const PIECES: usize = 1024;

/// Whether standard input has ended. No contract tells when it does.
pub struct InputEnd {
    has_ended: bool,
}

impl Drop for InputEnd {
    fn drop(self) {
        let InputEnd { has_ended: _ } = self;
    }
}

/// Whether a read of standard input is answered at once.
fn is_readable() -> bool {
    let mut asked = [pollfd {
        fd: INPUT,
        events: c::POLLIN,
        revents: 0,
    }];
    c::poll(&mut asked, 0) != 0
}

/// Throws a piece away; whether there was none. A read that fails is the end.
fn ends() -> bool {
    let mut piece = [0u8; PIECE];
    libc::read(INPUT, &mut piece) <= 0
}

impl InputEnd {
    /// Nothing was asked yet.
    pub fn new() -> Self {
        InputEnd { has_ended: false }
    }

    /// Whether it has ended. It waits for nothing.
    pub fn has_ended(&mut self) -> bool {
        for _ in 0..PIECES {
            if self.has_ended || !is_readable() {
                return self.has_ended;
            }
            self.has_ended = ends();
        }
        self.has_ended
    }
}

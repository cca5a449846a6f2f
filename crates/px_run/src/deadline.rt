//! When a connection has waited too long, and which of its calls then fails. Times are in milliseconds since the start; nothing here reads a clock.
ghost use Rattle.std.specs.Prelude.{◌≡◌, ℕ, Option, is_some};
ghost use Rattle.px_run.specs.Deadline.{time_or, due, sooner, is_due, head_due, bytes_due, rows_of, IsLeast, first_due};

use session_core::Wants;

/// How far the request is that a client gives.
#[derive(Clone, Copy)]
pub enum Phase {
    /// Nothing of the first one has come.
    First,
    /// Nothing of a later one has come.
    Kept,
    /// A part of a head has come.
    Head,
    /// An exchange is in hand.
    Exchange,
}

/// How long each is waited for, in milliseconds; 0 is without end.
#[derive(Clone, Copy)]
pub struct Times {
    pub client: u64,
    pub server: u64,
    pub connect: u64,
    pub http_request: u64,
    pub http_keep_alive: u64,
}

/// When what is waited for began.
#[derive(Clone, Copy)]
pub struct Marks {
    /// The connection was accepted.
    pub accepted: u64,
    /// The last byte of the last answer was written.
    pub answered: u64,
    /// The first byte of this head came; of a connection's first head, when that was accepted.
    pub head: u64,
    /// A byte of the client came last, or it was wanted from then on.
    pub client_read: u64,
    /// The client took a byte last, or it was wanted from then on.
    pub client_write: u64,
    /// The connect began.
    pub connect: u64,
    /// A byte went over the server's link last, either way, or it was opened.
    pub server: u64,
}

/// A call that fails once its time is over.
#[derive(Clone, Copy)]
pub enum Call {
    Connect,
    ServerRead,
    ServerWrite,
    ClientWrite,
    ClientRead,
}

/// This time, or the other where there is none.
fn time_or(time: u64, other: u64) -> u64
    ensures { result ≡ time_or time other }
{
    if time == 0 { other } else { time }
}

/// When it is over, where it is waited for and doesn't last without end.
fn due(waits: bool, from: u64, time: u64) -> Option<u64>
    ensures { result ≡ due waits from time }
{
    if !waits {
        return None;
    }
    if time == 0 {
        return None;
    }
    if time > u64::MAX - from {
        return None;
    }
    Some(from + time)
}

/// The sooner of two.
fn sooner(one: Option<u64>, other: Option<u64>) -> Option<u64>
    ensures { result ≡ sooner one other }
{
    let Some(at) = one else {
        return other;
    };
    let Some(later) = other else {
        return Some(at);
    };
    if at <= later { Some(at) } else { Some(later) }
}

/// Whether it has come.
fn is_due(at: Option<u64>, now: u64) -> bool
    ensures { result ≡ is_due now at }
{
    match at {
        Some(at) => at <= now,
        None => false,
    }
}

/// When the head that is waited for has to have come.
fn head_due(wants: &Wants, phase: Phase, times: &Times, marks: &Marks) -> Option<u64>
    ensures { result ≡ head_due wants.now phase times.now marks.now }
{
    let reads = wants.client_read;
    match phase {
        Phase::First => {
            let time = time_or(times.http_request, times.client);
            due(reads, marks.accepted, time)
        }
        Phase::Kept => {
            let request = time_or(times.http_request, times.client);
            let time = time_or(times.http_keep_alive, request);
            due(reads, marks.answered, time)
        }
        Phase::Head => due(reads, marks.head, times.http_request),
        Phase::Exchange => None,
    }
}

/// When the next byte of a head or a body has to have come.
fn bytes_due(wants: &Wants, phase: Phase, times: &Times, marks: &Marks) -> Option<u64>
    ensures { result ≡ bytes_due wants.now phase times.now marks.now }
{
    let reads = wants.client_read;
    match phase {
        Phase::First => None,
        Phase::Kept => None,
        Phase::Head => due(reads, marks.client_read, times.client),
        Phase::Exchange => due(reads, marks.client_read, times.client),
    }
}

/// When the first of what a connection waits for is over; none where it waits without end.
pub fn deadline_of(wants: &Wants, phase: Phase, times: &Times, marks: &Marks) -> Option<u64>
    ensures { IsLeast result (rows_of wants.now phase times.now marks.now) }
{
    let connect = due(wants.server_open, marks.connect, times.connect);
    let server_read = due(wants.server_read, marks.server, times.server);
    let server_write = due(wants.server_write, marks.server, times.server);
    let client_write = due(wants.client_write, marks.client_write, times.client);
    let head = head_due(wants, phase, times, marks);
    let bytes = bytes_due(wants, phase, times, marks);
    let client = sooner(client_write, sooner(head, bytes));
    let server = sooner(server_read, sooner(server_write, client));
    sooner(connect, server)
}

/// The call that fails at this time: of those whose time is over a server's before its client's.
pub fn expired_of(
    wants: &Wants,
    phase: Phase,
    times: &Times,
    marks: &Marks,
    now: u64,
) -> Option<Call>
    ensures first { result ≡ first_due now (rows_of wants.now phase times.now marks.now) }
    ensures agrees { (at : Option ℕ) → IsLeast at (rows_of wants.now phase times.now marks.now) → is_some result ≡ is_due now at }
{
    if is_due(due(wants.server_open, marks.connect, times.connect), now) {
        return Some(Call::Connect);
    }
    if is_due(due(wants.server_read, marks.server, times.server), now) {
        return Some(Call::ServerRead);
    }
    if is_due(due(wants.server_write, marks.server, times.server), now) {
        return Some(Call::ServerWrite);
    }
    if is_due(
        due(wants.client_write, marks.client_write, times.client),
        now,
    ) {
        return Some(Call::ClientWrite);
    }
    if is_due(head_due(wants, phase, times, marks), now) {
        return Some(Call::ClientRead);
    }
    if is_due(bytes_due(wants, phase, times, marks), now) {
        return Some(Call::ClientRead);
    }
    None
}

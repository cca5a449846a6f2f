//! What a worker has of the process that started it: standard output is a pipe to that, and standard input is the listener of both.
use crate::input_end::INPUT;
use libc::net as c;
use libc::types::pollfd;

/// The number of standard output.
pub(crate) const OUTPUT: i32 = 1;

/// Whether nobody reads standard output any more, which is a pipe. It waits for nothing, and no contract tells when that is.
pub fn is_output_gone() -> bool {
    let mut asked = [pollfd {
        fd: OUTPUT,
        events: 0,
        revents: 0,
    }];
    c::poll(&mut asked, 0) > 0
}

/// Ends the listener that is standard input, for each process that has it. What waits there is reset, and the address is free.
pub fn end_listener() {
    c::shutdown(INPUT, c::SHUT_RD);
}

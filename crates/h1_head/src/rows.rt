//! The rows that a head has to pass before it is weighed, asked of what its fields say.
ghost use Rattle.std.specs.Prelude.{◌≡◌};
ghost use Rattle.h1_head.specs.Rows.{framing_told};
ghost use Rattle.h1_head.specs.Survey.{declared_by, hosts_are_good, framing_fails, framing_row, row_of, response_row_of};

use crate::HeadWhy;
use crate::survey::{Codings, Lengths, Survey};
use http_model::Framing;

impl Survey {
    /// Whether there are as many Host fields as the version asks for.
    fn has_good_hosts(&self, minor: u8) -> bool
        ensures { result ≡ hosts_are_good minor self.now }
    {
        if minor == 1 {
            self.hosts == 1
        } else {
            self.hosts < 2
        }
    }

    /// The length that is declared.
    pub fn declared(&self) -> Option<u64>
        ensures { result ≡ declared_by self.now.lengths }
    {
        match self.lengths {
            Lengths::One(n) => Some(n),
            Lengths::Unread | Lengths::Differing => None,
        }
    }

    /// Whether the fields that frame the body contradict each other or the version.
    fn has_bad_framing(&self, minor: u8) -> bool
        ensures { result ≡ framing_fails minor self.now }
    {
        if self.has_coding && (minor == 0 || self.has_length) {
            return true;
        }
        self.has_length && !matches!(self.lengths, Lengths::One(_))
    }

    /// The first row on framing that applies.
    fn framing_refusal(&self, minor: u8) -> Option<HeadWhy>
        ensures { result ≡ framing_row minor self.now }
    {
        if self.has_bad_framing(minor) {
            Some(HeadWhy::Framing)
        } else if self.has_coding && self.codings != Codings::Chunked {
            Some(HeadWhy::Coding)
        } else {
            None
        }
    }

    /// The first row that applies to a response.
    pub fn response_refusal(&self, status: u16, minor: u8) -> Option<HeadWhy>
        ensures { result ≡ response_row_of status minor self.now }
    {
        if self.long_name {
            Some(HeadWhy::Name)
        } else if status == 101 {
            Some(HeadWhy::Method)
        } else {
            self.framing_refusal(minor)
        }
    }

    /// The first row that applies to a request, whose target and Host fields fit each other and the method or don't.
    pub fn refusal(&self, method: &[u8], minor: u8, fits: bool) -> Option<HeadWhy>
        ensures { result ≡ row_of method.now minor fits self.now }
    {
        if self.long_name {
            Some(HeadWhy::Name)
        } else if !(self.has_good_hosts(minor) && fits) {
            Some(HeadWhy::Host)
        } else if method == b"CONNECT".as_slice() {
            Some(HeadWhy::Method)
        } else {
            self.framing_refusal(minor)
        }
    }

    /// How the body is framed, where `untold` is what a message has whose fields say nothing.
    pub fn framing(&self, untold: Framing) -> Framing
        ensures { result ≡ framing_told untold self.now.has_coding (declared_by self.now.lengths) }
    {
        if self.has_coding {
            return Framing::Chunked;
        }
        match self.declared() {
            Some(n) => Framing::Length(n),
            None => untold,
        }
    }
}

//! What a configuration holds: sizes, times, addresses, how an application is asked, three lists of rules and the filters of both directions. Nothing here
//! reads or runs it.
ghost use Rattle.std.specs.Prelude.{◌≡◌, ◌+◌, length};

use crate::rule::Rules;
use body_filter::FilterSpec;
use http_model::Limits;
use px_link::{Address, Application, ItemList};
use px_peer::Peer;

/// The filters of one direction, in the order in which bodies pass through them.
pub type Filters = ItemList<FilterSpec>;

/// How long a connection may rest, in milliseconds; 0 is without end (Configuration Manual, section 4.2, "timeout").
#[derive(Clone, Copy)]
pub struct Timeouts {
    /// The client sends nothing, or takes nothing.
    pub client: u64,
    /// The server sends nothing, or takes nothing.
    pub server: u64,
    /// The server's link isn't open yet.
    pub connect: u64,
    /// From a request's first byte to the end of its head.
    pub http_request: u64,
    /// From the end of an answer to the next request's first byte.
    pub http_keep_alive: u64,
}

/// What a proxy does: its sizes, where it listens, whom it sends requests to, its rules and its filters
/// (Configuration Manual, section 4).
pub struct Config {
    pub limits: Limits,
    pub timeouts: Timeouts,
    /// Where clients connect to. An empty host or `*` is every address of the machine.
    pub bind: Address,
    /// Each client's stream begins with a header of the PROXY protocol.
    pub accept_proxy: bool,
    /// The one server.
    pub server: Address,
    /// The version, 1 or 2, of the header of the PROXY protocol that each server is sent in front of its requests.
    pub send_proxy: Option<u32>,
    /// How the server is asked, where it is an application that speaks FastCGI.
    pub application: Option<Application>,
    /// The `http-request` rules, in their order, at most 1024.
    pub request: Rules,
    /// The `http-response` rules, as many at most.
    pub response: Rules,
    /// The `http-after-response` rules, as many at most: they run on each final response, reply and refusal.
    pub after: Rules,
    /// What the bodies of requests pass through, at most 8 filters, of them one that replaces.
    pub req_filters: Filters,
    /// The same for the bodies of responses.
    pub res_filters: Filters,
    /// Whose connection it is, where that is told. A configuration's text tells none.
    pub peer: Option<Peer>,
}

impl Drop for Config {
    fn drop(self) {
        let Config {
            limits: _,
            timeouts: _,
            bind: _,
            accept_proxy: _,
            server: _,
            send_proxy: _,
            application: _,
            request: _,
            response: _,
            after: _,
            req_filters: _,
            res_filters: _,
            peer: _,
        } = self;
    }
}

impl Config {
    /// How many filters there are in both directions.
    pub fn filter_count(&self) -> u64
        ensures { result ≡ length self.now.req_filters + length self.now.res_filters }
    {
        u64::from(self.req_filters.len()) + u64::from(self.res_filters.len())
    }

    /// How many rules run on what a client is sent: those of responses, and those behind them.
    pub fn answer_rule_count(&self) -> u64
        ensures { result ≡ length self.now.response + length self.now.after }
    {
        u64::from(self.response.len()) + u64::from(self.after.len())
    }
}

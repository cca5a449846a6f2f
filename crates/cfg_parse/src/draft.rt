//! The configuration so far, while lines are read.

use crate::waiting::WaitingRules;
use cfg_expr::condition::AclList;
use http_rules::{Filters, Rule, Rules, Timeouts};
use px_link::{Address, Bytes, ItemList};

/// The section that a line stands in.
#[derive(Clone, Copy)]
pub enum Section {
    /// No section has begun.
    Before,
    Global,
    Defaults,
    Listen,
}

/// Whether a `listen` section has begun, of which there is one.
#[derive(Clone, Copy, PartialEq, Eq)]
pub enum Listen {
    Missing,
    Begun,
}

/// What lines say of an application.
#[derive(Drop)]
pub struct ApplicationLines {
    /// The `server` line has `proto fcgi`.
    pub is_asked: bool,
    /// Where its files lie.
    pub root: Option<Bytes>,
    /// The file behind a path that ends in `/`.
    pub index: Option<Bytes>,
    /// The one file that is asked. A file of both sorts there never is.
    pub script: Option<Bytes>,
    /// The names of the pairs that rules tell, each once, in the order of their first lines.
    pub params: ItemList<Bytes>,
}

#[derive(Drop)]
pub struct Draft {
    pub section: Section,
    pub listen: Listen,
    pub bufsize: Option<u32>,
    pub maxrewrite: Option<u32>,
    pub timeouts: Timeouts,
    pub bind: Option<Address>,
    /// The `bind` line has `accept-proxy`.
    pub accept_proxy: bool,
    pub server: Option<Address>,
    /// The version of the header that an option of the `server` line asks for.
    pub send_proxy: Option<u32>,
    pub application: ApplicationLines,
    /// The `acl` lines so far.
    pub acls: AclList,
    /// How many tests the conditions so far have.
    pub tests: u64,
    pub request: Rules,
    pub response: Rules,
    pub after: Rules,
    /// The rules of `fcgi-param` lines, which stand behind all others on requests.
    pub param_rules: WaitingRules,
    pub req_filters: Filters,
    pub res_filters: Filters,
    /// The rule of `option forwardfor`, which stands behind those on requests.
    pub forwarding: Option<Rule>,
}

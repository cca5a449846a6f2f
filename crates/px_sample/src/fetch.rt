//! Fetches with their arguments, one variant for each.
ghost use Rattle.std.specs.Prelude.{◌≡◌, IfOk};

use crate::{Scope, Text};
use htx_model::OutOfMemory;

/// A fetch with its arguments (Configuration Manual, section 7.3). Names of fields are as the rule has them.
#[derive(Clone, Debug)]
pub enum Fetch {
    /// `req.hdr(name[,occ])`: the values of a field that holds a list.
    ReqHdr(Text, Option<i64>),
    /// `res.hdr(name[,occ])`.
    ResHdr(Text, Option<i64>),
    /// `req.fhdr(name[,occ])`: whole field values.
    ReqFhdr(Text, Option<i64>),
    /// `res.fhdr(name[,occ])`.
    ResFhdr(Text, Option<i64>),
    /// `req.hdr_cnt(name)`: the number of values.
    ReqHdrCnt(Text),
    /// `res.hdr_cnt(name)`.
    ResHdrCnt(Text),
    /// `path`.
    Path,
    /// `query`.
    Query,
    /// `pathq`: path and query.
    Pathq,
    /// `url`: the target.
    Url,
    /// `base`: host and path.
    Base,
    /// `url_param(name)`: a parameter of the query.
    UrlParam(Text),
    /// `method`.
    Method,
    /// `req.ver`.
    ReqVer,
    /// `res.ver`.
    ResVer,
    /// `status`.
    Status,
    /// `var(scope.name)`.
    Var(Scope, Text),
    /// `str(text)`.
    Str(Text),
    /// `int(number)`.
    Int(i64),
    /// `bool(truth)`.
    Bool(bool),
    /// `always_true`.
    AlwaysTrue,
    /// `always_false`.
    AlwaysFalse,
}

impl Drop for Fetch {
    fn drop(self) {
        match self {
            Fetch::ReqHdr(_, _) => {}
            Fetch::ResHdr(_, _) => {}
            Fetch::ReqFhdr(_, _) => {}
            Fetch::ResFhdr(_, _) => {}
            Fetch::ReqHdrCnt(_) => {}
            Fetch::ResHdrCnt(_) => {}
            Fetch::Path => {}
            Fetch::Query => {}
            Fetch::Pathq => {}
            Fetch::Url => {}
            Fetch::Base => {}
            Fetch::UrlParam(_) => {}
            Fetch::Method => {}
            Fetch::ReqVer => {}
            Fetch::ResVer => {}
            Fetch::Status => {}
            Fetch::Var(_, _) => {}
            Fetch::Str(_) => {}
            Fetch::Int(_) => {}
            Fetch::Bool(_) => {}
            Fetch::AlwaysTrue => {}
            Fetch::AlwaysFalse => {}
        }
    }
}

impl Fetch {
    /// The same fetch again.
    pub fn copy(&self) -> Result<Fetch, OutOfMemory>
        ensures { IfOk result (λ copied. copied ≡ self.now) }
    {
        Ok(self.clone()?)
    }
}

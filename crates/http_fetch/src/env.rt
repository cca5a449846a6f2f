//! The samples of a request and of a response.
ghost use Rattle.std.specs.Prelude.{◌≡◌, ◌<◌, ◌^◌, length, drop, slice_get, option_map};
ghost use Rattle.std.specs.Bool.{OnTrue};
ghost use Rattle.http_fetch.specs.Fetches.{request_samples, response_samples, count_sample};
ghost use Rattle.http_fetch.specs.Fetches as spec;
ghost use Rattle.http_fetch.specs.Found.{value_of};
ghost use Rattle.http_fetch.specs.Walk.{request_field, response_field, request_left, response_left, given_samples, given_field};
ghost use Rattle.header_ops.specs.Lists.{values_named};

use crate::found::{Found, hand};
use crate::given::{Given, last_given, next_given, nth_given, of_header};
use crate::headers::Reading;
use crate::line::{
    base, method, path, pathq, query, request_version, response_version, status, url, url_param,
};
use header_ops::{count_values, first_place};
use htx_arena::Arena;
use px_sample::{Buf, Env, Fetch, Place, Sample, Scope, Vars};
use std::marker::Model;

/// A request in an array, and the variables, as `http-request` rules see them.
pub struct ReqEnv<'a> {
    msg: &'a Arena,
    vars: &'a Vars,
}

impl Drop for ReqEnv<'_> {
    fn drop(self) {
        let ReqEnv { msg: _, vars: _ } = self;
    }
}

impl<'a> Model for ReqEnv<'a> {
    ghost use Rattle.http_fetch.specs.Fetches.{RequestAt};

    ghost Value = { RequestAt };

    ghost view = { λ env. record { blocks = env.msg.now.blocks; vars = env.vars.now } };
}

/// A response in an array, the method of its request, and the variables, as `http-response` rules see them.
pub struct ResEnv<'a> {
    msg: &'a Arena,
    method: &'a [u8],
    vars: &'a Vars,
}

impl Drop for ResEnv<'_> {
    fn drop(self) {
        let ResEnv {
            msg: _,
            method: _,
            vars: _,
        } = self;
    }
}

impl<'a> Model for ResEnv<'a> {
    ghost use Rattle.http_fetch.specs.Fetches.{ResponseAt};

    ghost Value = { ResponseAt };

    ghost view = { λ env. record { blocks = env.msg.now.blocks; method = env.method.now; vars = env.vars.now } };
}

/// A variable that is alive while request rules run.
fn request_variable<'a>(vars: &'a Vars, scope: Scope, name: &'a [u8]) -> Found<'a>
    ensures { value_of result ≡ spec.request_variable vars.now scope name.now }
{
    match scope {
        Scope::Sess => Found::Variable(vars, Scope::Sess, name),
        Scope::Txn => Found::Variable(vars, Scope::Txn, name),
        Scope::Req => Found::Variable(vars, Scope::Req, name),
        Scope::Res => Found::Absent,
    }
}

/// A variable that is alive while response rules run.
fn response_variable<'a>(vars: &'a Vars, scope: Scope, name: &'a [u8]) -> Found<'a>
    ensures { value_of result ≡ spec.response_variable vars.now scope name.now }
{
    match scope {
        Scope::Sess => Found::Variable(vars, Scope::Sess, name),
        Scope::Txn => Found::Variable(vars, Scope::Txn, name),
        Scope::Req => Found::Absent,
        Scope::Res => Found::Variable(vars, Scope::Res, name),
    }
}

/// How many values the headers of a name have.
fn header_count<'a>(msg: &Arena, name: &[u8]) -> Found<'a>
    ensures { value_of result ≡ count_sample (values_named name.now msg.now.blocks) }
{
    Found::Number(i64::from(count_values(msg, name)))
}

/// What the samples of a fetch are made of in a request.
fn of_request<'a>(msg: &'a Arena, vars: &'a Vars, fetch: &'a Fetch) -> Given<'a>
    ensures all { given_samples msg.now.blocks result ≡ request_samples (record { blocks = msg.now.blocks; vars = vars.now }) fetch.now }
    ensures field { given_field result ≡ request_field fetch.now }
{
    match fetch {
        Fetch::ReqHdr(name, at) => of_header(Reading::Values, msg, name.as_slice(), *at),
        Fetch::ReqFhdr(name, at) => of_header(Reading::Wholes, msg, name.as_slice(), *at),
        Fetch::ReqHdrCnt(name) => Given::One(header_count(msg, name.as_slice())),
        Fetch::Path => Given::One(path(msg)),
        Fetch::Query => Given::One(query(msg)),
        Fetch::Pathq => Given::One(pathq(msg)),
        Fetch::Url => Given::One(url(msg)),
        Fetch::Base => Given::One(base(msg)),
        Fetch::UrlParam(name) => Given::One(url_param(msg, name.as_slice())),
        Fetch::Method => Given::One(method(msg)),
        Fetch::ReqVer => Given::One(request_version(msg)),
        Fetch::Var(scope, name) => Given::One(request_variable(vars, *scope, name.as_slice())),
        Fetch::Str(text) => Given::One(Found::Bytes(text.as_slice())),
        Fetch::Int(number) => Given::One(Found::Number(*number)),
        Fetch::Bool(truth) => Given::One(Found::Truth(*truth)),
        Fetch::AlwaysTrue => Given::One(Found::Truth(true)),
        Fetch::AlwaysFalse => Given::One(Found::Truth(false)),
        Fetch::ResHdr(_, _) => Given::One(Found::Absent),
        Fetch::ResFhdr(_, _) => Given::One(Found::Absent),
        Fetch::ResHdrCnt(_) => Given::One(Found::Absent),
        Fetch::ResVer => Given::One(Found::Absent),
        Fetch::Status => Given::One(Found::Absent),
    }
}

/// What the samples of a fetch are made of in a response.
fn of_response<'a>(msg: &'a Arena, asked: &'a [u8], vars: &'a Vars, fetch: &'a Fetch) -> Given<'a>
    ensures all { given_samples msg.now.blocks result ≡ response_samples (record { blocks = msg.now.blocks; method = asked.now; vars = vars.now }) fetch.now }
    ensures field { given_field result ≡ response_field fetch.now }
{
    match fetch {
        Fetch::ResHdr(name, at) => of_header(Reading::Values, msg, name.as_slice(), *at),
        Fetch::ResFhdr(name, at) => of_header(Reading::Wholes, msg, name.as_slice(), *at),
        Fetch::ResHdrCnt(name) => Given::One(header_count(msg, name.as_slice())),
        Fetch::ResVer => Given::One(response_version(msg)),
        Fetch::Status => Given::One(status(msg)),
        Fetch::Method => Given::One(Found::Bytes(asked)),
        Fetch::Var(scope, name) => Given::One(response_variable(vars, *scope, name.as_slice())),
        Fetch::Str(text) => Given::One(Found::Bytes(text.as_slice())),
        Fetch::Int(number) => Given::One(Found::Number(*number)),
        Fetch::Bool(truth) => Given::One(Found::Truth(*truth)),
        Fetch::AlwaysTrue => Given::One(Found::Truth(true)),
        Fetch::AlwaysFalse => Given::One(Found::Truth(false)),
        Fetch::ReqHdr(_, _) => Given::One(Found::Absent),
        Fetch::ReqFhdr(_, _) => Given::One(Found::Absent),
        Fetch::ReqHdrCnt(_) => Given::One(Found::Absent),
        Fetch::Path => Given::One(Found::Absent),
        Fetch::Query => Given::One(Found::Absent),
        Fetch::Pathq => Given::One(Found::Absent),
        Fetch::Url => Given::One(Found::Absent),
        Fetch::Base => Given::One(Found::Absent),
        Fetch::UrlParam(_) => Given::One(Found::Absent),
        Fetch::ReqVer => Given::One(Found::Absent),
    }
}

/// Whether a place is behind all samples: no message has so many blocks.
fn is_end(place: Place) -> bool
    ensures { OnTrue result (place.at ≡ 4294967295) }
{
    place.at == u32::MAX
}

/// The sample of a fetch at a place in a request, which moves on.
fn next_in_request<'a>(
    msg: &'a Arena,
    vars: &'a Vars,
    fetch: &'a Fetch,
    place: &mut Place,
) -> Option<Found<'a>>
    ensures given { option_map value_of result ≡ slice_get (request_left (record { blocks = msg.now.blocks; vars = vars.now }) fetch.now place.old) 0 }
    ensures left { request_left (record { blocks = msg.now.blocks; vars = vars.now }) fetch.now place.new ≡ drop 1 (request_left (record { blocks = msg.now.blocks; vars = vars.now }) fetch.now place.old) }
{
    let _len = msg.len();
    if is_end(*place) {
        return None;
    }
    next_given(of_request(msg, vars, fetch), msg, place)
}

/// The sample of a fetch at a place in a response, which moves on.
fn next_in_response<'a>(
    msg: &'a Arena,
    asked: &'a [u8],
    vars: &'a Vars,
    fetch: &'a Fetch,
    place: &mut Place,
) -> Option<Found<'a>>
    ensures given { option_map value_of result ≡ slice_get (response_left (record { blocks = msg.now.blocks; method = asked.now; vars = vars.now }) fetch.now place.old) 0 }
    ensures left { response_left (record { blocks = msg.now.blocks; method = asked.now; vars = vars.now }) fetch.now place.new ≡ drop 1 (response_left (record { blocks = msg.now.blocks; method = asked.now; vars = vars.now }) fetch.now place.old) }
{
    let _len = msg.len();
    if is_end(*place) {
        return None;
    }
    next_given(of_response(msg, asked, vars, fetch), msg, place)
}

impl<'a> ReqEnv<'a> {
    /// The request in `msg`, before these variables.
    pub fn new(msg: &'a Arena, vars: &'a Vars) -> ReqEnv<'a>
        ensures { result ≡ record { blocks = msg.now.blocks; vars = vars.now } }
    {
        ReqEnv { msg, vars }
    }
}

impl Env for ReqEnv<'_> {
    ghost samples = { request_samples };

    ghost left = { request_left };

    #[tactic(auto, using(crate::proofs::Few::few))]
    fn fetch(&self, fetch: &Fetch, nth: u32, into: &mut Buf) -> Option<Sample> {
        let _len = self.msg.len();
        let _load = self.msg.load();
        match nth_given(of_request(self.msg, self.vars, fetch), self.msg, nth) {
            Some(found) => Some(hand(found, into)),
            None => None,
        }
    }

    #[tactic(auto, using(crate::proofs::Starts::starts))]
    fn start(&self, _: &Fetch) -> Place {
        let first = first_place();
        Place {
            at: first.at,
            within: first.within,
        }
    }

    fn next(&self, fetch: &Fetch, place: &mut Place, into: &mut Buf) -> Option<Sample> {
        match next_in_request(self.msg, self.vars, fetch, place) {
            Some(found) => Some(hand(found, into)),
            None => None,
        }
    }

    fn last(&self, fetch: &Fetch, into: &mut Buf) -> Sample {
        hand(
            last_given(of_request(self.msg, self.vars, fetch), self.msg),
            into,
        )
    }
}

impl<'a> ResEnv<'a> {
    /// The response in `msg` to a request of this method, before these variables.
    pub fn new(msg: &'a Arena, method: &'a [u8], vars: &'a Vars) -> ResEnv<'a>
        ensures { result ≡ record { blocks = msg.now.blocks; method = method.now; vars = vars.now } }
    {
        ResEnv { msg, method, vars }
    }
}

impl Env for ResEnv<'_> {
    ghost samples = { response_samples };

    ghost left = { response_left };

    #[tactic(auto, using(crate::proofs::Few::few))]
    fn fetch(&self, fetch: &Fetch, nth: u32, into: &mut Buf) -> Option<Sample> {
        let _len = self.msg.len();
        let _load = self.msg.load();
        match nth_given(
            of_response(self.msg, self.method, self.vars, fetch),
            self.msg,
            nth,
        ) {
            Some(found) => Some(hand(found, into)),
            None => None,
        }
    }

    #[tactic(auto, using(crate::proofs::Starts::starts))]
    fn start(&self, _: &Fetch) -> Place {
        let first = first_place();
        Place {
            at: first.at,
            within: first.within,
        }
    }

    fn next(&self, fetch: &Fetch, place: &mut Place, into: &mut Buf) -> Option<Sample> {
        match next_in_response(self.msg, self.method, self.vars, fetch, place) {
            Some(found) => Some(hand(found, into)),
            None => None,
        }
    }

    fn last(&self, fetch: &Fetch, into: &mut Buf) -> Sample {
        hand(
            last_given(
                of_response(self.msg, self.method, self.vars, fetch),
                self.msg,
            ),
            into,
        )
    }
}

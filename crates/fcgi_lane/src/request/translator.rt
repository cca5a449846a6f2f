//! The translator of a request's bytes to the records that ask the same of an application, over any cut. What it stands for is told by `Stands`: the bytes
//! that it was fed, of which so much was given as records. It takes memory for the head and for what isn't given; a call that finds none leaves it as it was.
ghost use Rattle.std.specs.Prelude.{◌≡◌, ◌≤◌, ◌++◌, ℕ, List, length, take, drop, OnOk, OnErr, IfOk};
ghost use Rattle.std.specs.List.{fold};
ghost use Rattle.fcgi_model.specs.Flow.{InHead, next};
ghost use Rattle.fcgi_lane.specs.Request.Stages.{place_of};
ghost use Rattle.fcgi_lane.specs.Request.Opening.{IsHeadFed};
ghost use Rattle.fcgi_lane.specs.Request.Stands.{Stands, starting, state_in, state_at};

use crate::fronts::drop_front;
use crate::request::body::continue_body;
use crate::request::body_stages::{BodyStage, is_going, is_whole};
use crate::request::opening::{Opened, head_end, open_request};
use crate::request::state::RequestState;
use fcgi_model::Refusal;
use http_model::OutOfMemory;
use px_link::Application;
use std::alloc::Global;
use std::marker::Model;

/// How far a translator has come with a request.
#[derive(Clone, Copy, Debug)]
pub(crate) enum Progress {
    /// The head isn't whole.
    Head,
    /// The body stands there.
    Body(BodyStage),
    /// Nothing is asked.
    Stopped(Refusal),
}

/// A translator of one request.
pub struct Translator {
    alloc: Global,
    application: Application,
    head: Vec<u8>,
    progress: Progress,
    left: Vec<u8>,
}

impl Drop for Translator {
    fn drop(self) {
        let Translator {
            alloc: _,
            application: _,
            head: _,
            progress: _,
            left: _,
        } = self;
    }
}

impl Model for Translator {
    ghost use Rattle.fcgi_lane.specs.Request.Stands.{Translating};
    ghost use Rattle.fcgi_lane.specs.Request.Opening.{reading_at, IsProgress};

    ghost Value = { Translating };

    ghost view = { λ t. record { application = t.application; at = reading_at t.progress t.head.items; left = t.left.items } };

    ghost invariant = { λ t. IsProgress t.progress };
}

/// What a head becomes by more bytes: nothing yet, or what it asks once it is whole.
fn feed_head(
    alloc: Global,
    application: &Application,
    head: &mut Vec<u8>,
    bytes: &[u8],
) -> Result<Option<Opened>, OutOfMemory>
    ensures fed { IfOk result (λ opened. IsHeadFed (fold (next application.now) (InHead head.old.items) bytes.now) head.new.items opened) }
    ensures unfed { OnErr result (head.new.items ≡ head.old.items) }
{
    let before = head.len();
    head.extend_from_slice(bytes)?;
    let text = head.as_slice();
    let Some(end) = head_end(text, before) else {
        return Ok(None);
    };
    match open_request(alloc, application, &text[..end], &text[end..]) {
        Ok(opened) => Ok(Some(opened)),
        Err(fault) => {
            head.truncate(before);
            Err(fault)
        }
    }
}

impl Translator {
    /// A translator that was fed nothing, for this application.
    pub fn new(alloc: Global, application: Application) -> Translator
        ensures { result ≡ starting application }
    {
        Translator {
            alloc,
            application,
            head: Vec::new(alloc),
            progress: Progress::Head,
            left: Vec::new(alloc),
        }
    }

    /// Takes bytes of the request, in whatever pieces they come.
    pub fn feed(&mut self, bytes: &[u8]) -> Result<(), OutOfMemory>
        ensures fed { OnOk result ((given taken : List ℕ) → Stands self.old given taken → Stands self.new given (taken ++ bytes.now)) }
        ensures unfed { OnErr result (self.new ≡ self.old) }
        ensures application { self.new.application ≡ self.old.application }
    {
        match self.progress {
            Progress::Head => match feed_head(
                self.alloc,
                &self.application,
                &mut self.head,
                bytes,
            )? {
                None => Ok(()),
                Some(Opened::Body { stage, left }) => {
                    self.progress = Progress::Body(stage);
                    self.left = left;
                    Ok(())
                }
                Some(Opened::Refused(why)) => {
                    self.progress = Progress::Stopped(why);
                    Ok(())
                }
            },
            Progress::Body(stage) => {
                let (stage, made) = continue_body(self.alloc, stage, bytes)?;
                self.left.extend_from_slice(&made)?;
                self.progress = Progress::Body(stage);
                Ok(())
            }
            Progress::Stopped(_) => Ok(()),
        }
    }

    /// The bytes that may be given to the application at once.
    pub fn ready(&self) -> &[u8]
        ensures { result.now ≡ self.now.left }
    {
        &self.left
    }

    /// So many of them were given.
    pub fn drop_front(&mut self, count: usize)
        requires { count ≤ length self.old.left }
        ensures given { (given taken : List ℕ) → Stands self.old given taken → Stands self.new (given ++ take count self.old.left) taken }
        ensures left { self.new.left ≡ drop count self.old.left }
        ensures at { self.new.at ≡ self.old.at }
        ensures application { self.new.application ≡ self.old.application }
    {
        drop_front(&mut self.left, count);
    }

    /// What may come behind the bytes that are ready.
    pub fn state(&self) -> RequestState
        ensures { result ≡ state_at self.now.at }
    {
        match self.progress {
            Progress::Head => RequestState::Going,
            Progress::Body(stage) => state_of(stage),
            Progress::Stopped(why) => RequestState::Refused(why),
        }
    }
}

/// What may come behind a body that stands there.
fn state_of(stage: BodyStage) -> RequestState
    ensures { result ≡ state_in (place_of stage) }
{
    if is_going(stage) {
        return RequestState::Going;
    }
    if is_whole(stage) {
        RequestState::Whole
    } else {
        RequestState::Broken
    }
}

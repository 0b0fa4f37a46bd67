//! The steps of a pass.
ghost use Rattle.std.specs.Prelude.{◌≡◌, ◌≢◌, IfErr, IfOk, None};
ghost use Rattle.{cache_pass.specs.declared.pass.Phase.TheVariants.Began, std.specs.Bool.MatchBool};
ghost use Rattle.cache_pass.specs.Steps.{HasBegun, HasCome, HasEnded, HasFailed};
ghost use Rattle.cache_pass.specs.Passes.{asked_of, IsNotPassing, IsReceived, IsUnchanged, phase_after, phase_first};

use crate::cache::Cache;
use crate::pass::{Asked, Pass, Phase};
use crate::replying::{First, Reply};
use crate::revalidating::Next;
use bytes::Bytes;
use cache_rules::{Reception, StoredResponse};
use headers::HeaderMap;
use http::StatusCode;
use std::alloc::{AllocError, Global};
use std::mem::replace;

/// A step that its pass isn't at. Nothing is changed.
#[derive(Clone, Copy, Debug, PartialEq, Eq)]
pub enum OutOfOrder {
    /// `begin` of a pass that has begun.
    Begin,
    /// `came` where the origin isn't asked.
    Came,
    /// `failed` where the origin isn't asked.
    Failed,
    /// `ended` where no response is forwarded that is to be stored.
    Ended,
}

// How far a pass is after its first step.
fn phase_first(first: &Result<First, AllocError>, now: u64, clock: u64) -> Phase
    ensures { result ≡ phase_first first.now now clock }
{
    match first {
        Ok(First::Ask) => Phase::Asking(Asked {
            requested: now,
            clock,
            validates: false,
        }),
        Ok(First::Validate(_)) => Phase::Asking(Asked {
            requested: now,
            clock,
            validates: true,
        }),
        _ => Phase::Ended,
    }
}

// How far a pass is after the origin has answered.
fn phase_after(
    next: &Result<Next, AllocError>,
    asked: Asked,
    status: StatusCode,
    response: HeaderMap,
    now: u64,
    clock: u64,
) -> Phase
    ensures { result ≡ phase_after next.now asked status response now clock }
{
    match next {
        Ok(Next::Ask) => Phase::Asking(Asked {
            requested: now,
            clock,
            validates: false,
        }),
        Ok(Next::PassOn(true)) => Phase::Passing(asked, status, response),
        _ => Phase::Ended,
    }
}

impl Pass {
    // Whether nothing was done yet.
    fn is_new(&self) -> bool
        ensures { MatchBool result (self.now.phase ≡ Began) (self.now.phase ≢ Began) }
    {
        match &self.phase {
            Phase::Began => true,
            _ => false,
        }
    }

    /// When the origin was asked and how, if it is asked now.
    pub fn asked(&self) -> Option<Asked>
        ensures { result ≡ asked_of self.now.phase }
    {
        match &self.phase {
            Phase::Asking(asked) => Some(*asked),
            _ => None,
        }
    }

    // The response as it came.
    fn received(
        &self,
        requested: u64,
        status: StatusCode,
        response: HeaderMap,
        content: Bytes,
        now: u64,
    ) -> Result<StoredResponse, AllocError>
        ensures { IfOk result (IsReceived self.now requested status response content now) }
    {
        Ok(StoredResponse {
            method: self.method.clone()?,
            request: self.request.clone()?,
            status,
            response,
            content,
            requested,
            received: now,
            number: 0,
        })
    }

    /// Decides what is done with the request (RFC 9111, section 4). `now` is the present, in seconds since
    /// 1970. If memory runs out for an answer by what is stored, the pass has ended: forward the request as it is.
    pub fn begin(
        &mut self,
        cache: &mut Cache,
        alloc: Global,
        now: u64,
    ) -> Result<Result<First, AllocError>, OutOfOrder>
        ensures ok { IfOk result (HasBegun self.old cache.old now self.new cache.new) }
        ensures err { IfErr result (λ error. (error ≡ OutOfOrder.Begin) × (self.old.phase ≢ Began)
            × IsUnchanged self.old cache.old self.new cache.new) }
    {
        if !self.is_new() {
            return Err(OutOfOrder::Begin);
        }
        let first = cache.first(alloc, self.key.as_str(), &self.head(), now);
        self.phase = phase_first(&first, now, cache.removals.clock());
        Ok(first)
    }

    /// Decides what is done with the status and the fields of the origin's response. If memory runs out for an answer
    /// by what is stored, the pass has ended: pass the response on; if it is a 304 to a request that validates, forward
    /// the request again.
    pub fn came(
        &mut self,
        cache: &mut Cache,
        alloc: Global,
        status: StatusCode,
        response: HeaderMap,
        now: u64,
    ) -> Result<Result<Next, AllocError>, OutOfOrder>
        ensures ok { IfOk result (HasCome self.old cache.old status response now self.new cache.new) }
        ensures err { IfErr result (λ error. (error ≡ OutOfOrder.Came) × (asked_of self.old.phase ≡ None)
            × IsUnchanged self.old cache.old self.new cache.new) }
    {
        let Some(asked) = self.asked() else {
            return Err(OutOfOrder::Came);
        };
        let next = cache.next(
            alloc,
            self.key.as_str(),
            &self.head(),
            asked,
            status,
            &response,
            now,
        );
        self.phase = phase_after(&next, asked, status, response, now, cache.removals.clock());
        Ok(next)
    }

    /// Decides what the client gets if no response of the origin comes: a stored one, if that may be served now
    /// (RFC 5861, section 4). `None`, if none may be, or out of memory: send 502 or 504.
    pub fn failed(
        &mut self,
        cache: &mut Cache,
        alloc: Global,
        now: u64,
    ) -> Result<Result<Option<Reply>, AllocError>, OutOfOrder>
        ensures ok { IfOk result (HasFailed self.old cache.old now self.new cache.new) }
        ensures err { IfErr result (λ error. (error ≡ OutOfOrder.Failed) × (asked_of self.old.phase ≡ None)
            × IsUnchanged self.old cache.old self.new cache.new) }
    {
        let Some(_asked) = self.asked() else {
            return Err(OutOfOrder::Failed);
        };
        let found = cache.on_error(alloc, self.key.as_str(), &self.head(), now);
        self.phase = Phase::Ended;
        Ok(found)
    }

    /// Stores the response that passed on with its content, if all of it came, if it may be stored, and unless
    /// its target was removed since it was asked (RFC 9111, sections 3 and 4.4). The result is its number. `None` if it
    /// isn't stored, also if a newer one is; nor is it if memory runs out.
    pub fn ended(
        &mut self,
        cache: &mut Cache,
        alloc: Global,
        content: Bytes,
        reception: Reception,
        now: u64,
    ) -> Result<Result<Option<u64>, AllocError>, OutOfOrder>
        ensures ok { IfOk result (HasEnded self.old cache.old content reception now self.new cache.new) }
        ensures err { IfErr result (λ error. (error ≡ OutOfOrder.Ended) × IsNotPassing self.old.phase
            × IsUnchanged self.old cache.old self.new cache.new) }
    {
        match replace(&mut self.phase, Phase::Ended) {
            Phase::Passing(asked, status, response) => {
                let Reception::Complete = reception else {
                    return Ok(Ok(None));
                };
                match self.received(asked.requested, status, response, content, now) {
                    Ok(came) => Ok(cache.keep(alloc, self.key.as_str(), came, asked.clock)),
                    Err(AllocError) => Ok(Err(AllocError)),
                }
            }
            other => {
                self.phase = other;
                Err(OutOfOrder::Ended)
            }
        }
    }
}

//! A gateway's connection.
ghost use Rattle.std.specs.Prelude.{◌≡◌, ◌≢◌, ◌↔◌, ◌≤◌, ◌++◌, [], length, option_map, true, IfOk, IsTrue, MatchResult};
ghost use Rattle.std.specs.Prelude.{OnErr, OnOk};
ghost use Rattle.http1.specs.{Conn.{data_refusal, finish_refusal}, Head.pairs, Server.response_refusal};
ghost use Rattle.http1.specs.{declared.conn.Limits.Limits};
ghost use Rattle.gateway_messages.specs.FieldLines.{fields_of};
ghost use Rattle.gateway_connection.specs.Steps as Origin;
ghost use Rattle.server_stream.specs.Steps as Stream;
ghost use Rattle.gateway_exchange.specs.{History.{Exchanged, IsReached, Past}, Tunnels.{Begins, ended_of, input_of}};
ghost use Rattle.gateway_exchange.specs.Steps.{Adds, AsksAgain, Conditions, Connects, ConnectsNow, Dates, EndsGiving};
ghost use Rattle.gateway_exchange.specs.Steps.{RefusesGiving, RefusesInGiving, ShowsHead, TakesOrigin, asks, is_absent};
ghost use Rattle.gateway_exchange.specs.Steps.{is_absent_content, is_answered, idle_phase, is_origin_open, is_over};
ghost use Rattle.gateway_exchange.specs.Steps.{is_passing, waiting_phase, wants_of, Answers, AwaitsRequest, BeginsAt};
ghost use Rattle.gateway_exchange.specs.Steps.{ChangesClient, ChangesOrigin, Considers, ContinuesIf, EndsIdle, Fails};
ghost use Rattle.gateway_exchange.specs.Steps.{Faulted, FinishesClient, Gives, HandsOutOrigin, HearsClient};
ghost use Rattle.gateway_exchange.specs.Steps.{HearsOrigin, IsAsking, IsNew, IsNext, MayRepeat, OfAsked, Passes};
ghost use Rattle.gateway_exchange.specs.Steps.{PassesEnd, PassesHead, PassesInterim, PassesPiece, PassesSwitch};
ghost use Rattle.gateway_exchange.specs.Steps.{PutsContent, PutsHead, PutsRequestEnd, ReceivesClient, ReceivesOrigin};
ghost use Rattle.gateway_exchange.specs.Steps.{RefusesBeginAt, RefusesContent, RefusesEnd, Says, SaysIn, Sends};
ghost use Rattle.gateway_exchange.specs.Steps.{Settles, Steps, SwitchesTo, TellsHead, TimesOut, Transfers, output_of};
ghost use Rattle.gateway_exchange.specs.Steps.{RefusesAdding, phase_of};

use crate::date::OwnDate;
use crate::decision::{AskedRequest, RequestDecision, decide};
use crate::event::{ExchangePhase, GatewayEvent, Wants};
use crate::own::{Own, close_if, put_own};
use crate::pass::{
    Heard, are_addable, begin_request, end_request, end_response, judge, put_interim, put_response,
    put_switch, switched_fields, with_conditions,
};
use crate::rules::{GatewayRules, Peer};
use crate::tunnel::{MOST_WAITING, Tunnel};
use bytes::{Bytes, BytesMut};
use gateway_connection::{OriginConnection, OriginEvent, OriginFault, OriginResponse};
use gateway_messages::{ContentFraming, Expectation, FieldLine, ResponseOutcome};
use headers::{Date, HeaderMap, HeaderValue};
use http::StatusCode;
use http1::{BodySize, Header, Limits, WriteError};
use server_stream::{StreamConnection, StreamEvent, StreamRequest};
use std::alloc::{AllocError, Global};
use std::hash::RandomState;

/// What a connection is at.
#[derive(Clone, Copy, Debug, PartialEq, Eq)]
pub(crate) enum Stage {
    /// The head of a request is awaited. What is left of the one before is dropped.
    Idle,
    /// A request waits for a connection to an origin, or for an answer.
    Asking,
    /// It is passed on. No head of a final response came.
    Forwarding,
    /// The head of the final response waits for the caller.
    Judging,
    /// The response is passed on, and so is what is left of the request.
    Passing,
    /// The caller gives the response.
    Giving,
    /// The response was put to its end.
    Ended,
    /// The response was dropped, and the request is asked again.
    Repeating,
    /// The connection is no longer HTTP.
    Switched,
    /// No request follows.
    Closed,
    /// A message was cut off.
    Aborted,
}

/// A gateway's connection to a client, and at most one to an origin server, without input and output.
#[derive(Drop)]
pub struct GatewayConnection {
    pub(crate) alloc: Global,
    pub(crate) keys: RandomState,
    pub(crate) peer: Peer,
    pub(crate) client: StreamConnection,
    pub(crate) origin: Option<OriginConnection>,
    pub(crate) stage: Stage,
    /// The request that waits or is passed on.
    pub(crate) asked: Option<AskedRequest>,
    /// Its fields with a cache's conditions in place of its own.
    pub(crate) conditional: Option<Vec<FieldLine>>,
    /// The response that waits or is passed on.
    pub(crate) heard: Option<Heard>,
    /// Why the gateway answered itself.
    pub(crate) own: Option<Own>,
    /// The last piece of a watched response.
    pub(crate) piece: Bytes,
    /// Whether bytes came since the last head or end of a request.
    pub(crate) begun: bool,
    /// Whether the request was read to its end.
    pub(crate) whole: bool,
    /// Whether content or trailer fields of the request were passed on.
    pub(crate) touched: bool,
    /// Whether the request was sent before.
    pub(crate) repeats: bool,
    /// Whether the caller watches the response.
    pub(crate) watches: bool,
    /// When the caller last said the time.
    pub(crate) date: Option<OwnDate>,
    /// Whether the connection ends after the next response.
    pub(crate) is_last: bool,
    /// Whether all that was received of the client was used.
    pub(crate) client_hungry: bool,
    /// Whether all that was received of the origin was used.
    pub(crate) origin_hungry: bool,
}

// What comes next on the origin's connection, if there is one.
fn next_of(origin: &mut Option<OriginConnection>) -> OriginEvent
    ensures { SaysIn origin.old result origin.new }
{
    match origin {
        Some(origin) => origin.next(),
        None => OriginEvent::Closed,
    }
}

impl GatewayConnection {
    /// A new connection of this client. It allocates nothing. Both sides choose the names of fields, so
    /// their maps take secret keys.
    pub fn new(alloc: Global, keys: RandomState, limits: Limits, peer: Peer) -> GatewayConnection
        ensures { IsNew limits peer result }
    {
        GatewayConnection {
            alloc,
            keys,
            peer,
            client: StreamConnection::new(alloc, keys, limits),
            origin: None,
            stage: Stage::Idle,
            asked: None,
            conditional: None,
            heard: None,
            own: None,
            piece: Bytes::new(),
            begun: false,
            whole: true,
            touched: false,
            repeats: false,
            watches: false,
            date: None,
            is_last: false,
            client_hungry: false,
            origin_hungry: false,
        }
    }

    // ---- bytes

    /// Receives bytes of the client; none after its input has ended. Fails if an allocation fails. Then
    /// nothing changes.
    pub fn client_receive(&mut self, bytes: &[u8]) -> Result<(), AllocError>
        ensures ok { OnOk result (ReceivesClient self.old bytes.now self.new) }
        ensures err { OnErr result (ReceivesClient self.old [] self.new) }
    {
        if self.client.is_ended() {
            return Ok(());
        }
        self.client.receive(bytes)?;
        self.client_hungry = false;
        self.begun = true;
        Ok(())
    }

    /// Says that the client's input ends here.
    pub fn client_finish(&mut self)
        ensures { FinishesClient self.old self.new }
    {
        self.client.finish_input();
        self.client_hungry = false;
    }

    /// What waits to be written to the client.
    ///
    /// This is the theorem of the crate, whatever the history of calls.
    pub fn client_output(&self) -> &[u8]
        ensures value { result.now ≡ self.now.client.output.items }
        ensures theorem { (limits : Limits) (past : Past) → IsReached limits self.now past
            → Exchanged limits self.now past }
    {
        self.client.output()
    }

    /// Says that the first bytes of the client's output were written, and how many.
    pub fn client_sent(&mut self, count: usize)
        requires { count ≤ length self.old.client.output.items }
        ensures { ChangesClient (λ old new. Stream.HandsOut old count new) self.old self.new }
    {
        self.client.sent(count);
    }

    /// Receives bytes of the origin; none if there is no connection to one or its input has ended. Fails
    /// if an allocation fails. Then nothing changes.
    pub fn origin_receive(&mut self, bytes: &[u8]) -> Result<(), AllocError>
        ensures ok { OnOk result (ChangesOrigin (ReceivesOrigin bytes.now) self.old self.new) }
        ensures err { OnErr result (ChangesOrigin (ReceivesOrigin []) self.old self.new) }
    {
        let Some(origin) = &mut self.origin else {
            return Ok(());
        };
        if origin.is_ended() {
            return Ok(());
        }
        origin.receive(bytes)?;
        self.origin_hungry = false;
        Ok(())
    }

    /// Says that the origin's input ends here.
    pub fn origin_finish(&mut self)
        ensures { ChangesOrigin Origin.Finishes self.old self.new }
    {
        if let Some(origin) = &mut self.origin {
            origin.finish_input();
            self.origin_hungry = false;
        }
    }

    /// What waits to be written to the origin.
    pub fn origin_output(&self) -> &[u8]
        ensures { result.now ≡ output_of self.now.origin }
    {
        match &self.origin {
            Some(origin) => origin.output(),
            None => &[],
        }
    }

    /// Says that the first bytes of the origin's output were written, and how many: at most all.
    pub fn origin_sent(&mut self, count: usize)
        ensures { ChangesOrigin (HandsOutOrigin count) self.old self.new }
    {
        if let Some(origin) = &mut self.origin {
            let count = count.min(origin.output().len());
            origin.sent(count);
        }
    }

    // ---- what the host does

    /// What to wait for. A side isn't read while 64 KiB or more wait for the other.
    pub fn wants(&self) -> Wants
        ensures { result ≡ wants_of self.now }
    {
        let is_over = self.is_over();
        Wants {
            client_input: self.client_hungry && !self.client.is_ended() && !is_over,
            client_output: !self.client.output().is_empty(),
            origin_input: self.origin_hungry && self.is_origin_open() && !is_over,
            origin_output: !self.origin_output().is_empty(),
        }
    }

    // Whether nothing more is said.
    fn is_over(&self) -> bool
        ensures { result ≡ is_over self.now.stage }
    {
        match self.stage {
            Stage::Switched | Stage::Closed | Stage::Aborted => true,
            _ => false,
        }
    }

    fn is_origin_open(&self) -> bool
        ensures { result ≡ is_origin_open self.now.origin }
    {
        match &self.origin {
            Some(origin) => !origin.is_ended(),
            None => false,
        }
    }

    /// What the connection is doing.
    pub fn phase(&self) -> ExchangePhase
        ensures { result ≡ phase_of self.now }
    {
        match self.stage {
            Stage::Idle => idle_phase(self.whole, self.begun),
            Stage::Asking | Stage::Repeating => ExchangePhase::Asking,
            Stage::Forwarding | Stage::Judging => waiting_phase(self.whole),
            Stage::Passing | Stage::Ended => ExchangePhase::Passing,
            Stage::Giving => ExchangePhase::Giving,
            Stage::Switched | Stage::Closed | Stage::Aborted => ExchangePhase::Over,
        }
    }

    /// Says that the time limit of the phase is over.
    pub fn timed_out(&mut self)
        ensures { TimesOut self.old self.new }
    {
        match self.phase() {
            ExchangePhase::Idle | ExchangePhase::Head => self.end_idle(),
            ExchangePhase::Draining => self.stage = Stage::Closed,
            ExchangePhase::Content => self.answer_own(Own::LateRequest),
            ExchangePhase::Asking | ExchangePhase::Response => self.answer_own(Own::LateResponse),
            ExchangePhase::Passing | ExchangePhase::Giving => self.stage = Stage::Aborted,
            ExchangePhase::Over => {}
        }
    }

    // A first part of a head that came too late is answered.
    fn end_idle(&mut self)
        ensures { EndsIdle self.old self.new }
    {
        self.client.finish_input();
        match self.client.next() {
            StreamEvent::Rejected(_) => self.answer_own(Own::LateRequest),
            _ => self.stage = Stage::Closed,
        }
    }

    /// Says what comes next.
    pub fn next(&mut self, rules: &GatewayRules, now: Date) -> GatewayEvent
        ensures { Says rules.now now self.old result self.new }
    {
        for _turn in 0..u64::MAX {
            if let Some(event) = self.step(rules, now) {
                return event;
            }
        }
        GatewayEvent::Waits
    }

    // Goes on by one step. `None` if more may follow at once.
    fn step(&mut self, rules: &GatewayRules, now: Date) -> Option<GatewayEvent>
        ensures { Steps rules.now now self.old result self.new }
    {
        match self.stage {
            Stage::Idle => self.await_request(rules),
            Stage::Asking => Some(self.asking()),
            Stage::Forwarding | Stage::Passing => self.transfer(rules, now),
            Stage::Judging => Some(GatewayEvent::Response),
            Stage::Giving => Some(GatewayEvent::Waits),
            Stage::Ended => {
                self.stage = self.next_stage();
                Some(GatewayEvent::Exchanged)
            }
            Stage::Repeating => {
                self.stage = Stage::Asking;
                Some(GatewayEvent::Exchanged)
            }
            Stage::Switched => Some(GatewayEvent::Tunnel),
            Stage::Closed => Some(GatewayEvent::Closed),
            Stage::Aborted => Some(GatewayEvent::Aborted),
        }
    }

    fn asking(&self) -> GatewayEvent
        ensures { result ≡ asks self.now.repeats }
    {
        if self.repeats {
            GatewayEvent::Again
        } else {
            GatewayEvent::Request
        }
    }

    // Where it goes on after a response.
    fn next_stage(&self) -> Stage
        ensures { IsNext self.now result }
    {
        if self.client.goes_on() {
            Stage::Idle
        } else {
            Stage::Closed
        }
    }

    // ---- requests

    // Reads the head of a request. What is left of the request before is dropped.
    fn await_request(&mut self, rules: &GatewayRules) -> Option<GatewayEvent>
        ensures { AwaitsRequest rules.now self.old result self.new }
    {
        match self.client.next() {
            StreamEvent::NeedsInput => {
                self.client_hungry = true;
                Some(GatewayEvent::Waits)
            }
            StreamEvent::Head(head) => {
                self.consider(rules, head);
                None
            }
            StreamEvent::Content(_) => None,
            StreamEvent::End(_) => {
                self.whole = true;
                self.begun = false;
                None
            }
            StreamEvent::Rejected(rejection) => {
                self.answer_own(Own::Unread(rejection));
                None
            }
            StreamEvent::Waits | StreamEvent::Switched | StreamEvent::Closed => {
                self.stage = Stage::Closed;
                None
            }
        }
    }

    // Decides what is done with a request.
    fn consider(&mut self, rules: &GatewayRules, head: StreamRequest)
        ensures { Considers rules.now self.old head self.new }
    {
        self.begun = false;
        self.whole = false;
        self.touched = false;
        self.repeats = false;
        self.watches = false;
        self.conditional = None;
        self.heard = None;
        self.own = None;
        match decide(self.alloc, self.keys, rules, &self.peer, &head) {
            Ok(RequestDecision::Send(outgoing)) => {
                self.asked = Some(AskedRequest { head, outgoing });
                self.stage = Stage::Asking;
            }
            Ok(RequestDecision::Answer(own)) => self.answer_own(own),
            Err(_) => self.answer_own(Own::OutOfMemory),
        }
    }

    /// The request that waits or is passed on.
    pub fn request(&self) -> Option<&AskedRequest>
        ensures { option_map (λ asked. asked.now) result ≡ self.now.asked }
    {
        match &self.asked {
            Some(asked) => Some(asked),
            None => None,
        }
    }

    /// Puts these conditions, with which a cache validates what it has stored, in place of those of the
    /// request that waits, If-None-Match and If-Modified-Since (RFC 9111, section 4.3.1). Fails if an
    /// allocation fails. Then nothing changes.
    pub fn set_conditions(
        &mut self,
        etags: Option<HeaderValue>,
        since: Option<HeaderValue>,
    ) -> Result<(), AllocError>
        ensures ok { OnOk result (Conditions etags since self.old self.new) }
        ensures err { OnErr result (self.new ≡ self.old) }
    {
        let Some(asked) = &self.asked else {
            return Ok(());
        };
        let fields = with_conditions(self.alloc, &asked.outgoing.fields, etags, since)?;
        self.conditional = Some(fields);
        Ok(())
    }

    /// Drops the response that waits, and asks again without conditions: `Exchanged` and then `Again` are
    /// told. A request of which content was passed on is answered by 502.
    pub fn again(&mut self)
        ensures { AsksAgain self.old self.new }
    {
        if self.stage != Stage::Judging {
            return;
        }
        self.settle();
        if self.touched {
            self.answer_own(Own::Chosen(StatusCode::BAD_GATEWAY));
        } else {
            self.heard = None;
            self.conditional = None;
            self.repeats = true;
            self.stage = Stage::Repeating;
        }
    }

    /// Sends the request that waits over this connection, which has to be fit: otherwise it is answered by
    /// 502. `watches` says whether `Response` and `Piece` are told of the response.
    pub fn forward(&mut self, origin: OriginConnection, watches: bool)
        ensures other { self.old.stage ≢ Stage.Asking → self.new ≡ self.old }
        ensures asked { self.old.stage ≡ Stage.Asking → Sends self.old origin watches self.new }
    {
        if self.stage != Stage::Asking {
            return;
        }
        let mut origin = origin;
        let begun = self.begin(&mut origin);
        self.origin = Some(origin);
        self.origin_hungry = false;
        self.watches = watches;
        match begun {
            Ok(continues) => {
                self.stage = Stage::Forwarding;
                self.continue_if(continues);
            }
            Err(error) => self.answer_own(Own::Unsent(error)),
        }
    }

    // Puts the request to the origin, as far as it was read. Says whether the gateway sends the 100 (Continue).
    fn begin(&self, origin: &mut OriginConnection) -> Result<bool, WriteError>
        ensures { MatchResult result (BeginsAt self.now.asked self.now origin.old origin.new)
            (λ error. RefusesBeginAt self.now.asked self.now origin.old error origin.new) }
    {
        let Some(asked) = &self.asked else {
            return Err(WriteError::State);
        };
        let fields = match &self.conditional {
            Some(fields) => fields.as_slice(),
            None => asked.outgoing.fields.as_slice(),
        };
        begin_request(self.alloc, asked, fields, self.whole, origin)?;
        Ok(is_answered(asked.outgoing.expectation) && !self.repeats)
    }

    // Sends the 100 (Continue), if the gateway sends it.
    fn continue_if(&mut self, continues: bool)
        ensures { ContinuesIf continues self.old self.new }
    {
        if !continues {
            return;
        }
        if let Err(error) = self.client.interim(StatusCode::CONTINUE, b"Continue", &[]) {
            self.answer_own(Own::Unsendable(error));
        }
    }

    /// Answers the request that waits, or in the place of the origin's response that does, without content.
    pub fn answer(&mut self, status: StatusCode)
        ensures other { ¬ (IsAsking self.old) → self.new ≡ self.old }
        ensures asked { IsAsking self.old → (between : GatewayConnection) × Settles self.old between
            × Answers between (Own.Chosen status) self.new }
    {
        if self.is_asking() {
            self.settle();
            self.answer_own(Own::Chosen(status));
        }
    }

    fn is_asking(&self) -> bool
        ensures { IsTrue result ↔ IsAsking self.now }
    {
        self.stage == Stage::Asking || self.stage == Stage::Judging
    }

    // Reads the end of a response that has no content, and that isn't passed on.
    fn settle(&mut self)
        ensures { Settles self.old self.new }
    {
        if self.is_absent() {
            let _event = next_of(&mut self.origin);
        }
    }

    // Whether the response that waits has no content.
    fn is_absent(&self) -> bool
        ensures { result ≡ is_absent self.now.heard }
    {
        match &self.heard {
            Some(heard) => is_absent_content(heard.sent.content),
            None => false,
        }
    }

    // Answers in the place of an origin, without content.
    fn answer_own(&mut self, own: Own)
        ensures { Answers self.old own self.new }
    {
        match put_own(&own, self.is_last, &self.date, &mut self.client) {
            Ok(()) => self.stage = Stage::Ended,
            Err(_) => self.stage = Stage::Aborted,
        }
        self.own = Some(own);
    }

    /// Why the last answer was the gateway's own, if it was.
    pub fn own(&self) -> Option<Own>
        ensures { result ≡ self.now.own }
    {
        self.own
    }

    /// Answers a CONNECT that waits by 200: the caller has connected to the authority.
    pub fn connected(&mut self)
        ensures { Connects self.old self.new }
    {
        if self.stage == Stage::Asking {
            self.connect();
        }
    }

    // The request ends with its head.
    fn connect(&mut self)
        ensures { ConnectsNow self.old self.new }
    {
        let _end = self.client.next();
        match self.client.switch(StatusCode::OK, b"OK", &[]) {
            Ok(()) => self.stage = Stage::Switched,
            Err(error) => self.answer_own(Own::Unsendable(error)),
        }
    }

    /// Begins a response that the caller gives to the request that waits, or in the place of the origin's.
    ///
    /// Fails with `State` if none waits, with the reason of `http1` if the response can't be sent, and if an
    /// allocation fails. Then nothing changes.
    pub fn respond(
        &mut self,
        status: StatusCode,
        reason: &[u8],
        fields: &[Header<'_>],
        size: BodySize,
    ) -> Result<(), WriteError>
        ensures { MatchResult result
            (λ _. Gives self.old status reason.now (pairs fields.now) size self.new)
            (λ error. RefusesGiving self.old status reason.now (pairs fields.now) size error self.new) }
    {
        if !self.is_asking() {
            return Err(WriteError::State);
        }
        let mut list = Vec::new(self.alloc);
        list.extend_from_slice(fields)?;
        close_if(self.is_last, &mut list)?;
        self.client.respond(status, reason, &list, size)?;
        self.settle();
        self.stage = Stage::Giving;
        Ok(())
    }

    /// Says the time, which the gateway's own answers have as Date from now on (RFC 9110, section 6.6.1). Fails if
    /// an allocation fails. Then nothing changes.
    pub fn set_clock(&mut self, now: Date) -> Result<(), AllocError>
        ensures ok { OnOk result (Dates self.old now self.new) }
        ensures err { OnErr result (self.new ≡ self.old) }
    {
        self.date = Some(OwnDate::new(self.alloc, now)?);
        Ok(())
    }

    /// Says that the connection ends after the next response, which says so.
    pub fn close_after(&mut self)
        ensures { self.new ≡ record self.old { is_last = true } }
    {
        self.is_last = true;
    }

    /// Puts a piece of the content of the response that the caller gives. Fails as `StreamConnection::push`.
    pub fn push(&mut self, piece: &[u8]) -> Result<(), WriteError>
        ensures { MatchResult result
            (λ _. (self.old.stage ≡ Stage.Giving)
            × ChangesClient (λ old new. Stream.Puts old piece.now new) self.old self.new)
            (λ error. RefusesInGiving (data_refusal self.old.client.server.writing (length piece.now)) self.old error
            self.new) }
    {
        if self.stage != Stage::Giving {
            return Err(WriteError::State);
        }
        self.client.push(piece)
    }

    /// Puts the end of the response that the caller gives. Fails as `StreamConnection::end`.
    pub fn end(&mut self, trailers: &[Header<'_>]) -> Result<(), WriteError>
        ensures { MatchResult result (λ _. EndsGiving self.old (pairs trailers.now) self.new)
            (λ error. RefusesInGiving (finish_refusal self.old.client.server.writing (pairs trailers.now)) self.old
            error self.new) }
    {
        if self.stage != Stage::Giving {
            return Err(WriteError::State);
        }
        self.client.end(trailers)?;
        self.stage = Stage::Ended;
        Ok(())
    }

    // ---- both directions

    // Forwards what came of the origin, or else of the client.
    fn transfer(&mut self, rules: &GatewayRules, now: Date) -> Option<GatewayEvent>
        ensures { Transfers rules.now now self.old result self.new }
    {
        if !self.origin_hungry && self.client.output().len() < MOST_WAITING {
            return self.hear_origin(rules, now);
        }
        if !self.whole && !self.client_hungry && self.origin_output().len() < MOST_WAITING {
            self.hear_client(rules);
            return None;
        }
        Some(GatewayEvent::Waits)
    }

    // Forwards what comes next of the client's request.
    fn hear_client(&mut self, rules: &GatewayRules)
        ensures { HearsClient rules.now self.old self.new }
    {
        match self.client.next() {
            StreamEvent::NeedsInput => self.client_hungry = true,
            StreamEvent::Content(piece) => {
                if let Err(error) = self.pass_content(piece.as_slice()) {
                    self.fail(Own::Unsent(error));
                }
            }
            StreamEvent::End(trailers) => {
                if let Err(error) = self.pass_request_end(rules, &trailers) {
                    self.fail(Own::Unsent(error));
                }
            }
            StreamEvent::Rejected(rejection) => self.fail(Own::Unread(rejection)),
            _ => self.stage = Stage::Aborted,
        }
    }

    fn pass_content(&mut self, piece: &[u8]) -> Result<(), WriteError>
        ensures { MatchResult result (λ _. PutsContent self.old piece.now self.new)
            (λ error. RefusesContent self.old piece.now error self.new) }
    {
        let Some(origin) = &mut self.origin else {
            return Err(WriteError::State);
        };
        origin.push(piece)?;
        self.touched = true;
        Ok(())
    }

    fn pass_request_end(
        &mut self,
        rules: &GatewayRules,
        trailers: &HeaderMap,
    ) -> Result<(), WriteError>
        ensures { MatchResult result (λ _. PutsRequestEnd rules.now self.old trailers.now self.new)
            (λ error. RefusesEnd rules.now self.old trailers.now error self.new) }
    {
        let Some(asked) = &self.asked else {
            return Err(WriteError::State);
        };
        let Some(origin) = &mut self.origin else {
            return Err(WriteError::State);
        };
        end_request(self.alloc, &rules.gateway, asked, trailers, origin)?;
        self.whole = true;
        self.begun = false;
        self.touched = self.touched || !trailers.is_empty();
        Ok(())
    }

    // Answers in the place of the origin, unless the head of its response was put.
    fn fail(&mut self, own: Own)
        ensures { Fails self.old own self.new }
    {
        if self.stage == Stage::Passing {
            self.stage = Stage::Aborted;
        } else {
            self.answer_own(own);
        }
    }

    // Forwards what comes next of the origin's response.
    fn hear_origin(&mut self, rules: &GatewayRules, now: Date) -> Option<GatewayEvent>
        ensures { HearsOrigin rules.now now self.old result self.new }
    {
        match next_of(&mut self.origin) {
            OriginEvent::NeedsInput => self.origin_hungry = true,
            OriginEvent::Interim(response) => self.hear_interim(rules, now, &response),
            OriginEvent::Head(response) => self.hear_head(rules, now, response),
            OriginEvent::Content(piece) => return self.pass_piece(piece),
            OriginEvent::End(trailers) => self.pass_end(rules, &trailers),
            OriginEvent::Switched(response) => self.hear_switch(rules, now, &response),
            OriginEvent::Closed => self.fail(Own::Origin(OriginFault::CutShort)),
            OriginEvent::Broken(fault) => self.hear_fault(fault),
        }
        None
    }

    fn hear_interim(&mut self, rules: &GatewayRules, now: Date, response: &OriginResponse)
        ensures { OfAsked self.old
            (λ asked. PassesInterim rules.now now self.old asked response.now self.new) self.new }
    {
        let Some(asked) = &self.asked else {
            return self.stage = Stage::Aborted;
        };
        match judge(
            self.alloc,
            &rules.gateway,
            asked,
            response.status,
            response,
            now,
        ) {
            Ok(ResponseOutcome::Forward(sent)) => {
                if let Err(error) = put_interim(self.alloc, response, &sent, &mut self.client) {
                    self.fail(Own::Unsendable(error));
                }
            }
            Ok(ResponseOutcome::Discard) => {}
            Ok(ResponseOutcome::Reject(rejection)) => self.fail(Own::Response(rejection)),
            Err(_) => self.fail(Own::OutOfMemory),
        }
    }

    fn hear_head(&mut self, rules: &GatewayRules, now: Date, response: OriginResponse)
        ensures { OfAsked self.old (λ asked. PassesHead rules.now now self.old asked response self.new) self.new }
    {
        let Some(asked) = &self.asked else {
            return self.stage = Stage::Aborted;
        };
        match judge(
            self.alloc,
            &rules.gateway,
            asked,
            response.status,
            &response,
            now,
        ) {
            Ok(ResponseOutcome::Forward(sent)) => {
                let added = Vec::new(self.alloc);
                self.tell_head(Heard {
                    response,
                    sent,
                    added,
                })
            }
            Ok(ResponseOutcome::Discard) => {}
            Ok(ResponseOutcome::Reject(rejection)) => self.fail(Own::Response(rejection)),
            Err(_) => self.fail(Own::OutOfMemory),
        }
    }

    // Puts the head of the final response, unless the caller watches.
    fn tell_head(&mut self, heard: Heard)
        ensures { TellsHead self.old.watches self.old heard self.new }
    {
        if self.watches {
            self.stage = Stage::Judging;
            self.heard = Some(heard);
        } else {
            self.show_head(heard);
        }
    }

    // Puts the head of the final response, and remembers it.
    fn show_head(&mut self, heard: Heard)
        ensures { ShowsHead self.old heard self.new }
    {
        self.put_head(&heard);
        self.heard = Some(heard);
    }

    // Puts the head of the final response to the client, or answers.
    fn put_head(&mut self, heard: &Heard)
        ensures { PutsHead self.old heard.now self.new }
    {
        match put_response(self.alloc, heard, self.is_last, &mut self.client) {
            Ok(()) => self.stage = Stage::Passing,
            Err(error) => self.answer_own(Own::Unsendable(error)),
        }
    }

    /// The response of the origin that waits, or is passed on.
    pub fn response(&self) -> Option<&OriginResponse>
        ensures { option_map (λ response. response.now) result
            ≡ option_map (λ heard. heard.response) self.now.heard }
    {
        match &self.heard {
            Some(heard) => Some(&heard.response),
            None => None,
        }
    }

    /// Adds these field lines to the origin's response that waits, after those that are forwarded, and in place of any
    /// that were added before.
    ///
    /// Fails with `State` if none waits, and with `InvalidHeader` if one of them is a field that frames the message, is
    /// for one connection, or is of a name that the gateway writes itself. Then nothing changes.
    pub fn add_fields(&mut self, fields: Vec<FieldLine>) -> Result<(), WriteError>
        ensures { MatchResult result (λ _. (heard : Heard) × Adds heard (fields_of fields.items) self.old self.new)
            (λ error. RefusesAdding (fields_of fields.items) self.old error self.new) }
    {
        let waits = self.stage == Stage::Judging;
        if !waits {
            return Err(WriteError::State);
        }
        if !are_addable(&fields) {
            return Err(WriteError::InvalidHeader);
        }
        let Some(heard) = &mut self.heard else {
            return Err(WriteError::State);
        };
        heard.added = fields;
        Ok(())
    }

    /// Forwards the origin's response that waits.
    pub fn pass(&mut self)
        ensures { Passes self.old self.new }
    {
        if self.stage != Stage::Judging {
            return;
        }
        if let Some(heard) = self.heard.take() {
            self.show_head(heard);
        }
    }

    fn pass_piece(&mut self, piece: Bytes) -> Option<GatewayEvent>
        ensures { PassesPiece self.old piece result self.new }
    {
        if self.client.push(piece.as_slice()).is_err() {
            self.stage = Stage::Aborted;
            return None;
        }
        if !self.watches {
            return None;
        }
        self.piece = piece;
        Some(GatewayEvent::Piece)
    }

    /// The piece of the response that was passed on last, after `Piece`.
    pub fn piece(&self) -> &[u8]
        ensures { result.now ≡ self.now.piece }
    {
        self.piece.as_slice()
    }

    fn pass_end(&mut self, rules: &GatewayRules, trailers: &HeaderMap)
        ensures { PassesEnd rules.now self.old trailers.now self.new }
    {
        let Some(heard) = &self.heard else {
            return self.stage = Stage::Aborted;
        };
        match end_response(
            self.alloc,
            &rules.gateway,
            heard,
            trailers,
            &mut self.client,
        ) {
            Ok(()) => self.stage = Stage::Ended,
            Err(_) => self.stage = Stage::Aborted,
        }
    }

    // A request of which nothing but the head was passed on may be repeated.
    fn hear_fault(&mut self, fault: OriginFault)
        ensures { Faulted self.old fault self.new }
    {
        if self.may_repeat() {
            self.repeats = true;
            self.stage = Stage::Asking;
        } else {
            self.fail(Own::Origin(fault));
        }
    }

    fn may_repeat(&self) -> bool
        ensures { IsTrue result ↔ MayRepeat self.now }
    {
        if self.touched || self.stage != Stage::Forwarding {
            return false;
        }
        match &self.origin {
            Some(origin) => origin.may_repeat(),
            None => false,
        }
    }

    // ---- other protocols

    // A 101 to an opening handshake, or a 2xx to CONNECT.
    fn hear_switch(&mut self, rules: &GatewayRules, now: Date, response: &OriginResponse)
        ensures { OfAsked self.old
            (λ asked. PassesSwitch rules.now now self.old asked response.now self.new) self.new }
    {
        let Some(asked) = &self.asked else {
            return self.stage = Stage::Aborted;
        };
        match switched_fields(self.alloc, &rules.gateway, asked, response, now) {
            Ok(fields) => self.switch(response, &fields),
            Err(own) => self.fail(own),
        }
    }

    // Puts the response that ends HTTP to the client, or answers.
    fn switch(&mut self, response: &OriginResponse, fields: &[FieldLine])
        ensures { SwitchesTo self.old response.now (fields_of fields.now) self.new }
    {
        match put_switch(self.alloc, response, fields, &mut self.client) {
            Ok(()) => self.stage = Stage::Switched,
            Err(error) => self.fail(Own::Unsendable(error)),
        }
    }

    fn is_passing(&self) -> bool
        ensures { result ≡ is_passing self.now.stage }
    {
        match self.stage {
            Stage::Forwarding | Stage::Judging | Stage::Passing | Stage::Switched => true,
            _ => false,
        }
    }

    /// Takes the origin's connection, after `Exchanged`. `None` if no further request may go over it.
    pub fn take_origin(&mut self) -> Option<OriginConnection>
        ensures { TakesOrigin self.old result self.new }
    {
        if self.is_passing() {
            return None;
        }
        self.origin_hungry = false;
        match self.origin.take() {
            Some(origin) if origin.is_fit() => Some(origin),
            _ => None,
        }
    }

    /// Goes on with the bytes of the other protocol, after `Tunnel`. Fails if an allocation fails.
    pub fn into_tunnel(self) -> Result<Tunnel, AllocError>
        ensures { IfOk result (Begins self) }
    {
        let GatewayConnection {
            alloc,
            client,
            origin,
            ..
        } = self;
        let client_ended = client.is_ended();
        let mut to_client = BytesMut::copy_from_slice(alloc, client.output())?;
        let mut to_origin = BytesMut::new(alloc);
        let origin_ended = hand_over(origin, &mut to_client, &mut to_origin)?;
        to_origin.extend_from_slice(client.into_input().as_slice())?;
        Ok(Tunnel {
            to_client,
            to_origin,
            client_ended,
            origin_ended,
        })
    }
}

// Appends what waits for the origin, and what was received of it and isn't used. Says whether its input has ended.
fn hand_over(
    origin: Option<OriginConnection>,
    to_client: &mut BytesMut,
    to_origin: &mut BytesMut,
) -> Result<bool, AllocError>
    ensures ended { IfOk result (λ ended. ended ≡ ended_of origin) }
    ensures to_client { OnOk result (to_client.new.items ≡ to_client.old.items ++ input_of origin) }
    ensures to_origin { OnOk result (to_origin.new.items ≡ to_origin.old.items ++ output_of origin) }
{
    let Some(origin) = origin else {
        return Ok(false);
    };
    let ended = origin.is_ended();
    to_origin.extend_from_slice(origin.output())?;
    to_client.extend_from_slice(origin.into_input().as_slice())?;
    Ok(ended)
}

fn is_absent_content(content: ContentFraming) -> bool
    ensures { result ≡ is_absent_content content }
{
    match content {
        ContentFraming::Absent => true,
        _ => false,
    }
}

// What is done before a request.
fn idle_phase(whole: bool, begun: bool) -> ExchangePhase
    ensures { result ≡ idle_phase whole begun }
{
    match (whole, begun) {
        (false, _) => ExchangePhase::Draining,
        (true, true) => ExchangePhase::Head,
        (true, false) => ExchangePhase::Idle,
    }
}

// What is done before a response.
fn waiting_phase(whole: bool) -> ExchangePhase
    ensures { result ≡ waiting_phase whole }
{
    if whole {
        ExchangePhase::Response
    } else {
        ExchangePhase::Content
    }
}

// Whether the gateway sends the 100 (Continue).
fn is_answered(expectation: Expectation) -> bool
    ensures { result ≡ is_answered expectation }
{
    match expectation {
        Expectation::Answered => true,
        _ => false,
    }
}

//! The steps of a connection, without input and output.
ghost use Rattle.std.specs.Prelude.{◌≡◌, ◌≢◌, ℕ, false, true, ◌<◌, ◌≤◌, ◌⊎◌, ◌↔◌, [], ◌∷◌, ◌++◌, List, length};
ghost use Rattle.std.specs.Prelude.{take, IfNone, IfOk, IfSome, OnErr, OnOk, IsTrue, IsFalse, ◌+◌};
ghost use Rattle.std.specs.Io.KnownBytes.{Appends, Consumes, IsAtEnd, Keeps as StaysKnown};
ghost use Rattle.httparse.specs.Spans.{IsRequestWithin};
ghost use Rattle.http1.specs.Framing.{method_kind};
ghost use Rattle.http1.specs.Server as http1;
ghost use Rattle.http.specs.Request.{with_body};
ghost use Rattle.http_server.specs.declared.state.State.TheVariants.{Closing};
ghost use Rattle.http_server.specs.declared.state.Reason.TheVariants.{Refused};
ghost use Rattle.http_server.{specs.declared.state.Refusal.TheVariants.BodyTooLarge, specs.History.Rests};
ghost use Rattle.http_server.specs.Machine.{Holds, IsStarved, HasHead, HasPiece, MayRefuse, MayAbort};
ghost use Rattle.server_connection.specs.Machine.{core, history_of, Past, Keeps, KeepsRest, Puts, SendsOn, CutsOff};
ghost use Rattle.server_connection.specs.Machine.{Finishes, HandsOut, Leads, Moves, Offers, Runs, Starts, Stays};
ghost use Rattle.server_connection.specs.Machine.{TakesIn, GoesOn, Opens, Refuses, IsNextRange, Asks, Drops, GivesUp};
ghost use Rattle.server_connection.specs.Machine.{HandsOutRange, HasAborted, HasNoRange, HasStopped, OffersCount, work};
ghost use Rattle.server_connection.specs.Pieces.{CanShorten, Shortens};

use crate::application::Application;
use crate::encode::encode;
use crate::host::are_hosts;
use crate::piece::{OpenRange, Piece};
use crate::plan::ResponsePlan;
use crate::refusal::refusal_text;
use bytes::{Bytes, BytesMut};
use http::request::Parts;
use http::{HeaderMap, Method, Request, Uri, Version};
use http_server::{Config, MAX_HEADERS, Reason, Refusal, State};
use http1::framing::MethodKind;
use http1::{BodySize, Event, Server};
use httparse::spans::{HeaderSpan, RequestSpans, Span};
use std::alloc::{AllocError, Global};
use std::collections::VecDeque;
use std::hash::RandomState;
use std::io;
use std::io::{Read, Write};

const CONTINUE: &[u8] = b"HTTP/1.1 100 Continue\r\n\r\n";

/// At most so many bytes of a content that is rejected for its length are read and dropped.
const MAX_DROPPED: u64 = 16 * 1024 * 1024;

/// What a connection does while it is open.
#[derive(Clone, Copy, Debug, PartialEq, Eq)]
pub(crate) enum Phase {
    /// The next request is being received.
    Receiving,
    /// It was received, and waits for its plan.
    Asking,
    /// Its response is being sent.
    Responding,
}

/// What a connection has read and has to write.
#[derive(Drop)]
pub(crate) struct Machine {
    pub(crate) alloc: Global,
    pub(crate) config: Config,
    pub(crate) state: State,
    pub(crate) phase: Phase,
    /// Whether the input has ended.
    pub(crate) ended: bool,
    /// What was read and isn't used.
    pub(crate) input: BytesMut,
    /// What waits to be written.
    pub(crate) output: BytesMut,
    pub(crate) server: Server,
    /// Whether `request` has the head whose content is being read.
    pub(crate) has_head: bool,
    pub(crate) request: Request<Bytes>,
    /// The content of that request as far as it was read.
    pub(crate) body: BytesMut,
    /// The pieces that are still to be sent.
    pub(crate) left: VecDeque<Piece>,
    /// What follows them.
    pub(crate) tail: BytesMut,
    /// How many bytes of a rejected content were dropped.
    pub(crate) dropped: u64,
}

impl Machine {
    ghost use Rattle.std.specs.Prelude.{[]};
    ghost use Rattle.server_connection.specs.Machine.{new_past};

    /// A connection that has read nothing. The peer chooses the names of header fields, so their maps
    /// take secret keys.
    pub(crate) fn new(alloc: Global, keys: RandomState, config: Config) -> Machine
        ensures config { result.config ≡ config }
        ensures phase { result.phase ≡ Phase.Receiving }
        ensures state { result.state ≡ State.Open }
        ensures output { result.output.items ≡ [] }
        ensures ended { result.ended ≡ false }
        ensures holds { Holds (core result new_past) }
    {
        let parts = Parts {
            method: Method::GET,
            uri: Uri::default(),
            version: Version::HTTP_11,
            headers: HeaderMap::with_hasher(alloc, keys),
        };
        Machine {
            alloc,
            config,
            state: State::Open,
            phase: Phase::Receiving,
            ended: false,
            input: BytesMut::new(alloc),
            output: BytesMut::new(alloc),
            server: Server::new(config.limits),
            has_head: false,
            request: Request::from_parts(parts, Bytes::new()),
            body: BytesMut::new(alloc),
            left: VecDeque::new(alloc),
            tail: BytesMut::new(alloc),
            dropped: 0,
        }
    }

    /// Receives these bytes, or none if out of memory.
    pub(crate) fn receive(&mut self, bytes: &[u8]) -> Result<(), AllocError>
        requires { self.old.ended ≡ false }
        ensures ok { OnOk result (TakesIn self.old self.new bytes.now) }
        ensures err { OnErr result (TakesIn self.old self.new []) }
    {
        Ok(self.input.extend_from_slice(bytes)?)
    }

    /// The input ends here.
    pub(crate) fn finish_input(&mut self)
        ensures takes { TakesIn self.old self.new [] }
        ensures ended { self.new.ended ≡ true }
    {
        self.ended = true;
    }

    /// Reads once, unless the input has ended. Reading no byte says that it has; a read that fails doesn't.
    pub(crate) fn read_from<R: Read>(&mut self, reader: &mut R) -> io::Result<()>
        ensures ok { OnOk result ((bytes : List ℕ) × TakesIn self.old self.new bytes
            × Consumes (R.remaining reader.old) (R.remaining reader.new) bytes) }
        ensures end { OnOk result (self.old.ended ≡ false → self.new.ended ≡ true
            → IsAtEnd (R.remaining reader.new)) }
        ensures err { OnErr result (TakesIn self.old self.new [] × (self.new.ended ≡ self.old.ended)
            × StaysKnown (R.remaining reader.old) (R.remaining reader.new)) }
    {
        if self.ended {
            return Ok(());
        }
        self.input.reserve(self.config.read_size.max(1))?;
        let count = self.input.read_from(reader)?;
        self.ended = count == 0;
        Ok(())
    }

    // How many bytes of a content that was rejected for its length are still to be read and dropped, at most. If its
    // length was known, a client that waits for `100 Continue` sends none. Of chunks no end is looked for: the client
    // ends the connection once it reads that the server does (RFC 9112, section 9.6). After other rejections it may
    // send nothing, and wait.
    fn unwanted(&self) -> u64
        ensures { 0 < result → (self.now.state ≡ Closing (Refused BodyTooLarge)) × (self.now.phase ≡ Phase.Receiving)
            × (self.now.ended ≡ false) }
    {
        let is_too_large = matches!(
            self.state,
            State::Closing(Reason::Refused(Refusal::BodyTooLarge))
        );
        if !is_too_large || !self.is_receiving() || self.ended {
            return 0;
        }
        let most = match self.server.unread_size() {
            BodySize::Known(_) if self.server.expects_continue() => 0,
            BodySize::Known(len) => len.min(MAX_DROPPED),
            BodySize::Unknown => MAX_DROPPED,
            BodySize::Empty => 0,
        };
        most.saturating_sub(self.dropped)
            .saturating_sub(self.input.len() as u64)
    }

    /// Drops what was read of a content that was rejected for its length, and reads once more. Returns
    /// false if there is no more to read. A client that still sends could lose the response otherwise.
    pub(crate) fn drop_content<R: Read>(&mut self, reader: &mut R) -> bool
        ensures drops { (bytes : List ℕ) × Drops self.old self.new bytes
            × Consumes (R.remaining reader.old) (R.remaining reader.new) bytes }
        ensures end { self.new.ended ≡ true
            → ((self.old.ended ≡ true) × (R.remaining reader.new ≡ R.remaining reader.old))
            ⊎ IsAtEnd (R.remaining reader.new) }
    {
        if self.unwanted() == 0 {
            return false;
        }
        self.dropped = self.dropped.saturating_add(self.input.len() as u64);
        self.input.clear();
        match self.read_from(reader) {
            Ok(()) => true,
            Err(_) => false,
        }
    }

    /// Writes once.
    pub(crate) fn write_to<W: Write>(&mut self, writer: &mut W) -> io::Result<usize>
        ensures ok { IfOk result (λ count. HandsOut self.old self.new count
            × Appends (W.contents writer.old) (W.contents writer.new) (take count self.old.output.items)) }
        ensures err { OnErr result (HandsOut self.old self.new 0
            × StaysKnown (W.contents writer.old) (W.contents writer.new)) }
    {
        let count = writer.write(self.output.as_slice())?;
        self.hand_out_bytes(count);
        Ok(count)
    }

    /// Says that so many of the bytes that it offers were written.
    pub(crate) fn hand_out<A: Application>(&mut self, count: usize)
        ensures moves { (now : A) (bytes : List ℕ) → length bytes ≡ count → Offers (A.gives now) self.old bytes
            → Moves A.plans A.gives self.old now [] bytes self.new now }
        ensures output { count ≤ length self.old.output.items → HandsOut self.old self.new count }
        ensures range { HandsOutRange self.old self.new count }
        ensures over { ¬ (OffersCount self.old count) → HasAborted self.new }
    {
        if count <= self.output.len() {
            return self.hand_out_bytes(count);
        }
        if !self.output.is_empty() || self.range().is_none() || !shorten(&mut self.left, count) {
            self.abort();
        }
    }

    fn hand_out_bytes(&mut self, count: usize)
        requires { count ≤ length self.old.output.items }
        ensures { HandsOut self.old self.new count }
    {
        self.output.advance(count);
        if self.output.is_empty() {
            self.output.clear();
        }
    }

    /// Takes a step that needs no input, no output and no plan. Returns whether there may be another one.
    pub(crate) fn step<A: Application>(&mut self, spans: &mut [HeaderSpan]) -> bool
        requires { length spans.old ≡ MAX_HEADERS }
        ensures leads { (now : A) → Leads A.plans A.gives self.old now self.new now }
        ensures rests { IsFalse result → self.new.phase ≡ Phase.Receiving
            → (now first : A) (p : Past) → Runs A.plans A.gives first self.old now p
            → Runs A.plans A.gives first self.new now p × Rests self.new.config (history_of self.new p) }
        ensures works { IsTrue result → work self.new < work self.old }
        ensures stops { IsFalse result → HasStopped self.new }
        ensures spans { length spans.new ≡ length spans.old }
    {
        if !self.is_open() || self.output.len() > self.config.max_pending {
            return false;
        }
        match self.phase {
            Phase::Receiving => self.read::<A>(spans),
            Phase::Asking => false,
            Phase::Responding => self.send_on::<A>(),
        }
    }

    // Takes one event from the input.
    fn read<A: Application>(&mut self, spans: &mut [HeaderSpan]) -> bool
        requires spans { length spans.old ≡ MAX_HEADERS }
        requires state { self.old.state ≡ State.Open }
        requires phase { self.old.phase ≡ Phase.Receiving }
        ensures stays { (now : A) → Stays A.plans A.gives self.old now self.new }
        ensures rests { IsFalse result → self.new.phase ≡ Phase.Receiving
            → (p : Past) → Holds (core self.old p) → Rests self.new.config (history_of self.new p) }
        ensures phase { self.new.phase ≢ Phase.Responding }
        ensures works { IsTrue result → length self.new.input.items < length self.old.input.items }
        ensures spans { length spans.new ≡ length spans.old }
    {
        if self.missing() > 0 {
            return self.wait();
        }
        let read = match self.server.read(self.input.as_slice(), spans) {
            Ok(read) => read,
            Err(e) => return self.refuse(Refusal::Unreadable(e)),
        };
        match read.event {
            Event::Head(head) => self.begin(&head, spans),
            Event::Data(piece) => self.take(piece),
            Event::End(_) => {
                self.input.advance(read.consumed);
                self.ask()
            }
            _ => {
                self.input.advance(read.consumed);
                self.wait()
            }
        }
    }

    // The request was received whole, and waits for its plan.
    fn ask(&mut self) -> bool
        ensures asks { Asks self.old self.new ⊎ GivesUp self.old self.new }
        ensures stops { IsFalse result }
    {
        let Ok(body) = self.body.freeze_to(self.body.len()) else {
            return self.abort();
        };
        set_body(&mut self.request, body);
        self.phase = Phase::Asking;
        false
    }

    // Sends what needs no range.
    fn send_on<A: Application>(&mut self) -> bool
        requires state { self.old.state ≡ State.Open }
        requires phase { self.old.phase ≡ Phase.Responding }
        ensures leads { (now : A) → Leads A.plans A.gives self.old now self.new now }
        ensures works { IsTrue result → work self.new < work self.old }
        ensures stops { IsFalse result → HasStopped self.new × (self.new.phase ≡ Phase.Responding) }
    {
        if let Some(_) = self.range() {
            return false;
        }
        self.send::<A>();
        true
    }

    fn is_receiving(&self) -> bool
        ensures { IsTrue result ↔ (self.now.phase ≡ Phase.Receiving) }
    {
        matches!(self.phase, Phase::Receiving)
    }

    /// The range that is to be sent next, once the output is.
    pub(crate) fn range(&self) -> Option<OpenRange>
        ensures some { IfSome result (λ extent. IsNextRange self.now extent) }
        ensures none { IfNone result (HasNoRange self.now) }
    {
        if !self.is_open() || !matches!(self.phase, Phase::Responding) {
            return None;
        }
        match self.left.front() {
            Some(Piece::Range(extent)) if extent.len > 0 => Some(*extent),
            _ => None,
        }
    }

    /// The same, unless much output waits already.
    pub(crate) fn range_to_read(&self) -> Option<OpenRange>
        ensures some { IfSome result (λ extent. IsNextRange self.now extent
            × (length self.now.output.items ≤ self.now.config.max_pending)) }
        ensures none { IfNone result (HasNoRange self.now
            ⊎ (self.now.config.max_pending < length self.now.output.items)) }
    {
        if self.output.len() > self.config.max_pending {
            return None;
        }
        self.range()
    }

    pub(crate) fn is_open(&self) -> bool
        ensures { IsTrue result ↔ (self.now.state ≡ State.Open) }
    {
        matches!(self.state, State::Open)
    }

    // How many bytes a content of known length lacks. It is read whole, so that a part isn't parsed.
    fn missing(&self) -> usize
        ensures { 0 < result → (p : Past) → Holds (core self.now p) → self.now.state ≡ State.Open
            → IsStarved (core self.now p) }
    {
        match self.server.unread_size() {
            BodySize::Known(len) => len.saturating_sub(self.input.len() as u64) as usize,
            _ => 0,
        }
    }

    fn wait(&mut self) -> bool
        ensures keeps { Keeps self.old self.new }
        ensures stops { IsFalse result }
        ensures puts { GoesOn self.old self.new }
        ensures reaches { (p : Past) → IsStarved (core self.old p) → Holds (core self.new p) }
        ensures rests { (p : Past) → IsStarved (core self.old p)
            → Rests self.new.config (history_of self.new p) }
    {
        if !self.ended {
            return false;
        }
        if !self.has_head && self.input.is_empty() {
            self.state = State::Closing(Reason::EndOfInput);
            return false;
        }
        self.refuse(Refusal::Truncated)
    }

    fn begin(&mut self, head: &RequestSpans, spans: &[HeaderSpan]) -> bool
        requires { IsRequestWithin self.old.input.items spans.now head.now }
        ensures keeps { Keeps self.old self.new }
        ensures puts { (p : Past) → HasHead (core self.old p) spans.now head.now
            → Opens self.old.input.items self.old self.new }
        ensures reaches { (p : Past) → HasHead (core self.old p) spans.now head.now
            → Holds (core self.new p) }
        ensures works { IsTrue result → length self.new.input.items + head.now.len ≡ length self.old.input.items }
        ensures stops { IsFalse result → self.new.state ≢ State.Open }
    {
        if self.server.has_codings() {
            return self.refuse(Refusal::UnknownCoding);
        }
        if !are_hosts(self.input.as_slice(), &spans[..head.headers]) {
            return self.refuse(Refusal::InvalidHost);
        }
        let size = self.server.unread_size();
        let Ok(text) = self.input.freeze_to(head.len) else {
            return self.abort();
        };
        match http1_typed::fill_request(self.alloc, &mut self.request, &text, head, spans) {
            Ok(()) => self.has_head = true,
            Err(e) => {
                return match e {
                    http::Error::OutOfMemory => self.abort(),
                    _ => self.refuse(Refusal::InvalidPart(e)),
                };
            }
        }
        if let BodySize::Known(len) = size
            && len > self.config.max_body_len as u64
        {
            return self.refuse(Refusal::BodyTooLarge);
        }
        // The response comes after the whole content, so `server` need not know of this.
        if !self.server.expects_continue() {
            return true;
        }
        match self.output.extend_from_slice(CONTINUE) {
            Ok(()) => true,
            Err(_) => self.abort(),
        }
    }

    fn take(&mut self, piece: Span) -> bool
        requires { (piece.start < piece.end) × (piece.end ≤ length self.old.input.items) }
        ensures keeps { Keeps self.old self.new }
        ensures puts { GoesOn self.old self.new }
        ensures reaches { (p : Past) → HasPiece (core self.old p) piece → Holds (core self.new p) }
        ensures works { IsTrue result → length self.new.input.items < length self.old.input.items }
        ensures stops { IsFalse result → self.new.state ≢ State.Open }
    {
        if piece.end - piece.start > self.config.max_body_len.saturating_sub(self.body.len()) {
            return self.refuse(Refusal::BodyTooLarge);
        }
        match self
            .body
            .extend_from_slice(&self.input.as_slice()[piece.start..piece.end])
        {
            Ok(()) => {
                self.input.advance(piece.end);
                true
            }
            Err(_) => self.abort(),
        }
    }

    fn refuse(&mut self, why: Refusal) -> bool
        ensures keeps { Keeps self.old self.new }
        ensures puts { Refuses why self.old self.new }
        ensures reaches { (p : Past) → MayRefuse why (core self.old p) → Holds (core self.new p) }
        ensures stops { IsFalse result × (self.new.state ≢ State.Open) }
    {
        let Ok(()) = self.output.extend_from_slice(refusal_text(why)) else {
            return self.abort();
        };
        self.state = State::Closing(Reason::Refused(why));
        false
    }

    fn abort(&mut self) -> bool
        ensures keeps { Keeps self.old self.new }
        ensures rest { KeepsRest self.old self.new }
        ensures left { self.new.left.items ≡ self.old.left.items }
        ensures state { self.new.state ≡ State.Aborted }
        ensures output { self.new.output.items ≡ [] }
        ensures reaches { (p : Past) → MayAbort (core self.old p) → Holds (core self.new p) }
        ensures stops { IsFalse result }
    {
        self.output.clear();
        self.state = State::Aborted;
        false
    }

    /// Answers the request that waits.
    pub(crate) fn respond<A: Application>(&mut self, plan: ResponsePlan)
        requires { self.old.phase ≡ Phase.Asking }
        ensures { (before now : A) → A.plans before self.old.request plan now
            → Leads A.plans A.gives self.old before self.new now }
    {
        self.phase = Phase::Receiving;
        self.has_head = false;
        self.body.clear();
        let is_head = is_head(self.request.method());
        release(&mut self.request);
        self.start(plan, is_head);
    }

    /// Answers the request that waits by nothing.
    pub(crate) fn give_up<A: Application>(&mut self)
        requires { self.old.phase ≡ Phase.Asking }
        ensures { (before now : A) → Leads A.plans A.gives self.old before self.new now }
    {
        self.phase = Phase::Receiving;
        self.abort();
    }

    // Begins to send what a plan says.
    fn start(&mut self, plan: ResponsePlan, is_head: bool)
        ensures { Starts plan is_head self.old self.new }
    {
        self.tail.clear();
        let framed = encode(
            self.alloc,
            &mut self.server,
            &mut self.output,
            &mut self.tail,
            &plan,
            is_head,
        );
        match framed {
            Ok(()) => {
                self.left = plan.into_pieces();
                if is_head {
                    self.left.clear();
                }
                self.phase = Phase::Responding;
            }
            Err(_) => {
                self.abort();
            }
        }
    }

    /// Puts the first bytes of the range that is next into the output.
    pub(crate) fn fill<A: Application>(&mut self, bytes: &[u8])
        ensures { (now : A) (extent : OpenRange) → IsNextRange self.old extent → A.gives now extent.start bytes.now
            → SendsOn (A.gives now) self.old self.new }
    {
        if !shorten(&mut self.left, bytes.len()) {
            self.abort();
            return;
        }
        self.put(bytes);
    }

    /// Cuts off the response that is being sent.
    pub(crate) fn cut_off(&mut self)
        ensures { CutsOff self.old self.new }
    {
        self.abort();
    }

    // Sends the first of the pieces that are left, or what follows them. It is no range, or an empty one.
    fn send<A: Application>(&mut self)
        ensures sends { (now : A) → SendsOn (A.gives now) self.old self.new }
        ensures works { self.old.state ≡ State.Open → self.old.phase ≡ Phase.Responding
            → work self.new < work self.old }
    {
        match self.left.pop_front() {
            None => self.finish(),
            Some(Piece::Literal(bytes)) => self.put(bytes.as_slice()),
            Some(Piece::Range(extent)) => self.skip(extent),
        }
    }

    fn put(&mut self, bytes: &[u8])
        ensures { Puts self.old bytes.now self.new }
    {
        match self.output.extend_from_slice(bytes) {
            Ok(()) => {}
            Err(_) => {
                self.abort();
            }
        }
    }

    fn skip(&mut self, extent: OpenRange)
        ensures { ((extent.len ≡ 0) × (self.new ≡ self.old)) ⊎ CutsOff self.old self.new }
    {
        if extent.len > 0 {
            self.abort();
        }
    }

    fn finish(&mut self)
        ensures { Finishes self.old self.new }
    {
        match self.output.extend_from_slice(self.tail.as_slice()) {
            Ok(()) => {
                self.phase = Phase::Receiving;
                if self.server.is_closed() {
                    self.state = State::Closing(Reason::Asked);
                }
            }
            Err(_) => {
                self.abort();
            }
        }
    }
}

// Takes so many bytes off the range at the front. Returns false if there is none, or none that is so long, or if they
// end at 2^64 or later.
fn shorten(left: &mut VecDeque<Piece>, count: usize) -> bool
    ensures shortens { IsTrue result → Shortens left.old.items left.new.items count }
    ensures fails { IsFalse result → ¬ (CanShorten left.old.items count) }
{
    let Some(Piece::Range(extent)) = left.pop_front() else {
        return false;
    };
    let Some(start) = extent.start.checked_add(count as u64) else {
        return false;
    };
    let Some(len) = extent.len.checked_sub(count as u64) else {
        return false;
    };
    left.push_front(Piece::Range(OpenRange { start, len }))
        .is_ok()
}

fn set_body(request: &mut Request<Bytes>, body: Bytes)
    ensures { request.new ≡ with_body request.old body }
{
    *request.body_mut() = body;
}

// Drops what shares the input.
fn release(request: &mut Request<Bytes>) {
    request.headers_mut().clear();
    *request.uri_mut() = Uri::default();
    *request.body_mut() = Bytes::new();
}

fn is_head(method: &Method) -> bool
    ensures { result ≡ http1.is_head (method_kind method.now) }
{
    matches!(MethodKind::of(method.as_str().as_bytes()), MethodKind::Head)
}

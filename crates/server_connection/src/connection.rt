//! A connection, as its host has it.
ghost use Rattle.std.specs.Prelude.{◌≡◌, ◌↔◌, ◌≤◌, ℕ, [], List, length, false, true};
ghost use Rattle.std.specs.Prelude.{IfNone, IfSome, OnErr, OnOk, IsTrue};
ghost use Rattle.http_server.specs.declared.state.Config.{Config};
ghost use Rattle.server_connection.specs.Connection.{Exchanged, HasRested, IsClosing, IsReached, IsSaid};
ghost use Rattle.server_connection.specs.Machine.{HandsOut, HandsOutRange, HasAborted, HasNoRange, HasStopped};
ghost use Rattle.server_connection.specs.Machine.{IsNextRange, Moves, Offers, OffersCount};

use crate::application::Application;
use crate::machine::{Machine, Phase};
use crate::piece::OpenRange;
use crate::plan::ResponsePlan;
use bytes::Bytes;
use http::Request;
use http_server::{Config, MAX_HEADERS, Reason, State};
use httparse::spans::EMPTY_HEADER_SPAN;
use std::alloc::{AllocError, Global};
use std::hash::RandomState;

/// What a connection wants of its host.
#[derive(Clone, Copy, Debug, PartialEq, Eq)]
pub enum Event {
    /// `receive`, or `finish_input`.
    NeedsInput,
    /// Read `request`, and `respond`.
    Request,
    /// Write what it offers, and say so by `sent`.
    Output,
    /// All was sent: close.
    Closed(Reason),
    /// Memory ran out, or a response can't be sent to its end: close.
    Aborted,
}

/// One connection of a server. Ask `next` what it wants, do so, and ask again.
#[derive(Drop)]
pub struct ServerConnection {
    pub(crate) machine: Machine,
}

impl ServerConnection {
    /// A connection that has received nothing. It allocates nothing. The client chooses the names of header fields,
    /// so their maps take secret keys.
    pub fn new<A: Application>(alloc: Global, keys: RandomState, config: Config) -> ServerConnection
        ensures begins { (first : A) → IsReached A.plans A.gives config first result.machine first [] [] }
        ensures phase { result.machine.phase ≡ Phase.Receiving }
        ensures ended { result.machine.ended ≡ false }
    {
        ServerConnection {
            machine: Machine::new(alloc, keys, config),
        }
    }

    /// Receives these bytes, or none if out of memory. Call it where `next` says `NeedsInput`.
    pub fn receive<A: Application>(&mut self, bytes: &[u8]) -> Result<(), AllocError>
        requires { self.old.machine.phase ≡ Phase.Receiving }
        ensures ok { OnOk result ((now : A)
            → Moves A.plans A.gives self.old.machine now bytes.now [] self.new.machine now) }
        ensures err { OnErr result ((now : A)
            → Moves A.plans A.gives self.old.machine now [] [] self.new.machine now) }
        ensures phase { self.new.machine.phase ≡ Phase.Receiving }
    {
        if self.machine.ended {
            return Err(AllocError);
        }
        self.machine.receive(bytes)
    }

    /// Says that the input ends here. Call it where `next` says `NeedsInput`.
    pub fn finish_input<A: Application>(&mut self)
        requires { self.old.machine.phase ≡ Phase.Receiving }
        ensures moves { (now : A) → Moves A.plans A.gives self.old.machine now [] [] self.new.machine now }
        ensures ended { self.new.machine.ended ≡ true }
    {
        self.machine.finish_input();
    }

    /// Does what needs nothing of the host, and says what the connection wants then.
    pub fn next<A: Application>(&mut self) -> Event
        ensures moves { (now : A) → Moves A.plans A.gives self.old.machine now [] [] self.new.machine now }
        ensures said { IsSaid self.new.machine result }
        ensures ended { (now : A) → self.new.machine.ended ≡ self.old.machine.ended }
        ensures rests { result ≡ Event.NeedsInput → (config : Config) (first now : A) (received sent : List ℕ)
            → IsReached A.plans A.gives config first self.old.machine now received sent
            → HasRested A.plans A.gives first self.new.machine now received sent }
    {
        let mut spans = [EMPTY_HEADER_SPAN; MAX_HEADERS];
        while self.machine.step::<A>(&mut spans) {}
        self.event()
    }

    fn event(&self) -> Event
        requires { HasStopped self.now.machine }
        ensures { IsSaid self.now.machine result }
    {
        let machine = &self.machine;
        if machine.is_open() && self.is_asking() {
            return Event::Request;
        }
        if !machine.output.is_empty() {
            return Event::Output;
        }
        match machine.state {
            State::Open if self.is_receiving() => Event::NeedsInput,
            State::Open => Event::Output,
            State::Closing(why) => Event::Closed(why),
            _ => Event::Aborted,
        }
    }

    /// The request that waits for its plan, with its content.
    pub fn request(&self) -> &Request<Bytes>
        ensures { result.now ≡ self.now.machine.request }
    {
        &self.machine.request
    }

    /// Answers the request that waits.
    pub fn respond<A: Application>(&mut self, plan: ResponsePlan)
        requires { self.old.machine.phase ≡ Phase.Asking }
        ensures { (before now : A) → A.plans before self.old.machine.request plan now
            → Moves A.plans A.gives self.old.machine before [] [] self.new.machine now }
    {
        self.machine.respond::<A>(plan);
    }

    /// What is to be written next: these bytes, or the first of them.
    pub fn output(&self) -> &[u8]
        ensures { result.now ≡ self.now.machine.output.items }
    {
        self.machine.output.as_slice()
    }

    /// What is to be written next, if there is no output: bytes of what the application has open. `None` if a response
    /// isn't being sent, or none of its bytes are to be read.
    pub fn range(&self) -> Option<OpenRange>
        ensures some { IfSome result (λ extent. IsNextRange self.now.machine extent) }
        ensures none { IfNone result (HasNoRange self.now.machine) }
    {
        self.machine.range()
    }

    /// Says that so many of the bytes that it offers were written: of the output, or, if there is none, of the range.
    /// It is aborted if it offers fewer, or if they are of a range and end at 2^64 or later.
    pub fn sent<A: Application>(&mut self, count: usize)
        ensures moves { (now : A) (bytes : List ℕ) → length bytes ≡ count → Offers (A.gives now) self.old.machine bytes
            → Moves A.plans A.gives self.old.machine now [] bytes self.new.machine now }
        ensures output { count ≤ length self.old.machine.output.items
            → HandsOut self.old.machine self.new.machine count }
        ensures range { HandsOutRange self.old.machine self.new.machine count }
        ensures over { ¬ (OffersCount self.old.machine count) → HasAborted self.new.machine }
    {
        self.machine.hand_out::<A>(count);
    }

    /// Whether a request waits for its plan.
    pub fn is_asking(&self) -> bool
        ensures { IsTrue result ↔ (self.now.machine.phase ≡ Phase.Asking) }
    {
        matches!(self.machine.phase, Phase::Asking)
    }

    /// Whether input may be received.
    pub fn is_receiving(&self) -> bool
        ensures { IsTrue result ↔ (self.now.machine.phase ≡ Phase.Receiving) }
    {
        matches!(self.machine.phase, Phase::Receiving)
    }

    /// Whether HTTP has nothing more to do here, and all was written.
    ///
    /// This is the theorem of the crate: whatever the history of calls, what was written answers what was received.
    pub fn is_done<A: Application>(&self) -> bool
        ensures done { IsTrue result ↔ (IsClosing self.now.machine.state × (self.now.machine.output.items ≡ [])) }
        ensures exchanged { (config : Config) (first now : A) (received sent : List ℕ)
            → IsReached A.plans A.gives config first self.now.machine now received sent
            → Exchanged A.plans A.gives config first now received sent result }
    {
        match self.machine.state {
            State::Closing(_) => self.machine.output.is_empty(),
            _ => false,
        }
    }
}

//! What follows HTTP on a connection: bytes in both directions.
ghost use Rattle.std.specs.Prelude.{◌≡◌, ◌≤◌, ◌&&◌, ◌==◌, [], length, true, OnErr, OnOk};
ghost use Rattle.gateway_exchange.specs.Tunnels.{Conveyed, IsReached, Past, ReceivesClient, ReceivesOrigin};
ghost use Rattle.gateway_exchange.specs.Tunnels.{WritesClient, WritesOrigin, tunnel_wants};
ghost use Rattle.gateway_exchange.specs.declared.tunnel.Tunnel.{Tunnel};

use crate::event::Wants;
use bytes::BytesMut;
use std::alloc::AllocError;

/// How many bytes may wait for one side before the other is read no more.
pub(crate) const MOST_WAITING: usize = 65_536;

/// A tunnel between a client and an origin, without input and output.
#[derive(Drop)]
pub struct Tunnel {
    /// What waits to be written to the client.
    pub(crate) to_client: BytesMut,
    /// What waits to be written to the origin.
    pub(crate) to_origin: BytesMut,
    /// Whether the client's input has ended.
    pub(crate) client_ended: bool,
    /// Whether the origin's input has ended.
    pub(crate) origin_ended: bool,
}

impl Tunnel {
    /// Receives bytes of the client. Fails if an allocation fails. Then nothing changes.
    pub fn client_receive(&mut self, bytes: &[u8]) -> Result<(), AllocError>
        ensures ok { OnOk result (ReceivesClient self.old bytes.now self.new) }
        ensures err { OnErr result (ReceivesClient self.old [] self.new) }
    {
        self.to_origin.extend_from_slice(bytes)
    }

    /// Says that the client's input ends here.
    pub fn client_finish(&mut self)
        ensures { self.new ≡ record self.old { client_ended = true } }
    {
        self.client_ended = true;
    }

    /// What waits to be written to the client.
    ///
    /// This is the theorem of a tunnel, whatever the history of calls.
    pub fn client_output(&self) -> &[u8]
        ensures value { result.now ≡ self.now.to_client.items }
        ensures theorem { (first : Tunnel) (past : Past) → IsReached first self.now past
            → Conveyed first self.now past }
    {
        self.to_client.as_slice()
    }

    /// Says that the first bytes of the client's output were written, and how many.
    pub fn client_sent(&mut self, count: usize)
        requires { count ≤ length self.old.to_client.items }
        ensures { WritesClient self.old count self.new }
    {
        self.to_client.advance(count);
    }

    /// Receives bytes of the origin. Fails if an allocation fails. Then nothing changes.
    pub fn origin_receive(&mut self, bytes: &[u8]) -> Result<(), AllocError>
        ensures ok { OnOk result (ReceivesOrigin self.old bytes.now self.new) }
        ensures err { OnErr result (ReceivesOrigin self.old [] self.new) }
    {
        self.to_client.extend_from_slice(bytes)
    }

    /// Says that the origin's input ends here.
    pub fn origin_finish(&mut self)
        ensures { self.new ≡ record self.old { origin_ended = true } }
    {
        self.origin_ended = true;
    }

    /// What waits to be written to the origin.
    pub fn origin_output(&self) -> &[u8]
        ensures { result.now ≡ self.now.to_origin.items }
    {
        self.to_origin.as_slice()
    }

    /// Says that the first bytes of the origin's output were written, and how many.
    pub fn origin_sent(&mut self, count: usize)
        requires { count ≤ length self.old.to_origin.items }
        ensures { WritesOrigin self.old count self.new }
    {
        self.to_origin.advance(count);
    }

    /// Whether the client gets nothing more: shut its connection down for writing.
    pub fn ends_client(&self) -> bool
        ensures { result ≡ (self.now.origin_ended && (length self.now.to_client.items == 0)) }
    {
        self.origin_ended && self.to_client.is_empty()
    }

    /// Whether the origin gets nothing more: shut its connection down for writing.
    pub fn ends_origin(&self) -> bool
        ensures { result ≡ (self.now.client_ended && (length self.now.to_origin.items == 0)) }
    {
        self.client_ended && self.to_origin.is_empty()
    }

    /// What to wait for. A side isn't read while 64 KiB or more wait for the other.
    pub fn wants(&self) -> Wants
        ensures { result ≡ tunnel_wants self.now }
    {
        Wants {
            client_input: !self.client_ended && self.to_origin.len() < MOST_WAITING,
            client_output: !self.to_client.is_empty(),
            origin_input: !self.origin_ended && self.to_client.len() < MOST_WAITING,
            origin_output: !self.to_origin.is_empty(),
        }
    }
}

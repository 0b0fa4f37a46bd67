//! How a request arrived at a gateway.
ghost use Rattle.std.specs.Prelude.{◌≡◌};
ghost use Rattle.gateway_hops.specs.Arrivals.{scheme_text};

use crate::node::Node;
use headers::HeaderValue;

/// The scheme by which a request arrived at a gateway.
#[derive(Clone, Copy, Debug, PartialEq, Eq)]
pub enum Scheme {
    /// The scheme `http`.
    Http,
    /// The scheme `https`.
    Https,
}

impl Scheme {
    /// Returns the scheme as text.
    pub fn as_str(self) -> &'static str
        ensures { result.now ≡ scheme_text self }
    {
        match self {
            Scheme::Http => "http",
            Scheme::Https => "https",
        }
    }
}

/// How a request arrived at a gateway: from whom, at which node, to which host, and by which
/// scheme.
#[derive(Clone, Copy)]
pub struct Arrival<'a> {
    /// The node that sent the request.
    pub client: &'a Node,
    /// The node at which the gateway received the request, if the next server may know it.
    pub interface: Option<&'a Node>,
    /// The Host field of the request, if it has one and the next server may know it.
    pub host: Option<&'a HeaderValue>,
    /// The scheme by which the request arrived.
    pub scheme: Scheme,
    /// Whether the gateway trusts what the sending node says about earlier nodes.
    pub is_trusted: bool,
}

//! What a gateway's connection wants of its host.

/// What comes next on a gateway's connection.
#[derive(Clone, Copy, Debug, PartialEq, Eq)]
pub enum GatewayEvent {
    /// Nothing more happens until bytes come or go: see `wants`.
    Waits,
    /// The head of a request that may be forwarded came: `forward`, `answer`, `respond` or `connected`.
    Request,
    /// The head of the final response came, and `forward` was told to watch: `pass`, `answer` or `respond`.
    Response,
    /// A piece of a watched response was passed to the client: `piece` has it until the next call.
    Piece,
    /// The origin ended its connection before a byte of a response, and the request may be repeated:
    /// `forward` over another connection, or `answer`.
    Again,
    /// The response was put to its end. The origin's connection isn't needed any more: `take_origin`.
    Exchanged,
    /// The connection is no longer HTTP: `into_tunnel`.
    Tunnel,
    /// Nothing more is said: write what `client_output` has, and close both connections.
    Closed,
    /// A message was cut off: close both connections at once.
    Aborted,
}

/// What a gateway's connection is doing. A host has one time limit for each.
#[derive(Clone, Copy, Debug, PartialEq, Eq)]
pub enum ExchangePhase {
    /// No byte of a request came. The limit closes the connection.
    Idle,
    /// A part of the head of a request came. The limit answers 408, and closes.
    Head,
    /// The request waits for a connection to an origin. The limit answers 504.
    Asking,
    /// Content of the request is awaited, and no head of a response was sent. The limit answers 408.
    Content,
    /// The request has ended, and its response is awaited. The limit answers 504.
    Response,
    /// The response is being sent. The limit aborts.
    Passing,
    /// The caller gives the response. The limit aborts.
    Giving,
    /// The response was sent; the rest of the request is read and dropped. The limit closes the connection.
    Draining,
    /// The connection is closed, was aborted, or is a tunnel.
    Over,
}

/// What a host should wait for, on either connection.
#[derive(Clone, Copy, Debug, PartialEq, Eq)]
pub struct Wants {
    /// Bytes of the client.
    pub client_input: bool,
    /// That bytes can be written to the client.
    pub client_output: bool,
    /// Bytes of the origin.
    pub origin_input: bool,
    /// That bytes can be written to the origin.
    pub origin_output: bool,
}

//! What is found in what a client sends.

use crate::rejection::StreamRejection;
use bytes::Bytes;
use http::{HeaderMap, Method};
use http1::BodySize;

/// The head of a request.
#[derive(Debug, Drop)]
pub struct StreamRequest {
    /// The method.
    pub method: Method,
    /// The target, as the request line has it.
    pub target: Bytes,
    /// The minor version of HTTP/1.
    pub minor: u8,
    /// The fields.
    pub fields: HeaderMap,
    /// The size of the content: `Known(0)` if there is none, `Unknown` if it comes in chunks.
    pub size: BodySize,
    /// Whether the client waits for 100 (Continue) before it sends the content (RFC 9110, section 10.1.1).
    pub expects_continue: bool,
}

/// What comes next on a connection to a client.
#[derive(Debug, Drop)]
pub enum StreamEvent {
    /// Nothing more can be said of what was received: call `receive` or `finish_input`.
    NeedsInput,
    /// The head of a request. Its content follows.
    Head(StreamRequest),
    /// A piece of the content, never an empty one.
    Content(Bytes),
    /// The end of the request, with its trailer fields.
    End(HeaderMap),
    /// The request has ended and its response hasn't. Nothing more is said before it has.
    Waits,
    /// The connection is no longer HTTP, by `switch`: what is left of the input and what follows is
    /// of the other protocol.
    Switched,
    /// No request follows. Close once the output is written.
    Closed,
    /// What came is no request that can be taken. Nothing more is said. Unless a response has begun,
    /// `respond` may send one with the status of the rejection. Close once it is written.
    Rejected(StreamRejection),
}

//! How the content of a message is delimited.
ghost use Rattle.std.specs.Prelude.{◌≡◌};
ghost use Rattle.c_gateway.specs.Contents.{content_facts, request_content, sent_content};

use gateway_messages::{ContentFraming, Framing};

/// How the content of a message is delimited.
#[repr(C)]
#[derive(Clone, Copy)]
pub struct ContentFacts {
    /// How many bytes it has, if the kind is 1; else 0.
    pub length: u64,
    /// 0 if there is none, 1 for a length, 2 for chunks, 3 if it ends with the connection, 4 for a
    /// tunnel.
    pub kind: u8,
}

/// The content of a request whose fields state this: none if they state nothing (RFC 9112, section
/// 6.3).
pub(crate) fn request_content(framing: Framing) -> ContentFraming
    ensures { result ≡ request_content framing }
{
    match framing {
        Framing::Unstated => ContentFraming::Absent,
        Framing::Length(bytes) => ContentFraming::Length(bytes),
        Framing::Chunked => ContentFraming::Chunked,
    }
}

/// The content as it is sent with fields that state this.
pub(crate) fn sent_content(received: ContentFraming, framing: Framing) -> ContentFraming
    ensures { result ≡ sent_content received framing }
{
    match (received, framing) {
        (ContentFraming::Tunnel | ContentFraming::Absent, _) => received,
        (_, Framing::Unstated) => ContentFraming::UntilClose,
        (_, Framing::Length(bytes)) => ContentFraming::Length(bytes),
        (_, Framing::Chunked) => ContentFraming::Chunked,
    }
}

/// What C is told of it.
pub(crate) fn content_facts(content: ContentFraming) -> ContentFacts
    ensures { result ≡ content_facts content }
{
    match content {
        ContentFraming::Absent => ContentFacts { length: 0, kind: 0 },
        ContentFraming::Length(length) => ContentFacts { length, kind: 1 },
        ContentFraming::Chunked => ContentFacts { length: 0, kind: 2 },
        ContentFraming::UntilClose => ContentFacts { length: 0, kind: 3 },
        ContentFraming::Tunnel => ContentFacts { length: 0, kind: 4 },
    }
}

//! Headers that are one value: of content and its context (RFC 9110, sections 6.6.1, 8.6, 8.7, 10.1 and 10.2; RFC
//! 6266), and of a cookie that is set (RFC 6265). The others are exported.
#![tactic(auto)]

mod content_disposition;
mod content_length;
mod content_location;
mod date;
mod location;
mod referer;
mod retry_after;
mod server;
mod set_cookie;
mod text_header;
mod user_agent;

pub use crate::content_disposition::ContentDisposition;
pub use crate::content_length::ContentLength;
pub use crate::content_location::{ContentLocation, ContentLocationField};
pub use crate::date::Date;
pub use crate::location::{Location, LocationField};
pub use crate::referer::{InvalidReferer, Referer, RefererField};
pub use crate::retry_after::RetryAfter;
pub use crate::server::{InvalidServer, Server, ServerField};
pub use crate::set_cookie::SetCookie;
pub use crate::text_header::{TextField, TextHeader};
pub use crate::user_agent::{InvalidUserAgent, UserAgent, UserAgentField};
pub use headers_caching::{Age, Expires, Pragma};
pub use headers_conditional::{
    ETag, IfModifiedSince, IfRange, IfUnmodifiedSince, InvalidETag, LastModified, into_tag, tag_of,
};
pub use headers_connection::{
    Expect, SecWebsocketAccept, SecWebsocketKey, SecWebsocketVersion, Upgrade,
};
pub use headers_core::{Error, Header, Refused};
pub use headers_cors::{AccessControlAllowCredentials, AccessControlMaxAge};
pub use headers_ranges::{
    ContentRange, InvalidContentRange, InvalidRange, Range, Satisfiable, content_ranges_read_back,
    ranges_read_back,
};

//! All typed HTTP headers. A program depends on this crate alone.
#![tactic(auto)]

pub mod authorization;
mod content_type;
pub mod laws;

pub use crate::content_type::ContentType;
pub use headers_authorization::{Authorization, ProxyAuthorization};
pub use headers_caching::{Age, CacheControl, Expires, Pragma, Vary, equal_by_encoding};
pub use headers_conditional::{
    ETag, IfMatch, IfModifiedSince, IfNoneMatch, IfRange, IfUnmodifiedSince, InvalidETag,
    LastModified,
};
pub use headers_connection::{
    AsConnectionOption, Connection, Expect, SecWebsocketAccept, SecWebsocketKey,
    SecWebsocketVersion, Te, TransferEncoding, Upgrade,
};
pub use headers_core::{
    AsHeaderValue, Comma, Error, Header, Items, Pairs, Refused, decode_values, trim,
};
pub use headers_cors::{
    AccessControlAllowCredentials, AccessControlAllowHeaders, AccessControlAllowMethods,
    AccessControlAllowOrigin, AccessControlExposeHeaders, AccessControlMaxAge,
    AccessControlRequestHeaders, AccessControlRequestMethod,
};
pub use headers_hosts::{Host, InvalidOrigin, Origin};
pub use headers_lists::{Allow, ContentEncoding, Cookie, ReferrerPolicy, StrictTransportSecurity};
pub use headers_map::{
    ApplyError, Encoded, HeaderMapExt, InsertError, Step, apply, canonical, encoding, set_all,
};
pub use headers_mime::Mime;
pub use headers_names::{Methods, Names, SkipNames};
pub use headers_ranges::{
    AcceptRanges, ContentRange, InvalidContentRange, InvalidRange, Range, Satisfiable,
};
pub use headers_syntax::trimmed;
pub use headers_values::{
    ContentDisposition, ContentLength, ContentLocation, Date, InvalidReferer, InvalidServer,
    InvalidUserAgent, Location, Referer, RetryAfter, Server, SetCookie, UserAgent,
};
pub use http_header::{HeaderMap, HeaderName, HeaderValue};

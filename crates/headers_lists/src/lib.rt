//! Headers that are lists, or are chosen from one: of codings, methods and cookies (RFC 9110, sections 8.4 and 10.2.1;
//! RFC 6265), of transport security and referrers (RFC 6797; W3C Referrer Policy). The others are exported.
#![tactic(auto)]

mod allow;
mod content_encoding;
mod cookie;
mod referrer_policy;
mod strict_transport_security;

pub use crate::allow::{Allow, AllowField};
pub use crate::content_encoding::ContentEncoding;
pub use crate::cookie::Cookie;
pub use crate::referrer_policy::{ReferrerPolicy, policies_read_back};
pub use crate::strict_transport_security::{StrictTransportSecurity, security_reads_back};
pub use headers_caching::{
    CacheControl, Vary, cache_control_survives_cuts, directives_read_back, equal_by_encoding,
};
pub use headers_conditional::{
    IfMatch, IfNoneMatch, if_match_of_own_tag, if_none_match_of_own_tag,
};
pub use headers_connection::{AsConnectionOption, Connection, Te, TransferEncoding};
pub use headers_core::{Comma, Error, Header, Items, Pairs, Refused};
pub use headers_cors::{
    AccessControlAllowHeaders, AccessControlAllowMethods, AccessControlExposeHeaders,
    AccessControlRequestHeaders,
};
pub use headers_names::{Methods, Names, SkipNames};
pub use headers_ranges::AcceptRanges;

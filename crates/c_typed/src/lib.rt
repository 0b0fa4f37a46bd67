//! Typed values of fields for C: credentials, cookies, hosts, origins, policies, ranges and lists.
#![tactic(auto)]

mod content;
mod cookies;
mod credentials;
mod directives;
mod hosts;
mod members;
mod parameters;
mod parts;
mod policies;

pub use crate::content::{read_content_range, read_disposition};
pub use crate::cookies::{cookies_text, find_cookie};
pub use crate::credentials::{UserPassword, read_token, read_user_password};
pub use crate::directives::{StaleDirectives, arguments_text, read_stale_directives};
pub use crate::hosts::{
    HostText, OriginParts, OriginText, PortNumber, is_port_part, read_host, read_origin,
};
pub use crate::members::{has_member, members_text};
pub use crate::parameters::{find_parameter, read_extended, write_parameter};
pub use crate::parts::parts_text;
pub use crate::policies::{
    RetryTime, TransportSecurity, read_retry_after, read_transport_security,
};

//! Headers with the credentials of an authentication scheme (RFC 9110, section 11).
#![tactic(auto)]

mod authorization;
mod base64_values;
mod basic;
mod bearer;
mod credentials;
mod proxy_authorization;

pub use crate::authorization::Authorization;
pub use crate::base64_values::{base64_value, read_base64};
pub use crate::basic::Basic;
pub use crate::bearer::{Bearer, InvalidBearerToken};
pub use crate::credentials::Credentials;
pub use crate::proxy_authorization::ProxyAuthorization;

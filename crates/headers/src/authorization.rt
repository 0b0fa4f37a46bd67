//! Credentials, and the headers that have them (RFC 9110, section 11).

pub use headers_authorization::{
    Authorization, Basic, Bearer, Credentials, InvalidBearerToken, ProxyAuthorization,
};

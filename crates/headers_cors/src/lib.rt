//! Headers of cross-origin resource sharing (W3C CORS; the Fetch standard).
#![tactic(auto)]

mod access_control_allow_credentials;
mod access_control_allow_headers;
mod access_control_allow_methods;
mod access_control_allow_origin;
mod access_control_expose_headers;
mod access_control_max_age;
mod access_control_request_headers;
mod access_control_request_method;

pub use crate::access_control_allow_credentials::AccessControlAllowCredentials;
pub use crate::access_control_allow_headers::AccessControlAllowHeaders;
pub use crate::access_control_allow_methods::{
    AccessControlAllowMethods, AccessControlAllowMethodsField,
};
pub use crate::access_control_allow_origin::{AccessControlAllowOrigin, allow_origin_of_own_text};
pub use crate::access_control_expose_headers::{
    AccessControlExposeHeaders, AccessControlExposeHeadersField,
};
pub use crate::access_control_max_age::AccessControlMaxAge;
pub use crate::access_control_request_headers::{
    AccessControlRequestHeaders, AccessControlRequestHeadersField,
};
pub use crate::access_control_request_method::{
    AccessControlRequestMethod, request_methods_read_back,
};

//! Headers of one connection, and of its change to WebSocket (RFC 9110, sections 7.6.1, 7.8, 10.1.1 and 10.1.4;
//! RFC 9112, section 6.1; RFC 6455, section 11.3).
#![tactic(auto)]

mod connection;
mod expect;
mod sec_websocket_accept;
mod sec_websocket_key;
mod sec_websocket_version;
mod te;
mod transfer_encoding;
mod upgrade;

pub use crate::connection::{AsConnectionOption, Connection};
pub use crate::expect::Expect;
pub use crate::sec_websocket_accept::SecWebsocketAccept;
pub use crate::sec_websocket_key::SecWebsocketKey;
pub use crate::sec_websocket_version::SecWebsocketVersion;
pub use crate::te::Te;
pub use crate::transfer_encoding::TransferEncoding;
pub use crate::upgrade::Upgrade;

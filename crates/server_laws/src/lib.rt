//! What the file server of `server_service` sends, as theorems over its definitions and those of
//! `server_connection`.
#![tactic(auto)]

pub mod laws;

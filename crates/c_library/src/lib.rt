//! Calls for C over the proved headers: bytes in, numbers and bytes out. `include/typed_headers.h`
//! documents them for their callers, and `build_c` makes the library.
#![tactic(auto)]

mod cache;
mod cache_control;
mod canonical;
mod connection;
mod cors;
mod field;
mod fields;
mod files;
mod formats;
mod gate;
mod gateway;
mod giving;
mod handshake;
mod media_type;
mod negotiation;
mod policies;
mod pool;
mod preconditions;
mod ranges;
mod resource;
mod response;
mod sections;
mod selection;
mod store;
mod tags;
mod typed;

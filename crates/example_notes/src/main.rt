//! A small JSON resource over standard input and output, for one connection: a collection at
//! `/notes`, and its notes at `/notes/1`, `/notes/2` and so on. Nothing is stored after the
//! connection.
//!
//! With `--replay` it gives the same answers each time: without Date, and with tags that aren't
//! random.
#![tactic(auto)]

mod clock;
mod notes;
mod perform;
mod resource;
mod service;
mod target;
mod text;

use crate::clock::OptionalClock;
use crate::service::new_service;
use http_server::Config;
use server_connection::serve_exchanges;
use std::env;
use std::hash::{BuildHasher, RandomState};
use std::process::ExitCode;

fn main(rt: HostRuntime) -> anyhow::Result<ExitCode> {
    let alloc = rt.alloc();
    let keys = RandomState::new(&rt)?;
    let words: Vec<String> = env::args(&rt)?.collect(alloc)?;
    let is_replayed = words.iter().any(|word| word.as_str() == "--replay");
    let series = if is_replayed {
        0
    } else {
        RandomState::new(&rt)?.hash_one(0u64)
    };
    let mut service = new_service(alloc, series, OptionalClock::new(&rt, !is_replayed))?;
    let (mut reader, mut writer) = (rt.stdin(), rt.stdout());
    match serve_exchanges(
        alloc,
        keys,
        Config::default(),
        &mut service,
        &mut reader,
        &mut writer,
    ) {
        Ok(()) => Ok(ExitCode::SUCCESS),
        Err(_) => Ok(ExitCode::FAILURE),
    }
}

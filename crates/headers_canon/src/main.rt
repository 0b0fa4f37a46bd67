//! Prints the canonical lines of a header section.
#![tactic(auto)]

use headers_section::{exit_status, run_with_system_keys};
use std::hash::RandomState;
use std::process::ExitCode;

fn main(rt: HostRuntime) -> ExitCode {
    let keys = RandomState::new(&rt);
    let answer = run_with_system_keys(rt.alloc(), keys, &mut rt.stdin(), &mut rt.stdout());
    ExitCode::from(exit_status(&answer))
}

//! Makes the calls of the test cases in the files that it is given, and prints those that are answered
//! otherwise than is wanted.
#![tactic(auto)]

use std::process::ExitCode;
use test_http::Http;
use test_parts::Parts;
use test_rows::replay_files;

/// The calls of the port.
type Port = (Http, Parts);

fn main(rt: HostRuntime) -> anyhow::Result<ExitCode> {
    replay_files::<Port, _>(&rt)
}

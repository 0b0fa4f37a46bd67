//! Which requests a route is for.
ghost use Rattle.std.specs.Prelude.{◌≡◌, Ok};
ghost use Rattle.headers_syntax.specs.AsciiCase.{same_name};
ghost use Rattle.c_decisions.specs.Flags.{flag_of};
ghost use Rattle.c_handles.specs.Handles.{OnHeld};
ghost use Rattle.c_gate.specs.{Calls.gate_in, Routes.{is_below, is_edge, is_for, is_host}, Texts.of_asked};

use crate::calling::ask;
use c_decisions::flag_of;
use c_handles::{Handle, HeldGate};
use c_parts::Failure;
use c_typed::is_port_part;
use gateway_exchange::AskedRequest;
use std::alloc::Global;

fn is_same(host: &[u8], other: &[u8]) -> bool
    ensures { result ≡ same_name host.now other.now }
{
    host.eq_ignore_ascii_case(other)
}

fn is_host(host: &[u8], authority: &[u8]) -> bool
    ensures { result ≡ is_host host.now authority.now }
{
    host.is_empty()
        || (host.len() <= authority.len()
            && is_same(host, &authority[..host.len()])
            && is_port_part(&authority[host.len()..]))
}

fn is_edge(rest: &[u8]) -> bool
    ensures { result ≡ is_edge rest.now }
{
    match rest {
        [] => true,
        [byte, ..] => *byte == b'/' || *byte == b'?',
    }
}

fn is_below(path: &[u8], target: &[u8]) -> bool
    ensures { result ≡ is_below path.now target.now }
{
    target.starts_with(path) && (path.ends_with(b"/") || is_edge(&target[path.len()..]))
}

fn is_for_asked(host: &[u8], path: &[u8], request: &AskedRequest) -> bool
    ensures { result ≡ is_for host.now path.now request.now }
{
    is_host(host, request.authority()) && is_below(path, request.outgoing.target.as_slice())
}

fn is_for_in(gate: &HeldGate, host: &[u8], path: &[u8]) -> Result<u8, Failure>
    ensures { result ≡ of_asked (λ a. Ok (flag_of (is_for host.now path.now a))) gate.now.connection.asked }
{
    match gate.connection.request() {
        Some(request) => Ok(flag_of(is_for_asked(host, path, request))),
        None => Err(Failure::Absent),
    }
}

/// Whether (1 or 0) the request that waits, or is passed on, is for this host, in any case and at any port (RFC 9110,
/// section 4.2.3), and below this path. An empty host is each one.
pub fn is_for(alloc: Global, handle: &mut Handle, host: &[u8], path: &[u8]) -> Result<u8, Failure>
    ensures same { handle.new.held ≡ handle.old.held }
    ensures answer { OnHeld (λ gate answer. answer ≡ of_asked (λ a. Ok (flag_of (is_for host.now path.now a)))
        gate.connection.asked) (gate_in handle.old.held) result }
{
    ask(alloc, handle, |gate| is_for_in(gate, host, path))
}

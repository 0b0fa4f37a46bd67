//! CONNECT: which target it may go to, and the tunnel there (RFC 9110, section 9.3.6).
ghost use Rattle.std.specs.Prelude.{◌≡◌};
ghost use Rattle.headers_section.specs.Section.{input_lines};
ghost use Rattle.headers_syntax.specs.AsciiCase.{same_name};
ghost use Rattle.gateway_exchange.specs.Steps.{Connects};
ghost use Rattle.c_gate.specs.{Calls.{Does, OnGate}, Connecting.{ConnectsAt, ConnectsTo, place_asked}};
ghost use Rattle.c_gate.specs.Connecting.{place_for, place_in};

use crate::calling::change;
use c_handles::{Handle, HeldGate};
use c_parts::{Failure, cut_line};
use gateway_exchange::AskedRequest;
use http::{Method, StatusCode};
use std::alloc::Global;

fn is_target(target: &[u8], authority: &[u8]) -> bool
    ensures { result ≡ same_name target.now authority.now }
{
    target.eq_ignore_ascii_case(authority)
}

// The number of the first of these lines that is the authority.
#[tactic(auto, using(crate::proofs::ConnectLemmas::place_is))]
fn place_of(authority: &[u8], targets: &[u8]) -> Option<u64>
    ensures { result ≡ place_in (input_lines targets.now) authority.now }
{
    let mut rest = targets;
    let mut place = 0;
    loop {
        let (target, after) = cut_line(rest);
        let is_here = is_target(target, authority);
        let Some(after) = after else {
            return is_here.then_some(place);
        };
        if is_here {
            return Some(place);
        }
        rest = after;
        place += 1;
    }
}

// The same of the target of a CONNECT. `None` if the request is no CONNECT.
fn place_for(request: &AskedRequest, targets: &[u8]) -> Option<Option<u64>>
    ensures { result ≡ place_for targets.now request.now }
{
    if request.head.method == Method::CONNECT {
        Some(place_of(request.outgoing.target.as_slice(), targets))
    } else {
        None
    }
}

fn place_asked(gate: &HeldGate, targets: &[u8]) -> Option<Option<u64>>
    ensures { result ≡ place_asked targets.now gate.now.connection.asked }
{
    match gate.connection.request() {
        Some(request) => place_for(request, targets),
        None => None,
    }
}

// No request follows a CONNECT.
fn connect_at(gate: &mut HeldGate, place: Option<u64>) -> Result<u64, Failure>
    ensures { ConnectsAt place gate.old gate.new result }
{
    gate.connection.close_after();
    match place {
        Some(place) => Ok(place),
        None => {
            gate.connection.answer(StatusCode::FORBIDDEN);
            Err(Failure::Refused)
        }
    }
}

fn connect_to_in(gate: &mut HeldGate, targets: &[u8]) -> Result<u64, Failure>
    ensures { ConnectsTo targets.now gate.old gate.new result }
{
    match place_asked(gate, targets) {
        Some(place) => connect_at(gate, place),
        None => Err(Failure::Absent),
    }
}

/// The number of the first of these authorities, one a line, that the CONNECT that waits is for. If it is for none,
/// it is answered by 403, and the answer is `Refused`. `Absent` if none waits. Unless a tunnel follows, the
/// connection ends after the response, since what follows a CONNECT may be no request.
pub fn connect_to(alloc: Global, handle: &mut Handle, targets: &[u8]) -> Result<u64, Failure>
    ensures { OnGate (ConnectsTo targets.now) handle.old.held handle.new.held result }
{
    change(alloc, handle, |gate| connect_to_in(gate, targets))
}

fn connected_in(gate: &mut HeldGate) -> Result<(), Failure>
    ensures { Does Connects gate.old gate.new result }
{
    gate.connection.connected();
    Ok(())
}

/// Answers the CONNECT that waits by 200: a connection to its target stands.
pub fn connected(alloc: Global, handle: &mut Handle) -> Result<(), Failure>
    ensures { OnGate (Does Connects) handle.old.held handle.new.held result }
{
    change(alloc, handle, connected_in)
}

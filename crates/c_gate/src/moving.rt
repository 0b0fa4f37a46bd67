//! The bytes of either side, and what comes next.
ghost use Rattle.std.specs.Prelude.{◌≡◌, ◌++◌, IfOk, OnOk, Some};
ghost use Rattle.headers_section.specs.Section.{input_lines};
ghost use Rattle.gateway_exchange.specs.Steps.{TimesOut};
ghost use Rattle.c_gate.specs.Calls.{Does, OnGate, rules_in};
ghost use Rattle.c_gate.specs.Moves.{Asks, ClientHandsOut, Finishes, GateFinishes, GateHandsOut, GateReceives};
ghost use Rattle.c_gate.specs.Moves.{GateTells, IsTunnelOf, OpensTunnel, OriginHandsOut, Receives, Sent, TellsNext};
ghost use Rattle.c_gate.specs.Moves.{TunnelClientHandsOut, TunnelFinishes, TunnelHandsOut, TunnelOriginHandsOut};
ghost use Rattle.c_gate.specs.Moves.{SetsClock, TunnelReceives, crlf_line, is_gate, lines_text, request_text};
ghost use Rattle.c_gate.specs.Numbers.{event_number, facts_of, phase_number, piece_len, tunnel_facts};

use crate::calling::{change, change_either};
use c_gateway::read_date;
use c_handles::{Handle, Held, HeldGate};
use c_parts::{Failure, cut_line};
use gateway_exchange::{
    ExchangePhase, GatewayConnection, GatewayEvent, GatewayRules, Tunnel, Wants,
};
use std::alloc::{AllocError, Global};

/// What comes next on a connection, what it does, and what to wait for.
#[repr(C)]
#[derive(Clone, Copy)]
pub struct GateFacts {
    /// How many bytes the piece has that was passed to the client, if the event is that one was.
    pub piece: u64,
    /// The number of the event.
    pub event: u8,
    /// The number of the phase.
    pub phase: u8,
    /// Whether to receive bytes of the client.
    pub client_input: bool,
    /// Whether bytes wait to be written to the client.
    pub client_output: bool,
    /// Whether to receive bytes of the origin.
    pub origin_input: bool,
    /// Whether bytes wait to be written to the origin.
    pub origin_output: bool,
    /// Whether the client of a tunnel gets nothing more.
    pub ends_client: bool,
    /// Whether the origin of a tunnel gets nothing more.
    pub ends_origin: bool,
}

fn gate_receive(gate: &mut HeldGate, side: u8, bytes: &[u8]) -> Result<(), Failure>
    ensures { GateReceives side bytes.now gate.old gate.new result }
{
    match side {
        0 => Ok(gate.connection.client_receive(bytes)?),
        1 => Ok(gate.connection.origin_receive(bytes)?),
        _ => Err(Failure::Refused),
    }
}

fn tunnel_receive(tunnel: &mut Tunnel, side: u8, bytes: &[u8]) -> Result<(), Failure>
    ensures { TunnelReceives side bytes.now tunnel.old tunnel.new result }
{
    match side {
        0 => Ok(tunnel.client_receive(bytes)?),
        1 => Ok(tunnel.origin_receive(bytes)?),
        _ => Err(Failure::Refused),
    }
}

/// Receives all of these bytes, or none, as those of the side of this number: 0 for the client, 1 for the origin.
/// Rejected if it is another.
pub fn receive(alloc: Global, handle: &mut Handle, side: u8, bytes: &[u8]) -> Result<(), Failure>
    ensures { Receives side bytes.now handle.old.held handle.new.held result }
{
    change_either(
        alloc,
        handle,
        |gate| gate_receive(gate, side, bytes),
        |tunnel| tunnel_receive(tunnel, side, bytes),
    )
}

fn gate_finish(gate: &mut HeldGate, side: u8) -> Result<(), Failure>
    ensures { GateFinishes side gate.old gate.new result }
{
    match side {
        0 => gate.connection.client_finish(),
        1 => gate.connection.origin_finish(),
        _ => return Err(Failure::Refused),
    }
    Ok(())
}

fn tunnel_finish(tunnel: &mut Tunnel, side: u8) -> Result<(), Failure>
    ensures { TunnelFinishes side tunnel.old tunnel.new result }
{
    match side {
        0 => tunnel.client_finish(),
        1 => tunnel.origin_finish(),
        _ => return Err(Failure::Refused),
    }
    Ok(())
}

/// Says that the input of the side of this number ends here. Rejected if there is no such side.
pub fn finish(alloc: Global, handle: &mut Handle, side: u8) -> Result<(), Failure>
    ensures { Finishes side handle.old.held handle.new.held result }
{
    change_either(
        alloc,
        handle,
        |gate| gate_finish(gate, side),
        |tunnel| tunnel_finish(tunnel, side),
    )
}

fn client_sent(gate: &mut HeldGate, count: u64) -> Result<(), Failure>
    ensures { ClientHandsOut count gate.old gate.new result }
{
    if count > gate.connection.client_output().len() as u64 {
        return Err(Failure::Refused);
    }
    gate.connection.client_sent(count as usize);
    Ok(())
}

fn origin_sent(gate: &mut HeldGate, count: u64) -> Result<(), Failure>
    ensures { OriginHandsOut count gate.old gate.new result }
{
    if count > gate.connection.origin_output().len() as u64 {
        return Err(Failure::Refused);
    }
    gate.connection.origin_sent(count as usize);
    Ok(())
}

fn gate_sent(gate: &mut HeldGate, side: u8, count: u64) -> Result<(), Failure>
    ensures { GateHandsOut side count gate.old gate.new result }
{
    match side {
        0 => client_sent(gate, count),
        1 => origin_sent(gate, count),
        _ => Err(Failure::Refused),
    }
}

fn tunnel_client_sent(tunnel: &mut Tunnel, count: u64) -> Result<(), Failure>
    ensures { TunnelClientHandsOut count tunnel.old tunnel.new result }
{
    if count > tunnel.client_output().len() as u64 {
        return Err(Failure::Refused);
    }
    tunnel.client_sent(count as usize);
    Ok(())
}

fn tunnel_origin_sent(tunnel: &mut Tunnel, count: u64) -> Result<(), Failure>
    ensures { TunnelOriginHandsOut count tunnel.old tunnel.new result }
{
    if count > tunnel.origin_output().len() as u64 {
        return Err(Failure::Refused);
    }
    tunnel.origin_sent(count as usize);
    Ok(())
}

fn tunnel_sent(tunnel: &mut Tunnel, side: u8, count: u64) -> Result<(), Failure>
    ensures { TunnelHandsOut side count tunnel.old tunnel.new result }
{
    match side {
        0 => tunnel_client_sent(tunnel, count),
        1 => tunnel_origin_sent(tunnel, count),
        _ => Err(Failure::Refused),
    }
}

/// Says that so many of the bytes that wait for the side of this number were written. Rejected if fewer wait, or there
/// is no such side.
pub fn sent(alloc: Global, handle: &mut Handle, side: u8, count: u64) -> Result<(), Failure>
    ensures { Sent side count handle.old.held handle.new.held result }
{
    change_either(
        alloc,
        handle,
        |gate| gate_sent(gate, side, count),
        |tunnel| tunnel_sent(tunnel, side, count),
    )
}

fn event_number(event: GatewayEvent) -> u8
    ensures { result ≡ event_number event }
{
    match event {
        GatewayEvent::Waits => 0,
        GatewayEvent::Request => 1,
        GatewayEvent::Response => 2,
        GatewayEvent::Piece => 3,
        GatewayEvent::Again => 4,
        GatewayEvent::Exchanged => 5,
        GatewayEvent::Tunnel => 6,
        GatewayEvent::Closed => 7,
        GatewayEvent::Aborted => 8,
    }
}

fn phase_number(phase: ExchangePhase) -> u8
    ensures { result ≡ phase_number phase }
{
    match phase {
        ExchangePhase::Idle => 0,
        ExchangePhase::Head => 1,
        ExchangePhase::Asking => 2,
        ExchangePhase::Content => 3,
        ExchangePhase::Response => 4,
        ExchangePhase::Passing => 5,
        ExchangePhase::Giving => 6,
        ExchangePhase::Draining => 7,
        ExchangePhase::Over => 8,
    }
}

fn facts_of(event: GatewayEvent, phase: ExchangePhase, wants: Wants) -> GateFacts
    ensures { result ≡ facts_of event phase wants }
{
    GateFacts {
        piece: 0,
        event: event_number(event),
        phase: phase_number(phase),
        client_input: wants.client_input,
        client_output: wants.client_output,
        origin_input: wants.origin_input,
        origin_output: wants.origin_output,
        ends_client: false,
        ends_origin: false,
    }
}

// How long the piece is that was passed to the client, if the event is that one was.
fn piece_len(event: GatewayEvent, connection: &GatewayConnection) -> u64
    ensures { result ≡ piece_len event connection.now }
{
    match event {
        GatewayEvent::Piece => connection.piece().len() as u64,
        _ => 0,
    }
}

fn next_in(gate: &mut HeldGate, rules: &GatewayRules, now: u64) -> Result<GateFacts, Failure>
    ensures { GateTells rules.now now gate.old gate.new result }
{
    let date = read_date(now)?;
    let connection = &mut gate.connection;
    let event = connection.next(rules, date);
    let mut facts = facts_of(event, connection.phase(), connection.wants());
    facts.piece = piece_len(event, connection);
    Ok(facts)
}

fn set_clock_in(gate: &mut HeldGate, now: u64) -> Result<(), Failure>
    ensures { SetsClock now gate.old gate.new result }
{
    let date = read_date(now)?;
    gate.connection.set_clock(date)?;
    Ok(())
}

/// Says the time in seconds since 1970, which the gateway's own answers have as Date (RFC 9110, section 6.6.1).
/// Rejected if the second lies past the year 9999.
pub fn set_clock(alloc: Global, handle: &mut Handle, now: u64) -> Result<(), Failure>
    ensures { OnGate (SetsClock now) handle.old.held handle.new.held result }
{
    change(alloc, handle, |gate| set_clock_in(gate, now))
}

fn tunnel_facts(tunnel: &Tunnel) -> GateFacts
    ensures { result ≡ tunnel_facts tunnel.now }
{
    let mut facts = facts_of(GatewayEvent::Waits, ExchangePhase::Over, tunnel.wants());
    facts.ends_client = tunnel.ends_client();
    facts.ends_origin = tunnel.ends_origin();
    facts
}

fn next_by(alloc: Global, handle: &mut Handle, rules: &Held, now: u64) -> Result<GateFacts, Failure>
    ensures { TellsNext now (rules_in (Some rules.now)) handle.old.held handle.new.held result }
{
    let Held::GateRules(rules) = rules else {
        return Err(Failure::Absent);
    };
    change_either(
        alloc,
        handle,
        |gate| next_in(gate, rules, now),
        |tunnel| Ok(tunnel_facts(tunnel)),
    )
}

/// Says what comes next on a connection with these rules. A tunnel always waits. Rejected if the second lies past the
/// year 9999.
pub fn next(
    alloc: Global,
    handle: &mut Handle,
    rules: &mut Handle,
    now: u64,
) -> Result<GateFacts, Failure>
    ensures same { rules.new.held ≡ rules.old.held }
    ensures next { TellsNext now (rules_in rules.old.held) handle.old.held handle.new.held result }
{
    let Some(by) = rules.take(alloc) else {
        return Err(Failure::Absent);
    };
    let facts = next_by(alloc, handle, &by, now);
    rules.put(by);
    facts
}

fn is_gate(held: &Held) -> bool
    ensures { result ≡ is_gate held.now }
{
    match held {
        Held::Gate(_) => true,
        _ => false,
    }
}

fn tunnel_of(held: Held) -> Result<Tunnel, Failure>
    ensures { IsTunnelOf held result }
{
    match held {
        Held::Gate(gate) => Ok(gate.connection.into_tunnel()?),
        _ => Err(Failure::Absent),
    }
}

/// Goes on with the bytes of the other protocol, once the event says so. The handle is closed if an allocation fails.
pub fn open_tunnel(alloc: Global, handle: &mut Handle) -> Result<(), Failure>
    ensures { OpensTunnel handle.old.held handle.new.held result }
{
    let Some(held) = handle.take(alloc) else {
        return Err(Failure::Absent);
    };
    if !is_gate(&held) {
        handle.put(held);
        return Err(Failure::Absent);
    }
    let tunnel = tunnel_of(Box::into_inner(held))?;
    handle.put(Box::new(alloc, Held::Tunnel(tunnel))?);
    Ok(())
}

fn push_line(text: &mut Vec<u8>, line: &[u8]) -> Result<(), AllocError>
    ensures { OnOk result (text.new.items ≡ text.old.items ++ crlf_line line.now) }
{
    text.extend_from_slice(line)?;
    text.extend_from_slice(b"\r\n")
}

// Adds the lines of a section that aren't empty.
fn push_section(text: &mut Vec<u8>, section: &[u8]) -> Result<(), AllocError>
    ensures { OnOk result (text.new.items ≡ text.old.items ++ lines_text (input_lines section.now)) }
{
    let mut rest = section;
    loop {
        let (line, after) = cut_line(rest);
        if !line.is_empty() {
            push_line(text, line)?;
        }
        match after {
            Some(after) => rest = after,
            None => return Ok(()),
        }
    }
}

// A request without content, as a client sends it.
fn request_text(
    alloc: Global,
    method: &[u8],
    target: &[u8],
    section: &[u8],
) -> Result<Vec<u8>, AllocError>
    ensures { IfOk result (λ text. text.items ≡ request_text method.now target.now section.now) }
{
    let mut text = Vec::new(alloc);
    text.extend_from_slice(method)?;
    text.extend_from_slice(b" ")?;
    text.extend_from_slice(target)?;
    text.extend_from_slice(b" HTTP/1.1\r\n")?;
    push_section(&mut text, section)?;
    text.extend_from_slice(b"\r\n")?;
    Ok(text)
}

fn ask_in(
    alloc: Global,
    gate: &mut HeldGate,
    method: &[u8],
    target: &[u8],
    section: &[u8],
) -> Result<(), Failure>
    ensures { Asks method.now target.now section.now gate.old gate.new result }
{
    let text = request_text(alloc, method, target, section)?;
    Ok(gate.connection.client_receive(text.as_slice())?)
}

/// Receives a request without content as the client's, as for a validation that answers nobody.
pub fn ask_for(
    alloc: Global,
    handle: &mut Handle,
    method: &[u8],
    target: &[u8],
    section: &[u8],
) -> Result<(), Failure>
    ensures { OnGate (Asks method.now target.now section.now) handle.old.held handle.new.held result }
{
    change(
        alloc,
        handle,
        |gate| ask_in(alloc, gate, method, target, section),
    )
}

fn timed_out_in(gate: &mut HeldGate) -> Result<(), Failure>
    ensures { Does TimesOut gate.old gate.new result }
{
    gate.connection.timed_out();
    Ok(())
}

/// Says that the time limit of the phase is over.
pub fn timed_out(alloc: Global, handle: &mut Handle) -> Result<(), Failure>
    ensures { OnGate (Does TimesOut) handle.old.held handle.new.held result }
{
    change(alloc, handle, timed_out_in)
}

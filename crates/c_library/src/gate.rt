//! A gateway's connection, behind a handle.
ghost use Rattle.std.specs.Prelude.{◌≡◌, None, Ok, length};
ghost use Rattle.gateway_exchange.specs.Steps.{AsksAgain, Connects, Passes, TimesOut};
ghost use Rattle.c_parts.specs.Endings.{Gives, TellsAndWrites, Writes, done};
ghost use Rattle.c_decisions.specs.Flags.{flag_of};
ghost use Rattle.c_handles.specs.Handles.{OnHeld, Opens};
ghost use Rattle.c_gate.specs.Answers.{AddsSection, AnswersNumber, EndsPieces, PushesPiece, Responds};
ghost use Rattle.c_gate.specs.{Calls.{Does, OnGate, gate_in, rules_in}, Moves.{Asks, Finishes, OpensTunnel, Receives}};
ghost use Rattle.c_gate.specs.{Moves.{Sent, SetsClock, TellsNext}, Openings.{IsGateHeld, IsOriginHeld, IsRulesHeld}};
ghost use Rattle.c_gate.specs.Connecting.{ConnectsTo};
ghost use Rattle.c_gate.specs.Origins.{Forwards, LastAfterNext, SetsConditions, TakesOver};
ghost use Rattle.c_gate.specs.Routes.{is_for};
ghost use Rattle.c_gate.specs.Texts.{AreFields, IsAnswered, IsFront, IsKey, Shows, of_asked, outputs_in, own_answer};
ghost use Rattle.c_gate.specs.declared.reading.GateText.TheVariants.{Authority, Field, Method, Piece, Target};
ghost use Rattle.c_library.specs.CacheStore.{Ends};

use crate::giving::give;
use crate::store::ended;
use c_gate::{
    GateFacts, GatePeer, GateRules, GateText, add, again, answer, ask_for, closes_after,
    connect_to, connected, end, fields_of, finish, forward, is_for, key_of, next, open_gate,
    open_origin, open_rules, open_tunnel, own_of, pass, push, receive, respond, response_of, sent,
    set_clock, set_conditions, take_origin, timed_out, write_output, write_text,
};
use c_gateway::GatewayOptions;
use c_handles::{Handle, close};
use c_parts::{DONE, HashKeys, copy_into};
use std::alloc::Global;

/// Closes a handle, and frees what it has.
#[unsafe(no_mangle)]
pub extern "C" fn typed_headers_gate_rules_free(alloc: Global, rules: &mut Handle) -> u8
    ensures { (result ≡ 0) × (rules.new.held ≡ None) }
{
    close(alloc, rules);
    DONE
}

/// Closes a handle, and frees what it has.
#[unsafe(no_mangle)]
pub extern "C" fn typed_headers_gate_free(alloc: Global, gate: &mut Handle) -> u8
    ensures { (result ≡ 0) × (gate.new.held ≡ None) }
{
    close(alloc, gate);
    DONE
}

/// Closes a handle, and frees what it has.
#[unsafe(no_mangle)]
pub extern "C" fn typed_headers_gate_origin_free(alloc: Global, origin: &mut Handle) -> u8
    ensures { (result ≡ 0) × (origin.new.held ≡ None) }
{
    close(alloc, origin);
    DONE
}

/// Opens a closed handle with the rules of a gateway.
#[unsafe(no_mangle)]
pub extern "C" fn typed_headers_gate_rules_new(
    alloc: Global,
    rules: &mut Handle,
    gateway: &GatewayOptions<'_>,
    options: &GateRules<'_>,
) -> u8
    ensures { Ends (Opens (IsRulesHeld gateway.entry.now options.entry.now) rules.old.held rules.new.held) result }
{
    ended(open_rules(alloc, rules, gateway, options))
}

/// Opens a closed handle with a connection that has received nothing.
#[unsafe(no_mangle)]
pub extern "C" fn typed_headers_gate_new(
    alloc: Global,
    gate: &mut Handle,
    peer: &GatePeer<'_>,
    most_head: usize,
    keys: &HashKeys,
) -> u8
    ensures { Ends (Opens (IsGateHeld peer.entry.now most_head) gate.old.held gate.new.held) result }
{
    ended(open_gate(alloc, gate, peer, most_head, keys))
}

/// Opens a closed handle with a new connection to an origin.
#[unsafe(no_mangle)]
pub extern "C" fn typed_headers_gate_origin_new(
    alloc: Global,
    origin: &mut Handle,
    most_head: usize,
    keys: &HashKeys,
) -> u8
    ensures { Ends (Opens (IsOriginHeld most_head) origin.old.held origin.new.held) result }
{
    ended(open_origin(alloc, origin, most_head, keys))
}

/// Says what comes next.
#[unsafe(no_mangle)]
pub extern "C" fn typed_headers_gate_next(
    alloc: Global,
    gate: &mut Handle,
    rules: &mut Handle,
    now: u64,
    facts: &mut GateFacts,
) -> u8
    ensures same { rules.new.held ≡ rules.old.held }
    ensures next { Gives (TellsNext now (rules_in rules.old.held) gate.old.held gate.new.held)
        facts.old facts.new result }
{
    give(next(alloc, gate, rules, now), facts)
}

/// Receives all of these bytes, or none.
#[unsafe(no_mangle)]
pub extern "C" fn typed_headers_gate_receive(
    alloc: Global,
    gate: &mut Handle,
    side: u8,
    input: &[u8],
) -> u8
    ensures { Ends (Receives side input.now gate.old.held gate.new.held) result }
{
    ended(receive(alloc, gate, side, input))
}

/// Says that the input of a side ends here.
#[unsafe(no_mangle)]
pub extern "C" fn typed_headers_gate_finish(alloc: Global, gate: &mut Handle, side: u8) -> u8
    ensures { Ends (Finishes side gate.old.held gate.new.held) result }
{
    ended(finish(alloc, gate, side))
}

/// Copies the first bytes that wait to be written to a side.
#[unsafe(no_mangle)]
pub extern "C" fn typed_headers_gate_output(
    alloc: Global,
    gate: &mut Handle,
    side: u8,
    room: &mut [u8],
    written: &mut usize,
) -> u8
    ensures same { gate.new.held ≡ gate.old.held }
    ensures output { Writes (λ bytes. bytes) (λ _. done)
        (OnHeld (IsFront side (length room.old)) (outputs_in gate.old.held))
        room.old room.new written.old written.new result }
{
    write_output(alloc, gate, side, room, written)
}

/// Says that so many of them were written.
#[unsafe(no_mangle)]
pub extern "C" fn typed_headers_gate_sent(
    alloc: Global,
    gate: &mut Handle,
    side: u8,
    count: u64,
) -> u8
    ensures { Ends (Sent side count gate.old.held gate.new.held) result }
{
    ended(sent(alloc, gate, side, count))
}

/// Says the time.
#[unsafe(no_mangle)]
pub extern "C" fn typed_headers_gate_clock(alloc: Global, gate: &mut Handle, now: u64) -> u8
    ensures { Ends (OnGate (SetsClock now) gate.old.held gate.new.held) result }
{
    ended(set_clock(alloc, gate, now))
}

/// Says that the time limit of the phase is over.
#[unsafe(no_mangle)]
pub extern "C" fn typed_headers_gate_timed_out(alloc: Global, gate: &mut Handle) -> u8
    ensures { Ends (OnGate (Does TimesOut) gate.old.held gate.new.held) result }
{
    ended(timed_out(alloc, gate))
}

/// Says that the connection ends after the next response.
#[unsafe(no_mangle)]
pub extern "C" fn typed_headers_gate_close_after(alloc: Global, gate: &mut Handle) -> u8
    ensures { Ends (OnGate (Does LastAfterNext) gate.old.held gate.new.held) result }
{
    ended(closes_after(alloc, gate))
}

/// Writes the method of the request.
#[unsafe(no_mangle)]
pub extern "C" fn typed_headers_gate_method(
    alloc: Global,
    gate: &mut Handle,
    room: &mut [u8],
    written: &mut usize,
) -> u8
    ensures { Shows Method gate.old.held gate.new.held room.old room.new written.old written.new result }
{
    write_text(alloc, gate, GateText::Method, room, written)
}

/// Writes its target, as it is sent.
#[unsafe(no_mangle)]
pub extern "C" fn typed_headers_gate_target(
    alloc: Global,
    gate: &mut Handle,
    room: &mut [u8],
    written: &mut usize,
) -> u8
    ensures { Shows Target gate.old.held gate.new.held room.old room.new written.old written.new result }
{
    write_text(alloc, gate, GateText::Target, room, written)
}

/// Writes the host that it is for.
#[unsafe(no_mangle)]
pub extern "C" fn typed_headers_gate_authority(
    alloc: Global,
    gate: &mut Handle,
    room: &mut [u8],
    written: &mut usize,
) -> u8
    ensures { Shows Authority gate.old.held gate.new.held room.old room.new written.old written.new result }
{
    write_text(alloc, gate, GateText::Authority, room, written)
}

/// Writes the URI of its target.
#[unsafe(no_mangle)]
pub extern "C" fn typed_headers_gate_key(
    alloc: Global,
    gate: &mut Handle,
    room: &mut [u8],
    written: &mut usize,
) -> u8
    ensures same { gate.new.held ≡ gate.old.held }
    ensures key { Writes (λ text. text.items) (λ _. done) (OnHeld IsKey (gate_in gate.old.held))
        room.old room.new written.old written.new result }
{
    match key_of(alloc, gate) {
        Ok(text) => copy_into(text.as_slice(), DONE, room, written),
        Err(failure) => failure.status(),
    }
}

/// Writes the first line of its field of this name.
#[unsafe(no_mangle)]
pub extern "C" fn typed_headers_gate_field(
    alloc: Global,
    gate: &mut Handle,
    name: &[u8],
    room: &mut [u8],
    written: &mut usize,
) -> u8
    ensures { Shows (Field name.entry) gate.old.held gate.new.held room.old room.new written.old written.new result }
{
    write_text(alloc, gate, GateText::Field(name), room, written)
}

/// Writes its field lines.
#[unsafe(no_mangle)]
pub extern "C" fn typed_headers_gate_fields(
    alloc: Global,
    gate: &mut Handle,
    room: &mut [u8],
    written: &mut usize,
) -> u8
    ensures same { gate.new.held ≡ gate.old.held }
    ensures fields { Writes (λ text. text.items) (λ _. done) (OnHeld AreFields (gate_in gate.old.held))
        room.old room.new written.old written.new result }
{
    match fields_of(alloc, gate) {
        Ok(text) => copy_into(text.as_slice(), DONE, room, written),
        Err(failure) => failure.status(),
    }
}

/// Gives whether the request is for this host, and below this path.
#[unsafe(no_mangle)]
pub extern "C" fn typed_headers_gate_is_for(
    alloc: Global,
    gate: &mut Handle,
    host: &[u8],
    path: &[u8],
    answer: &mut u8,
) -> u8
    ensures same { gate.new.held ≡ gate.old.held }
    ensures answer { Gives (OnHeld (λ held given. given
        ≡ of_asked (λ a. Ok (flag_of (is_for host.now path.now a))) held.connection.asked) (gate_in gate.old.held))
        answer.old answer.new result }
{
    give(is_for(alloc, gate, host, path), answer)
}

/// Gives which of these targets the CONNECT that waits is for, or answers it by 403.
#[unsafe(no_mangle)]
pub extern "C" fn typed_headers_gate_connect_to(
    alloc: Global,
    gate: &mut Handle,
    targets: &[u8],
    number: &mut u64,
) -> u8
    ensures { Gives (OnGate (ConnectsTo targets.now) gate.old.held gate.new.held) number.old number.new result }
{
    give(connect_to(alloc, gate, targets), number)
}

/// Answers it by 200.
#[unsafe(no_mangle)]
pub extern "C" fn typed_headers_gate_connected(alloc: Global, gate: &mut Handle) -> u8
    ensures { Ends (OnGate (Does Connects) gate.old.held gate.new.held) result }
{
    ended(connected(alloc, gate))
}

/// Puts other conditions in place of its own.
#[unsafe(no_mangle)]
pub extern "C" fn typed_headers_gate_conditions(
    alloc: Global,
    gate: &mut Handle,
    section: &[u8],
    keys: &HashKeys,
) -> u8
    ensures { Ends (OnGate (SetsConditions section.now) gate.old.held gate.new.held) result }
{
    ended(set_conditions(alloc, gate, section, keys))
}

/// Sends it over a connection to an origin.
#[unsafe(no_mangle)]
pub extern "C" fn typed_headers_gate_forward(
    alloc: Global,
    gate: &mut Handle,
    origin: &mut Handle,
) -> u8
    ensures { Ends (Forwards gate.old.held gate.new.held origin.old.held origin.new.held) result }
{
    ended(forward(alloc, gate, origin))
}

/// Drops the response that waits, and asks again.
#[unsafe(no_mangle)]
pub extern "C" fn typed_headers_gate_again(alloc: Global, gate: &mut Handle) -> u8
    ensures { Ends (OnGate (Does AsksAgain) gate.old.held gate.new.held) result }
{
    ended(again(alloc, gate))
}

/// Answers it without content.
#[unsafe(no_mangle)]
pub extern "C" fn typed_headers_gate_answer(alloc: Global, gate: &mut Handle, status: u16) -> u8
    ensures { Ends (OnGate (AnswersNumber status) gate.old.held gate.new.held) result }
{
    ended(answer(alloc, gate, status))
}

/// Begins a response of the caller's.
#[unsafe(no_mangle)]
pub extern "C" fn typed_headers_gate_respond(
    alloc: Global,
    gate: &mut Handle,
    status: u16,
    section: &[u8],
    length: u64,
    keys: &HashKeys,
) -> u8
    ensures { Ends (OnGate (Responds status length section.now) gate.old.held gate.new.held) result }
{
    ended(respond(alloc, gate, status, section, length, keys))
}

/// Adds a piece to its content.
#[unsafe(no_mangle)]
pub extern "C" fn typed_headers_gate_push(alloc: Global, gate: &mut Handle, piece: &[u8]) -> u8
    ensures { Ends (OnGate (PushesPiece piece.now) gate.old.held gate.new.held) result }
{
    ended(push(alloc, gate, piece))
}

/// Ends it.
#[unsafe(no_mangle)]
pub extern "C" fn typed_headers_gate_end(alloc: Global, gate: &mut Handle) -> u8
    ensures { Ends (OnGate EndsPieces gate.old.held gate.new.held) result }
{
    ended(end(alloc, gate))
}

/// Writes the status and the field lines of the origin's response.
#[unsafe(no_mangle)]
pub extern "C" fn typed_headers_gate_response(
    alloc: Global,
    gate: &mut Handle,
    status: &mut u16,
    room: &mut [u8],
    written: &mut usize,
) -> u8
    ensures same { gate.new.held ≡ gate.old.held }
    ensures response { TellsAndWrites (λ told. told.0) (λ told. told.1.items)
        (OnHeld IsAnswered (gate_in gate.old.held)) status.old status.new
        room.old room.new written.old written.new result }
{
    match response_of(alloc, gate) {
        Ok((code, text)) => {
            *status = code;
            copy_into(text.as_slice(), DONE, room, written)
        }
        Err(failure) => failure.status(),
    }
}

/// Adds these field lines to it.
#[unsafe(no_mangle)]
pub extern "C" fn typed_headers_gate_add(
    alloc: Global,
    gate: &mut Handle,
    section: &[u8],
    keys: &HashKeys,
) -> u8
    ensures { Ends (OnGate (AddsSection section.now) gate.old.held gate.new.held) result }
{
    ended(add(alloc, gate, section, keys))
}

/// Forwards it.
#[unsafe(no_mangle)]
pub extern "C" fn typed_headers_gate_pass(alloc: Global, gate: &mut Handle) -> u8
    ensures { Ends (OnGate (Does Passes) gate.old.held gate.new.held) result }
{
    ended(pass(alloc, gate))
}

/// Writes the piece of it that was passed to the client last.
#[unsafe(no_mangle)]
pub extern "C" fn typed_headers_gate_piece(
    alloc: Global,
    gate: &mut Handle,
    room: &mut [u8],
    written: &mut usize,
) -> u8
    ensures { Shows Piece gate.old.held gate.new.held room.old room.new written.old written.new result }
{
    write_text(alloc, gate, GateText::Piece, room, written)
}

/// Opens a closed handle with the origin's connection.
#[unsafe(no_mangle)]
pub extern "C" fn typed_headers_gate_take(
    alloc: Global,
    gate: &mut Handle,
    origin: &mut Handle,
) -> u8
    ensures { Ends (TakesOver gate.old.held gate.new.held origin.old.held origin.new.held) result }
{
    ended(take_origin(alloc, gate, origin))
}

/// The status of the last answer, if it was the gateway's own.
#[unsafe(no_mangle)]
pub extern "C" fn typed_headers_gate_own(alloc: Global, gate: &mut Handle, status: &mut u16) -> u8
    ensures same { gate.new.held ≡ gate.old.held }
    ensures own { Gives (OnHeld (λ held answer. answer ≡ own_answer held.connection.own) (gate_in gate.old.held))
        status.old status.new result }
{
    give(own_of(alloc, gate), status)
}

/// Goes on with the bytes of the other protocol.
#[unsafe(no_mangle)]
pub extern "C" fn typed_headers_gate_tunnel(alloc: Global, gate: &mut Handle) -> u8
    ensures { Ends (OpensTunnel gate.old.held gate.new.held) result }
{
    ended(open_tunnel(alloc, gate))
}

/// Receives a request without content as the client's.
#[unsafe(no_mangle)]
pub extern "C" fn typed_headers_gate_ask(
    alloc: Global,
    gate: &mut Handle,
    method: &[u8],
    target: &[u8],
    section: &[u8],
) -> u8
    ensures { Ends (OnGate (Asks method.now target.now section.now) gate.old.held gate.new.held) result }
{
    ended(ask_for(alloc, gate, method, target, section))
}

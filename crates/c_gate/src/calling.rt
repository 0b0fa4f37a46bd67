//! Calls on the handle of a gateway's connection: one asks it and leaves it as it is, the others change it.
ghost use Rattle.std.{specs.Prelude.{◌≡◌, Some}, specs.Fn.{FnOnceReturnsAt, FnOnceReturnsAtMut}};
ghost use Rattle.c_handles.specs.Handles.{OnHeld};
ghost use Rattle.c_gate.specs.Calls.{OnEither, OnGate, gate_in};

use c_handles::{Handle, Held, HeldGate};
use c_parts::Failure;
use gateway_exchange::Tunnel;
use std::alloc::Global;

fn ask_in<V, F: FnOnce(&HeldGate) -> Result<V, Failure>>(
    held: &Held,
    question: F,
) -> Result<V, Failure>
    requires { F.IsAlwaysCallable question }
    ensures { OnHeld (FnOnceReturnsAt F.FnOnce question) (gate_in (Some held.now)) result }
{
    match held {
        Held::Gate(gate) => question(gate),
        _ => Err(Failure::Absent),
    }
}

/// Asks the connection that a handle has. `Absent` if it has none.
pub(crate) fn ask<V, F: FnOnce(&HeldGate) -> Result<V, Failure>>(
    alloc: Global,
    handle: &mut Handle,
    question: F,
) -> Result<V, Failure>
    requires { F.IsAlwaysCallable question }
    ensures same { handle.new.held ≡ handle.old.held }
    ensures answer { OnHeld (FnOnceReturnsAt F.FnOnce question) (gate_in handle.old.held) result }
{
    let Some(held) = handle.take(alloc) else {
        return Err(Failure::Absent);
    };
    let answer = ask_in(&held, question);
    handle.put(held);
    answer
}

fn change_in<V, F: FnOnce(&mut HeldGate) -> Result<V, Failure>>(
    held: &mut Held,
    step: F,
) -> Result<V, Failure>
    requires { F.IsAlwaysCallable step }
    ensures { OnGate (λ old new answer. FnOnceReturnsAtMut F.FnOnce step old answer new)
        (Some held.old) (Some held.new) result }
{
    match held {
        Held::Gate(gate) => step(gate),
        _ => Err(Failure::Absent),
    }
}

/// Makes this step with the connection that a handle has. `Absent` if it has none.
pub(crate) fn change<V, F: FnOnce(&mut HeldGate) -> Result<V, Failure>>(
    alloc: Global,
    handle: &mut Handle,
    step: F,
) -> Result<V, Failure>
    requires { F.IsAlwaysCallable step }
    ensures { OnGate (λ old new answer. FnOnceReturnsAtMut F.FnOnce step old answer new)
        handle.old.held handle.new.held result }
{
    let Some(mut held) = handle.take(alloc) else {
        return Err(Failure::Absent);
    };
    let answer = change_in(&mut held, step);
    handle.put(held);
    answer
}

fn change_either_in<
    V,
    F: FnOnce(&mut HeldGate) -> Result<V, Failure>,
    G: FnOnce(&mut Tunnel) -> Result<V, Failure>,
>(held: &mut Held, step: F, tunnel_step: G) -> Result<V, Failure>
    requires step { F.IsAlwaysCallable step }
    requires tunnel_step { G.IsAlwaysCallable tunnel_step }
    ensures { OnEither (λ old new answer. FnOnceReturnsAtMut F.FnOnce step old answer new)
        (λ old new answer. FnOnceReturnsAtMut G.FnOnce tunnel_step old answer new)
        (Some held.old) (Some held.new) result }
{
    match held {
        Held::Gate(gate) => step(gate),
        Held::Tunnel(tunnel) => tunnel_step(tunnel),
        _ => Err(Failure::Absent),
    }
}

/// Makes one of these steps, with the connection or the tunnel that a handle has. `Absent` if it has neither.
pub(crate) fn change_either<
    V,
    F: FnOnce(&mut HeldGate) -> Result<V, Failure>,
    G: FnOnce(&mut Tunnel) -> Result<V, Failure>,
>(alloc: Global, handle: &mut Handle, step: F, tunnel_step: G) -> Result<V, Failure>
    requires step { F.IsAlwaysCallable step }
    requires tunnel_step { G.IsAlwaysCallable tunnel_step }
    ensures { OnEither (λ old new answer. FnOnceReturnsAtMut F.FnOnce step old answer new)
        (λ old new answer. FnOnceReturnsAtMut G.FnOnce tunnel_step old answer new)
        handle.old.held handle.new.held result }
{
    let Some(mut held) = handle.take(alloc) else {
        return Err(Failure::Absent);
    };
    let answer = change_either_in(&mut held, step, tunnel_step);
    handle.put(held);
    answer
}

//! Calls on the handle of a connection: one asks it and leaves it as it is, the other changes it.
ghost use Rattle.std.{specs.Prelude.{◌≡◌, Some}, specs.Fn.{FnOnceReturnsAt, FnOnceReturnsAtMut}};
ghost use Rattle.c_handles.{specs.Handles.{OnHeld, connection_in}, specs.Views.IsSame};
ghost use Rattle.c_connection.specs.Calls.{OnConnection};

use c_handles::{Handle, Held, HeldConnection, Lent, View};
use c_parts::Failure;
use std::alloc::Global;

fn ask_in<V, F: FnOnce(&HeldConnection) -> Result<V, Failure>>(
    lent: &Lent,
    question: F,
) -> Result<V, Failure>
    requires { F.IsAlwaysCallable question }
    ensures { OnHeld (FnOnceReturnsAt F.FnOnce question) (connection_in lent.now.loan.held) result }
{
    match lent.connection() {
        Some(connection) => question(connection),
        None => Err(Failure::Absent),
    }
}

/// Asks the connection that a handle has. `Absent` if it has none.
pub(crate) fn ask<V, F: FnOnce(&HeldConnection) -> Result<V, Failure>>(
    view: &mut View,
    question: F,
) -> Result<V, Failure>
    requires { F.IsAlwaysCallable question }
    ensures same { IsSame view.old view.new }
    ensures answer { OnHeld (FnOnceReturnsAt F.FnOnce question) (connection_in view.old.held) result }
{
    let lent = view.take();
    let answer = ask_in(&lent, question);
    view.put(lent);
    answer
}

fn change_in<V, F: FnOnce(&mut HeldConnection) -> Result<V, Failure>>(
    held: &mut Held,
    step: F,
) -> Result<V, Failure>
    requires { F.IsAlwaysCallable step }
    ensures { OnConnection (λ old new answer. FnOnceReturnsAtMut F.FnOnce step old answer new)
        (Some held.old) (Some held.new) result }
{
    match held {
        Held::Connection(connection) => step(connection),
        _ => Err(Failure::Absent),
    }
}

/// Makes this step with the connection that a handle has. `Absent` if it has none.
pub(crate) fn change<V, F: FnOnce(&mut HeldConnection) -> Result<V, Failure>>(
    alloc: Global,
    handle: &mut Handle,
    step: F,
) -> Result<V, Failure>
    requires { F.IsAlwaysCallable step }
    ensures { OnConnection (λ old new answer. FnOnceReturnsAtMut F.FnOnce step old answer new)
        handle.old.held handle.new.held result }
{
    let Some(mut held) = handle.take(alloc) else {
        return Err(Failure::Absent);
    };
    let answer = change_in(&mut held, step);
    handle.put(held);
    answer
}

//! The connections to origins that a handle has.
ghost use Rattle.std.{specs.Prelude.{◌≡◌, Some}, specs.Fn.FnOnceReturnsAtMut};
ghost use Rattle.c_handles.specs.Handles.{Opens};
ghost use Rattle.c_gate.specs.Pool.{Ends, Goes, IsPoolHeld, Leases, MayGo, OnPool, Releases, facts_of, rules_of};
ghost use Rattle.gateway_pool.specs.Pools.{Event.FailedToOpen, Event.Finished, Event.Gone, Event.Opened};

use c_decisions::flag_of;
use c_handles::{Handle, Held};
use c_parts::Failure;
use gateway_pool::{Lease, Pool, PoolRules};
use std::alloc::Global;

/// The rules of a pool, as `PoolRules`.
#[repr(C)]
#[derive(Clone, Copy)]
pub struct PoolOptions {
    /// How many origins there are, numbered from 0.
    pub origins: usize,
    /// So many failures in turn, at least 1, and other origins are asked before this one,
    pub failures: u64,
    /// for so many milliseconds after the last of them.
    pub pause: u64,
    /// At most so many requests have a connection to one origin.
    pub most: u64,
    /// At most so many connections to one origin are kept idle.
    pub idle: u64,
    /// Whether the key of a request chooses its origin, and not the least use.
    pub hashes: bool,
}

/// Where a request goes out.
#[repr(C)]
#[derive(Clone, Copy)]
pub struct LeaseFacts {
    /// The number of the connection, if there is one.
    pub connection: u64,
    /// The number of its origin.
    pub origin: usize,
    /// 0 if the connection is idle, 1 if it is to be opened, 2 if each origin failed, 3 if none has room.
    pub kind: u8,
}

fn change_in<V, F: FnOnce(&mut Pool) -> Result<V, Failure>>(
    held: &mut Held,
    step: F,
) -> Result<V, Failure>
    requires { F.IsAlwaysCallable step }
    ensures { OnPool (λ old new answer. FnOnceReturnsAtMut F.FnOnce step old answer new)
        (Some held.old) (Some held.new) result }
{
    match held {
        Held::GatePool(pool) => step(pool),
        _ => Err(Failure::Absent),
    }
}

fn change<V, F: FnOnce(&mut Pool) -> Result<V, Failure>>(
    alloc: Global,
    handle: &mut Handle,
    step: F,
) -> Result<V, Failure>
    requires { F.IsAlwaysCallable step }
    ensures { OnPool (λ old new answer. FnOnceReturnsAtMut F.FnOnce step old answer new)
        handle.old.held handle.new.held result }
{
    let Some(mut held) = handle.take(alloc) else {
        return Err(Failure::Absent);
    };
    let answer = change_in(&mut held, step);
    handle.put(held);
    answer
}

fn pool_of(alloc: Global, options: &PoolOptions) -> Result<Held, Failure>
    ensures { IsPoolHeld options.now result }
{
    let rules = PoolRules {
        failures: options.failures,
        pause: options.pause,
        most: options.most,
        idle: options.idle,
        hashes: options.hashes,
    };
    Ok(Held::GatePool(Pool::new(alloc, rules, options.origins)?))
}

/// Opens a closed handle with a pool of origins that has no connection. Rejected if the handle is open.
pub fn open_pool(alloc: Global, handle: &mut Handle, options: &PoolOptions) -> Result<(), Failure>
    ensures { Opens (IsPoolHeld options.now) handle.old.held handle.new.held result }
{
    c_handles::open(alloc, handle, pool_of(alloc, options))
}

fn facts_of(lease: Lease) -> LeaseFacts
    ensures { result ≡ facts_of lease }
{
    match lease {
        Lease::Reuse(connection, origin) => LeaseFacts {
            connection,
            origin,
            kind: 0,
        },
        Lease::Open(connection, origin) => LeaseFacts {
            connection,
            origin,
            kind: 1,
        },
        Lease::NoOrigin => LeaseFacts {
            connection: 0,
            origin: 0,
            kind: 2,
        },
        Lease::Full => LeaseFacts {
            connection: 0,
            origin: 0,
            kind: 3,
        },
    }
}

fn lease_in(pool: &mut Pool, request: u64, now: u64, key: u64) -> Result<LeaseFacts, Failure>
    ensures { Leases request now key pool.old pool.new result }
{
    Ok(facts_of(pool.lease(request, now, key)?))
}

/// A connection for a request, at this time in milliseconds.
pub fn lease(
    alloc: Global,
    handle: &mut Handle,
    request: u64,
    now: u64,
    key: u64,
) -> Result<LeaseFacts, Failure>
    ensures { OnPool (Leases request now key) handle.old.held handle.new.held result }
{
    change(alloc, handle, |pool| lease_in(pool, request, now, key))
}

fn opened_in(pool: &mut Pool, connection: u64) -> Result<(), Failure>
    ensures { Goes (Opened connection) pool.old pool.new result }
{
    pool.opened(connection);
    Ok(())
}

/// A new connection was opened.
pub fn opened(alloc: Global, handle: &mut Handle, connection: u64) -> Result<(), Failure>
    ensures { OnPool (Goes (Opened connection)) handle.old.held handle.new.held result }
{
    change(alloc, handle, |pool| opened_in(pool, connection))
}

fn failed_in(pool: &mut Pool, connection: u64, now: u64) -> Result<(), Failure>
    ensures { MayGo (FailedToOpen connection now) pool.old pool.new result }
{
    Ok(pool.failed_to_open(connection, now)?)
}

/// A new connection couldn't be opened, at this time in milliseconds.
pub fn failed_to_open(
    alloc: Global,
    handle: &mut Handle,
    connection: u64,
    now: u64,
) -> Result<(), Failure>
    ensures { OnPool (MayGo (FailedToOpen connection now)) handle.old.held handle.new.held result }
{
    change(alloc, handle, |pool| failed_in(pool, connection, now))
}

fn ended_in(pool: &mut Pool, connection: u64) -> Result<u8, Failure>
    ensures { Ends connection pool.old pool.new result }
{
    Ok(flag_of(pool.ended(connection)?))
}

/// A connection ended before an answer. Whether (1 or 0) its request goes out again, on a new one.
pub fn ended(alloc: Global, handle: &mut Handle, connection: u64) -> Result<u8, Failure>
    ensures { OnPool (Ends connection) handle.old.held handle.new.held result }
{
    change(alloc, handle, |pool| ended_in(pool, connection))
}

fn release_in(pool: &mut Pool, connection: u64) -> Result<u8, Failure>
    ensures { Releases connection pool.old pool.new result }
{
    Ok(flag_of(pool.release(connection)))
}

/// The exchange on a connection is over. Whether (1 or 0) it is kept.
pub fn release(alloc: Global, handle: &mut Handle, connection: u64) -> Result<u8, Failure>
    ensures { OnPool (Releases connection) handle.old.held handle.new.held result }
{
    change(alloc, handle, |pool| release_in(pool, connection))
}

fn gone_in(pool: &mut Pool, connection: u64) -> Result<(), Failure>
    ensures { Goes (Gone connection) pool.old pool.new result }
{
    pool.gone(connection);
    Ok(())
}

/// A connection is closed, has ended, or had a byte that nobody asked for.
pub fn gone(alloc: Global, handle: &mut Handle, connection: u64) -> Result<(), Failure>
    ensures { OnPool (Goes (Gone connection)) handle.old.held handle.new.held result }
{
    change(alloc, handle, |pool| gone_in(pool, connection))
}

fn finished_in(pool: &mut Pool, request: u64) -> Result<(), Failure>
    ensures { Goes (Finished request) pool.old pool.new result }
{
    pool.finished(request);
    Ok(())
}

/// A request is over.
pub fn finished(alloc: Global, handle: &mut Handle, request: u64) -> Result<(), Failure>
    ensures { OnPool (Goes (Finished request)) handle.old.held handle.new.held result }
{
    change(alloc, handle, |pool| finished_in(pool, request))
}

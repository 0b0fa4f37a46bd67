//! A gateway's connections to origins, behind a handle.
ghost use Rattle.std.specs.Prelude.{◌≡◌, None};
ghost use Rattle.c_parts.specs.Endings.{Gives};
ghost use Rattle.c_handles.specs.Handles.{Opens};
ghost use Rattle.c_gate.specs.Pool.{Ends as EndsOne, Goes, IsPoolHeld, Leases, MayGo, OnPool, Releases};
ghost use Rattle.c_library.specs.CacheStore.{Ends};
ghost use Rattle.gateway_pool.specs.Pools.{Event.FailedToOpen, Event.Finished, Event.Gone, Event.Opened};

use crate::giving::give;
use crate::store::ended;
use c_gate::pool;
use c_gate::pool::{LeaseFacts, PoolOptions};
use c_handles::{Handle, close};
use c_parts::DONE;
use std::alloc::Global;

/// Closes a handle, and frees what it has.
#[unsafe(no_mangle)]
pub extern "C" fn typed_headers_gate_pool_free(alloc: Global, pool: &mut Handle) -> u8
    ensures { (result ≡ 0) × (pool.new.held ≡ None) }
{
    close(alloc, pool);
    DONE
}

/// Opens a closed handle with a pool without connections.
#[unsafe(no_mangle)]
pub extern "C" fn typed_headers_gate_pool_new(
    alloc: Global,
    pool: &mut Handle,
    options: &PoolOptions,
) -> u8
    ensures { Ends (Opens (IsPoolHeld options.now) pool.old.held pool.new.held) result }
{
    ended(pool::open_pool(alloc, pool, options))
}

/// Gives a connection for a request.
#[unsafe(no_mangle)]
pub extern "C" fn typed_headers_gate_pool_lease(
    alloc: Global,
    pool: &mut Handle,
    request: u64,
    now: u64,
    key: u64,
    lease: &mut LeaseFacts,
) -> u8
    ensures { Gives (OnPool (Leases request now key) pool.old.held pool.new.held) lease.old lease.new result }
{
    give(pool::lease(alloc, pool, request, now, key), lease)
}

/// Says that a new connection was opened.
#[unsafe(no_mangle)]
pub extern "C" fn typed_headers_gate_pool_opened(
    alloc: Global,
    pool: &mut Handle,
    connection: u64,
) -> u8
    ensures { Ends (OnPool (Goes (Opened connection)) pool.old.held pool.new.held) result }
{
    ended(pool::opened(alloc, pool, connection))
}

/// Says that it couldn't be.
#[unsafe(no_mangle)]
pub extern "C" fn typed_headers_gate_pool_failed(
    alloc: Global,
    pool: &mut Handle,
    connection: u64,
    now: u64,
) -> u8
    ensures { Ends (OnPool (MayGo (FailedToOpen connection now)) pool.old.held pool.new.held) result }
{
    ended(pool::failed_to_open(alloc, pool, connection, now))
}

/// Says that a connection ended before an answer, and gives whether its request goes out again.
#[unsafe(no_mangle)]
pub extern "C" fn typed_headers_gate_pool_ended(
    alloc: Global,
    pool: &mut Handle,
    connection: u64,
    again: &mut u8,
) -> u8
    ensures { Gives (OnPool (EndsOne connection) pool.old.held pool.new.held) again.old again.new result }
{
    give(pool::ended(alloc, pool, connection), again)
}

/// Says that an exchange is over, and gives whether its connection is kept.
#[unsafe(no_mangle)]
pub extern "C" fn typed_headers_gate_pool_release(
    alloc: Global,
    pool: &mut Handle,
    connection: u64,
    kept: &mut u8,
) -> u8
    ensures { Gives (OnPool (Releases connection) pool.old.held pool.new.held) kept.old kept.new result }
{
    give(pool::release(alloc, pool, connection), kept)
}

/// Says that no request may get a connection any more.
#[unsafe(no_mangle)]
pub extern "C" fn typed_headers_gate_pool_gone(
    alloc: Global,
    pool: &mut Handle,
    connection: u64,
) -> u8
    ensures { Ends (OnPool (Goes (Gone connection)) pool.old.held pool.new.held) result }
{
    ended(pool::gone(alloc, pool, connection))
}

/// Says that a request is over.
#[unsafe(no_mangle)]
pub extern "C" fn typed_headers_gate_pool_finished(
    alloc: Global,
    pool: &mut Handle,
    request: u64,
) -> u8
    ensures { Ends (OnPool (Goes (Finished request)) pool.old.held pool.new.held) result }
{
    ended(pool::finished(alloc, pool, request))
}

//! A pool, and its calls.
ghost use Rattle.std.specs.Prelude.{◌<◌, ◌≡◌, ◌↔◌, IfOk, IsTrue, MatchOption, OnErr, OnOk, count_by, false, filter};
ghost use Rattle.std.specs.Prelude.{find};
ghost use Rattle.std.specs.Prelude.{if◌then◌else◌, is_ok, is_some, length, map, not, option_copied, slice_index_or};
ghost use Rattle.std.specs.Prelude.{slice_set, ℕ};
ghost use Rattle.gateway_pool.specs.Choices.{IsChosen, IsLease, comes_first, cost, hash_of, may_take, rank, stirred};
ghost use Rattle.gateway_pool.specs.Pools.{Event.Leased, Event.Opened, Event.FailedToOpen, Event.Ended, Event.Released};
ghost use Rattle.gateway_pool.specs.Pools.{Event.Gone, Event.Finished, changed, after_failure, changed_at, named};
ghost use Rattle.gateway_pool.specs.Pools.{fresh_health, goes_again, happens, is_down, is_idle, is_idle_at, is_named};
ghost use Rattle.gateway_pool.specs.Pools.{is_of, is_request};
ghost use Rattle.gateway_pool.specs.Pools.{is_opening, is_tried, is_used_at, may_keep, after_opening, others, start};
ghost use Rattle.gateway_pool.specs.Pools.{state_of};
ghost use Rattle.gateway_pool.specs.Pools.{tried_with, was_repeated, was_tried};

use std::alloc::{AllocError, Global};

/// The rules of a pool. Times are in milliseconds.
#[derive(Clone, Copy)]
pub struct PoolRules {
    /// So many failures in turn, at least 1, and other origins are asked before this one,
    pub failures: u64,
    /// for so long after the last of them.
    pub pause: u64,
    /// At most so many requests have a connection to one origin.
    pub most: u64,
    /// At most so many connections to one origin are kept idle.
    pub idle: u64,
    /// Whether the key of a request chooses its origin, by rendezvous hashing, and not the least use.
    pub hashes: bool,
}

/// What is known of an origin: its failures in turn, and the time of the last one.
#[derive(Clone, Copy)]
pub(crate) struct Health {
    pub(crate) failures: u64,
    pub(crate) failed_at: u64,
}

/// What a connection does: it is being opened for a request, a request has it, or none has it.
#[derive(Clone, Copy)]
pub(crate) enum ConnectionUse {
    Opening(u64),
    Busy(u64),
    Idle,
}

/// A connection to an origin.
#[derive(Clone, Copy)]
pub(crate) struct PooledConnection {
    pub(crate) number: u64,
    pub(crate) origin: usize,
    pub(crate) used: ConnectionUse,
}

/// A request, and an origin that no connection could be opened to for it.
#[derive(Clone, Copy)]
pub(crate) struct Tried {
    pub(crate) request: u64,
    pub(crate) origin: usize,
}

/// A change of what a connection does.
#[derive(Clone, Copy)]
pub(crate) enum Change {
    Lent(u64),
    Opens,
    Kept,
}

/// Where a request goes out.
#[derive(Clone, Copy)]
pub enum Lease {
    /// On the idle connection of this number, to this origin.
    Reuse(u64, usize),
    /// On a new one to this origin, which gets this number. `opened` or `failed_to_open` has to follow.
    Open(u64, usize),
    /// Nowhere: each origin failed for this request.
    NoOrigin,
    /// Nowhere now: the origins that are left have all the connections that they may have.
    Full,
}

/// Connections to origin servers that can all answer the same requests. Numbers of requests are the caller's, each for
/// one request. Times never go back.
#[derive(Drop)]
pub struct Pool {
    pub(crate) rules: PoolRules,
    pub(crate) origins: Vec<Health>,
    pub(crate) connections: Vec<PooledConnection>,
    pub(crate) tried: Vec<Tried>,
    pub(crate) repeated: Vec<u64>,
    pub(crate) next: u64,
}

fn is_idle(used: ConnectionUse) -> bool
    ensures { result ≡ is_idle used }
{
    match used {
        ConnectionUse::Idle => true,
        _ => false,
    }
}

fn is_opening(used: ConnectionUse) -> bool
    ensures { result ≡ is_opening used }
{
    match used {
        ConnectionUse::Opening(_) => true,
        _ => false,
    }
}

fn is_idle_at(connection: &PooledConnection, origin: usize) -> bool
    ensures { result ≡ is_idle_at origin connection.now }
{
    connection.origin == origin && is_idle(connection.used)
}

fn is_used_at(connection: &PooledConnection, origin: usize) -> bool
    ensures { result ≡ is_used_at origin connection.now }
{
    connection.origin == origin && !is_idle(connection.used)
}

fn is_tried(tried: &Tried, request: u64, origin: usize) -> bool
    ensures { result ≡ is_tried request origin tried.now }
{
    tried.request == request && tried.origin == origin
}

fn find_tried(tried: &[Tried], request: u64, origin: usize) -> Option<&Tried>
    ensures { option_copied result ≡ find (is_tried request origin) tried.now }
{
    tried.iter().find(|tried| is_tried(tried, request, origin))
}

fn changed(change: Change, used: ConnectionUse) -> ConnectionUse
    ensures { result ≡ changed change used }
{
    match (change, used) {
        (Change::Lent(request), ConnectionUse::Idle) => ConnectionUse::Busy(request),
        (Change::Opens, ConnectionUse::Opening(request)) => ConnectionUse::Busy(request),
        (Change::Kept, ConnectionUse::Busy(_)) => ConnectionUse::Idle,
        _ => used,
    }
}

fn change_at(connections: &mut [PooledConnection], change: Change, number: u64)
    ensures { connections.new ≡ map (changed_at change number) connections.old }
{
    for connection in connections.iter_mut() {
        if connection.number == number {
            connection.used = changed(change, connection.used);
        }
    }
}

fn count_used(connections: &[PooledConnection], origin: usize) -> usize
    ensures { result ≡ count_by (is_used_at origin) connections.now }
{
    connections
        .iter()
        .filter(|connection| is_used_at(connection, origin))
        .count()
}

fn count_idle(connections: &[PooledConnection], origin: usize) -> usize
    ensures { result ≡ count_by (is_idle_at origin) connections.now }
{
    connections
        .iter()
        .filter(|connection| is_idle_at(connection, origin))
        .count()
}

fn find_idle(connections: &[PooledConnection], origin: usize) -> Option<&PooledConnection>
    ensures { option_copied result ≡ find (is_idle_at origin) connections.now }
{
    connections
        .iter()
        .find(|connection| is_idle_at(connection, origin))
}

fn is_named(connection: &PooledConnection, number: u64) -> bool
    ensures { result ≡ is_named number connection.now }
{
    connection.number == number
}

fn lookup(connections: &[PooledConnection], number: u64) -> Option<&PooledConnection>
    ensures { option_copied result ≡ find (is_named number) connections.now }
{
    connections
        .iter()
        .find(|connection| is_named(connection, number))
}

fn copy_of(found: Option<&PooledConnection>) -> Option<PooledConnection>
    ensures { result ≡ option_copied found.entry }
{
    match found {
        Some(connection) => Some(*connection),
        None => None,
    }
}

fn find_named(connections: &[PooledConnection], number: u64) -> Option<PooledConnection>
    ensures { result ≡ find (is_named number) connections.now }
{
    copy_of(lookup(connections, number))
}

fn remove_named(connections: &mut Vec<PooledConnection>, number: u64)
    ensures { connections.new.items ≡ others number connections.old.items }
{
    connections.retain(|connection| !is_named(connection, number));
}

fn is_request(other: &u64, request: u64) -> bool
    ensures { result ≡ is_request request other.now }
{
    *other == request
}

fn find_request(requests: &[u64], request: u64) -> Option<&u64>
    ensures { option_copied result ≡ find (is_request request) requests.now }
{
    requests.iter().find(|other| is_request(other, request))
}

fn forget_request(requests: &mut Vec<u64>, request: u64)
    ensures { requests.new.items ≡ filter (λ other. not (is_request request other)) requests.old.items }
{
    requests.retain(|other| !is_request(other, request));
}

fn forget_tried(all: &mut Vec<Tried>, request: u64)
    ensures { all.new.items ≡ filter (λ tried. not (is_of request tried)) all.old.items }
{
    all.retain(|tried| tried.request != request);
}

fn is_down(rules: &PoolRules, now: u64, health: Health) -> bool
    ensures { result ≡ is_down rules.now now health }
{
    rules.failures <= health.failures && now.saturating_sub(health.failed_at) < rules.pause
}

const FRESH: Health = Health {
    failures: 0,
    failed_at: 0,
};

fn stirred(x: u64) -> u64
    ensures { result ≡ stirred x }
{
    let y = x.wrapping_mul(11400714819323198485);
    y / 4294967296 + (y % 4294967296) * 4294967296
}

fn hash_of(key: u64, origin: usize) -> u64
    ensures { result ≡ hash_of key origin }
{
    let place = (origin as u64).wrapping_mul(13787848793156543929);
    stirred(stirred(stirred(key.wrapping_add(place))))
}

fn comes_first(best: Option<usize>, rank: u128, least: u128) -> bool
    ensures { result ≡ comes_first best rank least }
{
    match best {
        Some(_) => rank < least,
        None => true,
    }
}

fn set_health(origins: &mut [Health], origin: usize, health: Health)
    ensures { origins.new ≡ slice_set origins.old origin health }
{
    if origin < origins.len() {
        origins[origin] = health;
    }
}

fn health_at(origins: &[Health], origin: usize) -> Health
    ensures { result ≡ slice_index_or origins.now origin fresh_health }
{
    match origins.get(origin) {
        Some(health) => *health,
        None => FRESH,
    }
}

fn note_opened(origins: &mut [Health], found: Option<PooledConnection>)
    ensures { origins.new ≡ after_opening found origins.old }
{
    match found {
        Some(found) if is_opening(found.used) => set_health(origins, found.origin, FRESH),
        _ => {}
    }
}

fn note_failure(origins: &mut [Health], found: Option<PooledConnection>, now: u64)
    ensures { origins.new ≡ after_failure now found origins.old }
{
    match found {
        Some(found) if is_opening(found.used) => {
            let failures = health_at(origins, found.origin).failures.saturating_add(1);
            let failed_at = now;
            set_health(
                origins,
                found.origin,
                Health {
                    failures,
                    failed_at,
                },
            );
        }
        _ => {}
    }
}

fn note_tried(tried: &mut Vec<Tried>, found: Option<PooledConnection>) -> Result<(), AllocError>
    ensures { tried.new.items ≡ (if is_ok result then tried_with found tried.old.items else tried.old.items) }
{
    match found {
        Some(found) => match found.used {
            ConnectionUse::Opening(request) => {
                let origin = found.origin;
                tried.push(Tried { request, origin })?;
                Ok(())
            }
            _ => Ok(()),
        },
        None => Ok(()),
    }
}

impl Pool {
    /// A pool of so many origins, numbered from 0, without connections.
    pub fn new(alloc: Global, rules: PoolRules, origins: usize) -> Result<Pool, AllocError>
        ensures { IfOk result (λ pool. state_of pool ≡ start rules origins) }
    {
        Ok(Pool {
            rules,
            origins: vec![in alloc; FRESH; origins]?,
            connections: Vec::new(alloc),
            tried: Vec::new(alloc),
            repeated: Vec::new(alloc),
            next: 0,
        })
    }

    fn was_tried(&self, request: u64, origin: usize) -> bool
        ensures { result ≡ was_tried request origin (state_of self.now) }
    {
        find_tried(&self.tried, request, origin).is_some()
    }

    fn was_repeated(&self, request: u64) -> bool
        ensures { result ≡ was_repeated request (state_of self.now) }
    {
        find_request(&self.repeated, request).is_some()
    }

    fn cost(&self, key: u64, origin: usize) -> u64
        ensures { result ≡ cost key origin (state_of self.now) }
    {
        if self.rules.hashes {
            u64::MAX - hash_of(key, origin)
        } else {
            count_used(&self.connections, origin) as u64
        }
    }

    fn rank(&self, now: u64, key: u64, origin: usize) -> u128
        ensures { result ≡ rank now key (state_of self.now) origin }
    {
        let least = if is_down(&self.rules, now, health_at(&self.origins, origin)) {
            18446744073709551616
        } else {
            0
        };
        least + u128::from(self.cost(key, origin))
    }

    fn may_take(&self, request: u64, origin: usize) -> bool
        ensures { result ≡ may_take request (state_of self.now) origin }
    {
        origin < self.origins.len()
            && !self.was_tried(request, origin)
            && (count_used(&self.connections, origin) as u64) < self.rules.most
    }

    fn choose(&self, request: u64, now: u64, key: u64) -> Option<usize>
        ensures { MatchOption result ((origin : ℕ) → may_take request (state_of self.now) origin ≡ false)
            (λ origin. IsChosen request now key (state_of self.now) origin) }
    {
        let mut best: Option<usize> = None;
        let mut least = 0;
        for origin in 0..self.origins.len() {
            if self.may_take(request, origin) {
                let rank = self.rank(now, key, origin);
                if comes_first(best, rank, least) {
                    best = Some(origin);
                    least = rank;
                }
            }
        }
        best
    }

    fn is_tried_out(&self, request: u64) -> bool
        ensures { IsTrue result ↔ ((origin : ℕ) → origin < length self.now.origins.items
            → IsTrue (was_tried request origin (state_of self.now))) }
    {
        for origin in 0..self.origins.len() {
            if !self.was_tried(request, origin) {
                return false;
            }
        }
        true
    }

    /// A connection for a request: to the origin that costs least of those with room that this request hasn't failed
    /// at. If the rules hash, that is rendezvous hashing of the key, otherwise the fewest requests under way. Origins
    /// that failed lately are asked only if there is no other. A request that is repeated goes out on a new connection.
    ///
    /// Out of memory nothing changes.
    pub fn lease(&mut self, request: u64, now: u64, key: u64) -> Result<Lease, AllocError>
        ensures answer { IfOk result (λ lease. IsLease request now key lease (state_of self.old)) }
        ensures pool { IfOk result (λ lease. state_of self.new ≡ happens (Leased request now key lease)
            (state_of self.old)) }
        ensures err { OnErr result (state_of self.new ≡ state_of self.old) }
    {
        let Some(origin) = self.choose(request, now, key) else {
            return Ok(if self.is_tried_out(request) {
                Lease::NoOrigin
            } else {
                Lease::Full
            });
        };
        if !self.was_repeated(request)
            && let Some(connection) = find_idle(&self.connections, origin)
        {
            let number = connection.number;
            change_at(&mut self.connections, Change::Lent(request), number);
            return Ok(Lease::Reuse(number, origin));
        }
        let number = self.next;
        if number == u64::MAX {
            return Ok(Lease::Full);
        }
        let made = PooledConnection {
            number,
            origin,
            used: ConnectionUse::Opening(request),
        };
        self.connections.push(made)?;
        self.next = number + 1;
        Ok(Lease::Open(number, origin))
    }

    /// A new connection was opened, so its origin doesn't fail.
    pub fn opened(&mut self, connection: u64)
        ensures { state_of self.new ≡ happens (Opened connection) (state_of self.old) }
    {
        let found = find_named(&self.connections, connection);
        note_opened(&mut self.origins, found);
        change_at(&mut self.connections, Change::Opens, connection);
    }

    /// A new connection couldn't be opened: its origin has failed once more, and isn't asked again for this request.
    ///
    /// Out of memory nothing changes.
    pub fn failed_to_open(&mut self, connection: u64, now: u64) -> Result<(), AllocError>
        ensures ok { OnOk result (state_of self.new ≡ happens (FailedToOpen connection now) (state_of self.old)) }
        ensures err { OnErr result (state_of self.new ≡ state_of self.old) }
    {
        let found = find_named(&self.connections, connection);
        note_tried(&mut self.tried, found)?;
        note_failure(&mut self.origins, found, now);
        remove_named(&mut self.connections, connection);
        Ok(())
    }

    /// A connection ended before an answer came on it, and its request may be repeated (RFC 9110, section 9.2.2).
    /// Whether it goes out again: once, and on a new connection (RFC 9112, section 9.3.1).
    ///
    /// Out of memory nothing changes.
    pub fn ended(&mut self, connection: u64) -> Result<bool, AllocError>
        ensures answer { IfOk result (λ again. again ≡ is_some (goes_again connection (state_of self.old))) }
        ensures pool { OnOk result (state_of self.new ≡ happens (Ended connection) (state_of self.old)) }
        ensures err { OnErr result (state_of self.new ≡ state_of self.old) }
    {
        let again = self.goes_again(connection);
        if let Some(request) = again {
            self.repeated.push(request)?;
        }
        remove_named(&mut self.connections, connection);
        Ok(again.is_some())
    }

    fn goes_again(&self, connection: u64) -> Option<u64>
        ensures { result ≡ goes_again connection (state_of self.now) }
    {
        match find_named(&self.connections, connection) {
            Some(found) => match found.used {
                ConnectionUse::Busy(request) if !self.was_repeated(request) => Some(request),
                _ => None,
            },
            None => None,
        }
    }

    /// The exchange on a connection is over, and both sides keep it. Whether it is kept for another request: if it was
    /// opened, and there is room. If it isn't kept, it has to be closed.
    pub fn release(&mut self, connection: u64) -> bool
        ensures answer { result ≡ may_keep (named connection (state_of self.old)) (state_of self.old) }
        ensures pool { state_of self.new ≡ happens (Released connection) (state_of self.old) }
    {
        let found = find_named(&self.connections, connection);
        let keeps = self.may_keep(found);
        if keeps {
            change_at(&mut self.connections, Change::Kept, connection);
        } else {
            remove_named(&mut self.connections, connection);
        }
        keeps
    }

    fn may_keep(&self, found: Option<PooledConnection>) -> bool
        ensures { result ≡ may_keep found (state_of self.now) }
    {
        match found {
            Some(found) => {
                !is_opening(found.used)
                    && (count_idle(&self.connections, found.origin) as u64) < self.rules.idle
            }
            None => false,
        }
    }

    /// A connection is closed, or it has ended, or bytes came that nobody asked for. No request gets it any more.
    pub fn gone(&mut self, number: u64)
        ensures { state_of self.new ≡ happens (Gone number) (state_of self.old) }
    {
        remove_named(&mut self.connections, number);
    }

    /// A request is over: what failed for it is forgotten.
    pub fn finished(&mut self, request: u64)
        ensures { state_of self.new ≡ happens (Finished request) (state_of self.old) }
    {
        forget_tried(&mut self.tried, request);
        forget_request(&mut self.repeated, request);
    }
}

//! What holds after any calls, in any order.
ghost use Rattle.std.specs.Prelude.{◌+◌, ◌-◌, ◌<◌, ◌≡◌, ◌≤◌, ◌∷◌, ◌^◌, ◌&&◌, IsTrue, List, count_by, nat_le, nat_lt};
ghost use Rattle.std.specs.Prelude.{true, ℕ};
ghost use Rattle.gateway_pool.specs.declared.pool.{Lease.TheVariants.Reuse, PoolRules.PoolRules};
ghost use Rattle.gateway_pool.specs.Choices.{IsChosen, is_down_at, may_take};
ghost use Rattle.gateway_pool.specs.Histories.{AreRight, IsKept, failures_in_turn, is_healthy, last_failed_at, repeats};
ghost use Rattle.gateway_pool.specs.Histories.{results, run};
ghost use Rattle.gateway_pool.specs.Pools.{Event, Event.Leased, PoolState, is_idle_at, is_used_at, start};

/// Theorem: a connection that a request gets was opened, and is kept: since an exchange on it was over, no other
/// request has got it, it hasn't failed or ended, and no byte came that nobody asked for (RFC 9112, section 9.3).
pub fn leased_connections_are_kept()
    ensures { (rules : PoolRules) (origins : ℕ) (events : List Event) (request now key number origin : ℕ)
        → AreRight (Leased request now key (Reuse number origin) ∷ events) (start rules origins)
        → IsKept number events }
{}

/// Theorem: no more requests have a connection to an origin than the rules say, and no more connections to it are idle.
pub fn connections_are_limited()
    ensures { (rules : PoolRules) (origins : ℕ) (events : List Event) (origin : ℕ)
        → AreRight events (start rules origins)
        → (count_by (is_used_at origin) (run events (start rules origins)).connections ≤ rules.most)
        × (count_by (is_idle_at origin) (run events (start rules origins)).connections ≤ rules.idle) }
{}

/// Theorem: a request is repeated at most once, and then only on a new connection (RFC 9112, section 9.3.1).
pub fn requests_are_repeated_once()
    ensures once { (rules : PoolRules) (origins : ℕ) (events : List Event) (request : ℕ)
        → repeats request events (start rules origins) ≤ 1 }
    ensures new { (rules : PoolRules) (origins : ℕ) (events : List Event) (request now key number origin : ℕ)
        → AreRight (Leased request now key (Reuse number origin) ∷ events) (start rules origins)
        → repeats request events (start rules origins) ≡ 0 }
{}

/// Theorem: by hashing, a key goes to the same origin as long as the same origins are healthy. If one goes, only its
/// keys go elsewhere: what goes to another goes there still.
pub fn hashed_choices_are_stable()
    ensures { (pool other : PoolState) (request now key origin another later place : ℕ)
        → pool.rules.hashes ≡ true → other.rules.hashes ≡ true
        → IsChosen request now key pool origin → IsChosen another later key other place
        → ((o : ℕ) → IsTrue (is_healthy another later other o) → IsTrue (is_healthy request now pool o))
        → IsTrue (is_healthy another later other origin) → place ≡ origin }
{}

/// Theorem: an origin is down exactly while as many of its last connections failed in turn as the rules count, and the
/// last of them less than the pause ago. It is chosen while it is down only if each that may be taken is.
pub fn origins_are_down_by_their_results()
    ensures down { (rules : PoolRules) (origins : ℕ) (events : List Event) (now origin : ℕ)
        → origin < origins → rules.failures < 2 ^ 64
        → is_down_at now origin (run events (start rules origins))
        ≡ (nat_le rules.failures (failures_in_turn (results origin events (start rules origins)))
        && nat_lt (now - last_failed_at (results origin events (start rules origins))) rules.pause) }
    ensures last { (pool : PoolState) (request now key origin other : ℕ) → pool.rules.most < 2 ^ 64
        → IsChosen request now key pool origin → IsTrue (is_down_at now origin pool)
        → IsTrue (may_take request pool other) → IsTrue (is_down_at now other pool) }
{}

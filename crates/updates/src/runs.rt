//! Runs that show that the theorems aren't vacuous, and that each of their premises is needed.
#![tactic(auto, using(crate::proofs::Examples::reads_milk))]

ghost use Rattle.std.specs.Prelude.{◌≡◌, ◌∷◌, [], None, codes, false, slice_get, true};
ghost use Rattle.updates.{specs.Events.run, specs.Events.Guard.{ByDate, Not}, specs.Runs.{sent_again, ann, as_asked}};
ghost use Rattle.updates.specs.Runs.{bob, both_change, bread, by_two_ways, carl, digested, eggs, guarded, milk};
ghost use Rattle.updates.specs.Runs.{one_cache, storing_late, taken_back, told, validating, without_removing};
ghost use Rattle.updates.specs.Statements.{HasStrongTags, HasUniqueTags, Invalidates, IsRouted, LosesAnUpdate};
ghost use Rattle.updates.{specs.Statements.{ReadsOlder, StoresNoneFromBefore, Throughout}, specs.Worlds.start};
ghost use Rattle.updates.specs.Worlds.Response.{Status200, Status204, Refused};

/// A run with unique tags in which a cache serves an old version, a guarded PUT succeeds, another
/// is told 412, succeeds after a new GET, and comes a second time.
pub fn guarded_updates_succeed_and_fail()
    ensures ann { told ann (run guarded (start milk)).received ≡ Status204 eggs ∷ Status200 milk ∷ [] }
    ensures bob { told bob (run guarded (start milk)).received
        ≡ Status204 bread ∷ Status200 eggs ∷ Refused 412 ∷ Status200 milk ∷ [] }
    ensures carl { told carl (run guarded (start milk)).received ≡ Status200 milk ∷ [] }
    ensures current { (run guarded (start milk)).current ≡ bread }
    ensures unique { HasUniqueTags (run guarded (start milk)) }
{}

/// A run in which a cache validates: a 304 with the tag of what it has stored lets it serve that,
/// and one with another tag doesn't.
pub fn caches_validate()
    ensures bob { told bob (run validating (start milk)).received ≡ Status200 milk ∷ [] }
    ensures carl { slice_get (run validating (start milk)).messages 13 ≡ None }
{}

/// Without a condition an update is lost.
pub fn unguarded_updates_are_lost()
    ensures { LosesAnUpdate (run (both_change Not) (start milk)) }
{}

/// If-Unmodified-Since doesn't help within a second: an update is lost.
pub fn updates_by_date_are_lost()
    ensures { LosesAnUpdate (run (both_change ByDate) (start milk)) }
{}

/// With strong tags that come again, as digests do, a PUT is performed twice, and undoes what came
/// between.
pub fn digests_let_a_put_act_twice()
    ensures strong { HasStrongTags (run taken_back (start (digested (codes "milk")))) }
    ensures lost { LosesAnUpdate (run taken_back (start (digested (codes "milk")))) }
{}

/// A client may be told 412 of a PUT that was performed. A server may avoid that.
pub fn a_412_does_not_say_that_nothing_was_done()
    ensures performed { (run (sent_again false) (start milk)).current ≡ eggs }
    ensures refused { told ann (run (sent_again false) (start milk)).received ≡ Refused 412 ∷ Status200 milk ∷ [] }
    ensures confirmed { told ann (run (sent_again true) (start milk)).received ≡ Status204 eggs ∷ Status200 milk ∷ [] }
{}

/// A run with all that `clients_read_their_writes` asks.
pub fn writes_are_read()
    ensures routed { Throughout (IsRouted one_cache) as_asked (start milk) }
    ensures invalidates { Throughout Invalidates as_asked (start milk) }
    ensures stores { Throughout StoresNoneFromBefore as_asked (start milk) }
    ensures ann { told ann (run as_asked (start milk)).received
        ≡ Status200 eggs ∷ Status204 eggs ∷ Status200 milk ∷ [] }
{}

/// If a success doesn't remove what is stored, a client reads a version older than its own.
pub fn without_removing_older_is_read()
    ensures routed { Throughout (IsRouted one_cache) without_removing (start milk) }
    ensures stores { Throughout StoresNoneFromBefore without_removing (start milk) }
    ensures unique { HasUniqueTags (run without_removing (start milk)) }
    ensures older { ReadsOlder (run without_removing (start milk)) }
{}

/// RFC 9111, section 4.4, isn't enough: a response that was under way is stored after the removal,
/// and the client reads a version older than its own.
pub fn storing_late_older_is_read()
    ensures routed { Throughout (IsRouted one_cache) storing_late (start milk) }
    ensures invalidates { Throughout Invalidates storing_late (start milk) }
    ensures unique { HasUniqueTags (run storing_late (start milk)) }
    ensures older { ReadsOlder (run storing_late (start milk)) }
{}

/// If a client writes past the cache, it reads an older version from it.
pub fn by_two_ways_older_is_read()
    ensures invalidates { Throughout Invalidates by_two_ways (start milk) }
    ensures stores { Throughout StoresNoneFromBefore by_two_ways (start milk) }
    ensures unique { HasUniqueTags (run by_two_ways (start milk)) }
    ensures older { ReadsOlder (run by_two_ways (start milk)) }
{}

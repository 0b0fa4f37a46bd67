//! What holds after any events, in any order: clients send, caches answer with what they store, however old,
//! messages are lost, repeated, delayed and overtaken. A proof cites a law by calling it.
ghost use Rattle.std.specs.Prelude.{◌≡◌, ◌++◌, ℕ, List, Some, slice_get};
ghost use Rattle.updates.{specs.Events.{Event, run}, specs.Statements.{Has, HasStrongTags, HasUniqueTags, IsGuarded}};
ghost use Rattle.updates.specs.Statements.{IsStored, LeadsTo, Invalidates, IsRouted, ReadsOlder, Routes};
ghost use Rattle.updates.{specs.Statements.{StoresNoneFromBefore, Throughout}, specs.Worlds.{Change, Hop, Put}};
ghost use Rattle.updates.specs.Worlds.{Received, Version, World, given, shown, start, versions};
ghost use Rattle.updates.{specs.Worlds.Message.Going, specs.Worlds.Request.Puts, specs.Worlds.Response.Status204};

/// Theorem: If-Match is compare-and-swap. Each PUT with If-Match that the origin server performed
/// replaced the very version that its client had read, if no two versions have the same tag. If
/// tags are strong, it replaced one with the content that its client had read. Nothing is said of
/// the other PUTs: they may be unguarded.
pub fn if_match_is_compare_and_swap()
    ensures version { (first : Version) (events : List Event) (change : Change)
        → HasUniqueTags (run events (start first)) → Has (run events (start first)).changes change
        → IsGuarded change.put → change.put.read ≡ change.replaced }
    ensures content { (first : Version) (events : List Event) (change : Change)
        → HasStrongTags (run events (start first)) → Has (run events (start first)).changes change
        → IsGuarded change.put → change.put.read.content ≡ change.replaced.content }
    // It had been given that version before it sent the request: this holds in each world, also right after.
    ensures sent { (first : Version) (events : List Event) (passed : List Hop) (put : Put)
        → Has (run events (start first)).messages (Going passed (Puts put))
        → Has (given put.client (run events (start first)).received) put.read }
    ensures read { (first : Version) (events : List Event) (change : Change)
        → Has (run events (start first)).changes change
        → Has (given change.put.client (run events (start first)).received) change.put.read }
{}

/// Theorem: no update is lost, if no two versions have the same tag. Of all guarded PUTs that were
/// made of one version, at most one is performed, and that at most once, however often the request
/// comes.
pub fn no_update_is_lost()
    ensures { (first : Version) (events : List Event) (place other : ℕ) (change rival : Change)
        → HasUniqueTags (run events (start first))
        → slice_get (run events (start first)).changes place ≡ Some change
        → slice_get (run events (start first)).changes other ≡ Some rival
        → IsGuarded change.put → IsGuarded rival.put → change.put.read ≡ rival.put.read → place ≡ other }
{}

/// Theorem: guarded PUTs are linearizable. If all that were performed are guarded, and no two versions
/// have the same tag, they lead from the first version to the current one, in the order of their
/// performance: each was made of the version that the one before had made.
pub fn guarded_updates_are_linearizable()
    ensures { (first : Version) (events : List Event) → HasUniqueTags (run events (start first))
        → ((change : Change) → Has (run events (start first)).changes change → IsGuarded change.put)
        → LeadsTo first (run events (start first)).changes (run events (start first)).current }
{}

/// Theorem: what a client gets is a version of the resource, with its content and its tag.
pub fn clients_get_versions()
    ensures { (first : Version) (events : List Event) (received : Received) (version : Version)
        → Has (run events (start first)).received received → Has (shown received.response) version
        → Has (versions (run events (start first))) version }
{}

/// Theorem: a success is true. If a client gets a 204 to its PUT, then the resource has had a
/// version with that content.
pub fn success_is_true()
    ensures { (first : Version) (events : List Event) (put : Put) (version : Version)
        → Has (run events (start first)).received (record { request = Puts put; response = Status204 version })
        → IsStored (run events (start first)) put version }
{}

/// Theorem: clients read their writes. A client that knows to have written a version gets no older
/// one by a GET that it sends from then on, if requests go where the routes lead, a success of a PUT
/// removes what each cache that it passes has stored (RFC 9111, section 4.4), and no cache stores a
/// response to a request that it sent on before it last removed something.
pub fn clients_read_their_writes()
    ensures { (routes : Routes) (first : Version) (events : List Event)
        → Throughout (IsRouted routes) events (start first) → Throughout Invalidates events (start first)
        → Throughout StoresNoneFromBefore events (start first) → ReadsOlder (run events (start first)) → ⊥ }
{}

/// Theorem: what was performed stays performed, in the same order: later changes come before it in the list. So a
/// change that was made before a PUT was sent is older than each change that this PUT makes.
#[tactic(auto, using(crate::proofs::Steps::run_keeps))]
pub fn changes_are_kept()
    ensures { (events : List Event) (world : World)
        → (newer : List Change) × ((run events world).changes ≡ newer ++ world.changes) }
{}

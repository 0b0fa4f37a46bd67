//! Theorems about every list of calls. To cite one in a proof, call it.
ghost use Rattle.cache_policy.specs.{Policies.{MayStoreUnder, Policy}, Requests.Request};
ghost use Rattle.std.specs.Prelude.{◌++◌, ◌<◌, ◌∷◌, ◌≡◌, ◌≤◌, ◌⊎◌, List, None, Some, ℕ};
ghost use Rattle.headers.specs.LineMap.{Field};
ghost use Rattle.cache_rules.specs.{declared.stored.StoredResponse.StoredResponse, Stored.fields_of_stored};
ghost use Rattle.cache_rules.specs.Stored.{request_of_stored};
ghost use Rattle.cache_store.specs.{declared.{limits.Limits.Limits, lookup.Lookup.Lookup}, Contents.responses_at};
ghost use Rattle.cache_store.specs.{Contents.Contents, Served.{IsRightlyServed, Serves}, History.{Call, History}};
ghost use Rattle.cache_store.specs.History.{HasCome, HasUnder, IsJustified, Removes, Run, RunFrom, State};
ghost use Rattle.cache_store.specs.{Numbers.{AreNumbered, numbered}, Lookups.IsAnswer};

/// Theorem: after any calls of a new store, each stored response is one that the calls justify. It
/// came from the origin for a request to its target, may be stored, and has its fields as they
/// came, or as validating responses left them. Since it came, nothing was removed under its target.
/// This holds whether or not calls run out of memory.
pub fn calls_justify_what_is_stored()
    ensures { (policy : Policy) (limits : Limits) (calls : History) (contents : Contents)
        → Run policy limits calls contents
        → (target : List ℕ) (stored : StoredResponse) → HasUnder contents target stored
        → IsJustified policy target calls stored }
{}

/// Theorem: after any calls of a new store, a lookup serves only what the calls justify. What it
/// serves matches the request, and is fresh, or each directive that applies allows it stale. `most`
/// is how many seconds `lookup_guessing` guesses at most, and 0 for `lookup`.
pub fn lookups_serve_what_calls_justify()
    ensures { (policy : Policy) (limits : Limits) (calls : History) (contents : Contents)
        → Run policy limits calls contents
        → (target : List ℕ) (most : ℕ) (request : Request) (now : ℕ) (lookup : Lookup)
        → IsAnswer policy most request now (responses_at target contents) lookup → (number : ℕ) (age : Field)
        → Serves lookup number age
        → IsRightlyServed policy most target calls request now (responses_at target contents) number age }
{}

/// Theorem: after any calls of a new store, each stored response came from the origin. A call of
/// `store` passed it in for a request to this target, with this method and these fields, and with
/// this status and content.
#[tactic(auto, using(crate::proofs::LawLemmas::stored_came))]
pub fn what_is_stored_came_from_the_origin()
    ensures { (policy : Policy) (limits : Limits) (calls : History) (contents : Contents)
        → Run policy limits calls contents
        → (target : List ℕ) (stored : StoredResponse) → HasUnder contents target stored
        → HasCome target calls stored }
{}

/// Theorem: after any calls of a new store, RFC 9111, section 3, allows to store each stored
/// response with its present fields. So no other request is served a response with `no-store`
/// (except with `must-understand`), with `private` in a shared cache, or to a request with
/// Authorization, unless a directive allows that (section 3.5).
pub fn what_is_stored_may_be_stored()
    ensures { (policy : Policy) (limits : Limits) (calls : History) (contents : Contents)
        → Run policy limits calls contents
        → (target : List ℕ) (stored : StoredResponse) → HasUnder contents target stored
        → MayStoreUnder policy (request_of_stored stored) stored.status (fields_of_stored stored) }
{}

/// Theorem: after a call that removes a target, each response stored under it is justified by later
/// calls alone. So nothing older is served for this target. `invalidate` is such a call, after a
/// request that isn't safe and a response that is no error (RFC 9111, section 4.4).
#[tactic(auto, using(crate::proofs::LawLemmas::stored_since))]
pub fn nothing_older_than_a_removal_is_stored()
    ensures { (policy : Policy) (limits : Limits) (later : History) (call : Call) (earlier : History)
        (contents : Contents)
        → Run policy limits (later ++ call ∷ earlier) contents → (target : List ℕ) → Removes target call
        → (stored : StoredResponse) → HasUnder contents target stored → IsJustified policy target later stored }
{}

/// Theorem: no number is used again. Whatever calls follow, the next number never falls, and a stored
/// response whose number was given before was stored then, as it is and under its target.
#[tactic(auto, using(crate::proofs::NumberLawLemmas::run_kept))]
pub fn numbers_are_never_used_again()
    ensures { (policy : Policy) (limits : Limits) (first : State) (calls : History) (last : State)
        → RunFrom policy limits first calls last
        → (first.next ≤ last.next) × ((target : List ℕ) (stored : StoredResponse)
        → HasUnder last.contents target stored → stored.number < first.next
        → HasUnder first.contents target stored) }
{}

/// Theorem: a number shows what it named. Whatever calls follow, `response` with the number of a response
/// that is stored returns this very response, and under its target alone, or it returns `None`. So what
/// `lookup` decided about is what is served, or nothing is.
pub fn a_number_shows_what_it_named()
    ensures { (policy : Policy) (limits : Limits) (first : State) (calls : History) (last : State)
        → AreNumbered first.next first.contents → RunFrom policy limits first calls last
        → (target : List ℕ) (stored : StoredResponse) → HasUnder first.contents target stored → (other : List ℕ)
        → (numbered stored.number (responses_at other last.contents) ≡ None)
        ⊎ ((other ≡ target) × (numbered stored.number (responses_at other last.contents) ≡ Some stored)) }
{}

//! Theorems about every run of passes over one cache. To cite one in a proof, call it.
ghost use Rattle.cache_pass.specs.{Effects.{kept_of, Settings, settings_of}, Passes.request_of_pass, Right.IsRight};
ghost use Rattle.cache_pass.specs.{declared.{cache.Cache.Cache, pass.Pass.Pass}, Steps.HasCome, Unstored.AreAlike};
ghost use Rattle.cache_pass.specs.{declared.{pass.Phase.TheVariants.Ended, revalidating.Next.Next}, Keeping.IsWanted};
ghost use Rattle.{cache_pass.specs.Worlds.{Acts, AreCurrent, Deed, Reaches, World}, headers.specs.LineMap.lines_at};
ghost use Rattle.std.specs.Prelude.{◌≡◌, List, Result, ℕ};
ghost use Rattle.{cache_policy.specs.Requests.IsSafe, std.specs.declared.alloc.AllocError.AllocError};
ghost use Rattle.{cache_rules.specs.Errors.IsFailure, http_header.specs.{FieldValue.FieldValue, HeaderMap.Entries}};

/// Theorem: whatever steps of whatever passes come before, in any order, with look-ups and removals between them,
/// what a step answers is right for its pass. A stored response that it names is stored under the target of this
/// pass, by calls that justify that; it may be stored, and matches this request by method and Vary. It is fresh at
/// that time, or allowed stale; or the origin failed at that time, and it is allowed stale then; or a 304 to this
/// very request has just updated it. Nothing is said of a step that names none. What a step stores is what the origin
/// answered to this pass, unless one is stored that matches this request and is newer: by Date, or of the same
/// second and asked for later.
pub fn answers_are_right()
    ensures { (settings : Settings) (deeds : List (ℕ × Deed)) (before : World) → Reaches settings deeds before
        → (pass : ℕ) (deed : Deed) (world : World) → Acts pass deed before world
        → IsRight settings before world (before.passes pass) deed }
{}

/// Theorem: whatever steps of whatever passes come, in any order, with look-ups and removals between them, a
/// response that is stored, or updates stored ones, was asked by its pass since its target was last removed (RFC
/// 9111, section 4.4). So once the response to a PUT has come, nothing is stored under its target that was asked
/// before.
pub fn what_is_stored_was_asked_since_the_last_removal()
    ensures { (settings : Settings) (deeds : List (ℕ × Deed)) (world : World) → Reaches settings deeds world
        → AreCurrent world.log }
{}

/// Theorem: a response that isn't to be stored, as one with `no-store`, or with `private` in a shared cache,
/// leaves the cache as it was, and its pass ends: so no other pass learns of it. Its request is safe; it says
/// neither that the origin failed nor that what is stored is still good.
pub fn what_is_not_stored_leaves_nothing()
    ensures { (old : Pass) (before : Cache) (status : ℕ) (response : Entries FieldValue) (now : ℕ) (new : Pass)
        (after : Cache) (next : Result Next AllocError) → HasCome old before status response now new after next
        → ¬ (IsWanted (settings_of before).policy (request_of_pass old) status (lines_at response))
        → IsSafe old.method → ¬ (IsFailure status) → ¬ (status ≡ 304)
        → (kept_of after ≡ kept_of before) × (new.phase ≡ Ended) }
{}

/// Theorem: if in a run of any passes other responses come in place of some that aren't to be stored, and aren't
/// to be stored either, all steps may be answered as they were, by the same numbers, and the same is stored. So
/// what a client gets that isn't stored tells no other client anything. The requests are safe, none of these
/// responses is a 304, and if one says that the origin failed, so does the one in its place.
pub fn what_is_not_stored_changes_no_other_answer()
    ensures { (settings : Settings) (ones others : List (ℕ × Deed)) (world : World) → Reaches settings ones world
        → AreAlike settings (λ pass. request_of_pass (world.passes pass)) ones others → Reaches settings others world }
{}

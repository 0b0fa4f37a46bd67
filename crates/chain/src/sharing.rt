//! What a shared store stores, selects, serves and freshens, caches of `interference` do. A proof uses a theorem by
//! calling it.
ghost use Rattle.std.specs.Prelude.{◌≡◌, ◌⊎◌, ◌++◌, ◌∷◌, [], ℕ, ◌+◌, List, Some, codes, length, true};
ghost use Rattle.{std.specs.List.list_any, headers.specs.LineMap.{Field, LineMap}};
ghost use Rattle.rfc_fields.specs.Directives.{is_same_token};
ghost use Rattle.cache_policy.specs.{Policies.{MayStoreUnder, Policy}, Requests.Request, Varying.Suits};
ghost use Rattle.cache_policy.specs.{Updating.{HasStrongTag, IsUpdated, tag_in}, declared.Kind.TheVariants.Shared};
ghost use Rattle.cache_rules.specs.{Freshening.{IsFreshened, IsReusable}, Selection.IsCandidate};
ghost use Rattle.cache_rules.specs.Stored.{fields_of_stored, request_of_stored};
ghost use Rattle.cache_rules.specs.declared.{freshening.Exchange.Exchange, stored.StoredResponse.StoredResponse};
ghost use Rattle.cache_store.specs.{Contents.{Contents, responses_at}, History.{Call, HasUnder, History, Removes, Run}};
ghost use Rattle.cache_store.specs.{Lookups.IsAnswer, Numbers.numbered, Served.Serves, declared.limits.Limits.Limits};
ghost use Rattle.cache_store.specs.declared.lookup.Lookup.{Lookup};
ghost use Rattle.interference.specs.Events.{Event, Event.{Begins, Freshens, Looks, Replies, Stores}, happens};
ghost use Rattle.interference.specs.Events.{message_at, pass_at, run, run_from, with_number, with_stored};
ghost use Rattle.interference.specs.Statements.{HasStrongTags, SaysWhatItDependsOn};
ghost use Rattle.interference.specs.Worlds.{Asked, Clients, Dated, Doing.{Completes, Gives}, Head, Hop, Message.Coming};
ghost use Rattle.interference.specs.Worlds.{Message.Going, Origin, Pass.At, Place, Reply.Whole as Full};
ghost use Rattle.interference.specs.Worlds.{Stored, World, is_fresh, matches, may_store};
ghost use Rattle.chain.specs.{Instances.IsSharing};
ghost use Rattle.chain.specs.Sharing.{IsContentSince, IsHeld, IsOf, IsServedNext, TakeAnswers, right, sent, storing_of};
ghost use Rattle.chain.specs.Sharing.{tag_of, updated, varies};

use cache_store::laws::{
    calls_justify_what_is_stored, lookups_serve_what_calls_justify,
    nothing_older_than_a_removal_is_stored, what_is_stored_may_be_stored,
};
use interference::laws::clients_get_their_own_answers;

/// Theorem: a response to GET that a shared cache may store, `interference` lets it store for that
/// request, or no request selects the response. In the first case it isn't `private`, nor `no-store`
/// without `must-understand`. If the request has Authorization then, a directive lets others get it
/// (RFC 9111, section 3.5). An event stores each response to GET that the store has after any calls,
/// if a pass gives it; or no request selects it.
pub fn what_is_stored_may_be_shared()
    ensures allowed { (policy : Policy) (request : Request) (status : ℕ) (response : LineMap) (target : ℕ)
        (head : Head) → policy.kind ≡ Shared → request.method ≡ codes "GET"
        → MayStoreUnder policy request status response → head.storing ≡ storing_of policy response
        → (may_store (sent target request) head ≡ true)
        ⊎ ((other : Request) → ¬ (Suits request other response)) }
    ensures event { (policy : Policy) (limits : Limits) (calls : History) (contents : Contents)
        → Run policy limits calls contents → policy.kind ≡ Shared → (key : List ℕ) (stored : StoredResponse)
        → HasUnder contents key stored → stored.method ≡ codes "GET"
        → (origin : Origin) (clients : Clients) (world : World) (pass target : ℕ) (place : Place) (given : Dated)
        → pass_at world pass ≡ At place (Gives given) → IsOf policy target stored place.asked.request given
        → ((happens (right origin clients) world (Stores pass)).nodes place.cache
        ≡ with_stored place.asked.request given (world.nodes place.cache))
        ⊎ ((other : Request) → ¬ (IsCandidate other stored)) }
{
    what_is_stored_may_be_stored();
}

/// Theorem: let a shared cache be allowed to store a response, which a request for the same target
/// selects by method and Vary (RFC 9111, sections 4 and 4.1). Then it matches the request in
/// `interference`. No request selects a response with `*` in Vary.
pub fn what_is_selected_matches()
    ensures matching { (policy : Policy) (request : Request) (stored : StoredResponse) (target : ℕ) (head : Head)
        → policy.kind ≡ Shared
        → MayStoreUnder policy (request_of_stored stored) stored.status (fields_of_stored stored)
        → IsCandidate request stored → head.storing ≡ storing_of policy (fields_of_stored stored)
        → matches head (sent target (request_of_stored stored)) (sent target request) ≡ true }
    ensures star { (request : Request) (stored : StoredResponse)
        → list_any (is_same_token (codes "*")) (varies (fields_of_stored stored)) ≡ true
        → ¬ (IsCandidate request stored) }
{}

/// Theorem: let a lookup in a shared store, after any calls, serve a response to a GET. A cache of
/// `interference` that stores it (`IsOf`, for the same target) serves it by two events, if it is fresh
/// there. A pass begins and remembers its number; then it replies.
pub fn what_is_served_is_sent()
    ensures { (policy : Policy) (limits : Limits) (calls : History) (contents : Contents)
        → Run policy limits calls contents → policy.kind ≡ Shared
        → (key : List ℕ) (most : ℕ) (request : Request) (now : ℕ) (lookup : Lookup)
        → IsAnswer policy most request now (responses_at key contents) lookup → (number : ℕ) (age : Field)
        → Serves lookup number age → (stored : StoredResponse)
        → numbered number (responses_at key contents) ≡ Some stored → request.method ≡ codes "GET"
        → (origin : Origin) (clients : Clients) (world : World) (message cache which target : ℕ) (passed : List Hop)
        (asked : Asked) (one : Stored)
        → message_at world message ≡ Going passed asked → asked.request ≡ sent target request
        → with_number which (world.nodes cache).stored ≡ Some one → IsOf policy target stored one.request one.given
        → is_fresh world.now one.given ≡ true
        → (run_from (right origin clients) (Begins message cache which ∷ Replies (length world.passes) true ∷ [])
        world).messages ≡ world.messages ++ Coming passed asked (Full one.given) ∷ [] }
{
    lookups_serve_what_calls_justify();
    what_is_stored_may_be_stored();
}

/// Theorem: let a 304 to a GET, with a strong tag, update a stored response to GET, so that a shared
/// cache may reuse it. Then that response had this tag. A cache of `interference` that stores it
/// (`IsOf`) freshens it by two events, if the 304 states there the tag and how the result may be stored.
/// A pass looks it up; the result gets a new number, and answers the request that was answered first.
pub fn what_is_freshened_is_stored_anew()
    ensures { (policy : Policy) (request : Request) (update : LineMap) (exchange : Exchange)
        (old new : StoredResponse) → policy.kind ≡ Shared → request.method ≡ codes "GET"
        → old.method ≡ codes "GET" → HasStrongTag update → IsUpdated (fields_of_stored old) update
        → IsFreshened old update exchange new → IsReusable policy (fields_of_stored old) request update new
        → (origin : Origin) (clients : Clients) (world : World) (pass target version date : ℕ) (place : Place)
        (head : Head) (one : Stored)
        → pass_at world pass ≡ At place (Completes version date head) → place.asked.request ≡ sent target request
        → with_number place.which (world.nodes place.cache).stored ≡ Some one
        → IsOf policy target old one.request one.given
        → head.storing ≡ storing_of policy (fields_of_stored new) → head.etag ≡ tag_of update
        → (tag_in (fields_of_stored old) ≡ tag_in update)
        × IsOf policy target new one.request (updated version date head one)
        × ((run_from (right origin clients) (Looks pass ∷ Freshens (length world.passes) place.which ∷ []) world).nodes
        place.cache ≡ with_stored one.request (updated version date head one) (world.nodes place.cache)) }
{}

/// Theorem: a history of calls of a shared store is a run of `interference`. Number the versions of
/// an origin server, and its clients' requests, by the calls. Let each response to GET that comes be
/// the answer (`IsOf`) in that version to that request; let each 304 to GET have a strong tag, and say
/// what that answer says; and let no response to HEAD freshen. Then after some events a cache has
/// (`IsOf`) each stored response to GET that some request selects.
pub fn calls_are_a_run()
    ensures { (policy : Policy) (limits : Limits) (target_of : List ℕ → ℕ) (origin : Origin) (clients : Clients)
        (calls : History) (contents : Contents) (cache : ℕ) → policy.kind ≡ Shared
        → TakeAnswers policy target_of origin clients calls → Run policy limits calls contents
        → (events : List Event) × ((target : List ℕ) (stored : StoredResponse) (request : Request)
        → HasUnder contents target stored → stored.method ≡ codes "GET" → IsCandidate request stored
        → IsHeld policy (target_of target) stored ((run (right origin clients) events).nodes cache)) }
{
    calls_justify_what_is_stored();
}

/// Theorem: after such calls, for any clients in turn, what a lookup serves to a GET is byte for byte
/// the content of the origin server's answer to this very request, in a version so far. The answer may
/// be any function of the whole request, if the server says what its content depends on and has strong
/// tags. If a call removed what is stored for the target, as `invalidate` does after an unsafe request
/// that succeeded (RFC 9111, section 4.4), it is the version of a later call, whose request may have
/// been sent before.
pub fn clients_of_a_store_get_their_own_answers()
    ensures own { (policy : Policy) (limits : Limits) (target_of : List ℕ → ℕ) (origin : Origin) (clients : Clients)
        (calls : History) (target : List ℕ) (request : Request) (stored : StoredResponse) → policy.kind ≡ Shared
        → TakeAnswers policy target_of origin clients calls → SaysWhatItDependsOn origin → HasStrongTags origin
        → IsServedNext policy limits target_of clients calls target request stored
        → IsContentSince origin 0 (length calls) (sent (target_of target) request) stored.content }
    ensures since { (policy : Policy) (limits : Limits) (target_of : List ℕ → ℕ) (origin : Origin) (clients : Clients)
        (later : History) (call : Call) (earlier : History) (target : List ℕ) (request : Request)
        (stored : StoredResponse) → policy.kind ≡ Shared
        → TakeAnswers policy target_of origin clients (later ++ call ∷ earlier) → SaysWhatItDependsOn origin
        → HasStrongTags origin → Removes target call
        → IsServedNext policy limits target_of clients (later ++ call ∷ earlier) target request stored
        → IsContentSince origin (length earlier + 1) (length (later ++ call ∷ earlier))
        (sent (target_of target) request) stored.content }
{
    lookups_serve_what_calls_justify();
    what_is_stored_may_be_stored();
    nothing_older_than_a_removal_is_stored();
    clients_get_their_own_answers();
}

/// Theorem: the premises of `clients_of_a_store_get_their_own_answers` can be met. A shared store
/// serves a client what came, before an origin server that gives two requests for some target
/// different contents.
pub fn a_shared_store_serves_its_clients()
    ensures { IsSharing }
{}

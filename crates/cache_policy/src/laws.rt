//! Theorems about the definitions alone. To cite one in a proof, call it.
ghost use Rattle.std.specs.Prelude.{◌≡◌, ◌⊎◌, ◌↔◌, ◌≤◌, ◌∷◌, [], ℕ, List, Option, Some, None, codes, true, false};
ghost use Rattle.http_header.specs.{FieldValue.FieldValue, HeaderMap.Entries, HeaderMap.IsHeaderMap};
ghost use Rattle.headers.specs.LineMap.{LineMap, lines_at, set_all};
ghost use Rattle.cache_fields.specs.{Age.age_at, Fields.capped, Fields.greatest, Targets.governing, Targets.told_by};
ghost use Rattle.cache_fields.specs.{declared.age.Times.Times, declared.directives.Directives.Directives};
ghost use Rattle.cache_fields.specs.{declared.kind.Kind.Kind, declared.kind.Kind.TheVariants.Shared};
ghost use Rattle.cache_fields.specs.Directives.{IsMalformed, Says, directed};
ghost use Rattle.cache_fields.specs.Freshness.{HasHeuristic, HasLifetime, by_itself};
ghost use Rattle.cache_policy.specs.Decisions.{Answers, AnswersUnstored, Decides, DecidesBy, IsFromStore};
ghost use Rattle.cache_policy.specs.Decisions.{IsServedMeanwhile, IsTakenStale, MayComeFromStore, MustBeFresh};
ghost use Rattle.cache_policy.specs.{Freshening.freshened, Freshening.freshening_fields, Policies.DecidesByUnder};
ghost use Rattle.cache_policy.specs.{Policies.Policy, Policies.asks, Policies.tells, Requests.IsSafe, Requests.Request};
ghost use Rattle.cache_policy.specs.{Storing.MayStore, Validating.IsConditional, Validating.validation_fields};
ghost use Rattle.cache_policy.specs.{declared.decision.Decision.Decision, declared.decision.Decision.TheVariants.Fetch};
ghost use Rattle.cache_policy.specs.{declared.decision.Decision.TheVariants.Serve};
ghost use Rattle.cache_policy.specs.{declared.decision.Freshness.Freshness};

/// Theorem: each response has exactly one lifetime, or exactly none; `lifetime` returns it. The
/// cases of `HasLifetime` cover each response, and exclude each other.
pub fn response_has_one_lifetime()
    ensures some { (kind : Kind) (received : ℕ) (response : LineMap)
        → (stated : Option ℕ) × HasLifetime kind received response stated }
    ensures one { (kind : Kind) (received : ℕ) (response : LineMap) (a b : Option ℕ)
        → HasLifetime kind received response a → HasLifetime kind received response b → a ≡ b }
{}

/// Theorem: each response has exactly one guess of its lifetime, or none; `heuristic_lifetime`
/// returns it.
pub fn response_has_one_heuristic()
    ensures some { (kind : Kind) (status received : ℕ) (response : LineMap)
        → (guess : Option ℕ) × HasHeuristic kind status received response guess }
    ensures one { (kind : Kind) (status received : ℕ) (response : LineMap) (a b : Option ℕ)
        → HasHeuristic kind status received response a → HasHeuristic kind status received response b → a ≡ b }
{}

/// Theorem: each request has exactly one decision; `decide`, `decide_by` and `decide_unstored`
/// return it. The cases of the definitions cover each request, and exclude each other.
pub fn request_has_one_decision()
    ensures some { (kind : Kind) (stored request : Request) (response : LineMap) (times : Times)
        → (decision : Decision) × Decides kind stored request response times decision }
    ensures one { (kind : Kind) (stored request : Request) (response : LineMap) (times : Times) (a b : Decision)
        → Decides kind stored request response times a → Decides kind stored request response times b → a ≡ b }
    ensures some_by { (kind : Kind) (stored request : Request) (response : LineMap) (freshness : Freshness)
        → (decision : Decision) × DecidesBy kind stored request response freshness decision }
    ensures one_by { (kind : Kind) (stored request : Request) (response : LineMap) (freshness : Freshness)
        (a b : Decision) → DecidesBy kind stored request response freshness a
        → DecidesBy kind stored request response freshness b → a ≡ b }
    ensures some_unstored { (request : Request) → (decision : Decision) × AnswersUnstored request decision }
    ensures one_unstored { (request : Request) (a b : Decision)
        → AnswersUnstored request a → AnswersUnstored request b → a ≡ b }
{}

/// Theorem: a request whose method isn't safe is written through to the origin, whatever is stored,
/// and the stored response to a HEAD is never the answer to a GET.
pub fn methods_bound_reuse()
    ensures written { (kind : Kind) (stored request : Request) (response : LineMap) (freshness : Freshness)
        (decision : Decision) → ¬ (IsSafe request.method)
        → DecidesBy kind stored request response freshness decision → decision ≡ Fetch }
    ensures written_unstored { (request : Request) (decision : Decision) → ¬ (IsSafe request.method)
        → AnswersUnstored request decision → decision ≡ Fetch }
    ensures head { (kind : Kind) (stored request : Request) (response : LineMap) (freshness : Freshness)
        (decision : Decision) → stored.method ≡ codes "HEAD" → request.method ≡ codes "GET"
        → DecidesBy kind stored request response freshness decision → AnswersUnstored request decision }
{}

/// Theorem: a response with a malformed Cache-Control is stored by no cache, is stale from the
/// start, has no guessed lifetime, and is never served without asking the origin, even if the
/// origin fails.
pub fn malformed_response_is_strict()
    ensures stored { (kind : Kind) (request : Request) (status : ℕ) (response : LineMap) → IsMalformed response
        → ¬ (MayStore kind request status response) }
    ensures lifetime { (kind : Kind) (received : ℕ) (response : LineMap) (stated : Option ℕ) → IsMalformed response
        → HasLifetime kind received response stated → stated ≡ Some 0 }
    ensures guess { (kind : Kind) (status received : ℕ) (response : LineMap) (guess : Option ℕ)
        → IsMalformed response → HasHeuristic kind status received response guess → guess ≡ None }
    ensures validated { (kind : Kind) (stored request : Request) (response : LineMap) (freshness : Freshness)
        (decision : Decision) → IsMalformed response
        → DecidesBy kind stored request response freshness decision → ¬ (MayComeFromStore decision) }
{}

/// Theorem: for a request with a malformed Cache-Control no response is stored, and no stored
/// response is served without asking the origin, even if the origin fails.
pub fn malformed_request_is_strict()
    ensures stored { (kind : Kind) (request : Request) (status : ℕ) (response : LineMap)
        → IsMalformed request.fields → ¬ (MayStore kind request status response) }
    ensures validated { (kind : Kind) (stored request : Request) (response : LineMap) (freshness : Freshness)
        (decision : Decision) → IsMalformed request.fields
        → DecidesBy kind stored request response freshness decision → ¬ (MayComeFromStore decision) }
{}

/// Theorem: no other member of Cache-Control hides a directive, well formed or not. If `no-store`
/// is a member, nothing is stored, unless `must-understand` is one as well. If `private` is, no
/// shared cache stores the response. If `no-cache` is, the origin is asked.
pub fn no_directive_is_hidden()
    ensures request_no_store { (kind : Kind) (request : Request) (status : ℕ) (response : LineMap)
        → Says (codes "no-store") request.fields → ¬ (MayStore kind request status response) }
    ensures no_store { (kind : Kind) (request : Request) (status : ℕ) (response : LineMap)
        → Says (codes "no-store") response → ¬ (Says (codes "must-understand") response)
        → ¬ (MayStore kind request status response) }
    ensures private { (request : Request) (status : ℕ) (response : LineMap) → Says (codes "private") response
        → ¬ (MayStore Shared request status response) }
    ensures no_cache { (kind : Kind) (stored request : Request) (response : LineMap) (freshness : Freshness)
        (decision : Decision) → Says (codes "no-cache") request.fields ⊎ Says (codes "no-cache") response
        → DecidesBy kind stored request response freshness decision → ¬ (MayComeFromStore decision) }
{}

/// Theorem: a stale response is served only if it doesn't forbid that, and `max-stale` of the
/// request or `stale-while-revalidate` of the response allows it.
#[tactic(auto, using(crate::proofs::DecisionLemmas::stale_where_let))]
pub fn stale_only_where_let()
    ensures { (kind : Kind) (asks tells : Directives) (freshness : Freshness) (decision : Decision)
        → Answers kind asks tells freshness decision → IsFromStore decision
        → freshness.lifetime ≤ freshness.age
        → (¬ (MustBeFresh kind tells)) × (IsTakenStale asks freshness ⊎ IsServedMeanwhile tells freshness) }
{}

/// Theorem: as time passes, no answer gets better: what is served later was served before, and what
/// is fresh later was fresh before. So `Revalidate` never becomes `Serve`.
pub fn no_answer_gets_better()
    ensures stored { (kind : Kind) (stored request : Request) (response : LineMap) (times : Times) (later : ℕ)
        (a b : Decision) → times.now ≤ later → Decides kind stored request response times a
        → Decides kind stored request response (record times { now = later }) b → IsFromStore b → IsFromStore a }
    ensures fresh { (kind : Kind) (stored request : Request) (response : LineMap) (times : Times) (later : ℕ)
        (a : Decision) → times.now ≤ later → Decides kind stored request response times a
        → Decides kind stored request response (record times { now = later }) Serve → a ≡ Serve }
{}

/// Theorem: the age never wraps: it is exact up to 2^64 - 1, where it stays. As time passes it
/// never falls.
#[tactic(auto, using(crate::proofs::DecisionLemmas::age_grows))]
pub fn age_never_wraps()
    ensures exact { (times : Times) (response : LineMap) → age_at times response ≤ greatest
        → capped (age_at times response) ≡ age_at times response }
    ensures stays { (times : Times) (response : LineMap) → greatest ≤ age_at times response
        → capped (age_at times response) ≡ greatest }
    ensures grows { (times : Times) (later : ℕ) (response : LineMap) → times.now ≤ later
        → capped (age_at times response) ≤ capped (age_at (record times { now = later }) response) }
{}

/// Theorem: if `immutable` counts (RFC 8246), nothing stale is served that wouldn't be served
/// without it, and `no-cache` of a request or a response still asks the origin. While a response
/// isn't fresh, each directive of a request counts.
pub fn immutable_counts_while_fresh()
    ensures stale { (policy : Policy) (request response : LineMap) (freshness : Freshness)
        → freshness.lifetime ≤ freshness.age → asks policy request response freshness ≡ directed request }
    ensures allowed { (policy : Policy) (stored request : Request) (response : LineMap) (freshness : Freshness)
        (decision : Decision) → DecidesByUnder policy stored request response freshness decision
        → IsFromStore decision → freshness.lifetime ≤ freshness.age
        → (¬ (MustBeFresh policy.kind (tells policy response)))
        × (IsTakenStale (directed request.fields) freshness ⊎ IsServedMeanwhile (tells policy response) freshness) }
    ensures no_cache { (policy : Policy) (stored request : Request) (response : LineMap) (freshness : Freshness)
        (decision : Decision)
        → ((directed request.fields).no_cache ≡ true) ⊎ ((tells policy response).no_cache ≡ true)
        → DecidesByUnder policy stored request response freshness decision → ¬ (MayComeFromStore decision) }
{}

/// Theorem: the first targeted field that is present, valid and not empty governs a response
/// instead of Cache-Control and Expires. Other targeted fields don't count, and without one the
/// response is governed as in a cache without targeted fields (RFC 9213, section 2.2).
pub fn first_valid_target_governs()
    ensures first { (name : List ℕ) (names : List (List ℕ)) (response : LineMap) (said : Directives)
        → told_by (response name) ≡ Some said
        → governing (name ∷ names) response ≡ record { directives = said; by_expires = false } }
    ensures invalid { (name : List ℕ) (names : List (List ℕ)) (response : LineMap) → told_by (response name) ≡ None
        → governing (name ∷ names) response ≡ governing names response }
    ensures none { (response : LineMap) → governing [] response ≡ by_itself response }
{}

/// Theorem: after `set_all` of the validation fields a request has exactly the response's
/// validators in If-None-Match and If-Modified-Since, and each other field is unchanged.
#[tactic(auto, using(crate::proofs::ValidatingLemmas::conditional))]
pub fn validation_makes_requests_conditional()
    ensures { (received : ℕ) (request response : LineMap)
        → IsConditional received request response (set_all request (validation_fields received response)) }
{}

/// Theorem: after `set_all` of the freshening fields a stored response has each field of the 304
/// instead of its own, except those that no update changes. (`HeaderMap` ensures `IsHeaderMap` of
/// each map.)
#[tactic(auto, using(crate::proofs::FresheningLemmas::freshens))]
pub fn freshening_replaces_each_field()
    ensures { (stored : LineMap) (update : Entries FieldValue) → IsHeaderMap update → (name : List ℕ)
        → set_all stored (freshening_fields update) name ≡ freshened stored (lines_at update) name }
{}

//! Theorems about the definitions alone. To cite one in a proof, call it.
ghost use Rattle.std.specs.Prelude.{◌≡◌, ◌≢◌, ◌↔◌, ◌⊎◌, ◌∷◌, [], ◌++◌, ◌+◌, ◌<◌, ◌^◌, ℕ, List, Some, None};
ghost use Rattle.std.specs.Prelude.{Contains, IsTrue, codes, length};
ghost use Rattle.headers.{specs.LineMap.{LineMap, fields_of, set_all}, specs.Lines.Line};
ghost use Rattle.decide_cors.{specs.Answer.{AreSame, IsAnswer}, specs.Browser.{CorsCheck, IsExposed, IsOkStatus}};
ghost use Rattle.decide_cors.{specs.Browser.{IsPreflightFor, IsSentFor, PreflightPasses, Request}, specs.Cache.Serves};
ghost use Rattle.decide_cors.{specs.Policy.Policy, specs.declared.policy.CorsAnswer.CorsAnswer};
ghost use Rattle.decide_cors.specs.declared.rules.CorsRules.{CorsRules};
ghost use Rattle.decide_cors.specs.Rules.{AllowsCredentials, AllowsOrigin, AllowsRequest, Exposes, IsLawful};
ghost use Rattle.decide_cors.specs.Rules.{IsPolicyOf};

/// Theorem: a request has exactly one answer: one kind, one permission, and one list of fields.
/// (With one more, the field lines of `Vary` must fit a `Vec`.)
#[tactic(auto, using(crate::proofs::MadeLemmas::some_answer, crate::proofs::SameLemmas::answer_once))]
pub fn request_has_one_answer()
    ensures some { (policy : Policy) (method : List ℕ) (sent response : LineMap)
        → length (response (codes "vary")) + 1 < 2 ^ 63
        → (answer : CorsAnswer) × IsAnswer policy method sent response answer }
    ensures one { (policy : Policy) (method : List ℕ) (sent response : LineMap) (a b : CorsAnswer)
        → IsAnswer policy method sent response a → IsAnswer policy method sent response b → AreSame a b }
{}

/// Theorem: a browser's CORS check passes exactly if the rules allow the origin and the
/// credentials. This holds after `set_all` of the answer's fields, whatever fields the response had
/// before.
pub fn check_goes_by_rules()
    ensures { (rules : CorsRules) (policy : Policy) (method : List ℕ) (sent response before : LineMap)
        (answer : CorsAnswer) (request : Request) → IsLawful rules → IsPolicyOf rules policy
        → IsAnswer policy method sent response answer → sent (codes "origin") ≡ request.origin ∷ []
        → CorsCheck (set_all before (fields_of answer.fields.items)) request
        ↔ (AllowsOrigin rules request.origin × AllowsCredentials rules request.credentials) }
{}

/// Theorem: after a preflight that is answered with a status of 200 to 299, a browser sends the
/// request exactly if the rules allow it. They must allow its origin, its credentials, its method
/// and each field name that isn't safelisted.
pub fn preflight_goes_by_rules()
    ensures { (rules : CorsRules) (policy : Policy) (method : List ℕ) (sent response before : LineMap)
        (answer : CorsAnswer) (request : Request) (status : ℕ) → IsLawful rules → IsPolicyOf rules policy
        → IsAnswer policy method sent response answer → IsPreflightFor request method sent → IsOkStatus status
        → PreflightPasses status (set_all before (fields_of answer.fields.items)) request
        ↔ AllowsRequest rules request }
{}

/// Theorem: of a response that passed the check, scripts may read exactly the fields that the rules
/// expose.
pub fn exposed_goes_by_rules()
    ensures { (rules : CorsRules) (policy : Policy) (method : List ℕ) (sent response before : LineMap)
        (answer : CorsAnswer) (request : Request) → IsLawful rules → IsPolicyOf rules policy
        → IsAnswer policy method sent response answer → IsSentFor request sent
        → CorsCheck (set_all before (fields_of answer.fields.items)) request → (name : Line)
        → IsExposed (set_all before (fields_of answer.fields.items)) request name ↔ Exposes rules name }
{}

/// Theorem: an answer says that a request is allowed exactly if the rules allow its origin.
pub fn allowed_goes_by_rules()
    ensures { (rules : CorsRules) (policy : Policy) (method : List ℕ) (sent response : LineMap)
        (answer : CorsAnswer) (origin : Line) → IsPolicyOf rules policy
        → IsAnswer policy method sent response answer → sent (codes "origin") ≡ origin ∷ []
        → IsTrue answer.is_allowed ↔ AllowsOrigin rules origin }
{}

/// Theorem: if a stored response is used for another request of its method, that request would have
/// got the same fields. `Vary` decides whether a cache uses it so; a cache stores no response to
/// OPTIONS (RFC 9110, section 9.3.7).
pub fn stored_lines_are_own()
    ensures { (policy : Policy) (method : List ℕ) (r s response : LineMap) (a b : CorsAnswer)
        → IsAnswer policy method r response a → IsAnswer policy method s response b → method ≢ codes "OPTIONS"
        → Serves (set_all response (fields_of a.fields.items) (codes "vary")) r s
        → fields_of a.fields.items ≡ fields_of b.fields.items }
{}

/// Theorem: the field lines of `Vary` stay, and at most `origin` is added after them.
#[tactic(auto, using(crate::proofs::VaryLemmas::vary_stays))]
pub fn vary_stays()
    ensures { (policy : Policy) (method : List ℕ) (sent response : LineMap) (answer : CorsAnswer)
        → IsAnswer policy method sent response answer
        → (set_all response (fields_of answer.fields.items) (codes "vary") ≡ response (codes "vary"))
        ⊎ (set_all response (fields_of answer.fields.items) (codes "vary")
        ≡ response (codes "vary") ++ codes "origin" ∷ []) }
{}

/// Theorem: `origin` in Vary is exact where a policy lists an origin (RFC 9110, section 12.5.5): a
/// response to a request from it has that origin in Access-Control-Allow-Origin, and one to a
/// request without Origin has no such field, whatever they had before.
pub fn listed_origin_changes_the_fields()
    ensures listed { (policy : Policy) (origins : List Line) (method : List ℕ) (sent response before : LineMap)
        (answer : CorsAnswer) (origin : Line) → policy.origins ≡ Some origins → Contains origins origin
        → IsAnswer policy method sent response answer → sent (codes "origin") ≡ origin ∷ []
        → set_all before (fields_of answer.fields.items) (codes "access-control-allow-origin") ≡ origin ∷ [] }
    ensures absent { (policy : Policy) (origins : List Line) (method : List ℕ) (sent response before : LineMap)
        (answer : CorsAnswer) → policy.origins ≡ Some origins → IsAnswer policy method sent response answer
        → sent (codes "origin") ≡ []
        → set_all before (fields_of answer.fields.items) (codes "access-control-allow-origin") ≡ [] }
{}

/// Theorem: the fields depend on the method, `Origin` and `Access-Control-Request-Method` alone.
#[tactic(auto, using(crate::proofs::SameLemmas::same_lines))]
pub fn lines_go_by_origin()
    ensures { (policy : Policy) (method : List ℕ) (r s response : LineMap) (a b : CorsAnswer)
        → IsAnswer policy method r response a → IsAnswer policy method s response b
        → r (codes "origin") ≡ s (codes "origin")
        → r (codes "access-control-request-method") ≡ s (codes "access-control-request-method")
        → fields_of a.fields.items ≡ fields_of b.fields.items }
{}

/// Theorem: if any origin is allowed, two requests of one kind get the same fields.
#[tactic(auto, using(crate::proofs::SameLemmas::any_lines_same))]
pub fn any_origin_gets_equal_lines()
    ensures { (policy : Policy) (m n : List ℕ) (r s response : LineMap) (a b : CorsAnswer)
        → IsAnswer policy m r response a → IsAnswer policy n s response b → policy.origins ≡ None
        → a.kind ≡ b.kind → fields_of a.fields.items ≡ fields_of b.fields.items }
{}

//! Theorems about the definitions alone. To cite one in a proof, call it.
ghost use Rattle.std.specs.Prelude.{◌≡◌, ◌≢◌, ◌↔◌, ◌⊎◌, ◌∷◌, [], ℕ, Contains, Option, Some, codes, false, true};
ghost use Rattle.headers.specs.{LineMap.{LineMap, fields_of, set_all}, Merge.merge, Places.comma};
ghost use Rattle.decide_cors.specs.Browser.{CorsCheck, IsOkStatus, IsPreflightFor, PreflightPasses, Request as Sent};
ghost use Rattle.decide_cors.specs.{Cache.Serves, Policy.Policy, Rules.{AllowsCredentials, AllowsOrigin}};
ghost use Rattle.decide_cors.specs.{Rules.{AllowsRequest, IsLawful, IsPolicyOf}, declared.rules.CorsRules.CorsRules};
ghost use Rattle.decide_resource.specs.{Answers.{AreSame, FitsMemory, IsAnswer, IsSelected}};
ghost use Rattle.decide_resource.specs.{Applies.{applies, is_read}};
ghost use Rattle.decide_resource.specs.{Applies.{is_implemented, methods, needs_condition, rule}, Fields.status_denied};
ghost use Rattle.decide_resource.specs.{Guards.ReplacesNamed, Reasons.{Before, IsFirst}, Requests.{Request, get_of}};
ghost use Rattle.decide_resource.specs.{Requests.{head_of, unconditional}, Vary.{AreAlike, ChooseAlike, SelectTheSame}};
ghost use Rattle.decide_resource.specs.declared.answer.{Answer.Answer, Sends.TheVariants.{Perform, Planned}};
ghost use Rattle.decide_resource.specs.declared.reason.Reason.{Reason, TheVariants.{Admitted, Denied}};
ghost use Rattle.decide_resource.specs.declared.reason.Reason.TheVariants.{MethodNotAllowed, Options, Preflight};
ghost use Rattle.decide_resource.specs.declared.reason.Reason.TheVariants.{PreconditionRequired, UnknownMethod};
ghost use Rattle.decide_resource.specs.declared.reason.Reason.TheVariants.{UnmetExpectation};
ghost use Rattle.decide_resource.specs.declared.{denied.Denied.Denied as Denial, resource.Resource.Resource};
ghost use Rattle.decide_preconditions.specs.{Preconditions.IsUnconditional, declared.plan.Plan.Plan};
ghost use Rattle.decide_preconditions.specs.declared.plan.Plan.TheVariants.{Full, NotModified};

/// Theorem: every request has exactly one first reason: reasons of one stage exclude each other.
pub fn request_has_one_reason()
    ensures some { (present : ℕ) (resource : Resource) (request : Request)
        → (reason : Reason) × IsFirst (applies present resource request) reason }
    ensures one { (present : ℕ) (resource : Resource) (request : Request) (a b : Reason)
        → IsFirst (applies present resource request) a → IsFirst (applies present resource request) b → a ≡ b }
{}

/// Theorem: every request selects exactly one place: that of a representation, or none.
pub fn request_selects_one_place()
    ensures some { (resource : Resource) (fields : LineMap)
        → (place : Option ℕ) × IsSelected resource fields place }
    ensures one { (resource : Resource) (fields : LineMap) (a b : Option ℕ)
        → IsSelected resource fields a → IsSelected resource fields b → a ≡ b }
{}

/// Theorem: a request has exactly one answer: one reason, one status, one list of fields, one
/// content, if what the resource lists fits memory.
pub fn request_has_one_answer()
    ensures some { (present : ℕ) (resource : Resource) (request : Request) → FitsMemory resource
        → (answer : Answer) × IsAnswer present resource request answer }
    ensures one { (present : ℕ) (resource : Resource) (request : Request) (a b : Answer)
        → IsAnswer present resource request a → IsAnswer present resource request b → AreSame a b }
{}

/// Theorem: a browser's CORS check of any answer, errors included, passes exactly if the policy's
/// rules allow the origin and the credentials. This holds after `set_all` of the answer's fields,
/// whatever fields the response had before.
pub fn answer_is_shared_by_rules()
    ensures { (present : ℕ) (resource : Resource) (request : Request) (answer : Answer) (rules : CorsRules)
        (policy : Policy) (before : LineMap) (sent : Sent) → resource.cors ≡ Some policy
        → IsAnswer present resource request answer → IsLawful rules → IsPolicyOf rules policy
        → request.fields (codes "origin") ≡ sent.origin ∷ []
        → CorsCheck (set_all before (fields_of answer.fields.items)) sent
        ↔ (AllowsOrigin rules sent.origin × AllowsCredentials rules sent.credentials) }
{}

/// Theorem: after the answer to a preflight, which is an OPTIONS, sent with a status of 200 to 299,
/// a browser sends the request exactly if the policy's rules allow it.
pub fn preflight_passes_by_rules()
    ensures { (present : ℕ) (resource : Resource) (request : Request) (answer : Answer) (rules : CorsRules)
        (policy : Policy) (before : LineMap) (sent : Sent) (status : ℕ) → resource.cors ≡ Some policy
        → IsAnswer present resource request answer → IsLawful rules → IsPolicyOf rules policy
        → IsPreflightFor sent request.method request.fields → IsOkStatus status
        → PreflightPasses status (set_all before (fields_of answer.fields.items)) sent ↔ AllowsRequest rules sent }
{}

/// Theorem: whatever else keeps a request from being performed decides before its preconditions do:
/// they never turn a 404, a 405, a 406 or a redirect into a 304, a 412 or a 428 (RFC 9110, section
/// 13.2.1; RFC 6585, section 3).
pub fn preconditions_come_last()
    ensures { (present : ℕ) (resource : Resource) (request : Request) (a b : Answer)
        → IsAnswer present resource request a → IsAnswer present resource (unconditional request) b
        → b.reason ≢ Admitted → b.reason ≢ PreconditionRequired → a.reason ≡ b.reason }
{}

/// Theorem: where a method needs a condition, it is never performed on what its client doesn't
/// name: the selected representation has a tag that If-Match lists, by strong comparison; there is
/// nothing to replace and If-None-Match is `*`; or, where dates are strong and If-Match is absent,
/// its date is If-Unmodified-Since (RFC 6585, section 3). GET and HEAD are left out, and CONNECT,
/// OPTIONS and TRACE, whose preconditions don't count (RFC 9110, section 13.2.1).
pub fn performed_method_replaces_what_it_names()
    ensures { (present : ℕ) (resource : Resource) (request : Request) (answer : Answer)
        → needs_condition (rule resource request) ≡ true → is_read request.method ≡ false
        → ¬ (IsUnconditional request.method) → IsAnswer present resource request answer
        → answer.sends ≡ Perform → ReplacesNamed present resource request }
{}

/// Theorem: Allow lists exactly the methods to which 405 doesn't apply (RFC 9110, section 10.2.1).
pub fn allow_is_exact()
    ensures { (present : ℕ) (resource : Resource) (request : Request)
        → Contains (methods resource.rules.items) request.method
        ↔ (applies present resource request MethodNotAllowed ≡ false) }
{}

/// Theorem: a GET without Range gets the status and the fields of a HEAD with the same fields (RFC
/// 9110, section 9.3.2). The server sends its content to GET alone.
pub fn head_is_answered_as_get()
    ensures { (present : ℕ) (resource : Resource) (request : Request) (answer : Answer)
        → IsAnswer present resource (get_of request) answer → IsAnswer present resource (head_of request) answer }
{}

/// Theorem: Vary names each field that can change the answer (RFC 9110, section 12.5.5). If the
/// Vary of an answer lets a cache use it for another request, that would have got the same answer.
/// Both have the same version, method, target, Host, Expect, conditions, Range and If-Range, and the
/// same content with its type and coding, and for PUT with Content-Range; and they are denied alike.
/// No cache stores an answer to OPTIONS (section 9.3.7).
pub fn vary_is_sound()
    ensures { (present : ℕ) (resource : Resource) (r s : Request) (a b : Answer) (before : LineMap)
        → IsAnswer present resource r a → IsAnswer present resource s b → AreAlike r s
        → r.method ≢ codes "OPTIONS"
        → Serves (set_all before (fields_of a.fields.items) (codes "vary")) r.fields s.fields → AreSame a b }
{}

/// Theorem: a 304 or a 412 is about the representation that the request would get without its
/// conditions, so it was decided by the validators of that one (RFC 9110, section 13.1).
pub fn conditions_are_about_the_selected()
    ensures { (present : ℕ) (resource : Resource) (request : Request) (a b : Answer) (p q : Option ℕ)
        (plan other : Plan) → IsAnswer present resource request a
        → IsAnswer present resource (unconditional request) b → a.sends ≡ Planned p plan → b.sends ≡ Planned q other
        → p ≡ q }
{}

/// Theorem: the answer depends on what `vary_is_sound` names, and on Accept, Accept-Language,
/// Accept-Encoding, Origin and Access-Control-Request-Method alone. It doesn't depend on other
/// fields, such as those that a gateway adds.
pub fn other_fields_change_nothing()
    ensures { (present : ℕ) (resource : Resource) (r s : Request) (answer : Answer) → AreAlike r s
        → ChooseAlike r.fields s.fields
        → IsAnswer present resource r answer ↔ IsAnswer present resource s answer }
{}

/// Theorem: of Accept, Accept-Language and Accept-Encoding only the members change the answer, and
/// not their field lines or the white space around them (RFC 9110, section 5.3).
pub fn members_alone_select()
    ensures { (present : ℕ) (resource : Resource) (r s : Request) (answer : Answer) → AreAlike r s
        → SelectTheSame r.fields s.fields
        → IsAnswer present resource r answer ↔ IsAnswer present resource s answer }
{}

/// Theorem: Allow of an OPTIONS and of a 405 is the list of the resource's methods (RFC 9110,
/// sections 9.3.7 and 10.2.1). A method of the list never gets 405 or 501, and any other gets 400,
/// 421, 501 or 405, or is denied.
pub fn options_agrees_with_methods()
    ensures told { (present : ℕ) (resource : Resource) (request : Request) (answer : Answer) (before : LineMap)
        → IsAnswer present resource request answer
        → (answer.reason ≡ Options) ⊎ (answer.reason ≡ MethodNotAllowed)
        → set_all before (fields_of answer.fields.items) (codes "allow")
        ≡ merge comma (methods resource.rules.items) ∷ [] }
    ensures listed { (present : ℕ) (resource : Resource) (request : Request) (answer : Answer)
        → IsAnswer present resource request answer → Contains (methods resource.rules.items) request.method
        → (answer.reason ≢ MethodNotAllowed) × (answer.reason ≢ UnknownMethod) }
    ensures others { (present : ℕ) (resource : Resource) (request : Request) (answer : Answer)
        → IsAnswer present resource request answer → ¬ (Contains (methods resource.rules.items) request.method)
        → Before answer.reason UnmetExpectation × (answer.reason ≢ Preflight) }
{}

/// Theorem: a preflight for a resource with a policy gets 204, also if the server denies it, and a
/// browser sends the request after it exactly if the policy's rules allow it. Only an invalid host
/// and another server's host decide before.
pub fn preflight_is_answered()
    ensures { (present : ℕ) (resource : Resource) (request : Request) (answer : Answer) (rules : CorsRules)
        (policy : Policy) (before : LineMap) (sent : Sent) → resource.cors ≡ Some policy
        → IsAnswer present resource request answer → IsLawful rules → IsPolicyOf rules policy
        → IsPreflightFor sent request.method request.fields
        → Before answer.reason Preflight ⊎ ((answer.status ≡ Some 204)
        × (PreflightPasses 204 (set_all before (fields_of answer.fields.items)) sent ↔ AllowsRequest rules sent)) }
{}

/// Theorem: a request that the server denies learns nothing of the resource (RFC 9110, section
/// 15.5.4). It gets the status of the denial, unless its host or a preflight decides before; and two
/// resources with the same hosts and the same policy, whatever their states, methods and
/// representations, give it the same answer, at any time.
pub fn denied_request_learns_nothing()
    ensures status { (present : ℕ) (resource : Resource) (request : Request) (answer : Answer) (why : Denial)
        → request.denied ≡ Some why → IsAnswer present resource request answer
        → Before answer.reason Denied ⊎ (answer.status ≡ Some (status_denied why)) }
    ensures same { (present later : ℕ) (a b : Resource) (request : Request) (x y : Answer) (why : Denial)
        → request.denied ≡ Some why → a.hosts ≡ b.hosts → a.cors ≡ b.cors → IsAnswer present a request x
        → IsAnswer later b request y → AreSame x y }
{}

/// Theorem: 405 is for a method that the server implements, and 501 for one that it doesn't (RFC
/// 9110, sections 9.1 and 15.6.2).
pub fn statuses_agree_with_the_server()
    ensures not_allowed { (present : ℕ) (resource : Resource) (request : Request) (answer : Answer)
        → IsAnswer present resource request answer → answer.reason ≡ MethodNotAllowed
        → is_implemented resource.implemented.items request.method ≡ true }
    ensures unknown { (present : ℕ) (resource : Resource) (request : Request) (answer : Answer)
        → IsAnswer present resource request answer → answer.reason ≡ UnknownMethod
        → is_implemented resource.implemented.items request.method ≡ false }
{}

/// Theorem: a 304 has the ETag of the 200 that the request would get without its conditions (RFC
/// 9110, section 15.4.5).
pub fn not_modified_has_the_tag()
    ensures { (present : ℕ) (resource : Resource) (request : Request) (a b : Answer) (p q : Option ℕ)
        (before : LineMap) → IsAnswer present resource request a
        → IsAnswer present resource (unconditional request) b → a.sends ≡ Planned p NotModified
        → b.sends ≡ Planned q Full → set_all before (fields_of a.fields.items) (codes "etag")
        ≡ set_all before (fields_of b.fields.items) (codes "etag") }
{}

/// Theorem: a 304 without ETag has the Last-Modified of the 200 that the request would get without
/// its conditions, so a cache finds a validator to update what it stored (RFC 9110, section
/// 15.4.5).
pub fn not_modified_has_the_date()
    ensures { (present : ℕ) (resource : Resource) (request : Request) (a b : Answer) (p q : Option ℕ)
        (before : LineMap) → IsAnswer present resource request a
        → IsAnswer present resource (unconditional request) b → a.sends ≡ Planned p NotModified
        → b.sends ≡ Planned q Full → set_all before (fields_of a.fields.items) (codes "etag") ≡ []
        → set_all before (fields_of a.fields.items) (codes "last-modified")
        ≡ set_all before (fields_of b.fields.items) (codes "last-modified") }
{}

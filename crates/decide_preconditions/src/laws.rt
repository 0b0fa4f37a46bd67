//! Theorems about the definitions alone. To cite one in a proof, call it.
ghost use Rattle.std.specs.Prelude.{◌≡◌, ◌+◌, ◌*◌, ◌<◌, ◌≤◌, ◌↔◌, ℕ, Bool, List, Option, [], ◌∷◌, IsTrue, codes, false};
ghost use Rattle.std.specs.Prelude.{length, sum_by, true};
ghost use Rattle.headers.specs.{EntityTag.{AreTags, StronglyEqual, WeaklyEqual}, EntityTagRange.star, LineMap.LineMap};
ghost use Rattle.{headers.specs.{LineMap.{remove, set_all}, Lines.Line}, http_header.specs.FieldValue.FieldValue};
ghost use Rattle.decide_preconditions.specs.{Fields.{IsModifiedBy, SendsFields, fields_sent}, Parts.AreCoalesced};
ghost use Rattle.decide_preconditions.specs.{Parts.part_size, Plans.{HasPlan, IsPlanned, IsSamePlan}};
ghost use Rattle.decide_preconditions.specs.{Preconditions.{Answers, IsGetOrHead}, Selection.{AsksFor, HasSelection}};
ghost use Rattle.decide_preconditions.specs.{Selection.{IsSameSelection, Selects}, Limits.are_too_many, Tags.are_equal};
ghost use Rattle.decide_preconditions.specs.{Tags.names, declared.selection.Selection.Selection};
ghost use Rattle.decide_preconditions.specs.declared.{content.Content.Content, limits.RangeLimits.RangeLimits};
ghost use Rattle.decide_preconditions.specs.declared.{part.Part.Part, plan.Plan.Plan};
ghost use Rattle.decide_preconditions.specs.declared.precondition.Precondition.{Precondition, TheVariants.Perform};
ghost use Rattle.decide_preconditions.specs.declared.resource.TargetState.{TargetState, TheVariants.{Missing, Current}};
ghost use Rattle.decide_preconditions.specs.declared.{resource.Validators.Validators, tags.Comparison.Comparison};
ghost use Rattle.decide_preconditions.specs.declared.tags.Comparison.TheVariants.{Strong, Weak};

/// Theorem: every request has exactly one answer by the definition `Answers`; `evaluate` returns
/// it.
#[tactic(auto, using(crate::proofs::PreconditionLemmas::some_answer, crate::proofs::PreconditionLemmas::one_answer))]
pub fn request_has_one_answer()
    ensures some { (present : ℕ) (request : LineMap) (resource : TargetState) (method : List ℕ)
        → (answer : Precondition) × Answers present request resource method answer }
    ensures one { (present : ℕ) (request : LineMap) (resource : TargetState) (method : List ℕ) (a b : Precondition)
        → Answers present request resource method a → Answers present request resource method b → a ≡ b }
{}

/// Theorem: a request without the four fields is performed.
#[tactic(auto, using(crate::proofs::PreconditionLemmas::unconditional))]
pub fn unconditional_is_performed()
    ensures { (present : ℕ) (request : LineMap) (resource : TargetState) (method : List ℕ)
        → request (codes "if-match") ≡ [] → request (codes "if-none-match") ≡ []
        → request (codes "if-modified-since") ≡ [] → request (codes "if-unmodified-since") ≡ []
        → Answers present request resource method Perform }
{}

/// Theorem: a GET or a HEAD of what is missing is performed, whatever preconditions it has (RFC
/// 9110, section 13.2.1): it gets neither 304 nor 412.
#[tactic(auto, using(crate::proofs::PreconditionLemmas::missing_performed))]
pub fn read_of_missing_is_performed()
    ensures { (present : ℕ) (request : LineMap) (method : List ℕ)
        → IsGetOrHead method → Answers present request Missing method Perform }
{}

/// Theorem: `If-Match: *` is true exactly if there is a current representation, and `If-None-Match:
/// *` exactly if there is none.
#[tactic(auto, using(crate::proofs::PreconditionLemmas::star_names))]
pub fn star_goes_by_existence()
    ensures missing { (comparison : Comparison) (lines : List Line) → names comparison lines Missing ≡ false }
    ensures current { (comparison : Comparison) (validators : Validators)
        → names comparison (star ∷ []) (Current validators) ≡ true }
{}

/// Theorem: entity tags are compared by their parts (RFC 9110, section 8.8.3.2). Strongly, neither
/// is weak and their opaque parts are equal; weakly, their opaque parts are equal.
#[tactic(auto, using(crate::proofs::TagLemmas::strongly_equal, crate::proofs::TagLemmas::weakly_equal))]
pub fn tags_are_compared_by_their_parts()
    ensures strong { (a b : Line) → IsTrue (are_equal Strong a b) ↔ AreTags StronglyEqual a b }
    ensures weak { (a b : Line) → IsTrue (are_equal Weak a b) ↔ AreTags WeaklyEqual a b }
{}

/// Theorem: the parts together have at most as many bytes as the whole, whatever ranges were asked
/// for.
pub fn parts_fit_the_whole()
    ensures { (len gap : ℕ) (parts : List Part) → AreCoalesced len gap parts → sum_by part_size parts ≤ len }
{}

/// Theorem: no response with several parts is longer than twice the representation, whatever ranges
/// were asked for. This holds if each part costs at most as many further bytes as the limits say.
pub fn parts_fit_twice_the_whole()
    ensures { (present : ℕ) (method : List ℕ) (request : LineMap) (current : Validators) (len : ℕ)
        (limits : RangeLimits) (set : List ℕ) (parts : List Part)
        → AsksFor present method request current len limits set parts → are_too_many limits len parts ≡ false
        → 1 < length parts → sum_by part_size parts + length parts * limits.head ≤ len + len }
{}

/// Theorem: every request has exactly one selection. Its parts are the only ones that are coalesced
/// and that contain exactly the requested positions and those of small gaps.
pub fn request_has_one_selection()
    ensures some { (present : ℕ) (method : List ℕ) (request : LineMap) (current : Validators) (len : ℕ)
        (limits : RangeLimits) → HasSelection present method request current len limits }
    ensures one { (present : ℕ) (method : List ℕ) (request : LineMap) (current : Validators) (len : ℕ)
        (limits : RangeLimits) (s t : Selection)
        → Selects present method request current len limits s → Selects present method request current len limits t
        → IsSameSelection s t }
{}

/// Theorem: every request has a plan, or the server performs its method; and no two plans of a
/// request differ in status or parts.
pub fn request_has_one_plan()
    ensures some { (present : ℕ) (method : List ℕ) (request : LineMap) (resource : TargetState) (len : ℕ)
        (limits : RangeLimits) → HasPlan present method request resource len limits }
    ensures one { (present : ℕ) (method : List ℕ) (request : LineMap) (resource : TargetState) (len : ℕ)
        (limits : RangeLimits) (p q : Option Plan)
        → IsPlanned present method request resource len limits p
        → IsPlanned present method request resource len limits q → IsSamePlan p q }
{}

/// Theorem: a HEAD has exactly the plan of the same GET without Range. So it has the same status
/// and fields, which are determined by the plan.
#[tactic(auto, using(crate::proofs::HeadLemmas::head_as_get))]
pub fn head_is_planned_as_get()
    ensures { (present : ℕ) (request : LineMap) (resource : TargetState) (len : ℕ) (limits : RangeLimits)
        (plan : Option Plan)
        → IsPlanned present (codes "HEAD") request resource len limits plan
        ↔ IsPlanned present (codes "GET") (remove request (codes "range")) resource len limits plan }
{}

/// Theorem: `set_all` of a response's fields sets them, whatever fields the server had set. ETag,
/// Last-Modified, Accept-Ranges, Content-Range, Content-Length and Content-Type have exactly the
/// field lines that RFC 9110 requires of the plan. Content-Encoding, Content-Digest and Content-MD5
/// stay or are removed. Each other field is unchanged.
pub fn response_sets_its_fields()
    ensures { (present : ℕ) (plan : Plan) (is_known : Bool) (resource : TargetState) (content : Content)
        (multipart : FieldValue) (before : LineMap)
        → SendsFields present plan is_known resource content multipart before
        (set_all before (fields_sent present plan is_known resource content multipart)) }
{}

/// Theorem: Last-Modified is never later than the response (RFC 9110, section 8.8.2.1), whatever
/// date the resource has and whatever fields the server had set.
#[tactic(auto, using(crate::proofs::FieldLemmas::modified_by_set))]
pub fn date_is_not_after_present()
    ensures { (present : ℕ) (plan : Plan) (is_known : Bool) (resource : TargetState) (content : Content)
        (multipart : FieldValue) (before : LineMap)
        → IsModifiedBy present
        (set_all before (fields_sent present plan is_known resource content multipart) (codes "last-modified")) }
{}

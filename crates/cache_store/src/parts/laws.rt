//! Theorems about the definitions, and about every list of calls of a store. To cite one in a proof, call it.
ghost use Rattle.std.specs.Prelude.{◌∷◌, ◌≡◌, ◌⊎◌, false, IsTrue, length, List, Some, true, ℕ};
ghost use Rattle.headers.specs.{EntityTag.is_tag, LineMap.LineMap, Lines.Line};
ghost use Rattle.cache_store.specs.{declared.limits.Limits.Limits, Numbers.numbered, Contents.{Contents, responses_at}};
ghost use Rattle.cache_store.specs.{Parts.Extents.{is_whole, IsOf, joined, joint, strong_tag, Touch}, Room.HasRoom};
ghost use Rattle.cache_store.specs.{Parts.Answers.{bytes_within, IsWithin}, declared.parts.extent.Extent.Extent};
ghost use Rattle.cache_store.specs.declared.parts.{store.PartStore.PartStore, store_recording.Recorded.Recorded};
ghost use Rattle.cache_store.specs.declared.parts.store_answering.{PartAnswer.PartAnswer, PartLookup.TheVariants.Serve};
ghost use Rattle.cache_store.specs.Parts.{Answering.{HasBytesAt, IsLookedUp}, Kept.{limits_of_parts, parts_of}};
ghost use Rattle.cache_store.specs.Parts.History.{AreBytesOf, AreReceived, PartCall.Received, PartHistory, Run};
ghost use Rattle.cache_store.specs.Parts.Recording.{IsNotTaken, IsRecordedAs, IsTaken, IsWhole, NeedsMemory};
ghost use Rattle.cache_policy.specs.{Policies.Policy, Requests.Request, Updating.is_weak};
ghost use Rattle.cache_rules.specs.{declared.stored.StoredResponse.StoredResponse, Stored.fields_of_stored};
ghost use Rattle.cache_rules.specs.declared.storing.Reception.{Reception};

/// If two parts that overlap or adjoin are of one representation, so is their combination. So it has
/// exactly the bytes that the representation has there, and which part came first makes no difference.
pub fn combinations_are_of_the_representation()
    ensures joined { (representation : List ℕ) (one other : Extent) (own new : List ℕ)
        → IsOf representation one own → IsOf representation other new → Touch one other
        → IsOf representation (joint one other) (joined one own other new) }
    ensures order { (representation : List ℕ) (one other : Extent) (own new : List ℕ)
        → IsOf representation one own → IsOf representation other new → Touch one other
        → joined one own other new ≡ joined other new one own }
{}

/// How three parts are grouped makes no difference either.
#[tactic(auto, using(crate::proofs::parts::PartLemmas::joined_group))]
pub fn combinations_are_associative()
    ensures { (representation : List ℕ) (a b c : Extent) (x y z : List ℕ)
        → IsOf representation a x → IsOf representation b y → IsOf representation c z
        → Touch a b → Touch b c
        → joined (joint a b) (joined a x b y) c z ≡ joined a x (joint b c) (joined b y c z) }
{}

/// A combination that is the whole has all bytes of the representation.
#[tactic(auto, using(crate::proofs::parts::PartLemmas::whole_is))]
pub fn whole_parts_are_the_representation()
    ensures { (representation : List ℕ) (extent : Extent) (bytes : List ℕ) → IsOf representation extent bytes
        → is_whole extent ≡ true → bytes ≡ representation }
{}

/// The bytes that answer a request are those that the representation has there.
#[tactic(auto, using(crate::proofs::parts::PartLemmas::within_is))]
pub fn answers_are_of_the_representation()
    ensures { (representation : List ℕ) (outer inner : Extent) (content : List ℕ)
        → IsOf representation outer content → IsWithin outer inner
        → IsOf representation inner (bytes_within outer content inner) }
{}

/// A strong validator is an entity tag, and not weak.
pub fn strong_tags_are_strong()
    ensures { (message : LineMap) (tag : Line) → strong_tag message ≡ Some tag
        → (is_tag tag ≡ true) × (is_weak tag ≡ false) }
{}

/// Theorem: after any calls of a new store, each byte of a 206 is one that was received at its position.
/// A response with the strong validator of the stored part was recorded under this key, is a part of a
/// representation of this length, and has this byte there. The 206 has as many bytes as it says. This
/// holds whether or not calls run out of memory.
pub fn served_bytes_were_received()
    ensures { (policy : Policy) (limits : Limits) (calls : PartHistory) (contents : Contents)
        → Run policy limits calls contents → (key : List ℕ) (most : ℕ) (request : Request) (now : ℕ)
        (answer : PartAnswer) (bytes : List ℕ)
        → IsLookedUp policy most request now (responses_at key contents) (Serve answer)
        → HasBytesAt (responses_at key contents) answer.number answer.part bytes
        → (stored : StoredResponse) × (tag : Line)
        × (numbered answer.number (responses_at key contents) ≡ Some stored)
        × (strong_tag (fields_of_stored stored) ≡ Some tag) × AreBytesOf calls key tag answer.part bytes }
{}

/// Theorem: after any calls of a new store, each byte of a whole that `record` returns is one that was
/// received at its position, by that call or an earlier one, with the strong validator of the whole. The
/// representation has as many bytes.
pub fn wholes_were_received()
    ensures { (policy : Policy) (limits : Limits) (calls : PartHistory) (contents : Contents)
        → Run policy limits calls contents → (key : List ℕ) (came : StoredResponse) (reception : Reception)
        (part : StoredResponse) → IsTaken policy (responses_at key contents) came reception part → IsWhole part
        → (tag : Line) × (strong_tag (fields_of_stored part) ≡ Some tag)
        × AreReceived (Received key came reception ∷ calls) key tag (length part.content) 0
        part.content }
{}

/// Theorem: `record` needs memory exactly if a part of the response is taken by itself or combined. If
/// none is, as of a 206 to a request with If-Range that isn't combined, it can't run out of memory. Each
/// other outcome is of a response that needs memory.
pub fn memory_is_for_what_is_taken()
    ensures untaken { (policy : Policy) (parts : List StoredResponse) (came : StoredResponse) (reception : Reception)
        → IsNotTaken policy parts came reception → ¬ (NeedsMemory policy parts came reception) }
    ensures taken { (policy : Policy) (limits : Limits) (key : List ℕ) (old new : Contents) (came : StoredResponse)
        (reception : Reception) (recorded : Recorded)
        → IsRecordedAs policy limits key old came reception new recorded
        → IsNotTaken policy (responses_at key old) came reception
        ⊎ NeedsMemory policy (responses_at key old) came reception }
{}

/// Theorem: a store of parts never has more parts, or bytes of them, than its limits.
pub fn memory_stays_within_the_limits()
    ensures { (store : PartStore) → HasRoom (limits_of_parts store) 0 0 (parts_of store) }
{}

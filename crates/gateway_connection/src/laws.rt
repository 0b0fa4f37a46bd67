//! Theorems about the definitions alone. To cite one in a proof, call it.
ghost use Rattle.std.specs.Prelude.{◌≡◌, ◌≢◌, ◌<◌, ◌≤◌, ◌++◌, [], List, ℕ, All, bytes_eq, codes, false, length, true};
ghost use Rattle.http1.specs.{Conservative.IsPlainRequest, Fields.Header, declared.conn.Limits.Limits};
ghost use Rattle.gateway_connection.specs.History.{IsReached, Past};
ghost use Rattle.gateway_connection.specs.Readers.{AreFirstOf, AreSpelled, IsSpelled, Message, Reader, TakesAll};
ghost use Rattle.gateway_connection.specs.Readers.{TakesOrRejects, message_of, part_now, read_request, whole_requests};
ghost use Rattle.gateway_connection.specs.Readers.{Dash, DashOrMark, NeedsMore, Takes, has_no_marks, spelled};
ghost use Rattle.gateway_connection.specs.ReadersInUse.{go, h11, in_use, old_chunks, old_head, plain_post, post_of};
ghost use Rattle.std.specs.List.{AllByRecursion};
ghost use Rattle.gateway_connection.specs.declared.origin.OriginConnection.{OriginConnection};

/// Theorem: each reader takes a request in plain form for exactly its method, its target and its content, and
/// leaves what follows it, or rejects it. The premise is that it takes no other field name of the request for
/// one of the two that frame content.
#[tactic(auto, using(crate::proofs::ReaderLemmas::plain_request_is_taken))]
pub fn plain_request_is_read_alike()
    ensures { (reader : Reader) (text rest : List ℕ) (plain : IsPlainRequest text)
        → All (IsSpelled reader) plain.fields
        → TakesOrRejects (message_of plain) rest (read_request reader (text ++ rest)) }
{}

/// Theorem: two such readers that take a request in plain form take the same, and leave the same bytes.
pub fn readers_cut_plain_requests_alike()
    ensures { (one other : Reader) (text rest : List ℕ) (plain : IsPlainRequest text) (a b : Message)
        (after_a after_b : List ℕ) → All (IsSpelled one) plain.fields → All (IsSpelled other) plain.fields
        → read_request one (text ++ rest) ≡ Takes a after_a
        → read_request other (text ++ rest) ≡ Takes b after_b → (a ≡ b) × (after_a ≡ after_b) }
{}

/// Theorem: whatever the history of calls, and whatever bytes follow, each reader takes of the bytes that a connection
/// wrote the requests that were put whole: their methods, targets and content, one after another, cut where
/// they were put, up to one that it rejects. It doesn't wait for more bytes before it has taken them all. The
/// premise is that it takes no other field name of these requests for one of the two that frame content.
#[tactic(auto, using(crate::proofs::WrittenLemmas::written_alike, crate::proofs::WrittenLemmas::reading_goes_on))]
pub fn written_requests_are_read_alike()
    ensures cut { (limits : Limits) (connection : OriginConnection) (past : Past) (reader : Reader) (more : List ℕ)
        (messages : List Message) (rest : List ℕ) → IsReached limits connection past
        → All (AreSpelled reader) (whole_requests past)
        → TakesAll reader ((past.sent ++ connection.output.items) ++ more) messages rest
        → length messages ≤ length (whole_requests past)
        → AreFirstOf (whole_requests past) (part_now past.now ++ more) messages rest }
    ensures goes_on { (limits : Limits) (connection : OriginConnection) (past : Past) (reader : Reader)
        (more : List ℕ) (messages : List Message) (rest : List ℕ) → IsReached limits connection past
        → All (AreSpelled reader) (whole_requests past)
        → TakesAll reader ((past.sent ++ connection.output.items) ++ more) messages rest
        → length messages < length (whole_requests past) → read_request reader rest ≢ NeedsMore }
{}

/// Theorem: a reader takes the names of the two fields that frame content for those, and no others, if it takes only
/// a dash for a dash; if the names have only letters, digits and dashes; or if they are other names even with a
/// dash for each other byte.
pub fn names_are_spelled()
    ensures dash { (reader : Reader) (field : Header) → reader.spelling ≡ Dash → IsSpelled reader field }
    ensures marks { (reader : Reader) (field : Header) → has_no_marks field.0 ≡ true → IsSpelled reader field }
    ensures unlike { (reader : Reader) (field : Header)
        → bytes_eq (spelled DashOrMark field.0) (codes "content-length") ≡ false
        → bytes_eq (spelled DashOrMark field.0) (codes "transfer-encoding") ≡ false → IsSpelled reader field }
{}

/// Theorem: of two requests in plain form, one after another, the readers that are named take the first.
pub fn readers_in_use_take_a_plain_request()
    ensures { AllByRecursion (λ reader. read_request reader (plain_post ++ plain_post)
        ≡ Takes (post_of (codes "hello")) plain_post) in_use }
{}

/// Theorem: of a request in HTTP/1.0 with chunks, h11 takes the chunks as its content, and Go leaves them, so that it
/// reads them as the next request.
#[tactic(auto, using(crate::proofs::ReaderLemmas::go_leaves_chunks, crate::proofs::ReaderLemmas::h11_takes_chunks))]
pub fn readers_in_use_differ()
    ensures go { read_request go (old_head ++ old_chunks) ≡ Takes (post_of []) old_chunks }
    ensures h11 { read_request h11 (old_head ++ old_chunks) ≡ Takes (post_of (codes "hello")) [] }
{}

//! Theorems about the definitions alone. To cite one in a proof, call it.
ghost use Rattle.std.specs.Prelude.{◌≡◌, ℕ, ◌^◌, ◌<◌, ◌≤◌, ◌++◌, Bool, true, false, List, [], Option, None, codes};
ghost use Rattle.std.specs.Prelude.{string_bytes, ◌≢◌, ◌↔◌, ◌∷◌, length, Some};
ghost use Rattle.decide_cors.specs.Browser.{CorsCheck, IsPreflightFor, PreflightPasses, Request as Sent};
ghost use Rattle.decide_cors.specs.{Policy.Policy, Rules.{AllowsCredentials, AllowsOrigin, AllowsRequest, IsLawful}};
ghost use Rattle.decide_cors.specs.{Rules.IsPolicyOf, declared.rules.CorsRules.CorsRules};
ghost use Rattle.decide_preconditions.specs.{Preconditions.IsGetOrHead, declared.part.Part.Part};
ghost use Rattle.decide_preconditions.specs.declared.plan.Plan.TheVariants.{Single};
ghost use Rattle.decide_resource.specs.{Applies.is_misdirected, Requests.Request as Asked};
ghost use Rattle.decide_resource.specs.declared.answer.Sends.TheVariants.{Planned};
ghost use Rattle.{gateway_messages.specs.Requests.has_host, headers.specs.EntityTag.{IsSomeTag, IsTag, TagParts}};
ghost use Rattle.{headers.specs.{LineMap.lines_at, Lines.Line}, http.specs.Request.head_of};
ghost use Rattle.{http.specs.declared.request.Request.Request, http1.specs.Conn.{is_connect, keeps_alive}};
ghost use Rattle.http1.specs.{Framing.method_kind, Head.is_field_value, Message.{ReadsRequestMessage, known_of}};
ghost use Rattle.http1.specs.{Server.response_refusal, declared.{conn.Limits.Limits, framing.Framing.Framing}};
ghost use Rattle.{http1.specs.declared.server.Server.Server, http1_typed.specs.Parts.reason_of};
ghost use Rattle.http_server.specs.{Encoding.answering, Exchange.ReadsCall, History.{History, output}};
ghost use Rattle.{http_server.specs.declared.state.Config.Config, http_uri.specs.Uri.uri_path};
ghost use Rattle.{httparse.specs.Grammar.RequestHead, server_connection.specs.{Connection.Exchanged, Encoding.Frames}};
ghost use Rattle.server_connection.specs.{Encoding.{content_len, head_text, plan_fields, plan_size}, Machine.Sends};
ghost use Rattle.server_connection.specs.Pieces.{AreSent};
ghost use Rattle.server_connection.specs.declared.plan.ResponsePlan.{ResponsePlan, ResponsePlan as Response};
ghost use Rattle.server_files.specs.{Tags.{content_digest, strong_tag}, declared.kept.Kept.Kept};
ghost use Rattle.server_laws.specs.{Answered.{HasNoOptions, IsWhole, SendsContent, JoinTo, lines_in}, Literal.IsOk};
ghost use Rattle.server_laws.specs.Literal.{StaysOpen, AsksForRoot, ok_fields, ok_text, request_text};
ghost use Rattle.server_laws.specs.{Requests.{IsAgain, IsHeadOf}, Sendable.{IsBareIfAny, IsFinal, StatesLength}};
ghost use Rattle.server_laws.specs.{Served.{IsServedFile, gives, plans}, Stores.{HaveSimilar, HaveAlike, has_at}};
ghost use Rattle.server_service.specs.{Answer.IsAnswerAt, Asked.Asks, File.gives_of, Memory.HasOne, Response.fields_of};
ghost use Rattle.server_service.specs.{SiteSettings.IsSiteOf, Sites.IsSite, declared.file.Entry.Entry};
ghost use Rattle.server_service.specs.declared.{file.{Entry.TheVariants.Readable, File.File}, memory.Memory.Memory};
ghost use Rattle.server_service.specs.declared.{service.FileService.FileService, settings.Settings.Settings};
ghost use Rattle.server_service.specs.declared.{settings.Site.Site, source.Source.Source};
ghost use Rattle.server_service.specs.declared.source.Source.TheVariants.{Kept as InMemory};
ghost use Rattle.http1.specs.Message as Wire;

use decide_resource::laws::{
    answer_is_shared_by_rules, head_is_answered_as_get, preflight_is_answered,
};
use rfc_fields::laws::lists_parse_one_way;

/// Theorem: the response depends on what the store has at the path that the request names, and at the
/// paths beside it in a coding if codings are negotiated, and at no other path.
pub fn response_depends_on_the_path()
    ensures { (now : Option ℕ) (left : ℕ) (site : Site) (look other : List ℕ → Entry)
        (request : Request (List ℕ)) (response : Response) (source : Option Source)
        → HaveAlike site.resource.negotiation.coding (uri_path (head_of request).uri) look other
        → IsAnswerAt now left site (has_at look) request response source
        → IsAnswerAt now left site (has_at other) request response source }
{}

/// Theorem: a HEAD gets the response of the GET with the same target and fields, if that has no Range
/// (RFC 9110, section 9.3.2). The connection sends its content to the GET alone.
pub fn head_has_the_response_of_get()
    ensures { (now : Option ℕ) (left : ℕ) (site : Site) (look : List ℕ → Entry)
        (get head : Request (List ℕ)) (response : Response) (source : Option Source) → IsHeadOf get head
        → IsAnswerAt now left site (has_at look) get response source
        → IsAnswerAt now left site (has_at look) head response source }
{
    head_is_answered_as_get();
}

/// Theorem: if two responses send one part each of the same bytes in memory, from the start to where the
/// other one begins, and from there to the end, what they send is all of it: a download that is resumed
/// gives the content.
pub fn parts_join_to_the_content()
    ensures { (now later : Option ℕ) (left more : ℕ) (site : Site) (look : List ℕ → Entry)
        (request next : Request (List ℕ)) (r s : Response) (kept : Kept) (first second : Part) (p q : Option ℕ)
        (a b : List ℕ) (x : IsAnswerAt now left site (has_at look) request r (Some (InMemory kept)))
        (y : IsAnswerAt later more site (has_at look) next s (Some (InMemory kept)))
        → x.answer.sends ≡ Planned p (Single first) → y.answer.sends ≡ Planned q (Single second)
        → JoinTo (length kept.content) first second
        → AreSent (gives_of (Some (InMemory kept))) r.pieces.items a
        → AreSent (gives_of (Some (InMemory kept))) s.pieces.items b → a ++ b ≡ kept.content }
{}

/// Theorem: the ETag of a response revalidates it (RFC 9110, section 13.1.2). If the request is sent again, as
/// GET or HEAD and at any time, with that tag alone in If-None-Match, and the store has a file with the same tag
/// and date there, the response is 304, with that ETag and without content. If-Unmodified-Since is absent, since
/// a date with a year of two digits changes with the time.
pub fn tag_gets_not_modified()
    ensures { (now later : Option ℕ) (left more : ℕ) (site : Site) (look other : List ℕ → Entry)
        (first second : Request (List ℕ)) (r s : Response) (a b : Option Source) (tag : Line)
        → IsAgain (codes "if-none-match") tag first second
        → lines_at (head_of first).headers (codes "if-unmodified-since") ≡ []
        → HaveSimilar site.resource.negotiation.coding (uri_path (head_of first).uri) look other
        → IsAnswerAt now left site (has_at look) first r a
        → lines_in (fields_of r) (codes "etag") ≡ tag ∷ [] → IsSomeTag tag
        → IsAnswerAt later more site (has_at other) second s b
        → (s.status ≡ 304) × (lines_in (fields_of s) (codes "etag") ≡ tag ∷ []) × (s.pieces.items ≡ []) }
{
    lists_parse_one_way();
}

/// Theorem: a strong ETag of a response is never lost (RFC 9110, section 13.1.1). If the request is sent again, as
/// GET or HEAD and at any time, with that tag alone in If-Match, and the store has a file with the same tag and
/// date there, the response isn't 412.
pub fn strong_tag_is_not_lost()
    ensures { (now later : Option ℕ) (left more : ℕ) (site : Site) (look other : List ℕ → Entry)
        (first second : Request (List ℕ)) (r s : Response) (a b : Option Source) (tag : Line) (parts : TagParts)
        → IsAgain (codes "if-match") tag first second
        → HaveSimilar site.resource.negotiation.coding (uri_path (head_of first).uri) look other
        → IsAnswerAt now left site (has_at look) first r a
        → lines_in (fields_of r) (codes "etag") ≡ tag ∷ [] → IsTag tag parts → parts.is_weak ≡ false
        → IsAnswerAt later more site (has_at other) second s b → s.status ≢ 412 }
{
    lists_parse_one_way();
}

/// Theorem: the ETag of a response to GET or HEAD with bytes in memory is the digest of all of them, as a strong tag.
pub fn tag_of_memory_is_its_digest()
    ensures { (now : Option ℕ) (left : ℕ) (site : Site) (look : List ℕ → Entry) (request : Request (List ℕ))
        (response : Response) (kept : Kept) (tag : Line) → IsGetOrHead (head_of request).method
        → IsAnswerAt now left site (has_at look) request response (Some (InMemory kept))
        → lines_in (fields_of response) (codes "etag") ≡ tag ∷ []
        → (tag ≡ strong_tag (content_digest kept.content))
        × IsTag tag (record { is_weak = false; opaque = content_digest kept.content }) }
{}

/// Theorem: after the response to its preflight, which is 204 without content, a browser sends the request exactly
/// if the rules of the site's policy allow it (Fetch standard). A preflight is an OPTIONS for a host that is served,
/// whatever its path leads to.
pub fn preflight_passes_by_the_policy()
    ensures { (now : Option ℕ) (left : ℕ) (site : Site) (look : List ℕ → Entry)
        (request : Request (List ℕ)) (response : Response) (source : Option Source) (asked : Asked)
        (policy : Policy) (rules : CorsRules) (sent : Sent)
        → IsAnswerAt now left site (has_at look) request response source → site.resource.cors ≡ Some policy
        → IsLawful rules → IsPolicyOf rules policy → Asks request asked
        → has_host asked.protocol (asked.fields (codes "host")) ≡ true → is_misdirected site.resource asked ≡ false
        → IsPreflightFor sent (head_of request).method (lines_at (head_of request).headers)
        → (response.status ≡ 204) × (response.pieces.items ≡ [])
        × (PreflightPasses response.status (lines_in (fields_of response)) sent ↔ AllowsRequest rules sent) }
{
    preflight_is_answered();
}

/// Theorem: a browser's CORS check of any response, errors included, passes exactly if the rules of the site's policy
/// allow the origin and the credentials (Fetch standard).
pub fn response_is_shared_by_the_policy()
    ensures { (now : Option ℕ) (left : ℕ) (site : Site) (look : List ℕ → Entry)
        (request : Request (List ℕ)) (response : Response) (source : Option Source) (policy : Policy)
        (rules : CorsRules) (sent : Sent)
        → IsAnswerAt now left site (has_at look) request response source → site.resource.cors ≡ Some policy
        → IsLawful rules → IsPolicyOf rules policy
        → lines_at (head_of request).headers (codes "origin") ≡ sent.origin ∷ []
        → CorsCheck (lines_in (fields_of response)) sent
        ↔ (AllowsOrigin rules sent.origin × AllowsCredentials rules sent.credentials) }
{
    answer_is_shared_by_rules();
}

/// Theorem: a connection that reads a request from the bytes of `GET / HTTP/1.1`, `Host: a.example` and
/// an empty line gets a GET of the root, without content, and no byte is left. HEAD is read in the
/// same way. The bytes with GET are a request wherever a head may have 35 bytes.
pub fn literal_requests_are_read()
    ensures get { (config : Config) (message : Wire.Request) (request : Request (List ℕ)) (rest : List ℕ)
        → ReadsCall config (request_text (codes "GET")) message request rest
        → AsksForRoot (codes "GET") request × (rest ≡ []) }
    ensures head { (config : Config) (message : Wire.Request) (request : Request (List ℕ)) (rest : List ℕ)
        → ReadsCall config (request_text (codes "HEAD")) message request rest
        → AsksForRoot (codes "HEAD") request × (rest ≡ []) }
    ensures some { (limits : Limits) → 35 ≤ limits.max_head_len
        → (message : Wire.Request) × ReadsRequestMessage limits (request_text (codes "GET")) message [] }
{}

/// Theorem: a store of one file, `index.html`, in a site without options answers a GET of the root by
/// 200. Its fields are exactly, in this order, Date if there is a clock, X-Content-Type-Options,
/// `Connection: close` if it is the last response, and those of the file. All of the file is sent, and
/// of bytes in memory exactly these.
pub fn get_of_root_gets_the_file()
    ensures { (now : Option ℕ) (left : ℕ) (settings : Settings) (site : Site) (store : Memory)
        (request : Request (List ℕ)) (response : ResponsePlan) (source : Option Source)
        → IsSiteOf settings site → HasNoOptions settings → string_bytes store.path ≡ codes "index.html"
        → AsksForRoot (codes "GET") request → IsAnswerAt now left site (HasOne store) request response source
        → (file : File) × HasOne store (codes "index.html") (Readable file)
        × IsWhole now left site file response source × SendsContent file response source }
{}

/// Theorem: the head of a 200 with Date if there is a clock, X-Content-Type-Options, ETag,
/// Accept-Ranges, Content-Length and Content-Type, literally as it is written. It answers a request of
/// HTTP/1.1 that lets the connection stay open and isn't CONNECT, if `http1` sends it.
pub fn ok_is_written_out()
    ensures { (limits : Limits) (head : RequestHead) (framing : Framing) (plan : ResponsePlan) (now : Option ℕ)
        (tag media_type : List ℕ) → plan.status ≡ 200 → content_len plan < 2 ^ 64
        → plan_fields plan ≡ ok_fields now tag (content_len plan) media_type → head.minor ≡ 1
        → keeps_alive head.minor (known_of head.fields) ≡ true → is_connect (method_kind head.method) ≡ false
        → response_refusal (answering limits head framing) plan.status (reason_of plan.status) (plan_size plan)
        (plan_fields plan) ≡ None
        → head_text (answering limits head framing) plan ≡ ok_text now tag (content_len plan) media_type }
{}

/// Theorem: what the connection puts around the content of a 200 with the fields of `ok_is_written_out`,
/// literally: before it that head, to which it adds no field, and after it nothing. The fields state the
/// content's length, and the request is one of HTTP/1.1 that lets the connection stay open.
pub fn ok_is_framed_literally()
    ensures { (limits : Limits) (head : RequestHead) (framing : Framing) (plan : ResponsePlan) (server : Server)
        (now : Option ℕ) (tag media_type before tail after rest : List ℕ) → IsOk now tag media_type plan
        → StaysOpen head → Frames false plan (answering limits head framing) before tail server after rest
        → (after ≡ before ++ ok_text now tag (content_len plan) media_type) × (rest ≡ tail) }
{}

/// Theorem: while the server of one file sends such a 200, or once it was cut off while it did, what the
/// connection has put out after the responses before it is literally that head and a front of the
/// content. Bytes that it hadn't written may be lost then. Nothing is to follow the content.
pub fn ok_is_put_out_literally()
    ensures { (config : Config) (first now : FileService Memory) (history : History)
        (x : Sends plans gives first now config history) (time : Option ℕ) (tag media_type : List ℕ)
        → IsOk time tag media_type x.plan → StaysOpen x.message.head
        → (output history ++ x.lost
        ≡ (x.text ++ x.interim) ++ (ok_text time tag (content_len x.plan) media_type ++ x.front))
        × (x.tail ≡ []) }
{}

/// Theorem: `http1` sends each response with a status of 200 to 999 whose field lines are valid, have
/// no white space at their ends and no Transfer-Encoding, and state the content's length once, or not
/// at all. Left out are 205, success to CONNECT, and 204 and 304 with a content or a length. So a 500
/// never takes the place of such a response to a request of HTTP/1.0 or 1.1.
pub fn ordinary_responses_are_sent()
    ensures { (limits : Limits) (head : RequestHead) (framing : Framing) (plan : ResponsePlan) (stated : Bool)
        → content_len plan < 2 ^ 64 → head.minor ≤ 1 → is_field_value (reason_of plan.status) ≡ true
        → StatesLength (content_len plan) stated (plan_fields plan)
        → IsFinal (method_kind head.method) plan.status (content_len plan) stated
        → response_refusal (answering limits head framing) plan.status (reason_of plan.status) (plan_size plan)
        (plan_fields plan) ≡ None }
{}

/// Theorem: `http1` sends each answer of the file server, whatever the store has, the settings say and
/// the client asks, if a policy for requests from other origins says nothing with white space at its
/// ends. So a 500 never takes the place of an answer.
pub fn answers_are_sendable()
    ensures { (limits : Limits) (head : RequestHead) (framing : Framing) (now : Option ℕ) (left : ℕ) (site : Site)
        (look : List ℕ → Entry) (request : Request (List ℕ)) (response : ResponsePlan) (source : Option Source)
        → IsSite (string_bytes site.divider) site.resource → IsBareIfAny site.resource.cors → head.minor ≤ 1
        → head.method ≡ (head_of request).method
        → IsAnswerAt now left site (λ path entry. entry ≡ look path) request response source
        → response_refusal (answering limits head framing) response.status (reason_of response.status)
        (plan_size response) (plan_fields response) ≡ None }
{}

/// Theorem: a connection of a server of one file, `index.html`, without options, that receives the GET of
/// `literal_requests_are_read` alone, and ends without an error, has sent literally the head of
/// `ok_is_written_out` and the content of the file. A client with room for this head reads it, whole, as
/// that response. The file has no date, the head of a request may have 35 bytes, and the request isn't
/// the last that the connection may have.
pub fn get_is_answered_by_the_file()
    ensures { (config : Config) (settings : Settings) (first now : FileService Memory) (sent : List ℕ)
        → 35 ≤ config.limits.max_head_len → IsSiteOf settings first.site → HasNoOptions settings
        → string_bytes first.store.path ≡ codes "index.html" → first.store.modified ≡ None → 1 < first.left
        → Exchanged plans gives config first now (request_text (codes "GET")) sent true
        → IsServedFile first.store sent }
{}

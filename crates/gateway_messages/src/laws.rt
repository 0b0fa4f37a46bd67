//! Theorems about the definitions alone. To cite one in a proof, call it.
ghost use Rattle.std.specs.Prelude.{◌≡◌, ◌≢◌, ◌≤◌, ◌++◌, ◌∷◌, [], ℕ, List, All, Option, Some, false, true, IsTrue};
ghost use Rattle.std.specs.Prelude.{codes, ◌↔◌, decimal, length};
ghost use Rattle.{http_header.specs.Token.IsToken, headers.specs.{LineMap.LineMap, Lines.Line}};
ghost use Rattle.gateway_messages.specs.{Chain.{IsChain, IsOneGateway, IsReceivedAs}, FieldLines.{Field, fields_of}};
ghost use Rattle.gateway_messages.specs.{FieldLines.lines_under, Forwarding.{IsEndToEnd, IsHopByHop, own_names}};
ghost use Rattle.gateway_messages.specs.{Framing.States, Hosts.HasHost, Spellings.is_misspelt, Via.is_loop};
ghost use Rattle.gateway_messages.specs.declared.framing.Framing.{Framing, TheVariants.{Chunked, Length}};
ghost use Rattle.gateway_messages.specs.declared.{gateway.Gateway.Gateway, protocol.Protocol.Protocol};
ghost use Rattle.gateway_messages.specs.declared.{protocol.Protocol.TheVariants.Http11, rejection.Rejection.Rejection};
ghost use Rattle.gateway_messages.specs.declared.request.ForwardedRequest.{ForwardedRequest};
ghost use Rattle.gateway_messages.specs.{declared.response.ForwardedResponse.ForwardedResponse, Hops.counts_hops};
ghost use Rattle.gateway_messages.specs.{Hops.hops_in, Outcomes.{HasOneOutcome, HasOneResponseOutcome, HasOutcome}};
ghost use Rattle.gateway_messages.specs.{Outcomes.HasResponseOutcome, Recipients.{CodingFirst, LengthFirst}};
ghost use Rattle.gateway_messages.specs.Recipients.{ParsesBelow, limits_in_use, server, Codings, KnowsPlain, Pick};
ghost use Rattle.gateway_messages.specs.Recipients.{Precedence, Recipient, Spelling, accepted_by, framing_by};
ghost use Rattle.gateway_messages.specs.{Recipients.parse_below, Requests.{IsForGateway, IsForwarded, Rejects}};
ghost use Rattle.gateway_messages.specs.{Requests.{Request, has_host}, Responses.IsForwardedResponse};
ghost use Rattle.gateway_messages.specs.{Responses.{RejectsResponse, Response}, Trailers.{ForwardsTrailers, may_trail}};

use rfc_fields::laws::lists_parse_one_way;

/// Theorem: each request has exactly one outcome: rejected, answered by the gateway, or forwarded.
pub fn request_has_one_outcome()
    ensures some { (gateway : Gateway) (request : Request) → HasOutcome gateway request }
    ensures one { (gateway : Gateway) (request : Request) → HasOneOutcome gateway request }
{}

/// Theorem: what is forwarded of a request is determined: its framing, how often it may still be
/// forwarded, and the field lines of each name.
#[tactic(auto, using(crate::proofs::SureLemmas::one_request))]
pub fn forwarded_request_is_certain()
    ensures { (gateway : Gateway) (request : Request) (a b : ForwardedRequest) → IsForwarded gateway request a
        → IsForwarded gateway request b
        → (a.framing ≡ b.framing) × (a.hops ≡ b.hops)
        × ((name : List ℕ) → lines_under (fields_of a.fields.items) name
        ≡ lines_under (fields_of b.fields.items) name) }
{}

/// Theorem: each response has exactly one outcome: rejected, dropped, or forwarded.
pub fn response_has_one_outcome()
    ensures some { (gateway : Gateway) (response : Response) → HasResponseOutcome gateway response }
    ensures one { (gateway : Gateway) (response : Response) → HasOneResponseOutcome gateway response }
{}

/// Theorem: what is forwarded of a response is determined: how its content is delimited, what is
/// stated about it, and the field lines of each name.
pub fn forwarded_response_is_certain()
    ensures { (gateway : Gateway) (date : ℕ) (response : Response) (a b : ForwardedResponse)
        → IsForwardedResponse gateway date response a → IsForwardedResponse gateway date response b
        → (a.content ≡ b.content) × (a.framing ≡ b.framing)
        × ((name : List ℕ) → lines_under (fields_of a.fields.items) name
        ≡ lines_under (fields_of b.fields.items) name) }
{}

/// Theorem: all recipients that know the plain forms see the same framing in a forwarded response,
/// or reject it. How the content is delimited depends also on the status and on the method of the request, which
/// all of them know (RFC 9112, section 6.3).
pub fn forwarded_response_is_framed_alike()
    ensures { (gateway : Gateway) (date : ℕ) (response : Response) (sent : ForwardedResponse)
        (recipient : Recipient) → IsForwardedResponse gateway date response sent → KnowsPlain recipient
        → framing_by recipient (fields_of sent.fields.items) ≡ accepted_by recipient sent.framing }
{}

/// Theorem: what is rejected isn't forwarded, nor is what the gateway answers itself.
pub fn rejected_messages_are_not_forwarded()
    ensures requests { (gateway : Gateway) (request : Request) (rejection : Rejection) (sent : ForwardedRequest)
        → Rejects gateway request rejection → IsForwarded gateway request sent → ⊥ }
    ensures answered { (gateway : Gateway) (request : Request) (framing : Framing) (sent : ForwardedRequest)
        → IsForGateway gateway request framing → IsForwarded gateway request sent → ⊥ }
    ensures responses { (gateway : Gateway) (date : ℕ) (response : Response) (rejection : Rejection)
        (sent : ForwardedResponse) → RejectsResponse gateway response rejection
        → IsForwardedResponse gateway date response sent → ⊥ }
{}

/// Theorem: the fields of a message state at most one framing.
#[tactic(auto, using(crate::proofs::OneLemmas::one_framing))]
pub fn message_states_one_framing()
    ensures { (protocol : Protocol) (message : LineMap) (a b : Framing) → States protocol message a
        → States protocol message b → a ≡ b }
{}

/// Theorem: each end-to-end field that the gateway doesn't write itself is forwarded with its field
/// lines in order, unless its name is misspelt. No misspelt field is forwarded, and no hop-by-hop
/// field except the gateway's own Transfer-Encoding (RFC 9110, section 7.6.1).
pub fn end_to_end_fields_alone_cross()
    ensures end_to_end { (gateway : Gateway) (request : Request) (sent : ForwardedRequest) (name : List ℕ)
        → IsForwarded gateway request sent → IsEndToEnd gateway request.fields name
        → is_misspelt gateway name ≡ false → All (λ own. own ≢ name) own_names
        → lines_under (fields_of sent.fields.items) name ≡ request.fields name }
    ensures hop_by_hop { (gateway : Gateway) (request : Request) (sent : ForwardedRequest) (name : List ℕ)
        → IsForwarded gateway request sent → IsHopByHop gateway request.fields name
        → name ≢ codes "transfer-encoding" → lines_under (fields_of sent.fields.items) name ≡ [] }
    ensures misspelt { (gateway : Gateway) (request : Request) (sent : ForwardedRequest) (name : List ℕ)
        → IsForwarded gateway request sent → is_misspelt gateway name ≡ true
        → lines_under (fields_of sent.fields.items) name ≡ [] }
    ensures response_end_to_end { (gateway : Gateway) (date : ℕ) (response : Response) (sent : ForwardedResponse)
        (name : List ℕ) → IsForwardedResponse gateway date response sent → IsEndToEnd gateway response.fields name
        → is_misspelt gateway name ≡ false → All (λ own. own ≢ name) own_names
        → lines_under (fields_of sent.fields.items) name ≡ response.fields name }
    ensures response_hop_by_hop { (gateway : Gateway) (date : ℕ) (response : Response) (sent : ForwardedResponse)
        (name : List ℕ) → IsForwardedResponse gateway date response sent → IsHopByHop gateway response.fields name
        → name ≢ codes "transfer-encoding" → lines_under (fields_of sent.fields.items) name ≡ [] }
    ensures response_misspelt { (gateway : Gateway) (date : ℕ) (response : Response) (sent : ForwardedResponse)
        (name : List ℕ) → IsForwardedResponse gateway date response sent → is_misspelt gateway name ≡ true
        → lines_under (fields_of sent.fields.items) name ≡ [] }
{}

/// Theorem: each recipient that knows the plain forms delimits a forwarded request as this gateway
/// did, or rejects it, whatever it makes of other field lines (RFC 9112, section 11.2). Request
/// smuggling needs two recipients that delimit the content of one request in different ways.
#[tactic(auto, using(crate::proofs::RecipientLemmas::request_alike))]
pub fn forwarded_request_is_framed_alike()
    ensures { (gateway : Gateway) (request : Request) (sent : ForwardedRequest) (recipient : Recipient)
        → IsForwarded gateway request sent → KnowsPlain recipient
        → framing_by recipient (fields_of sent.fields.items) ≡ accepted_by recipient sent.framing }
{}

/// Theorem: the next gateway, which receives the request in HTTP/1.1, delimits its content as this
/// one did, and so does each gateway after it.
pub fn next_gateway_frames_alike()
    ensures states { (gateway : Gateway) (request next : Request) (sent : ForwardedRequest)
        → IsForwarded gateway request sent → IsReceivedAs request.method sent next → next.protocol ≡ Http11
        → States next.protocol next.fields sent.framing }
    ensures forwards { (first second : Gateway) (request next : Request) (sent last : ForwardedRequest)
        → IsForwarded first request sent → IsReceivedAs request.method sent next → next.protocol ≡ Http11
        → IsForwarded second next last → last.framing ≡ sent.framing }
{
    lists_parse_one_way();
}

/// Theorem: merging trailer fields into the header section changes neither the framing, nor any
/// field but those that a trailer section may have (RFC 9110, section 6.5.1).
pub fn trailers_may_be_merged()
    ensures framing { (gateway : Gateway) (framing : Framing) (message received : LineMap)
        (fields trailers : List Field) (recipient : Recipient)
        → ForwardsTrailers gateway framing message received (lines_under trailers) → KnowsPlain recipient
        → framing_by recipient (fields ++ trailers) ≡ framing_by recipient fields }
    ensures names { (gateway : Gateway) (framing : Framing) (message received : LineMap)
        (fields trailers : List Field) (name : List ℕ)
        → ForwardsTrailers gateway framing message received (lines_under trailers) → may_trail gateway name ≡ false
        → lines_under (fields ++ trailers) name ≡ lines_under fields name }
{}

/// Theorem: many kinds of recipients know the plain forms. A recipient may take an underscore, or
/// each mark, in a name for a dash or not, the first length or the last one, any coding or the last one, the coding
/// before the length or the length before the coding. It may have any limit to a length, such as
/// those in use, if it rejects what is past that.
pub fn servers_know_plain_forms()
    ensures some { (spelling : Spelling) (pick : Pick) (parse : Line → Option ℕ) (limit : ℕ) (codings : Codings)
        (precedence : Precedence) → ParsesBelow limit parse
        → KnowsPlain (server spelling pick parse limit codings precedence) }
    ensures in_use { (spelling : Spelling) (pick : Pick) (codings : Codings) (precedence : Precedence)
        → All (λ limit. KnowsPlain (server spelling pick (parse_below limit) limit codings precedence))
        limits_in_use }
{}

/// Theorem: two such recipients delimit the content of a request with both fields in different
/// ways.
#[tactic(auto, using(crate::proofs::RecipientLemmas::disagree))]
pub fn servers_disagree()
    ensures { (spelling : Spelling) (pick : Pick) (parse : Line → Option ℕ) (limit : ℕ) (codings : Codings) (len : ℕ)
        → parse (decimal len) ≡ Some len
        → let request = (codes "content-length", decimal len)
        ∷ (codes "transfer-encoding", codes "chunked") ∷ [] in
        (framing_by (server spelling pick parse limit codings CodingFirst) request ≡ Some Chunked)
        × (framing_by (server spelling pick parse limit codings LengthFirst) request ≡ Some (Length len)) }
{}

/// Theorem: an OPTIONS or a TRACE whose Max-Forwards is n passes at most n gateways (RFC 9110,
/// section 7.6.2).
#[tactic(auto, using(crate::proofs::NextLemmas::bounded))]
pub fn hops_bound_the_chain()
    ensures { (hops : ℕ) (request : Request) (passed : List Request) → IsTrue (counts_hops request.method)
        → hops_in (request.fields (codes "max-forwards")) ≡ Some hops → IsChain request passed
        → length passed ≤ hops }
{}

/// Theorem: a request that a gateway forwarded is a loop to it when it comes back, whatever was
/// added to Via (RFC 9110, section 7.6.3).
pub fn own_request_is_a_loop()
    ensures { (gateway : Gateway) (request : Request) (sent : ForwardedRequest) (added : List Line)
        → IsToken gateway.pseudonym → IsForwarded gateway request sent
        → is_loop gateway.pseudonym (lines_under (fields_of sent.fields.items) (codes "via") ++ added) ≡ true }
{}

/// Theorem: two gateways in a row are one that adds two field lines to Via. Of the fields that no
/// gateway writes, it forwards those that both forward.
pub fn gateways_in_a_row_are_one()
    ensures requests { (first second : Gateway) (request next : Request) (sent last : ForwardedRequest)
        → IsForwarded first request sent → IsReceivedAs request.method sent next
        → IsForwarded second next last
        → IsOneGateway first second request.protocol next.protocol request.fields
        (lines_under (fields_of last.fields.items)) }
    ensures responses { (first second : Gateway) (date later : ℕ) (response next : Response)
        (sent last : ForwardedResponse) → IsForwardedResponse first date response sent
        → ((name : List ℕ) → next.fields name ≡ lines_under (fields_of sent.fields.items) name)
        → IsForwardedResponse second later next last
        → IsOneGateway first second response.protocol next.protocol response.fields
        (lines_under (fields_of last.fields.items)) }
{}

/// Theorem: a request is rejected for its Host exactly if it has no Host by the grammar of RFC
/// 3986: one field line that is a host and perhaps a port, or none in HTTP/1.0 (RFC 9112, section
/// 3.2).
pub fn host_parses_by_the_grammar()
    ensures accepted { (protocol : Protocol) (lines : List Line)
        → (has_host protocol lines ≡ true) ↔ HasHost protocol lines }
    ensures rejected { (gateway : Gateway) (request : Request)
        → Rejects gateway request Rejection.InvalidHost
        ↔ (HasHost request.protocol (request.fields (codes "host")) → ⊥) }
{}

//! What follows from the definitions. A proof cites a law by calling it.
ghost use Rattle.std.specs.Prelude.{◌≡◌, ◌≢◌, ◌↔◌, ◌⊎◌, ◌∷◌, [], ℕ, Bool, List, All, codes, false, true};
ghost use Rattle.headers.specs.LineMap.{LineMap, fields_of, set_all};
ghost use Rattle.cache_policy.specs.{Varying.Suits, Fields.IsPresent, Policies.tells, Storing.IsOpen};
ghost use Rattle.cache_policy.specs.{declared.Kind.TheVariants.Shared};
ghost use Rattle.chain.specs.Caches.{Caching, IsFromStore, IsPlain, Reply, asked, key_of, unless_head};
ghost use Rattle.chain.specs.Chains.{Hop, IsForwardedBack, IsOwn, IsTold, behind, meant};
ghost use Rattle.chain.specs.{Instances.IsInstance, Servers.{IsSent, SaysCloseAtMost, Server, Site}};
ghost use Rattle.chain.specs.{Responses.HasNoOptions, Responses.Returns, Ways.Reaches, Ways.sent_directly};
ghost use Rattle.decide_cors.specs.Browser.{CorsCheck, Request as Sent};
ghost use Rattle.gateway_messages.specs.{Forwarding.IsHopByHop, Forwarding.own_names, Spellings.has_mark};
ghost use Rattle.gateway_messages.specs.{HopByHop.is_known, Responses.Response, declared.gateway.Gateway.Gateway};
ghost use Rattle.decide_resource.specs.Answers.{AreSame, IsAnswer};
ghost use Rattle.decide_resource.specs.{Requests.Request, declared.answer.Answer.Answer, Vary.AreAlike};
ghost use Rattle.decide_resource.specs.{declared.resource.Resource.Resource};

use cache_store::laws::{calls_justify_what_is_stored, lookups_serve_what_calls_justify};
use decide_resource::laws::{
    head_is_answered_as_get, members_alone_select, other_fields_change_nothing,
    request_has_one_reason, vary_is_sound,
};

/// Theorem: gateways are invisible to a resource. What any number of gateways forward gets exactly
/// the answers that the client's request would get if the client sent it itself: in HTTP/1.1, for the
/// host of its target, and without the fields for its connection to the first gateway. The server has
/// to deny both alike. So no gateway changes what is selected, which preconditions are true, or which
/// origins may read the answer.
pub fn gateways_are_invisible()
    ensures { (present : ℕ) (resource : Resource) (gateway : Gateway) (gateways : List Gateway)
        (request last : Request) (answer : Answer) → Reaches (gateway ∷ gateways) request last
        → IsAnswer present resource (sent_directly gateway request) answer
        ↔ IsAnswer present resource last answer }
{
    other_fields_change_nothing();
}

/// Theorem: the field lines of a response reach the client as the server sent them, in order, through
/// any gateways that forward it, if the server sends no connection option. This holds for each name of
/// letters, digits and dashes that no gateway writes itself, and that isn't for one connection.
#[tactic(auto, using(crate::proofs::ResponseLemmas::unchanged))]
pub fn responses_return_unchanged()
    ensures { (gateways : List Gateway) (response last : Response) (name : List ℕ)
        → Returns gateways response last → HasNoOptions response.fields
        → All (λ gateway. is_known gateway.consumes_credentials name ≡ false) gateways
        → has_mark name ≡ false → All (λ own. own ≢ name) own_names → last.fields name ≡ response.fields name }
{}

/// Theorem: through any gateways, a browser's CORS check of what it gets passes exactly if that of
/// what the server sent does, if the server sends no connection option.
pub fn cors_check_survives_gateways()
    ensures { (gateways : List Gateway) (response last : Response) (sent : Sent)
        → Returns gateways response last → HasNoOptions response.fields
        → CorsCheck response.fields sent ↔ CorsCheck last.fields sent }
{}

/// Theorem: what a client gets through gateways is what the resource says about its own request. If
/// they forward the request, the resource answers what it gets, and they forward the response, then
/// it is an answer to the client's own request. The client gets each field that the answer sets
/// with the answer's field lines, except fields that the gateways write, those of one connection,
/// and names with more than letters, digits and dashes, if the server sends no connection option.
pub fn client_gets_the_answer()
    ensures own { (present : ℕ) (resource : Resource) (gateway : Gateway) (gateways : List Gateway)
        (request last : Request) (answer : Answer) → Reaches (gateway ∷ gateways) request last
        → IsAnswer present resource last answer → IsAnswer present resource (sent_directly gateway request) answer }
    ensures whole { (back : List Gateway) (before : LineMap) (answer : Answer) (response last : Response)
        (name : List ℕ) → response.fields ≡ set_all before (fields_of answer.fields.items)
        → Returns back response last → HasNoOptions response.fields
        → All (λ gateway. is_known gateway.consumes_credentials name ≡ false) back
        → has_mark name ≡ false → All (λ own. own ≢ name) own_names
        → last.fields name ≡ set_all before (fields_of answer.fields.items) name }
{
    other_fields_change_nothing();
}

/// Theorem: a stored answer that a cache uses for a request is the resource's answer to it. If a
/// resource, in one state and at one time, answers two requests with the same version, method, target,
/// Host, Expect, content, conditions, Range and denial, and a cache that has stored the first answer
/// uses it for the second request by method and Vary (RFC 9111, sections 4 and 4.1), then both answers
/// are the same. A cache may compare the members of Accept and similar fields, and not their field
/// lines.
pub fn stored_answer_is_the_answer()
    ensures { (present : ℕ) (resource : Resource) (r s : Request) (a b : Answer) (before : LineMap)
        → IsAnswer present resource r a → IsAnswer present resource s b → AreAlike r s
        → Suits (asked r) (asked s) (set_all before (fields_of a.fields.items)) → AreSame a b }
{
    vary_is_sound();
    members_alone_select();
}

/// Theorem: what a client gets through any gateways and caches is what the resource says about its
/// request, or what one of them answers by itself. It left the server when the resource said it. Or
/// later it left a cache on the way, which found it good enough for a request with this method and
/// Cache-Control: by its policy, its bound of guesses and the Date that the client gets it was fresh,
/// or each directive allowed it stale; `stale-if-error` only if those behind that cache failed. Age,
/// below 2^64 - 1, is short of the time between by at most a second for each cache. The status, the
/// content and each carried field are the server's. A field is carried if its name has letters, digits
/// and dashes alone and isn't Close, if it isn't for one connection, and if neither a gateway nor a
/// cache writes it. An answer of their own has no content, no carried field, and a reason: a rejected
/// request or response, no stored response where the request wants one, or no answer. It is no
/// statement about a program: a server's content doesn't depend on who asks, no cache validates or
/// serves ranges, and nothing is said of methods that a server performs.
pub fn client_gets_what_the_resource_says()
    ensures { (site : Site) (silent : List Hop → ℕ → Bool) (hops : List Hop) (start now : ℕ)
        (target : List ℕ) (request : Request) (reply : Reply) → behind site silent hops start now target request reply
        → IsTold site silent hops start now target (meant hops request) reply
        ⊎ IsOwn site silent hops start now target request reply }
{
    head_is_answered_as_get();
    calls_justify_what_is_stored();
    lookups_serve_what_calls_justify();
    vary_is_sound();
    members_alone_select();
    other_fields_change_nothing();
}

/// Theorem: such a chain exists. A gateway, a cache and the server of a resource that is gone give a client a response
/// whose Age is a second or more, and not the server's: the cache has stored it.
pub fn a_chain_serves_from_its_store()
    ensures { IsInstance }
{}

/// A server says of its connection at most that it is closed: a resource sets no connection option (RFC 9110,
/// section 7.6.1).
pub fn servers_say_close_at_most()
    ensures { (server : Server) (now : ℕ) (request : Request) (reply : Reply) → IsSent server now request reply
        → SaysCloseAtMost reply.fields }
{}

/// A key is of one target: plain requests that a cache stores the responses to under one key are for the same
/// path, and name the same host (RFC 9111, section 2).
pub fn key_is_of_one_target()
    ensures target { (target other : List ℕ) (r s : Request) → IsPlain target r → IsPlain other s
        → key_of target r ≡ key_of other s → target ≡ other }
    ensures host { (target other : List ℕ) (r s : Request) → IsPlain target r → IsPlain other s
        → key_of target r ≡ key_of other s → r.fields (codes "host") ≡ s.fields (codes "host") }
{}

/// Theorem: a shared cache serves nothing that is for one client. What it serves from its store
/// isn't `private`, by what governs the response under the policy of the cache: without targeted
/// fields its Cache-Control. Its content came to the cache as the answer to some request, or it has
/// none, for a HEAD. If that request had Authorization, what is served allows that others get it (RFC
/// 9111, sections 3.5 and 5.2.2.7).
pub fn shared_caches_serve_nothing_private()
    ensures private { (site : Site) (silent : List Hop → ℕ → Bool) (hops : List Hop) (caching : Caching)
        (start now : ℕ) (target : List ℕ) (request : Request) (reply : Reply) → caching.policy.kind ≡ Shared
        → IsFromStore caching (behind site silent hops) (silent hops) start now target request reply
        → (tells caching.policy reply.fields).private ≡ false }
    ensures credentials { (site : Site) (silent : List Hop → ℕ → Bool) (hops : List Hop)
        (caching : Caching) (start now : ℕ) (target : List ℕ) (request : Request) (reply : Reply)
        → caching.policy.kind ≡ Shared
        → IsFromStore caching (behind site silent hops) (silent hops) start now target request reply
        → (sent : ℕ) × (received : ℕ) × (first : Request) × (came : Reply)
        × behind site silent hops sent received target first came
        × (reply.content ≡ unless_head request.method came.content)
        × (IsPresent (codes "authorization") first.fields → IsOpen (tells caching.policy reply.fields)) }
{
    calls_justify_what_is_stored();
    lookups_serve_what_calls_justify();
}

/// Theorem: no field of one connection crosses: a gateway forwards none of a response but its own
/// Transfer-Encoding, fields that Connection names included, and no field of RFC 9110, section 7.6.1,
/// or of a proxy comes from a store.
pub fn no_connection_field_crosses()
    ensures forwarded { (site : Site) (silent : List Hop → ℕ → Bool) (hops : List Hop)
        (gateway : Gateway) (start now : ℕ) (target : List ℕ) (request : Request) (reply : Reply) (name : List ℕ)
        → (f : IsForwardedBack gateway (behind site silent hops) start now target request reply)
        → IsHopByHop gateway f.behind.fields name → name ≢ codes "transfer-encoding" → reply.fields name ≡ [] }
    ensures stored { (site : Site) (silent : List Hop → ℕ → Bool) (hops : List Hop) (caching : Caching)
        (start now : ℕ) (target : List ℕ) (request : Request) (reply : Reply) (name : List ℕ)
        → IsFromStore caching (behind site silent hops) (silent hops) start now target request reply
        → is_known true name ≡ true → reply.fields name ≡ [] }
{
    calls_justify_what_is_stored();
    lookups_serve_what_calls_justify();
    other_fields_change_nothing();
}

//! What follows from the definitions alone. A proof cites a law by calling it.
ghost use Rattle.std.specs.Prelude.{◌≡◌, ℕ, true, false, List, Option, None, Some, codes, map, slice_get, string_bytes};
ghost use Rattle.http.{specs.Request.head_of, specs.declared.request.Request.Request};
ghost use Rattle.http_uri.specs.Uri.{uri_path};
ghost use Rattle.headers.specs.LineMap.{lines_at};
ghost use Rattle.server_connection.{specs.Pieces.AreSent, specs.declared.piece.Piece.Piece};
ghost use Rattle.server_connection.specs.declared.plan.ResponsePlan.{ResponsePlan as Response};
ghost use Rattle.gateway_messages.{specs.Expectations.has_known_expectation, specs.Requests.has_host};
ghost use Rattle.decide_preconditions.{specs.Fields.not_after, specs.declared.part.Part.Part};
ghost use Rattle.decide_resource.specs.Applies.{is_misdirected};
ghost use Rattle.decide_resource.specs.Requests.{Request as Asked};
ghost use Rattle.decide_resource.{specs.declared.answer.Answer.Answer, specs.declared.resource.Resource.Resource};
ghost use Rattle.server_service.specs.Answer.{AsksForAll, Decides, IsAnswerAt, clock, file_sent, sends_several};
ghost use Rattle.server_service.{specs.Asked.Asks, specs.File.{gives_at, gives_of}, specs.Parts.{Occurs, bytes_of}};
ghost use Rattle.server_service.{specs.Parts.part_bytes, specs.Response.IsSameResponse, specs.Sites.IsSite};
ghost use Rattle.server_service.specs.declared.file.Entry.TheVariants.{Listed, Readable};
ghost use Rattle.server_service.{specs.declared.file.Entry.Entry, specs.declared.file.File.File};
ghost use Rattle.server_service.specs.declared.source.Source.{Source};
ghost use Rattle.server_files.{specs.Listings.listing_page, specs.Path.{Names, ends_in_slash}};
ghost use Rattle.server_files.{specs.declared.kept.Kept.Kept, specs.declared.listing.Listing.Listing};
ghost use Rattle.server_service.specs.declared.source.Source.TheVariants.{Kept as InMemory};
ghost use Rattle.server_service.specs.declared.settings.Site.{Site};

pub use server_files::laws::{
    listing_links_to_each_name, redirects_stay_on_the_host, shown_text_is_escaped,
};

/// A request has at most one response at a time, where the store has one entry at each path: two
/// responses have the same status, the same fields in the same order, and the same pieces.
pub fn request_has_one_response()
    ensures { (now : Option ℕ) (left : ℕ) (site : Site) (look : List ℕ → Entry) (request : Request (List ℕ))
        (r s : Response) (a b : Option Source)
        → IsAnswerAt now left site (λ path entry. entry ≡ look path) request r a
        → IsAnswerAt now left site (λ path entry. entry ≡ look path) request s b
        → IsSameResponse r s }
{}

/// Without a clock each content is sent with its own date, since none is later than the time by which the
/// request is answered (RFC 9110, section 8.8.2.1).
pub fn date_without_clock_is_its_own()
    ensures { (files : List File) (place : ℕ) (file : File) → slice_get files place ≡ Some file
        → not_after (clock None files) file.modified ≡ file.modified }
{}

/// Where the ranges of pieces are of bytes in memory, exactly the bytes of these ranges are sent, each in
/// its place among the literal ones.
pub fn sent_bytes_are_those_of_the_ranges()
    ensures { (kept : Kept) (pieces : List Piece) (sent : List ℕ) → AreSent (gives_at (InMemory kept)) pieces sent
        → sent ≡ bytes_of kept.content pieces }
{}

/// A GET of a file, for a host that is served, that has no condition, range or unknown expectation, and asks for no
/// coding where the store negotiates codings, is answered by 200. Of a file in memory exactly the content is sent.
pub fn get_gets_the_content()
    ensures { (now : Option ℕ) (left : ℕ) (site : Site) (divider : List ℕ) (look : List ℕ → Entry)
        (request : Request (List ℕ)) (named : List ℕ) (file : File) (response : Response) (source : Option Source)
        (asked : Asked)
        → IsSite divider site.resource → Asks request asked
        → has_host asked.protocol (asked.fields (codes "host")) ≡ true → is_misdirected site.resource asked ≡ false
        → has_known_expectation (asked.fields (codes "expect")) ≡ true
        → (head_of request).method ≡ codes "GET"
        → Names (uri_path (head_of request).uri) (Some named) → look named ≡ Readable file
        → AsksForAll site.resource.negotiation.coding (lines_at (head_of request).headers)
        → IsAnswerAt now left site (λ path entry. entry ≡ look path) request response source
        → (response.status ≡ 200)
        × ((kept : Kept) (sent : List ℕ) → file.source ≡ InMemory kept
        → AreSent (gives_of source) response.pieces.items sent → sent ≡ kept.content) }
{}

/// A GET of a folder that is listed, by a path that ends in a slash, under the same conditions, is answered by
/// 200. Exactly the page that lists its names is sent.
pub fn get_gets_the_listing()
    ensures { (now : Option ℕ) (left : ℕ) (site : Site) (divider : List ℕ) (look : List ℕ → Entry)
        (request : Request (List ℕ)) (named : List ℕ) (listing : Listing) (response : Response)
        (source : Option Source) (asked : Asked)
        → IsSite divider site.resource → Asks request asked
        → has_host asked.protocol (asked.fields (codes "host")) ≡ true → is_misdirected site.resource asked ≡ false
        → has_known_expectation (asked.fields (codes "expect")) ≡ true
        → (head_of request).method ≡ codes "GET"
        → Names (uri_path (head_of request).uri) (Some named) → look named ≡ Listed listing
        → ends_in_slash (uri_path (head_of request).uri) ≡ true
        → AsksForAll site.resource.negotiation.coding (lines_at (head_of request).headers)
        → IsAnswerAt now left site (λ path entry. entry ≡ look path) request response source
        → (response.status ≡ 200)
        × ((sent : List ℕ) → AreSent (gives_of source) response.pieces.items sent
        → sent ≡ listing_page (string_bytes listing.folder) (map string_bytes listing.names.items)) }
{}

/// If an answer sends several parts of bytes in memory, none holds the boundary between them (RFC 2046,
/// section 5.1.1), whichever part it is.
pub fn no_part_holds_the_boundary()
    ensures { (present : ℕ) (divider : List ℕ) (files : List File) (resource : Resource) (asked : Asked)
        (answer : Answer) (file : File) (kept : Kept)
        → Decides present divider files resource asked answer → sends_several answer.sends ≡ true
        → file_sent files answer.sends ≡ Some file → file.source ≡ InMemory kept
        → (part : Part) → ¬ (Occurs divider (part_bytes kept.content part)) }
{}

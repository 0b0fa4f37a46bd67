//! What follows from the definitions alone. A proof cites a law by calling it.
ghost use Rattle.std.specs.Prelude.{◌≡◌, ◌∷◌, ◌<◌, true, ℕ, All, List, Option, Some, codes, map};
ghost use Rattle.percent_encoding.specs.Percent.{percent_decode};
ghost use Rattle.server_files.{specs.Listings.{is_escaped, listing_page, quoted, shown}, specs.Path.Names};
ghost use Rattle.server_files.specs.Redirect.{HasNoIndex, IsOnHost, index_target};

/// A redirect of a path that names something leads to the host that was asked.
pub fn redirects_stay_on_the_host()
    ensures { (path named : List ℕ) (query : Option (List ℕ)) → Names path (Some named)
        → ¬ (HasNoIndex path query) → IsOnHost (index_target path query) }
{}

/// What a page shows of a name ends no element and no value of an attribute, whatever the name is: it has
/// no quote and no angle bracket, and each ampersand begins one of five references to characters.
pub fn shown_text_is_escaped()
    ensures { (text : List ℕ) → is_escaped (shown text) ≡ true }
{}

/// The links of the page that lists a folder, in their order, decode to the folder above and to the names:
/// each name has one link.
pub fn listing_links_to_each_name()
    ensures { (folder : List ℕ) (names : List (List ℕ)) → All (All (λ byte. byte < 256)) names
        → map percent_decode (quoted (listing_page folder names)) ≡ codes "../" ∷ names }
{}

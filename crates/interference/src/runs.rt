//! Runs that show that the theorems aren't vacuous, and that each of their premises is needed.
#![tactic(auto, using(crate::proofs::Examples::gets_anothers))]

ghost use Rattle.std.specs.Prelude.{◌≡◌, ◌∷◌, [], true, false};
ghost use Rattle.interference.{specs.Events.run, specs.Runs.{ann, bob, by_cookies, by_credentials, cache, carl}};
ghost use Rattle.interference.specs.Runs.{cautious, dated, forgets_vary, freshened_by_bob, freshened_meanwhile};
ghost use Rattle.interference.specs.Runs.{greetings, if_bob, is_ann, is_authorization, is_cookie, members, news};
ghost use Rattle.interference.specs.Runs.{once_each, one_tag, open_news, overtaken, pages, plain, private_pages};
ghost use Rattle.interference.specs.Runs.{sharing, shrinks, site, then_asks, then_validated, turns, validated_by_ann};
ghost use Rattle.interference.specs.Runs.{with_a_private_page, with_bobs, with_caches};
ghost use Rattle.interference.specs.Statements.{DifferInPrivate, DifferInSecrets, GetsAnothers, HasStrongTags};
ghost use Rattle.interference.specs.Statements.{NoVaryNamesASecret, SaysWhatAllDependsOn, SaysWhatItDependsOn};
ghost use Rattle.interference.{specs.Worlds.told, specs.Worlds.Kind.{ByPlace, FreshensInPlace, FreshensOthers}};
ghost use Rattle.interference.specs.Worlds.Kind.{IgnoresAuthorization, OneSlot, Right};

/// A run with the premises of `clients_get_their_own_answers` in which a stored answer is served to
/// a second client and validated for a third, and private ones aren't stored.
pub fn answers_are_shared()
    ensures says { SaysWhatItDependsOn site }
    ensures all { SaysWhatAllDependsOn site }
    ensures strong { HasStrongTags site }
    ensures ann { told ann (run (with_caches Right site by_cookies) sharing).received
        ≡ dated 0 2 (private_pages 0 (by_cookies ann 2 [])) ∷ dated 0 0 (news 0 (by_cookies ann 0 [])) ∷ [] }
    ensures bob { told bob (run (with_caches Right site by_cookies) sharing).received
        ≡ dated 0 2 (private_pages 0 (by_cookies bob 2 [])) ∷ dated 0 0 (news 0 (by_cookies ann 0 [])) ∷ [] }
    ensures carl { told carl (run (with_caches Right site by_cookies) sharing).received
        ≡ dated 0 2 (news 0 (by_cookies ann 0 [])) ∷ [] }
    ensures stored { ((run (with_caches Right site by_cookies) sharing).nodes cache).next ≡ 2 }
{}

/// An origin server that forgets `Vary: Cookie`: Bob gets Ann's page.
pub fn without_vary_pages_are_anothers()
    ensures strong { HasStrongTags forgets_vary }
    ensures anothers { GetsAnothers forgets_vary (run (with_caches Right forgets_vary by_cookies) (then_asks ann bob)) }
{}

/// Tags that aren't strong: by a 304 to Bob's own request he gets Ann's page.
pub fn with_one_tag_pages_are_anothers()
    ensures says { SaysWhatItDependsOn one_tag }
    ensures anothers { GetsAnothers one_tag (run (with_caches Right one_tag by_cookies) then_validated) }
{}

/// Tags that aren't strong, in a run that validates only what matches: a 304 to Ann's own request makes
/// her page one for all, and Bob gets it.
pub fn with_one_tag_a_page_becomes_one_for_all()
    ensures says { SaysWhatItDependsOn shrinks }
    ensures anothers { GetsAnothers shrinks (run (with_caches Right shrinks by_cookies) validated_by_ann) }
{}

/// What an origin server answers without Authorization is also served to those who have it: RFC 9111,
/// section 3.5, is about storing alone. So `Vary: Authorization` is needed there.
pub fn authorized_clients_get_what_is_for_others()
    ensures strong { HasStrongTags greetings }
    ensures anothers { GetsAnothers greetings (run (with_caches Right greetings by_credentials) (then_asks carl bob)) }
{}

/// A cache that remembers a stored answer by its place: Bob gets Ann's page, in a run in which
/// he gets his own by number.
pub fn places_mix_up_pages()
    ensures says { SaysWhatItDependsOn site }
    ensures strong { HasStrongTags site }
    ensures by_place { GetsAnothers site (run (with_caches ByPlace site by_cookies) overtaken) }
    ensures by_number { told bob (run (with_caches Right site by_cookies) overtaken).received
        ≡ dated 0 0 (pages 0 (by_cookies bob 1 [])) ∷ [] }
{}

/// A cache that puts what it may not store in one slot until it is sent: Bob gets Ann's private page.
pub fn one_slot_mixes_up_private_pages()
    ensures anothers { GetsAnothers site (run (with_caches OneSlot site by_cookies) (once_each ann bob)) }
    ensures right { told bob (run (with_caches Right site by_cookies) (once_each ann bob)).received
        ≡ dated 0 0 (private_pages 0 (by_cookies bob 3 [])) ∷ [] }
{}

/// A cache that stores as if no request had Authorization: Bob gets Ann's page.
pub fn ignoring_authorization_mixes_up_pages()
    ensures says { SaysWhatItDependsOn members }
    ensures strong { HasStrongTags members }
    ensures anothers { GetsAnothers members
        (run (with_caches IgnoresAuthorization members by_credentials) (then_asks ann bob)) }
    ensures right { told bob (run (with_caches Right members by_credentials) (then_asks ann bob)).received ≡ [] }
{}

/// A cache that freshens a stored answer by a 304 to a request that the new Vary tells from the one
/// to which it was given: Ann gets Bob's page.
pub fn freshening_others_mixes_up_pages()
    ensures says { SaysWhatItDependsOn turns }
    ensures strong { HasStrongTags turns }
    ensures anothers { GetsAnothers turns (run (with_caches FreshensOthers turns by_cookies) freshened_by_bob) }
    ensures right { told ann (run (with_caches Right turns by_cookies) freshened_by_bob).received ≡ [] }
{}

/// A cache that checks that, but freshens under the old number: a pass that remembers it sends Ann
/// Bob's page. With a new number she gets what was fresh when she asked.
pub fn freshening_in_place_mixes_up_pages()
    ensures anothers { GetsAnothers turns (run (with_caches FreshensInPlace turns by_cookies) freshened_meanwhile) }
    ensures right { told ann (run (with_caches Right turns by_cookies) freshened_meanwhile).received
        ≡ dated 0 0 (turns 0 (by_cookies bob 0 [])) ∷ [] }
{}

/// Two runs with the premises of `clients_learn_nothing_of_secrets`. Bob's requests warm the cache for
/// Ann, and Bob is told other things in each.
pub fn secrets_stay_secret()
    ensures requests { DifferInSecrets is_ann is_cookie (with_bobs (7 ∷ [])) (with_bobs (8 ∷ [])) }
    ensures answers { DifferInPrivate is_ann is_cookie (with_bobs (7 ∷ [])) plain plain }
    ensures vary { NoVaryNamesASecret is_cookie plain }
    ensures ann { told ann (run (with_caches Right plain (with_bobs (7 ∷ []))) with_a_private_page).received
        ≡ dated 0 0 (news 0 (by_cookies bob 0 [])) ∷ [] }
    ensures bob { told bob (run (with_caches Right plain (with_bobs (7 ∷ []))) with_a_private_page).received
        ≡ told bob (run (with_caches Right plain (with_bobs (8 ∷ []))) with_a_private_page).received → ⊥ }
{}

/// If Vary names a secret, then whoever guesses that secret learns that it is right, even though the
/// content doesn't depend on it: there is something stored for it.
pub fn guesses_are_confirmed()
    ensures says { SaysWhatItDependsOn cautious }
    ensures requests { DifferInSecrets is_ann is_cookie (with_bobs (ann ∷ [])) (with_bobs (8 ∷ [])) }
    ensures answers { DifferInPrivate is_ann is_cookie (with_bobs (ann ∷ [])) cautious cautious }
    ensures seen { told ann (run (with_caches Right cautious (with_bobs (ann ∷ []))) (then_asks bob ann)).received
        ≡ told ann (run (with_caches Right cautious (with_bobs (8 ∷ []))) (then_asks bob ann)).received → ⊥ }
{}

/// Whether a request has Authorization decides whether the answer is stored, and others see that.
pub fn authorization_is_seen()
    ensures answers { DifferInPrivate is_ann is_authorization (if_bob true) open_news open_news }
    ensures vary { NoVaryNamesASecret is_authorization open_news }
    ensures seen { told ann (run (with_caches Right open_news (if_bob true)) (then_asks bob ann)).received
        ≡ told ann (run (with_caches Right open_news (if_bob false)) (then_asks bob ann)).received → ⊥ }
{}

/// If what may be stored depends on a secret, others see it.
pub fn stored_secrets_are_seen()
    ensures requests { DifferInSecrets is_ann is_cookie (with_bobs (7 ∷ [])) (with_bobs (8 ∷ [])) }
    ensures vary { NoVaryNamesASecret is_cookie forgets_vary }
    ensures seen { told ann (run (with_caches Right forgets_vary (with_bobs (7 ∷ []))) (then_asks bob ann)).received
        ≡ told ann (run (with_caches Right forgets_vary (with_bobs (8 ∷ []))) (then_asks bob ann)).received → ⊥ }
{}

/// With the premises of `clients_learn_nothing_of_secrets`, but a cache with one slot: Ann is told what
/// Bob's cookie leads to.
pub fn one_slot_tells_secrets()
    ensures requests { DifferInSecrets is_ann is_cookie (with_bobs (7 ∷ [])) (with_bobs (8 ∷ [])) }
    ensures answers { DifferInPrivate is_ann is_cookie (with_bobs (7 ∷ [])) plain plain }
    ensures vary { NoVaryNamesASecret is_cookie plain }
    ensures seen { told ann (run (with_caches OneSlot plain (with_bobs (7 ∷ []))) (once_each bob ann)).received
        ≡ told ann (run (with_caches OneSlot plain (with_bobs (8 ∷ []))) (once_each bob ann)).received → ⊥ }
{}

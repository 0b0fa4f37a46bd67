//! Theorems about the definitions alone. To cite one in a proof, call it.
ghost use Rattle.std.specs.Prelude.{◌≡◌, ℕ, List, Option};
ghost use Rattle.cache_policy.specs.Requests.{Request};
ghost use Rattle.cache_rules.specs.Selection.{IsChoice};
ghost use Rattle.cache_rules.specs.declared.stored.StoredResponse.{StoredResponse};

/// Theorem: each request selects at most one stored response; `select` returns it.
pub fn request_selects_one()
    ensures { (request : Request) (all : List StoredResponse) (a b : Option ℕ)
        → IsChoice request all a → IsChoice request all b → a ≡ b }
{}

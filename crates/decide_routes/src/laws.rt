//! Theorems about the definitions alone. To cite one in a proof, call it.
ghost use Rattle.std.specs.Prelude.{◌≡◌, ◌≢◌, ◌⊎◌, ℕ, List, Ok, Some, Contains, codes};
ghost use Rattle.matchit.specs.{Router.Inserted, Router.RouteOf, Rows.RowsOf, Seek.first};
ghost use Rattle.decide_resource.specs.{Answers.IsAnswer, Reasons.Before, Requests.Request};
ghost use Rattle.decide_resource.specs.{declared.answer.Answer.Answer, declared.resource.Resource.Resource};
ghost use Rattle.decide_resource.specs.declared.reason.Reason.TheVariants.{MethodNotAllowed, NotFound, Options};
ghost use Rattle.decide_routes.specs.Routes.{IsDistinct, IsNowhere, IsServerWide, Matches};

/// Theorem: the route of a path is one of the router's, and its pattern matches the path.
pub fn found_route_matches<T>()
    ensures { (rows : RowsOf (RouteOf T)) (path : List ℕ) (route : RouteOf T) → first rows path ≡ Some route
        → (pattern : List ℕ) × Contains rows (pattern, route) × Matches pattern path }
{}

/// Theorem: a router never has two routes with the same pattern: `insert` keeps them distinct.
pub fn routes_stay_distinct<T>()
    ensures { (old new : RowsOf (RouteOf T)) (route : RouteOf T) → IsDistinct old
        → Inserted route old new (Ok tt) → IsDistinct new }
{}

/// Theorem: a path without a resource gets 404, whatever the method, also OPTIONS (RFC 9110, section
/// 15.5.5). What decides before the state of a resource comes first: an invalid host, another
/// server's host, a preflight, a denial, a method that the server doesn't implement, an expectation,
/// and a part in a PUT. It never gets 405.
pub fn unknown_path_is_not_found()
    ensures missing { (present : ℕ) (resource : Resource) (request : Request) (answer : Answer)
        → IsNowhere resource → IsAnswer present resource request answer
        → Before answer.reason NotFound ⊎ (answer.status ≡ Some 404) }
    ensures allowed { (present : ℕ) (resource : Resource) (request : Request) (answer : Answer)
        → IsNowhere resource → IsAnswer present resource request answer → answer.reason ≢ MethodNotAllowed }
{}

/// Theorem: OPTIONS of the server in general is answered, and any other method gets 404 (RFC 9110,
/// section 9.3.7), unless what decides before the state of a resource does. It never gets 405.
pub fn server_answers_options()
    ensures options { (present : ℕ) (resource : Resource) (request : Request) (answer : Answer)
        → IsServerWide resource → IsAnswer present resource request answer → request.method ≡ codes "OPTIONS"
        → Before answer.reason NotFound ⊎ (answer.reason ≡ Options) }
    ensures missing { (present : ℕ) (resource : Resource) (request : Request) (answer : Answer)
        → IsServerWide resource → IsAnswer present resource request answer → request.method ≢ codes "OPTIONS"
        → Before answer.reason NotFound ⊎ (answer.status ≡ Some 404) }
    ensures allowed { (present : ℕ) (resource : Resource) (request : Request) (answer : Answer)
        → IsServerWide resource → IsAnswer present resource request answer → answer.reason ≢ MethodNotAllowed }
{}

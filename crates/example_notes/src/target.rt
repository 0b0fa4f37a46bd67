//! The target of a path.
ghost use Rattle.std.specs.Prelude.{◌≡◌, option_map};
ghost use Rattle.decide_routes.specs.Routes.{is_asterisk};
ghost use Rattle.example_notes.specs.Targets.{IsNamed, IsTarget, is_plain};

use matchit::{InsertError, Router};
use std::alloc::Global;

/// The target of a route.
#[derive(Clone, Copy)]
pub enum RouteTarget {
    /// The collection.
    Notes,
    /// A note of the collection.
    Note,
}

/// The target of a request's path.
#[derive(Clone, Copy)]
pub enum Target {
    /// The collection.
    Notes,
    /// The note with a number.
    Note(u64),
    /// No resource.
    Nowhere,
    /// The server in general, `*`.
    Server,
}

/// Makes the router, with the routes `/notes` and `/notes/{id}`.
pub fn router(alloc: Global) -> Result<Router<RouteTarget>, InsertError> {
    let mut router = Router::new(alloc);
    router.insert("/notes", RouteTarget::Notes)?;
    router.insert("/notes/{id}", RouteTarget::Note)?;
    Ok(router)
}

// Whether a number begins with a digit from 1 to 9, so that a note has one path.
fn is_plain(digits: &str) -> bool
    ensures { result ≡ is_plain digits.now }
{
    match digits.as_bytes().first() {
        Some(digit) => *digit >= b'1' && *digit <= b'9',
        None => false,
    }
}

// The note whose number is in a path.
fn note_named(id: Option<&str>) -> Target
    ensures { IsNamed (option_map (λ digits. digits.now) id.entry) result }
{
    match id {
        Some(digits) if is_plain(digits) => match digits.parse() {
            Ok(id) => Target::Note(id),
            Err(_) => Target::Nowhere,
        },
        _ => Target::Nowhere,
    }
}

fn is_asterisk(path: &str) -> bool
    ensures { result ≡ is_asterisk path.now }
{
    path == "*"
}

/// Returns the target of a path.
pub fn target_of(router: &Router<RouteTarget>, path: &str) -> Target
    ensures { IsTarget router.now path.now result }
{
    if is_asterisk(path) {
        return Target::Server;
    }
    match router.at(path) {
        Ok(found) => match found.value {
            RouteTarget::Notes => Target::Notes,
            RouteTarget::Note => note_named(found.params.get("id")),
        },
        Err(_) => Target::Nowhere,
    }
}

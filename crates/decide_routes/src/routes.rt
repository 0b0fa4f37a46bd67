//! Routes to resources.
ghost use Rattle.std.specs.Prelude.{◌≡◌, IfOk, Ok};
ghost use Rattle.matchit.specs.Seek.{first};
ghost use Rattle.decide_resource.specs.Requests.{request_of};
ghost use Rattle.decide_routes.specs.Routes.{IsAnswerTo, IsTaken, is_asterisk};

use decide_resource::{Answer, Resource, ResourceRequest, answer_request};
use matchit::{Params, Router};
use std::alloc::{AllocError, Global};

/// The resources of a server by the paths of their targets.
#[derive(Drop)]
pub struct Routes<T> {
    /// The routes, each with a value that says what the server wants to know about it.
    pub router: Router<T>,
    /// The resource that answers if no route matches, as `nowhere` makes it.
    pub nowhere: Resource,
    /// The resource of `*`, as `server_wide` makes it.
    pub server_wide: Resource,
}

/// A request by the path of its target.
#[derive(Clone, Copy)]
pub struct RoutedRequest<'a> {
    /// The path, without the query; or `*`, if the target is in asterisk-form (RFC 9112, section
    /// 3.2.4).
    pub path: &'a str,
    /// The request.
    pub request: ResourceRequest<'a>,
    /// The time, in seconds since 1970.
    pub present: u64,
}

fn is_asterisk(path: &str) -> bool
    ensures { result ≡ is_asterisk path.now }
{
    path == "*"
}

impl<T: Drop> Routes<T> {
    /// Decides the answer to a request by the path of its target (RFC 9110, section 7.1). If a
    /// route matches, `describe` makes its resource of the value and the parameters of the route;
    /// else `nowhere` answers, and for `*` the server in general.
    pub fn answer_at<E: From<AllocError>, F: FnOnce(&T, &Params<'_, '_>) -> Result<Resource, E>>(
        &self,
        alloc: Global,
        asked: &RoutedRequest<'_>,
        describe: F,
    ) -> Result<Answer, E>
        requires { F.IsAlwaysCallable describe }
        ensures { IfOk result (IsAnswerTo asked.now.present self.now.server_wide self.now.nowhere
            (request_of asked.now.request)
            (λ route resource. (value : _) × (params : _) × (value.now ≡ route.value)
            × IsTaken route asked.now.path.now params.now × F.post describe value params (Ok resource))
            (is_asterisk asked.now.path.now) (first self.now.router asked.now.path.now)) }
    {
        let (path, request, present) = (asked.path, &asked.request, asked.present);
        if is_asterisk(path) {
            return Ok(answer_request(alloc, &self.server_wide, request, present)?);
        }
        match self.router.at(path) {
            Ok(found) => {
                let resource = describe(found.value, &found.params)?;
                Ok(answer_request(alloc, &resource, request, present)?)
            }
            Err(_) => Ok(answer_request(alloc, &self.nowhere, request, present)?),
        }
    }
}

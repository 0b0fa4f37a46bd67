//! What the origin server of `updates` does with a guarded PUT, a resource does. A proof cites a law by calling it.
ghost use Rattle.std.specs.Prelude.{◌≡◌, ◌∷◌, [], ℕ, List, Option, Some, false, slice_get, true};
ghost use Rattle.headers.specs.Lines.{Line};
ghost use Rattle.decide_preconditions.specs.Fields.{etag_of, lines_sent};
ghost use Rattle.decide_resource.specs.{Answers.{IsAnswer, at_place, target_of}, Applies.{needs_condition, rule}};
ghost use Rattle.decide_resource.specs.{Requests.Request, declared.answer.Answer.Answer};
ghost use Rattle.decide_resource.specs.{declared.answer.Sends.TheVariants.Perform};
ghost use Rattle.decide_resource.specs.{declared.representation.Representation.Representation};
ghost use Rattle.decide_resource.specs.{declared.resource.Resource.Resource};
ghost use Rattle.updates.{specs.Events.{happens, made_of, performs, sends}, specs.Events.Event.Answers};
ghost use Rattle.updates.specs.Worlds.{Condition.IfMatch, Hop, Message.{Coming, Going}, Put, Request.Puts};
ghost use Rattle.updates.specs.Worlds.{Response.Status204, Version, World, is_true};
ghost use Rattle.chain.specs.Naming.{NamesVersion, Shows};

use decide_resource::laws::performed_method_replaces_what_it_names;

/// Theorem: a resource whose PUT needs a condition performs one with one tag in If-Match only where the
/// origin server of `updates` does: the tag is that of the current version, byte for byte. Each
/// representation has that tag.
pub fn performed_put_names_the_current_version()
    ensures { (present : ℕ) (resource : Resource) (request : Request) (answer : Answer) (version : Version)
        (etag : Line) → Shows resource version → NamesVersion request etag
        → needs_condition (rule resource request) ≡ true → IsAnswer present resource request answer
        → answer.sends ≡ Perform → is_true (IfMatch etag) version ≡ true }
{
    performed_method_replaces_what_it_names();
}

/// Theorem: what such a resource does as it performs such a PUT is an event of `updates`, with whatever
/// tag the new version gets.
pub fn performed_put_is_an_event()
    ensures { (present : ℕ) (resource : Resource) (request : Request) (answer : Answer) (world : World)
        (message : ℕ) (passed : List Hop) (put : Put) (etag new : Line)
        → slice_get world.messages message ≡ Some (Going passed (Puts put)) → put.condition ≡ IfMatch etag
        → Shows resource world.current → NamesVersion request etag
        → needs_condition (rule resource request) ≡ true → IsAnswer present resource request answer
        → answer.sends ≡ Perform → happens world (Answers message new false)
        ≡ sends (Coming passed (Puts put) (Status204 (made_of put new world)))
        (performs put (made_of put new world) world) }
{
    performed_put_names_the_current_version();
}

/// Theorem: the entity tag of a representation, which a 200 or a 304 about it has, is that of the
/// current version.
pub fn shown_tag_is_that_of_the_version()
    ensures { (resource : Resource) (version : Version) (place : Option ℕ) (representation : Representation)
        → Shows resource version → at_place resource.representations.items place ≡ Some representation
        → lines_sent (λ tag. tag.bytes)
        (etag_of (target_of resource.state (at_place resource.representations.items place))) ≡ version.etag ∷ [] }
{}

//! What holds after any events, in any order: requests and replies are lost, repeated, delayed and overtaken, caches
//! forget, and between two steps of a pass there may be any steps of others.
ghost use Rattle.std.specs.Prelude.{◌≡◌, ℕ, Bool, true, List};
ghost use Rattle.interference.{specs.Events.{Event, run}, specs.Statements.{DifferInPrivate, DifferInSecrets, Has}};
ghost use Rattle.interference.specs.Statements.{HasStrongTags, IsFor, IsOwn, NoVaryNamesASecret, SaysWhatAllDependsOn};
ghost use Rattle.interference.{specs.Statements.SaysWhatItDependsOn, specs.Worlds.{Clients, Origin, Received, told}};
ghost use Rattle.interference.{specs.Worlds.Kind.Right, specs.Worlds.Storing.NotShared};

/// Theorem: confidentiality by content, if the origin server says what its content depends on, and no
/// two contents of a target have the same tag. Whatever a client receives is, byte for byte, what the
/// origin server would have answered to that client's own request, in a version no later than now:
/// in one no earlier than that in which the request was sent, or else the answer was fresh then. If
/// the origin server also says what its fields depend on, then so are they.
pub fn clients_get_their_own_answers()
    ensures content { (origin : Origin) (clients : Clients) (events : List Event) (received : Received)
        → SaysWhatItDependsOn origin → HasStrongTags origin
        → Has (run (record { kind = Right; origin = origin; clients = clients }) events).received received
        → IsOwn origin (run (record { kind = Right; origin = origin; clients = clients }) events) received }
    ensures answer { (origin : Origin) (clients : Clients) (events : List Event) (received : Received)
        → SaysWhatAllDependsOn origin → HasStrongTags origin
        → Has (run (record { kind = Right; origin = origin; clients = clients }) events).received received
        → received.given.answer ≡ origin received.given.version received.asked.request }
{}

/// Theorem: only what may be shared is shared, if no two contents of a target have the same tag.
/// Whatever an origin server depends on and says, a client receives what it answered to that client's
/// own request, or to one whose answer it let be stored for requests like this. What it let nobody
/// share is the answer to the client's own request.
pub fn only_what_may_be_shared_is_shared()
    ensures matching { (origin : Origin) (clients : Clients) (events : List Event) (received : Received)
        → HasStrongTags origin
        → Has (run (record { kind = Right; origin = origin; clients = clients }) events).received received
        → IsFor origin received.given received.asked.request }
    ensures private { (origin : Origin) (clients : Clients) (events : List Event) (received : Received)
        → HasStrongTags origin
        → Has (run (record { kind = Right; origin = origin; clients = clients }) events).received received
        → received.given.answer.head.storing ≡ NotShared
        → received.given.answer ≡ origin received.given.version received.asked.request }
{}

/// Theorem: noninterference. In two runs with the same schedule, clients whom the origin server
/// answers the same are told the same: the same contents, heads, dates and versions, in the same
/// order, so that they also go on asking the same. The requests of the others may differ in the
/// values of secret fields, but both have Authorization, or neither; and the answers to these requests
/// may differ where neither may be stored. No answer that may be stored may vary by a secret field.
pub fn clients_learn_nothing_of_secrets()
    ensures { (watches : ℕ → Bool) (secret : List ℕ → Bool) (origin other : Origin) (clients others : Clients)
        (events : List Event) (client : ℕ) → DifferInSecrets watches secret clients others
        → DifferInPrivate watches secret clients origin other → NoVaryNamesASecret secret origin
        → watches client ≡ true
        → told client (run (record { kind = Right; origin = origin; clients = clients }) events).received
        ≡ told client (run (record { kind = Right; origin = other; clients = others }) events).received }
{}

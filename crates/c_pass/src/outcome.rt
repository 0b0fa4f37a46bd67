//! What a step of a pass comes to.
ghost use Rattle.std.specs.Prelude.{◌≡◌};
ghost use Rattle.c_pass.specs.Outcomes.{failed_outcome, first_outcome, next_outcome};

use cache_pass::{First, Next, Reply};
use cache_rules::{StoredAnswer, StoredResponse};
use headers::Encoded;

/// What is done with a request: the number of it, and by what.
#[derive(Drop)]
pub struct PassOutcome {
    /// The number: 0 to send a stored response, 1 to do so and then validate it, 2 to ask the origin, 3 to ask it
    /// with these fields, 4 to send 504, 5 to pass on what came and then end the pass, 6 to pass it on, 7 to send
    /// that no response came. A pass that waits has 8.
    pub action: u8,
    /// By what it is done.
    pub by: By,
}

/// By what something is done with a request.
#[derive(Drop)]
pub enum By {
    /// By nothing else.
    Nothing,
    /// By these fields.
    Fields(Vec<Encoded>),
    /// By the stored response with this number, as it answers so.
    Stored(u64, StoredAnswer),
    /// By this response, which is stored no longer, as it answers so.
    Once(StoredResponse, StoredAnswer),
}

pub(crate) fn first_outcome(first: First) -> PassOutcome
    ensures { result ≡ first_outcome first }
{
    let (action, by) = match first {
        First::Reply(reply) => (0, By::Stored(reply.number, reply.answer)),
        First::ReplyAndValidate(reply) => (1, By::Stored(reply.number, reply.answer)),
        First::Ask => (2, By::Nothing),
        First::Validate(fields) => (3, By::Fields(fields)),
        First::Unavailable => (4, By::Nothing),
    };
    PassOutcome { action, by }
}

pub(crate) fn next_outcome(next: Next) -> PassOutcome
    ensures { result ≡ next_outcome next }
{
    let (action, by) = match next {
        Next::Reply(reply) => (0, By::Stored(reply.number, reply.answer)),
        Next::Once(stored, answer) => (0, By::Once(stored, answer)),
        Next::Ask => (2, By::Nothing),
        Next::PassOn(true) => (5, By::Nothing),
        Next::PassOn(false) => (6, By::Nothing),
    };
    PassOutcome { action, by }
}

pub(crate) fn failed_outcome(found: Option<Reply>) -> PassOutcome
    ensures { result ≡ failed_outcome found }
{
    match found {
        Some(reply) => PassOutcome {
            action: 0,
            by: By::Stored(reply.number, reply.answer),
        },
        None => PassOutcome {
            action: 7,
            by: By::Nothing,
        },
    }
}

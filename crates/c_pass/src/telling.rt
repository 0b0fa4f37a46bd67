//! What is told of a step.
ghost use Rattle.std.specs.Prelude.{◌≡◌, IfOk, IsErr};
ghost use Rattle.cache_pass.specs.{Effects.stored_at, Passes.key_of};
ghost use Rattle.c_pass.specs.Telling.{IsTold, TakesMemory, facts_of, is_head, outcome_told, told_of, waiting};

use crate::outcome::{By, PassOutcome};
use crate::sending::{part_sent, status_sent, text_sent};
use bytes::Bytes;
use c_decisions::fields_text;
use cache_pass::{Cache, Pass};
use cache_rules::{StoredAnswer, StoredResponse};
use http::Method;
use std::alloc::{AllocError, Global};

/// What is told of a step.
#[repr(C)]
#[derive(Clone, Copy)]
pub struct PassFacts {
    /// The first position of the content that is sent of the stored response.
    pub first: u64,
    /// How many bytes of it are sent.
    pub count: u64,
    /// The status that is sent with it, or 0 if no stored response is sent.
    pub status: u16,
    /// What is done: the number of an outcome.
    pub action: u8,
}

/// What is told of a step, the field lines that it takes, and the content that it shows.
#[derive(Drop)]
pub struct Told {
    pub facts: PassFacts,
    pub text: Vec<u8>,
    pub shown: Option<Bytes>,
}

fn is_head(pass: &Pass) -> bool
    ensures { result ≡ is_head pass.now }
{
    *pass.head().method == Method::HEAD
}

fn facts_of(action: u8, status: u16, part: (u64, u64)) -> PassFacts
    ensures { result ≡ facts_of action status part }
{
    PassFacts {
        first: part.0,
        count: part.1,
        status,
        action,
    }
}

/// What is told of a pass that waits.
pub(crate) fn waiting() -> PassFacts
    ensures { result ≡ waiting }
{
    facts_of(8, 0, (0, 0))
}

fn tell_stored(
    alloc: Global,
    action: u8,
    stored: &StoredResponse,
    answer: StoredAnswer,
    is_head: bool,
    now: u64,
) -> Result<Told, AllocError>
    ensures { IfOk result (λ told. IsTold told (told_of action stored.now answer is_head now)) }
{
    Ok(Told {
        facts: facts_of(
            action,
            status_sent(stored, answer),
            part_sent(stored, answer, is_head),
        ),
        text: text_sent(alloc, stored, answer, now)?,
        shown: Some(stored.content.clone()?),
    })
}

/// What is told of an outcome.
pub(crate) fn tell(
    alloc: Global,
    cache: &Cache,
    pass: &Pass,
    outcome: &PassOutcome,
    now: u64,
) -> Result<Told, AllocError>
    ensures told { IfOk result (λ told. IsTold told (outcome_told
        (stored_at (key_of pass.now) cache.now) (is_head pass.now) now outcome.now)) }
    ensures memory { IsErr result → TakesMemory outcome.now }
{
    let action = outcome.action;
    let text = match &outcome.by {
        By::Nothing => Vec::new(alloc),
        By::Fields(fields) => fields_text(alloc, fields.as_slice())?,
        By::Stored(number, answer) => match cache.store().response(pass.key(), *number) {
            Some(stored) => {
                return tell_stored(alloc, action, stored, *answer, is_head(pass), now);
            }
            None => Vec::new(alloc),
        },
        By::Once(stored, answer) => {
            return tell_stored(alloc, action, stored, *answer, is_head(pass), now);
        }
    };
    Ok(Told {
        facts: facts_of(action, 0, (0, 0)),
        text,
        shown: None,
    })
}

//! The queue of a cache.
ghost use Rattle.std.specs.Prelude.{◌≡◌, IfOk, OnErr};
ghost use Rattle.c_pass.specs.Waiting.{IsAhead, IsPlaced, IsSettled, IsUnplaced};

use crate::held::Place;
use cache_pass::{Pass, Phase, Queue};
use std::alloc::{AllocError, Global};

/// The number of the request for which a pass waits before it asks the origin, if it waits.
pub(crate) fn ahead(queue: &Queue, pass: &Pass, now: u64) -> Option<u64>
    ensures { IsAhead queue.now pass.now now result }
{
    if pass.collapses() {
        queue.ahead(pass.key(), now)
    } else {
        None
    }
}

/// Enters a pass that asks the origin, if others may wait for it.
pub(crate) fn enter(
    alloc: Global,
    queue: &mut Queue,
    pass: &Pass,
    now: u64,
) -> Result<Place, AllocError>
    ensures ok { IfOk result (IsPlaced pass.now now queue.old queue.new) }
    ensures err { OnErr result (IsUnplaced pass.now now queue.old queue.new) }
{
    if !pass.collapses() {
        return Ok(Place::Apart);
    }
    match queue.enter(alloc, pass.key(), now)? {
        Some(number) => Ok(Place::Ahead(number)),
        None => Ok(Place::Apart),
    }
}

/// The place of a pass after a step: one that has ended leaves.
pub(crate) fn settle(queue: &mut Queue, phase: &Phase, place: Place) -> Place
    ensures { IsSettled phase.now place queue.old queue.new result }
{
    match (phase, place) {
        (Phase::Ended, Place::Ahead(number)) => {
            queue.leave(number);
            Place::Apart
        }
        _ => place,
    }
}

//! What is removed.
ghost use Rattle.c_pass.specs.Caches.{Removes};

use crate::held::Shared;
use crate::reading::read_target;
use c_parts::Failure;
use std::alloc::Global;

/// Removes what is stored under a target. What was asked for it before isn't stored any more either.
pub fn remove(alloc: Global, shared: &mut Shared, target: &[u8]) -> Result<(), Failure>
    ensures { Removes target.now shared.old shared.new result }
{
    let target = read_target(target)?;
    shared.cache.remove(alloc, target);
    Ok(())
}

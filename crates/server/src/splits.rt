//! The passes of several workers.

ghost use Rattle.std.specs.Prelude.{IfOk};
ghost use Rattle.open_tables.specs.Tables.{AreTheirs};
ghost use Rattle.server.specs.Splits.{AreSplit, AreJoined};

use open_tables::{Passes, Tables};
use outside::Memory;
use std::alloc::Global;
use std::sync::Wait;

/// Splits the pass to each table: the passes keep their numbers, and the new ones have numbers of their own.
pub(crate) fn split_all<R: Wait>(
    rt: &R,
    alloc: Global,
    tables: &Tables,
    passes: Passes,
) -> Result<(Passes, Passes), Memory>
    requires theirs { AreTheirs tables.now passes }
    ensures splits { IfOk result (λ both. AreSplit passes both.0 both.1) }
    ensures theirs { IfOk result (λ both. AreTheirs tables.now both.0 × AreTheirs tables.now both.1) }
{
    let mut kept = Vec::with_capacity(alloc, passes.each.len())?;
    let mut new = Vec::with_capacity(alloc, passes.each.len())?;
    for pass in passes.each {
        let Ok(place) = u32::try_from(kept.len()) else {
            return Err(Memory);
        };
        pass.number_is_below();
        let (left, right) = tables.turn(place).split_pass(rt, alloc, pass);
        kept.push(left)?;
        new.push(right?)?;
    }
    Ok((Passes { each: kept }, Passes { each: new }))
}

/// Joins two passes to each table into one, which keeps the number of the first.
pub(crate) fn join_all(
    alloc: Global,
    tables: &Tables,
    keep: Passes,
    give: Passes,
) -> Result<Passes, Memory>
    requires keep { AreTheirs tables.now keep }
    requires give { AreTheirs tables.now give }
    ensures joins { IfOk result (λ after. AreJoined keep give after) }
    ensures theirs { IfOk result (λ after. AreTheirs tables.now after) }
{
    let mut joined = Vec::with_capacity(alloc, keep.each.len())?;
    for (mine, other) in keep.each.into_iter().zip(give.each) {
        let Ok(place) = u32::try_from(joined.len()) else {
            return Err(Memory);
        };
        joined.push(tables.turn(place).join_pass(mine, other))?;
    }
    Ok(Passes { each: joined })
}

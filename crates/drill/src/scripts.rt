//! The moves by which the drill drains a session.

use crate::Move;
use outside::Memory;
use std::alloc::Global;

/// The most splits of one session.
const MOST_SPLITS: u32 = 64;

/// A read of one row at place 0, and then a split of each place from 0 on, of as many as n and at most 64.
pub(crate) fn moves_of(alloc: Global, n: u32) -> Result<Vec<Move>, Memory> {
    let mut moves = Vec::new(alloc);
    moves.push(Move::Read { place: 0, count: 1 })?;
    for place in 0..n.min(MOST_SPLITS) {
        moves.push(Move::Split { place })?;
    }
    Ok(moves)
}

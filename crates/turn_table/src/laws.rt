//! Laws of legal histories, each the contract of a function that does nothing. They hold of every machine.

ghost use Rattle.turn_table.specs.Laws.{StepsStayLegal, FrontsAreLegal};

use crate::Machine;

/// A step from a legal history leads to a legal one.
pub fn steps_stay_legal<M: Machine>()
    ensures { (fixed : M.Fixed) → StepsStayLegal M.caller_of (M.takes fixed) (M.allows fixed) }
{}

/// What a legal history began with is legal.
pub fn fronts_are_legal<M: Machine>()
    ensures { (fixed : M.Fixed) → FrontsAreLegal (M.takes fixed) (M.allows fixed) }
{}

//! The law over any list of calls.

ghost use Rattle.h2_flow.specs.Calls.{IsExactSum, IsGrantedWhenSpent, IsAlwaysGranted};

/// A window is an exact sum, and what was spent never exceeds what was granted: a law of the contracts of
/// [`crate::Window`], over any list of its calls. It computes nothing.
pub fn sums_are_exact()
    // A window is where it began, and what was granted, less what was spent.
    ensures sum { IsExactSum }

    // When bytes are spent, all that was spent until then was granted.
    ensures when_spent { IsGrantedWhenSpent }

    // Where no change of the initial size takes anything back, this holds after every call.
    ensures always { IsAlwaysGranted }
{}

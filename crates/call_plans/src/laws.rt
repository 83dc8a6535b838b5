//! Laws of the definitions.

ghost use Rattle.call_plans.specs.Laws.{AsksTables, EndsAsAsked};
ghost use Rattle.call_plans.specs.Replies.{RepliesInKind};

/// The laws of what is asked of the tables. It does nothing when it runs.
///
/// A plan that asks a table asks one that is there. Its answer, whatever it is, ends the call exactly where what was
/// asked does. A table answers a command by a refusal, or by a reply that the plans tell of that command.
pub fn plan_laws()
    ensures tables { AsksTables }
    ensures ends { EndsAsAsked }
    ensures replies { RepliesInKind }
{}

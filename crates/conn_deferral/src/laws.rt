//! Laws of records of which one defers parts of answers. They compute nothing.

ghost use Rattle.conn_deferral.specs.Laws.{RulesAgree, DueByBoth, StaysDeferred, GivenAtOnce, GivenLate, LeftToGive, DealingBegins, DealsOn, DealsRest, DealsPart, DealsLess, DealsIn};
ghost use Rattle.conn_deferral.specs.Resting.{RestsWhereBlocked};

/// No rule of a connection reads a part that is given on a stream behind the client's end. It computes nothing.
pub fn rules_agree()
    ensures agree { RulesAgree }

    // What is due by one record is due by the other.
    ensures due { DueByBoth }
{}

/// How the two records go on. It computes nothing.
pub fn parts_are_deferred()
    // Frames came, or a rule of framing was broken, or a request was whole.
    ensures stays { StaysDeferred }

    // A part is given at once, or one that was left is given, or one is decided and left.
    ensures given { GivenAtOnce }
    ensures late { GivenLate }
    ensures left { LeftToGive }
{}

/// How a connection and what its caller has left to give go on. It computes nothing.
pub fn dealings_go_on()
    ensures begins { DealingBegins }

    // Frames that are due go.
    ensures frames { DealsOn }
    ensures rest { DealsRest }

    // The next part of what is left is given.
    ensures part { DealsPart }

    // What is left on a closed stream is let go.
    ensures less { DealsLess }

    // A frame comes.
    ensures came { DealsIn }
{}

/// Where nothing that is due fits [`conn_record::LEAST_ROOM`] and no part that is left may be given, a connection is at rest.
/// It computes nothing.
pub fn rests_where_blocked()
    ensures rests { RestsWhereBlocked }
{}

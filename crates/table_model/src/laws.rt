//! Laws of the definitions, each the contract of a function that does nothing.

ghost use Rattle.table_model.specs.Laws.{VisibleRowsGrow, EntriesAreMade, AppendsStandAtEnd, SourcesStandOnce, SourcesAreRows, StepsKeepLegal, NoSourceTwice, LegalIsWithin, VisibleRowsFit, SessionsFit, SessionsAreTrees, SessionsStay, SessionsJoin, NodeRowsStay};

/// Visible rows only grow: those of a history stand first among those of each longer one.
pub fn visible_rows_only_grow()
    ensures { VisibleRowsGrow }
{}

/// Each entry of a legal history is one that the history before it permits: a new stream has the
/// next number; rows are appended to a stream that is there and not finalised, within the limit of
/// their sizes; a flush shows more rows, and no more than there are; a stream is finalised once; a
/// commit names finalised PENDING streams, each once, that were not committed; a session has the next
/// number and is over the rows that were visible at some moment; and a split is of a node of two rows
/// or more that wasn't split, into the next two. Its moment is none before the history's.
pub fn entries_are_made()
    ensures { EntriesAreMade }
{}

/// In a legal history each append stands at the end of its stream.
pub fn appends_stand_at_the_end()
    ensures { AppendsStandAtEnd }
{}

/// In a legal history the visible rows of a stream stand once each among the visible rows of the
/// table, and no other row of it stands there: no source comes twice.
pub fn sources_stand_once()
    ensures exactly { SourcesStandOnce }
    ensures at_most { NoSourceTwice }
{}

/// In a legal history each visible row is the row at its source's offset of its source's stream.
pub fn sources_are_rows()
    ensures { SourcesAreRows }
{}

/// A step from a legal history leads to a legal one.
pub fn steps_keep_legal()
    ensures { StepsKeepLegal }
{}

/// Each legal history is within the limits of a table, all that it keeps fits the table's columns, and its moments
/// rise up to a reading of a clock.
pub fn legal_is_within()
    ensures { LegalIsWithin }
{}

/// Where all that a history keeps fits the columns, its visible rows fit them, the restriction of each of its sessions
/// is typed, and the columns of each are chosen among the table's.
pub fn all_fits()
    ensures visible { VisibleRowsFit }
    ensures sessions { SessionsFit }
{}

/// The nodes of each session of a legal history are a split tree over some of its visible rows.
pub fn sessions_are_trees()
    ensures { SessionsAreTrees }
{}

/// A session stays as it is behind later entries, but for the nodes that they split: no interval of a node is another.
pub fn sessions_stay()
    ensures { SessionsStay }
{}

/// In a legal history the rows of the nodes of any cut of a session, one node after another, are the rows of the session,
/// and the rows of a left child, and behind them those of the right one, are the rows of the node; whatever rows a reader
/// keeps, and however they are shown.
pub fn sessions_join<Shown>()
    ensures { SessionsJoin Shown }
{}

/// Later entries change no row of a session's node.
pub fn node_rows_stay<Shown>()
    ensures { NodeRowsStay Shown }
{}

//! Laws of the definitions.

ghost use Rattle.conn_requests.specs.Laws.{UsesInOrder, KeepsFrames, SpellsAnswers, EndsWithItsClient};

/// The laws of what is decided. It does nothing when it runs.
///
/// The answers that are used, and those that are left over, are the answers, in their order. The frames of the record
/// stay. Where each item that was decided has its answer, what is given on a stream is the spelling of the answers to it.
/// Where the client has ended a body, no call goes on behind it.
pub fn decided_laws()
    ensures used { UsesInOrder }
    ensures frames { KeepsFrames }
    ensures spelled { SpellsAnswers }
    ensures ended { EndsWithItsClient }
{}

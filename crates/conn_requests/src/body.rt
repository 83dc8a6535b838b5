//! The end of a body.

ghost use Rattle.std.specs.Prelude.{◌≡◌, ◌≢◌, ◌↔◌, ◌++◌, ℕ, List, [], false, IsTrue, OnOk};
ghost use Rattle.conn_requests.specs.Body.{end_asked, compressed, rest_asked};
ghost use Rattle.conn_requests.specs.Taken.{Tells};

use crate::asks::{Ask, Over};
use crate::kinds::{Kind, Sole};
use grpc_frame::Part;
use outside::Memory;
use std::mem;

/// What the client's end asks, inside a message or behind the last. A call's one message is moved out.
fn end_asked(kind: &mut Kind, is_inside: bool) -> Ask
    ensures { (rest : List ℕ) → (IsTrue is_inside ↔ (rest ≢ [])) → result ≡ end_asked kind.old rest }
{
    if is_inside {
        return Ask::Ends(Over::CutShort);
    }
    match kind {
        Kind::Appending => Ask::Ends(Over::Finished),
        Kind::Collecting(method, sole) => match mem::replace(sole, Sole::Empty) {
            Sole::One(message) => Ask::Call(*method, message),
            Sole::Empty | Sole::Many => Ask::Ends(Over::OneWanted),
        },
    }
}

/// How a call ends that has a compressed message.
fn compressed(is_coded: bool) -> Over
    ensures { result ≡ compressed is_coded }
{
    if is_coded {
        Over::Coded
    } else {
        Over::Compressed
    }
}

/// Adds what is asked behind the whole messages.
pub(crate) fn hear_rest(
    asks: &mut Vec<Ask>,
    kind: &mut Kind,
    is_coded: bool,
    part: &Part,
    is_inside: bool,
    ended: bool,
) -> Result<(), Memory>
    ensures asks { OnOk result ((rest : List ℕ) → Tells part.now is_inside rest
        → asks.new.items ≡ asks.old.items ++ rest_asked kind.old is_coded part.now rest ended) }
    ensures kind { ended ≡ false → kind.new ≡ kind.old }
{
    match part {
        Part::Compressed { .. } => asks.push(Ask::Ends(compressed(is_coded)))?,
        Part::TooLong { .. } => asks.push(Ask::Ends(Over::TooLong))?,
        Part::Message(_) | Part::More => {
            if ended {
                asks.push(end_asked(kind, is_inside))?;
            }
        }
    }
    Ok(())
}

//! The whole messages of a body.

ghost use Rattle.std.specs.Prelude.{◌≡◌, ◌++◌, IfOk, OnOk};
ghost use Rattle.grpc_frame.specs.Part.{part_of};
ghost use Rattle.grpc_frame.specs.declared.limits.TheConstants.{MESSAGE_LIMIT};
ghost use Rattle.conn_requests.specs.Body.{with_sole, kind_with};
ghost use Rattle.conn_requests.specs.Taken.{message_asked, TakesAll};

use crate::asks::Ask;
use crate::kinds::{Kind, Sole};
use grpc_frame::{Deframer, Part};
use outside::{Blob, Memory};
use std::alloc::Global;

/// Keeps the first message, and that there were more.
fn add(sole: &mut Sole, message: Blob)
    ensures { sole.new ≡ with_sole sole.old message }
{
    *sole = match sole {
        Sole::Empty => Sole::One(message),
        Sole::One(_) | Sole::Many => Sole::Many,
    };
}

/// Asks a message of an AppendRows call; keeps one of another call.
fn hear_message(kind: &mut Kind, asks: &mut Vec<Ask>, message: Blob) -> Result<(), Memory>
    ensures kind { OnOk result (kind.new ≡ kind_with kind.old message) }
    ensures asks { OnOk result (asks.new.items ≡ asks.old.items ++ message_asked kind.old message) }
{
    match kind {
        Kind::Appending => asks.push(Ask::Append(message))?,
        Kind::Collecting(_, sole) => add(sole, message),
    }
    Ok(())
}

/// Takes all whole messages that are held. What stands behind them is answered.
pub(crate) fn hear_messages(
    alloc: Global,
    deframer: &mut Deframer,
    kind: &mut Kind,
    asks: &mut Vec<Ask>,
) -> Result<Part, Memory>
    requires { deframer.old.limit ≡ MESSAGE_LIMIT }
    ensures limit { deframer.new.limit ≡ MESSAGE_LIMIT }
    ensures takes { OnOk result (TakesAll deframer.old.bytes deframer.new.bytes kind.old kind.new asks.old.items asks.new.items) }
    ensures part { IfOk result (λ part. part ≡ part_of MESSAGE_LIMIT deframer.new.bytes) }
{
    loop {
        match deframer.next(alloc)? {
            Part::Message(message) => hear_message(kind, asks, message)?,
            other => return Ok(other),
        }
    }
}

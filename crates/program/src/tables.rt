ghost use Rattle.std.specs.Prelude.{◌≡◌, []};
ghost use Rattle.call_body.specs.Answers.{AnswersOne};
ghost use Rattle.program.specs.Body.{is_readable, AnswersFromTable};
ghost use Rattle.program.specs.Reply.{AnswersAppend};

use crate::replies::{accepted_reply, refused_reply};
use crate::requests::{Request, RequestFault, read_request};
use call_body::{Answer, Answers};
use outside::Memory;
use std::alloc::Global;
use std::marker::Model;
use table_model::{AppendFault, Opaque};

/// A table of opaque rows that answers the messages of one AppendRows call.
///
/// Contracts see its history, the list of the accepted appends.
#[derive(Drop)]
pub struct OpaqueTable {
    rows: Opaque,
}

impl Model for OpaqueTable {
    ghost use Rattle.std.specs.Prelude.{List};
    ghost use Rattle.table_model.specs.declared.opaque_rows.OpaqueEntry.{OpaqueEntry};

    ghost Value = { List OpaqueEntry };

    ghost view = { λ t. t.rows };
}

impl OpaqueTable {
    /// A table without a row. It can't be refused.
    pub fn new(alloc: Global) -> OpaqueTable
        ensures { result ≡ [] }
    {
        OpaqueTable {
            rows: Opaque::new(alloc),
        }
    }
}

/// The answer with the reply to an append.
fn answer_append(alloc: Global, appended: Result<u64, AppendFault>) -> Answer
    ensures { AnswersAppend appended result }
{
    let reply = match appended {
        Ok(first) => accepted_reply(alloc, first),
        Err(AppendFault::Refused(refusal)) => refused_reply(alloc, &refusal),
        Err(AppendFault::Memory) => return Answer::Memory,
    };
    match reply {
        Ok(reply) => Answer::Reply(reply),
        Err(Memory) => Answer::Memory,
    }
}

impl Answers for OpaqueTable {
    ghost readable = { is_readable };

    ghost answers = { AnswersFromTable };

    fn answer(&mut self, alloc: Global, message: &[u8]) -> Answer {
        let request = match read_request(alloc, message) {
            Ok(request) => request,
            Err(RequestFault::Unreadable) => return Answer::Unreadable,
            Err(RequestFault::Memory) => return Answer::Memory,
        };
        let Request { offset, rows } = request;
        let appended = self.rows.append(alloc, offset, rows.into_vec());
        answer_append(alloc, appended)
    }
}

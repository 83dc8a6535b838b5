//! Whether streams can be committed, all at once.

ghost use Rattle.std.specs.Prelude.{◌≡◌, ◌<◌, ◌^◌, length, IfOk};
ghost use Rattle.table_model.specs.Checks.{names_twice as names_twice_of, stream_errors as stream_errors_of};
ghost use Rattle.table_model.specs.Committing.{CommitChecked};

use super::checks::stream_code;
use super::facts::Streams;
use super::reasons::{Refusal, Why};
use super::replies::{StreamError, StreamErrors};
use super::streams::StreamRef;
use outside::Memory;
use sqlite_items::Items;
use std::alloc::Global;
use std::collections::HashSet;

/// Why a commit was not looked at.
#[derive(Drop)]
pub enum CommitFault {
    /// Want of memory.
    Memory,
    /// The commit is refused.
    Refused(Refusal),
}

impl From<Memory> for CommitFault {
    ghost use Rattle.std.specs.Prelude.{◌≡◌};
    ghost use Rattle.table_model.specs.declared.commits.CommitFault.TheVariants as fault;

    ghost from_gives = { λ _ e. e ≡ fault.Memory };

    fn from(_memory: Memory) -> CommitFault {
        CommitFault::Memory
    }
}

/// The errors of the streams that can't be committed, in the order of the streams. Where there is
/// none, all can be.
///
/// Refused, in this order: `NoStreams`, `Twice` where a stream is named twice.
pub fn commit_check<S: Streams>(
    alloc: Global,
    look: &S,
    streams: &[StreamRef],
) -> Result<StreamErrors, CommitFault>
    requires { length streams.now < 2 ^ 32 }
    ensures { CommitChecked (S.state look.now) streams.now result }
{
    if streams.is_empty() {
        return Err(CommitFault::Refused(Refusal::of(Why::NoStreams)));
    }
    if names_twice(alloc, streams)? {
        return Err(CommitFault::Refused(Refusal::of(Why::Twice)));
    }
    Ok(stream_errors(alloc, look, streams)?)
}

// Whether two of the names name one stream.
#[tactic(auto, using(crate::proofs::CommitLemmas::names_twice_more, crate::proofs::CommitLemmas::names_twice_kept, std::proofs::lemmas::List::Folds::list_any_more))]
fn names_twice(alloc: Global, streams: &[StreamRef]) -> Result<bool, Memory>
    ensures { IfOk result (λ twice. twice ≡ names_twice_of streams.now) }
{
    let mut numbers = HashSet::new(alloc);
    let mut has_default = false;
    for stream in streams {
        match stream {
            StreamRef::Default => {
                if has_default {
                    return Ok(true);
                }
                has_default = true;
            }
            StreamRef::Number(number) => {
                if !numbers.insert(*number)? {
                    return Ok(true);
                }
            }
            StreamRef::Other => {}
        }
    }
    Ok(false)
}

#[tactic(auto, using(crate::proofs::CommitLemmas::stream_errors_more))]
fn stream_errors<S: Streams>(
    alloc: Global,
    look: &S,
    streams: &[StreamRef],
) -> Result<StreamErrors, Memory>
    requires { length streams.now < 2 ^ 32 }
    ensures { IfOk result (λ errors. errors ≡ stream_errors_of (S.state look.now) streams.now) }
{
    let mut errors = Vec::new(alloc);
    for (place, stream) in streams.iter().enumerate() {
        if let Some(code) = stream_code(look.state(*stream)) {
            errors.push(StreamError {
                place: place as u32,
                code,
            })?;
        }
    }
    Ok(Items::from_vec(errors))
}

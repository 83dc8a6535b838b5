//! A state for each write stream.

ghost use Rattle.std.specs.Prelude.{◌≡◌, ◌+◌, ◌<◌, ◌^◌, ℕ, true, Some, [], ◌∷◌, ◌++◌, length, IsSome, IfSome, OnOk, if◌then◌else◌};
ghost use Rattle.std.specs.List.{list_any};
ghost use Rattle.table_model.specs.declared.entries.Entry.{Entry};
ghost use Rattle.table_model.specs.declared.entries.Change.TheVariants as change;
ghost use Rattle.table_model.specs.declared.streams.StreamRef.{StreamRef};
ghost use Rattle.table_model.specs.Streams.{is_one_stream};
ghost use Rattle.table_model.specs.History.{History};
ghost use Rattle.table_model.specs.Checks.{append_check as append_check_of, finalise_check as finalise_check_of, flush_check as flush_check_of, stream_errors};
ghost use Rattle.table_model.specs.Committing.{CommitChecked};
ghost use Rattle.write_streams.specs.Book.{find, unused, empty_book, facts_check, Added, Changes, with_committed, with_finalised, with_flushed, with_rows};
ghost use Rattle.write_streams.specs.Stands.{Stands, IsAppend, ReadsKeepBooks};

use outside::Memory;
use std::alloc::Global;
use std::marker::Model;
use table_model::{
    CommitFault, FinalMove, FlushMove, Refusal, StreamErrors, StreamKind, StreamRef, StreamState,
    Streams, append_check, commit_check, finalise_check, flush_check, get_check,
};

/// The type and the times of a write stream.
#[derive(Clone, Copy, Debug, PartialEq, Eq)]
pub struct StreamFacts {
    pub kind: StreamKind,
    /// The moment of its creation, in microseconds since 1970-01-01; none of the default stream.
    pub created: Option<i64>,
    /// The moment at which it was committed.
    pub committed: Option<i64>,
}

/// The write streams of a table: the default stream, and those that were created, numbered from 1 in the order of
/// their creation. Contracts see their states in this order.
#[derive(Drop)]
pub struct StreamBook {
    default_stream: StreamState,
    created: Vec<StreamState>,
}

impl Model for StreamBook {
    ghost use Rattle.std.specs.Prelude.{◌<◌, ◌^◌, length};
    ghost use Rattle.write_streams.specs.Book.{Book};

    ghost Value = { Book };

    ghost view = { λ b. record { default = b.default_stream; created = b.created.items } };

    ghost invariant = { λ b. length b.created.items < 2 ^ 32 };
}

impl Streams for StreamBook {
    ghost use Rattle.write_streams.specs.Book.{find};

    ghost state = { find };

    fn state(&self, stream: StreamRef) -> Option<StreamState> {
        match stream {
            StreamRef::Default => Some(self.default_stream),
            StreamRef::Number(number) => {
                if number == 0 {
                    return None;
                }
                self.created.get(number as usize - 1).copied()
            }
            StreamRef::Other => None,
        }
    }
}

// A stream without a row.
fn unused_state(kind: StreamKind, created: Option<i64>) -> StreamState
    ensures { result ≡ unused kind created }
{
    StreamState {
        kind,
        created,
        committed: None,
        rows: 0,
        flushed: 0,
        finalised: false,
    }
}

impl StreamBook {
    /// The default stream alone. It can't be refused.
    pub fn new(alloc: Global) -> StreamBook
        ensures empty { result ≡ empty_book }
        ensures stands { Stands result [] }
    {
        StreamBook {
            default_stream: unused_state(StreamKind::Committed, None),
            created: Vec::new(alloc),
        }
    }

    /// How many streams were added.
    pub fn count(&self) -> u32
        ensures { result ≡ length self.now.created }
    {
        self.created.len() as u32
    }

    // Writes the state of a stream that is there.
    fn put(&mut self, stream: StreamRef, state: StreamState)
        requires { IsSome (find self.old stream) }
        ensures found { (on : StreamRef) → find self.new on ≡ (if is_one_stream on stream then Some state else find self.old on) }
        ensures count { length self.new.created ≡ length self.old.created }
    {
        match stream {
            StreamRef::Default => self.default_stream = state,
            StreamRef::Number(number) => self.created[number as usize - 1] = state,
            StreamRef::Other => {}
        }
    }
}

impl StreamBook {
    /// Adds a stream, and gives its number. Its moment is in microseconds since 1970-01-01. Want of memory leaves
    /// the book as it was.
    pub fn add(&mut self, _alloc: Global, kind: StreamKind, moment: i64) -> Result<u32, Memory>
        requires { length self.old.created + 1 < 2 ^ 32 }
        ensures added { Added self.old self.new kind moment result }
        ensures stands { OnOk result ((history : History) (entry : Entry) → Stands self.old history → entry.change ≡ change.Create (length self.old.created + 1) kind → entry.moment ≡ moment → Stands self.new (history ++ entry ∷ [])) }
    {
        self.created.push(unused_state(kind, Some(moment)))?;
        Ok(self.created.len() as u32)
    }

    /// Appends rows to a stream that is there, and has fewer than 2^63 rows with them.
    pub fn append(&mut self, stream: &StreamRef, rows: u64)
        requires there { IsSome (find self.old stream.now) }
        requires room { IfSome (find self.old stream.now) (λ state. state.rows + rows < 2 ^ 63) }
        ensures changes { Changes self.old self.new (λ on. is_one_stream on stream.now) (with_rows rows) }
        ensures stands { (history : History) (entry : Entry) → Stands self.old history → IsAppend stream.now rows entry.change → Stands self.new (history ++ entry ∷ []) }
    {
        let Some(state) = self.state(*stream) else {
            unreachable!()
        };
        let rows = state.rows + rows;
        self.put(*stream, StreamState { rows, ..state });
    }

    /// Shows the first `upto` rows of a stream that is there.
    pub fn flush(&mut self, stream: &StreamRef, upto: u64)
        requires { IsSome (find self.old stream.now) }
        ensures changes { Changes self.old self.new (λ on. is_one_stream on stream.now) (with_flushed upto) }
        ensures stands { (history : History) (entry : Entry) → Stands self.old history → entry.change ≡ change.Flush stream.now upto → Stands self.new (history ++ entry ∷ []) }
    {
        let Some(state) = self.state(*stream) else {
            unreachable!()
        };
        let flushed = upto;
        self.put(*stream, StreamState { flushed, ..state });
    }

    /// Lets a stream that is there take no more rows.
    pub fn finalise(&mut self, stream: &StreamRef)
        requires { IsSome (find self.old stream.now) }
        ensures changes { Changes self.old self.new (λ on. is_one_stream on stream.now) with_finalised }
        ensures stands { (history : History) (entry : Entry) → Stands self.old history → entry.change ≡ change.Finalise stream.now → Stands self.new (history ++ entry ∷ []) }
    {
        let Some(state) = self.state(*stream) else {
            unreachable!()
        };
        let finalised = true;
        self.put(*stream, StreamState { finalised, ..state });
    }

    /// Commits streams of which each can be committed, at a moment in microseconds since 1970-01-01.
    pub fn commit(&mut self, streams: &[StreamRef], moment: i64)
        requires { stream_errors (find self.old) streams.now ≡ [] }
        ensures changes { Changes self.old self.new (λ on. list_any (is_one_stream on) streams.now) (with_committed moment) }
        ensures stands { (history : History) (entry : Entry) → Stands self.old history → entry.change ≡ change.Commit streams.now → entry.moment ≡ moment → Stands self.new (history ++ entry ∷ []) }
    {
        for stream in streams {
            if let Some(state) = self.state(*stream) {
                let committed = Some(moment);
                self.put(*stream, StreamState { committed, ..state });
            }
        }
    }
}

impl StreamBook {
    /// The offset at which an append of this many rows stands.
    ///
    /// Refused, in this order: `NoStream`, `NoRows`, `DefaultOffset`, `NegativeOffset`, `AlreadyWritten`, `PastEnd`,
    /// `Finalised`.
    pub fn check_append(
        &self,
        stream: &StreamRef,
        offset: Option<i64>,
        rows: u64,
    ) -> Result<u64, Refusal>
        ensures { result ≡ append_check_of stream.now (find self.now stream.now) offset rows }
    {
        append_check(*stream, self.state(*stream), offset, rows as usize)
    }

    /// How far a flush up to this offset goes, the row there included.
    ///
    /// Refused, in this order: `NoStream`, `WrongKind`, `NoOffset`, `NegativeOffset`, `PastEnd`.
    pub fn check_flush(&self, stream: &StreamRef, offset: Option<i64>) -> Result<FlushMove, Refusal>
        ensures { result ≡ flush_check_of (find self.now stream.now) offset }
    {
        flush_check(self.state(*stream), offset)
    }

    /// With how many rows a stream is finalised, and whether it was before.
    ///
    /// Refused, in this order: `NoStream`, `WrongKind` on the default stream.
    pub fn check_finalise(&self, stream: &StreamRef) -> Result<FinalMove, Refusal>
        ensures { result ≡ finalise_check_of stream.now (find self.now stream.now) }
    {
        finalise_check(*stream, self.state(*stream))
    }

    /// The errors of the streams that can't be committed, in the order of the streams; none where all can be.
    ///
    /// Refused, in this order: `NoStreams`, `Twice`.
    pub fn commit_check(
        &self,
        alloc: Global,
        streams: &[StreamRef],
    ) -> Result<StreamErrors, CommitFault>
        requires { length streams.now < 2 ^ 32 }
        ensures { CommitChecked (find self.now) streams.now result }
    {
        commit_check(alloc, self, streams)
    }

    /// The type and the times of a stream. Refused: `NoStream`.
    pub fn facts(&self, stream: &StreamRef) -> Result<StreamFacts, Refusal>
        ensures { result ≡ facts_check (find self.now stream.now) }
    {
        let state = get_check(self.state(*stream))?;
        Ok(StreamFacts {
            kind: state.kind,
            created: state.created,
            committed: state.committed,
        })
    }
}

/// Read sessions and their splits change no write stream: a book that stands for a history stands for it with such an
/// entry more.
pub fn reads_keep_books()
    ensures { ReadsKeepBooks }
{}

//! The rows that wait until they are visible.

ghost use Rattle.std.specs.Prelude.{◌≡◌, ◌+◌, ◌-◌, ◌<◌, Some, None, [], ◌∷◌, ◌++◌, length, drop, take, OnOk, OnErr, MatchOption};
ghost use Rattle.table_model.specs.declared.streams.StreamRef.TheVariants as refs;
ghost use Rattle.row_groups.specs.Places.{joined};
ghost use Rattle.table_engine.specs.Waiting.{CanWait, waiting_of, with_rows, with_none};

use outside::Memory;
use row_groups::Slice;
use std::alloc::Global;
use std::collections::VecDeque;
use std::marker::Model;
use table_model::StreamRef;

// Adds slices of the first rows, as many as `count` says, behind others. Of the slices at most one is cut.
#[tactic(auto, using(crate::proofs::QueueLemmas::first_whole, crate::proofs::QueueLemmas::first_cut))]
fn share_first(slices: &VecDeque<Slice>, count: u64, moved: &mut Vec<Slice>) -> Result<(), Memory>
    ensures { OnOk result (joined moved.new.items ≡ joined moved.old.items ++ take count (joined slices.now.items)) }
{
    let mut left = count;
    for slice in slices.iter() {
        if left == 0 {
            return Ok(());
        }
        let len = u64::from(slice.len());
        if left < len {
            moved.push(slice.front(left as u32)?)?;
            return Ok(());
        }
        moved.push(slice.share()?)?;
        left -= len;
    }
    Ok(())
}

// Adds the slices behind others.
fn share_all(slices: &VecDeque<Slice>, moved: &mut Vec<Slice>) -> Result<(), Memory>
    ensures { OnOk result (moved.new.items ≡ moved.old.items ++ slices.now.items) }
{
    for slice in slices.iter() {
        moved.push(slice.share()?)?;
    }
    Ok(())
}

// Leaves the rows behind the first ones, as many as `count` says.
#[tactic(auto, using(crate::proofs::QueueLemmas::skip_whole, crate::proofs::QueueLemmas::skip_cut))]
fn skip_first(slices: &mut VecDeque<Slice>, count: u64)
    ensures { joined slices.new.items ≡ drop count (joined slices.old.items) }
{
    let mut left = count;
    while let Some(first) = slices.front_mut() {
        let len = u64::from(first.len());
        if left < len {
            first.skip(left as u32);
            return;
        }
        left -= len;
        slices.pop_front();
    }
}

/// The rows of one stream that wait, in the slices in which they came. Contracts see the list of the rows.
#[derive(Drop)]
struct Queue {
    slices: VecDeque<Slice>,
}

impl Model for Queue {
    ghost use Rattle.std.specs.Prelude.{List};
    ghost use Rattle.column_types.specs.declared.cell.Cell.{Cell};
    ghost use Rattle.row_groups.specs.Places.{joined};

    ghost Value = { List (List Cell) };

    ghost view = { λ q. joined q.slices.items };
}

impl Queue {
    fn new(alloc: Global) -> Queue
        ensures { result ≡ [] }
    {
        Queue {
            slices: VecDeque::new(alloc),
        }
    }

    // Adds rows behind the others. Want of memory leaves the queue as it was.
    fn push(&mut self, slice: Slice) -> Result<(), Memory>
        ensures ok { OnOk result (self.new ≡ self.old ++ slice) }
        ensures err { OnErr result (self.new ≡ self.old) }
    {
        self.slices.push_back(slice)?;
        Ok(())
    }

    fn first(&self, count: u64, moved: &mut Vec<Slice>) -> Result<(), Memory>
        ensures { OnOk result (joined moved.new.items ≡ joined moved.old.items ++ take count self.now) }
    {
        share_first(&self.slices, count, moved)
    }

    fn all(&self, moved: &mut Vec<Slice>) -> Result<(), Memory>
        ensures { OnOk result (joined moved.new.items ≡ joined moved.old.items ++ self.now) }
    {
        share_all(&self.slices, moved)
    }

    fn skip(&mut self, count: u64)
        ensures { self.new ≡ drop count self.old }
    {
        skip_first(&mut self.slices, count);
    }
}

/// The rows that wait, a queue for each created stream in the order of the numbers. Contracts see the lists of the rows.
#[derive(Drop)]
pub(crate) struct Waiting {
    queues: Vec<Queue>,
}

impl Model for Waiting {
    ghost use Rattle.std.specs.Prelude.{List};
    ghost use Rattle.column_types.specs.declared.cell.Cell.{Cell};

    ghost Value = { List (List (List Cell)) };

    ghost view = { λ w. w.queues.items };
}

impl Waiting {
    /// No stream.
    pub(crate) fn new(alloc: Global) -> Waiting
        ensures { result ≡ [] }
    {
        Waiting {
            queues: Vec::new(alloc),
        }
    }

    /// One stream more, for which no row waits. Want of memory leaves the streams as they were.
    pub(crate) fn open(&mut self, alloc: Global) -> Result<(), Memory>
        ensures ok { OnOk result (self.new ≡ self.old ++ [] ∷ []) }
        ensures err { OnErr result (self.new ≡ self.old) }
    {
        self.queues.push(Queue::new(alloc))?;
        Ok(())
    }

    /// Takes the last stream back.
    pub(crate) fn close(&mut self)
        ensures { self.new ≡ take (length self.old - 1) self.old }
    {
        self.queues.pop();
    }

    // The place of a stream's queue.
    fn place(&self, stream: StreamRef) -> Option<usize>
        ensures place { MatchOption result (waiting_of self.now stream ≡ []) (λ place. (stream ≡ refs.Number (place + 1)) × (place < length self.now)) }
        ensures none { CanWait self.now stream → result ≡ None → ⊥ }
        ensures stays { result ≡ None → with_none self.now stream ≡ self.now }
    {
        let StreamRef::Number(number) = stream else {
            return None;
        };
        if number == 0 || self.queues.len() < number as usize {
            return None;
        }
        Some(number as usize - 1)
    }

    /// Lets rows wait for a stream, behind its others. Want of memory leaves them as they were.
    pub(crate) fn add(&mut self, stream: StreamRef, slice: Slice) -> Result<(), Memory>
        requires { CanWait self.old stream }
        ensures ok { OnOk result (self.new ≡ with_rows self.old stream (waiting_of self.old stream ++ slice)) }
        ensures err { OnErr result (self.new ≡ self.old) }
    {
        let Some(place) = self.place(stream) else {
            unreachable!()
        };
        self.queues[place].push(slice)
    }

    /// Adds slices of the first rows that wait for a stream, as many as `count` says, behind others. At most one of the
    /// slices is cut, and no row copied.
    pub(crate) fn first(
        &self,
        stream: StreamRef,
        count: u64,
        moved: &mut Vec<Slice>,
    ) -> Result<(), Memory>
        ensures { OnOk result (joined moved.new.items ≡ joined moved.old.items ++ take count (waiting_of self.now stream)) }
    {
        match self.place(stream) {
            Some(place) => self.queues[place].first(count, moved),
            None => Ok(()),
        }
    }

    /// Adds the slices of all rows that wait for a stream behind others.
    pub(crate) fn all(&self, stream: StreamRef, moved: &mut Vec<Slice>) -> Result<(), Memory>
        ensures { OnOk result (joined moved.new.items ≡ joined moved.old.items ++ waiting_of self.now stream) }
    {
        match self.place(stream) {
            Some(place) => self.queues[place].all(moved),
            None => Ok(()),
        }
    }

    /// Lets the first rows of a stream wait no more, as many as `count` says.
    pub(crate) fn skip(&mut self, stream: StreamRef, count: u64)
        ensures { self.new ≡ with_rows self.old stream (drop count (waiting_of self.old stream)) }
    {
        if let Some(place) = self.place(stream) {
            self.queues[place].skip(count);
        }
    }

    /// Lets no row wait for a stream.
    pub(crate) fn clear(&mut self, alloc: Global, stream: StreamRef)
        ensures { self.new ≡ with_none self.old stream }
    {
        if let Some(place) = self.place(stream) {
            self.queues[place] = Queue::new(alloc);
        }
    }
}

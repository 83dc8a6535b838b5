//! The streams of a connection.

ghost use Rattle.std.specs.Prelude.{◌≡◌, ◌<◌, ◌≤◌, option_map, ◌<ℤ◌, ◌≤ℤ◌, ◌+ℤ◌, ◌-ℤ◌, pos, true, false, None, IsTrue, IsSome, IfSome, is_none, is_some, option_copied, map, find as find_first};
ghost use Rattle.h2_flow.specs.Range.{least, greatest};
ghost use Rattle.h2_streams.specs.Book.{no_streams, find, is_idle, state_in, with_stream, without};
ghost use Rattle.indexmap.specs.IndexMap.{values};
ghost use Rattle.h2_streams.specs.Calls.{Begins, Receives, Grants, Credits, settled, reset_in};
ghost use Rattle.h2_streams.specs.Shifts.{Shifts, AllStayAboveLeast, IsShifted, first_above, is_above, shifted_by};

use crate::refusals::{BeginRefusal, BodyRefusal};
use crate::resets::Resets;
use crate::stream::{Stream, StreamState};
use h2_flow::{Overflow, Window};
use indexmap::IndexMap;
use std::alloc::Global;
use std::marker::Model;

/// How many streams may live at once (SETTINGS_MAX_CONCURRENT_STREAMS, RFC 9113 section 6.5.2).
const MOST: usize = 100;

/// The greatest window, in bytes (RFC 9113 section 6.9.1).
const GREATEST: i64 = 0x7fff_ffff;

/// The least.
const LEAST: i64 = -0x8000_0000;

/// How many bytes may come on a new stream (RFC 9113 section 6.9.2).
const FIRST_WINDOW: i64 = 65_535;

/// The streams of a connection: those that live, in the order of opening, the last id that was begun, and the last
/// 128 ids that the server reset. A stream is found in the same time however many live; closing one moves those
/// that were opened later, fewer than 100.
#[derive(Drop)]
pub struct Streams {
    live: IndexMap<u32, Stream>,
    last: u32,
    resets: Resets,
}

impl Model for Streams {
    ghost use Rattle.h2_streams.specs.Book.{Book};
    ghost use Rattle.h2_streams.specs.Kept.{AreStreams};

    ghost Value = { Book };

    ghost view = { λ s. record { live = s.live.entries; last = s.last; resets = s.resets.ids } };

    ghost invariant = { λ s. AreStreams s.live.entries s.last s.resets.has_room };
}

impl Streams {
    /// No stream was begun. It can't be refused.
    pub fn new(alloc: Global) -> Streams
        ensures { result ≡ no_streams }
    {
        Streams {
            live: IndexMap::new(alloc),
            last: 0,
            resets: Resets::new(),
        }
    }

    /// HEADERS came on an id. They open a stream on which `send` bytes may be sent and 65,535 may come; with `ended`
    /// they end it too.
    ///
    /// Refused, in this order: `NotOdd`, `NotRising`, `TooMany`. Where 100 streams live, the id counts as begun and
    /// is remembered as reset by the server.
    pub fn begin(
        &mut self,
        alloc: Global,
        id: u32,
        send: i64,
        ended: bool,
    ) -> Result<(), BeginRefusal>
        requires low { least ≤ℤ send }
        requires high { send ≤ℤ greatest }
        ensures { Begins self.old id send ended result self.new }
    {
        if id % 2 == 0 {
            return Err(BeginRefusal::NotOdd);
        }
        if id <= self.last {
            return Err(BeginRefusal::NotRising { last: self.last });
        }
        self.resets.make_room(alloc)?;
        if self.live.len() >= MOST {
            self.last = id;
            self.resets.add(id);
            return Err(BeginRefusal::TooMany { live: MOST as u32 });
        }
        let stream = Stream {
            send: Window::new(send),
            receive: Window::new(FIRST_WINDOW),
            ended,
            answered: false,
        };
        self.live.insert(id, stream)?;
        self.last = id;
        Ok(())
    }

    /// The last id that was begun, or 0.
    pub fn last(&self) -> u32
        ensures { result ≡ self.now.last }
    {
        self.last
    }

    /// Whether a stream lives.
    pub fn is_live(&self, id: u32) -> bool
        ensures { result ≡ is_some (find self.now id) }
    {
        self.live.contains_key(&id)
    }

    /// The state of an id.
    pub fn state_of(&self, id: u32) -> StreamState
        ensures { result ≡ state_in self.now id }
    {
        if id % 2 == 0 || self.last < id {
            return StreamState::Idle;
        }
        match self.live.get(&id) {
            Some(stream) => {
                if stream.ended {
                    StreamState::Ended
                } else {
                    StreamState::Live
                }
            }
            None => StreamState::Closed {
                reset_by_server: self.resets.contains(id),
            },
        }
    }

    // The live stream of an id.
    fn stream(&self, id: u32) -> Option<Stream>
        ensures { result ≡ find self.now id }
    {
        self.live.get(&id).copied()
    }

    // Writes a live stream.
    fn put(&mut self, id: u32, stream: Stream)
        requires { IsSome (find self.old id) }
        ensures { self.new ≡ with_stream self.old id stream }
    {
        if let Some(kept) = self.live.get_mut(&id) {
            *kept = stream;
        }
    }

    // Takes out a live stream.
    fn close(&mut self, id: u32)
        requires { IsSome (find self.old id) }
        ensures { self.new ≡ without self.old id }
    {
        self.live.shift_remove(&id);
    }
}

impl Streams {
    /// DATA whose payload counts `counted` bytes came on an id that isn't idle.
    ///
    /// Refused: `Closed` exactly where the stream isn't live or the client has ended it; `Overrun` exactly where its
    /// receive window has fewer bytes. The streams are then as they were.
    pub fn body(&mut self, id: u32, counted: u32) -> Result<(), BodyRefusal>
        requires { is_idle self.old id ≡ false }
        ensures { Receives self.old id counted (find self.old id) result self.new }
    {
        let Some(mut stream) = self.stream(id) else {
            return Err(BodyRefusal::Closed);
        };
        if stream.ended {
            return Err(BodyRefusal::Closed);
        }
        match stream.receive.receive(counted) {
            Ok(()) => {
                self.put(id, stream);
                Ok(())
            }
            Err(overrun) => Err(BodyRefusal::Overrun {
                had: overrun.had,
                asked: overrun.asked,
            }),
        }
    }

    // Writes a live stream of which a side has ended, or closes it where both have.
    fn settle(&mut self, id: u32, stream: Stream)
        requires { IsSome (find self.old id) }
        ensures { self.new ≡ settled self.old id stream }
    {
        if stream.ended && stream.answered {
            self.close(id);
        } else {
            self.put(id, stream);
        }
    }

    /// The client has ended a live stream. It is closed where its answer was written already.
    pub fn end(&mut self, id: u32)
        requires { IsSome (find self.old id) }
        ensures { IfSome (find self.old id) (λ stream. self.new ≡ settled self.old id (record stream { ended = true })) }
    {
        if let Some(stream) = self.stream(id) {
            let ended = true;
            self.settle(id, Stream { ended, ..stream });
        }
    }

    /// The answer on a live stream is wholly written. The stream is closed where the client has ended it.
    pub fn answered(&mut self, id: u32)
        requires { IsSome (find self.old id) }
        ensures { IfSome (find self.old id) (λ stream. self.new ≡ settled self.old id (record stream { answered = true })) }
    {
        if let Some(stream) = self.stream(id) {
            let answered = true;
            self.settle(id, Stream { answered, ..stream });
        }
    }

    /// A live stream is reset, and closed so. A reset by the server is remembered.
    pub fn reset(&mut self, id: u32, by_server: bool)
        requires { IsSome (find self.old id) }
        ensures { self.new ≡ reset_in self.old id by_server }
    {
        if by_server {
            self.resets.add(id);
        }
        self.close(id);
    }
}

impl Streams {
    /// How many bytes may be sent on a live stream; a negative number is owed first.
    pub fn send_of(&self, id: u32) -> i64
        requires { IsSome (find self.now id) }
        ensures { IfSome (find self.now id) (λ stream. result ≡ stream.send) }
    {
        match self.stream(id) {
            Some(stream) => stream.send.value(),
            None => unreachable!(),
        }
    }

    /// How many bytes may be sent on a stream, where it lives; its id was begun then.
    pub fn window_of(&self, id: u32) -> Option<i64>
        ensures window { result ≡ option_map (λ stream. stream.send) (find self.now id) }
        ensures some { IsSome result → 0 < id }
        ensures begun { IsSome result → id ≤ self.now.last }
    {
        match self.live.get(&id) {
            Some(stream) => Some(stream.send.value()),
            None => None,
        }
    }

    /// The client lets `add` more bytes be sent on a live stream. Refused: `Overflow` exactly where the sum is above
    /// 2,147,483,647; the window then stays.
    pub fn grant(&mut self, id: u32, add: u32) -> Result<(), Overflow>
        requires { IsSome (find self.old id) }
        ensures { IfSome (find self.old id) (Grants self.old id add result self.new) }
    {
        let Some(mut stream) = self.stream(id) else {
            unreachable!()
        };
        stream.send.grant(add)?;
        self.put(id, stream);
        Ok(())
    }

    /// `n` bytes are sent on a live stream, which its send window has.
    pub fn spend(&mut self, id: u32, n: u32)
        requires live { IsSome (find self.old id) }
        requires within { IfSome (find self.old id) (λ stream. pos n ≤ℤ stream.send) }
        ensures { IfSome (find self.old id) (λ stream. self.new ≡ with_stream self.old id (record stream { send = stream.send -ℤ pos n })) }
    {
        if let Some(mut stream) = self.stream(id) {
            stream.send.spend(n);
            self.put(id, stream);
        }
    }

    /// The server lets `n` more bytes come on a live stream. Refused: `Overflow` exactly where the sum is above
    /// 2,147,483,647; the window then stays.
    pub fn credit(&mut self, id: u32, n: u32) -> Result<(), Overflow>
        requires { IsSome (find self.old id) }
        ensures { IfSome (find self.old id) (Credits self.old id n result self.new) }
    {
        let Some(mut stream) = self.stream(id) else {
            unreachable!()
        };
        stream.receive.credit(n)?;
        self.put(id, stream);
        Ok(())
    }
}

// Whether the send window would be above the greatest.
fn is_above(stream: &Stream, by: i64) -> bool
    ensures { result ≡ is_above by stream.now }
{
    match stream.send.value().checked_add(by) {
        Some(sum) => sum > GREATEST,
        None => by > 0,
    }
}

// The first stream whose send window would be.
fn first_above(live: &IndexMap<u32, Stream>, by: i64) -> Option<&Stream>
    ensures first { option_copied result ≡ find_first (is_above by) (values live.now) }
    ensures above { IfSome result (λ stream. greatest <ℤ (stream.now.send +ℤ by)) }
{
    live.values().find(|stream| is_above(stream, by))
}

// The window with the change added, where the sum is a window.
fn shifted_within(window: Window, by: i64) -> Window
    ensures { least ≤ℤ (window +ℤ by) → (window +ℤ by) ≤ℤ greatest → result ≡ window +ℤ by }
{
    match window.value().checked_add(by) {
        Some(sum) => {
            if LEAST <= sum && sum <= GREATEST {
                Window::new(sum)
            } else {
                window
            }
        }
        None => window,
    }
}

// Shifts all send windows.
fn shift_live(live: &mut IndexMap<u32, Stream>, by: i64)
    requires low { AllStayAboveLeast by live.old.entries }
    requires high { find_first (is_above by) (values live.old) ≡ None }
    ensures { live.new.entries ≡ map (shifted_by by) live.old.entries }
{
    live.retain(
        |_id: &u32, stream: &mut Stream| -> bool
            ensures { (result ≡ true) × IsShifted by stream.old stream.new }
        {
            stream.send = shifted_within(stream.send, by);
            true
        },
    );
}

impl Streams {
    /// Whether a change of the initial size, by `by` bytes, leaves all send windows at most 2,147,483,647. It takes
    /// time for each live stream.
    pub fn can_shift(&self, by: i64) -> bool
        ensures { result ≡ is_none (first_above self.now by) }
    {
        first_above(&self.live, by).is_none()
    }

    /// SETTINGS change the initial size, by `by` bytes, of all send windows (RFC 9113 section 6.9.2); none may fall
    /// below -2,147,483,648. Refused: `Overflow` exactly where one would pass 2,147,483,647, with the sum of the
    /// first such in the order of opening; all windows then stay. It takes time for each live stream.
    pub fn shift_all(&mut self, by: i64) -> Result<(), Overflow>
        requires low { (pos 0 -ℤ greatest) ≤ℤ by }
        requires high { by ≤ℤ greatest }
        requires sums { AllStayAboveLeast by self.old.live }
        ensures { Shifts self.old by (first_above self.old by) result self.new }
    {
        if let Some(stream) = first_above(&self.live, by) {
            let mut window = stream.send;
            return match window.shift(by) {
                Err(overflow) => Err(overflow),
                Ok(()) => unreachable!(),
            };
        }
        shift_live(&mut self.live, by);
        Ok(())
    }
}

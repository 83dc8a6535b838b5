//! The connection.

ghost use Rattle.std.specs.Prelude.{◌≡◌, ℕ, [], IfOk};
ghost use Rattle.h2_conn.specs.Held.{Held};
ghost use Rattle.h2_conn.specs.Stands.{Stands};

use crate::kept_credit::KeptCredit;
use h2_answers::Answers;
use h2_flow::Window;
use h2_frames::H2Fault;
use h2_record::limits::FIRST_WINDOW;
use h2_record::{Control, OpenBlock, OwedCredit};
use h2_streams::Streams;
use hpack_blocks::Decoder;
use outside::Memory;
use std::alloc::Global;
use std::collections::VecDeque;
use std::marker::Model;

/// What the connection's send window has at first, in bytes (RFC 9113 section 6.9.2).
const FIRST_SEND: i64 = 65_535;

/// One connection, as its server sees it.
#[derive(Drop)]
pub struct Conn {
    /// The connection error that was met; behind it no frame is taken, and only control frames go.
    pub(crate) fault: Option<H2Fault>,
    /// Memory was refused while a frame was taken or produced; every further call of both is answered so.
    pub(crate) is_lost: bool,
    /// A frame was taken, so that the next need not be SETTINGS.
    pub(crate) has_begun: bool,
    /// What may still be sent on the connection, in bytes.
    pub(crate) window: Window,
    /// What a new stream may send at first, in bytes, by the client's SETTINGS.
    pub(crate) initial: u32,
    /// The live streams with their windows, the last id that was begun, and the last 128 resets.
    pub(crate) streams: Streams,
    /// The header block whose END_HEADERS hasn't come.
    pub(crate) block: Option<OpenBlock>,
    /// The client's table of HPACK.
    pub(crate) decoder: Decoder,
    /// The control frames that wait, in their order.
    pub(crate) control: VecDeque<Control>,
    /// The credit of the latest frame, which is given or kept when the next one comes or goes.
    pub(crate) owed: Option<OwedCredit>,
    /// The credit that is kept while 64 replies of a stream wait, by stream.
    pub(crate) kept: KeptCredit,
    /// The frames that ask for nothing since the latest that made a request whole.
    pub(crate) flood: u32,
    /// A header block went, so that the next has no table size update.
    pub(crate) has_headed: bool,
    /// What waits on each stream: HEADERS, replies, trailers and resets.
    pub(crate) answers: Answers,
    /// Bytes that were produced and aren't counted as written.
    pub(crate) unwritten: u64,
}

impl Model for Conn {
    ghost use Rattle.h2_conn.specs.Held.{Held};
    ghost use Rattle.h2_conn.specs.Within.{IsWithin};

    ghost Value = { Held };

    ghost view = { λ c. record { fault = c.fault; is_lost = c.is_lost; has_begun = c.has_begun; window = c.window; initial = c.initial; streams = c.streams; block = c.block; decoder = c.decoder; control = c.control.items; owed = c.owed; kept = c.kept; flood = c.flood; has_headed = c.has_headed; answers = c.answers; unwritten = c.unwritten } };

    ghost invariant = { λ c. IsWithin c.initial c.streams c.control.items c.block c.owed c.flood };
}

impl Conn {
    /// A connection on which nothing happened. The server's SETTINGS wait.
    pub fn new(alloc: Global) -> Result<Conn, Memory>
        ensures stands { IfOk result (λ conn. Stands conn []) }
        ensures written { IfOk result (λ conn. conn.unwritten ≡ 0) }
    {
        let mut control = VecDeque::new(alloc);
        control.push_back(Control::Settings)?;
        Ok(Conn {
            fault: None,
            is_lost: false,
            has_begun: false,
            window: Window::new(FIRST_SEND),
            initial: FIRST_WINDOW,
            streams: Streams::new(alloc),
            block: None,
            decoder: Decoder::new(alloc)?,
            control,
            owed: None,
            kept: KeptCredit::new(alloc),
            flood: 0,
            has_headed: false,
            answers: Answers::new(alloc),
            unwritten: 0,
        })
    }
}

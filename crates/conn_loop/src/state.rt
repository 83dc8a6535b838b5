//! What the loop of a connection keeps.

ghost use Rattle.std.specs.Prelude.{◌≡◌, ℕ, [], false, None, IfOk};
ghost use Rattle.h2_frames.specs.Run.{nothing_held};
ghost use Rattle.h2_conn.specs.Stands.{Stands};
ghost use Rattle.conn_calls.specs.Calls.{kept_in};
ghost use Rattle.conn_calls.specs.Dealing.{body_in};

use crate::hearing::PieceBuffer;
use conn_calls::{Calls, Dealing};
use h2_conn::Conn;
use h2_frames::FrameReader;
use outside::Memory;
use rows_body::Hand;
use std::alloc::Global;

/// What the loop of a connection keeps from one round to the next.
#[derive(Drop)]
pub(crate) struct State<'t> {
    /// The connection, which holds what is to be written, and what is left of answers.
    pub(crate) conn: Dealing<'t>,
    /// Who polls what is left of answers.
    pub(crate) hand: Hand,
    /// The reader of the client's frames, which holds what isn't whole.
    pub(crate) reader: FrameReader,
    /// The calls that go on.
    pub(crate) calls: Calls,
    /// Where bytes are read to.
    pub(crate) input: PieceBuffer,
    /// Where frames are written before they are sent.
    pub(crate) output: Vec<u8>,
    /// All that is due was written since the latest frame came, but for what windows hold up.
    pub(crate) is_quiet: bool,
}

impl<'t> State<'t> {
    /// That of a connection on which nothing happened.
    pub(crate) fn new(alloc: Global) -> Result<State<'t>, Memory>
        ensures stands { IfOk result (λ state. Stands state.conn.conn []) }
        ensures empty { IfOk result (λ state. (id : ℕ) → body_in state.conn.bodies id ≡ None) }
        ensures reader { IfOk result (λ state. state.reader ≡ nothing_held) }
        ensures calls { IfOk result (λ state. (id : ℕ) → kept_in state.calls id ≡ None) }
        ensures quiet { IfOk result (λ state. state.is_quiet ≡ false) }
    {
        Ok(State {
            conn: Dealing::new(alloc, Conn::new(alloc)?),
            hand: Hand::new(alloc)?,
            reader: FrameReader::new(alloc),
            calls: Calls::new(alloc),
            input: PieceBuffer::new(alloc)?,
            output: Vec::new(alloc),
            is_quiet: false,
        })
    }
}

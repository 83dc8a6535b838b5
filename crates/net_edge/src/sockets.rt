//! A stream that doesn't wait, with what was read ahead and what waits to be written.

ghost use Rattle.std.specs.Prelude.{◌≡◌, ◌<◌, [], false, None, length, IfOk};
ghost use Rattle.links.specs.Link.{Reads, Writes};
ghost use Rattle.net_edge.specs.Tcp.{EndsWith, Gathers};

use super::gathered::Gathered;
use links::{LinkRead, LinkWrite};
use mio::net::TcpStream;
use mio::{Events, Interest, Poll, Token};
use std::alloc::Global;
use std::io::{self, BufReader, ErrorKind, Read, Write};
use std::net::{self, Net, Shutdown};

// How many bytes are read ahead at most.
const AHEAD: usize = 65_536;

// How many unread bytes are thrown away where a connection ends.
const UNREAD: usize = 16_384;

// The parts of a link that is open. The system reports a stream's readiness where it comes anew. So
// `may_read` and `may_write` fall where a call would have waited, and rise with a report.
#[derive(Drop)]
pub(crate) struct Socket {
    reader: BufReader<TcpStream>,
    gathered: Gathered,
    poll: Poll,
    events: Events,
    may_read: bool,
    may_write: bool,
}

impl Socket {
    pub(crate) fn new<N: Net>(net: &N, alloc: Global, stream: net::TcpStream) -> io::Result<Socket>
        ensures { IfOk result (λ s. s.gathered ≡ []) }
    {
        stream.set_nonblocking(true)?;
        stream.set_nodelay(true)?;
        let mut stream = TcpStream::from_std(stream);
        let poll = Poll::new(net)?;
        poll.registry().register(
            &mut stream,
            Token(0),
            Interest::READABLE | Interest::WRITABLE,
        )?;
        Ok(Socket {
            reader: BufReader::with_capacity(alloc, AHEAD, stream)?,
            gathered: Gathered::new(alloc)?,
            poll,
            events: Events::with_capacity(alloc, 1)?,
            may_read: true,
            may_write: true,
        })
    }

    // Writes of what was gathered as much as the stream takes. False at a fault.
    #[tactic(auto, using(crate::proofs::Ends::ends_drop, crate::proofs::Ends::ends_self))]
    fn flush(&mut self) -> bool
        ensures kept { EndsWith self.old.gathered self.new.gathered }
    {
        if self.gathered.is_empty() {
            return true;
        }
        let mut stream = self.reader.get_ref();
        match stream.write(self.gathered.rest()) {
            Ok(n) if n > 0 => {
                self.gathered.wrote(n);
                self.may_write = true;
                true
            }
            Err(fault) if fault.kind() == ErrorKind::WouldBlock => {
                self.may_write = false;
                true
            }
            Ok(_) | Err(_) => false,
        }
    }

    // What was gathered is written before the stream is asked.
    #[tactic(auto, using(crate::proofs::Ends::ends_self))]
    pub(crate) fn read(&mut self, into: &mut [u8]) -> LinkRead
        requires { 0 < length into.old }
        ensures reads { Reads result into.new None None None None }
        ensures kept { EndsWith self.old.gathered self.new.gathered }
    {
        if self.reader.buffer().is_empty() && !self.flush() {
            return LinkRead::Failed;
        }
        match self.reader.read(into) {
            Ok(0) => LinkRead::End,
            Ok(n) => LinkRead::Got(n),
            Err(fault) if fault.kind() == ErrorKind::WouldBlock => {
                self.may_read = false;
                LinkRead::NotReady
            }
            Err(_) => LinkRead::Failed,
        }
    }

    // Gathers bytes of `from`, which are passed on at once where that is wanted.
    #[tactic(auto, using(crate::proofs::Ends::ends_append))]
    pub(crate) fn write(&mut self, from: &[u8], at_once: bool) -> LinkWrite
        requires { 0 < length from.now }
        ensures writes { Writes result from.now None None }
        ensures gathers { at_once ≡ false → Gathers result from.now self.new.gathered }
    {
        if self.gathered.is_full() && !self.flush() {
            return LinkWrite::Failed;
        }
        if self.gathered.is_full() {
            return LinkWrite::NotReady;
        }
        let n = self.gathered.take_in(from);
        if n == 0 {
            return LinkWrite::Failed;
        }
        if !at_once || self.flush() {
            return LinkWrite::Took(n);
        }
        LinkWrite::Failed
    }

    // Whether there is something to do at once.
    fn is_ready(&self, want_write: bool) -> bool {
        if want_write {
            return self.may_write;
        }
        let may_flush = self.may_write && !self.gathered.is_empty();
        self.may_read || may_flush || !self.reader.buffer().is_empty()
    }

    // Waits until the stream is ready. False at a fault.
    pub(crate) fn wait(&mut self, want_write: bool) -> bool
        ensures kept { EndsWith self.old.gathered self.new.gathered }
    {
        if !self.flush() {
            return false;
        }
        if self.is_ready(want_write) {
            return true;
        }
        if self.poll.poll(&mut self.events, None).is_err() {
            return false;
        }
        let reads = self.events.iter().any(|event| {
            event.is_readable() || event.is_read_closed() || event.is_error()
        });
        let writes = self.events.iter().any(|event| {
            event.is_writable() || event.is_write_closed() || event.is_error()
        });
        self.may_read = self.may_read || reads;
        self.may_write = self.may_write || writes;
        true
    }

    // Writes what was gathered, and tells the peer that nothing follows.
    pub(crate) fn end(self) -> io::Result<()> {
        let Socket {
            reader,
            gathered,
            poll: _,
            events: _,
            may_read: _,
            may_write: _,
        } = self;
        let mut stream = net::TcpStream::from(reader.into_inner());
        stream.set_nonblocking(false)?;
        stream.write_all(gathered.rest())?;
        stream.shutdown(Shutdown::Write)?;
        // Unread bytes would make the system drop what the peer hasn't taken.
        stream.set_nonblocking(true)?;
        stream.read(&mut [0u8; UNREAD])?;
        Ok(())
    }
}

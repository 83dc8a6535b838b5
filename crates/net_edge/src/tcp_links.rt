//! A link over TCP.

ghost use Rattle.std.specs.Prelude.{◌≡◌, ◌<◌, [], true, false, None, is_none, length, IfOk};
ghost use Rattle.links.specs.Link.{Reads, is_end, ReadCause, Writes, WriteCause, is_blocked, Waits};
ghost use Rattle.net_edge.specs.Tcp.{gathered, EndsWith, Gathers};

use super::sockets::Socket;
use links::{Link, LinkFailed, LinkRead, LinkWrite};
use std::alloc::Global;
use std::io;
use std::net::{Net, TcpStream};

/// A link over TCP, with TCP_NODELAY set.
///
/// It reads up to 65,536 bytes ahead, and gathers as many before it writes them. What it gathered is
/// written before it reads from the stream, at `wait` and at `close`; behind the end of the input
/// each write is passed on at once. Where the stream takes only a part the rest is kept, and written
/// by a later call. A read of no byte is the end; each error, and a write of no byte, is a fault.
/// A wait for writing ends with input that comes anew too, but not for input that was there before.
/// `close` waits until the stream has taken all, and frees the connection; a fault is met by no call
/// there. It tells no bytes.
#[derive(Drop)]
pub struct TcpLink {
    socket: Option<Socket>,
    ended: bool,
    blocked: bool,
    count: u64,
}

impl TcpLink {
    /// The link of a connected stream. An error comes where the system refuses an option or has no
    /// descriptor left, or for want of memory.
    pub fn new<N: Net>(net: &N, alloc: Global, stream: TcpStream) -> io::Result<TcpLink>
        ensures open { IfOk result (λ l. is_none l.socket ≡ false) }
        ensures gathered { IfOk result (λ l. gathered l ≡ []) }
        ensures ended { IfOk result (λ l. l.ended ≡ false) }
        ensures no_fault { IfOk result (λ l. l.count ≡ 0) }
    {
        Ok(TcpLink {
            socket: Some(Socket::new(net, alloc, stream)?),
            ended: false,
            blocked: false,
            count: 0,
        })
    }
}

impl Link for TcpLink {
    ghost use Rattle.std.specs.Prelude.{None, is_none};

    ghost log = { λ _. None };

    ghost left = { λ _. None };

    ghost ended = { λ l. l.ended };

    ghost closed = { λ l. is_none l.socket };

    ghost blocked = { λ l. l.blocked };

    ghost faults = { λ l. l.count };

    #[tactic(auto, using(crate::proofs::Ends::ends_self))]
    fn read(&mut self, into: &mut [u8]) -> LinkRead
        requires some { 0 < length into.old }
        requires open { is_none self.old.socket ≡ false }
        ensures reads { Reads result into.new None None None None }
        ensures ended { self.new.ended ≡ is_end result }
        ensures stays_ended { self.old.ended ≡ true → result ≡ LinkRead.End }
        ensures open { is_none self.new.socket ≡ false }
        ensures ready { self.new.blocked ≡ false }
        ensures cause { ReadCause self.old.count self.new.count result }
        ensures kept { EndsWith (gathered self.old) (gathered self.new) }
    {
        self.blocked = false;
        if self.ended {
            return LinkRead::End;
        }
        let Some(socket) = &mut self.socket else {
            unreachable!()
        };
        let answer = socket.read(into);
        match answer {
            LinkRead::End => self.ended = true,
            LinkRead::Failed => self.count = self.count.saturating_add(1),
            LinkRead::Got(_) | LinkRead::NotReady => {}
        }
        answer
    }

    fn write(&mut self, from: &[u8]) -> LinkWrite
        requires some { 0 < length from.now }
        requires open { is_none self.old.socket ≡ false }
        ensures writes { Writes result from.now None None }
        ensures ended { self.new.ended ≡ self.old.ended }
        ensures open { is_none self.new.socket ≡ false }
        ensures blocked { self.new.blocked ≡ is_blocked result }
        ensures cause { WriteCause self.old.count self.new.count result }
        ensures gathers { self.old.ended ≡ false → Gathers result from.now (gathered self.new) }
    {
        let Some(socket) = &mut self.socket else {
            unreachable!()
        };
        let answer = socket.write(from, self.ended);
        self.blocked = answer == LinkWrite::NotReady;
        if answer == LinkWrite::Failed {
            self.count = self.count.saturating_add(1);
        }
        answer
    }

    fn wait(&mut self, want_write: bool) -> Result<(), LinkFailed>
        requires { is_none self.old.socket ≡ false }
        ensures waits { Waits result self.old.blocked None None self.old.count self.new.count }
        ensures ended { self.new.ended ≡ self.old.ended }
        ensures open { is_none self.new.socket ≡ false }
        ensures ready { self.new.blocked ≡ false }
        ensures kept { EndsWith (gathered self.old) (gathered self.new) }
    {
        self.blocked = false;
        let Some(socket) = &mut self.socket else {
            unreachable!()
        };
        if !socket.wait(want_write) {
            self.count = self.count.saturating_add(1);
            return Err(LinkFailed);
        }
        Ok(())
    }

    fn close(&mut self) {
        self.blocked = false;
        if let Some(socket) = self.socket.take() {
            let _ = socket.end();
        }
    }
}

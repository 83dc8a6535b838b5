//! A door over TCP.

ghost use Rattle.std.specs.Prelude.{◌≡◌, false, is_none, IfOk};

use super::tcp_links::TcpLink;
use doors::{Accepted, Door, DoorFailed};
use std::alloc::Global;
use std::io::{self, Eprint, ErrorKind};
use std::net::{Net, SocketAddr, TcpListener, TcpStream};
use std::sync::Wait;

/// A door over TCP, which gives each connection as a [`TcpLink`] and never closes.
///
/// Each error is a fault, among them a descriptor or memory that the system refuses for a new
/// connection. A connection that its peer gave up before it was accepted is passed over. It tells no
/// links; one that is handed back is dropped.
#[derive(Drop)]
pub struct TcpDoor<R> {
    host: R,
    alloc: Global,
    listener: Option<TcpListener>,
    out: u64,
    count: u64,
}

// Whether the next connection may be asked for all the same: the peer gave this one up before it was
// accepted, or a signal came.
fn is_passing(kind: ErrorKind) -> bool {
    matches!(kind, ErrorKind::ConnectionAborted | ErrorKind::Interrupted)
}

impl<R: Net<Listener = TcpListener, Stream = TcpStream> + Wait + Eprint + Drop> TcpDoor<R> {
    /// A door that doesn't listen yet. `host` is the machine, as `&rt`.
    pub fn new(host: R, alloc: Global) -> TcpDoor<R>
        ensures out { result.out ≡ 0 }
        ensures no_fault { result.count ≡ 0 }
    {
        TcpDoor {
            host,
            alloc,
            listener: None,
            out: 0,
            count: 0,
        }
    }

    /// The address at which it listens, with the port that was given where 0 was asked for. None where
    /// it doesn't listen, or the system doesn't tell.
    pub fn address(&self) -> Option<SocketAddr> {
        match &self.listener {
            Some(listener) => listener.local_addr().ok(),
            None => None,
        }
    }

    // Listens, and says so on standard error where that takes it.
    fn bind(&self, addr: &str) -> io::Result<TcpListener> {
        let listener = TcpListener::bind(&self.host, addr)?;
        let at = listener.local_addr()?;
        let _ = eprintln!(&self.host; "bqstored: listening on {at}");
        Ok(listener)
    }

    // The link of the next connection.
    fn accept(&self) -> io::Result<TcpLink>
        ensures { IfOk result (λ l. is_none l.socket ≡ false) }
    {
        let Some(listener) = &self.listener else {
            return Err(io::Error::from(ErrorKind::NotConnected));
        };
        for _ in self.host.forever() {
            match listener.accept() {
                Ok((stream, _)) => return TcpLink::new(&self.host, self.alloc, stream),
                Err(fault) if is_passing(fault.kind()) => {}
                Err(fault) => return Err(fault),
            }
        }
        unreachable!()
    }
}

impl<R: Net<Listener = TcpListener, Stream = TcpStream> + Wait + Eprint + Drop> Door<TcpLink>
    for TcpDoor<R> {
    ghost use Rattle.std.specs.Prelude.{None, false};

    ghost left = { λ _. None };

    ghost handed = { λ _. None };

    ghost out = { λ d. d.out };

    ghost shut = { λ _. false };

    ghost faults = { λ d. d.count };

    fn listen(&mut self, addr: &str) -> Result<(), DoorFailed> {
        match self.bind(addr) {
            Ok(listener) => {
                self.listener = Some(listener);
                Ok(())
            }
            Err(_) => {
                self.count = self.count.saturating_add(1);
                Err(DoorFailed)
            }
        }
    }

    fn next(&mut self) -> Accepted<TcpLink> {
        if let Some(out) = self.out.checked_add(1)
            && let Ok(link) = self.accept()
        {
            self.out = out;
            return Accepted::Conn(link);
        }
        self.count = self.count.saturating_add(1);
        Accepted::Failed
    }

    fn back(&mut self, _link: TcpLink) {
        self.out -= 1;
    }
}

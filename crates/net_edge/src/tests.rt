ghost use Rattle.std.specs.Prelude.{◌≡◌, ◌<◌, false, is_none, length};

use crate::{TcpDoor, TcpLink};
use doors::{Accepted, Door};
use links::{Link, LinkRead, LinkWrite};
use std::io::{self, Read, Write};
use std::net::{Shutdown, TcpStream};
use std::sync::Wait;
use std::test::Fail;

// More than the system keeps for two sockets.
const MANY: usize = 16_777_216;

// Reads until something comes. A fault where it didn't come.
fn hear<R: Wait>(rt: &R, link: &mut TcpLink, into: &mut [u8]) -> LinkRead
    requires some { 0 < length into.old }
    requires open { is_none link.old.socket ≡ false }
    ensures open { is_none link.new.socket ≡ false }
{
    for _ in rt.forever() {
        let answer = link.read(into);
        if answer != LinkRead::NotReady || link.wait(false).is_err() {
            return answer;
        }
    }
    unreachable!()
}

// Writes many bytes, of which the peer reads some where the link isn't ready. Gives how many were
// written, and how many read.
fn pour(link: &mut TcpLink, peer: &mut TcpStream) -> io::Result<(usize, usize)>
    requires open { is_none link.old.socket ≡ false }
    ensures open { is_none link.new.socket ≡ false }
{
    let (mut sent, mut received, mut room) = (0usize, 0usize, [0u8; 50_000]);
    for _ in 0..100_000u32 {
        if sent >= MANY {
            break;
        }
        match link.write(&[7u8; 10_000]) {
            LinkWrite::Took(n) => sent = sent.saturating_add(n),
            LinkWrite::NotReady => received = received.saturating_add(peer.read(&mut room)?),
            LinkWrite::Failed => break,
        }
    }
    Ok((sent, received))
}

// Reads all but what the link may hold back. Gives how many bytes were read in all.
fn catch_up(peer: &mut TcpStream, sent: usize, before: usize) -> io::Result<usize> {
    let (mut received, mut room) = (before, [0u8; 50_000]);
    for _ in 0..100_000u32 {
        if received.saturating_add(65_536) >= sent {
            break;
        }
        received = received.saturating_add(peer.read(&mut room)?);
    }
    Ok(received)
}

#[test]
fn a_link_and_its_peer_hear_each_other(rt: HostRuntime) -> Result<(), Fail> {
    let mut door = TcpDoor::new(&rt, rt.alloc());
    assert!(rt; door.listen("127.0.0.1:0").is_ok());
    let Some(address) = door.address() else {
        panic!(rt; "no address");
    };
    let mut peer = TcpStream::connect(&rt, address)?;
    let Accepted::Conn(mut link) = door.next() else {
        panic!(rt; "no connection");
    };
    let (mut heard, mut told) = ([0u8; 3], [0u8; 6]);
    assert_eq!(rt; link.read(&mut heard), LinkRead::NotReady);
    peer.write_all(b"ask")?;
    assert_eq!(rt; hear(&rt, &mut link, &mut heard), LinkRead::Got(3));
    assert_eq!(rt; &heard, b"ask");
    assert_eq!(rt; link.write(b"answer"), LinkWrite::Took(6));
    assert_eq!(rt; link.read(&mut heard), LinkRead::NotReady);
    peer.read_exact(&mut told)?;
    assert_eq!(rt; &told, b"answer");
    let (sent, before) = pour(&mut link, &mut peer)?;
    assert!(rt; sent >= MANY && before > 0);
    let received = catch_up(&mut peer, sent, before)?;
    assert!(rt; link.wait(true).is_ok());
    peer.shutdown(Shutdown::Write)?;
    assert_eq!(rt; hear(&rt, &mut link, &mut heard), LinkRead::End);
    assert_eq!(rt; link.write(b"bye"), LinkWrite::Took(3));
    link.close();
    door.back(link);
    let rest = io::read_to_string(rt.alloc(), peer)?;
    assert_eq!(rt; received.saturating_add(rest.len()), sent.saturating_add(3));
    assert!(rt; rest.as_str().ends_with("bye"));
    Ok(())
}

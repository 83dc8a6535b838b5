//! The door is asked for links, which go to the workers.

ghost use Rattle.std.specs.Prelude.{◌≡◌, ◌<◌, true};
ghost use Rattle.job_queue.specs.Hands.{IsOf, known};
ghost use Rattle.server.specs.Links.{AsksCause};
ghost use Rattle.server.specs.Asks.{AsksAll};

use crate::ServeFault;
use crate::workers::{Job, job_of};
use doors::{Accepted, Door};
use job_queue::{Hand, Queue};
use links::Link;
use std::sync::Wait;

/// Puts the links that the door gives into the queue, so many at most. They are numbered from 0.
fn put_links<R: Wait, L: Link, D: Door<L>>(
    rt: &R,
    connections: u32,
    queue: &Queue<Job<L>>,
    hand: &mut Hand<Job<L>>,
    door: &mut D,
) -> Result<(), ServeFault>
    requires hand { IsOf queue.now hand.old }
    requires parts { 0 < (known hand.old).parts }
    requires puts { (known hand.old).puts ≡ true }
    ensures hand { IsOf queue.now hand.new }
    ensures parts { (known hand.new).parts ≡ (known hand.old).parts }
    ensures puts { (known hand.new).puts ≡ true }
    ensures taken { (known hand.new).taken ≡ (known hand.old).taken }
    ensures asks { AsksAll (λ job. job.link)
        (record { left = D.left door.old; handed = D.handed door.old; out = D.out door.old })
        (record { left = D.left door.new; handed = D.handed door.new; out = D.out door.new })
        (known hand.old).put (known hand.new).put connections result }
    ensures cause { AsksCause (D.faults door.old) (D.faults door.new) result }
{
    for number in 0..connections {
        match door.next() {
            Accepted::Conn(link) => queue.put(rt, hand, job_of(link, number)),
            Accepted::Closed => return Ok(()),
            Accepted::Failed => return Err(ServeFault::Outside),
        }
    }
    Ok(())
}

/// Puts the links that the door gives into the queue, so many at most, and closes the queue.
pub(crate) fn ask<R: Wait, L: Link, D: Door<L>>(
    rt: &R,
    connections: u32,
    queue: &Queue<Job<L>>,
    hand: &mut Hand<Job<L>>,
    door: &mut D,
) -> Result<(), ServeFault>
    requires hand { IsOf queue.now hand.old }
    requires parts { 0 < (known hand.old).parts }
    requires puts { (known hand.old).puts ≡ true }
    ensures hand { IsOf queue.now hand.new }
    ensures parts { (known hand.new).parts ≡ (known hand.old).parts }
    ensures puts { (known hand.new).puts ≡ true }
    ensures taken { (known hand.new).taken ≡ (known hand.old).taken }
    ensures asks { AsksAll (λ job. job.link)
        (record { left = D.left door.old; handed = D.handed door.old; out = D.out door.old })
        (record { left = D.left door.new; handed = D.handed door.new; out = D.out door.new })
        (known hand.old).put (known hand.new).put connections result }
    ensures cause { AsksCause (D.faults door.old) (D.faults door.new) result }
{
    let asked = put_links(rt, connections, queue, hand, door);
    queue.close(rt);
    asked
}

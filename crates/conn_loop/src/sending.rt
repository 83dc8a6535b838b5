//! Writing a buffer to a link that isn't always ready.

ghost use Rattle.std.specs.Prelude.{◌≡◌, false, OnOk};
ghost use Rattle.conn_loop.specs.Settling.{Sends};

use links::{Link, LinkFailed, Written, write_all};
use std::sync::Wait;

// Writes all of `bytes`, and waits where the link isn't ready to take more. The log tells of no such wait.
pub(crate) fn send<R: Wait, L: Link>(rt: &R, link: &mut L, bytes: &[u8]) -> Result<(), LinkFailed>
    requires open { L.closed link.old ≡ false }
    ensures sends { Sends result bytes.now (L.log link.old) (L.log link.new) (L.faults link.old) (L.faults link.new) }
    ensures left { L.left link.new ≡ L.left link.old }
    ensures ended { L.ended link.new ≡ L.ended link.old }
    ensures open { L.closed link.new ≡ false }
{
    if bytes.is_empty() {
        return Ok(());
    }
    let mut taken = 0;
    for _ in rt.forever() {
        match write_all(link, &bytes[taken..]) {
            Written::Whole => return Ok(()),
            Written::NotReady(n) => {
                taken += n;
                link.wait(true)?;
            }
            Written::Failed(_) => return Err(LinkFailed),
        }
    }
    unreachable!()
}

//! A link over a reader and a writer of std.

ghost use Rattle.std.specs.Prelude.{◌≡◌, ◌≢◌, ◌<◌, [], true, false, None, length, IfOk, OnOk};
ghost use Rattle.std.specs.Io.KnownBytes.{Keeps};
ghost use Rattle.links.specs.Link.{Reads, is_end, ReadCause, Writes, WriteCause, is_blocked, Waits};

use super::link::{Link, LinkFailed, LinkRead, LinkWrite};
use outside::Memory;
use std::alloc::Global;
use std::io::{BufReader, BufWriter, Read, Write};

// How many bytes are read ahead at most, and how many gathered before they are written.
const BUFFER: usize = 65_536;

/// A link over a reader and a writer of std, as standard input and output.
///
/// It reads up to 65,536 bytes ahead, and gathers as many before it writes them. It asks the reader,
/// which may block, only in the first read behind a `wait`: any other read that finds nothing read
/// ahead isn't ready, so that its caller writes all that it has before it waits for more. What was
/// gathered is written where nothing was read ahead, at `wait` and at `close`; behind the end of the
/// input each write is passed on at once, so that a fault is met by that write. It takes each write,
/// and tells no bytes to a generic caller. A read of no byte is the end; each error, and a write of
/// no byte, is a fault. A fault at `close` is met by no call.
#[derive(Drop)]
pub struct StdLink<R: Read + Drop, W: Write + Drop> {
    reader: BufReader<R>,
    writer: BufWriter<W>,
    // whether no read came since the last wait
    waited: bool,
    ended: bool,
    closed: bool,
    count: u64,
}

impl<R: Read + Drop, W: Write + Drop> StdLink<R, W> {
    ghost use Rattle.links.specs.Std.{unread, ahead, taken, gathered};

    /// A link that reads from `reader` and writes to `writer`. It didn't wait and met no fault yet, and
    /// isn't closed.
    pub fn new(alloc: Global, reader: R, writer: W) -> Result<StdLink<R, W>, Memory>
        ensures unread { IfOk result (λ l. Keeps (R.remaining reader) (unread R.remaining l)) }
        ensures ahead { IfOk result (λ l. ahead l ≡ []) }
        ensures taken { IfOk result (λ l. Keeps (W.contents writer) (taken W.contents l)) }
        ensures gathered { IfOk result (λ l. gathered l ≡ []) }
        ensures waited { IfOk result (λ l. l.waited ≡ false) }
        ensures ended { IfOk result (λ l. l.ended ≡ false) }
        ensures open { IfOk result (λ l. l.closed ≡ false) }
        ensures no_fault { IfOk result (λ l. l.count ≡ 0) }
    {
        let Ok(reader) = BufReader::with_capacity(alloc, BUFFER, reader) else {
            return Err(Memory);
        };
        let Ok(writer) = BufWriter::with_capacity(alloc, BUFFER, writer) else {
            return Err(Memory);
        };
        Ok(StdLink {
            reader,
            writer,
            waited: false,
            ended: false,
            closed: false,
            count: 0,
        })
    }

    // Writes what was gathered.
    fn flush(&mut self) -> bool
        ensures all { result ≡ true → gathered self.new ≡ [] }
        ensures taken { Keeps (taken W.contents self.old) (taken W.contents self.new) }
        ensures reader { self.new.reader ≡ self.old.reader }
        ensures waited { self.new.waited ≡ self.old.waited }
        ensures ended { self.new.ended ≡ self.old.ended }
        ensures closed { self.new.closed ≡ self.old.closed }
        ensures count { self.new.count ≡ self.old.count }
    {
        self.writer.flush().is_ok()
    }
}

impl<R: Read + Drop, W: Write + Drop> Link for StdLink<R, W> {
    ghost use Rattle.links.specs.Std.{unread, ahead, taken, gathered, GivesUnread, IsUnready, TakesOffered};

    ghost log = { λ _. None };

    ghost left = { λ _. None };

    ghost ended = { λ l. l.ended };

    ghost closed = { λ l. l.closed };

    ghost blocked = { λ _. false };

    ghost faults = { λ l. l.count };

    fn read(&mut self, into: &mut [u8]) -> LinkRead
        requires some { 0 < length into.old }
        requires open { self.old.closed ≡ false }
        ensures reads { Reads result into.new None None None None }
        ensures ended { self.new.ended ≡ is_end result }
        ensures stays_ended { self.old.ended ≡ true → result ≡ LinkRead.End }
        ensures open { self.new.closed ≡ false }
        ensures cause { ReadCause self.old.count self.new.count result }
        ensures gives { GivesUnread result into.new (unread R.remaining self.old) (unread R.remaining self.new) }
        ensures taken { Keeps (taken W.contents self.old) (taken W.contents self.new) }
        ensures unready { IsUnready result (ahead self.old) self.old.waited self.old.ended }
        ensures once { self.new.waited ≡ false }
        ensures written_first { self.old.ended ≡ false → ahead self.old ≡ [] → result ≢ LinkRead.Failed → gathered self.new ≡ [] }
    {
        let may_block = self.waited;
        self.waited = false;
        if self.ended {
            return LinkRead::End;
        }
        let is_empty = self.reader.buffer().is_empty();
        if is_empty && !self.flush() {
            self.count = self.count.saturating_add(1);
            return LinkRead::Failed;
        }
        if is_empty && !may_block {
            return LinkRead::NotReady;
        }
        match self.reader.read(into) {
            Ok(0) => {
                self.ended = true;
                LinkRead::End
            }
            Ok(n) => LinkRead::Got(n),
            Err(_) => {
                self.count = self.count.saturating_add(1);
                LinkRead::Failed
            }
        }
    }

    fn write(&mut self, from: &[u8]) -> LinkWrite
        requires some { 0 < length from.now }
        requires open { self.old.closed ≡ false }
        ensures writes { Writes result from.now None None }
        ensures ended { self.new.ended ≡ self.old.ended }
        ensures open { self.new.closed ≡ false }
        ensures blocked { false ≡ is_blocked result }
        ensures cause { WriteCause self.old.count self.new.count result }
        ensures takes { TakesOffered result from.now (taken W.contents self.old) (taken W.contents self.new) }
        ensures unread { unread R.remaining self.new ≡ unread R.remaining self.old }
        ensures waited { self.new.waited ≡ self.old.waited }
        ensures at_once { self.old.ended ≡ true → result ≢ LinkWrite.Failed → gathered self.new ≡ [] }
    {
        match self.writer.write(from) {
            Ok(n) if n > 0 && (!self.ended || self.flush()) => LinkWrite::Took(n),
            Ok(_) | Err(_) => {
                self.count = self.count.saturating_add(1);
                LinkWrite::Failed
            }
        }
    }

    fn wait(&mut self, _want_write: bool) -> Result<(), LinkFailed>
        requires { self.old.closed ≡ false }
        ensures waits { Waits result false None None self.old.count self.new.count }
        ensures ended { self.new.ended ≡ self.old.ended }
        ensures open { self.new.closed ≡ false }
        ensures all { OnOk result (gathered self.new ≡ []) }
        ensures waited { OnOk result (self.new.waited ≡ true) }
        ensures taken { Keeps (taken W.contents self.old) (taken W.contents self.new) }
        ensures unread { unread R.remaining self.new ≡ unread R.remaining self.old }
    {
        if !self.flush() {
            self.count = self.count.saturating_add(1);
            return Err(LinkFailed);
        }
        self.waited = true;
        Ok(())
    }

    fn close(&mut self)
        ensures closed { self.new.closed ≡ true }
        ensures ended { self.new.ended ≡ self.old.ended }
        ensures faults { self.new.count ≡ self.old.count }
        ensures taken { Keeps (taken W.contents self.old) (taken W.contents self.new) }
    {
        self.closed = true;
        let _ = self.flush();
    }
}

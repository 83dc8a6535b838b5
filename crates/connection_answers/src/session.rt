//! A connection and the reader of its client's bytes.

use crate::answers;
use crate::events::tell;
use crate::lines::Line;
use crate::spelled::{bytes_of, shown};
use crate::stop::Stop;
use crate::told::Told;
use h2_conn::Conn;
use h2_frames::{FrameReader, Next};
use outside::Memory;
use std::alloc::Global;

/// What a client sends before its frames (RFC 9113 section 3.4).
const PREFACE: &[u8] = b"PRI * HTTP/2.0\r\n\r\nSM\r\n\r\n";

/// A connection that is played.
#[derive(Drop)]
pub(crate) struct Session {
    conn: Conn,
    reader: FrameReader,
}

/// Tells that a line asks for what may not be done.
fn tell_refusal<P: Print>(
    alloc: Global,
    told: &mut Told<'_, P>,
    is_given: bool,
) -> Result<(), Stop> {
    if !is_given {
        told.line(String::from_str(alloc, "not allowed")?)?;
    }
    Ok(())
}

impl Session {
    /// A connection whose preface has come.
    pub(crate) fn begin(alloc: Global) -> Result<Session, Memory> {
        let mut reader = FrameReader::new(alloc);
        reader.feed(alloc, PREFACE)?;
        Ok(Session {
            conn: Conn::new(alloc)?,
            reader,
        })
    }

    /// Takes what the reader has, and says whether it goes on.
    fn take_next<P: Print>(&mut self, alloc: Global, told: &mut Told<'_, P>) -> Result<bool, Stop> {
        match self.reader.next(alloc)? {
            Next::More => Ok(true),
            Next::Frame(frame) => {
                if let Some(event) = self.conn.take(alloc, frame)? {
                    tell(alloc, told, &event)?;
                }
                Ok(true)
            }
            Next::Fault(fault) => {
                self.conn.fault(alloc, fault)?;
                let line = format!(in alloc; "fault code {} rule {}", fault.code, fault.rule)?;
                told.line(line)?;
                Ok(false)
            }
        }
    }

    /// The client's bytes come.
    fn receive<P: Print>(
        &mut self,
        alloc: Global,
        told: &mut Told<'_, P>,
        bytes: &[u8],
    ) -> Result<(), Stop> {
        let mut rest = bytes;
        for _ in 0..bytes.len() {
            if rest.is_empty() {
                return Ok(());
            }
            let (piece, after) = rest.split_at(self.reader.need().min(rest.len()));
            self.reader.feed(alloc, piece)?;
            rest = after;
            if !self.take_next(alloc, told)? {
                return Ok(());
            }
        }
        Ok(())
    }

    /// They come so many times.
    fn receive_times<P: Print>(
        &mut self,
        alloc: Global,
        told: &mut Told<'_, P>,
        times: u32,
        digits: &str,
    ) -> Result<bool, Stop> {
        let Some(bytes) = bytes_of(alloc, digits)? else {
            return Ok(false);
        };
        for _ in 0..times {
            self.receive(alloc, told, bytes.bytes())?;
        }
        Ok(true)
    }

    /// The next frame is written, where there is one that fits. It says whether there is.
    fn write_next<P: Print>(
        &mut self,
        alloc: Global,
        told: &mut Told<'_, P>,
        room: u32,
    ) -> Result<bool, Stop> {
        let bytes = self.conn.produce(alloc, room)?;
        if bytes.is_empty() {
            return Ok(false);
        }
        self.conn.wrote(bytes.len() as u32);
        told.line(shown(alloc, bytes.bytes())?)?;
        Ok(true)
    }

    /// All that may be written goes.
    fn write_all<P: Print>(
        &mut self,
        alloc: Global,
        told: &mut Told<'_, P>,
        room: u32,
    ) -> Result<(), Stop> {
        if !self.write_next(alloc, told, room)? {
            told.line(shown(alloc, &[])?)?;
            return Ok(());
        }
        for _ in 0..u64::MAX {
            if !self.write_next(alloc, told, room)? {
                return Ok(());
            }
        }
        Ok(())
    }

    /// Tells how much may be given on a stream so that it can go at once.
    fn tell_room<P: Print>(
        &self,
        alloc: Global,
        told: &mut Told<'_, P>,
        stream: u32,
    ) -> Result<bool, Stop> {
        if !self.conn.is_live(stream) {
            return Ok(false);
        }
        told.line(format!(in alloc; "{}", self.conn.room_of(stream))?)?;
        Ok(true)
    }

    /// Does what a line asks for, and says whether it may be done.
    fn act_on<P: Print>(
        &mut self,
        alloc: Global,
        told: &mut Told<'_, P>,
        line: Line<'_>,
    ) -> Result<bool, Stop> {
        let conn = &mut self.conn;
        match line {
            Line::Comment | Line::Begin => Ok(true),
            Line::Bytes { times, digits } => self.receive_times(alloc, told, times, digits),
            Line::Head { stream } => Ok(answers::head(alloc, conn, stream)?),
            Line::Only { stream, code } => Ok(answers::only(alloc, conn, stream, code)?),
            Line::Reply {
                stream,
                times,
                digits,
            } => answers::reply(alloc, conn, stream, times, digits),
            Line::Tail { stream, code, text } => {
                Ok(answers::tail(alloc, conn, stream, code, text)?)
            }
            Line::Abort { stream, code } => Ok(answers::abort(alloc, conn, stream, code)?),
            Line::Whole => {
                conn.request_whole();
                Ok(true)
            }
            Line::Produce { room } => {
                self.write_all(alloc, told, room)?;
                Ok(true)
            }
            Line::Room { stream } => self.tell_room(alloc, told, stream),
            Line::Waiting { stream } => {
                told.line(format!(in alloc; "{}", conn.waiting(stream))?)?;
                Ok(true)
            }
        }
    }

    /// Does what a line asks for, and tells what happened. `text` is the line.
    pub(crate) fn act<P: Print>(
        &mut self,
        alloc: Global,
        told: &mut Told<'_, P>,
        line: Option<Line<'_>>,
        text: &str,
    ) -> Result<(), Stop> {
        match line {
            None => {
                told.line(String::from_str(alloc, "no line of a script")?)?;
                Ok(())
            }
            Some(Line::Begin) => {
                *self = Session::begin(alloc)?;
                told.line(String::from_str(alloc, text)?)?;
                Ok(())
            }
            Some(line) => {
                let is_given = self.act_on(alloc, told, line)?;
                tell_refusal(alloc, told, is_given)
            }
        }
    }
}

//! Lines that are told.

use std::io;

/// Writes lines, and such as follow one another and are equal once, with their number.
#[derive(Drop)]
pub(crate) struct Told<'a, P: Print> {
    rt: &'a P,
    /// The last line, which isn't written yet.
    last: Option<String>,
    /// How many of them there are.
    count: u64,
}

impl<'a, P: Print> Told<'a, P> {
    /// Nothing is told yet.
    pub(crate) fn new(rt: &'a P) -> Told<'a, P> {
        Told {
            rt,
            last: None,
            count: 0,
        }
    }

    /// Writes what isn't written yet.
    pub(crate) fn flush(&mut self) -> io::Result<()> {
        match self.last.take() {
            None => Ok(()),
            Some(line) if self.count == 1 => println!(self.rt; "{line}"),
            Some(line) => println!(self.rt; "{} times {line}", self.count),
        }
    }

    /// Tells a line.
    pub(crate) fn line(&mut self, line: String) -> io::Result<()> {
        if let Some(last) = &self.last {
            if last.as_str() == line.as_str() {
                self.count = self.count.saturating_add(1);
                return Ok(());
            }
        }
        self.flush()?;
        self.last = Some(line);
        self.count = 1;
        Ok(())
    }
}

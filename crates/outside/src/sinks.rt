ghost use Rattle.std.specs.Prelude.{◌<◌, ℕ, List, length};
ghost use Rattle.std.specs.Prelude.{Option};
ghost use Rattle.outside.specs.Streams.{IsWriteWithin, WriteAdds, WriteCause};

/// What one write to a [`Sink`] answers.
#[derive(Clone, Copy, Debug, PartialEq, Eq)]
pub enum SinkWrite {
    /// This many bytes were taken, at least one.
    Took(usize),
    /// The sink met a fault, and its count of faults rose.
    Failed,
}

/// Where bytes go.
pub trait Sink {
    // The bytes taken so far, where they are told.
    ghost taken: { Self → Option (List ℕ) };

    // How many faults were met so far.
    ghost faults: { Self → ℕ };

    /// Writes from `from`, which isn't empty. `Took(n)` has added its first `n` bytes to those taken.
    /// `Failed` comes only where the count of faults rose; it adds no byte, and the bytes taken
    /// needn't be told on.
    fn write(&mut self, from: &[u8]) -> SinkWrite
        requires { 0 < length from.now }
        ensures within { IsWriteWithin result from.now }
        ensures adds { WriteAdds (taken self.old) (taken self.new) result from.now }
        ensures cause { WriteCause (faults self.old) (faults self.new) result };
}

ghost use Rattle.std.specs.Prelude.{◌<◌, ℕ, List, length};
ghost use Rattle.std.specs.Prelude.{Option};
ghost use Rattle.outside.specs.Streams.{IsReadWithin, ReadTakes, ReadCause};

/// What one read of a [`Source`] answers.
#[derive(Clone, Copy, Debug, PartialEq, Eq)]
pub enum SourceRead {
    /// This many bytes were given, at least one.
    Got(usize),
    /// No byte is left.
    End,
    /// The source met a fault, and its count of faults rose.
    Failed,
}

/// Where bytes come from.
pub trait Source {
    // The bytes left to read, where they are told.
    ghost left: { Self → Option (List ℕ) };

    // How many faults were met so far.
    ghost faults: { Self → ℕ };

    /// Reads into `into`, which isn't empty. `Got(n)` has put the first `n` of the bytes left at its
    /// front and has taken them away. `End` comes only where no byte is left. `Failed` comes only
    /// where the count of faults rose; it takes no byte, and the bytes left needn't be told on.
    fn read(&mut self, into: &mut [u8]) -> SourceRead
        requires { 0 < length into.old }
        ensures within { IsReadWithin result into.new }
        ensures takes { ReadTakes (left self.old) (left self.new) result into.new }
        ensures cause { ReadCause (faults self.old) (faults self.new) result };
}

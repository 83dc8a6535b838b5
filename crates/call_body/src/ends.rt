ghost use Rattle.std.specs.Prelude.{◌≡◌};

/// How a body ended.
#[derive(Clone, Copy, Debug, PartialEq, Eq)]
pub enum BodyEnd {
    /// All input was read, and it is whole messages.
    Done,
    /// The source or the sink met a fault.
    Outside,
    /// Want of memory.
    Memory,
    /// It stopped at a message that has another flag than 0, is too long or can't be read.
    Refused,
    /// The input ended inside a message.
    Cut,
    /// The input has a byte after the longest body.
    Long,
}

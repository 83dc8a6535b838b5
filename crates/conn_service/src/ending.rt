//! How a connection ends.

/// How a connection ended.
#[derive(Clone, Copy, Debug, PartialEq, Eq)]
pub enum Ending {
    /// The client's bytes ended at the boundary of a frame, or before any byte, and no rule was broken.
    Done,
    /// A frame broke this rule, of those of docs/HTTP2.md, and GOAWAY with this code (RFC 9113 section 7) was written.
    Goaway { code: u32, rule: u8 },
    /// The client's bytes ended inside the preface or a frame: `have` bytes of it came, and `need` more were asked for.
    Cut { have: usize, need: usize },
    /// The link met a fault: its count of faults rose.
    LinkFault,
    /// Want of memory.
    Memory,
}

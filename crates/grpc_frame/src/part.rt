use outside::Blob;

/// What the bytes of a body begin with.
#[derive(Drop)]
pub enum Part {
    /// A whole message, without its flag and length.
    Message(Blob),
    /// None of the others yet: bytes are missing.
    More,
    /// A message whose compressed flag is not 0. It comes with the flag alone.
    Compressed {
        /// The flag.
        flag: u8,
    },
    /// A message above the limit. It comes with the last byte of the length.
    TooLong {
        /// The length, in bytes.
        len: u32,
    },
}

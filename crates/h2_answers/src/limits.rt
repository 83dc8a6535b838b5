//! What bounds the frames of a stream.

ghost use Rattle.std.specs.Prelude.{◌≡◌, ℕ, ℤ, Bool};

/// What an answer asks of the streams of its connection.
pub trait Limits {
    // The send window of each stream.
    ghost windows: { Self → ℕ → ℤ };

    // On which streams a control frame waits.
    ghost holds: { Self → ℕ → Bool };

    /// How many bytes may be sent on a stream (RFC 9113 section 6.9.1); a negative number is owed first.
    fn send_window(&self, id: u32) -> i64
        ensures { result ≡ windows self.now id };

    /// Whether a control frame of the stream waits, a WINDOW_UPDATE. A reset is written behind it.
    fn is_held(&self, id: u32) -> bool
        ensures { result ≡ holds self.now id };
}

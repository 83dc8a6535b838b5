//! That what is written is read.

ghost use Rattle.std.specs.Prelude.{◌≡◌, ℕ, ◌<◌, ◌^◌, List, length, get_or};
ghost use Rattle.wire_bytes.specs.Number.{number_of, bytes_of};

/// A field of two, three or four bytes that was written reads as its number, and what was read is
/// written as the same bytes: a law of the two spellings. It computes nothing.
pub fn numbers_read_back()
    ensures two { (n : ℕ) → n < 2 ^ 16 → number_of (bytes_of 2 n) ≡ n }
    ensures three { (n : ℕ) → n < 2 ^ 24 → number_of (bytes_of 3 n) ≡ n }
    ensures four { (n : ℕ) → n < 2 ^ 32 → number_of (bytes_of 4 n) ≡ n }
    ensures same_two { (bytes : List ℕ) → length bytes ≡ 2 → ((i : ℕ) → get_or bytes i 0 < 256) → bytes_of 2 (number_of bytes) ≡ bytes }
    ensures same_three { (bytes : List ℕ) → length bytes ≡ 3 → ((i : ℕ) → get_or bytes i 0 < 256) → bytes_of 3 (number_of bytes) ≡ bytes }
    ensures same_four { (bytes : List ℕ) → length bytes ≡ 4 → ((i : ℕ) → get_or bytes i 0 < 256) → bytes_of 4 (number_of bytes) ≡ bytes }
{}

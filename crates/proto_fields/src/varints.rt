ghost use Rattle.std.specs.Prelude.{◌≡◌, ◌+◌, ◌≤◌, ◌++◌, length, vec_len, vec_capacity};
ghost use Rattle.proto_fields.specs.Chain.{Gives};
ghost use Rattle.proto_fields.specs.Varint.{low_number_at, varint_at, number_of, varint_of};

/// A varint has ten bytes at most.
pub const MOST_BYTES: usize = 10;

/// The varint at the front, and the bytes behind it.
// Most varints have one byte or two, so these are read without a call.
#[tactic(auto, unfolding(crate::specs::Varint::varint_at, crate::specs::Varint::number_at))]
pub fn varint_at(bytes: &[u8]) -> Option<(u64, &[u8])>
    ensures { Gives (λ x. (x.0, x.1.now)) result (varint_at bytes.now) }
{
    match bytes {
        [byte, rest @ ..] if *byte < 128 => Some((*byte as u64, rest)),
        [byte, last, rest @ ..] if *last < 128 => {
            Some((((*last as u64) << 7) | (*byte & 0x7f) as u64, rest))
        }
        _ => number_at(MOST_BYTES, bytes),
    }
}

// The low 64 bits of a number that has this many bytes at most.
fn number_at(most: usize, bytes: &[u8]) -> Option<(u64, &[u8])>
    ensures { Gives (λ x. (x.0, x.1.now)) result (low_number_at most bytes.now) }
{
    let [byte, rest @ ..] = bytes else {
        return None;
    };
    if most == 0 {
        return None;
    }
    if *byte < 128 {
        return Some((*byte as u64, rest));
    }
    let (high, rest) = number_at(most - 1, rest)?;
    Some(((high << 7) | (*byte & 0x7f) as u64, rest))
}

/// Writes the shortest varint of a number. Room for ten bytes is there.
pub fn put_varint(bytes: &mut Vec<u8>, n: u64)
    requires room { vec_len bytes.old + MOST_BYTES ≤ vec_capacity bytes.old }
    ensures items { bytes.new.items ≡ bytes.old.items ++ varint_of n }
    ensures len { vec_len bytes.new ≤ vec_len bytes.old + MOST_BYTES }
    ensures capacity { vec_capacity bytes.old ≤ vec_capacity bytes.new }
{
    put_number(bytes, MOST_BYTES, n)
}

// Writes a number that has this many bytes at most.
fn put_number(bytes: &mut Vec<u8>, most: usize, n: u64)
    requires room { vec_len bytes.old + most ≤ vec_capacity bytes.old }
    ensures items { bytes.new.items ≡ bytes.old.items ++ number_of most n }
    ensures len { vec_len bytes.new ≤ vec_len bytes.old + most }
    ensures capacity { vec_capacity bytes.old ≤ vec_capacity bytes.new }
{
    if most == 0 {
        return;
    }
    if n < 128 {
        bytes.push(n as u8).unwrap();
        return;
    }
    bytes.push((n % 128) as u8 + 128).unwrap();
    put_number(bytes, most - 1, n / 128);
}

/// How many bytes the shortest varint of a number has: one to ten.
pub fn varint_len(n: u64) -> usize
    ensures len { result ≡ length (varint_of n) }
    ensures most { result ≤ MOST_BYTES }
{
    number_len(MOST_BYTES, n)
}

// How many bytes a number has that has this many at most.
fn number_len(most: usize, n: u64) -> usize
    ensures len { result ≡ length (number_of most n) }
    ensures most { result ≤ most }
{
    if most == 0 {
        return 0;
    }
    if n < 128 {
        return 1;
    }
    1 + number_len(most - 1, n / 128)
}

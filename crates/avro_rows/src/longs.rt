//! Numbers: the Avro specification's `int` and `long`, in variable-length zig-zag coding.

ghost use Rattle.std.specs.Prelude.{◌≡◌, ◌++◌, ◌≤◌, OnOk};
ghost use Rattle.avro_rows.specs.Reads.{Reads};
ghost use Rattle.avro_rows.specs.Long.{zig_zag_of, varint_of, long_of, IsLong};

use outside::Memory;

/// A number as an unsigned one: 0, -1, 1, -2 and so on as 0, 1, 2, 3 and so on.
fn zig_zag(value: i64) -> u64
    ensures { result ≡ zig_zag_of value }
{
    let size = value.unsigned_abs();
    if value < 0 {
        2 * (size - 1) + 1
    } else {
        2 * size
    }
}

/// The number that zig-zag coding turns into this one.
fn from_zig_zag(number: u64) -> i64
    ensures { zig_zag_of result ≡ number }
{
    let half = (number / 2) as i64;
    if number % 2 == 0 { half } else { -half - 1 }
}

/// Writes a number at the end.
pub(crate) fn push_long(out: &mut Vec<u8>, value: i64) -> Result<(), Memory>
    ensures { OnOk result (out.new.items ≡ out.old.items ++ long_of value) }
{
    push_varint(out, zig_zag(value))
}

/// Writes an unsigned number at the end, in groups of seven bits.
fn push_varint(out: &mut Vec<u8>, number: u64) -> Result<(), Memory>
    ensures { OnOk result (out.new.items ≡ out.old.items ++ varint_of number) }
{
    let mut rest = number;
    while rest >= 128 {
        out.push(128 + (rest % 128) as u8)?;
        rest /= 128;
    }
    out.push(rest as u8)?;
    Ok(())
}

/// Reads a number from the front, and gives what stands behind it. None where no number of 64 bits stands there in its
/// least length.
pub(crate) fn long_at(bytes: &[u8]) -> Option<(i64, &[u8])>
    ensures { Reads IsLong long_of bytes.now result }
{
    let Some((number, rest)) = number_at(u64::MAX, bytes) else {
        return None;
    };
    Some((from_zig_zag(number), rest))
}

/// Reads an unsigned number of at most `limit` from the front, and gives what stands behind it. None where no such
/// number stands there in its least length.
fn number_at(limit: u64, bytes: &[u8]) -> Option<(u64, &[u8])>
    ensures { Reads (λ number. number ≤ limit) varint_of bytes.now result }
{
    let Some((first, rest)) = bytes.split_first() else {
        return None;
    };
    let low = u64::from(*first);
    if low < 128 {
        return if low <= limit {
            Some((low, rest))
        } else {
            None
        };
    }
    if limit < 128 {
        return None;
    }
    let Some((high, rest)) = number_at(limit / 128, rest) else {
        return None;
    };
    if high == 0 {
        return None;
    }
    let number = high * 128 + (low - 128);
    if number <= limit {
        Some((number, rest))
    } else {
        None
    }
}

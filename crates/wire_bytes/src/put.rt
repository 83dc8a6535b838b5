//! Fields at the end of a vector.

ghost use Rattle.std.specs.Prelude.{◌≡◌, ◌+◌, ◌<◌, ◌≤◌, ◌^◌, ◌++◌, OnOk, OnErr, vec_len, vec_capacity};
ghost use Rattle.wire_bytes.specs.Number.{bytes_of};

use outside::Memory;

/// Appends a field of two bytes. Where memory is refused, `out` is as it was; where it has room for them, it never is.
pub fn put_u16(out: &mut Vec<u8>, v: u16) -> Result<(), Memory>
    ensures ok { OnOk result (out.new.items ≡ out.old.items ++ bytes_of 2 v) }
    ensures err { OnErr result (out.new.items ≡ out.old.items) }
    ensures len { OnOk result (vec_len out.new ≡ vec_len out.old + 2) }
    ensures full { OnErr result (vec_capacity out.old < vec_len out.old + 2) }
    ensures capacity { vec_capacity out.old ≤ vec_capacity out.new }
{
    out.extend_from_slice(&v.to_be_bytes())?;
    Ok(())
}

/// Appends a field of three bytes. Where memory is refused, `out` is as it was; where it has room for them, it never is.
pub fn put_u24(out: &mut Vec<u8>, v: u32) -> Result<(), Memory>
    requires { v < 2 ^ 24 }
    ensures ok { OnOk result (out.new.items ≡ out.old.items ++ bytes_of 3 v) }
    ensures err { OnErr result (out.new.items ≡ out.old.items) }
    ensures len { OnOk result (vec_len out.new ≡ vec_len out.old + 3) }
    ensures full { OnErr result (vec_capacity out.old < vec_len out.old + 3) }
    ensures capacity { vec_capacity out.old ≤ vec_capacity out.new }
{
    let [_, high, middle, low] = v.to_be_bytes();
    out.extend_from_slice(&[high, middle, low])?;
    Ok(())
}

/// Appends a field of four bytes. Where memory is refused, `out` is as it was; where it has room for them, it never is.
pub fn put_u32(out: &mut Vec<u8>, v: u32) -> Result<(), Memory>
    ensures ok { OnOk result (out.new.items ≡ out.old.items ++ bytes_of 4 v) }
    ensures err { OnErr result (out.new.items ≡ out.old.items) }
    ensures len { OnOk result (vec_len out.new ≡ vec_len out.old + 4) }
    ensures full { OnErr result (vec_capacity out.old < vec_len out.old + 4) }
    ensures capacity { vec_capacity out.old ≤ vec_capacity out.new }
{
    out.extend_from_slice(&v.to_be_bytes())?;
    Ok(())
}

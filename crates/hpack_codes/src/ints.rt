ghost use Rattle.std.specs.Prelude.{◌≡◌, ◌+◌, ◌-◌, ◌*◌, ◌^◌, ◌%◌, ◌<◌, ◌≤◌, ◌++◌, drop, take, OnOk, OnErr, IfOk, length, Ok};
ghost use Rattle.hpack_codes.specs.Integers.{ReadsAt, int_of, groups_of, groups, int_spelling, IntReadsBack};

use crate::faults::IntFault;
use outside::Memory;
use std::alloc::Global;

/// The octets after an integer's first, at most `most` of them: the value and the place behind them.
#[tactic(auto, unfolding(crate::specs::Integers::groups_of))]
fn read_groups(bytes: &[u8], at: usize, most: u32) -> Result<(u64, usize), IntFault>
    requires { most ≤ 5 }
    ensures reads { ReadsAt at result (groups_of most (drop at bytes.now)) }
    ensures within { IfOk result (λ x. (x.0 < 128 ^ most) × (x.1 ≤ length bytes.now)) }
{
    if at >= bytes.len() {
        return Err(IntFault::Truncated);
    }
    if most == 0 {
        return Err(IntFault::Overflow);
    }
    let octet = bytes[at];
    if octet < 128 {
        return Ok((u64::from(octet), at + 1));
    }
    let (higher, next) = read_groups(bytes, at + 1, most - 1)?;
    Ok((u64::from(octet % 128) + 128 * higher, next))
}

/// The integer at `at` with a prefix of `prefix` bits, and the place behind it (RFC 7541, section
/// 5.1).
///
/// `Truncated` comes exactly where the bytes end inside the integer, `Overflow` where it has more
/// than five octets after the first or is above 4,294,967,295. The prefix has 1 to 8 bits.
pub fn read_int(bytes: &[u8], at: usize, prefix: u32) -> Result<(u32, usize), IntFault>
    requires some { 1 ≤ prefix }
    requires most { prefix ≤ 8 }
    ensures reads { ReadsAt at result (int_of prefix (drop at bytes.now)) }
    ensures within { IfOk result (λ x. x.1 ≤ length bytes.now) }
{
    if at >= bytes.len() {
        return Err(IntFault::Truncated);
    }
    let full = (1u32 << prefix) - 1;
    let low = u32::from(bytes[at]) % (full + 1);
    if low < full {
        return Ok((low, at + 1));
    }
    let (higher, next) = read_groups(bytes, at + 1, 5)?;
    match u32::try_from(u64::from(full) + higher) {
        Ok(value) => Ok((value, next)),
        Err(_) => Err(IntFault::Overflow),
    }
}

/// Adds the shortest spelling of `v` with a prefix of `prefix` bits, 1 to 8, below the high bits of
/// `first`, whose low `prefix` bits are 0 (RFC 7541, section 5.1).
///
/// It reads back, whatever follows it. After `Memory` the bytes are as before.
#[tactic(auto, unfolding(crate::specs::Integers::int_spelling))]
pub fn write_int(
    _alloc: Global,
    out: &mut Vec<u8>,
    first: u8,
    prefix: u32,
    v: u32,
) -> Result<(), Memory>
    requires some { 1 ≤ prefix }
    requires most { prefix ≤ 8 }
    requires clear { first % 2 ^ prefix ≡ 0 }
    ensures ok { OnOk result (out.new.items ≡ out.old.items ++ int_spelling first prefix v) }
    ensures err { OnErr result (out.new.items ≡ out.old.items) }
    ensures reads_back { IntReadsBack prefix (int_spelling first prefix v) v }
{
    let full = (1u32 << prefix) - 1;
    if v < full {
        out.push(first + v as u8)?;
        return Ok(());
    }
    let mut octets = [first + full as u8, 0, 0, 0, 0, 0];
    let len = write_groups(&mut octets, v - full);
    out.extend_from_slice(&octets[..len])?;
    Ok(())
}

/// Puts the groups of `v` behind the first octet, and gives how many octets there are now.
fn write_groups(octets: &mut [u8; 6], v: u32) -> usize
    ensures spelled { take result octets.new ≡ take 1 octets.old ++ groups 4 v }
    ensures within { result ≤ 6 }
{
    let mut rest = v;
    let mut len = 1;
    while rest >= 128 {
        octets[len] = (rest % 128) as u8 + 128;
        rest /= 128;
        len += 1;
    }
    octets[len] = rest as u8;
    len + 1
}

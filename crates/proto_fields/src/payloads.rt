ghost use Rattle.std.specs.Prelude.{Option, Some, None};
ghost use Rattle.std.specs.Int.{w32, w64};
ghost use Rattle.proto_fields.specs.Chain.{Gives};
ghost use Rattle.proto_fields.specs.Record.{fixed_at, len_at, payload_at, record_at};
ghost use Rattle.proto_fields.specs.Raw.{payload_of};

use super::tags::{WireType, tag_at};
use super::varints::varint_at;

/// A payload among the bytes that it is read from.
#[derive(Clone, Copy)]
pub enum Raw<'a> {
    Varint(u64),
    Fixed64(u64),
    Len(&'a [u8]),
    Fixed32(u32),
}

fn fixed64_at(bytes: &[u8]) -> Option<(u64, &[u8])>
    ensures { Gives (λ x. (x.0, x.1.now)) result (fixed_at w64 bytes.now) }
{
    let (front, rest) = bytes.split_first_chunk::<8>()?;
    Some((u64::from_le_bytes(*front), rest))
}

fn fixed32_at(bytes: &[u8]) -> Option<(u32, &[u8])>
    ensures { Gives (λ x. (x.0, x.1.now)) result (fixed_at w32 bytes.now) }
{
    let (front, rest) = bytes.split_first_chunk::<4>()?;
    Some((u32::from_le_bytes(*front), rest))
}

#[tactic(auto, unfolding(crate::specs::Record::len_at))]
fn len_at(bytes: &[u8]) -> Option<(&[u8], &[u8])>
    ensures { Gives (λ x. (x.0.now, x.1.now)) result (len_at bytes.now) }
{
    let (len, rest) = varint_at(bytes)?;
    if (rest.len() as u64) < len {
        return None;
    }
    Some(rest.split_at(len as usize))
}

/// The payload at the front, and the bytes behind it.
#[tactic(auto, unfolding(crate::specs::Record::payload_at))]
pub fn payload_at(wire_type: WireType, bytes: &[u8]) -> Option<(Raw<'_>, &[u8])>
    ensures { Gives (λ x. (payload_of x.0, x.1.now)) result (payload_at wire_type bytes.now) }
{
    match wire_type {
        WireType::Varint => {
            let (number, rest) = varint_at(bytes)?;
            Some((Raw::Varint(number), rest))
        }
        WireType::Fixed64 => {
            let (number, rest) = fixed64_at(bytes)?;
            Some((Raw::Fixed64(number), rest))
        }
        WireType::Len => {
            let (payload, rest) = len_at(bytes)?;
            Some((Raw::Len(payload), rest))
        }
        WireType::Fixed32 => {
            let (number, rest) = fixed32_at(bytes)?;
            Some((Raw::Fixed32(number), rest))
        }
    }
}

/// The number and the payload of the field at the front, and the bytes behind it.
#[tactic(auto, unfolding(crate::specs::Record::record_at))]
pub fn record_at(bytes: &[u8]) -> Option<(u32, Raw<'_>, &[u8])>
    ensures { Gives (λ x. (record { number = x.0; payload = payload_of x.1 }, x.2.now)) result (record_at bytes.now) }
{
    let (tag, rest) = tag_at(bytes)?;
    let (payload, rest) = payload_at(tag.wire_type, rest)?;
    Some((tag.number, payload, rest))
}

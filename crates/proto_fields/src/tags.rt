ghost use Rattle.std.specs.Prelude.{◌≡◌};
ghost use Rattle.proto_fields.specs.Chain.{Gives};
ghost use Rattle.proto_fields.specs.Record.{tag_at, wire_type_of};

use super::varints::varint_at;

/// The greatest number of a field.
pub const MAX_NUMBER: u64 = 536_870_911;

/// How a payload is written, by the three low bits of its tag.
#[derive(Clone, Copy, Debug, PartialEq, Eq)]
pub enum WireType {
    Varint,
    Fixed64,
    Len,
    Fixed32,
}

/// What stands in front of a payload.
#[derive(Clone, Copy, Debug, PartialEq, Eq)]
pub struct Tag {
    pub number: u32,
    pub wire_type: WireType,
}

fn wire_type_of(low: u64) -> Option<WireType>
    ensures { result ≡ wire_type_of low }
{
    match low {
        0 => Some(WireType::Varint),
        1 => Some(WireType::Fixed64),
        2 => Some(WireType::Len),
        5 => Some(WireType::Fixed32),
        _ => None,
    }
}

/// The tag at the front, and the bytes behind it.
#[tactic(auto, unfolding(crate::specs::Record::tag_at))]
pub fn tag_at(bytes: &[u8]) -> Option<(Tag, &[u8])>
    ensures { Gives (λ x. (x.0, x.1.now)) result (tag_at bytes.now) }
{
    let (spelled, rest) = varint_at(bytes)?;
    let number = spelled / 8;
    if number < 1 || MAX_NUMBER < number {
        return None;
    }
    let wire_type = wire_type_of(spelled % 8)?;
    let tag = Tag {
        number: number as u32,
        wire_type,
    };
    Some((tag, rest))
}

ghost use Rattle.std.specs.Prelude.{◌≡◌, ◌<◌, ◌^◌, IfOk, IsOk, length, slice_get};
ghost use Rattle.proto_fields.specs.Message.{fields_of, placed_of};
ghost use Rattle.proto_fields.specs.Selection.{last_of, tags_of};

use super::reading::field_at;
use super::selecting::span_for;

/// The place of the tag of the last field of this number and wire type 2, in a message that can be
/// read, or None where there is no such field.
///
/// It is where a fault within a message within the message is reported.
pub fn last_tag(bytes: &[u8], number: u32) -> Option<usize>
    requires small { length bytes.now < 2 ^ 32 }
    requires message { IsOk (fields_of bytes.now) }
    ensures { IfOk (placed_of bytes.now) (λ placed. result ≡ last_of (tags_of number placed)) }
{
    let mut last = None;
    let mut at = 0;
    while at < bytes.len() {
        let (field, next) = field_at(bytes, at)?;
        if span_for(&field, number).is_some() {
            last = Some(at);
        }
        at = next;
    }
    last
}

/// The place of the tag of the nth field, from 0, of this number and wire type 2, in a message that
/// can be read, or None where there are no more than n such fields.
pub fn nth_tag(bytes: &[u8], number: u32, n: usize) -> Option<usize>
    requires small { length bytes.now < 2 ^ 32 }
    requires message { IsOk (fields_of bytes.now) }
    ensures { IfOk (placed_of bytes.now) (λ placed. result ≡ slice_get (tags_of number placed) n) }
{
    let mut left = n;
    let mut at = 0;
    while at < bytes.len() {
        let (field, next) = field_at(bytes, at)?;
        if span_for(&field, number).is_some() {
            if left == 0 {
                return Some(at);
            }
            left -= 1;
        }
        at = next;
    }
    None
}

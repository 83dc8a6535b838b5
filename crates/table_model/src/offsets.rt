//! Where an append may stand.

ghost use Rattle.std.specs.Prelude.{◌≡◌};
ghost use Rattle.table_model.specs.Rules.{first_refusal};
ghost use Rattle.table_model.specs.Offsets.{offset_rules};

use super::reasons::Why;

/// The cause for which an append can't stand at this offset, in a stream with this end.
pub(crate) fn offset_refusal(end: u64, offset: Option<i64>) -> Option<Why>
    ensures { result ≡ first_refusal (offset_rules end offset) }
{
    let offset = offset?;
    if offset < 0 {
        return Some(Why::NegativeOffset);
    }
    let offset = offset as u64;
    if offset < end {
        return Some(Why::AlreadyWritten);
    }
    if offset > end {
        return Some(Why::PastEnd);
    }
    None
}

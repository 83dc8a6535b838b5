//! Fields that several messages write.

ghost use Rattle.std.specs.Prelude.{◌≡◌, ◌≤◌, ◌++◌, OnOk};
ghost use Rattle.std.specs.Option.{option_map};
ghost use Rattle.proto_fields.specs.Message.{message_of};
ghost use Rattle.write_msgs.specs.CommitPartsBytes.{timestamp_bytes};
ghost use Rattle.write_msgs.specs.Writing.{message_field, repeated_field, text_field};

use outside::{Blob, Memory, Text};
use proto_fields::Out;
use std::alloc::Global;
use write_msgs::Timestamp;

/// Writes bytes, unless there are none.
pub(crate) fn put_blob(alloc: Global, out: &mut Out, number: u32, blob: &Blob) -> Result<(), Memory>
    requires low { 1 ≤ number }
    requires high { number ≤ 536870911 }
    ensures { OnOk result (out.new ≡ out.old ++ message_of (text_field number blob.now)) }
{
    match blob.bytes() {
        [] => Ok(()),
        bytes => out.bytes(alloc, number, bytes),
    }
}

/// Writes a Timestamp, if there is one.
pub(crate) fn put_time(
    alloc: Global,
    out: &mut Out,
    number: u32,
    moment: &Option<Timestamp>,
) -> Result<(), Memory>
    requires low { 1 ≤ number }
    requires high { number ≤ 536870911 }
    ensures { OnOk result (out.new ≡ out.old ++ message_of (message_field number (option_map timestamp_bytes moment.now))) }
{
    let Some(moment) = moment else {
        return Ok(());
    };
    let message = moment.encode(alloc)?;
    out.bytes(alloc, number, message.bytes())
}

/// Writes texts, each as it is.
pub(crate) fn put_texts(
    alloc: Global,
    out: &mut Out,
    number: u32,
    texts: &[Text],
) -> Result<(), Memory>
    requires low { 1 ≤ number }
    requires high { number ≤ 536870911 }
    ensures { OnOk result (out.new ≡ out.old ++ message_of (repeated_field number texts.now)) }
{
    for text in texts {
        out.bytes(alloc, number, text.text().as_bytes())?;
    }
    Ok(())
}

//! Schemas as they are spelled on the wire.

use crate::written::assert_written;
use outside::Text;
use proto_fields::{Out, varint_len};
use schema_msgs::*;
use std::alloc::Global;
use std::process::Abort;
use std::test::Fail;
use write_msgs::MsgFault;

/// A column `id` of type INT64 that is REQUIRED, and a column `p` of type STRUCT, with no mode, that
/// holds `x`, of type STRUCT, which holds a field without a name, and `y`.
const COLUMNS: [u8; 31] = [
    0x0a, 0x08, 0x0a, 0x02, 0x69, 0x64, 0x10, 0x02, 0x18, 0x02, 0x0a, 0x13, 0x0a, 0x01, 0x70, 0x10,
    0x04, 0x22, 0x07, 0x0a, 0x01, 0x78, 0x10, 0x04, 0x22, 0x00, 0x22, 0x03, 0x0a, 0x01, 0x79,
];

/// The depth, the name, the type and the mode of each field in [`COLUMNS`].
const FIELDS: [(u32, &str, i32, i32); 5] = [
    (0, "id", 2, 2),
    (0, "p", 4, 0),
    (1, "x", 4, 0),
    (2, "", 0, 0),
    (1, "y", 0, 0),
];

/// Checks the depth, the name, the type and the mode of each field.
fn assert_fields(rt: &impl Abort, fields: &[NestedField], wanted: &[(u32, &str, i32, i32)]) {
    assert_eq!(rt; fields.len(), wanted.len());
    for (field, (depth, name, column_type, mode)) in fields.iter().zip(wanted) {
        assert_eq!(rt;
            (field.depth, field.column_type, field.mode),
            (*depth, *column_type, *mode),
            "{name}"
        );
        assert_eq!(rt; field.name.text(), *name);
    }
}

#[test]
fn reads_and_writes_a_schema(rt: HostRuntime) -> Result<(), Fail> {
    let schema = TableSchema::decode(rt.alloc(), &COLUMNS)?;
    assert_fields(&rt, schema.fields.nested(), &FIELDS);
    assert_written(&rt, schema.encode(rt.alloc()), &COLUMNS)
}

#[test]
fn reads_and_writes_a_column(rt: HostRuntime) -> Result<(), Fail> {
    let bytes = &COLUMNS[12..];
    let field = TableFieldSchema::decode(rt.alloc(), bytes)?;
    assert_eq!(rt; field.name.text(), "p");
    assert_eq!(rt; (field.column_type, field.mode), (4, 0));
    assert_written(&rt, field.encode(rt.alloc()), bytes)?;
    assert_eq!(rt; field.fields.into_vec().len(), 3);
    Ok(())
}

/// One field of depth 0, and one within it.
#[tactic(auto, unfolding(schema_msgs::specs::Outline::Nests))]
fn two_fields(alloc: Global) -> Result<TableFieldSchemas, Fail> {
    let mut nested = Vec::new(alloc);
    nested.push(NestedField {
        depth: 0,
        name: Text::of(alloc, "a")?,
        column_type: 4,
        mode: 1,
    })?;
    nested.push(NestedField {
        depth: 1,
        name: Text::of(alloc, "b")?,
        column_type: -1,
        mode: 0,
    })?;
    Ok(TableFieldSchemas::from_vec(nested))
}

/// A column `a` with a column `b` within it.
const MADE: [u8; 25] = [
    0x0a, 0x17, 0x0a, 0x01, 0x61, 0x10, 0x04, 0x18, 0x01, 0x22, 0x0e, 0x0a, 0x01, 0x62, 0x10, 0xff,
    0xff, 0xff, 0xff, 0xff, 0xff, 0xff, 0xff, 0xff, 0x01,
];

#[test]
fn writes_what_was_made(rt: HostRuntime) -> Result<(), Fail> {
    let schema = TableSchema {
        fields: two_fields(rt.alloc())?,
    };
    assert_written(&rt, schema.encode(rt.alloc()), &MADE)
}

#[test]
fn writes_no_columns(rt: HostRuntime) -> Result<(), Fail> {
    let none = TableSchema {
        fields: TableFieldSchemas::none(rt.alloc()),
    };
    assert_written(&rt, none.encode(rt.alloc()), &[])
}

/// A schema, why it is refused, and what it shows.
type Case = (&'static [u8], Option<MsgFault>, &'static str);

/// Schemas with faults, of which the first in order is the answer.
const SCHEMAS: [Case; 7] = [
    (
        &[0x0a, 0, 0x0a, 4, 0x22, 2, 0x22, 0],
        None,
        "three levels deep, the second field with two within it",
    ),
    (
        &[0x0a, 0, 0x0a, 5, 0x22, 3, 0x22, 1, 0x0b],
        Some(MsgFault::BadProto { at: 2 }),
        "a group three levels deep, at the tag of the second column",
    ),
    (
        &[0x0a, 5, 0x22, 3, 0x0a, 1, 0xff, 0x0a, 1, 0x0b],
        Some(MsgFault::BadProto { at: 7 }),
        "a column that is no message before a name that is no text",
    ),
    (
        &[0x0a, 3, 0x0a, 1, 0x61, 0x0a, 5, 0x22, 3, 0x0a, 1, 0xff],
        Some(MsgFault::BadUtf8 { field: 1 }),
        "the name of a field within the second column",
    ),
    (
        &[0x0a, 1, 0x0b, 0x0b],
        Some(MsgFault::BadProto { at: 3 }),
        "a field of its own before one within",
    ),
    (
        &[0x0a, 2, 0x20, 0x0b],
        None,
        "field 4 of another wire type has no fields",
    ),
    (
        &[0x0a, 6, 0x22, 1, 0x0b, 0x22, 1, 0x0a, 0x0b],
        Some(MsgFault::BadProto { at: 8 }),
        "behind a column with two that are no messages",
    ),
];

/// Why a schema is refused.
fn refusal(rt: &impl Abort, alloc: Global, bytes: &[u8]) -> Option<MsgFault> {
    assert!(rt; bytes.len() < 1 << 32);
    TableSchema::decode(alloc, bytes).err()
}

#[test]
fn refuses_by_the_order_of_faults(rt: HostRuntime) {
    for (bytes, fault, message) in &SCHEMAS {
        assert_eq!(rt; refusal(&rt, rt.alloc(), bytes), *fault, "{message}");
    }
}

/// How many fields lie within one another.
const DEEP: usize = 400_000;

/// A field within a field, and so on, each with nothing but the next within it.
fn deep_field(alloc: Global) -> Result<outside::Blob, Fail> {
    let mut lens = Vec::new(alloc);
    let mut len: usize = 0;
    for _ in 0..DEEP {
        lens.push(len)?;
        len = len.saturating_add(1 + varint_len(len as u64));
    }
    let mut out = Out::new(alloc);
    for len in lens.iter().rev() {
        out.head(alloc, 4, *len)?;
    }
    Ok(out.finish())
}

#[test]
fn reads_and_writes_however_deep(rt: HostRuntime) -> Result<(), Fail> {
    let message = deep_field(rt.alloc())?;
    let bytes = message.bytes();
    assert!(rt; bytes.len() < 1 << 32);
    let field = TableFieldSchema::decode(rt.alloc(), bytes)?;
    assert_written(&rt, field.encode(rt.alloc()), bytes)?;
    assert_eq!(rt; field.fields.nested().len(), DEEP);
    let last = field.fields.nested().last().ok_or("fields")?;
    assert_eq!(rt; last.depth as usize, DEEP - 1);
    Ok(())
}

/// Asks for a write stream `w` of type PENDING in `p`, made at second 5, committed at nanosecond 7,
/// with a column `c`.
const CREATE: [u8; 25] = [
    0x0a, 0x01, 0x70, 0x12, 0x14, 0x0a, 0x01, 0x77, 0x10, 0x02, 0x1a, 0x02, 0x08, 0x05, 0x22, 0x02,
    0x10, 0x07, 0x2a, 0x05, 0x0a, 0x03, 0x0a, 0x01, 0x63,
];

#[test]
fn reads_and_writes_a_request(rt: HostRuntime) -> Result<(), Fail> {
    let request = CreateWriteStreamRequest::decode(rt.alloc(), &CREATE)?;
    assert_eq!(rt; request.parent.text(), "p");
    assert_written(&rt, request.encode(rt.alloc()), &CREATE)?;
    let stream = request.write_stream.ok_or("write_stream")?;
    assert_eq!(rt; stream.name.text(), "w");
    Ok(())
}

#[test]
fn reads_and_writes_a_write_stream(rt: HostRuntime) -> Result<(), Fail> {
    let bytes = &CREATE[5..];
    let stream = WriteStream::decode(rt.alloc(), bytes)?;
    assert_written(&rt, stream.encode(rt.alloc()), bytes)?;
    assert_eq!(rt; stream.stream_type, 2);
    assert_eq!(rt; stream.create_time.map(|time| time.seconds), Some(5));
    assert_eq!(rt; stream.commit_time.map(|time| time.nanos), Some(7));
    Ok(())
}

#[test]
fn joins_the_parts_of_a_schema(rt: HostRuntime) -> Result<(), Fail> {
    let stream = WriteStream::decode(rt.alloc(), &[0x2a, 3, 0x0a, 3, 0x0a, 0x2a, 2, 1, 0x63])?;
    let schema = stream.table_schema.ok_or("table_schema")?;
    let column = schema.fields.nested().first().ok_or("a column")?;
    assert_eq!(rt; column.name.text(), "c", "a column in two parts");
    Ok(())
}

#[test]
fn refuses_at_the_last_part(rt: HostRuntime) {
    assert_eq!(rt;
        WriteStream::decode(rt.alloc(), &[0x2a, 2, 0x0a, 0, 0x2a, 3, 0x0a, 1, 0x0a]).err(),
        Some(MsgFault::BadProto { at: 4 }),
        "the last tag of the schema"
    );
}

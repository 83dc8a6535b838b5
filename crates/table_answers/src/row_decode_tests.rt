//! Rows of a message with one field, `id` with number 1, and the edges of the types that it can have.

use column_types::{Cell, Column, Kind, Mode, Schema};
use outside::{Blob, Text};
use row_decode::{RowFault, RowWhy, RowsFault, decode_row, decode_rows};
use row_descriptor::{Binding, Descriptor, bind};
use std::alloc::Global;
use std::process::Abort;
use std::test::Fail;

/// The binding of a column `id`, INT64 and REQUIRED, to a field with number 1 of this type.
fn binding(alloc: Global, field_type: u8) -> Result<Binding, Fail> {
    let bytes = [
        0x12, 0x08, 0x0a, 0x02, b'i', b'd', 0x18, 0x01, 0x28, field_type,
    ];
    let id = Column {
        name: Text::of(alloc, "id")?,
        kind: Kind::Int64,
        mode: Mode::Required,
    };
    let schema = Schema::of(alloc, vec![in alloc; id]?)?;
    let descriptor = Descriptor::parse(alloc, &bytes)?;
    match bind(alloc, &descriptor, &schema) {
        Ok(binding) => Ok(binding),
        Err(_) => Err("it binds".into()),
    }
}

/// The number in `id`.
fn number(
    rt: &impl Abort,
    alloc: Global,
    field_type: u8,
    bytes: &[u8],
) -> Result<Result<i64, RowWhy>, Fail> {
    assert!(rt; bytes.len() < 1 << 32);
    let binding = binding(alloc, field_type)?;
    match decode_row(alloc, &binding, bytes) {
        Ok(row) => match row.cells() {
            [Cell::Int(number)] => Ok(Ok(*number)),
            _ => Err("one number".into()),
        },
        Err(why) => Ok(Err(why)),
    }
}

/// A field's type, a row, the number in it or why there is none, and what it shows.
type Case = (u8, &'static [u8], Result<i64, RowWhy>, &'static str);

/// Field 1 is 2^64 - 1.
const ONES: &[u8] = &[
    0x08, 0xff, 0xff, 0xff, 0xff, 0xff, 0xff, 0xff, 0xff, 0xff, 0x01,
];

/// Field 1 is 2^32 + 3.
const TWO_TO_32_AND_3: &[u8] = &[0x08, 0x83, 0x80, 0x80, 0x80, 0x10];

const NUMBERS: [Case; 9] = [
    (3, ONES, Ok(-1), "INT64"),
    (4, ONES, Err(RowWhy::OutOfRange { column: 0 }), "UINT64"),
    (13, ONES, Ok(4_294_967_295), "UINT32"),
    (14, ONES, Ok(-1), "ENUM"),
    (17, TWO_TO_32_AND_3, Ok(-2), "SINT32"),
    (18, &[0x08, 0x03], Ok(-2), "SINT64"),
    (3, &[0x08, 0x01, 0x08, 0x02], Ok(2), "the last value counts"),
    (
        3,
        &[0x0d, 0x01, 0x00, 0x00, 0x00],
        Err(RowWhy::Missing { column: 0 }),
        "of another wire type",
    ),
    (
        3,
        &[
            0x08, 0x80, 0x80, 0x80, 0x80, 0x80, 0x80, 0x80, 0x80, 0x80, 0x80, 0x00,
        ],
        Err(RowWhy::Malformed),
        "an eleventh byte",
    ),
];

#[test]
fn numbers_in_rows(rt: HostRuntime) -> Result<(), Fail> {
    for (field_type, bytes, want, message) in &NUMBERS {
        let found = number(&rt, rt.alloc(), *field_type, bytes)?;
        assert_eq!(rt; found, *want, "{message}");
    }
    Ok(())
}

#[test]
fn a_good_row(rt: HostRuntime) -> Result<(), Fail> {
    let binding = binding(rt.alloc(), 3)?;
    let good = [Blob::of(rt.alloc(), &[0x08, 0x01])?];
    match decode_rows(rt.alloc(), &binding, &good) {
        Ok(rows) => assert_eq!(rt; rows.len(), 1),
        Err(_) => return Err("a good row".into()),
    }
    Ok(())
}

#[test]
fn faults_of_rows(rt: HostRuntime) -> Result<(), Fail> {
    let binding = binding(rt.alloc(), 3)?;
    let bad = [Blob::of(rt.alloc(), &[])?];
    let Err(RowsFault::Refused(faults)) = decode_rows(rt.alloc(), &binding, &bad) else {
        return Err("a REQUIRED column without a value".into());
    };
    let missing = RowFault {
        index: 0,
        why: RowWhy::Missing { column: 0 },
    };
    assert_eq!(rt; faults.faults(), [missing].as_slice());
    Ok(())
}

ghost use Rattle.column_types.specs.Fields.{IsMadeFor};

use avro_rows::{DatumFault, decode_row, encode_row, schema_text};
use column_types::{Cell, Column, Fields, Kind, Mode, Row, Schema, fits, project};
use outside::{Blob, Memory, Text};
use std::alloc::Global;
use std::process::Abort;
use std::test::Fail;

/// `id:INT64:REQUIRED,tag:STRING`
fn columns(alloc: Global) -> Result<Vec<Column>, Memory> {
    Ok(vec![in alloc;
        Column {
            name: Text::of(alloc, "id")?,
            kind: Kind::Int64,
            mode: Mode::Required
        },
        Column {
            name: Text::of(alloc, "tag")?,
            kind: Kind::Str,
            mode: Mode::Nullable
        },
    ]?)
}

fn tag(alloc: Global, text: Option<&str>) -> Result<Cell, Memory> {
    match text {
        Some(text) => Ok(Cell::Str(Text::of(alloc, text)?)),
        None => Ok(Cell::Null),
    }
}

/// The datum of a row's cells at the fields, if the row fits the schema.
fn datum_of_row(
    alloc: Global,
    schema: &Schema,
    fields: &Fields,
    row: &Row,
) -> Result<Option<Blob>, Memory>
    requires { IsMadeFor schema.now fields.now }
{
    if !fits(schema, row) {
        return Ok(None);
    }
    let chosen = project(alloc, fields, row)?;
    Ok(Some(encode_row(alloc, schema, fields, &chosen)?))
}

#[test]
fn text_of_a_schema(rt: HostRuntime) -> Result<(), Fail> {
    let alloc = rt.alloc();
    let schema = Schema::of(alloc, columns(alloc)?)?;
    let fields = Fields::all(alloc, &schema)?;
    let text = schema_text(alloc, &schema, &fields)?;
    assert_eq!(rt;
        text.text(),
        "{\"type\":\"record\",\"name\":\"__root__\",\"fields\":[{\"name\":\"id\",\"type\":\"long\"},{\"name\":\"tag\",\"type\":[\"null\",\"string\"]}]}"
    );
    Ok(())
}

/// The `id` and the `tag` of a row, and its datum.
type Case = (i64, Option<&'static str>, &'static [u8]);

const ROWS: [Case; 5] = [
    (64, None, &[0x80, 0x01, 0x00]),
    (-1, Some("a"), &[0x01, 0x02, 0x02, 0x61]),
    (27, Some("foo"), &[0x36, 0x02, 0x06, 0x66, 0x6f, 0x6f]),
    (-64, Some(""), &[0x7f, 0x02, 0x00]),
    (
        i64::MIN,
        None,
        &[
            0xff, 0xff, 0xff, 0xff, 0xff, 0xff, 0xff, 0xff, 0xff, 0x01, 0x00,
        ],
    ),
];

/// Checks that a row is written as its datum.
fn assert_written(
    rt: &impl Abort,
    alloc: Global,
    schema: &Schema,
    fields: &Fields,
    case: &Case,
) -> Result<(), Fail>
    requires { IsMadeFor schema.now fields.now }
{
    let (id, text, want) = case;
    let row = Row::from_vec(vec![in alloc; Cell::Int(*id), tag(alloc, *text)?]?);
    let datum = datum_of_row(alloc, schema, fields, &row)?.ok_or("the row fits")?;
    assert_eq!(rt; datum.bytes(), *want, "at {id}");
    Ok(())
}

/// Checks that a row is read from its datum, as far as its `id`.
fn assert_read(
    rt: &impl Abort,
    alloc: Global,
    schema: &Schema,
    fields: &Fields,
    case: &Case,
) -> Result<(), DatumFault>
    requires { IsMadeFor schema.now fields.now }
{
    let (id, _, datum) = case;
    let (row, len) = decode_row(alloc, schema, fields, datum)?;
    assert_eq!(rt; len, datum.len(), "at {id}");
    assert!(rt;
        matches!(row.cells(), [Cell::Int(n), _] if n == id),
        "at {id}"
    );
    Ok(())
}

#[test]
fn data_both_ways(rt: HostRuntime) -> Result<(), Fail> {
    let schema = Schema::of(rt.alloc(), columns(rt.alloc())?)?;
    let fields = Fields::all(rt.alloc(), &schema)?;
    for case in &ROWS {
        assert_written(&rt, rt.alloc(), &schema, &fields, case)?;
        assert_read(&rt, rt.alloc(), &schema, &fields, case)?;
    }
    Ok(())
}

/// Bytes without a row's datum, and where the first column that can't be read begins.
const BAD_ROWS: [(&[u8], usize); 7] = [
    (&[], 0),
    (&[0x80], 0),
    (&[0x80, 0x00, 0x00], 0),
    (
        &[
            0xff, 0xff, 0xff, 0xff, 0xff, 0xff, 0xff, 0xff, 0xff, 0x02, 0x00,
        ],
        0,
    ),
    (&[0x36], 1),
    (&[0x36, 0x04, 0x02, 0x61], 1),
    (&[0x80, 0x01, 0x02, 0x02, 0xff], 2),
];

#[test]
fn places_of_bad_columns(rt: HostRuntime) -> Result<(), Fail> {
    let schema = Schema::of(rt.alloc(), columns(rt.alloc())?)?;
    let fields = Fields::all(rt.alloc(), &schema)?;
    for (bytes, at) in &BAD_ROWS {
        let fault = decode_row(rt.alloc(), &schema, &fields, bytes).err();
        assert_eq!(rt; fault, Some(DatumFault::BadDatum { at: *at }), "at {at}");
    }
    Ok(())
}

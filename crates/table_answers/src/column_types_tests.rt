use column_types::{
    Cell, Column, Fields, Kind, Mode, Op, Pred, Row, Schema, SchemaFault, Truth, project, truth,
};
use outside::{Memory, Text};
use sqlite_items::{Boxed, Items};
use std::alloc::Global;
use std::test::Fail;

fn column(alloc: Global, name: &str) -> Result<Column, Memory> {
    Ok(Column {
        name: Text::of(alloc, name)?,
        kind: Kind::Int64,
        mode: Mode::Nullable,
    })
}

fn columns(alloc: Global, names: &[&str]) -> Result<Vec<Column>, Memory> {
    let mut made = Vec::new(alloc);
    for name in names {
        made.push(column(alloc, name)?)?;
    }
    Ok(made)
}

fn fault(alloc: Global, names: &[&str]) -> Result<Option<SchemaFault>, Memory> {
    Ok(Schema::of(alloc, columns(alloc, names)?).err())
}

/// A name of 128 bytes.
const LONGEST: &str =
    "a_23456789a_23456789a_23456789a_23456789a_23456789a_23456789a_23456789a_23456789a_23456789a_23456789a_23456789a_23456789a_234567";

#[test]
fn names_of_columns(rt: HostRuntime) -> Result<(), Fail> {
    let alloc = rt.alloc();
    assert_eq!(rt; LONGEST.len(), 128);
    assert_eq!(rt; fault(alloc, &["_id", "Tag2", LONGEST])?, None);
    assert_eq!(rt; fault(alloc, &[])?, Some(SchemaFault::NoColumns));
    let bad = Some(SchemaFault::BadColumn { at: 1 });
    assert_eq!(rt; fault(alloc, &["a", "1b", ""])?, bad);
    Ok(())
}

/// The places of two columns with one name, if the names are refused so.
fn repeated(alloc: Global, names: &[&str]) -> Result<Option<(usize, usize)>, Memory> {
    match fault(alloc, names)? {
        Some(SchemaFault::Repeated { first, second }) => Ok(Some((first, second))),
        _ => Ok(None),
    }
}

#[test]
fn repeated_names_of_columns(rt: HostRuntime) -> Result<(), Fail> {
    let alloc = rt.alloc();
    assert_eq!(rt; repeated(alloc, &["a", "A"])?, Some((0, 1)));
    assert_eq!(rt; repeated(alloc, &["a", "b", "c", "B", "A"])?, Some((1, 3)));
    Ok(())
}

#[test]
fn null_is_not_kept_by_not(rt: HostRuntime) -> Result<(), Fail> {
    let alloc = rt.alloc();
    let above_5 = Pred::Compare {
        column: 0,
        op: Op::Gt,
        value: Cell::Int(5),
    };
    let pred = Pred::Not(Boxed::new(alloc, above_5)?).copy(alloc)?;
    for (cell, want) in [
        (Cell::Null, Truth::Unknown),
        (Cell::Int(5), Truth::Yes),
        (Cell::Int(6), Truth::No),
    ] {
        let row = Row::from_vec(vec![in alloc; cell]?);
        assert_eq!(rt; truth(&pred, &row), want);
    }
    Ok(())
}

#[test]
fn one_of_the_values_is_enough(rt: HostRuntime) -> Result<(), Fail> {
    let alloc = rt.alloc();
    let one_of = Pred::Among {
        column: 0,
        values: Items::from_vec(vec![in alloc; Cell::Int(1), Cell::Int(7)]?),
    };
    let row = Row::from_vec(vec![in alloc; Cell::Int(7)]?);
    assert_eq!(rt; truth(&one_of, &row), Truth::Yes);
    Ok(())
}

/// The columns `id`, `tag` and `size`.
fn three_columns(alloc: Global) -> Result<Schema, Fail> {
    Ok(Schema::of(alloc, columns(alloc, &["id", "tag", "size"])?)?)
}

#[test]
fn fields_keep_the_order_of_the_schema(rt: HostRuntime) -> Result<(), Fail> {
    let alloc = rt.alloc();
    let schema = three_columns(alloc)?;
    let names = vec![in alloc;
        Text::of(alloc, "SIZE")?,
        Text::of(alloc, "id")?,
        Text::of(alloc, "size")?,
    ]?;
    let fields = Fields::of(alloc, &schema, &names)?.copy(alloc)?;
    assert_eq!(rt; fields.numbers(), [0, 2].as_slice());
    assert_eq!(rt;
        Fields::all(alloc, &schema)?.numbers(),
        [0, 1, 2].as_slice()
    );
    let row = Row::from_vec(vec![in alloc; Cell::Int(1), Cell::Null, Cell::Int(3)]?).copy(alloc)?;
    let chosen = project(alloc, &fields, &row)?;
    assert_eq!(rt; chosen.cells().len(), 2);
    assert!(rt; matches!(chosen.cells()[1], Cell::Int(3)));
    Ok(())
}

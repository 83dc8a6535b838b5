//! A predicate in front notation, as `(and (= id 1) (not (null tag)))`.

ghost use Rattle.std.specs.Prelude.{◌≡◌};
ghost use Rattle.restriction_answers.specs.Signs.{sign_of};

use column_types::{Cell, Op, Pred, Schema};
use std::io;

/// What is still to be written.
#[derive(Drop)]
enum Piece<'a> {
    Pred(&'a Pred),
    Text(&'static str),
}

fn sign(op: Op) -> &'static str
    ensures { result.now ≡ sign_of op }
{
    match op {
        Op::Eq => "=",
        Op::Ne => "!=",
        Op::Lt => "<",
        Op::Le => "<=",
        Op::Gt => ">",
        Op::Ge => ">=",
    }
}

fn show_name(rt: &HostRuntime, schema: &Schema, number: u32) -> io::Result<()> {
    match schema.columns().get(number as usize) {
        Some(column) => print!(rt; "{}", column.name.text()),
        None => print!(rt; "no column"),
    }
}

fn show_cell(rt: &HostRuntime, cell: &Cell) -> io::Result<()> {
    match cell {
        Cell::Int(n) => print!(rt; "{n}"),
        Cell::Bool(b) => print!(rt; "{b}"),
        Cell::Str(s) => print!(rt; "{:?}", s.text()),
        Cell::Date(day) => print!(rt; "{day}"),
        Cell::Timestamp(instant) => print!(rt; "{instant}"),
        Cell::Null | Cell::Bytes(_) => print!(rt; "no literal"),
    }
}

fn show_among(rt: &HostRuntime, schema: &Schema, column: u32, values: &[Cell]) -> io::Result<()> {
    print!(rt; "(in ")?;
    show_name(rt, schema, column)?;
    for value in values {
        print!(rt; " ")?;
        show_cell(rt, value)?;
    }
    print!(rt; ")")
}

fn show_compared(
    rt: &HostRuntime,
    schema: &Schema,
    column: u32,
    op: Op,
    value: &Cell,
) -> io::Result<()> {
    print!(rt; "({} ", sign(op))?;
    show_name(rt, schema, column)?;
    print!(rt; " ")?;
    show_cell(rt, value)?;
    print!(rt; ")")
}

fn show_null(rt: &HostRuntime, schema: &Schema, column: u32) -> io::Result<()> {
    print!(rt; "(null ")?;
    show_name(rt, schema, column)?;
    print!(rt; ")")
}

/// Both sides of AND or OR, and what closes them, to be written later.
fn push_sides<'a>(pieces: &mut Vec<Piece<'a>>, left: &'a Pred, right: &'a Pred) -> io::Result<()> {
    pieces.push(Piece::Text(")"))?;
    pieces.push(Piece::Pred(right))?;
    pieces.push(Piece::Text(" "))?;
    pieces.push(Piece::Pred(left))?;
    Ok(())
}

fn show_one<'a>(
    rt: &HostRuntime,
    schema: &Schema,
    pieces: &mut Vec<Piece<'a>>,
    pred: &'a Pred,
) -> io::Result<()> {
    match pred {
        Pred::All => print!(rt; "all"),
        Pred::Compare { column, op, value } => show_compared(rt, schema, *column, *op, value),
        Pred::Among { column, values } => show_among(rt, schema, *column, values.as_slice()),
        Pred::IsNull { column } => show_null(rt, schema, *column),
        Pred::And(left, right) => {
            print!(rt; "(and ")?;
            push_sides(pieces, left.get(), right.get())
        }
        Pred::Or(left, right) => {
            print!(rt; "(or ")?;
            push_sides(pieces, left.get(), right.get())
        }
        Pred::Not(inner) => {
            print!(rt; "(not ")?;
            pieces.push(Piece::Text(")"))?;
            pieces.push(Piece::Pred(inner.get()))?;
            Ok(())
        }
    }
}

/// Writes a predicate, without recursion.
pub fn show(rt: &HostRuntime, schema: &Schema, pred: &Pred) -> io::Result<()> {
    let mut pieces = Vec::new(rt.alloc());
    pieces.push(Piece::Pred(pred))?;
    for _ in 0..u64::MAX {
        match pieces.pop() {
            Some(Piece::Text(text)) => print!(rt; "{text}")?,
            Some(Piece::Pred(pred)) => show_one(rt, schema, &mut pieces, pred)?,
            None => return Ok(()),
        }
    }
    Ok(())
}

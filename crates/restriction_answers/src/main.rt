//! Says what each restriction of standard input is, one line for each. The texts are parted by NUL.
//!
//! `tests/restrictions.txt` has the restrictions with their answers, worked out by hand from the grammar, and
//! `tests/restrictions` makes of them what this program reads and has to write.
#![tactic(auto)]

mod columns;
mod pieces;

use column_types::{Pred, Schema};
use columns::schema;
use filter::{FilterFault, parse_restriction};
use pieces::show;
use std::io;

fn show_answer(
    rt: &HostRuntime,
    schema: &Schema,
    answer: Result<Pred, FilterFault>,
) -> io::Result<()> {
    match answer {
        Ok(pred) => show(rt, schema, &pred)?,
        Err(FilterFault::Memory) => print!(rt; "Memory")?,
        Err(FilterFault::Long) => print!(rt; "Long")?,
        Err(FilterFault::Syntax { at }) => print!(rt; "Syntax {at}")?,
        Err(FilterFault::UnknownColumn { name }) => print!(rt; "UnknownColumn {}", name.text())?,
        Err(FilterFault::IllTyped { name }) => print!(rt; "IllTyped {}", name.text())?,
    }
    println!(rt; "")
}

fn main(rt: HostRuntime) -> io::Result<()> {
    let alloc = rt.alloc();
    let Some(schema) = schema(alloc) else {
        return Ok(());
    };
    let texts = io::read_to_string(alloc, rt.reader())?;
    for text in texts.split('\0') {
        show_answer(&rt, &schema, parse_restriction(alloc, text, &schema))?;
    }
    Ok(())
}

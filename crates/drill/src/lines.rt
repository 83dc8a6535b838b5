//! The text of the drill.

ghost use Rattle.std.specs.Prelude.{◌≡◌, ◌++◌, ◌-◌, ◌*◌, ◌^◌, ℤ, ◌+ℤ◌, ◌≤ℤ◌, pos, length, IfOk, OnOk, decimal, string_bytes};
ghost use Rattle.std.specs.Fmt.{signed_decimal};
ghost use Rattle.table_model.specs.Visible.{visible_of};
ghost use Rattle.drill.specs.Summary.{appends_of, is_append, id_in, line, lines_of, sum_of};

use column_types::{Cell, Row};
use itoa::{Buffer, Integer};
use outside::{Memory, Text};
use std::alloc::Global;
use table_engine::Engine;
use table_model::{Change, Entry};

fn is_append(change: &Change) -> bool
    ensures { result ≡ is_append change.now }
{
    matches!(change, Change::Append { .. })
}

/// The accepted appends.
fn appends_of(entries: &[Entry]) -> u64
    ensures { result ≡ appends_of entries.now }
{
    let mut count = 0;
    for entry in entries {
        if is_append(&entry.change) {
            count += 1;
        }
    }
    count
}

/// The id of a row, which is its first cell.
fn id_in(row: &Row) -> i64
    ensures { result ≡ id_in row.now }
{
    match row.cells() {
        [Cell::Int(id), ..] => *id,
        _ => 0,
    }
}

/// A sum of fewer than 2^64 ids, and one id more.
fn plus(sum: i128, id: i64) -> i128
    requires low { pos 0 ≤ℤ (sum +ℤ pos ((2 ^ 64 - 1) * 2 ^ 63)) }
    requires high { sum ≤ℤ pos ((2 ^ 64 - 1) * 2 ^ 63) }
    ensures sum { result ≡ sum +ℤ id }
    ensures low { sum ≤ℤ (result +ℤ pos (2 ^ 63)) }
    ensures high { result ≤ℤ (sum +ℤ pos (2 ^ 63)) }
{
    sum + i128::from(id)
}

/// The sum of the ids of some rows.
fn sum_of(rows: &[Row]) -> i128
    ensures sum { result ≡ sum_of rows.now }
    ensures low { pos 0 ≤ℤ (result +ℤ pos ((2 ^ 64 - 1) * 2 ^ 63)) }
    ensures high { result ≤ℤ pos ((2 ^ 64 - 1) * 2 ^ 63) }
{
    let mut sum = 0_i128;
    for row in rows {
        sum = plus(sum, id_in(row));
    }
    sum
}

/// Adds a word and a number, and ends the line.
fn add_line<I: Integer>(text: &mut String, word: &str, number: I) -> Result<(), Memory>
    ensures { OnOk result (string_bytes text.new ≡ string_bytes text.old ++ line word.now (I.text number)) }
{
    let mut buffer = Buffer::new();
    text.push_str(word)?;
    text.push_str(buffer.format(number))?;
    text.push_str("\n")?;
    Ok(())
}

/// The five lines.
fn lines_of(
    alloc: Global,
    appends: u64,
    repeats: u64,
    visible: u64,
    matching: usize,
    sum: i128,
) -> Result<Text, Memory>
    ensures { IfOk result (λ text. text ≡ lines_of appends repeats visible matching sum) }
{
    let mut text = String::new(alloc);
    add_line(&mut text, "appends ", appends)?;
    add_line(&mut text, "repeats ", repeats)?;
    add_line(&mut text, "visible ", visible)?;
    add_line(&mut text, "matching ", matching)?;
    add_line(&mut text, "sum ", sum)?;
    Ok(Text::from_string(text))
}

/// The five lines of a closed table, where so many appends were written before, and these rows were drained.
pub(crate) fn text_of(
    alloc: Global,
    table: &Engine,
    repeats: u64,
    rows: &[Row],
) -> Result<Text, Memory>
    ensures { IfOk result (λ text. text ≡ lines_of (appends_of table.now.entries) repeats (length (visible_of table.now.entries)) (length rows.now) (sum_of rows.now)) }
{
    let history = table.history(alloc)?;
    let appends = appends_of(history.as_slice());
    let text = lines_of(
        alloc,
        appends,
        repeats,
        table.visible(),
        rows.len(),
        sum_of(rows),
    )?;
    Ok(text)
}

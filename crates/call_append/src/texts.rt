//! The texts of refusals.

ghost use Rattle.std.specs.Prelude.{◌≡◌, ◌≤◌, ◌++◌, IfOk, OnOk, decimal, length, string_bytes};
ghost use Rattle.call_append.specs.Texts.{carried_in, cause_text, column_name, row_text, shown as shown_of};

use column_types::Column;
use itoa::Buffer;
use outside::{Memory, Text};
use row_decode::RowWhy;
use std::alloc::Global;
use table_model::Why;

/// The most characters of a name that a text shows.
pub const SHOWN_CHARACTERS: usize = 128;

/// The bytes of the longest text of a cause.
pub const MAX_TEXT_BYTES: usize = 1024;

/// Adds the first characters of a name.
fn show(text: &mut String, name: &str) -> Result<(), Memory>
    ensures { OnOk result (string_bytes text.new ≡ string_bytes text.old ++ shown_of name.now) }
{
    for character in name.chars().take(SHOWN_CHARACTERS) {
        text.push(character)?;
    }
    Ok(())
}

/// Adds a number in decimal.
fn show_number(text: &mut String, number: usize) -> Result<(), Memory>
    ensures { OnOk result (string_bytes text.new ≡ string_bytes text.old ++ decimal number) }
{
    let mut buffer = Buffer::new();
    text.push_str(buffer.format(number))?;
    Ok(())
}

/// Adds what a cause carries: a name by its first characters, or a place in decimal.
fn show_carried(text: &mut String, cause: &Why) -> Result<(), Memory>
    ensures { OnOk result (string_bytes text.new ≡ string_bytes text.old ++ carried_in cause.now) }
{
    match cause {
        Why::ExtraField { name }
        | Why::TypeMismatch { name }
        | Why::MissingRequired { name }
        | Why::UnknownColumn { name }
        | Why::IllTyped { name } => show(text, name.text()),
        Why::Syntax { at } => show_number(text, *at),
        _ => Ok(()),
    }
}

/// The phrase of a cause and what it carries.
fn phrase_and_carried(alloc: Global, cause: &Why) -> Result<Text, Memory>
    ensures { IfOk result (λ text. text ≡ cause_text cause.now) }
{
    let mut text = String::new(alloc);
    text.push_str(cause.phrase())?;
    show_carried(&mut text, cause)?;
    Ok(Text::from_string(text))
}

/// The text for a cause of a refusal, of at most 1,024 bytes: its phrase, and the first 128 characters of the name, or
/// the place, that it carries.
pub fn cause_text(alloc: Global, cause: &Why) -> Result<Text, Memory>
    ensures value { IfOk result (λ text. text ≡ cause_text cause.now) }
    ensures short { IfOk result (λ text. length text ≤ MAX_TEXT_BYTES) }
{
    phrase_and_carried(alloc, cause)
}

/// This phrase and the name of the column of this number.
fn column_text(alloc: Global, phrase: &str, columns: &[Column], number: u32) -> Result<Text, Memory>
    ensures { IfOk result (λ text. text ≡ phrase.now ++ column_name columns.now number) }
{
    let mut text = String::new(alloc);
    text.push_str(phrase)?;
    if let Some(column) = columns.get(number as usize) {
        show(&mut text, column.name.text())?;
    }
    Ok(Text::from_string(text))
}

/// The text for a refused row.
pub(crate) fn row_text(alloc: Global, columns: &[Column], why: RowWhy) -> Result<Text, Memory>
    ensures { IfOk result (λ text. text ≡ row_text columns.now why) }
{
    match why {
        RowWhy::Memory => Text::of(alloc, ""),
        RowWhy::Malformed => Text::of(alloc, "malformed row"),
        RowWhy::BadText { column } => {
            column_text(alloc, "bad text in column: ", columns, column)
        }
        RowWhy::OutOfRange { column } => {
            column_text(alloc, "value out of range in column: ", columns, column)
        }
        RowWhy::Missing { column } => {
            column_text(alloc, "no value in required column: ", columns, column)
        }
    }
}

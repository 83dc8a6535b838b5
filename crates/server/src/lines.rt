//! The line of a table.

ghost use Rattle.std.specs.Prelude.{◌≡◌, ◌++◌, OnOk, decimal, string_bytes};
ghost use Rattle.server.specs.Report.{line_of};

use itoa::Buffer;
use outside::Memory;
use table_engine::Engine;
use table_spec::TableSpec;

/// Adds a number in decimal.
fn add_number(text: &mut String, number: u64) -> Result<(), Memory>
    ensures { OnOk result (string_bytes text.new ≡ string_bytes text.old ++ decimal number) }
{
    let mut buffer = Buffer::new();
    text.push_str(buffer.format(number))?;
    Ok(())
}

/// Adds the line of a table: `NAME entries E visible V` and a line feed.
pub(crate) fn add_line(text: &mut String, spec: &TableSpec, engine: &Engine) -> Result<(), Memory>
    ensures { OnOk result (string_bytes text.new ≡ string_bytes text.old ++ line_of spec.now.name engine.now.entries) }
{
    text.push_str(spec.name.text())?;
    text.push_str(" entries ")?;
    add_number(text, engine.entries())?;
    text.push_str(" visible ")?;
    add_number(text, engine.visible())?;
    text.push_str("\n")?;
    Ok(())
}

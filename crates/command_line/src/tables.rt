//! The tables of a command line.

ghost use Rattle.std.specs.Prelude.{◌≡◌, map};
ghost use Rattle.command_line.specs.Tables.{AreSpecs, AreTables, has_name, are_distinct};
ghost use Rattle.table_spec.specs.Spec.{IsSpec};
ghost use Rattle.command_line.specs.Reads.{Reads};

use crate::line::LineFault;
use std::alloc::Global;
use std::marker::Model;
use table_spec::TableSpec;

/// The most tables of a command line.
const MAX_TABLES: usize = 8;

/// Tables in the order of the words. Contracts see their list.
#[derive(Drop)]
pub struct TableSpecs {
    tables: Vec<TableSpec>,
}

impl Model for TableSpecs {
    ghost use Rattle.std.specs.Prelude.{List};
    ghost use Rattle.table_spec.specs.declared.spec.TableSpec.{TableSpec};

    ghost Value = { List TableSpec };

    ghost view = { λ t. t.tables.items };
}

impl TableSpecs {
    /// The tables.
    pub fn tables(&self) -> &[TableSpec]
        ensures { result.now ≡ self.now }
    {
        self.tables.as_slice()
    }

    /// The tables, without a copy.
    pub fn into_vec(self) -> Vec<TableSpec>
        ensures { result.items ≡ self }
    {
        self.tables
    }
}

/// The table that a SPEC describes.
pub(crate) fn spec_of(alloc: Global, text: &str) -> Result<TableSpec, LineFault>
    ensures { Reads (λ spec. spec) (IsSpec text.now) result }
{
    Ok(TableSpec::parse(alloc, text)?)
}

/// The tables of these SPECs.
fn specs_of(alloc: Global, texts: &[&str]) -> Result<Vec<TableSpec>, LineFault>
    ensures { Reads (λ tables. tables.items) (AreSpecs (map (λ t. t.now) texts.now)) result }
{
    let mut tables = Vec::with_capacity(alloc, texts.len())?;
    for text in texts {
        tables.push(spec_of(alloc, text)?)?;
    }
    Ok(tables)
}

/// Whether one of the tables has this name.
fn has_name(tables: &[TableSpec], name: &str) -> bool
    ensures { result ≡ has_name tables.now name.now }
{
    tables.iter().any(|t| t.name.text() == name)
}

/// Whether the tables' names differ.
fn are_distinct(tables: &[TableSpec]) -> bool
    ensures { result ≡ are_distinct tables.now }
{
    let mut rest = tables;
    while let [first, others @ ..] = rest {
        if has_name(others, first.name.text()) {
            return false;
        }
        rest = others;
    }
    true
}

/// The tables of 1 to 8 SPECs with different names.
#[tactic(auto, using(crate::proofs::TableLemmas::too_few, crate::proofs::TableLemmas::too_many, crate::proofs::TableLemmas::not_distinct))]
pub(crate) fn tables_of(alloc: Global, texts: &[&str]) -> Result<TableSpecs, LineFault>
    ensures { Reads (λ tables. tables) (AreTables (map (λ t. t.now) texts.now)) result }
{
    let count = texts.len();
    if count < 1 {
        return Err(LineFault::Usage);
    }
    if count > MAX_TABLES {
        return Err(LineFault::Usage);
    }
    let tables = specs_of(alloc, texts)?;
    if are_distinct(tables.as_slice()) {
        Ok(TableSpecs { tables })
    } else {
        Err(LineFault::Usage)
    }
}

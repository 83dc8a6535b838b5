//! A table's SPEC.

ghost use Rattle.std.specs.Prelude.{◌≡◌, IfOk};
ghost use Rattle.resource_names.specs.Table.{is_table_name};
ghost use Rattle.table_spec.specs.Spec.{ReadsSchema, ReadsSpec};

use crate::columns::columns_of;
use column_types::{Column, Schema, SchemaFault};
use outside::{Memory, Text};
use resource_names::{NameFault, TableName};
use std::alloc::{AllocError, AllocFailed, Global};
use thiserror::Error;

/// A table: its name and its columns.
#[derive(Drop)]
pub struct TableSpec {
    /// `projects/P/datasets/D/tables/T`, each part of 1 to 128 bytes of ASCII letters, digits, `_`, `-`, `.` and `:`.
    pub name: Text,
    pub schema: Schema,
}

/// Why a text gave no SPEC.
#[derive(Clone, Copy, Debug, PartialEq, Eq, Error)]
pub enum SpecFault {
    /// An allocation was refused.
    #[error("out of memory")]
    Memory,
    /// The text is no SPEC: it has no `=`, the name is no table's, a column is spelled otherwise, or the columns are
    /// no schema.
    #[error("not NAME=COLUMN,COLUMN with columns name:KIND or name:KIND:MODE")]
    NoSpec,
}

impl From<Memory> for SpecFault {
    ghost use Rattle.table_spec.specs.declared.spec.SpecFault.TheVariants as fault;

    ghost from_gives = { λ _ e. e ≡ fault.Memory };

    fn from(_want: Memory) -> SpecFault {
        SpecFault::Memory
    }
}

impl From<AllocError> for SpecFault {
    ghost use Rattle.table_spec.specs.declared.spec.SpecFault.TheVariants as fault;

    ghost from_gives = { λ _ e. e ≡ fault.Memory };

    fn from(_refused: AllocError) -> SpecFault {
        SpecFault::Memory
    }
}

impl<T: Drop> From<AllocFailed<T>> for SpecFault {
    ghost use Rattle.table_spec.specs.declared.spec.SpecFault.TheVariants as fault;

    ghost from_gives = { λ _ e. e ≡ fault.Memory };

    fn from(_refused: AllocFailed<T>) -> SpecFault {
        SpecFault::Memory
    }
}

/// The schema of these columns.
#[tactic(auto, using(crate::proofs::SchemaLemmas::refused))]
fn schema_of(alloc: Global, columns: Vec<Column>) -> Result<Schema, SpecFault>
    ensures { ReadsSchema columns.items result }
{
    match Schema::of(alloc, columns) {
        Ok(schema) => Ok(schema),
        Err(SchemaFault::Memory) => Err(SpecFault::Memory),
        Err(_) => Err(SpecFault::NoSpec),
    }
}

/// Whether a text is the name of a table.
fn is_table_name(alloc: Global, text: &str) -> Result<bool, Memory>
    ensures { IfOk result (λ yes. yes ≡ is_table_name text.now) }
{
    match TableName::parse(alloc, text) {
        Ok(_) => Ok(true),
        Err(NameFault::BadName) => Ok(false),
        Err(NameFault::Memory) => Err(Memory),
    }
}

fn copy_of(alloc: Global, column: &Column) -> Result<Column, Memory>
    ensures { IfOk result (λ copy. copy ≡ column.now) }
{
    Ok(Column {
        name: Text::of(alloc, column.name.text())?,
        kind: column.kind,
        mode: column.mode,
    })
}

/// Copies of columns.
fn copies(alloc: Global, columns: &[Column]) -> Result<Vec<Column>, Memory>
    ensures { IfOk result (λ copied. copied.items ≡ columns.now) }
{
    let mut copied = Vec::with_capacity(alloc, columns.len())?;
    for column in columns {
        copied.push(copy_of(alloc, column)?)?;
    }
    Ok(copied)
}

impl TableSpec {
    /// A copy of the columns.
    pub fn copy_schema(&self, alloc: Global) -> Result<Schema, Memory>
        ensures { IfOk result (λ schema. schema ≡ self.now.schema) }
    {
        let columns = copies(alloc, self.schema.columns())?;
        match schema_of(alloc, columns) {
            Ok(schema) => Ok(schema),
            Err(_) => Err(Memory),
        }
    }

    /// Reads a SPEC: `NAME=COLUMN,COLUMN`.
    pub fn parse(alloc: Global, text: &str) -> Result<TableSpec, SpecFault>
        ensures { ReadsSpec text.now result }
    {
        let Some((name, columns)) = text.split_once('=') else {
            return Err(SpecFault::NoSpec);
        };
        if !is_table_name(alloc, name)? {
            return Err(SpecFault::NoSpec);
        }
        let columns = columns_of(alloc, columns)?;
        Ok(TableSpec {
            schema: schema_of(alloc, columns)?,
            name: Text::of(alloc, name)?,
        })
    }
}

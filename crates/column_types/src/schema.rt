//! The columns of a table.

ghost use Rattle.std.specs.Prelude.{◌≡◌, ◌<◌, ◌≤◌, length, position, not, MatchResult, MatchOption};
ghost use Rattle.column_types.specs.Schema.{column_number, is_well_named, IsSchema as IsSchemaOf, IsFirstRepeat, HasNoRepeat, Refuses};

use crate::column::{Column, is_good_name, is_same_name};
use std::alloc::Global;
use std::marker::Model;
use thiserror::Error;

/// The most columns of a schema.
pub const MAX_COLUMNS: usize = 256;

/// 1 to 256 columns, whose names are in the grammar of column names and differ without ASCII case. Contracts see
/// the list of the columns.
#[derive(Drop)]
pub struct Schema {
    columns: Vec<Column>,
}

impl Model for Schema {
    ghost use Rattle.std.specs.Prelude.{List};
    ghost use Rattle.column_types.specs.declared.column.Column.{Column};

    ghost Value = { List Column };

    ghost use Rattle.column_types.specs.Schema.{IsSchema};

    ghost view = { λ s. s.columns.items };

    ghost invariant = { λ s. IsSchema s.columns.items };
}

impl Schema {
    ghost use Rattle.column_types.specs.Schema.{IsSchema};

    /// The schema of these columns, in their order. The tests are made in the order of [`SchemaFault`].
    pub fn of(_alloc: Global, columns: Vec<Column>) -> Result<Schema, SchemaFault>
        ensures { MatchResult result (λ schema. (schema ≡ columns.items) × IsSchema schema) (Refuses columns.items) }
    {
        match fault_of(columns.as_slice()) {
            Some(fault) => Err(fault),
            None => Ok(Schema { columns }),
        }
    }

    /// The number of the column that has this name, without ASCII case.
    pub fn number_of(&self, name: &str) -> Option<usize>
        ensures { result ≡ column_number self.now name.now }
    {
        number_among(self.columns.as_slice(), name)
    }

    /// The columns, of which there are at most 256.
    pub fn columns(&self) -> &[Column]
        ensures value { result.now ≡ self.now }
        ensures is_schema { IsSchema result.now }
        ensures most { length result.now ≤ MAX_COLUMNS }
    {
        self.columns.as_slice()
    }
}

/// Why columns are no schema. The tests are made in this order.
#[derive(Debug, Drop, PartialEq, Eq, Error)]
pub enum SchemaFault {
    /// Want of memory. [`Schema::of`] asks for none, and never gives it.
    #[error("out of memory")]
    Memory,
    /// There is no column.
    #[error("no columns")]
    NoColumns,
    /// There are more than 256 columns.
    #[error("{count} columns")]
    TooMany { count: usize },
    /// The name of the column at `at`, and of none before it, is outside the grammar of column names.
    #[error("bad name of column {at}")]
    BadColumn { at: usize },
    /// The names of the columns at `first` and `second` agree without ASCII case. No column before `second`
    /// repeats a name, and none before `first` has this one.
    #[error("columns {first} and {second} have one name")]
    Repeated { first: usize, second: usize },
}

/// Why columns are no schema.
fn fault_of(columns: &[Column]) -> Option<SchemaFault>
    ensures { MatchOption result (IsSchemaOf columns.now) (Refuses columns.now) }
{
    if columns.is_empty() {
        return Some(SchemaFault::NoColumns);
    }
    let count = columns.len();
    if count > MAX_COLUMNS {
        return Some(SchemaFault::TooMany { count });
    }
    if let Some(at) = first_bad(columns) {
        return Some(SchemaFault::BadColumn { at });
    }
    match first_repeat(columns) {
        Some((first, second)) => Some(SchemaFault::Repeated { first, second }),
        None => None,
    }
}

/// The first column whose name is outside the grammar of column names.
fn first_bad(columns: &[Column]) -> Option<usize>
    ensures { result ≡ position (λ column. not (is_well_named column)) columns.now }
{
    columns.iter().position(|c| !is_good_name(c.name.text()))
}

/// The first column that has this name, without ASCII case.
pub(crate) fn number_among(columns: &[Column], name: &str) -> Option<usize>
    ensures { result ≡ column_number columns.now name.now }
{
    columns
        .iter()
        .position(|c| is_same_name(c.name.text(), name))
}

/// The first column that repeats an earlier one's name, behind the first that has it.
fn first_repeat(columns: &[Column]) -> Option<(usize, usize)>
    ensures { MatchOption result (HasNoRepeat columns.now (length columns.now)) (λ pair. IsFirstRepeat columns.now pair.0 pair.1) }
{
    for (second, column) in columns.iter().enumerate() {
        let before = &columns[..second];
        if let Some(first) = number_among(before, column.name.text()) {
            return Some((first, second));
        }
    }
    None
}

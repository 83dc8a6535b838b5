//! The columns that a reader chose.

ghost use Rattle.std.specs.Prelude.{◌≡◌, ◌≤◌, length, filter, IfOk, MatchResult};
ghost use Rattle.std.specs.List.{list_any};
ghost use Rattle.column_types.specs.Name.{is_same_name as is_same};
ghost use Rattle.column_types.specs.Fields.{all_fields, fields_named, is_named, unknown_name, NamesUnknown, IsMadeFor};

use crate::column::{Column, is_same_name};
use crate::schema::{MAX_COLUMNS, Schema, number_among};
use outside::{Memory, Text};
use sqlite_items::at;
use std::alloc::{AllocError, Global};
use std::marker::Model;
use thiserror::Error;

/// The numbers of the columns chosen, in the schema's order, each once. Contracts see the list of the numbers.
#[derive(Drop)]
pub struct Fields {
    numbers: Vec<u32>,
}

impl Model for Fields {
    ghost use Rattle.std.specs.Prelude.{List, ℕ};

    ghost Value = { List ℕ };

    ghost view = { λ f. f.numbers.items };
}

impl From<Memory> for FieldsFault {
    ghost use Rattle.std.specs.Prelude.{◌≡◌};
    ghost use Rattle.column_types.specs.declared.fields.FieldsFault.TheVariants as fault;

    ghost from_gives = { λ _ e. e ≡ fault.Memory };

    fn from(_memory: Memory) -> FieldsFault {
        FieldsFault::Memory
    }
}

impl From<AllocError> for FieldsFault {
    ghost use Rattle.std.specs.Prelude.{◌≡◌};
    ghost use Rattle.column_types.specs.declared.fields.FieldsFault.TheVariants as fault;

    ghost from_gives = { λ _ e. e ≡ fault.Memory };

    fn from(_error: AllocError) -> FieldsFault {
        FieldsFault::Memory
    }
}

/// Why names choose no columns.
#[derive(Debug, Drop, PartialEq, Eq, Error)]
pub enum FieldsFault {
    /// Want of memory.
    #[error("out of memory")]
    Memory,
    /// No column has the name at `at`, without ASCII case, and each name before it is some column's.
    #[error("no column has name {at}")]
    UnknownColumn { at: usize },
}

impl Fields {
    /// All columns.
    pub fn all(alloc: Global, schema: &Schema) -> Result<Fields, Memory>
        ensures value { IfOk result (λ fields. fields ≡ all_fields schema.now) }
        ensures made { IfOk result (IsMadeFor schema.now) }
    {
        let columns = schema.columns();
        let numbers = all_numbers(alloc, columns)?;
        Ok(Fields { numbers })
    }

    /// The columns that these names name without ASCII case, in the schema's order, each once. No names mean all.
    pub fn of(alloc: Global, schema: &Schema, names: &[Text]) -> Result<Fields, FieldsFault>
        ensures value { MatchResult result (λ fields. fields ≡ fields_named schema.now names.now) (NamesUnknown schema.now names.now) }
        ensures made { IfOk result (IsMadeFor schema.now) }
        ensures known { IfOk result (λ _. unknown_name schema.now names.now ≡ None) }
    {
        let columns = schema.columns();
        if let Some(at) = first_unknown(columns, names) {
            return Err(FieldsFault::UnknownColumn { at });
        }
        let numbers = chosen_numbers(alloc, columns, names)?;
        Ok(Fields { numbers })
    }

    /// A copy.
    pub fn copy(&self, alloc: Global) -> Result<Fields, Memory>
        ensures { IfOk result (λ fields. fields ≡ self.now) }
    {
        Ok(Fields {
            numbers: Vec::from_slice(alloc, self.numbers.as_slice())?,
        })
    }

    /// The numbers of the columns, from 0.
    pub fn numbers(&self) -> &[u32]
        ensures { result.now ≡ self.now }
    {
        self.numbers.as_slice()
    }
}

/// The first name that no column has.
fn first_unknown(columns: &[Column], names: &[Text]) -> Option<usize>
    ensures { result ≡ unknown_name columns.now names.now }
{
    names
        .iter()
        .position(|name| number_among(columns, name.text()).is_none())
}

/// The numbers of the columns that these names choose.
fn chosen_numbers(alloc: Global, columns: &[Column], names: &[Text]) -> Result<Vec<u32>, AllocError>
    requires { length columns.now ≤ MAX_COLUMNS }
    ensures { IfOk result (λ numbers. numbers.items ≡ fields_named columns.now names.now) }
{
    if names.is_empty() {
        all_numbers(alloc, columns)
    } else {
        numbers_named(alloc, columns, names)
    }
}

/// The numbers of all columns.
fn all_numbers(alloc: Global, columns: &[Column]) -> Result<Vec<u32>, AllocError>
    requires { length columns.now ≤ MAX_COLUMNS }
    ensures { IfOk result (λ numbers. numbers.items ≡ all_fields columns.now) }
{
    let count = columns.len() as u32;
    (0..count).collect(alloc)
}

/// The numbers of the columns that have one of the names.
fn numbers_named(alloc: Global, columns: &[Column], names: &[Text]) -> Result<Vec<u32>, AllocError>
    requires { length columns.now ≤ MAX_COLUMNS }
    ensures { IfOk result (λ numbers. numbers.items ≡ filter (is_named columns.now names.now) (all_fields columns.now)) }
{
    let count = columns.len() as u32;
    (0..count)
        .filter(|number| has_name(columns, *number, names))
        .collect(alloc)
}

/// Whether the column of this number has one of the names, without ASCII case.
fn has_name(columns: &[Column], number: u32, names: &[Text]) -> bool
    ensures { result ≡ is_named columns.now names.now number }
{
    match at(columns, number as usize) {
        Some(column) => is_one_of(column.name.text(), names),
        None => false,
    }
}

/// Whether a name is one of the names, without ASCII case.
fn is_one_of(name: &str, names: &[Text]) -> bool
    ensures { result ≡ list_any (is_same name.now) names.now }
{
    names.iter().any(|other| is_same_name(name, other.text()))
}

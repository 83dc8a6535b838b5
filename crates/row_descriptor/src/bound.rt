//! A descriptor bound to the columns of a table.

ghost use Rattle.std.specs.Prelude.{◌≡◌, map, find, List, IfOk, ℕ};
ghost use Rattle.std.specs.Option.{option_copied};
ghost use Rattle.row_descriptor.specs.Binding.{binding_of, bound_column, column_for, field_for, is_extra, is_misfit, is_missing, IsBinding, IsBoundTo, source_of};
ghost use Rattle.row_descriptor.specs.Faults.{Binds};

use crate::descriptor::Descriptor;
use crate::faults::BindFault;
use crate::field::{DescriptorField, FieldType, accepts};
use column_types::{Column, Kind, Mode, Schema};
use outside::{Memory, Text};
use std::alloc::Global;
use std::marker::Model;

/// The field that a column is read from.
#[derive(Clone, Copy, Debug, PartialEq, Eq)]
pub struct Source {
    /// The field's number, 1 to 536,870,911.
    pub number: u32,
    /// The field's type, which is one that the column's kind is read from.
    pub field_type: FieldType,
}

/// A column of the table, and the field that it is read from.
#[derive(Clone, Copy, Debug, PartialEq, Eq)]
pub struct BoundColumn {
    pub kind: Kind,
    pub mode: Mode,
    /// None where no field has the column's name, which leaves NULL in each row.
    pub source: Option<Source>,
}

/// One bound column for each column of a table, in the table's order. No two are read from one field.
#[derive(Drop)]
pub struct Binding {
    columns: Vec<BoundColumn>,
}

impl Model for Binding {
    ghost use Rattle.std.specs.Prelude.{List};
    ghost use Rattle.row_descriptor.specs.declared.bound.BoundColumn.{BoundColumn};
    ghost use Rattle.row_descriptor.specs.Binding.{IsBinding};

    ghost Value = { List BoundColumn };

    ghost view = { λ b. b.columns.items };

    ghost invariant = { λ b. IsBinding b.columns.items };
}

impl Binding {
    ghost use Rattle.row_descriptor.specs.Binding.{IsBinding};

    /// The bound columns, of which there are at most 256.
    pub fn columns(&self) -> &[BoundColumn]
        ensures value { result.now ≡ self.now }
        ensures is_binding { IsBinding result.now }
    {
        self.columns.as_slice()
    }
}

/// Binds a descriptor to the columns of a table. The tests are made in the order of [`BindFault`].
pub fn bind(alloc: Global, descriptor: &Descriptor, schema: &Schema) -> Result<Binding, BindFault>
    ensures value { Binds result (binding_of descriptor.now schema.now) }
    ensures bound { IfOk result (IsBoundTo schema.now) }
{
    let fields = descriptor.fields();
    let columns = schema.columns();
    if let Some(field) = first_extra(columns, fields) {
        return Err(BindFault::ExtraField(Text::of(alloc, field.name.text())?));
    }
    if let Some(field) = first_misfit(columns, fields) {
        return Err(BindFault::TypeMismatch(Text::of(alloc, field.name.text())?));
    }
    if let Some(column) = first_missing(columns, fields) {
        return Err(BindFault::MissingRequired(Text::of(alloc, column.name.text())?));
    }
    let columns = bound_columns(alloc, columns, fields)?;
    Ok(Binding { columns })
}

// The first field whose name no column has.
fn first_extra<'a>(columns: &[Column], fields: &'a [DescriptorField]) -> Option<&'a DescriptorField>
    ensures { option_copied result ≡ find (is_extra columns.now) fields.now }
{
    fields
        .iter()
        .find(|field| column_for(columns, field).is_none())
}

// The first field that is repeated, or of a type that its column isn't read from.
fn first_misfit<'a>(
    columns: &[Column],
    fields: &'a [DescriptorField],
) -> Option<&'a DescriptorField>
    ensures { option_copied result ≡ find (is_misfit columns.now) fields.now }
{
    fields.iter().find(|field| is_misfit(columns, field))
}

fn is_misfit(columns: &[Column], field: &DescriptorField) -> bool
    ensures { result ≡ is_misfit columns.now field.now }
{
    match column_for(columns, field) {
        Some(column) => field.is_repeated || !accepts(column.kind, field.field_type),
        None => false,
    }
}

// The first REQUIRED column whose name no field has.
fn first_missing<'a>(columns: &'a [Column], fields: &[DescriptorField]) -> Option<&'a Column>
    ensures { option_copied result ≡ find (is_missing fields.now) columns.now }
{
    columns.iter().find(|column| column.mode == Mode::Required
        && field_for(fields, column).is_none())
}

// The column that has the field's name, without ASCII case.
fn column_for<'a>(columns: &'a [Column], field: &DescriptorField) -> Option<&'a Column>
    ensures { option_copied result ≡ column_for columns.now field.now }
{
    columns.iter().find(|column| column.name.text().eq_ignore_ascii_case(field.name.text()))
}

// The field that has the column's name, without ASCII case.
fn field_for<'a>(fields: &'a [DescriptorField], column: &Column) -> Option<&'a DescriptorField>
    ensures { option_copied result ≡ field_for fields.now column.now }
{
    fields.iter().find(|field| column.name.text().eq_ignore_ascii_case(field.name.text()))
}

// The field that each column is read from.
fn bound_columns(
    alloc: Global,
    columns: &[Column],
    fields: &[DescriptorField],
) -> Result<Vec<BoundColumn>, Memory>
    ensures { IfOk result (λ bound. bound.items ≡ map (bound_column fields.now) columns.now) }
{
    let mut bound = Vec::with_capacity(alloc, columns.len())?;
    for column in columns {
        bound.push(bound_column(fields, column))?;
    }
    Ok(bound)
}

fn bound_column(fields: &[DescriptorField], column: &Column) -> BoundColumn
    ensures { result ≡ bound_column fields.now column.now }
{
    let source = match field_for(fields, column) {
        Some(field) => Some(Source {
            number: field.number,
            field_type: field.field_type,
        }),
        None => None,
    };
    BoundColumn {
        kind: column.kind,
        mode: column.mode,
        source,
    }
}

//! The names of tables.

ghost use Rattle.std.specs.Prelude.{◌≡◌, ◌&&◌, map, IfOk};
ghost use Rattle.resource_names.specs.Reads.{Reads};
ghost use Rattle.resource_names.specs.Table.{table_in, table_name_of, table_text};

use crate::faults::NameFault;
use crate::parts::{MAX_NAME_BYTES, is_named, parts_of};
use outside::{Memory, Text};
use std::alloc::Global;

/// The name of a table: `projects/P/datasets/D/tables/T`.
#[derive(Drop)]
pub struct TableName {
    pub project: Text,
    pub dataset: Text,
    pub table: Text,
}

fn all_of_three(a: bool, b: bool, c: bool) -> bool
    ensures { result ≡ (a && b && c) }
{
    a && b && c
}

/// The table that the words and parts of a text name.
pub(crate) fn table_in(alloc: Global, parts: &[&str]) -> Result<TableName, NameFault>
    ensures { Reads (table_in (map (λ p. p.now) parts.now)) result }
{
    match parts {
        [projects, project, datasets, dataset, tables, table]
            if all_of_three(
                is_named("projects", projects, project),
                is_named("datasets", datasets, dataset),
                is_named("tables", tables, table),
            ) => {
            Ok(TableName {
                project: Text::of(alloc, project)?,
                dataset: Text::of(alloc, dataset)?,
                table: Text::of(alloc, table)?,
            })
        }
        _ => Err(NameFault::BadName),
    }
}

impl TableName {
    /// Reads the name of a table; `BadName` exactly where the text is none.
    pub fn parse(alloc: Global, text: &str) -> Result<TableName, NameFault>
        ensures { Reads (table_name_of text.now) result }
    {
        if text.len() > MAX_NAME_BYTES {
            return Err(NameFault::BadName);
        }
        let parts = parts_of(alloc, text)?;
        table_in(alloc, parts.as_slice())
    }

    /// The text of the name.
    pub fn text(&self, alloc: Global) -> Result<Text, Memory>
        ensures { IfOk result (λ text. text ≡ table_text self.now) }
    {
        let text = format!(in alloc;
            "projects/{}/datasets/{}/tables/{}",
            self.project.text(),
            self.dataset.text(),
            self.table.text(),
        )?;
        Ok(Text::from_string(text))
    }
}

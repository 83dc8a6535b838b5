ghost use Rattle.std.specs.Prelude.{◌≡◌, ◌<◌, ◌^◌, length, IfOk};
ghost use Rattle.write_msgs.specs.Faults.{ReadsAs};
ghost use Rattle.schema_msgs.specs.Schema.{field_by, table_field_schema_of, table_schema_of};
ghost use Rattle.schema_msgs.specs.SchemaBytes.{table_field_schema_bytes, table_schema_bytes};

use crate::field_lists::TableFieldSchemas;
use crate::numbers::{COLUMN_TYPE, FIELD_NAME, FIELDS, MODE, SCHEMA_FIELDS};
use crate::schema_reading::read_fields;
use crate::schema_writing::{put_list, put_own};
use outside::{Blob, Memory, Text};
use proto_fields::{Out, fields};
use std::alloc::Global;
use write_msgs::{MsgFault, both, read_int32, read_text};

/// A field of a schema, which is a column of a table or lies within one.
#[derive(Drop)]
pub struct TableFieldSchema {
    pub name: Text,
    /// The code of its type.
    pub column_type: i32,
    /// The code of its mode.
    pub mode: i32,
    /// The fields within it.
    pub fields: TableFieldSchemas,
}

/// The schema of a table.
#[derive(Drop)]
pub struct TableSchema {
    /// The columns.
    pub fields: TableFieldSchemas,
}

/// A TableFieldSchema.
fn field(alloc: Global, bytes: &[u8]) -> Result<TableFieldSchema, MsgFault>
    requires { length bytes.now < 2 ^ 32 }
    ensures { ReadsAs result (field_by table_field_schema_of bytes.now) }
{
    let found = fields(alloc, bytes)?;
    let name = read_text(alloc, bytes, found.as_slice(), FIELD_NAME);
    let within = read_fields(alloc, bytes, found.as_slice(), FIELDS);
    let (name, within) = both(name, within)?;
    Ok(TableFieldSchema {
        name,
        column_type: read_int32(found.as_slice(), COLUMN_TYPE),
        mode: read_int32(found.as_slice(), MODE),
        fields: within,
    })
}

impl TableFieldSchema {
    /// Reads a message of fewer than 2^32 bytes.
    ///
    /// It is refused where it, or a field at any depth within it, is no message of Protocol Buffers,
    /// and where the name of one isn't UTF-8.
    #[tactic(auto, using(crate::proofs::LevelLemmas::read_by_levels))]
    pub fn decode(alloc: Global, bytes: &[u8]) -> Result<TableFieldSchema, MsgFault>
        requires { length bytes.now < 2 ^ 32 }
        ensures { ReadsAs result (table_field_schema_of bytes.now) }
    {
        field(alloc, bytes)
    }

    /// The message as bytes.
    #[tactic(auto, using(crate::proofs::BytesLemmas::field_joins), unfolding(crate::specs::SchemaBytes::table_field_schema_bytes))]
    pub fn encode(&self, alloc: Global) -> Result<Blob, Memory>
        ensures { IfOk result (λ b. b ≡ table_field_schema_bytes self.now) }
    {
        let mut out = Out::new(alloc);
        put_own(alloc, &mut out, &self.name, self.column_type, self.mode)?;
        put_list(alloc, &mut out, FIELDS, &self.fields)?;
        Ok(out.finish())
    }
}

impl TableSchema {
    /// Reads a message of fewer than 2^32 bytes.
    ///
    /// It is refused where it, or a field at any depth within it, is no message of Protocol Buffers,
    /// and where the name of one isn't UTF-8.
    #[tactic(auto, unfolding(crate::specs::Schema::table_schema_of))]
    pub fn decode(alloc: Global, bytes: &[u8]) -> Result<TableSchema, MsgFault>
        requires { length bytes.now < 2 ^ 32 }
        ensures { ReadsAs result (table_schema_of bytes.now) }
    {
        let found = fields(alloc, bytes)?;
        let columns = read_fields(alloc, bytes, found.as_slice(), SCHEMA_FIELDS)?;
        Ok(TableSchema { fields: columns })
    }

    /// The message as bytes.
    #[tactic(auto, unfolding(crate::specs::SchemaBytes::table_schema_bytes))]
    pub fn encode(&self, alloc: Global) -> Result<Blob, Memory>
        ensures { IfOk result (λ b. b ≡ table_schema_bytes self.now) }
    {
        let mut out = Out::new(alloc);
        put_list(alloc, &mut out, SCHEMA_FIELDS, &self.fields)?;
        Ok(out.finish())
    }
}

ghost use Rattle.std.specs.Prelude.{◌≡◌, ◌≤◌, ◌<◌, ◌^◌, length, All, IfOk, Ok};
ghost use Rattle.proto_fields.specs.Message.{fields_of};
ghost use Rattle.proto_fields.specs.Spans.{IsWithin, records_in};
ghost use Rattle.write_msgs.specs.Faults.{ReadsAs};
ghost use Rattle.read_msgs.specs.Options.{chosen_in, table_modifiers_of, table_read_options_of};
ghost use Rattle.read_msgs.specs.OptionsBytes.{table_modifiers_bytes, table_read_options_bytes};

use crate::numbers::{ROW_RESTRICTION, SELECTED_FIELDS, SNAPSHOT_TIME};
use crate::reading::{read_texts, read_time, refuse_sample};
use crate::writing::{put_texts, put_time};
use outside::{Blob, Memory, Text};
use proto_fields::{Field, Out, fields};
use std::alloc::Global;
use write_msgs::{MsgFault, Texts, Timestamp, both, put_text, read_text};

/// Which state of the table is read.
#[derive(Drop)]
pub struct TableModifiers {
    /// The moment whose rows are read, where the message gives one.
    pub snapshot_time: Option<Timestamp>,
}

impl TableModifiers {
    /// Reads a message of fewer than 2^32 bytes.
    ///
    /// It is refused where it, or the Timestamp within it, is no message of Protocol Buffers.
    #[tactic(auto, unfolding(crate::specs::Options::table_modifiers_of))]
    pub fn decode(alloc: Global, bytes: &[u8]) -> Result<TableModifiers, MsgFault>
        requires { length bytes.now < 2 ^ 32 }
        ensures { ReadsAs result (table_modifiers_of bytes.now) }
    {
        let found = fields(alloc, bytes)?;
        let snapshot_time = read_time(alloc, bytes, found.as_slice(), SNAPSHOT_TIME)?;
        Ok(TableModifiers { snapshot_time })
    }

    /// The message as bytes.
    #[tactic(auto, unfolding(crate::specs::OptionsBytes::table_modifiers_bytes))]
    pub fn encode(&self, alloc: Global) -> Result<Blob, Memory>
        ensures { IfOk result (λ b. b ≡ table_modifiers_bytes self.now) }
    {
        let mut out = Out::new(alloc);
        put_time(alloc, &mut out, SNAPSHOT_TIME, &self.snapshot_time)?;
        Ok(out.finish())
    }
}

/// Which columns and rows of the table are read.
#[derive(Drop)]
pub struct TableReadOptions {
    /// The names of the columns; none stands for all columns.
    pub selected_fields: Texts,
    /// The restriction that a row meets; an empty one is met by each row.
    pub row_restriction: Text,
}

/// The names of the columns, and the restriction.
fn read_chosen(alloc: Global, bytes: &[u8], found: &[Field]) -> Result<(Texts, Text), MsgFault>
    requires small { length bytes.now < 2 ^ 32 }
    requires message { fields_of bytes.now ≡ Ok (records_in bytes.now found.now) }
    requires within { All (IsWithin (length bytes.now)) found.now }
    ensures { ReadsAs result (chosen_in bytes.now (records_in bytes.now found.now)) }
{
    let selected = read_texts(alloc, bytes, found, SELECTED_FIELDS);
    both(selected, read_text(alloc, bytes, found, ROW_RESTRICTION))
}

impl TableReadOptions {
    /// Reads a message of fewer than 2^32 bytes.
    ///
    /// It is refused where it is no message of Protocol Buffers, where it asks for a sample of the
    /// table (field 5), and where a text of it isn't UTF-8.
    #[tactic(auto, unfolding(crate::specs::Options::table_read_options_of))]
    pub fn decode(alloc: Global, bytes: &[u8]) -> Result<TableReadOptions, MsgFault>
        requires { length bytes.now < 2 ^ 32 }
        ensures { ReadsAs result (table_read_options_of bytes.now) }
    {
        let found = fields(alloc, bytes)?;
        let chosen = read_chosen(alloc, bytes, found.as_slice());
        let ((selected_fields, row_restriction), ()) = both(
            chosen,
            refuse_sample(found.as_slice()),
        )?;
        Ok(TableReadOptions {
            selected_fields,
            row_restriction,
        })
    }

    /// The message as bytes.
    #[tactic(auto, using(crate::proofs::FieldLemmas::parts_join), unfolding(crate::specs::OptionsBytes::table_read_options_bytes))]
    pub fn encode(&self, alloc: Global) -> Result<Blob, Memory>
        ensures { IfOk result (λ b. b ≡ table_read_options_bytes self.now) }
    {
        let mut out = Out::new(alloc);
        put_texts(
            alloc,
            &mut out,
            SELECTED_FIELDS,
            self.selected_fields.texts(),
        )?;
        put_text(alloc, &mut out, ROW_RESTRICTION, &self.row_restriction)?;
        Ok(out.finish())
    }
}

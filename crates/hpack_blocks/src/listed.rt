ghost use Rattle.std.specs.Prelude.{◌≡◌, [], OnOk, IfOk};
ghost use Rattle.hpack_blocks.specs.Answers.{IsListed, Grows, counted};
ghost use Rattle.hpack_blocks.specs.Table.{size_of};
ghost use Rattle.hpack_blocks.specs.Texts.{field_in};

use crate::fields::Field;
use crate::sizes::octets_size;
use crate::strings::Text;
use outside::{Blob, Memory};
use std::alloc::Global;

/// A field that was read, before its octets are copied.
#[derive(Drop)]
pub struct FieldText<'a> {
    pub name: Text<'a>,
    pub value: Text<'a>,
}

impl FieldText<'_> {
    /// What it counts.
    fn size(&self) -> u64
        ensures { result ≡ counted (size_of (field_in self.now)) }
    {
        octets_size(self.name.bytes(), self.value.bytes())
    }

    /// A copy of the field.
    fn copied(&self, alloc: Global) -> Result<Field, Memory>
        ensures { IfOk result (λ f. f ≡ field_in self.now) }
    {
        let name = Blob::of(alloc, self.name.bytes())?;
        let value = Blob::of(alloc, self.value.bytes())?;
        Ok(Field { name, value })
    }

    /// The field; octets that stand elsewhere are copied.
    pub fn into_field(self, alloc: Global) -> Result<Field, Memory>
        ensures { IfOk result (λ f. f ≡ field_in self.entry) }
    {
        let name = self.name.into_blob(alloc)?;
        let value = self.value.into_blob(alloc)?;
        Ok(Field { name, value })
    }
}

/// The largest list of fields, in the sizes of its entries.
pub const MAX_LIST_SIZE: u64 = 16_384;

/// Fields of a usual request.
const USUAL_FIELDS: usize = 16;

/// A list of fields that is being read, and its size. Past [`MAX_LIST_SIZE`] it keeps the size alone.
#[derive(Drop)]
pub struct Listed {
    pub fields: Vec<Field>,
    pub size: u64,
}

impl Listed {
    /// No field yet, with room for the fields of a usual request.
    pub fn new(alloc: Global) -> Result<Listed, Memory>
        ensures { IfOk result (λ l. IsListed l []) }
    {
        Ok(Listed {
            fields: Vec::with_capacity(alloc, USUAL_FIELDS)?,
            size: 0,
        })
    }

    /// Adds a field. It is copied only where it is kept.
    pub fn push(&mut self, alloc: Global, field: FieldText<'_>) -> Result<(), Memory>
        ensures { OnOk result (Grows self.old self.new (field_in field.entry)) }
    {
        self.size = self.size.saturating_add(field.size());
        if self.size <= MAX_LIST_SIZE {
            self.fields.push(field.into_field(alloc)?)?;
        } else {
            self.fields.clear();
        }
        Ok(())
    }

    /// Adds a copy of a field, which is made only where it is kept.
    pub fn push_copy(&mut self, alloc: Global, field: &FieldText<'_>) -> Result<(), Memory>
        ensures { OnOk result (Grows self.old self.new (field_in field.now)) }
    {
        self.size = self.size.saturating_add(field.size());
        if self.size <= MAX_LIST_SIZE {
            self.fields.push(field.copied(alloc)?)?;
        } else {
            self.fields.clear();
        }
        Ok(())
    }
}

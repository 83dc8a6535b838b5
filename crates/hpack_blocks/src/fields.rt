ghost use Rattle.std.specs.Prelude.{◌≡◌};

use outside::Blob;
use std::marker::Model;

/// A header field.
#[derive(Drop)]
pub struct Field {
    /// Its name, in octets.
    pub name: Blob,
    /// Its value, in octets.
    pub value: Blob,
}

/// A list of header fields, in their order. Contracts see the list.
#[derive(Drop)]
pub struct FieldList {
    fields: Vec<Field>,
}

impl Model for FieldList {
    ghost use Rattle.std.specs.Prelude.{List};
    ghost use Rattle.hpack_blocks.specs.declared.fields.Field.{Field};

    ghost Value = { List Field };

    ghost view = { λ l. l.fields.items };
}

impl FieldList {
    /// The list of a vector's fields, without a copy.
    pub fn from_vec(fields: Vec<Field>) -> FieldList
        ensures { result ≡ fields.items }
    {
        FieldList { fields }
    }

    /// The fields.
    pub fn fields(&self) -> &[Field]
        ensures { result.now ≡ self.now }
    {
        self.fields.as_slice()
    }

    /// The fields as a vector, without a copy.
    pub fn into_vec(self) -> Vec<Field>
        ensures { result.items ≡ self }
    {
        self.fields
    }
}

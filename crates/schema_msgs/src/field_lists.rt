ghost use Rattle.std.specs.Prelude.{◌≡◌};
ghost use Rattle.schema_msgs.specs.Outline.{IsOutline, outline};

use crate::nested_fields::NestedField;
use std::alloc::Global;
use std::marker::Model;

/// The fields of a schema, with the fields within them, that a value owns. Contracts see a list of
/// fields, each with the list of the fields within it.
///
/// They are kept in one vector, each in front of the fields within it, so that neither a copy nor a
/// drop goes as deep as fields nest.
#[derive(Drop)]
pub struct TableFieldSchemas {
    nested: Vec<NestedField>,
}

impl Model for TableFieldSchemas {
    ghost use Rattle.schema_msgs.specs.Fields.{Fields};
    ghost use Rattle.schema_msgs.specs.Outline.{IsOutline, fields_at};
    ghost use Rattle.schema_msgs.specs.OutlineCode.{coded_fields};

    ghost Value = { Fields };

    ghost coded = { coded_fields };

    ghost view = { λ f. fields_at 0 f.nested.items };

    ghost invariant = { λ f. IsOutline f.nested.items };
}

impl TableFieldSchemas {
    ghost use Rattle.schema_msgs.specs.Fields.{NoFields};

    /// No fields.
    pub fn none(alloc: Global) -> TableFieldSchemas
        ensures { result ≡ NoFields }
    {
        TableFieldSchemas {
            nested: Vec::new(alloc),
        }
    }

    /// The fields of a vector, without a copy.
    ///
    /// Each stands in front of the fields within it: the first has depth 0, and no field is more than
    /// one deeper than the one before it.
    pub fn from_vec(nested: Vec<NestedField>) -> TableFieldSchemas
        requires { IsOutline nested.items }
        ensures { outline 0 result ≡ nested.items }
    {
        TableFieldSchemas { nested }
    }

    /// The fields, each in front of the fields within it.
    pub fn nested(&self) -> &[NestedField]
        ensures { result.now ≡ outline 0 self.now }
    {
        self.nested.as_slice()
    }

    /// The fields as a vector, each in front of the fields within it, without a copy.
    pub fn into_vec(self) -> Vec<NestedField>
        ensures { result.items ≡ outline 0 self }
    {
        self.nested
    }
}

//! Whether the fields of a descriptor differ.

ghost use Rattle.std.specs.Prelude.{◌≡◌, IfOk};
ghost use Rattle.row_descriptor.specs.Distinct.{are_distinct};
ghost use Rattle.row_descriptor.specs.Descriptor.{is_same_number, is_same_field_name};

use crate::field::DescriptorField;
use outside::Memory;
use std::alloc::Global;
use std::collections::BTreeSet;

/// Whether no two fields have one number.
pub fn have_distinct_numbers(alloc: Global, fields: &[DescriptorField]) -> Result<bool, Memory>
    ensures { IfOk result (λ yes. yes ≡ are_distinct is_same_number fields.now) }
{
    let mut seen = BTreeSet::new(alloc);
    for field in fields {
        if !seen.insert(field.number)? {
            return Ok(false);
        }
    }
    Ok(true)
}

/// Whether no two fields have one name, without ASCII case.
pub fn have_distinct_names(alloc: Global, fields: &[DescriptorField]) -> Result<bool, Memory>
    ensures { IfOk result (λ yes. yes ≡ are_distinct is_same_field_name fields.now) }
{
    let mut seen = BTreeSet::new(alloc);
    for field in fields {
        let mut name = String::from_str(alloc, field.name.text())?;
        name.make_ascii_lowercase();
        if !seen.insert(name)? {
            return Ok(false);
        }
    }
    Ok(true)
}

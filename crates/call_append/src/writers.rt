//! Writer schemas.

ghost use Rattle.std.specs.Prelude.{◌≡◌, ◌<◌, ◌^◌, length, IfOk, Some};
ghost use Rattle.row_descriptor.specs.Binding.{IsBoundTo};
ghost use Rattle.call_append.specs.Writer.{writer_of, writer_by};

use column_types::Schema;
use outside::Memory;
use row_descriptor::{BindFault, Binding, Descriptor, DescriptorFault, bind};
use std::alloc::Global;
use table_model::Why;

/// How rows are read by the writer schema of a call, or the cause for which none can be read.
pub type Writer = Result<Binding, Why>;

/// The writer schema whose descriptor has these bytes, of which there are fewer than 2^32, over the columns of a
/// table. The causes are BadDescriptor, and those of [`BindFault`] in their order.
pub fn bind_writer(alloc: Global, schema: &Schema, descriptor: &[u8]) -> Result<Writer, Memory>
    requires { length descriptor.now < 2 ^ 32 }
    ensures value { IfOk result (λ writer. writer ≡ writer_of schema.now descriptor.now) }
    ensures bound { IfOk result (λ writer. IfOk writer (IsBoundTo schema.now)) }
{
    match Descriptor::parse(alloc, descriptor) {
        Ok(descriptor) => bind_fields(alloc, schema, &descriptor),
        Err(DescriptorFault::BadDescriptor) => Ok(Err(Why::BadDescriptor)),
        Err(DescriptorFault::Memory) => Err(Memory),
    }
}

/// The writer schema with these fields.
fn bind_fields(alloc: Global, schema: &Schema, descriptor: &Descriptor) -> Result<Writer, Memory>
    ensures value { IfOk result (λ writer. writer ≡ writer_by schema.now (Some descriptor.now)) }
    ensures bound { IfOk result (λ writer. IfOk writer (IsBoundTo schema.now)) }
{
    match bind(alloc, descriptor, schema) {
        Ok(binding) => Ok(Ok(binding)),
        Err(BindFault::ExtraField(name)) => Ok(Err(Why::ExtraField { name })),
        Err(BindFault::TypeMismatch(name)) => Ok(Err(Why::TypeMismatch { name })),
        Err(BindFault::MissingRequired(name)) => Ok(Err(Why::MissingRequired { name })),
        Err(BindFault::Memory) => Err(Memory),
    }
}

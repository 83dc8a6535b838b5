//! Descriptors as protoc writes them: a message `R` with a field `id` of type int64, and what differs from it.

ghost use Rattle.std.specs.Prelude.{◌<◌, ◌^◌, length};

use column_types::{Column, Kind, Mode, Schema};
use outside::Text;
use row_descriptor::{BindFault, Descriptor, DescriptorFault, FieldType, Source, bind};
use std::alloc::Global;
use std::test::Fail;

/// `R` with one field: `id`, number 1, LABEL_REQUIRED, TYPE_INT64.
const ROW: [u8; 15] = [
    0x0a, 0x01, 0x52, 0x12, 0x0a, 0x0a, 0x02, 0x69, 0x64, 0x18, 0x01, 0x20, 0x02, 0x28, 0x03,
];

/// The table of the columns `id`, INT64 and REQUIRED, and `tag`, STRING.
fn table(alloc: Global) -> Result<Schema, Fail> {
    let id = Column {
        name: Text::of(alloc, "id")?,
        kind: Kind::Int64,
        mode: Mode::Required,
    };
    let tag = Column {
        name: Text::of(alloc, "tag")?,
        kind: Kind::Str,
        mode: Mode::Nullable,
    };
    Ok(Schema::of(alloc, vec![in alloc; id, tag]?)?)
}

/// The first letter of the refusal's name, and the name that it carries.
fn refusal(alloc: Global, bytes: &[u8]) -> Result<(char, Text), Fail>
    requires { length bytes.now < 2 ^ 32 }
{
    let descriptor = Descriptor::parse(alloc, bytes)?;
    match bind(alloc, &descriptor, &table(alloc)?) {
        Ok(_) => Err("bound".into()),
        Err(BindFault::Memory) => Err("out of memory".into()),
        Err(BindFault::ExtraField(name)) => Ok(('E', name)),
        Err(BindFault::TypeMismatch(name)) => Ok(('T', name)),
        Err(BindFault::MissingRequired(name)) => Ok(('M', name)),
    }
}

/// `R` with another byte at this place.
fn changed(at: usize, byte: u8) -> [u8; 15]
    requires { at < 15 }
{
    let mut bytes = ROW;
    bytes[at] = byte;
    bytes
}

#[test]
fn binds_a_field_by_its_name(rt: HostRuntime) -> Result<(), Fail> {
    let descriptor = Descriptor::parse(rt.alloc(), &changed(7, b'I'))?;
    assert_eq!(rt; descriptor.fields().len(), 1);
    let Ok(binding) = bind(rt.alloc(), &descriptor, &table(rt.alloc())?) else {
        return Err("it fits".into());
    };
    let id = Source {
        number: 1,
        field_type: FieldType::Int64,
    };
    let columns = binding.columns();
    assert_eq!(rt; columns.len(), 2);
    assert_eq!(rt; columns[0].source, Some(id));
    assert_eq!(rt; columns[1].source, None);
    Ok(())
}

#[test]
fn refuses_a_field_of_another_type(rt: HostRuntime) -> Result<(), Fail> {
    let (kind, name) = refusal(rt.alloc(), &changed(14, 9))?;
    assert_eq!(rt; (kind, name.text()), ('T', "id"));
    let (kind, _) = refusal(rt.alloc(), &changed(12, 3))?;
    assert_eq!(rt; kind, 'T', "a repeated field");
    Ok(())
}

#[test]
fn refuses_a_field_of_another_name(rt: HostRuntime) -> Result<(), Fail> {
    let (kind, name) = refusal(rt.alloc(), &changed(8, b'x'))?;
    assert_eq!(rt; (kind, name.text()), ('E', "ix"));
    Ok(())
}

/// A message with the field `TAG` alone.
const TAG: [u8; 11] = [
    0x12, 0x09, 0x0a, 0x03, b'T', b'A', b'G', 0x18, 0x01, 0x28, 0x09,
];

#[test]
fn refuses_a_message_without_a_required_field(rt: HostRuntime) -> Result<(), Fail> {
    let (kind, name) = refusal(rt.alloc(), &TAG)?;
    assert_eq!(rt; (kind, name.text()), ('M', "id"));
    Ok(())
}

/// The fields `a` and `A`.
const TWICE: [u8; 18] = [
    0x12, 0x07, 0x0a, 0x01, b'a', 0x18, 0x01, 0x28, 0x03, 0x12, 0x07, 0x0a, 0x01, b'A', 0x18, 0x02,
    0x28, 0x03,
];

/// Why bytes are no descriptor.
fn fault(alloc: Global, bytes: &[u8]) -> Option<DescriptorFault>
    requires { length bytes.now < 2 ^ 32 }
{
    Descriptor::parse(alloc, bytes).err()
}

#[test]
fn refuses_bad_descriptors(rt: HostRuntime) {
    let alloc = rt.alloc();
    let bad = Some(DescriptorFault::BadDescriptor);
    assert_eq!(rt; fault(alloc, &ROW[..14]), bad, "the field is cut short");
    assert_eq!(rt; fault(alloc, &ROW[..3]), bad, "there is no field");
    assert_eq!(rt; fault(alloc, &ROW[1..]), bad, "no message");
    assert_eq!(rt; fault(alloc, &TWICE), bad, "one name twice");
}

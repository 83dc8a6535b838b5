ghost use Rattle.std.specs.Prelude.{◌≡◌, ◌++◌, ◌&&◌, ◌^◌, ◌<◌, All, OnOk, IfOk, IfSome, length};
ghost use Rattle.std.specs.Option.{ForSome};
ghost use Rattle.std.specs.Str.{bytes_eq};
ghost use Rattle.hpack_blocks.specs.Spelling.{Fits, BlockReadsBack, block_spelling, field_spelling, literal_spelling, string_spelling, place_of_field, place_of_name};

use crate::fields::Field;
use crate::static_table::{STATIC_LEN, static_entry};
use hpack_codes::write_int;
use outside::{Blob, Memory};
use std::alloc::Global;

/// Octets of a usual block.
const USUAL_LEN: usize = 64;

/// Whether a field has this name and this value.
fn is_field(name: &str, value: &str, field: &Field) -> bool
    ensures { result ≡ (bytes_eq name.now field.now.name && bytes_eq value.now field.now.value) }
{
    name.as_bytes() == field.name.bytes() && value.as_bytes() == field.value.bytes()
}

/// Whether these are the octets of a name.
fn is_name(name: &str, octets: &[u8]) -> bool
    ensures { result ≡ bytes_eq name.now octets.now }
{
    name.as_bytes() == octets
}

/// The place in the static table, from 0, of a field.
fn field_place(field: &Field) -> Option<u32>
    ensures place { result ≡ place_of_field field.now }
    ensures within { IfSome result (λ place. place < 61) }
{
    for place in 0..STATIC_LEN {
        let (name, value) = static_entry(place);
        if is_field(name, value, field) {
            return Some(place as u32);
        }
    }
    None
}

/// The least place in the static table, from 0, of a name.
fn name_place(octets: &[u8]) -> Option<u32>
    ensures place { result ≡ place_of_name octets.now }
    ensures within { IfSome result (λ place. place < 61) }
{
    for place in 0..STATIC_LEN {
        let (name, _) = static_entry(place);
        if is_name(name, octets) {
            return Some(place as u32);
        }
    }
    None
}

/// Adds a string as it stands.
#[tactic(auto, unfolding(crate::specs::Spelling::string_spelling))]
fn write_string(alloc: Global, out: &mut Vec<u8>, octets: &[u8]) -> Result<(), Memory>
    requires { length octets.now < 2 ^ 32 }
    ensures { OnOk result (out.new.items ≡ out.old.items ++ string_spelling octets.now) }
{
    write_int(alloc, out, 0, 7, octets.len() as u32)?;
    out.extend_from_slice(octets)?;
    Ok(())
}

/// Adds a literal without indexing.
#[tactic(auto, unfolding(crate::specs::Spelling::literal_spelling))]
fn write_literal(
    alloc: Global,
    out: &mut Vec<u8>,
    place: Option<u32>,
    field: &Field,
) -> Result<(), Memory>
    requires place { ForSome place (λ p. p < 61) }
    requires fits { Fits field.now }
    ensures { OnOk result (out.new.items ≡ out.old.items ++ literal_spelling place field.now) }
{
    match place {
        Some(place) => write_int(alloc, out, 0, 4, place + 1)?,
        None => {
            write_int(alloc, out, 0, 4, 0)?;
            write_string(alloc, out, field.name.bytes())?;
        }
    }
    write_string(alloc, out, field.value.bytes())
}

/// Adds a field.
#[tactic(auto, unfolding(crate::specs::Spelling::field_spelling, crate::specs::Spelling::spelling_at))]
fn write_field(alloc: Global, out: &mut Vec<u8>, field: &Field) -> Result<(), Memory>
    requires { Fits field.now }
    ensures { OnOk result (out.new.items ≡ out.old.items ++ field_spelling field.now) }
{
    match field_place(field) {
        Some(place) => write_int(alloc, out, 128, 7, place + 1),
        None => {
            let place = name_place(field.name.bytes());
            write_literal(alloc, out, place, field)
        }
    }
}

/// The header block of these fields.
///
/// A field that equals an entry of the static table is written as its index; another as a literal
/// without indexing, with the least static index of its name where there is one, and strings as
/// they stand. The first block of a connection sets the dynamic table to 0 before. Each name and
/// each value is shorter than 2^32 octets.
pub fn write_block(alloc: Global, fields: &[Field], first: bool) -> Result<Blob, Memory>
    requires { All Fits fields.now }
    ensures spelled { IfOk result (λ b. b ≡ block_spelling first fields.now) }
    // Whatever the table of the other side is, it reads these fields.
    ensures reads_back { IfOk result (λ b. BlockReadsBack first fields.now b) }
{
    spelled_block(alloc, fields, first)
}

/// Writes field after field.
fn spelled_block(alloc: Global, fields: &[Field], first: bool) -> Result<Blob, Memory>
    requires { All Fits fields.now }
    ensures { IfOk result (λ b. b ≡ block_spelling first fields.now) }
{
    let mut out = Vec::with_capacity(alloc, USUAL_LEN)?;
    if first {
        out.push(0x20)?;
    }
    for field in fields {
        write_field(alloc, &mut out, field)?;
    }
    Ok(Blob::from_vec(out))
}

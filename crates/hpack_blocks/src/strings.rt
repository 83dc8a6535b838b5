ghost use Rattle.std.specs.Prelude.{◌≡◌, ◌+◌, ◌<◌, ◌≤◌, length, IfOk};
ghost use Rattle.hpack_blocks.specs.Answers.{Gives};
ghost use Rattle.hpack_blocks.specs.Reading.{number_at, octets_of, string_at};
ghost use Rattle.hpack_blocks.specs.Texts.{octets_in};

use crate::faults::BlockFault;
use hpack_codes::{HuffFault, huffman_decode, read_int};
use outside::{Blob, Memory};
use std::alloc::Global;

/// The octets of a name or a value that was read.
#[derive(Drop)]
pub enum Text<'a> {
    /// They stand in the block or in an entry of a table.
    InPlace(&'a [u8]),
    /// They were spelled in the Huffman code.
    Decoded(Blob),
}

impl Text<'_> {
    /// The octets.
    pub fn bytes(&self) -> &[u8]
        ensures { result.now ≡ octets_in self.now }
    {
        match self {
            Text::InPlace(octets) => octets,
            Text::Decoded(octets) => octets.bytes(),
        }
    }

    /// The octets as a blob; those that stand elsewhere are copied.
    pub fn into_blob(self, alloc: Global) -> Result<Blob, Memory>
        ensures { IfOk result (λ b. b ≡ octets_in self.entry) }
    {
        match self {
            Text::InPlace(octets) => Blob::of(alloc, octets),
            Text::Decoded(octets) => Ok(octets),
        }
    }
}

/// The integer at the head of the bytes, and the number of its bytes (RFC 7541, section 5.1).
pub fn read_number(bytes: &[u8], prefix: u32) -> Result<(u32, usize), BlockFault>
    requires some { 1 ≤ prefix }
    requires most { prefix ≤ 8 }
    ensures reads { Gives (λ x. x) result (number_at prefix bytes.now) }
    ensures within { IfOk result (λ x. (1 ≤ x.1) × (x.1 ≤ length bytes.now)) }
{
    match read_int(bytes, 0, prefix) {
        Ok(number) => Ok(number),
        Err(_) => Err(BlockFault::BadBlock),
    }
}

/// The octets of a string whose first octet this is: as they stand, or in the Huffman code.
fn read_octets(alloc: Global, first: u8, payload: &[u8]) -> Result<Text<'_>, BlockFault>
    ensures { Gives octets_in result (octets_of first payload.now) }
{
    if first < 128 {
        return Ok(Text::InPlace(payload));
    }
    match huffman_decode(alloc, payload) {
        Ok(octets) => Ok(Text::Decoded(octets)),
        Err(HuffFault::Memory) => Err(BlockFault::Memory),
        Err(HuffFault::Eos) => Err(BlockFault::BadBlock),
        Err(HuffFault::BadPadding) => Err(BlockFault::BadBlock),
    }
}

/// The string at the head of the bytes, and the number of its bytes (RFC 7541, section 5.2).
#[tactic(auto, unfolding(crate::specs::Reading::string_at))]
pub fn read_string(alloc: Global, bytes: &[u8]) -> Result<(Text<'_>, usize), BlockFault>
    ensures reads { Gives (λ x. (octets_in x.0, x.1)) result (string_at bytes.now) }
    ensures within { IfOk result (λ x. (1 ≤ x.1) × (x.1 ≤ length bytes.now)) }
{
    let (len, start) = read_number(bytes, 7)?;
    let len = len as usize;
    let rest = &bytes[start..];
    if rest.len() < len {
        return Err(BlockFault::BadBlock);
    }
    let octets = read_octets(alloc, bytes[0], &rest[..len])?;
    Ok((octets, start + len))
}

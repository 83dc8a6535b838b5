ghost use Rattle.std.specs.Prelude.{◌≡◌, ◌+◌, ◌<◌, ◌≤◌, ◌^◌, ◌*◌, ℕ, List, Ok, IfOk, length};
ghost use Rattle.hpack_codes.specs.Lengths.{lengths};
ghost use Rattle.hpack_codes.specs.Code.{first_code, symbols_of};
ghost use Rattle.hpack_codes.specs.Huffman.{IsHuffman, Gives, huffman_of, code_bits};

use crate::faults::HuffFault;
use crate::reader::{BitReader, Code};
use crate::tables::code_len;
use outside::Blob;
use std::alloc::Global;

/// The octets that a Huffman string spells (RFC 7541, section 5.2).
///
/// `Eos` comes exactly where the code of EOS stands in it, `BadPadding` where what is left after the
/// last whole code is longer than seven bits or isn't all ones.
pub fn huffman_decode(alloc: Global, bytes: &[u8]) -> Result<Blob, HuffFault>
    // What is read is spelled so.
    ensures found { IfOk result (λ b. IsHuffman bytes.now b) }
    // What is spelled so is read, unless memory runs out.
    ensures only { (octets : List ℕ) → IsHuffman bytes.now octets → Gives result (Ok octets) }
    // Which fault it is.
    ensures exact { Gives result (huffman_of bytes.now) }
{
    decoded(alloc, bytes)
}

/// Reads code after code.
fn decoded(alloc: Global, bytes: &[u8]) -> Result<Blob, HuffFault>
    ensures { Gives result (huffman_of bytes.now) }
{
    // The shortest code has five bits.
    let mut octets = Vec::with_capacity(alloc, bytes.len().saturating_mul(8) / 5)?;
    let mut reader = BitReader::new();
    loop {
        match reader.next(bytes) {
            Code::Octet(octet) => octets.push(octet)?,
            Code::Eos => return Err(HuffFault::Eos),
            Code::Padding => return Ok(Blob::from_vec(octets)),
            Code::BadPadding => return Err(HuffFault::BadPadding),
        }
    }
}

/// How many bits the codes of these octets have, without padding. There are fewer than 2^32 octets.
pub fn huffman_len(bytes: &[u8]) -> u64
    requires { length bytes.now < 2 ^ 32 }
    ensures { result ≡ code_bits bytes.now }
{
    let mut bits = 0u64;
    for octet in bytes {
        bits += u64::from(code_len(*octet));
    }
    bits
}

/// A law of the code: it has 257 symbols, and it is complete, that is, the codes of the longest
/// length end where all their bits are ones. Codes are handed out so that none begins another.
pub fn code_is_complete()
    ensures symbols { length lengths ≡ 257 }
    ensures complete { first_code 30 + length (symbols_of 30) ≡ 2 ^ 30 }
{}

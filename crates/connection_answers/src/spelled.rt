//! Bytes as hexadecimal digits.

ghost use Rattle.std.specs.Prelude.{◌≡◌, IfOk, string_bytes, vec_len};
ghost use Rattle.connection_answers.specs.Spelled.{shown};

use crate::stop::Stop;
use hex::FromHexError;
use outside::Blob;
use std::alloc::{AllocError, Global};

/// Two digits a byte, and `-` for no byte.
pub(crate) fn shown(alloc: Global, bytes: &[u8]) -> Result<String, AllocError>
    ensures { IfOk result (λ text. string_bytes text ≡ shown bytes.now) }
{
    if bytes.is_empty() {
        return String::from_str(alloc, "-");
    }
    hex::encode(alloc, bytes)
}

/// The bytes that digits spell; blanks between them are passed over. None where they spell none.
pub(crate) fn bytes_of(alloc: Global, text: &str) -> Result<Option<Blob>, Stop> {
    let mut digits = String::new(alloc);
    for part in text.split(' ') {
        digits.push_str(part)?;
    }
    match hex::decode(alloc, digits.as_str()) {
        Ok(bytes) => Ok(Some(Blob::from_vec(bytes))),
        Err(FromHexError::OutOfMemory) => Err(Stop::Memory),
        Err(_) => Ok(None),
    }
}

ghost use Rattle.std.specs.Prelude.{◌≡◌, ◌<◌, ◌^◌, length, IfOk};
ghost use Rattle.write_msgs.specs.Faults.{ReadsAs};
ghost use Rattle.write_msgs.specs.CommitParts.{timestamp_of, storage_error_of};
ghost use Rattle.write_msgs.specs.CommitPartsBytes.{timestamp_bytes, storage_error_bytes};

use crate::faults::{MsgFault, both};
use crate::numbers::{ENTITY, ERROR_MESSAGE, NANOS, SECONDS, STORAGE_CODE};
use crate::reading::{read_int32, read_int64, read_text};
use crate::writing::{put_int, put_text};
use outside::{Blob, Memory, Text};
use proto_fields::{Out, fields};
use std::alloc::Global;
use std::marker::Model;

/// A moment: `google.protobuf.Timestamp`.
#[derive(Drop)]
pub struct Timestamp {
    /// Seconds since 1970-01-01T00:00:00Z.
    pub seconds: i64,
    /// Nanoseconds of the second.
    pub nanos: i32,
}

impl Timestamp {
    /// Reads a message of fewer than 2^32 bytes.
    ///
    /// It is refused where it is no message of Protocol Buffers.
    #[tactic(auto, unfolding(crate::specs::CommitParts::timestamp_of))]
    pub fn decode(alloc: Global, bytes: &[u8]) -> Result<Timestamp, MsgFault>
        requires { length bytes.now < 2 ^ 32 }
        ensures { ReadsAs result (timestamp_of bytes.now) }
    {
        let found = fields(alloc, bytes)?;
        Ok(Timestamp {
            seconds: read_int64(found.as_slice(), SECONDS),
            nanos: read_int32(found.as_slice(), NANOS),
        })
    }

    /// The message as bytes.
    #[tactic(auto, using(crate::proofs::WritingLemmas::message_joins), unfolding(crate::specs::CommitPartsBytes::timestamp_bytes))]
    pub fn encode(&self, alloc: Global) -> Result<Blob, Memory>
        ensures { IfOk result (λ b. b ≡ timestamp_bytes self.now) }
    {
        let mut out = Out::new(alloc);
        put_int(alloc, &mut out, SECONDS, self.seconds)?;
        put_int(alloc, &mut out, NANOS, self.nanos as i64)?;
        Ok(out.finish())
    }
}

/// Why a write stream can't be committed.
#[derive(Drop)]
pub struct StorageError {
    pub code: i32,
    /// The name of the write stream.
    pub entity: Text,
    pub error_message: Text,
}

impl StorageError {
    /// Reads a message of fewer than 2^32 bytes.
    ///
    /// It is refused where it is no message of Protocol Buffers, and where a text of it isn't UTF-8.
    #[tactic(auto, unfolding(crate::specs::CommitParts::storage_error_of))]
    pub fn decode(alloc: Global, bytes: &[u8]) -> Result<StorageError, MsgFault>
        requires { length bytes.now < 2 ^ 32 }
        ensures { ReadsAs result (storage_error_of bytes.now) }
    {
        let found = fields(alloc, bytes)?;
        let entity = read_text(alloc, bytes, found.as_slice(), ENTITY);
        let error_message = read_text(alloc, bytes, found.as_slice(), ERROR_MESSAGE);
        let (entity, error_message) = both(entity, error_message)?;
        Ok(StorageError {
            code: read_int32(found.as_slice(), STORAGE_CODE),
            entity,
            error_message,
        })
    }

    /// The message as bytes.
    #[tactic(auto, using(crate::proofs::WritingLemmas::message_joins), unfolding(crate::specs::CommitPartsBytes::storage_error_bytes))]
    pub fn encode(&self, alloc: Global) -> Result<Blob, Memory>
        ensures { IfOk result (λ b. b ≡ storage_error_bytes self.now) }
    {
        let mut out = Out::new(alloc);
        put_int(alloc, &mut out, STORAGE_CODE, self.code as i64)?;
        put_text(alloc, &mut out, ENTITY, &self.entity)?;
        put_text(alloc, &mut out, ERROR_MESSAGE, &self.error_message)?;
        Ok(out.finish())
    }
}

/// A list of texts that a value owns. Contracts see the list.
#[derive(Drop)]
pub struct Texts {
    texts: Vec<Text>,
}

impl Model for Texts {
    ghost use Rattle.std.specs.Prelude.{List, ℕ};

    ghost Value = { List (List ℕ) };

    ghost view = { λ r. r.texts.items };
}

impl Texts {
    /// The list of a vector, without a copy.
    pub fn from_vec(texts: Vec<Text>) -> Texts
        ensures { result ≡ texts.items }
    {
        Texts { texts }
    }

    /// The texts.
    pub fn texts(&self) -> &[Text]
        ensures { result.now ≡ self.now }
    {
        self.texts.as_slice()
    }

    /// The texts as a vector, without a copy.
    pub fn into_vec(self) -> Vec<Text>
        ensures { result.items ≡ self }
    {
        self.texts
    }
}

/// A list of storage errors that a value owns. Contracts see the list.
#[derive(Drop)]
pub struct StorageErrors {
    errors: Vec<StorageError>,
}

impl Model for StorageErrors {
    ghost use Rattle.std.specs.Prelude.{List};
    ghost use Rattle.write_msgs.specs.declared.commit_parts.StorageError.{StorageError};

    ghost Value = { List StorageError };

    ghost view = { λ r. r.errors.items };
}

impl StorageErrors {
    /// The list of a vector, without a copy.
    pub fn from_vec(errors: Vec<StorageError>) -> StorageErrors
        ensures { result ≡ errors.items }
    {
        StorageErrors { errors }
    }

    /// The storage errors.
    pub fn errors(&self) -> &[StorageError]
        ensures { result.now ≡ self.now }
    {
        self.errors.as_slice()
    }

    /// The storage errors as a vector, without a copy.
    pub fn into_vec(self) -> Vec<StorageError>
        ensures { result.items ≡ self }
    {
        self.errors
    }
}

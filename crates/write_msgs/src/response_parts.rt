use outside::Text;
use std::marker::Model;

/// What an accepted append was given.
#[derive(Drop)]
pub struct AppendResult {
    /// The offset of the first row, where the write stream has offsets.
    pub offset: Option<i64>,
}

/// An error: `google.rpc.Status`.
#[derive(Drop)]
pub struct Status {
    pub code: i32,
    pub message: Text,
}

/// Why one row was refused.
#[derive(Drop)]
pub struct RowError {
    /// The place of the row in its request, from 0.
    pub index: i64,
    pub code: i32,
    pub message: Text,
}

/// A list of row errors that a value owns. Contracts see the list.
#[derive(Drop)]
pub struct RowErrors {
    errors: Vec<RowError>,
}

impl Model for RowErrors {
    ghost use Rattle.std.specs.Prelude.{List};
    ghost use Rattle.write_msgs.specs.declared.response_parts.RowError.{RowError};

    ghost Value = { List RowError };

    ghost view = { λ r. r.errors.items };
}

impl RowErrors {
    ghost use Rattle.std.specs.Prelude.{◌≡◌};

    /// The list of a vector's row errors, without a copy.
    pub fn from_vec(errors: Vec<RowError>) -> RowErrors
        ensures { result ≡ errors.items }
    {
        RowErrors { errors }
    }

    /// The row errors.
    pub fn errors(&self) -> &[RowError]
        ensures { result.now ≡ self.now }
    {
        self.errors.as_slice()
    }

    /// The row errors as a vector, without a copy.
    pub fn into_vec(self) -> Vec<RowError>
        ensures { result.items ≡ self }
    {
        self.errors
    }
}

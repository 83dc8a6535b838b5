//! One column of a table.

ghost use Rattle.std.specs.Prelude.{◌≡◌};
ghost use Rattle.std.specs.List.{list_all};
ghost use Rattle.column_types.specs.Name.{begins_name as begins, continues_name as continues, is_column_name, is_same_name as is_one_name};

use outside::Text;

/// The bytes of the longest column name.
pub const MAX_NAME_BYTES: usize = 128;

/// What kind of value a column holds, under BigQuery's names.
#[derive(Clone, Copy, Debug, PartialEq, Eq)]
pub enum Kind {
    /// INT64: a signed number of 64 bits.
    Int64,
    /// BOOL.
    Bool,
    /// STRING: UTF-8.
    Str,
    /// BYTES.
    Bytes,
    /// DATE: a day from [`FIRST_DAY`](crate::FIRST_DAY) to [`LAST_DAY`](crate::LAST_DAY).
    Date,
    /// TIMESTAMP: an instant from [`FIRST_INSTANT`](crate::FIRST_INSTANT) to [`LAST_INSTANT`](crate::LAST_INSTANT).
    Timestamp,
}

/// Whether a column may hold NULL.
#[derive(Clone, Copy, Debug, PartialEq, Eq)]
pub enum Mode {
    /// NULLABLE: it may.
    Nullable,
    /// REQUIRED: it may not.
    Required,
}

/// A column: 1 to 128 bytes of ASCII letters, digits and `_` that do not begin with a digit are its name in a
/// schema.
#[derive(Drop)]
pub struct Column {
    pub name: Text,
    pub kind: Kind,
    pub mode: Mode,
}

/// Whether a name is 1 to 128 bytes of ASCII letters, digits and `_`, the first no digit.
pub(crate) fn is_good_name(name: &str) -> bool
    ensures { result ≡ is_column_name name.now }
{
    let Some((first, more)) = name.as_bytes().split_first() else {
        return false;
    };
    let is_name = begins_name(*first) && continue_name(more);
    is_name && name.len() <= MAX_NAME_BYTES
}

fn begins_name(byte: u8) -> bool
    ensures { result ≡ begins byte }
{
    byte.is_ascii_alphabetic() || byte == b'_'
}

fn continue_name(bytes: &[u8]) -> bool
    ensures { result ≡ list_all continues bytes.now }
{
    bytes
        .iter()
        .all(|byte| byte.is_ascii_alphanumeric() || *byte == b'_')
}

/// Whether two names are one, without ASCII case.
pub(crate) fn is_same_name(a: &str, b: &str) -> bool
    ensures { result ≡ is_one_name a.now b.now }
{
    a.eq_ignore_ascii_case(b)
}

//! The words and signs of a restriction.

use column_types::Op;
use outside::Text;

/// How a name is written.
#[derive(Clone, Copy, Debug, PartialEq, Eq)]
pub enum Form {
    /// Bare, and neither `DATE` nor `TIMESTAMP`.
    Plain,
    /// The bare word `DATE`, in any ASCII case. It is a name but where a literal stands.
    Date,
    /// The bare word `TIMESTAMP`, in any ASCII case. It is a name but where a literal stands.
    Timestamp,
    /// In backquotes, which `name` is without.
    Quoted,
}

/// One token.
#[derive(Drop)]
pub enum Token {
    /// A name, which may be that of a column.
    Name { name: Text, form: Form },
    /// An integer of 64 bits.
    Integer(i64),
    /// A string, without its quotes and with its escapes replaced.
    Str(Text),
    /// A comparison: `=`, `!=`, `<>`, `<`, `<=`, `>` or `>=`.
    Compare(Op),
    And,
    Or,
    Not,
    In,
    Is,
    Null,
    True,
    False,
    /// `(`
    Open,
    /// `)`
    Close,
    /// `,`
    Comma,
}

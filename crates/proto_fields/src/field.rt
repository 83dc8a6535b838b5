use outside::Span;

/// One field of a message.
#[derive(Clone, Copy, Debug, PartialEq, Eq)]
pub struct Field {
    /// The field's number, 1 to 536,870,911.
    pub number: u32,
    /// Its value.
    pub value: Value,
}

/// A field's value, as its wire type carries it.
#[derive(Clone, Copy, Debug, PartialEq, Eq)]
pub enum Value {
    /// Wire type 0: the low 64 bits of a varint.
    Varint(u64),
    /// Wire type 1: eight bytes, the lowest first.
    Fixed64(u64),
    /// Wire type 2: where in the message the bytes behind the length lie.
    Len(Span),
    /// Wire type 5: four bytes, the lowest first.
    Fixed32(u32),
}

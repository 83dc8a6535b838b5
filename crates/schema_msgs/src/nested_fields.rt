use outside::Text;

/// A field of a schema where it stands among all fields: each field stands in front of the fields
/// within it.
#[derive(Drop)]
pub struct NestedField {
    /// How many fields it lies within.
    pub depth: u32,
    pub name: Text,
    /// The code of its type.
    pub column_type: i32,
    /// The code of its mode.
    pub mode: i32,
}

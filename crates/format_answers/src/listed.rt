//! What the tests of lists of fields share.

use hpack_blocks::Field;
use std::process::Abort;

/// Checks the names and values of a list.
pub fn assert_fields(rt: &impl Abort, fields: &[Field], want: &[(&str, &str)]) {
    assert_eq!(rt; fields.len(), want.len());
    for (field, (name, value)) in fields.iter().zip(want) {
        assert_eq!(rt;
            (field.name.bytes(), field.value.bytes()),
            (name.as_bytes(), value.as_bytes())
        );
    }
}

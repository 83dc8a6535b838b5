//! What the tests of messages share.

use outside::{Blob, Memory};
use std::process::Abort;
use std::test::Fail;

/// Checks that a message was written as these bytes.
pub fn assert_written(
    rt: &impl Abort,
    written: Result<Blob, Memory>,
    bytes: &[u8],
) -> Result<(), Fail> {
    assert_eq!(rt; written?.bytes(), bytes);
    Ok(())
}

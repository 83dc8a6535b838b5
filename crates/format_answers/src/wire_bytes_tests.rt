//! Each call once, over the front of a SETTINGS frame (RFC 9113 section 4.1).

use std::test::Fail;
use wire_bytes::*;

#[test]
fn fields_are_taken_in_order(rt: HostRuntime) {
    let bytes = [0, 0x40, 1, 4, 0x80, 0, 0, 1, 7, 9];
    let mut cursor = Cursor::new(&bytes);
    assert_eq!(rt; cursor.left(), 10);
    assert_eq!(rt; cursor.take_u24(), Ok(16_385));
    assert_eq!(rt; cursor.take_u8(), Ok(4));
    assert_eq!(rt; cursor.take_u32(), Ok(0x8000_0001));
    assert_eq!(rt; cursor.take_u24(), Err(Short { have: 2, need: 3 }));
    assert_eq!(rt; cursor.take_u32(), Err(Short { have: 2, need: 4 }));
    assert_eq!(rt; cursor.take(3), Err(Short { have: 2, need: 3 }));
    assert_eq!(rt; cursor.take(2), Ok([7, 9].as_slice()));
    assert_eq!(rt; cursor.take_u8(), Err(Short { have: 0, need: 1 }));
}

#[test]
fn fields_are_appended(rt: HostRuntime) -> Result<(), Fail> {
    let mut out = Vec::new(rt.alloc());
    put_u24(&mut out, 0x01_02_03)?;
    put_u32(&mut out, 0x04_05_06_07)?;
    put_u16(&mut out, 0x08_09)?;
    assert_eq!(rt; out.as_slice(), [1, 2, 3, 4, 5, 6, 7, 8, 9].as_slice());
    Ok(())
}

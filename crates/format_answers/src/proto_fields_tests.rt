//! The messages of the Protocol Buffers encoding guide, and one AppendRowsRequest with one row.

use proto_fields::*;
use std::test::Fail;

/// Field 1 is 150, field 2 is `testing`.
const GUIDE: [u8; 12] = [
    0x08, 0x96, 0x01, 0x12, 0x07, 0x74, 0x65, 0x73, 0x74, 0x69, 0x6e, 0x67,
];

/// The rows of an append: field 4 holds field 2, which holds field 1, the row `08 01`.
const APPEND: [u8; 8] = [0x22, 0x06, 0x12, 0x04, 0x0a, 0x02, 0x08, 0x01];

#[test]
fn reads_the_numbers_of_the_guide(rt: HostRuntime) -> Result<(), Fail> {
    let found = fields(rt.alloc(), &GUIDE)?;
    assert_eq!(rt; found.len(), 2);
    assert_eq!(rt; last_varint(&found, 1), Some(150));
    assert_eq!(rt; last_varint(&found, 2), None, "field 2 is no varint");
    assert!(rt; has(&found, 2));
    assert!(rt; !has(&found, 1), "field 1 has no bytes");
    Ok(())
}

#[test]
fn reads_the_text_of_the_guide(rt: HostRuntime) -> Result<(), Fail> {
    let found = fields(rt.alloc(), &GUIDE)?;
    let span = last_bytes(&found, 2).ok_or("field 2 is there")?;
    assert_eq!(rt; (span.start, span.len), (5, 7));
    assert_eq!(rt; part(&GUIDE, span), b"testing".as_slice());
    let all = all_bytes(rt.alloc(), &found, 2)?;
    assert_eq!(rt; all.as_slice(), [span].as_slice());
    Ok(())
}

#[test]
fn finds_the_tags_of_the_guide(rt: HostRuntime) -> Result<(), Fail> {
    fields(rt.alloc(), &GUIDE)?;
    assert_eq!(rt; last_tag(&GUIDE, 2), Some(3));
    assert_eq!(rt; nth_tag(&GUIDE, 2, 0), Some(3));
    Ok(())
}

#[test]
fn reads_the_row_of_an_append(rt: HostRuntime) -> Result<(), Fail> {
    let request = fields(rt.alloc(), &APPEND)?;
    let data = merged(rt.alloc(), &APPEND, &request, 4)?.ok_or("proto_rows")?;
    assert_eq!(rt;
        data.bytes(),
        [0x12, 0x04, 0x0a, 0x02, 0x08, 0x01].as_slice()
    );
    assert!(rt; merged(rt.alloc(), &APPEND, &request, 1)?.is_none());
    Ok(())
}

#[test]
fn refuses_at_the_tag(rt: HostRuntime) {
    assert_eq!(rt;
        fields(rt.alloc(), &GUIDE[..11]).err(),
        Some(FieldFault::BadProto { at: 3 }),
        "the second payload is cut short"
    );
    assert_eq!(rt;
        fields(rt.alloc(), &[0x08, 0x01, 0x0b]).err(),
        Some(FieldFault::BadProto { at: 2 }),
        "a group begins"
    );
}

#[test]
fn writes_the_message_of_the_guide(rt: HostRuntime) -> Result<(), Fail> {
    let mut out = Out::new(rt.alloc());
    out.varint(rt.alloc(), 1, 150)?;
    out.bytes(rt.alloc(), 2, b"testing")?;
    assert_eq!(rt; out.finish().bytes(), GUIDE.as_slice());
    Ok(())
}

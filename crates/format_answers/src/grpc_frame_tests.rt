use grpc_frame::*;
use outside::Memory;
use std::alloc::Global;
use std::test::Fail;

// An append at the offset 0, and a body of this one message.
const APPEND: [u8; 10] = [0x12, 0x00, 0x22, 0x06, 0x12, 0x04, 0x0a, 0x02, 0x08, 0x01];

const BODY: [u8; 15] = [
    0x00, 0x00, 0x00, 0x00, 0x0a, 0x12, 0x00, 0x22, 0x06, 0x12, 0x04, 0x0a, 0x02, 0x08, 0x01,
];

const LIMIT: u32 = 10_485_760;

#[derive(Clone, Copy, Debug, PartialEq)]
enum Seen {
    Append,
    Other,
    More,
    Compressed(u8),
    TooLong(u32),
}

// Feeds a piece: what comes next, and whether the deframer is inside a message then.
fn after(deframer: &mut Deframer, alloc: Global, piece: &[u8]) -> Result<(Seen, bool), Memory> {
    deframer.feed(alloc, piece)?;
    let part = deframer.next(alloc)?;
    Ok((shown(&part), deframer.inside()))
}

fn shown(part: &Part) -> Seen {
    match part {
        Part::Message(message) if message.bytes() == APPEND.as_slice() => Seen::Append,
        Part::Message(_) => Seen::Other,
        Part::More => Seen::More,
        Part::Compressed { flag } => Seen::Compressed(*flag),
        Part::TooLong { len } => Seen::TooLong(*len),
    }
}

#[test]
fn writes_a_message(rt: HostRuntime) -> Result<(), Fail> {
    let framed = frame_message(rt.alloc(), APPEND.as_slice())?;
    assert_eq!(rt; framed.bytes(), BODY.as_slice());
    Ok(())
}

#[test]
fn reads_messages_in_any_pieces(rt: HostRuntime) -> Result<(), Fail> {
    let mut deframer = Deframer::new(rt.alloc(), LIMIT);
    let pieces: [(&[u8], (Seen, bool)); 9] = [
        (&[], (Seen::More, false)),
        (&BODY[..1], (Seen::More, true)),
        (&BODY[1..5], (Seen::More, true)),
        (&BODY[5..14], (Seen::More, true)),
        (&BODY[14..], (Seen::Append, false)),
        (&BODY[..9], (Seen::More, true)),
        (
            &[
                0x12, 0x04, 0x0a, 0x02, 0x08, 0x01, 0x00, 0x00, 0x00, 0x00, 0x00, 0x00, 0x00,
            ],
            (Seen::Append, true),
        ),
        (&[0x00], (Seen::Other, true)),
        (&[0x00, 0x00], (Seen::Other, false)),
    ];
    for (piece, expected) in pieces {
        assert_eq!(rt; after(&mut deframer, rt.alloc(), piece)?, expected);
    }
    Ok(())
}

#[test]
fn answers_a_fault_from_then_on(rt: HostRuntime) -> Result<(), Fail> {
    let bodies: [(&[u8], (Seen, bool)); 4] = [
        (&[0x00, 0x00, 0xa0, 0x00, 0x00], (Seen::More, true)),
        (
            &[0x00, 0x00, 0xa0, 0x00, 0x01],
            (Seen::TooLong(10_485_761), false),
        ),
        (&[0x01], (Seen::Compressed(1), false)),
        (
            &[0xff, 0xff, 0xff, 0xff, 0xff],
            (Seen::Compressed(255), false),
        ),
    ];
    for (body, expected) in bodies {
        let mut deframer = Deframer::new(rt.alloc(), LIMIT);
        let _ = after(&mut deframer, rt.alloc(), body)?;
        assert_eq!(rt;
            after(&mut deframer, rt.alloc(), BODY.as_slice())?,
            expected
        );
    }
    Ok(())
}

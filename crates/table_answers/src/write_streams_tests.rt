//! One stream of each type, call by call.

use std::test::Fail;
use table_model::{
    FinalMove, FlushMove, INVALID_STREAM_TYPE, STREAM_ALREADY_COMMITTED, StreamKind, StreamRef,
};
use write_streams::StreamBook;

const FIRST: StreamRef = StreamRef::Number(1);

#[test]
fn buffered_stream(rt: HostRuntime) -> Result<(), Fail> {
    let mut book = StreamBook::new(rt.alloc());
    let number = book.add(rt.alloc(), StreamKind::Buffered, 7)?;
    assert_eq!(rt; number, 1);
    assert_eq!(rt; book.check_append(&FIRST, Some(0), 5).ok(), Some(0));
    book.append(&FIRST, 5);
    assert_eq!(rt; book.check_append(&FIRST, None, 1).ok(), Some(5));
    let first = FlushMove { from: 0, upto: 3 };
    assert_eq!(rt; book.check_flush(&FIRST, Some(2)).ok(), Some(first));
    book.flush(&FIRST, 3);
    let second = FlushMove { from: 3, upto: 3 };
    assert_eq!(rt; book.check_flush(&FIRST, Some(1)).ok(), Some(second));
    assert_eq!(rt;
        book.check_flush(&FIRST, Some(5))
            .err()
            .map(|refusal| refusal.code),
        Some(11)
    );
    Ok(())
}

#[test]
fn pending_stream(rt: HostRuntime) -> Result<(), Fail> {
    let mut book = StreamBook::new(rt.alloc());
    book.add(rt.alloc(), StreamKind::Pending, 7)?;
    assert_eq!(rt; book.count(), 1);
    book.finalise(&FIRST);
    let end = FinalMove {
        rows: 0,
        already: true,
    };
    assert_eq!(rt; book.check_finalise(&FIRST).ok(), Some(end));
    assert_eq!(rt;
        book.check_append(&FIRST, None, 1)
            .err()
            .map(|refusal| refusal.code),
        Some(9)
    );
    assert_eq!(rt;
        book.facts(&FIRST).ok().and_then(|facts| facts.created),
        Some(7)
    );
    Ok(())
}

// The code of the first error of a commit; 0 where all streams can be committed.
fn first_code(book: &StreamBook, rt: HostRuntime) -> Option<u32> {
    let errors = book
        .commit_check(rt.alloc(), &[FIRST, StreamRef::Default])
        .ok()?;
    Some(errors.get(0)?.code)
}

#[test]
fn commit_of_two(rt: HostRuntime) -> Result<(), Fail> {
    let mut book = StreamBook::new(rt.alloc());
    book.add(rt.alloc(), StreamKind::Pending, 7)?;
    book.finalise(&FIRST);
    assert_eq!(rt; first_code(&book, rt), Some(INVALID_STREAM_TYPE));
    book.commit(&[FIRST], 9);
    assert_eq!(rt; first_code(&book, rt), Some(STREAM_ALREADY_COMMITTED));
    Ok(())
}

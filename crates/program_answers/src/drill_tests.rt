//! The lines of the drill, and a run whose output fails.

use crate::body_tests::run_over;
use outside::{MemSink, MemSource, Piece};
use std::process::Abort;
use std::sync::Wait;
use std::test::Fail;
use std::thread::Threads;

/// The status of `drill N`, and what was written to a sink with this script.
fn drilled<R: Abort + Threads + Wait + Sync + AllocGlobal>(
    rt: &R,
    n: &str,
    mut sink: MemSink,
) -> Result<(u8, MemSink), Fail> {
    let alloc = rt.alloc();
    let words = vec![in alloc;
        String::from_str(alloc, "drill")?,
        String::from_str(alloc, n)?,
    ]?;
    let mut source = MemSource::new(alloc, Vec::new(alloc), Vec::new(alloc));
    let status = run_over(rt, words.as_slice(), &mut source, &mut sink);
    Ok((status, sink))
}

#[test]
fn each_drill_has_its_lines(rt: HostRuntime) -> Result<(), Fail> {
    let lines: [(&str, &[u8]); 2] = [
        (
            "2",
            b"appends 8\nrepeats 6\nvisible 40\nmatching 22\nsum 28000098\n",
        ),
        (
            "8",
            b"appends 32\nrepeats 24\nvisible 144\nmatching 90\nsum 108001602\n",
        ),
    ];
    for (n, text) in lines {
        for _ in 0..3 {
            let (status, sink) = drilled(&rt, n, MemSink::new(rt.alloc(), Vec::new(rt.alloc())))?;
            assert_eq!(rt; status, 0, "drill {n}");
            assert_eq!(rt; sink.taken(), text, "drill {n}");
        }
    }
    Ok(())
}

#[test]
fn a_drill_whose_output_fails_has_its_status(rt: HostRuntime) -> Result<(), Fail> {
    let pieces = vec![in rt.alloc(); Piece::Fail]?;
    let (status, sink) = drilled(&rt, "2", MemSink::new(rt.alloc(), pieces))?;
    assert_eq!(rt; status, 3);
    assert_eq!(rt; sink.taken().len(), 0);
    Ok(())
}

ghost use Rattle.std.specs.Prelude.{◌<◌, length};

use outside::{
    Blob, Blobs, MemSink, MemSource, Piece, Sink, SinkWrite, Source, SourceRead, StdSink,
    StdSource, Text,
};
use std::test::Fail;

/// What a read from a source in memory answers.
fn read(source: &mut MemSource, into: &mut [u8]) -> SourceRead
    requires { 0 < length into.old }
{
    source.read(into)
}

#[test]
fn a_source_follows_its_script(rt: HostRuntime) -> Result<(), Fail> {
    let pieces = vec![in rt.alloc(); Piece::UpTo(2), Piece::Fail]?;
    let mut source = MemSource::new(rt.alloc(), b"abcdef".to_vec(rt.alloc())?, pieces);
    let mut into = [0u8; 3];
    assert_eq!(rt; read(&mut source, &mut into), SourceRead::Got(2));
    assert_eq!(rt; &into, b"ab\0");
    assert_eq!(rt; read(&mut source, &mut into), SourceRead::Failed);
    assert_eq!(rt; read(&mut source, &mut into), SourceRead::Got(3));
    assert_eq!(rt; &into, b"cde");
    assert_eq!(rt; read(&mut source, &mut into), SourceRead::Got(1));
    assert_eq!(rt; read(&mut source, &mut into), SourceRead::End);
    Ok(())
}

/// What a write to a sink in memory answers.
fn write(sink: &mut MemSink, bytes: &[u8]) -> SinkWrite
    requires { 0 < length bytes.now }
{
    sink.write(bytes)
}

#[test]
fn a_sink_follows_its_script(rt: HostRuntime) -> Result<(), Fail> {
    let pieces = vec![in rt.alloc(); Piece::UpTo(1), Piece::Fail]?;
    let mut sink = MemSink::new(rt.alloc(), pieces);
    assert_eq!(rt; write(&mut sink, b"xyz"), SinkWrite::Took(1));
    assert_eq!(rt; write(&mut sink, b"yz"), SinkWrite::Failed);
    assert_eq!(rt; write(&mut sink, b"yz"), SinkWrite::Took(2));
    assert_eq!(rt; sink.taken(), b"xyz".as_slice());
    Ok(())
}

#[test]
fn the_streams_of_std_are_passed_on(rt: HostRuntime) -> Result<(), Fail> {
    let mut source = StdSource::new(b"ab".as_slice());
    let mut into = [0u8; 4];
    assert_eq!(rt; source.read(&mut into), SourceRead::Got(2));
    assert_eq!(rt; source.read(&mut into), SourceRead::End);
    let bytes: Vec<u8> = Vec::new(rt.alloc());
    assert_eq!(rt; StdSink::new(bytes).write(b"ab"), SinkWrite::Took(2));
    Ok(())
}

#[test]
fn small_types_hold_their_bytes(rt: HostRuntime) -> Result<(), Fail> {
    let blob = Blob::of(rt.alloc(), b"ab")?;
    assert_eq!(rt; blob.bytes(), b"ab".as_slice());
    let blobs = Blobs::from_vec(vec![in rt.alloc(); blob]?);
    assert_eq!(rt; blobs.blobs().len(), 1);
    assert_eq!(rt; Text::of(rt.alloc(), "ab")?.text(), "ab");
    Ok(())
}

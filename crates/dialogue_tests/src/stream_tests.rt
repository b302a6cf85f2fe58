//! Streams over memory: what a source gives and a sink keeps where a call fails.
use gw_base::Bytes;
use gw_site::{Failed, MemSink, MemSource, Sink, Source};
use std::test::Fail;

#[test]
fn a_source_gives_its_bytes_and_then_the_end(rt: HostRuntime) -> Result<(), Fail> {
    let bytes = Bytes::copied(rt.alloc(), b"ab")?;
    let mut source = MemSource::new(bytes, Some(1));
    let mut buf = [0; 4096];
    assert_eq!(rt; source.read(&mut buf), Ok(2));
    assert_eq!(rt; &buf[..2], b"ab".as_slice());
    assert_eq!(rt; source.read(&mut buf), Err(Failed));
    assert_eq!(rt; source.read(&mut buf), Ok(0));
    Ok(())
}

#[test]
fn a_sink_keeps_a_prefix_of_a_failed_write(rt: HostRuntime) -> Result<(), Fail> {
    let mut sink = MemSink::new(rt.alloc(), Some(1), 2);
    assert_eq!(rt; sink.write(b"one"), Ok(()));
    assert_eq!(rt; sink.write(b"two"), Err(Failed));
    assert_eq!(rt; sink.write(b"three"), Ok(()));
    assert_eq!(rt; sink.bytes().as_slice(), b"onetwthree".as_slice());
    Ok(())
}

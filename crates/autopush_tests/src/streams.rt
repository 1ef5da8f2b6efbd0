//! The sources and sinks in memory, and the adapters over std, call by call.

use push_outside::{
    Got, ListSink, ListSource, Put, Reading, Sink, Source, SureSink, SureSource, Writing,
};
use std::alloc::{AllocError, Global};
use std::test::Fail;

fn numbers(alloc: Global, of: &[u64]) -> Result<Vec<u64>, AllocError> {
    Vec::from_slice(alloc, of)
}

#[test]
fn list_source_answers_by_number(rt: HostRuntime) -> Result<(), Fail> {
    let alloc = rt.alloc();
    let bytes = Vec::from_slice(alloc, b"abcde")?;
    let failing = numbers(alloc, &[1, 4])?;
    let not_yet = numbers(alloc, &[2, 4])?;
    let mut source = ListSource::new(bytes, failing, not_yet);
    for (answer, room, left) in [
        (Got::Failed, b"...", b"abcde".as_slice()),
        (Got::NotYet, b"...", b"abcde".as_slice()),
        (Got::Bytes(3), b"abc", b"de".as_slice()),
        (Got::Failed, b"...", b"de".as_slice()),
        (Got::Bytes(2), b"de.", b"".as_slice()),
        (Got::End, b"...", b"".as_slice()),
    ] {
        let mut buf = *b"...";
        assert_eq!(rt; source.read(&mut buf), answer);
        assert_eq!(rt; buf.as_slice(), room.as_slice());
        assert_eq!(rt; source.left(), left);
    }
    Ok(())
}

#[test]
fn list_sink_answers_by_number(rt: HostRuntime) -> Result<(), Fail> {
    let alloc = rt.alloc();
    let failing = numbers(alloc, &[2])?;
    let not_yet = numbers(alloc, &[2, 3])?;
    let mut sink = ListSink::new(alloc, failing, not_yet);
    for (piece, answer, bytes) in [
        (b"ab".as_slice(), Put::Wrote(2), b"ab".as_slice()),
        (b"c".as_slice(), Put::Failed, b"ab".as_slice()),
        (b"c".as_slice(), Put::NotYet, b"ab".as_slice()),
        (b"cde".as_slice(), Put::Wrote(3), b"abcde".as_slice()),
    ] {
        assert_eq!(rt; sink.write(piece), answer);
        assert_eq!(rt; sink.bytes(), bytes);
    }
    Ok(())
}

fn read_all<S: Source>(source: &mut S) -> [Got; 3] {
    let mut room = [0; 2];
    let first = source.read(&mut room);
    let second = source.read(&mut room);
    [first, second, source.read(&mut room)]
}

fn write_both<S: Sink>(sink: &mut S) -> [Put; 2] {
    let first = sink.write(b"ab");
    [first, sink.write(b"c")]
}

#[test]
fn sure_forms_and_adapters(rt: HostRuntime) -> Result<(), Fail> {
    let alloc = rt.alloc();
    let reads = [Got::Bytes(2), Got::Bytes(1), Got::End];
    let writes = [Put::Wrote(2), Put::Wrote(1)];
    let mut sure = SureSource::new(Vec::from_slice(alloc, b"abc")?);
    assert_eq!(rt; sure.left(), b"abc".as_slice());
    assert_eq!(rt; read_all(&mut sure), reads);
    let mut reading = Reading::new(b"abc".as_slice());
    assert_eq!(rt; read_all(&mut reading), reads);
    let mut sink = SureSink::new(alloc);
    assert_eq!(rt; write_both(&mut sink), writes);
    assert_eq!(rt; sink.bytes(), b"abc".as_slice());
    let mut writing = Writing::new(Vec::new(alloc));
    assert_eq!(rt; write_both(&mut writing), writes);
    assert_eq!(rt; writing.into_inner().as_slice(), b"abc".as_slice());
    Ok(())
}

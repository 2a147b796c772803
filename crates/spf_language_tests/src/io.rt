use spf_io::{
    Failed, MAX_BYTES, MemSink, MemSource, ReadAll, Sink, Source, StdSink, StdSource, read_all,
    write_all,
};
use std::test::Fail;

const ALPHABET: &[u8] = b"abcdefghijklmnopqrstuvwxyz";

#[test]
fn a_memory_source_gives_pieces_and_fails_where_it_is_told(rt: HostRuntime) -> Result<(), Fail> {
    let bytes = Vec::from_slice(rt.alloc(), b"abcdefghijklmnopqrst")?;
    let failing = Vec::from_slice(rt.alloc(), &[1])?;
    let mut source = MemSource::new(bytes, 16, failing);
    let mut into = [0u8; 32];
    assert_eq!(rt; source.read(&mut into), Ok(16));
    assert_eq!(rt; &into[..17], b"abcdefghijklmnop\0".as_slice());
    assert_eq!(rt; source.read(&mut into), Err(Failed));
    assert_eq!(rt; source.read(&mut into[..0]), Ok(0));
    assert_eq!(rt; source.read(&mut into[..3]), Ok(3));
    assert_eq!(rt; &into[..4], b"qrsd".as_slice());
    assert_eq!(rt; source.read(&mut into), Ok(1));
    assert_eq!(rt; &into[..2], b"tr".as_slice());
    assert_eq!(rt; source.read(&mut into), Ok(0));
    Ok(())
}

#[test]
fn a_memory_sink_takes_pieces_and_fails_where_it_is_told_and_where_it_is_full(
    rt: HostRuntime,
) -> Result<(), Fail> {
    let failing = Vec::from_slice(rt.alloc(), &[1])?;
    let mut sink = MemSink::new(rt.alloc(), 5, 3, failing)?;
    assert_eq!(rt; sink.write(b"abcdef"), Ok(3));
    assert_eq!(rt; sink.write(b"def"), Err(Failed));
    assert_eq!(rt; sink.write(b"def"), Ok(2));
    assert_eq!(rt; sink.write(b""), Ok(0));
    assert_eq!(rt; sink.write(b"f"), Err(Failed));
    assert_eq!(rt; sink.written(), b"abcde".as_slice());
    Ok(())
}

#[test]
fn read_all_joins_pieces_and_refuses_a_fault_and_one_byte_more_than_64_mib(
    rt: HostRuntime,
) -> Result<(), Fail> {
    let bytes = Vec::from_slice(rt.alloc(), ALPHABET)?;
    let mut source = MemSource::new(bytes, 16, Vec::new(rt.alloc()));
    let read = read_all(rt.alloc(), &mut source)?;
    assert_eq!(rt; read.as_slice(), ALPHABET);

    let bytes = Vec::from_slice(rt.alloc(), ALPHABET)?;
    let failing = Vec::from_slice(rt.alloc(), &[1])?;
    let mut source = MemSource::new(bytes, 16, failing);
    assert_eq!(rt;
        read_all(rt.alloc(), &mut source).err(),
        Some(ReadAll::Fault)
    );
    let read = read_all(rt.alloc(), &mut source)?;
    assert_eq!(rt; read.as_slice(), b"qrstuvwxyz".as_slice());

    let bytes = vec![in rt.alloc(); 7u8; MAX_BYTES + 1]?;
    let mut source = MemSource::new(bytes, u32::MAX, Vec::new(rt.alloc()));
    assert_eq!(rt;
        read_all(rt.alloc(), &mut source).err(),
        Some(ReadAll::TooLong)
    );
    Ok(())
}

#[test]
fn write_all_leaves_all_or_a_front(rt: HostRuntime) -> Result<(), Fail> {
    let never = [7u32];
    let second = [1u32];
    let rows = [
        (6, never, true, b"abcdef".as_slice()),
        (6, second, false, b"abc".as_slice()),
        (5, never, false, b"abcde".as_slice()),
    ];
    for (room, failing, is_ok, left) in rows {
        let failing = Vec::from_slice(rt.alloc(), &failing)?;
        let mut sink = MemSink::new(rt.alloc(), room, 3, failing)?;
        assert_eq!(rt; write_all(&mut sink, b"abcdef").is_ok(), is_ok);
        assert_eq!(rt; sink.written(), left);
    }
    Ok(())
}

#[test]
fn the_standard_streams_take_and_give(rt: HostRuntime) {
    let mut error = StdSink::new(&rt, true);
    assert_eq!(rt; write_all(&mut error, b"x\n"), Ok(()));
    let mut output = StdSink::new(&rt, false);
    assert_eq!(rt; output.write(b""), Ok(0));
    let mut input = StdSource::new(&rt);
    assert_eq!(rt; input.read(&mut []), Ok(0));
}

// Reads and writes that fail in mid-stream, the limit, and the standard streams over readers and writers in memory.
use super::*;
use std::io;
use std::io::{ErrorKind, Read, Write};
use std::test::Fail;

#[test]
fn a_read_that_fails_in_mid_stream_loses_no_byte_behind_it(rt: HostRuntime) -> Result<(), Fail> {
    let alloc = rt.alloc();
    let bytes = vec![in alloc; 1, 2, 3, 4, 5]?;
    let mut source = MemSource::new(bytes, 2, vec![in alloc; 2]?);
    assert!(rt; matches!(read_all(alloc, &mut source, 9), Err(ReadRefusal::Failed)));
    assert_eq!(rt; source.left(), [3, 4, 5].as_slice());
    let rest = read_all(alloc, &mut source, 9)?;
    assert_eq!(rt; rest.as_slice(), [3, 4, 5].as_slice());
    assert_eq!(rt; (source.calls, source.faults), (5, 1));
    Ok(())
}

#[test]
fn a_write_that_fails_in_mid_stream_keeps_a_front(rt: HostRuntime) -> Result<(), Fail> {
    let alloc = rt.alloc();
    let mut sink = MemSink::new(alloc, 5, 2, vec![in alloc; 2]?)?;
    assert_eq!(rt;
        write_all(&mut sink, &[1, 2, 3, 4]),
        Err(WriteRefusal::Failed)
    );
    assert_eq!(rt; sink.bytes(), [1, 2].as_slice());
    assert_eq!(rt; write_all(&mut sink, &[7, 8, 9]), Ok(()));
    // The room is full.
    assert_eq!(rt; write_all(&mut sink, &[6]), Err(WriteRefusal::Failed));
    assert_eq!(rt; sink.bytes(), [1, 2, 7, 8, 9].as_slice());
    assert_eq!(rt; (sink.calls, sink.faults), (5, 2));
    Ok(())
}

#[test]
fn the_limit_counts_the_bytes(rt: HostRuntime) -> Result<(), Fail> {
    let alloc = rt.alloc();
    for (len, limit, fits) in [
        (0, 0, true),
        (1, 0, false),
        (9, 9, true),
        (9, 8, false),
        (4097, 4096, false),
    ] {
        let mut bytes = Vec::new(alloc);
        bytes.resize(len, 7)?;
        let read = read_all(alloc, &mut SteadySource::new(bytes), limit);
        assert_eq!(rt; read.is_ok(), fits, "{len} bytes at {limit}");
        if let Err(refusal) = read {
            assert_eq!(rt; refusal, ReadRefusal::TooLong);
        }
    }
    Ok(())
}

#[test]
fn a_steady_sink_takes_all(rt: HostRuntime) {
    let mut sink = SteadySink::new();
    assert_eq!(rt; sink.write(&[1, 2, 3]), Ok(3));
    assert_eq!(rt; write_all(&mut sink, &[1, 2, 3]), Ok(()));
}

// A reader that fails once, and then is at its end. A writer that takes one byte at a time and
// holds it until it is flushed.
#[derive(Drop)]
struct Slow {
    fails: bool,
    held: Vec<u8>,
    flushed: Vec<u8>,
}

impl Read for Slow {
    fn read(&mut self, _buf: &mut [u8]) -> io::Result<usize> {
        if self.fails {
            self.fails = false;
            return Err(io::Error::from(ErrorKind::Other));
        }
        Ok(0)
    }
}

impl Write for Slow {
    fn write(&mut self, buf: &[u8]) -> io::Result<usize> {
        let Some(byte) = buf.first() else {
            return Ok(0);
        };
        self.held.push(*byte)?;
        Ok(1)
    }

    fn flush(&mut self) -> io::Result<()> {
        self.flushed.append(&mut self.held)?;
        Ok(())
    }
}

#[test]
fn a_standard_source_gives_the_bytes_of_a_reader(rt: HostRuntime) -> Result<(), Fail> {
    let alloc = rt.alloc();
    let mut source = StdSource::new(b"text".as_slice());
    let bytes = read_all(alloc, &mut source, 4)?;
    assert_eq!(rt; bytes.as_slice(), b"text".as_slice());
    assert_eq!(rt; source.faults, 0);

    let mut broken = StdSource::new(Slow {
        fails: true,
        held: Vec::new(alloc),
        flushed: Vec::new(alloc),
    });
    assert!(rt; matches!(read_all(alloc, &mut broken, 4), Err(ReadRefusal::Failed)));
    assert_eq!(rt; broken.faults, 1);
    Ok(())
}

#[test]
fn a_standard_sink_flushes_each_piece(rt: HostRuntime) -> Result<(), Fail> {
    let alloc = rt.alloc();
    let mut slow = Slow {
        fails: false,
        held: Vec::new(alloc),
        flushed: Vec::new(alloc),
    };
    let mut sink = StdSink::new(&mut slow);
    assert_eq!(rt; write_all(&mut sink, b"text"), Ok(()));
    assert_eq!(rt; sink.faults, 0);
    assert_eq!(rt; slow.flushed.as_slice(), b"text".as_slice());

    // A writer that is full takes nothing of a piece.
    let mut room = [0; 2];
    let mut sink = StdSink::new(room.as_mut_slice());
    assert_eq!(rt; write_all(&mut sink, b"text"), Err(WriteRefusal::Failed));
    assert_eq!(rt; sink.faults, 1);
    assert_eq!(rt; room, *b"te");
    Ok(())
}

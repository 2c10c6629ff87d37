//! What no clause says: printed texts, the size of a read, and the devices over std.

use crate::{
    Failed, MemSink, MemSource, ReadFault, Sink, Source, StdSink, StdSource, read_all, write_all,
};
use bcl_words::NoMemory;
use std::alloc::Global;
use std::io;
use std::test::Fail;

#[test]
fn display_texts(rt: HostRuntime) -> Result<(), Fail> {
    let alloc = rt.alloc();
    assert_eq!(rt; NoMemory.to_string(alloc)?.as_str(), "out of memory");
    assert_eq!(rt; Failed.to_string(alloc)?.as_str(), "device failed");
    assert_eq!(rt;
        ReadFault::NoMemory.to_string(alloc)?.as_str(),
        "out of memory"
    );
    assert_eq!(rt; ReadFault::Failed.to_string(alloc)?.as_str(), "read fault");
    assert_eq!(rt; ReadFault::TooLarge.to_string(alloc)?.as_str(), "too large");
    Ok(())
}

/// How many bytes a source of at most `limit` has. Want of memory ends the test.
fn length_read<S: Source>(
    alloc: Global,
    src: &mut S,
    limit: usize,
) -> Result<Result<usize, ReadFault>, Fail> {
    match read_all(alloc, src, limit) {
        Ok(bytes) => Ok(Ok(bytes.len())),
        Err(ReadFault::NoMemory) => Err(NoMemory.into()),
        Err(fault) => Ok(Err(fault)),
    }
}

/// Reads 4,097 bytes from a source whose call with this number fails.
fn read_with_fault(rt: &impl AllocGlobal, call: u64) -> Result<Result<usize, ReadFault>, Fail> {
    let alloc = rt.alloc();
    let mut src = MemSource::new(vec![in alloc; 7; 4097]?, 1 << 20, vec![in alloc; call]?);
    length_read(alloc, &mut src, 1 << 20)
}

#[test]
fn a_read_asks_for_4096_bytes(rt: HostRuntime) -> Result<(), Fail> {
    for call in 1..4 {
        assert_eq!(rt;
            read_with_fault(&rt, call)?,
            Err(ReadFault::Failed),
            "call {call}"
        );
    }
    assert_eq!(rt; read_with_fault(&rt, 4)?, Ok(4097));
    Ok(())
}

#[test]
fn the_limit_is_the_last_length_read(rt: HostRuntime) -> Result<(), Fail> {
    let alloc = rt.alloc();
    for (limit, outcome) in [(9, Err(ReadFault::TooLarge)), (10, Ok(10)), (11, Ok(10))] {
        let mut src = MemSource::new(vec![in alloc; 1; 10]?, 3, Vec::new(alloc));
        assert_eq!(rt;
            length_read(alloc, &mut src, limit)?,
            outcome,
            "limit {limit}"
        );
    }
    Ok(())
}

#[test]
fn a_sink_takes_what_there_is_room_for(rt: HostRuntime) -> Result<(), Fail> {
    let alloc = rt.alloc();
    let mut sink = MemSink::new(alloc, 5, 2, vec![in alloc; 2]?)?;
    assert_eq!(rt; sink.write(b"abc"), Ok(2));
    assert_eq!(rt; sink.write(b""), Ok(0), "no bytes are no call");
    assert_eq!(rt; sink.write(b"c"), Err(Failed));
    assert_eq!(rt; write_all(&mut sink, b"cde"), Ok(()));
    assert_eq!(rt; sink.write(b""), Ok(0));
    assert_eq!(rt; sink.write(b"f"), Err(Failed));
    assert_eq!(rt; sink.taken(), b"abcde".as_slice());
    Ok(())
}

/// A device of std whose calls answer one byte, no byte, or an error, in turn.
#[derive(Drop)]
struct Moody {
    calls: u64,
    flushes: bool,
}

impl io::Read for Moody {
    fn read(&mut self, buf: &mut [u8]) -> io::Result<usize> {
        self.calls = self.calls.saturating_add(1);
        match self.calls {
            1 if !buf.is_empty() => Ok(1),
            2 => Ok(0),
            _ => Err(io::Error::from(io::ErrorKind::Other)),
        }
    }
}

impl io::Write for Moody {
    fn write(&mut self, buf: &[u8]) -> io::Result<usize> {
        self.calls = self.calls.saturating_add(1);
        match self.calls {
            1 if !buf.is_empty() => Ok(1),
            2 => Ok(0),
            _ => Err(io::Error::from(io::ErrorKind::Other)),
        }
    }

    fn flush(&mut self) -> io::Result<()> {
        if self.flushes {
            Ok(())
        } else {
            Err(io::Error::from(io::ErrorKind::Other))
        }
    }
}

#[test]
fn devices_of_std_pass_faults_on(rt: HostRuntime) {
    let mut buf = [0u8; 4];
    let mut src = StdSource::new(Moody {
        calls: 0,
        flushes: true,
    });
    assert_eq!(rt; src.read(&mut buf), Ok(1));
    assert_eq!(rt; src.read(&mut buf), Ok(0));
    assert_eq!(rt; src.read(&mut buf), Err(Failed));

    let mut out = StdSink::new(Moody {
        calls: 0,
        flushes: true,
    });
    assert_eq!(rt; out.write(b"ab"), Ok(1));
    assert_eq!(rt; out.write(b"b"), Err(Failed), "a write of no byte");
    assert_eq!(rt; out.write(b"b"), Err(Failed));

    let mut stuck = StdSink::new(Moody {
        calls: 0,
        flushes: false,
    });
    assert_eq!(rt; stuck.write(b"ab"), Err(Failed), "a flush that fails");
}

/// A reader that has no byte for now, and says so by an error of that kind.
#[derive(Drop)]
struct Waiting {
    kind: io::ErrorKind,
}

impl io::Read for Waiting {
    fn read(&mut self, _: &mut [u8]) -> io::Result<usize> {
        Err(io::Error::from(self.kind))
    }
}

#[test]
fn a_read_that_has_to_wait_is_no_end(rt: HostRuntime) -> Result<(), Fail> {
    let alloc = rt.alloc();
    for kind in [io::ErrorKind::Interrupted, io::ErrorKind::WouldBlock] {
        let mut src = StdSource::new(Waiting { kind });
        assert_eq!(rt; length_read(alloc, &mut src, 10)?, Err(ReadFault::Failed));
        assert_eq!(rt; src.read(&mut [0u8; 4]), Err(Failed));
    }
    Ok(())
}

#[test]
fn devices_of_std_move_bytes(rt: HostRuntime) -> Result<(), Fail> {
    let alloc = rt.alloc();
    let mut src = StdSource::new(b"twelve bytes".as_slice());
    let bytes = read_all(alloc, &mut src, 100)?;
    assert_eq!(rt; bytes.as_slice(), b"twelve bytes".as_slice());
    let mut written = Vec::with_capacity(alloc, 12)?;
    write_all(&mut StdSink::new(&mut written), &bytes)?;
    assert_eq!(rt; written.as_slice(), b"twelve bytes".as_slice());
    Ok(())
}

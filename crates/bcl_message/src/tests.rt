//! What is said of each stop.

use crate::{Refusal, Stop, tell};
use bcl_io::MemSink;
use kmer_text::{InputFault, Kind};
use std::alloc::Global;
use std::test::Fail;

/// What a sink takes of a stop.
fn said(alloc: Global, stop: Stop) -> Result<Vec<u8>, Fail> {
    let mut err = MemSink::new(alloc, 1000, 7, Vec::new(alloc))?;
    if tell(&mut err, stop).is_err() {
        return Ok(Vec::new(alloc));
    }
    Ok(err.taken().to_vec(alloc)?)
}

const USAGE: &[u8] = b"usage: bcl count K [--ranks N] [--min M] [--promise own|any] [--hist]
       bcl contigs K [--ranks N] [--promise own|any]
       bcl drill NUMBER LINES K [--ranks N] [--promise own|any]
";

#[test]
fn each_stop_has_its_status_and_message(rt: HostRuntime) -> Result<(), Fail> {
    let bad = |line, kind| Refusal::Line(InputFault { line, kind });
    let cases = [
        (
            Stop::Refused(Refusal::TooManyBytes),
            1,
            b"too large: more than 67108864 bytes\n".as_slice(),
        ),
        (
            Stop::Refused(Refusal::TooManyLines),
            1,
            b"too large: more than 4194304 lines\n",
        ),
        (
            Stop::Refused(bad(10, Kind::Letter)),
            1,
            b"line 10: bad letter\n",
        ),
        (
            Stop::Refused(bad(1, Kind::Length)),
            1,
            b"line 1: bad length\n",
        ),
        (Stop::Refused(bad(2, Kind::Tab)), 1, b"line 2: no tab\n"),
        (
            Stop::Refused(bad(3, Kind::Extension)),
            1,
            b"line 3: bad extension\n",
        ),
        (
            Stop::Refused(Refusal::TooManyWindows),
            1,
            b"too large: more than 8388608 windows\n",
        ),
        (
            Stop::Refused(Refusal::Conflict(4194304)),
            1,
            b"line 4194304: conflict\n",
        ),
        (
            Stop::Refused(Refusal::TooMuchText),
            1,
            b"too large: more than 67108864 bytes of text\n",
        ),
        (Stop::Usage, 2, USAGE),
        (Stop::ReadFault, 3, b"read fault\n"),
        (Stop::WriteFault, 4, b"write fault\n"),
        (Stop::NoMemory, 5, b"out of memory\n"),
    ];
    for (stop, status, message) in cases {
        assert_eq!(rt; stop.status(), status, "{stop:?}");
        assert_eq!(rt; said(rt.alloc(), stop)?.as_slice(), message, "{stop:?}");
    }
    Ok(())
}

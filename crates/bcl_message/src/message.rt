//! What the program says of a run without a text. No message takes memory.

ghost use Rattle.std.specs.Prelude.{◌≡◌, OnOk, OnErr};
ghost use Rattle.std.specs.Io.KnownBytes.{Appends};
ghost use Rattle.bcl_io.specs.Faults.{Rose};
ghost use Rattle.bcl_message.specs.Message.{fault_words, line_message, message_of};

use crate::{Refusal, Stop};
use bcl_io::{Failed, Sink, write_all};
use itoa::Buffer;
use kmer_text::Kind;

const USAGE: &[u8] = b"\
usage: bcl count K [--ranks N] [--min M] [--promise own|any] [--hist]
       bcl contigs K [--ranks N] [--promise own|any]
       bcl drill NUMBER LINES K [--ranks N] [--promise own|any]
";

/// What is wrong with a line.
fn words_of(kind: Kind) -> &'static [u8]
    ensures { result.now ≡ fault_words kind }
{
    match kind {
        Kind::Letter => b"bad letter",
        Kind::Length => b"bad length",
        Kind::Tab => b"no tab",
        Kind::Extension => b"bad extension",
    }
}

/// Names a line, and what is wrong with it.
fn tell_line<E: Sink>(err: &mut E, line: u64, what: &[u8]) -> Result<(), Failed>
    ensures message { OnOk result (Appends (E.taken err.old) (E.taken err.new) (line_message line what.now)) }
    ensures failed { OnErr result (Rose (E.faults err.old) (E.faults err.new)) }
{
    write_all(err, b"line ")?;
    write_all(err, Buffer::new().format(line).as_bytes())?;
    write_all(err, b": ")?;
    write_all(err, what)?;
    write_all(err, b"\n")
}

/// Says why a run has no text.
pub fn tell<E: Sink>(err: &mut E, stop: Stop) -> Result<(), Failed>
    ensures message { OnOk result (Appends (E.taken err.old) (E.taken err.new) (message_of stop)) }
    ensures failed { OnErr result (Rose (E.faults err.old) (E.faults err.new)) }
{
    match stop {
        Stop::Refused(Refusal::TooManyBytes) => {
            write_all(err, b"too large: more than 67108864 bytes\n")
        }
        Stop::Refused(Refusal::TooManyLines) => {
            write_all(err, b"too large: more than 4194304 lines\n")
        }
        Stop::Refused(Refusal::Line(fault)) => tell_line(err, fault.line, words_of(fault.kind)),
        Stop::Refused(Refusal::TooManyWindows) => {
            write_all(err, b"too large: more than 8388608 windows\n")
        }
        Stop::Refused(Refusal::Conflict(line)) => tell_line(err, line, b"conflict"),
        Stop::Refused(Refusal::TooMuchText) => {
            write_all(err, b"too large: more than 67108864 bytes of text\n")
        }
        Stop::Usage => write_all(err, USAGE),
        Stop::ReadFault => write_all(err, b"read fault\n"),
        Stop::WriteFault => write_all(err, b"write fault\n"),
        Stop::NoMemory => write_all(err, b"out of memory\n"),
    }
}

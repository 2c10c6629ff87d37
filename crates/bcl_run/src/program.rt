//! The whole program over its devices.

ghost use Rattle.std.specs.Prelude.{◌≡◌, ℕ, List, map, string_bytes, IfSome, IfOk, IsErrOf};
ghost use Rattle.bcl_settings.specs.Settings.{AsksFor, IsAsked, NamesAny};
ghost use Rattle.bcl_message.specs.declared.stop.Stop.TheVariants as stops;
ghost use Rattle.bcl_message.specs.Stop.{status_of};
ghost use Rattle.bcl_message.specs.Message.{message_of};
ghost use Rattle.bcl_run.specs.Book.{IsBookOf};
ghost use Rattle.bcl_run.specs.Owed.{Tells, Owed, WroteNothing, devices};
ghost use Rattle.bcl_run.specs.Headline.{Headline};

use crate::Book;
use crate::answer::{MAX_BYTES, answer};
use bcl_io::{Sink, Source, read_all, write_all};
use bcl_message::{Stop, tell};
use bcl_phase::Gate;
use bcl_settings::{Settings, settings_of};
use std::alloc::Global;
use std::marker::Sync;
use std::thread::Threads;

/// How a run ended.
#[derive(Drop)]
pub struct Ended {
    /// 0 done, 1 input refused, 2 usage, 3 read fault, 4 write fault, 5 want of memory.
    pub status: u8,
    pub book: Book,
}

/// Reads the input and writes the text that the settings ask for, and answers the book. From the first write on no memory
/// is taken.
fn run<H: Threads + Sync, S: Source, O: Sink, G: Gate>(
    rt: &H,
    alloc: Global,
    settings: &Settings,
    src: &mut S,
    out: &mut O,
    gate: &G,
) -> Result<Book, Stop>
    requires asked { IsAsked settings.now }
    ensures owed { (words : List (List ℕ)) → AsksFor words settings.now → Owed words (devices S.left S.faults O.taken O.faults src.old src.new out.old out.new) result }
    ensures book { IfOk result (λ book. IfSome (S.left src.old) (λ bytes. IsBookOf settings.now bytes book)) }
    ensures no_usage { IsErrOf result stops.Usage → ⊥ }
    ensures untouched { WroteNothing result → out.new ≡ out.old }
{
    let bytes = read_all(alloc, src, MAX_BYTES)?;
    let answer = answer(rt, alloc, settings, bytes, gate)?;
    write_all(out, &answer.text)?;
    Ok(answer.book)
}

/// Says why a run has no text, and how it ended. A fault of `err` changes no status.
fn stopped<E: Sink>(err: &mut E, stop: Stop) -> Ended
    ensures status { result.status ≡ status_of stop }
    ensures no_book { result.book ≡ Book.None }
    ensures told { Tells (E.faults err.old) (E.faults err.new) (E.taken err.old) (E.taken err.new) (message_of stop) }
{
    let _ = tell(err, stop);
    Ended {
        status: stop.status(),
        book: Book::None,
    }
}

/// Runs the program on the words behind its name, where they ask for no run in which a rank changes any key.
///
/// It reads `src` to its end, writes the text to `out`, and ends with a status and its book. With a status other than 0 it
/// writes a message to `err`, and there is no book. `rt` starts a thread for each rank, and for a sort by more than one
/// rank threads for all processors; each rank passes `gate` as it enters a superstep.
pub fn top_own<H: Threads + Sync, S: Source, O: Sink, E: Sink, G: Gate>(
    rt: &H,
    alloc: Global,
    words: &[String],
    src: &mut S,
    out: &mut O,
    err: &mut E,
    gate: &G,
) -> Ended
    requires own { NamesAny (map string_bytes words.now) → ⊥ }
    ensures headline { Headline S.left S.faults O.taken O.faults E.taken E.faults (map string_bytes words.now) src.old src.new out.old out.new err.old err.new result }
{
    match settings_of(words) {
        // Neither the words nor the usage get an allocator, so this status takes no memory.
        None => stopped(err, Stop::Usage),
        Some(settings) => match run(rt, alloc, &settings, src, out, gate) {
            Ok(book) => Ended { status: 0, book },
            Err(stop) => stopped(err, stop),
        },
    }
}

/// Runs the program on the words behind its name, as `top_own` does: no words ask for another run yet.
pub fn top<H: Threads + Sync, S: Source, O: Sink, E: Sink, G: Gate>(
    rt: &H,
    alloc: Global,
    words: &[String],
    src: &mut S,
    out: &mut O,
    err: &mut E,
    gate: &G,
) -> Ended
    ensures headline { Headline S.left S.faults O.taken O.faults E.taken E.faults (map string_bytes words.now) src.old src.new out.old out.new err.old err.new result }
{
    top_own(rt, alloc, words, src, out, err, gate)
}

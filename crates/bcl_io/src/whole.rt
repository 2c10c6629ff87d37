//! All the bytes of a source, and all the bytes to a sink.

ghost use Rattle.std.specs.Prelude.{◌≡◌, ℕ, ◌+◌, ◌-◌, ◌^◌, ◌<◌, ◌≤◌, List, [], length, take, vec_len, IfOk, OnOk, OnErr, IsErrOf};
ghost use Rattle.std.specs.Io.KnownBytes.{Consumes, Appends, IsAtEnd};
ghost use Rattle.bcl_io.specs.Faults.{Rose};

use crate::{Failed, ReadFault, Sink, Source};
use std::alloc::Global;

/// How many bytes each read of `read_all` asks for.
pub const PIECE: usize = 4096;

/// Reads a source to its end, where that is at most `limit` bytes away.
///
/// `TooLarge` comes where more than `limit` bytes were taken and no read had failed: reading stops there.
pub fn read_all<S: Source>(alloc: Global, src: &mut S, limit: usize) -> Result<Vec<u8>, ReadFault>
    // The source was read to its end.
    ensures bytes { IfOk result (λ v. Consumes (S.left src.old) (S.left src.new) v.items) }
    ensures end { OnOk result (IsAtEnd (S.left src.new)) }
    ensures within { IfOk result (λ v. length v.items ≤ limit) }

    // It was not.
    ensures too_large { IsErrOf result ReadFault.TooLarge →
        ((bytes : List ℕ) × (limit < length bytes) × Consumes (S.left src.old) (S.left src.new) bytes) }
    ensures failed { IsErrOf result ReadFault.Failed → Rose (S.faults src.old) (S.faults src.new) }

    // What is left is an end of what was, and only a failed read changes the count.
    ensures front { (bytes : List ℕ) × Consumes (S.left src.old) (S.left src.new) bytes }
    ensures no_fault { (IsErrOf result ReadFault.Failed → ⊥) → S.faults src.new ≡ S.faults src.old }
    ensures later { S.faults src.old ≤ S.faults src.new }
{
    let mut bytes = Vec::new(alloc);
    let mut piece = [0u8; PIECE];
    while bytes.len() <= limit {
        let n = src.read(&mut piece)?;
        if n == 0 {
            return Ok(bytes);
        }
        bytes.extend_from_slice(&piece[..n])?;
    }
    Err(ReadFault::TooLarge)
}

/// Writes all the bytes, in as many calls as the sink needs. Empty bytes make no call.
pub fn write_all<O: Sink>(out: &mut O, bytes: &[u8]) -> Result<(), Failed>
    ensures all { OnOk result (Appends (O.taken out.old) (O.taken out.new) bytes.now) }
    ensures failed { OnErr result (Rose (O.faults out.old) (O.faults out.new)) }

    // What was taken is a front of the bytes, and only a failed write changes the count.
    ensures front { (n : ℕ) × (n ≤ length bytes.now) × Appends (O.taken out.old) (O.taken out.new) (take n bytes.now) }
    ensures no_fault { OnOk result (O.faults out.new ≡ O.faults out.old) }
    ensures later { O.faults out.old ≤ O.faults out.new }
    ensures no_call { bytes.now ≡ [] → out.new ≡ out.old }
{
    let mut done = 0;
    while done < bytes.len() {
        done += out.write(&bytes[done..])?;
    }
    Ok(())
}

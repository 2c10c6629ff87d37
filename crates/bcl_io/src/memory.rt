//! Devices over memory, whose calls move a few bytes each and fail where they are told to.

ghost use Rattle.std.specs.Prelude.{◌≡◌, ℕ, ◌+◌, ◌^◌, ◌-◌, ◌<◌, ◌≤◌, ◌⊎◌, ◌↔◌, min, List, [], IfOk, IsErr, IsTrue, Some, Contains, drop, length, vec_len, vec_capacity};
ghost use Rattle.std.specs.Io.KnownBytes.{ReadConsumes, WriteAppends};
ghost use Rattle.bcl_io.specs.Faults.{CountsFaults, Rose};
ghost use Rattle.bcl_io.specs.Memory.{FailsNext, CallsOnce};

use crate::{Failed, Sink, Source};
use bcl_words::NoMemory;
use std::alloc::Global;
use std::marker::Model;

/// Which calls fail, by their numbers from 1, and how many were made and failed.
#[derive(Drop)]
struct Schedule {
    failing: Vec<u64>,
    calls: u64,
    faults: u64,
}

impl Schedule {
    fn new(failing: Vec<u64>) -> Self
        ensures failing { result.failing ≡ failing }
        ensures calls { result.calls ≡ 0 }
        ensures faults { result.faults ≡ 0 }
    {
        Schedule {
            failing,
            calls: 0,
            faults: 0,
        }
    }

    /// Counts a call, and tells whether it is to fail.
    fn fails(&mut self) -> bool
        ensures fails { IsTrue result ↔ Contains self.old.failing.items self.new.calls }
        ensures calls { self.new.calls ≡ min (self.old.calls + 1) (2 ^ 64 - 1) }
        ensures failing { self.new.failing ≡ self.old.failing }
        ensures faults { self.new.faults ≡ self.old.faults }
    {
        self.calls = self.calls.saturating_add(1);
        self.failing.contains(&self.calls)
    }

    /// Counts a fault.
    fn fault(&mut self) -> Failed
        ensures later { self.old.faults ≤ self.new.faults }
        ensures rose { Rose self.old.faults self.new.faults }
        ensures calls { self.new.calls ≡ self.old.calls }
        ensures failing { self.new.failing ≡ self.old.failing }
    {
        self.faults = self.faults.saturating_add(1);
        Failed
    }
}

/// A source of the bytes in a `Vec`. A contract sees what is left of them, the piece and the schedule of faults.
#[derive(Drop)]
pub struct MemSource {
    bytes: Vec<u8>,
    at: usize,
    piece: usize,
    schedule: Schedule,
}

impl Model for MemSource {
    ghost use Rattle.std.specs.Prelude.{◌<◌, ◌≤◌, drop, length};
    ghost use Rattle.bcl_io.specs.Memory.{Supply};

    ghost Value = { Supply };

    ghost view = { λ s. record {
      left = drop s.at s.bytes.items;
      piece = s.piece;
      schedule = record { failing = s.schedule.failing.items; calls = s.schedule.calls; faults = s.schedule.faults };
    } };

    ghost invariant = { λ s. (s.at ≤ length s.bytes.items) × (0 < s.piece) };
}

impl MemSource {
    /// A source of these bytes, which gives at most `piece` of them a call. The calls whose numbers, from 1, are in
    /// `failing` fail.
    pub fn new(bytes: Vec<u8>, piece: usize, failing: Vec<u64>) -> MemSource
        requires { 0 < piece }
        ensures left { result.left ≡ bytes.items }
        ensures piece { result.piece ≡ piece }
        ensures failing { result.schedule.failing ≡ failing.items }
        ensures calls { result.schedule.calls ≡ 0 }
        ensures faults { result.schedule.faults ≡ 0 }
    {
        MemSource {
            bytes,
            at: 0,
            piece,
            schedule: Schedule::new(failing),
        }
    }
}

impl Source for MemSource {
    ghost left = { λ s. Some s.left };

    ghost faults = { λ s. s.schedule.faults };

    /// Gives as many bytes as the piece, the length of `buf` and the bytes left allow.
    fn read(&mut self, buf: &mut [u8]) -> Result<usize, Failed>
        ensures bound { IfOk result (λ n. n ≤ length buf.new) }
        ensures bytes { ReadConsumes (Some self.old.left) (Some self.new.left) result buf.new }
        ensures faults { CountsFaults self.old.schedule.faults self.new.schedule.faults result }

        ensures count { IfOk result (λ n. n ≡ min (min (length self.old.left) self.old.piece) (length buf.new)) }
        ensures fails { IsErr result ↔ FailsNext self.old.schedule }
        ensures call { CallsOnce self.old.schedule self.new.schedule }
        ensures piece { self.new.piece ≡ self.old.piece }
    {
        if self.schedule.fails() {
            return Err(self.schedule.fault());
        }
        let rest = &self.bytes[self.at..];
        let n = rest.len().min(self.piece).min(buf.len());
        buf[..n].copy_from_slice(&rest[..n]);
        self.at += n;
        Ok(n)
    }
}

/// A sink into memory that was taken beforehand. A contract sees the bytes taken, the room, the piece and the schedule
/// of faults.
#[derive(Drop)]
pub struct MemSink {
    bytes: Vec<u8>,
    room: usize,
    piece: usize,
    schedule: Schedule,
}

impl Model for MemSink {
    ghost use Rattle.std.specs.Prelude.{◌<◌, ◌≤◌, length, vec_capacity};
    ghost use Rattle.bcl_io.specs.Memory.{Store};

    ghost Value = { Store };

    ghost view = { λ s. record {
      taken = s.bytes.items;
      room = s.room;
      piece = s.piece;
      schedule = record { failing = s.schedule.failing.items; calls = s.schedule.calls; faults = s.schedule.faults };
    } };

    ghost invariant = { λ s. (length s.bytes.items ≤ s.room) × (s.room ≤ vec_capacity s.bytes) × (0 < s.piece) };
}

impl MemSink {
    /// A sink with room for so many bytes, which takes at most `piece` of them a call. The calls whose numbers, from 1,
    /// are in `failing` fail, and so does each call once the room is used up. A call with no bytes has no number, and
    /// never fails.
    pub fn new(
        alloc: Global,
        room: usize,
        piece: usize,
        failing: Vec<u64>,
    ) -> Result<MemSink, NoMemory>
        requires { 0 < piece }
        ensures taken { IfOk result (λ s. s.taken ≡ []) }
        ensures room { IfOk result (λ s. s.room ≡ room) }
        ensures piece { IfOk result (λ s. s.piece ≡ piece) }
        ensures failing { IfOk result (λ s. s.schedule.failing ≡ failing.items) }
        ensures calls { IfOk result (λ s. s.schedule.calls ≡ 0) }
        ensures faults { IfOk result (λ s. s.schedule.faults ≡ 0) }
    {
        Ok(MemSink {
            bytes: Vec::with_capacity(alloc, room)?,
            room,
            piece,
            schedule: Schedule::new(failing),
        })
    }

    /// The bytes taken so far.
    pub fn taken(&self) -> &[u8]
        ensures { result.now ≡ self.now.taken }
    {
        &self.bytes
    }
}

impl Sink for MemSink {
    ghost taken = { λ s. Some s.taken };

    ghost faults = { λ s. s.schedule.faults };

    /// Takes as many bytes as the piece, the length of `buf` and the room left allow. An empty `buf` changes nothing.
    fn write(&mut self, buf: &[u8]) -> Result<usize, Failed>
        ensures bound { IfOk result (λ n. n ≤ length buf.now) }
        ensures moves { IfOk result (λ n. 0 < length buf.now → 0 < n) }
        ensures bytes { WriteAppends (Some self.old.taken) (Some self.new.taken) result buf.now }
        ensures faults { CountsFaults self.old.schedule.faults self.new.schedule.faults result }

        ensures count { IfOk result (λ n. n ≡ min (min (length buf.now) self.old.piece) (self.old.room - length self.old.taken)) }
        ensures fails { IsErr result ↔ ((0 < length buf.now) × (FailsNext self.old.schedule ⊎ (self.old.room ≤ length self.old.taken))) }
        ensures call { 0 < length buf.now → CallsOnce self.old.schedule self.new.schedule }
        ensures no_call { buf.now ≡ [] → self.new ≡ self.old }
        ensures piece { self.new.piece ≡ self.old.piece }
        ensures room { self.new.room ≡ self.old.room }
    {
        if buf.is_empty() {
            return Ok(0);
        }
        if self.schedule.fails() {
            return Err(self.schedule.fault());
        }
        let n = buf.len().min(self.piece).min(self.room - self.bytes.len());
        if n == 0 {
            return Err(self.schedule.fault());
        }
        let Ok(()) = self.bytes.extend_from_slice(&buf[..n]) else {
            unreachable!();
        };
        Ok(n)
    }
}

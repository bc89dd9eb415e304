//! Sources and sinks over memory.
ghost use Rattle.std.specs.Prelude.{◌≡◌, ◌-◌, ◌<◌, ◌≤◌, ◌↔◌, ◌⊎◌, [], length, take, drop, min, Some, IsErr, IfOk, OnErr, Contains};
ghost use Rattle.std.specs.Io.{ReadsAtMost, WritesAtMost};
ghost use Rattle.std.specs.Io.KnownBytes.{ReadConsumes, WriteAppends};
ghost use Rattle.pe_io.specs.Faults.{CountsFaults, next_u64};
ghost use Rattle.pe_io.specs.Memory.{sized};
ghost use Rattle.pe_io.specs.Pieces.{TakesSome};

use crate::{Failed, Sink, Source};
use std::alloc::{AllocError, Global};
use std::marker::Model;

/// A source of the given bytes that never fails. Contracts see it as the bytes that are left.
#[derive(Drop)]
pub struct PlainSource {
    bytes: Vec<u8>,
    at: usize,
}

impl Model for PlainSource {
    ghost use Rattle.std.specs.Prelude.{ℕ, List, ◌≤◌, drop, length};

    ghost Value = { List ℕ };

    ghost view = { λ s. drop s.at s.bytes.items };

    ghost invariant = { λ s. s.at ≤ length s.bytes.items };
}

impl PlainSource {
    /// Gives these bytes.
    pub fn new(bytes: Vec<u8>) -> PlainSource
        ensures { result ≡ bytes.items }
    {
        PlainSource { bytes, at: 0 }
    }
}

impl Source for PlainSource {
    ghost left = { λ s. Some s };

    ghost faults = { λ _. 0 };

    fn read(&mut self, room: &mut [u8]) -> Result<usize, Failed>
        requires { 0 < length room.old }
        ensures bound { ReadsAtMost result room.new }
        ensures bytes { ReadConsumes (Some self.old) (Some self.new) result room.new }
        ensures faults { CountsFaults 0 0 result }
        ensures fits { result ≡ Ok (min (length room.old) (length self.old)) }
    {
        let count = room.len().min(self.bytes.len() - self.at);
        let end = self.at + count;
        put_front(room, &self.bytes[self.at..end]);
        self.at = end;
        Ok(count)
    }
}

/// Copies the bytes over the front of the room.
fn put_front(room: &mut [u8], bytes: &[u8])
    requires { length bytes.now ≤ length room.old }
    ensures { take (length bytes.now) room.new ≡ bytes.now }
{
    room[..bytes.len()].copy_from_slice(bytes);
}

/// A source of the given bytes, in pieces of the given sizes, that fails at the given calls.
///
/// Calls are numbered from 0, and the number stays at the greatest `u64` once it is there. Call k
/// fails where k is among the failing calls. Otherwise it gives at most as many bytes as the size
/// at place k says, where 0 counts as 1, and as many as fit where there is no such size.
#[derive(Drop)]
pub struct MemSource {
    rest: PlainSource,
    sizes: Vec<usize>,
    fails: Vec<u64>,
    call: u64,
    faults: u64,
}

impl Model for MemSource {
    ghost use Rattle.pe_io.specs.Memory.{Reading};

    ghost Value = { Reading };

    ghost view = { λ s. record {
      rest = s.rest;
      sizes = s.sizes.items;
      fails = s.fails.items;
      call = s.call;
      faults = s.faults;
    } };
}

impl MemSource {
    /// Gives these bytes in pieces of these sizes, and fails at these calls.
    pub fn new(bytes: Vec<u8>, sizes: Vec<usize>, fails: Vec<u64>) -> MemSource
        ensures { result ≡ record {
          rest = bytes.items;
          sizes = sizes.items;
          fails = fails.items;
          call = 0;
          faults = 0;
        } }
    {
        MemSource {
            rest: PlainSource::new(bytes),
            sizes,
            fails,
            call: 0,
            faults: 0,
        }
    }

    /// How many faults were counted.
    pub fn count(&self) -> u64
        ensures { result ≡ self.now.faults }
    {
        self.faults
    }
}

impl Source for MemSource {
    ghost left = { λ s. Some s.rest };

    ghost faults = { λ s. s.faults };

    fn read(&mut self, room: &mut [u8]) -> Result<usize, Failed>
        requires { 0 < length room.old }
        ensures bound { ReadsAtMost result room.new }
        ensures bytes { ReadConsumes (Some self.old.rest) (Some self.new.rest) result room.new }
        ensures faults { CountsFaults self.old.faults self.new.faults result }

        ensures fails { IsErr result ↔ Contains self.old.fails self.old.call }
        ensures size { IfOk result (λ n. n ≡ sized self.old.sizes self.old.call
            (min (length room.old) (length self.old.rest))) }

        ensures counted { OnErr result (self.new.faults ≡ next_u64 self.old.faults) }
        ensures next { self.new.call ≡ next_u64 self.old.call }
        ensures same_sizes { self.new.sizes ≡ self.old.sizes }
        ensures same_fails { self.new.fails ≡ self.old.fails }
    {
        let call = self.call;
        self.call = call.saturating_add(1);
        if self.fails.contains(&call) {
            self.faults = self.faults.saturating_add(1);
            return Err(Failed);
        }
        let most = sized_count(&self.sizes, call, room.len());
        self.rest.read(&mut room[..most])
    }
}

/// How many of so many bytes the call moves.
fn sized_count(sizes: &[usize], call: u64, most: usize) -> usize
    ensures { result ≡ sized sizes.now call most }
{
    match sizes.get(call as usize) {
        Some(size) => most.min((*size).max(1)),
        None => most,
    }
}

/// A sink into memory of a fixed room, in pieces of the given sizes, that fails at the given calls.
///
/// Calls are numbered from 0, and the number stays at the greatest `u64` once it is there. Call k
/// fails where k is among the failing calls, or where a piece that is not empty meets no room left.
/// Otherwise it takes at most as many bytes as the size at place k says, where 0 counts as 1, and
/// as many as fit where there is no such size.
#[derive(Drop)]
pub struct MemSink {
    bytes: Vec<u8>,
    room: usize,
    sizes: Vec<usize>,
    fails: Vec<u64>,
    call: u64,
    faults: u64,
}

impl Model for MemSink {
    ghost use Rattle.std.specs.Prelude.{◌≤◌};
    ghost use Rattle.std.specs.Vec.{vec_capacity, vec_len};
    ghost use Rattle.pe_io.specs.Memory.{Writing};

    ghost Value = { Writing };

    ghost view = { λ s. record {
      bytes = s.bytes.items;
      room = s.room;
      sizes = s.sizes.items;
      fails = s.fails.items;
      call = s.call;
      faults = s.faults;
    } };

    ghost invariant = { λ s. (vec_len s.bytes ≤ s.room) × (s.room ≤ vec_capacity s.bytes) };
}

impl MemSink {
    /// Takes up to `room` bytes in pieces of these sizes, and fails at these calls. The memory for
    /// all of the room is taken here, so that no write wants any; `AllocError` where it wants.
    pub fn new(
        alloc: Global,
        room: usize,
        sizes: Vec<usize>,
        fails: Vec<u64>,
    ) -> Result<MemSink, AllocError>
        ensures { IfOk result (λ s. s ≡ record {
          bytes = [];
          room = room;
          sizes = sizes.items;
          fails = fails.items;
          call = 0;
          faults = 0;
        }) }
    {
        let bytes = Vec::with_capacity(alloc, room)?;
        Ok(MemSink {
            bytes,
            room,
            sizes,
            fails,
            call: 0,
            faults: 0,
        })
    }

    /// What was written.
    pub fn as_slice(&self) -> &[u8]
        ensures { result.now ≡ self.now.bytes }
    {
        self.bytes.as_slice()
    }
}

impl Sink for MemSink {
    ghost written = { λ s. Some s.bytes };

    ghost faults = { λ s. s.faults };

    fn write(&mut self, piece: &[u8]) -> Result<usize, Failed>
        ensures bound { WritesAtMost result piece.now }
        ensures some { TakesSome result piece.now }
        ensures bytes { WriteAppends (Some self.old.bytes) (Some self.new.bytes) result piece.now }
        ensures faults { CountsFaults self.old.faults self.new.faults result }

        ensures fails { IsErr result ↔ (Contains self.old.fails self.old.call
            ⊎ ((0 < length piece.now) × (self.old.room ≤ length self.old.bytes))) }
        ensures size { IfOk result (λ n. n ≡ sized self.old.sizes self.old.call
            (min (length piece.now) (self.old.room - length self.old.bytes))) }

        ensures counted { OnErr result (self.new.faults ≡ next_u64 self.old.faults) }
        ensures next { self.new.call ≡ next_u64 self.old.call }
        ensures same_room { self.new.room ≡ self.old.room }
        ensures same_sizes { self.new.sizes ≡ self.old.sizes }
        ensures same_fails { self.new.fails ≡ self.old.fails }
    {
        let call = self.call;
        self.call = call.saturating_add(1);
        let spare = self.room - self.bytes.len();
        if self.fails.contains(&call) || (spare == 0 && !piece.is_empty()) {
            self.faults = self.faults.saturating_add(1);
            return Err(Failed);
        }
        let count = sized_count(&self.sizes, call, piece.len().min(spare));
        match self.bytes.extend_from_slice(&piece[..count]) {
            Ok(()) => Ok(count),
            Err(AllocError) => unreachable!(),
        }
    }
}

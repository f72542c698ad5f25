// Sources and sinks in memory that fail where they are told to.
ghost use Rattle.std.specs.Prelude.{◌≡◌, ◌≢◌, ◌<◌, ◌≤◌, ◌-◌, ◌&&◌, ◌||◌, ◌==◌, ◌+◌, min, [], length, take, Some, IfOk, OnOk, OnErr, is_err, is_ok, nat_lt};
ghost use Rattle.std.specs.Io.{ReadsAtMost, WritesAtMost};
ghost use Rattle.std.specs.Io.KnownBytes.{ReadConsumes};
ghost use Rattle.rc_ports.specs.Causes.{HasCause, is_listed, raised};
ghost use Rattle.rc_ports.specs.Streams.{grown, Supply, Store, supply, store, gave, took, refused_read, refused_write, in_pieces, stored_in_pieces};

use crate::front::copy_front;
use crate::{Failed, Sink, Source};
use rc_ids::NoMemory;
use std::alloc::Global;
use std::marker::Model;

/// Bytes in memory to read, in pieces of at most so many bytes. The calls whose numbers are in its
/// list fail; calls are counted from 1.
#[derive(Debug, Drop)]
pub struct MemSource {
    bytes: Vec<u8>,
    place: usize,
    piece: usize,
    calls: u64,
    fails: Vec<u64>,
    faults: u64,
}

impl Model for MemSource {
    ghost use Rattle.std.specs.Prelude.{◌≤◌, ◌<◌, drop, length};
    ghost use Rattle.rc_ports.specs.Streams.{Supply};

    ghost Value = { Supply };

    ghost view = { λ s. record { left = drop s.place s.bytes.items; piece = s.piece; calls = s.calls; fails = s.fails.items; faults = s.faults } };

    ghost invariant = { λ s. (s.place ≤ length s.bytes.items) × (1 ≤ s.piece) };
}

impl MemSource {
    /// A source of the bytes, with the numbers of the calls that fail.
    pub fn new(bytes: Vec<u8>, fails: Vec<u64>) -> Self
        ensures { result ≡ supply bytes.items fails.items }
    {
        MemSource {
            bytes,
            place: 0,
            piece: usize::MAX,
            calls: 0,
            fails,
            faults: 0,
        }
    }

    /// The source with at most so many bytes a call.
    pub fn with_pieces(mut self, piece: usize) -> Self
        requires { 1 ≤ piece }
        ensures { result ≡ in_pieces piece self }
    {
        self.piece = piece;
        self
    }
}

impl Source for MemSource {
    ghost left = { λ s. Some s.left };

    ghost faults = { λ s. s.faults };

    fn read(&mut self, buf: &mut [u8]) -> Result<usize, Failed>
        ensures bound { ReadsAtMost result buf.new }
        ensures bytes { ReadConsumes (Some self.old.left) (Some self.new.left) result buf.new }
        ensures none { OnErr result (Some self.new.left ≡ Some self.old.left) }
        ensures cause { HasCause self.old.faults self.new.faults result }

        // It fails exactly at the numbers in its list, and else gives as much as it may.
        ensures fails { is_err result ≡ is_listed self.old.fails (raised self.old.calls) }
        ensures full { IfOk result (λ n. n ≡ min (min (length buf.old) self.old.piece) (length self.old.left)) }
        ensures gave { IfOk result (λ n. self.new ≡ gave n self.old) }
        ensures refused { OnErr result (self.new ≡ refused_read self.old) }
    {
        self.calls = self.calls.saturating_add(1);
        if self.fails.contains(&self.calls) {
            self.faults = self.faults.saturating_add(1);
            return Err(Failed);
        }
        let count = copy_front(&self.bytes[self.place..], buf, self.piece);
        self.place += count;
        Ok(count)
    }
}

/// A buffer in memory to write to, in pieces of at most so many bytes. The calls whose numbers are
/// in its list fail, and so does one with bytes where the capacity is used up; calls are counted
/// from 1.
#[derive(Debug, Drop)]
pub struct MemSink {
    bytes: Vec<u8>,
    capacity: usize,
    piece: usize,
    calls: u64,
    fails: Vec<u64>,
    faults: u64,
}

impl Model for MemSink {
    ghost use Rattle.std.specs.Prelude.{◌≤◌, length, vec_capacity};
    ghost use Rattle.rc_ports.specs.Streams.{Store};

    ghost Value = { Store };

    ghost view = { λ s. record { taken = s.bytes.items; capacity = s.capacity; piece = s.piece; calls = s.calls; fails = s.fails.items; faults = s.faults } };

    ghost invariant = { λ s. (length s.bytes.items ≤ s.capacity) × (s.capacity ≤ vec_capacity s.bytes) × (1 ≤ s.piece) };
}

impl MemSink {
    /// An empty sink for so many bytes, with the numbers of the calls that fail.
    pub fn new(alloc: Global, capacity: usize, fails: Vec<u64>) -> Result<Self, NoMemory>
        ensures { IfOk result (λ s. s ≡ store capacity fails.items) }
    {
        let bytes = Vec::with_capacity(alloc, capacity)?;
        Ok(MemSink {
            bytes,
            capacity,
            piece: usize::MAX,
            calls: 0,
            fails,
            faults: 0,
        })
    }

    /// The sink with at most so many bytes a call.
    pub fn with_pieces(mut self, piece: usize) -> Self
        requires { 1 ≤ piece }
        ensures { result ≡ stored_in_pieces piece self }
    {
        self.piece = piece;
        self
    }

    /// The bytes that it took.
    pub fn bytes(&self) -> &[u8]
        ensures { result.now ≡ self.now.taken }
    {
        &self.bytes
    }

    /// The bytes that it took, as a vector.
    pub fn into_bytes(self) -> Vec<u8>
        ensures { result.items ≡ self.taken }
    {
        self.bytes
    }
}

impl Sink for MemSink {
    ghost taken = { λ s. Some s.taken };

    ghost faults = { λ s. s.faults };

    fn write(&mut self, bytes: &[u8]) -> Result<usize, Failed>
        ensures bound { WritesAtMost result bytes.now }
        ensures some { 0 < length bytes.now → IfOk result (λ n. 0 < n) }
        ensures bytes { IfOk result (λ n. Some self.new.taken ≡ grown (take n bytes.now) (Some self.old.taken)) }
        ensures none { OnErr result (Some self.new.taken ≡ Some self.old.taken) }
        ensures cause { HasCause self.old.faults self.new.faults result }

        // It fails exactly at the numbers in its list and where it is full, and else takes as much as it may.
        ensures fails { is_err result ≡ (is_listed self.old.fails (raised self.old.calls)
            || (nat_lt 0 (length bytes.now) && (length self.old.taken == self.old.capacity))) }
        ensures full { IfOk result (λ n. n ≡ min (min (length bytes.now) self.old.piece) (self.old.capacity - length self.old.taken)) }
        ensures took { IfOk result (λ n. self.new ≡ took (take n bytes.now) self.old) }
        ensures refused { OnErr result (self.new ≡ refused_write self.old) }
    {
        self.calls = self.calls.saturating_add(1);
        let room = self.capacity - self.bytes.len();
        if self.fails.contains(&self.calls) || (!bytes.is_empty() && room == 0) {
            self.faults = self.faults.saturating_add(1);
            return Err(Failed);
        }
        let count = bytes.len().min(self.piece).min(room);
        self.bytes.extend_from_slice(&bytes[..count]).unwrap();
        Ok(count)
    }
}

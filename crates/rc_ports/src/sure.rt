// A source and a sink that never fail.
ghost use Rattle.std.specs.Prelude.{◌≡◌, ◌<◌, ◌≤◌, min, length, take, drop, Some, None, IfOk, OnErr, IsOk};
ghost use Rattle.std.specs.Io.{ReadsAtMost, WritesAtMost};
ghost use Rattle.std.specs.Io.KnownBytes.{ReadConsumes};
ghost use Rattle.rc_ports.specs.Causes.{HasCause, total};
ghost use Rattle.rc_ports.specs.Streams.{grown};

use crate::front::copy_front;
use crate::{Failed, Sink, Source};
use std::marker::Model;

/// Bytes in memory to read. No call fails.
#[derive(Debug, Drop)]
pub struct SureSource {
    bytes: Vec<u8>,
    place: usize,
}

impl Model for SureSource {
    ghost use Rattle.std.specs.Prelude.{ℕ, List, ◌≤◌, drop, length};

    ghost Value = { List ℕ };

    ghost view = { λ s. drop s.place s.bytes.items };

    ghost invariant = { λ s. s.place ≤ length s.bytes.items };
}

impl SureSource {
    /// A source of the bytes.
    pub fn new(bytes: Vec<u8>) -> Self
        ensures { result ≡ bytes.items }
    {
        SureSource { bytes, place: 0 }
    }
}

impl Source for SureSource {
    ghost left = { λ s. Some s };

    ghost faults = { λ _. 0 };

    fn read(&mut self, buf: &mut [u8]) -> Result<usize, Failed>
        ensures bound { ReadsAtMost result buf.new }
        ensures bytes { ReadConsumes (Some self.old) (Some self.new) result buf.new }
        ensures none { OnErr result (Some self.new ≡ Some self.old) }
        ensures cause { HasCause 0 0 result }
        ensures sure { IsOk result }
        ensures full { IfOk result (λ n. n ≡ min (length buf.old) (length self.old)) }
    {
        let count = copy_front(&self.bytes[self.place..], buf, usize::MAX);
        self.place += count;
        Ok(count)
    }
}

/// Takes all bytes and keeps none: it counts them. No call fails.
#[derive(Debug, Drop)]
pub struct SureSink {
    count: u64,
}

impl Model for SureSink {
    ghost use Rattle.std.specs.Prelude.{ℕ};

    ghost Value = { ℕ };

    ghost view = { λ s. s.count };
}

impl SureSink {
    /// A sink that took nothing yet.
    pub fn new() -> Self
        ensures { result ≡ 0 }
    {
        SureSink { count: 0 }
    }

    /// How many bytes it took, or the last number of its type where these are more.
    pub fn count(&self) -> u64
        ensures { result ≡ self.now }
    {
        self.count
    }
}

impl Sink for SureSink {
    ghost taken = { λ _. None };

    ghost faults = { λ _. 0 };

    fn write(&mut self, bytes: &[u8]) -> Result<usize, Failed>
        ensures bound { WritesAtMost result bytes.now }
        ensures some { 0 < length bytes.now → IfOk result (λ n. 0 < n) }
        ensures bytes { IfOk result (λ n. None ≡ grown (take n bytes.now) None) }
        ensures cause { HasCause 0 0 result }
        ensures sure { result ≡ Ok (length bytes.now) }
        ensures counted { self.new ≡ total self.old (length bytes.now) }
    {
        self.count = self.count.saturating_add(bytes.len() as u64);
        Ok(bytes.len())
    }
}

// The real thing: readers and writers of std, of whose bytes nothing is told.
ghost use Rattle.std.specs.Prelude.{◌≡◌, None};

use crate::{Failed, Sink, Source};
use std::io::{Read, Write};

/// A reader of std as a source. It counts its errors.
#[derive(Drop)]
pub struct HostSource<R: Read> {
    reader: R,
    faults: u64,
}

impl<R: Read> HostSource<R> {
    /// A source over the reader, with no fault yet.
    pub fn new(reader: R) -> Self {
        HostSource { reader, faults: 0 }
    }
}

impl<R: Read> Source for HostSource<R> {
    ghost left = { λ _. None };

    ghost faults = { λ s. s.faults };

    fn read(&mut self, buf: &mut [u8]) -> Result<usize, Failed> {
        match self.reader.read(buf) {
            Ok(count) => Ok(count),
            Err(_) => {
                self.faults = self.faults.saturating_add(1);
                Err(Failed)
            }
        }
    }
}

/// A writer of std as a sink. It counts its errors, and a piece of which the writer takes nothing.
#[derive(Drop)]
pub struct HostSink<W: Write> {
    writer: W,
    faults: u64,
}

impl<W: Write> HostSink<W> {
    /// A sink over the writer, with no fault yet.
    pub fn new(writer: W) -> Self {
        HostSink { writer, faults: 0 }
    }

    /// The writer.
    pub fn into_writer(self) -> W {
        self.writer
    }
}

impl<W: Write> Sink for HostSink<W> {
    ghost taken = { λ _. None };

    ghost faults = { λ s. s.faults };

    fn write(&mut self, bytes: &[u8]) -> Result<usize, Failed> {
        match self.writer.write(bytes) {
            Ok(count) if 0 < count || bytes.is_empty() => Ok(count),
            _ => {
                self.faults = self.faults.saturating_add(1);
                Err(Failed)
            }
        }
    }
}

// Reading to the end, and writing all.
ghost use Rattle.std.specs.Prelude.{◌≡◌, ◌<◌, ◌≤◌, List, ℕ, length, take, IfOk, IfErr, OnOk, OnErr};
ghost use Rattle.std.specs.Io.KnownBytes.{Consumes, IsAtEnd};
ghost use Rattle.rc_ports.specs.Causes.{Rose};
ghost use Rattle.rc_ports.specs.Streams.{grown};
ghost use Rattle.rc_ports.specs.declared.whole.ReadFault.TheVariants.{NoMemory as ReadNoMemory, Failed as ReadFailed};

use crate::{Failed, Sink, Source};
use std::alloc::{AllocError, Global};
use std::error::Error;
use std::fmt;

/// Why a source was not read to its end.
#[derive(Clone, Copy, Debug, PartialEq, Eq)]
pub enum ReadFault {
    /// There was no memory for the bytes.
    NoMemory,
    /// The source failed.
    Failed,
}

impl fmt::Display for ReadFault {
    fn fmt<W: fmt::Write>(&self, f: &mut fmt::Formatter<W>) -> fmt::Result {
        match self {
            ReadFault::NoMemory => write!(f, "out of memory"),
            ReadFault::Failed => write!(f, "the source failed"),
        }
    }
}

impl Error for ReadFault {}

impl From<AllocError> for ReadFault {
    ghost from_gives = { λ _ e. e ≡ ReadNoMemory };

    fn from(_: AllocError) -> Self {
        ReadFault::NoMemory
    }
}

impl From<Failed> for ReadFault {
    ghost from_gives = { λ _ e. e ≡ ReadFailed };

    fn from(_: Failed) -> Self {
        ReadFault::Failed
    }
}

/// Reads the source to its end, or until more than `limit` bytes are there. So the answer is the
/// whole of the source, or longer than the limit.
pub fn read_all<S: Source>(
    alloc: Global,
    source: &mut S,
    limit: usize,
) -> Result<Vec<u8>, ReadFault>
    // What it answers is what the source lost.
    ensures bytes { IfOk result (λ all. Consumes (S.left source.old) (S.left source.new) all.items) }
    ensures whole { IfOk result (λ all. length all.items ≤ limit → IsAtEnd (S.left source.new)) }

    ensures part { OnErr result ((lost : List ℕ) × Consumes (S.left source.old) (S.left source.new) lost) }
    ensures later { S.faults source.old ≤ S.faults source.new }
    ensures cause { IfErr result (λ e. e ≡ ReadFailed → Rose (S.faults source.old) (S.faults source.new)) }
{
    let mut all = Vec::new(alloc);
    let mut buffer = [0; 4096];
    while all.len() <= limit {
        let count = source.read(&mut buffer)?;
        if count == 0 {
            break;
        }
        all.extend_from_slice(&buffer[..count])?;
    }
    Ok(all)
}

/// Offers the bytes, and their rest again, until all are taken.
pub fn write_all<K: Sink>(sink: &mut K, bytes: &[u8]) -> Result<(), Failed>
    ensures ok { OnOk result (K.taken sink.new ≡ grown bytes.now (K.taken sink.old)) }
    ensures part { OnErr result ((n : ℕ) × (n < length bytes.now) × (K.taken sink.new ≡ grown (take n bytes.now) (K.taken sink.old))) }
    ensures later { K.faults sink.old ≤ K.faults sink.new }
    ensures cause { OnErr result (Rose (K.faults sink.old) (K.faults sink.new)) }
{
    let mut rest = bytes;
    while !rest.is_empty() {
        let count = sink.write(rest)?;
        rest = rest.split_at(count).1;
    }
    Ok(())
}

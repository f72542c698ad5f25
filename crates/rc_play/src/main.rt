//! rc_play: runs the script that stands on its standard input, and writes its text to its standard output.
#![tactic(auto)]

ghost use Rattle.std.specs.Prelude.{IfOk};
ghost use Rattle.rc_player.specs.Play.{IsAnswer};

#[cfg(test)]
mod tests;

use rc_ids::NoMemory;
use rc_player::play;
use rc_ports::{HostSink, HostSource, Status, Word};
use std::env;
use std::io::{BufReader, BufWriter, Write, writer};
use std::process::ExitCode;

/// The most bytes that are read ahead, or that wait to be written.
const BUFFER_BYTES: usize = 65_536;

/// The words that the program was started with, after its own name.
fn words(rt: &HostRuntime) -> Result<Vec<Word>, NoMemory> {
    let mut words = Vec::new(rt.alloc());
    for arg in env::args(rt).map_err(|_| NoMemory)?.skip(1) {
        words.push(Word::new(rt.alloc(), arg.as_bytes())?)?;
    }
    Ok(words)
}

/// Runs the standard input's script. What waits to be written at its end is written then.
fn run(rt: &HostRuntime) -> Result<Status, NoMemory>
    ensures { IfOk result (λ status. IsAnswer status) }
{
    let words = words(rt)?;
    let reader = BufReader::with_capacity(rt.alloc(), BUFFER_BYTES, rt.reader());
    let printer = BufWriter::with_capacity(rt.alloc(), BUFFER_BYTES, writer(rt));
    let mut source = HostSource::new(reader.map_err(|_| NoMemory)?);
    let mut sink = HostSink::new(printer.map_err(|_| NoMemory)?);
    let status = play(rt.alloc(), words.as_slice(), &mut source, &mut sink);
    Ok(match sink.into_writer().flush() {
        Ok(()) => status,
        Err(_) => Status::WriteFault,
    })
}

fn main(rt: HostRuntime) -> ExitCode {
    let status = match run(&rt) {
        Ok(status) => status,
        Err(NoMemory) => Status::NoMemory,
    };
    ExitCode::from(status.number())
}

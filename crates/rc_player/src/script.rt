// A script: its bytes, its lines in order, and what is written where it is refused.
ghost use Rattle.std.specs.Prelude.{◌≡◌, ◌≤◌, [], ◌∷◌, IfOk, IfErr};
ghost use Rattle.rc_ports.specs.Causes.{Rose};
ghost use Rattle.rc_script.specs.Grammar.{IsScript, commands_of};
ghost use Rattle.rc_runs.specs.Stored.{in_memory};
ghost use Rattle.rc_runs.specs.Text.{plays, plays_script, plays_bytes};
ghost use Rattle.rc_player.specs.Play.{IsWhole};
ghost use Rattle.rc_player.specs.Written.{Took, Wrote, line_texts};

use crate::cluster::cluster_of;
use crate::line::{play_line, write_lines};
use crate::stop::Stop;
use rc_plain_world::Session;
use rc_ports::{Sink, Status};
use rc_report::Line;
use rc_script::{NumberedCommand, ScriptFault, parse};
use std::alloc::Global;

/// The most bytes of a script.
pub const MOST_SCRIPT_BYTES: usize = 1_048_576;

/// Runs the lines in order, until one ends the script, and writes the text of each as soon as it was run.
fn play_lines<K: Sink>(
    alloc: Global,
    session: &mut Session,
    lines: &[NumberedCommand],
    sink: &mut K,
) -> Result<Status, Stop>
    ensures wrote { Wrote (plays session.old lines.now) result (K.taken sink.old) (K.taken sink.new) }
    ensures whole { IfOk result IsWhole }
    ensures later { K.faults sink.old ≤ K.faults sink.new }
    ensures cause { IfErr result (λ e. e ≡ Stop.Failed → Rose (K.faults sink.old) (K.faults sink.new)) }
{
    for line in lines {
        if let Some(status) = play_line(alloc, session, line, sink)? {
            return Ok(status);
        }
    }
    Ok(Status::Done)
}

/// Makes the world of the first line, and runs the others.
fn play_script<K: Sink>(
    alloc: Global,
    commands: &[NumberedCommand],
    sink: &mut K,
) -> Result<Status, Stop>
    requires { IsScript (commands_of commands.now) }
    ensures wrote { Wrote (plays_script in_memory commands.now) result (K.taken sink.old) (K.taken sink.new) }
    ensures whole { IfOk result IsWhole }
    ensures later { K.faults sink.old ≤ K.faults sink.new }
    ensures cause { IfErr result (λ e. e ≡ Stop.Failed → Rose (K.faults sink.old) (K.faults sink.new)) }
{
    let Some((first, later)) = commands.split_first() else {
        return Ok(Status::Done);
    };
    let cluster = cluster_of(alloc, &first.command, later)?;
    let mut session = Session::new(alloc, cluster)?;
    play_lines(alloc, &mut session, later, sink)
}

/// Writes the one line of a script that is refused before a line of it is run.
fn refuse<K: Sink>(alloc: Global, line: Line, status: Status, sink: &mut K) -> Result<Status, Stop>
    ensures took { Took (line_texts (line ∷ [])) result (K.taken sink.old) (K.taken sink.new) }
    ensures status { IfOk result (λ s. s ≡ status) }
    ensures later { K.faults sink.old ≤ K.faults sink.new }
    ensures cause { IfErr result (λ e. e ≡ Stop.Failed → Rose (K.faults sink.old) (K.faults sink.new)) }
{
    write_lines(alloc, &[line], sink)?;
    Ok(status)
}

/// Runs the script that the bytes are, or writes why they are none.
pub fn play_bytes<K: Sink>(alloc: Global, bytes: &[u8], sink: &mut K) -> Result<Status, Stop>
    ensures wrote { Wrote (plays_bytes in_memory bytes.now) result (K.taken sink.old) (K.taken sink.new) }
    ensures whole { IfOk result IsWhole }
    ensures later { K.faults sink.old ≤ K.faults sink.new }
    ensures cause { IfErr result (λ e. e ≡ Stop.Failed → Rose (K.faults sink.old) (K.faults sink.new)) }
{
    if bytes.len() > MOST_SCRIPT_BYTES {
        return refuse(alloc, Line::ScriptBytes, Status::Limit, sink);
    }
    match parse(alloc, bytes) {
        Ok(script) => play_script(alloc, script.lines(), sink),
        Err(ScriptFault::NoMemory) => Err(Stop::NoMemory),
        Err(ScriptFault::Line { number }) => {
            refuse(alloc, Line::Outside(number), Status::BadScript, sink)
        }
        Err(ScriptFault::TooManyLines) => refuse(alloc, Line::ScriptLines, Status::Limit, sink),
    }
}

// One line of a script: run, and its text written as one piece.
ghost use Rattle.std.specs.Prelude.{◌≡◌, ◌≤◌, [], None, Some, Ok, IfOk, IfErr, IfSome};
ghost use Rattle.rc_ports.specs.Causes.{Rose};
ghost use Rattle.rc_runs.specs.Script.{performs};
ghost use Rattle.rc_player.specs.Play.{IsWhole};
ghost use Rattle.rc_player.specs.Written.{Took, line_texts, lines_of, end_in};

use crate::stop::Stop;
use rc_ids::{NoMemory, Text};
use rc_plain_world::{Session, SessionFault};
use rc_ports::{Sink, Status, write_all};
use rc_report::{Line, Lines, render};
use rc_script::NumberedCommand;
use std::alloc::Global;

/// The text of the lines.
fn rendered(alloc: Global, lines: &[Line]) -> Result<Text, NoMemory>
    ensures { IfOk result (λ text. text ≡ line_texts lines.now) }
{
    let mut text = Text::new(alloc);
    for line in lines {
        render(line, &mut text)?;
    }
    Ok(text)
}

/// Offers the text of the lines to the sink as one piece, until all of it is taken.
pub fn write_lines<K: Sink>(alloc: Global, lines: &[Line], sink: &mut K) -> Result<(), Stop>
    ensures took { Took (line_texts lines.now) result (K.taken sink.old) (K.taken sink.new) }
    ensures later { K.faults sink.old ≤ K.faults sink.new }
    ensures cause { IfErr result (λ e. e ≡ Stop.Failed → Rose (K.faults sink.old) (K.faults sink.new)) }
{
    let text = rendered(alloc, lines)?;
    write_all(sink, text.as_bytes())?;
    Ok(())
}

/// Runs a line. Where it ends the script, its fault line comes last, and this is the status.
fn run_line(
    alloc: Global,
    session: &mut Session,
    line: &NumberedCommand,
    lines: &mut Lines,
) -> Result<Option<Status>, NoMemory>
    requires { lines.old ≡ [] }
    ensures lines { IfOk result (λ end. lines.new ≡ lines_of line.now.number (performs session.old line.now.command)) }
    ensures end { IfOk result (λ end. end ≡ end_in (performs session.old line.now.command)) }
    ensures whole { IfOk result (λ end. IfSome end IsWhole) }
    ensures after { result ≡ Ok None → session.new ≡ (performs session.old line.now.command).after }
{
    match session.perform(alloc, &line.command, lines) {
        Ok(()) => Ok(None),
        Err(SessionFault::NoMemory) => Err(NoMemory),
        Err(SessionFault::Naming(name)) => {
            lines.push(Line::Named(line.number, name))?;
            Ok(Some(Status::BadScript))
        }
        Err(SessionFault::Limit(which)) => {
            lines.push(Line::Limit(line.number, which))?;
            Ok(Some(Status::Limit))
        }
    }
}

/// Runs a line and writes its text. The status where the line ended the script.
pub fn play_line<K: Sink>(
    alloc: Global,
    session: &mut Session,
    line: &NumberedCommand,
    sink: &mut K,
) -> Result<Option<Status>, Stop>
    ensures took { Took (line_texts (lines_of line.now.number (performs session.old line.now.command))) result (K.taken sink.old) (K.taken sink.new) }
    ensures end { IfOk result (λ end. end ≡ end_in (performs session.old line.now.command)) }
    ensures whole { IfOk result (λ end. IfSome end IsWhole) }
    ensures after { result ≡ Ok None → session.new ≡ (performs session.old line.now.command).after }
    ensures later { K.faults sink.old ≤ K.faults sink.new }
    ensures cause { IfErr result (λ e. e ≡ Stop.Failed → Rose (K.faults sink.old) (K.faults sink.new)) }
{
    let mut lines = Lines::new(alloc);
    let end = run_line(alloc, session, line, &mut lines)?;
    write_lines(alloc, lines.as_slice(), sink)?;
    Ok(end)
}

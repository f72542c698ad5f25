// The lines of a script: what each does on a session, and what it prints behind the lines so far.
ghost use Rattle.std.specs.Prelude.{◌≡◌, ◌++◌, [], ◌∷◌, OnOk, IfErr, length};
ghost use Rattle.rc_ids.specs.Texts.{gone};
ghost use Rattle.rc_report.specs.declared.line.Line.TheVariants.{Settled as SettledLine, Order as OrderLine};
ghost use Rattle.rc_runs.specs.World as world_spec;
ghost use Rattle.rc_runs.specs.Refusals.{most_events};
ghost use Rattle.rc_runs.specs.Script.{by_event, by_lines, each, steps, settles, pending_lines, shown_lines, performs};
ghost use Rattle.rc_plain_world.specs.Sessions.{Halted, Performed};
ghost use Rattle.rc_plain_world.specs.Lines.{Did, Ended};

use crate::SessionFault;
use crate::session::Session;
use rc_ids::{DcId, Key, NoMemory, NodeId, TxId, Val};
use rc_report::{Line, Lines, Which};
use rc_runs::Event;
use rc_script::Command;
use std::alloc::Global;

/// The most events of a run.
const MOST_EVENTS: u32 = 2_000_000;

/// One event.
fn event(
    session: &mut Session,
    alloc: Global,
    event: &Event,
    lines: &mut Lines,
) -> Result<(), SessionFault>
    ensures done { OnOk result (Did (by_event session.old event.now) session.new lines.old lines.new) }
    ensures ended { IfErr result (λ e. Ended e (by_event session.old event.now) lines.old lines.new) }
{
    session.happen(alloc, event, lines)
}

/// Delivers a message.
fn deliver(
    session: &mut Session,
    alloc: Global,
    number: u32,
    lines: &mut Lines,
) -> Result<(), SessionFault>
    ensures done { OnOk result (Did (by_event session.old (Event.Deliver number)) session.new lines.old lines.new) }
    ensures ended { IfErr result (λ e. Ended e (by_event session.old (Event.Deliver number)) lines.old lines.new) }
{
    event(session, alloc, &Event::Deliver(number), lines)
}

/// Loses a message.
fn lose(
    session: &mut Session,
    alloc: Global,
    number: u32,
    lines: &mut Lines,
) -> Result<(), SessionFault>
    ensures done { OnOk result (Did (by_event session.old (Event.Lose number)) session.new lines.old lines.new) }
    ensures ended { IfErr result (λ e. Ended e (by_event session.old (Event.Lose number)) lines.old lines.new) }
{
    event(session, alloc, &Event::Lose(number), lines)
}

/// Delivers each of these messages in turn.
fn deliver_each(
    session: &mut Session,
    alloc: Global,
    numbers: &[u32],
    lines: &mut Lines,
) -> Result<(), SessionFault>
    ensures done { OnOk result (Did (each (λ n. Event.Deliver n) numbers.now session.old) session.new lines.old lines.new) }
    ensures ended { IfErr result (λ e. Ended e (each (λ n. Event.Deliver n) numbers.now session.old) lines.old lines.new) }
{
    for number in numbers {
        if let Err(fault) = deliver(session, alloc, *number, lines) {
            return Err(fault);
        }
    }
    Ok(())
}

/// Loses each of these messages in turn.
fn lose_each(
    session: &mut Session,
    alloc: Global,
    numbers: &[u32],
    lines: &mut Lines,
) -> Result<(), SessionFault>
    ensures done { OnOk result (Did (each (λ n. Event.Lose n) numbers.now session.old) session.new lines.old lines.new) }
    ensures ended { IfErr result (λ e. Ended e (each (λ n. Event.Lose n) numbers.now session.old) lines.old lines.new) }
{
    for number in numbers {
        if let Err(fault) = lose(session, alloc, *number, lines) {
            return Err(fault);
        }
    }
    Ok(())
}

/// Delivers the oldest pending message, so many times or until none is pending.
fn step(
    session: &mut Session,
    alloc: Global,
    count: u32,
    lines: &mut Lines,
) -> Result<(), SessionFault>
    ensures done { OnOk result (Did (steps count session.old) session.new lines.old lines.new) }
    ensures ended { IfErr result (λ e. Ended e (steps count session.old) lines.old lines.new) }
{
    for taken in 0..count {
        let Some(number) = session.oldest() else {
            return Ok(());
        };
        if let Err(fault) = deliver(session, alloc, number, lines) {
            return Err(fault);
        }
    }
    Ok(())
}

/// Prints the number of deliveries.
fn settled(
    session: &mut Session,
    alloc: Global,
    count: u32,
    lines: &mut Lines,
) -> Result<(), SessionFault>
    ensures done { OnOk result (Did (by_lines session.old (SettledLine count ∷ [])) session.new lines.old lines.new) }
    ensures ended { IfErr result (λ e. Ended e (by_lines session.old (SettledLine count ∷ [])) lines.old lines.new) }
{
    let start = lines.len();
    lines.push(Line::Settled(count as u64))?;
    session.charge(alloc, lines, start)
}

/// Delivers the oldest pending message until none is pending, and then prints the number of deliveries.
fn settle(session: &mut Session, alloc: Global, lines: &mut Lines) -> Result<(), SessionFault>
    ensures done { OnOk result (Did (settles most_events 0 session.old) session.new lines.old lines.new) }
    ensures ended { IfErr result (λ e. Ended e (settles most_events 0 session.old) lines.old lines.new) }
{
    for count in 0..MOST_EVENTS {
        let Some(number) = session.oldest() else {
            return settled(session, alloc, count, lines);
        };
        if let Err(fault) = deliver(session, alloc, number, lines) {
            return Err(fault);
        }
    }
    if let Some(_number) = session.oldest() {
        return Err(SessionFault::Limit(Which::Events));
    }
    settled(session, alloc, MOST_EVENTS, lines)
}

/// Prints the pending messages.
fn print_pending(
    session: &mut Session,
    alloc: Global,
    lines: &mut Lines,
) -> Result<(), SessionFault>
    ensures done { OnOk result (Did (by_lines session.old (pending_lines session.old.world)) session.new lines.old lines.new) }
    ensures ended { IfErr result (λ e. Ended e (by_lines session.old (pending_lines session.old.world)) lines.old lines.new) }
{
    let start = lines.len();
    session.push_pending(lines)?;
    session.charge(alloc, lines, start)
}

/// Prints the rows of a datacentre's shards.
fn print_shown(
    session: &mut Session,
    alloc: Global,
    dc: DcId,
    lines: &mut Lines,
) -> Result<(), SessionFault>
    ensures done { OnOk result (Did (by_lines session.old (shown_lines session.old.world.parties dc)) session.new lines.old lines.new) }
    ensures ended { IfErr result (λ e. Ended e (by_lines session.old (shown_lines session.old.world.parties dc)) lines.old lines.new) }
{
    let start = lines.len();
    session.push_shown(alloc, dc, lines)?;
    session.charge(alloc, lines, start)
}

/// Prints the committed transactions.
fn print_order(session: &mut Session, alloc: Global, lines: &mut Lines) -> Result<(), SessionFault>
    ensures done { OnOk result (Did (by_lines session.old (OrderLine (world_spec.order session.old.world) ∷ [])) session.new lines.old lines.new) }
    ensures ended { IfErr result (λ e. Ended e (by_lines session.old (OrderLine (world_spec.order session.old.world) ∷ [])) lines.old lines.new) }
{
    let start = lines.len();
    session.push_order(alloc, lines)?;
    session.charge(alloc, lines, start)
}

/// A client buffers the deletion of a key.
fn delete(
    session: &mut Session,
    alloc: Global,
    tx: TxId,
    key: &Key,
    lines: &mut Lines,
) -> Result<(), SessionFault>
    ensures done { OnOk result (Did (by_event session.old (Event.Write tx key.now gone)) session.new lines.old lines.new) }
    ensures ended { IfErr result (λ e. Ended e (by_event session.old (Event.Write tx key.now gone)) lines.old lines.new) }
{
    let write = Event::Write(tx, key.copy(), Val::gone(alloc)?);
    event(session, alloc, &write, lines)
}

/// A client buffers a write.
fn write(
    session: &mut Session,
    alloc: Global,
    tx: TxId,
    key: &Key,
    value: &Val,
    lines: &mut Lines,
) -> Result<(), SessionFault>
    ensures done { OnOk result (Did (by_event session.old (Event.Write tx key.now value.now)) session.new lines.old lines.new) }
    ensures ended { IfErr result (λ e. Ended e (by_event session.old (Event.Write tx key.now value.now)) lines.old lines.new) }
{
    let write = Event::Write(tx, key.copy(), value.copy()?);
    event(session, alloc, &write, lines)
}

/// The same node.
fn same_node(node: &NodeId) -> NodeId
    ensures { result ≡ node.now }
{
    match node {
        NodeId::Coord(dc) => NodeId::Coord(*dc),
        NodeId::Shard(dc, shard) => NodeId::Shard(*dc, *shard),
    }
}

/// Stops a node between messages.
fn crash(
    session: &mut Session,
    alloc: Global,
    node: &NodeId,
    lines: &mut Lines,
) -> Result<(), SessionFault>
    ensures done { OnOk result (Did (by_event session.old (Event.Crash node.now)) session.new lines.old lines.new) }
    ensures ended { IfErr result (λ e. Ended e (by_event session.old (Event.Crash node.now)) lines.old lines.new) }
{
    event(session, alloc, &Event::Crash(same_node(node)), lines)
}

/// A datacentre takes a transaction over.
fn take(
    session: &mut Session,
    alloc: Global,
    dc: DcId,
    tx: TxId,
    lines: &mut Lines,
) -> Result<(), SessionFault>
    ensures done { OnOk result (Did (by_event session.old (Event.Take dc tx)) session.new lines.old lines.new) }
    ensures ended { IfErr result (λ e. Ended e (by_event session.old (Event.Take dc tx)) lines.old lines.new) }
{
    event(session, alloc, &Event::Take(dc, tx), lines)
}

/// Arms a cut of the power of a node's disk.
fn crash_at(
    session: &mut Session,
    alloc: Global,
    node: &NodeId,
    call: u32,
    pick: u8,
    lines: &mut Lines,
) -> Result<(), SessionFault>
    ensures done { OnOk result (Did (by_event session.old (Event.CrashAt node.now call pick)) session.new lines.old lines.new) }
    ensures ended { IfErr result (λ e. Ended e (by_event session.old (Event.CrashAt node.now call pick)) lines.old lines.new) }
{
    let cut = Event::CrashAt {
        node: same_node(node),
        k: call,
        pick,
    };
    event(session, alloc, &cut, lines)
}

/// A line of a script, after the one that made the world.
pub(crate) fn perform(
    session: &mut Session,
    alloc: Global,
    command: &Command,
    lines: &mut Lines,
) -> Result<(), SessionFault>
    ensures done { OnOk result (Did (performs session.old command.now) session.new lines.old lines.new) }
    ensures ended { IfErr result (λ e. Ended e (performs session.old command.now) lines.old lines.new) }
{
    match command {
        Command::World { .. } | Command::Split(_) => Ok(()),
        Command::Begin(tx) => event(session, alloc, &Event::Begin(*tx), lines),
        Command::Read(tx, key) => event(session, alloc, &Event::Read(*tx, key.copy()), lines),
        Command::Write(tx, key, value) => write(session, alloc, *tx, key, value, lines),
        Command::Delete(tx, key) => delete(session, alloc, *tx, key, lines),
        Command::Commit(tx) => event(session, alloc, &Event::Commit(*tx), lines),
        Command::Cancel(tx, key) => event(session, alloc, &Event::Cancel(*tx, key.copy()), lines),
        Command::Retry(tx) => event(session, alloc, &Event::Retry(*tx), lines),
        Command::Vanish(tx) => event(session, alloc, &Event::Vanish(*tx), lines),
        Command::Step(count) => step(session, alloc, *count, lines),
        Command::Settle => settle(session, alloc, lines),
        Command::Deliver(numbers) => deliver_each(session, alloc, numbers.as_slice(), lines),
        Command::Lose(numbers) => lose_each(session, alloc, numbers.as_slice(), lines),
        Command::Crash(node) => crash(session, alloc, node, lines),
        Command::CrashAt { node, call, pick } => {
            crash_at(session, alloc, node, *call, *pick, lines)
        }
        Command::Restart(node) => event(session, alloc, &Event::Restart(same_node(node)), lines),
        Command::Take(dc, tx) => take(session, alloc, *dc, *tx, lines),
        Command::Catch(node) => event(session, alloc, &Event::Catch(same_node(node)), lines),
        Command::Pending => print_pending(session, alloc, lines),
        Command::Show(dc) => print_shown(session, alloc, *dc, lines),
        Command::Order => print_order(session, alloc, lines),
    }
}

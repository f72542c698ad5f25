// A script's run: a world with the disks of its nodes, and how many bytes of text it gave.
ghost use Rattle.std.specs.Prelude.{◌≡◌, ◌≤◌, ◌++◌, [], ◌∷◌, None, Some, Ok, OnOk, IfOk, IfErr, length, take, drop};
ghost use Rattle.std.specs.List.{flat_map};
ghost use Rattle.rc_report.specs.declared.line.Line.TheVariants.{Order as OrderLine, Pending as PendingLine};
ghost use Rattle.rc_runs.specs.World.{order as order_of};
ghost use Rattle.rc_runs.specs.Session.{prints};
ghost use Rattle.rc_runs.specs.Session as session_spec;
ghost use Rattle.rc_runs.specs.Script.{oldest as oldest_of, pending_lines, shown_lines};
ghost use Rattle.rc_plain_world.specs.Lines.{Counts, Refuses, line_of};
ghost use Rattle.rc_runs.specs.Session.{happens};
ghost use Rattle.rc_runs.specs.Script.{performs};
ghost use Rattle.rc_runs.specs.Stored.{in_memory, new_session};
ghost use Rattle.rc_plain_world.specs.Sessions.{Halts, Halted, Performed, EventHappened, Stay, event_lines};

use crate::SessionFault;
use crate::disk::counted;
use crate::lines::perform;
use crate::network::{Network, message, same_party};
use crate::parties::Parties;
use crate::world::happen_in;
use rc_ids::{Cluster, DcId, NoMemory, Text};
use rc_msg::Envelope;
use rc_report::{Line, Lines, Txs, Which, render};
use rc_runs::Event;
use rc_script::Command;
use std::alloc::Global;
use std::marker::Model;

/// The most bytes of text of a run.
const MOST_TEXT_BYTES: u64 = 1 << 30;

/// A world with the disks of its nodes, in memory. After a fault it is spent.
#[derive(Drop)]
pub struct Session {
    parties: Parties,
    network: Network,
    events: u32,
    /// The bytes of text printed.
    text: u64,
}

impl Model for Session {
    ghost use Rattle.rc_runs.specs.Session.{Session as SessionState};

    ghost Value = { SessionState };

    ghost use Rattle.rc_plain_world.specs.Sessions.{session_of};

    ghost view = { λ s. session_of s.parties s.network s.events s.text };
}

impl Session {
    /// A new world: each node's log is created on an empty disk.
    pub fn new(alloc: Global, cluster: Cluster) -> Result<Session, NoMemory>
        ensures { IfOk result (λ session. new_session in_memory cluster ≡ Ok session) }
    {
        Ok(Session {
            parties: Parties::new(alloc, cluster)?,
            network: Network::new(alloc),
            events: 0,
            text: 0,
        })
    }

    /// One event; what it prints is added to the lines. After a fault that is not want of memory they are as before.
    pub fn happen(
        &mut self,
        alloc: Global,
        event: &Event,
        lines: &mut Lines,
    ) -> Result<(), SessionFault>
        ensures done { OnOk result (EventHappened (happens self.old event.now) self.new (event_lines self.old event.now) lines.old lines.new) }
        ensures refused { IfErr result (λ e. Halts e (happens self.old event.now)) }
        ensures lines { IfErr result (λ e. Stay e lines.old lines.new) }
    {
        happen_in(
            alloc,
            &mut self.parties,
            &mut self.network,
            &mut self.events,
            &mut self.text,
            event,
            lines,
        )
    }

    /// One line of a script; what it prints is added to the lines, of which there are none before. After a fault that is
    /// not want of memory they are what it printed before that.
    pub fn perform(
        &mut self,
        alloc: Global,
        command: &Command,
        lines: &mut Lines,
    ) -> Result<(), SessionFault>
        requires { lines.old ≡ [] }
        ensures done { OnOk result (Performed (performs self.old command.now) self.new lines.new) }
        ensures halted { IfErr result (λ e. Halted e (performs self.old command.now) lines.new) }
    {
        perform(self, alloc, command, lines)
    }
}

impl Session {
    /// The oldest pending message.
    pub(crate) fn oldest(&self) -> Option<u32>
        ensures { result ≡ oldest_of self.now.world }
    {
        self.network.oldest()
    }

    /// Counts the text of the lines from `start` on. Where it would pass the limit they are taken away.
    pub(crate) fn charge(
        &mut self,
        alloc: Global,
        lines: &mut Lines,
        start: usize,
    ) -> Result<(), SessionFault>
        requires { start ≤ length lines.old }
        ensures done { OnOk result (Counts (prints self.old (drop start lines.old)) self.new (drop start lines.old) lines.old lines.new) }
        ensures refused { IfErr result (λ e. Refuses e (prints self.old (drop start lines.old)) (take start lines.old) lines.new) }
    {
        let own = lines.as_slice().split_at(start).1;
        let text = counted(self.text, text_bytes(alloc, own)?)?;
        if text > MOST_TEXT_BYTES {
            lines.cut(start);
            return Err(SessionFault::Limit(Which::TextBytes));
        }
        self.text = text;
        Ok(())
    }

    /// Adds the lines of the pending messages.
    pub(crate) fn push_pending(&self, lines: &mut Lines) -> Result<(), NoMemory>
        ensures { OnOk result (lines.new ≡ lines.old ++ pending_lines self.now.world) }
    {
        push_pending(&self.network, lines)
    }

    /// Adds the lines that show a datacentre's shards.
    pub(crate) fn push_shown(
        &self,
        alloc: Global,
        dc: DcId,
        lines: &mut Lines,
    ) -> Result<(), NoMemory>
        ensures { OnOk result (lines.new ≡ lines.old ++ shown_lines self.now.world.parties dc) }
    {
        self.parties.push_shown(alloc, dc, lines)
    }

    /// Adds the line of the committed transactions.
    pub(crate) fn push_order(&self, alloc: Global, lines: &mut Lines) -> Result<(), NoMemory>
        ensures { OnOk result (lines.new ≡ lines.old ++ OrderLine (order_of self.now.world) ∷ []) }
    {
        let txs = Txs::new(self.parties.order(alloc)?);
        lines.push(Line::Order(txs))
    }
}

/// The bytes of the lines.
fn text_bytes(alloc: Global, lines: &[Line]) -> Result<u64, NoMemory>
    ensures { IfOk result (λ bytes. bytes ≡ session_spec.text_bytes lines.now) }
{
    let mut bytes = 0;
    for line in lines {
        let mut text = Text::new(alloc);
        render(line, &mut text)?;
        bytes = counted(bytes, text.len() as u64)?;
    }
    Ok(bytes)
}

/// Adds the line of a pending message.
fn push_line(number: u32, envelope: &Envelope, lines: &mut Lines) -> Result<(), NoMemory>
    ensures { OnOk result (lines.new ≡ lines.old ++ PendingLine number envelope.now ∷ []) }
{
    let copied = Envelope {
        from: same_party(&envelope.from),
        to: same_party(&envelope.to),
        msg: envelope.msg.copy()?,
    };
    lines.push(Line::Pending(number, copied))
}

/// Adds the line of a message, if it was sent.
fn push_message(network: &Network, number: u32, lines: &mut Lines) -> Result<(), NoMemory>
    ensures { OnOk result (lines.new ≡ lines.old ++ line_of network.now.sent number) }
{
    match message(network.sent(), number) {
        Some(envelope) => push_line(number, envelope, lines),
        None => Ok(()),
    }
}

/// Adds the lines of the pending messages.
fn push_pending(network: &Network, lines: &mut Lines) -> Result<(), NoMemory>
    ensures { OnOk result (lines.new ≡ lines.old ++ flat_map (line_of network.now.sent) network.now.pending) }
{
    let pending = network.pending();
    for place in 0..pending.len() {
        push_message(network, pending[place], lines)?;
    }
    Ok(())
}

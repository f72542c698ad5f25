// One event on parties and network.
ghost use Rattle.std.specs.Prelude.{◌≡◌, ◌+◌, ◌<◌, ◌++◌, [], true, false, None, Some, Ok, OnOk, IfOk, IfErr, length};
ghost use Rattle.std.specs.Option.{option_copied};
ghost use Rattle.rc_runs.specs.World.{envelopes, deed};
ghost use Rattle.rc_runs.specs.World as world_spec;
ghost use Rattle.std.specs.Prelude.{nat_lt};
ghost use Rattle.rc_report.specs.Lines.{line_text};
ghost use Rattle.rc_runs.specs.Refusals.{wrong, wants_up};
ghost use Rattle.rc_runs.specs.Session.{text_bytes, most_text_bytes, happens};
ghost use Rattle.rc_plain_world.specs.Networks.{passed, posted, too_much};
ghost use Rattle.rc_plain_world.specs.declared.fault.ActFault.TheVariants.{NoMemory as OutOfMemory};
ghost use Rattle.rc_plain_world.specs.Sessions.{session_of, actor_if_any, EventActed, ActRefused, Stepped, late_limit, Halts, EventHappened, Stay, event_lines, fault_of_limit, SendRefused, Overprints};
ghost use Rattle.rc_plain_world.specs.Sessions as sessions;

use crate::SessionFault;
use crate::disk::counted;
use crate::fault::{ActFault, LimitFault};
use crate::network::{Network, addressed, bytes_of, message, same_party};
use crate::parties::Parties;
use rc_ids::{NoMemory, NodeId, Party, Text};
use rc_msg::{Envelope, Messages};
use rc_report::{Line, Lines, Which, Wrong, render};
use rc_runs::Event;
use std::alloc::Global;

/// The most transactions that are begun in a run.
const MOST_TRANSACTIONS: usize = 1024;

/// The most events of a run.
const MOST_EVENTS: u32 = 2_000_000;

/// The most bytes of text of a run.
const MOST_TEXT_BYTES: u64 = 1 << 30;

/// The same node.
fn same_node(node: &NodeId) -> NodeId
    ensures { result ≡ node.now }
{
    match node {
        NodeId::Coord(dc) => NodeId::Coord(*dc),
        NodeId::Shard(dc, shard) => NodeId::Shard(*dc, *shard),
    }
}

/// What the event names wrongly.
fn misnamed(parties: &Parties, network: &Network, event: &Event) -> Option<Wrong>
    ensures { result ≡ wrong (session_of parties.now network.now 0 0).world event.now }
{
    match event {
        Event::Begin(tx) => {
            if parties.is_begun(*tx) {
                Some(Wrong::BegunTwice(*tx))
            } else {
                None
            }
        }
        Event::Read(tx, key) => parties.misnamed(*tx, true, Some(key)),
        Event::Write(tx, key, _) => parties.misnamed(*tx, true, Some(key)),
        Event::Commit(tx) => parties.misnamed(*tx, true, None),
        Event::Cancel(tx, _) => parties.misnamed(*tx, true, None),
        Event::Retry(tx) => parties.misnamed(*tx, false, None),
        Event::Vanish(tx) => parties.misnamed(*tx, false, None),
        Event::Take(dc, tx) => {
            if !parties.is_up(&NodeId::Coord(*dc)) {
                return Some(Wrong::Down(NodeId::Coord(*dc)));
            }
            if parties.is_begun(*tx) {
                None
            } else {
                Some(Wrong::NotBegun(*tx))
            }
        }
        Event::Catch(node) => down(parties, node),
        Event::Deliver(number) => match message(network.sent(), *number) {
            None => Some(Wrong::NotSent(*number)),
            Some(_) => None,
        },
        Event::Lose(number) => match message(network.sent(), *number) {
            None => Some(Wrong::NotSent(*number)),
            Some(_) if network.is_pending(*number) => None,
            Some(_) => Some(Wrong::NotPending(*number)),
        },
        Event::Crash(node) => down(parties, node),
        Event::CrashAt { node, .. } => down(parties, node),
        Event::Restart(node) => {
            if parties.is_up(node) {
                Some(Wrong::Up(same_node(node)))
            } else {
                None
            }
        }
    }
}

/// The node's fault, if it is down.
fn down(parties: &Parties, node: &NodeId) -> Option<Wrong>
    ensures { result ≡ wants_up parties.now.parties node.now }
{
    if parties.is_up(node) {
        None
    } else {
        Some(Wrong::Down(same_node(node)))
    }
}

/// Who acts in the event, if anybody does.
fn actor(sent: &[Envelope], event: &Event) -> Option<Party>
    ensures { result ≡ actor_if_any sent.now event.now }
{
    match event {
        Event::Begin(tx) => Some(Party::Client(*tx)),
        Event::Read(tx, _) => Some(Party::Client(*tx)),
        Event::Write(tx, _, _) => Some(Party::Client(*tx)),
        Event::Commit(tx) => Some(Party::Client(*tx)),
        Event::Cancel(tx, _) => Some(Party::Client(*tx)),
        Event::Retry(tx) => Some(Party::Client(*tx)),
        Event::Vanish(tx) => Some(Party::Client(*tx)),
        Event::Take(dc, _) => Some(Party::Node(NodeId::Coord(*dc))),
        Event::Catch(node) => Some(Party::Node(same_node(node))),
        Event::Deliver(number) => match message(sent, *number) {
            None => None,
            Some(envelope) => Some(same_party(&envelope.to)),
        },
        Event::Lose(_) => None,
        Event::Crash(node) => Some(Party::Node(same_node(node))),
        Event::CrashAt { node, .. } => Some(Party::Node(same_node(node))),
        Event::Restart(node) => Some(Party::Node(same_node(node))),
    }
}

/// Whether in the event a party does its part that is up.
fn acts(event: &Event) -> bool
    ensures { result ≡ sessions.acts event.now }
{
    match event {
        Event::Begin(_) => false,
        Event::Lose(_) => false,
        Event::Crash(_) => false,
        Event::CrashAt { .. } => false,
        Event::Restart(_) => false,
        _ => true,
    }
}

/// A node that is up stops.
fn stop(
    alloc: Global,
    parties: &mut Parties,
    network: &Network,
    node: &NodeId,
    own: &mut Lines,
) -> Result<Messages, ActFault>
    requires named { wrong (session_of parties.old network.now 0 0).world (Event.Crash node.now) ≡ None }
    requires own { own.old ≡ [] }
    ensures done { IfOk result (λ out. EventActed parties.old parties.new network.now (Event.Crash node.now) out own.new) }
    ensures refused { IfErr result (λ e. e ≡ OutOfMemory) }
{
    parties.stop(node, own)?;
    Ok(Messages::new(alloc))
}

/// The power of the disk of a node that is up is to be cut at this call from now on.
fn arm(
    alloc: Global,
    parties: &mut Parties,
    network: &Network,
    node: &NodeId,
    call: u32,
    pick: u8,
    own: &Lines,
) -> Messages
    requires named { wrong (session_of parties.old network.now 0 0).world (Event.CrashAt node.now call pick) ≡ None }
    requires own { own.now ≡ [] }
    ensures { EventActed parties.old parties.new network.now (Event.CrashAt node.now call pick) result own.now }
{
    parties.arm(node, call, pick);
    Messages::new(alloc)
}

/// A node that is not up starts from its log.
fn restart(
    alloc: Global,
    parties: &mut Parties,
    network: &Network,
    node: &NodeId,
    own: &mut Lines,
) -> Result<Messages, ActFault>
    requires { own.old ≡ [] }
    ensures done { IfOk result (λ out. EventActed parties.old parties.new network.now (Event.Restart node.now) out own.new) }
    ensures refused { IfErr result (λ e. e ≡ OutOfMemory) }
{
    own.push(Line::Up(same_node(node)))?;
    Ok(parties.restart(alloc, node)?)
}

/// The party that acts in the event does its deed.
fn act(
    alloc: Global,
    parties: &mut Parties,
    network: &Network,
    event: &Event,
    from: &Party,
    own: &mut Lines,
) -> Result<Messages, ActFault>
    requires named { wrong (session_of parties.old network.now 0 0).world event.now ≡ None }
    requires from { actor_if_any network.now.sent event.now ≡ Some from.now }
    requires own { own.old ≡ [] }
    ensures done { IfOk result (λ out. EventActed parties.old parties.new network.now event.now out own.new) }
    ensures refused { IfErr result (λ e. ActRefused e (deed parties.old.parties network.now.sent event.now)) }
{
    if acts(event) {
        return parties.act(alloc, from, network.sent(), event, own);
    }
    match event {
        Event::Begin(tx) => {
            parties.begin(alloc, *tx)?;
            Ok(Messages::new(alloc))
        }
        Event::Crash(node) => stop(alloc, parties, network, node, own),
        Event::CrashAt { node, k, pick } => {
            Ok(arm(alloc, parties, network, node, *k, *pick, own))
        }
        Event::Restart(node) => restart(alloc, parties, network, node, own),
        _ => unreachable!(),
    }
}

/// The limit that an event passes before anybody acts.
fn early_limit(event: &Event, begun: usize, events: u32) -> Option<Which>
    ensures { result ≡ sessions.early_limit event.now begun events }
{
    if matches!(event, Event::Begin(_)) && begun >= MOST_TRANSACTIONS {
        return Some(Which::Transactions);
    }
    if events >= MOST_EVENTS {
        return Some(Which::Events);
    }
    None
}

/// What was delivered or lost is no longer pending, and what is sent in the event is, if it passes no limit.
fn send(
    alloc: Global,
    network: &mut Network,
    event: &Event,
    from: &Party,
    out: Messages,
) -> Result<(), LimitFault>
    ensures sent { OnOk result (let letters = envelopes from.now out in
        (too_much network.old (length letters) (world_spec.bytes_of letters) ≡ None) × (network.new ≡ posted (passed network.old event.now) letters (world_spec.bytes_of letters))) }
    ensures refused { IfErr result (λ e. let letters = envelopes from.now out in SendRefused e (too_much network.old (length letters) (world_spec.bytes_of letters))) }
{
    let letters = addressed(alloc, from, out)?;
    let bytes = bytes_of(alloc, letters.as_slice())?;
    if let Some(which) = network.limit(letters.len(), bytes)? {
        return Err(LimitFault::Limit(which));
    }
    network.pass(event)?;
    network.post(letters, bytes)?;
    Ok(())
}

/// What was lost is no longer pending; nothing is sent, and no limit was passed before.
fn send_nothing(network: &mut Network, event: &Event) -> Result<(), LimitFault>
    ensures passed { OnOk result ((too_much network.old 0 0 ≡ None) × (network.new ≡ passed network.old event.now)) }
    ensures refused { IfErr result (λ e. SendRefused e (too_much network.old 0 0)) }
{
    if let Some(which) = network.limit(0, 0)? {
        return Err(LimitFault::Limit(which));
    }
    network.pass(event)?;
    Ok(())
}

/// One event on parties and network: who acts in it does its deed, and what that sends is sent.
pub(crate) fn step(
    alloc: Global,
    parties: &mut Parties,
    network: &mut Network,
    event: &Event,
    own: &mut Lines,
) -> Result<(), LimitFault>
    requires named { wrong (session_of parties.old network.old 0 0).world event.now ≡ None }
    requires own { own.old ≡ [] }
    ensures done { OnOk result (Stepped parties.old parties.new network.old network.new event.now own.new) }
    ensures refused { IfErr result (λ e. SendRefused e (late_limit parties.old network.old event.now)) }
{
    let Some(from) = actor(network.sent(), event) else {
        return send_nothing(network, event);
    };
    let out = act(alloc, parties, network, event, &from, own)?;
    send(alloc, network, event, &from, out)
}

/// One event that names nothing wrongly: what it prints, and how many bytes of text there are after it.
pub(crate) fn happen(
    alloc: Global,
    parties: &mut Parties,
    network: &mut Network,
    events: u32,
    text: u64,
    event: &Event,
    own: &mut Lines,
) -> Result<u64, LimitFault>
    requires named { wrong (session_of parties.old network.old 0 0).world event.now ≡ None }
    requires own { own.old ≡ [] }
    ensures room { OnOk result (events < 2000000) }
    ensures went { IfOk result (λ sum. happens (session_of parties.old network.old events text) event.now ≡ Ok (session_of parties.new network.new (events + 1) sum, own.new)) }
    ensures own { OnOk result (own.new ≡ event_lines (session_of parties.old network.old events text) event.now) }
    ensures refused { IfErr result (λ e. Halts (fault_of_limit e) (happens (session_of parties.old network.old events text) event.now)) }
{
    if let Some(which) = early_limit(event, parties.count(), events) {
        return Err(LimitFault::Limit(which));
    }
    step(alloc, parties, network, event, own)?;
    print(alloc, text, own)
}

/// One event that names nothing wrongly: what it prints is added to the lines, and the event and the bytes of its text
/// are counted.
fn happen_named(
    alloc: Global,
    parties: &mut Parties,
    network: &mut Network,
    events: &mut u32,
    text: &mut u64,
    event: &Event,
    lines: &mut Lines,
) -> Result<(), LimitFault>
    requires { wrong (session_of parties.old network.old 0 0).world event.now ≡ None }
    ensures done { OnOk result (let z = session_of parties.old network.old events.old text.old in
        EventHappened (happens z event.now) (session_of parties.new network.new events.new text.new) (event_lines z event.now) lines.old lines.new) }
    ensures refused { IfErr result (λ e. Halts (fault_of_limit e) (happens (session_of parties.old network.old events.old text.old) event.now)) }
    ensures lines { IfErr result (λ e. Stay (fault_of_limit e) lines.old lines.new) }
{
    let mut own = Lines::new(alloc);
    match happen(alloc, parties, network, *events, *text, event, &mut own) {
        Ok(sum) => {
            *text = sum;
            *events += 1;
            lines.append(own)?;
            Ok(())
        }
        Err(fault) => Err(fault),
    }
}

/// One event: what it prints is added to the lines, and the event and the bytes of its text are counted.
pub(crate) fn happen_in(
    alloc: Global,
    parties: &mut Parties,
    network: &mut Network,
    events: &mut u32,
    text: &mut u64,
    event: &Event,
    lines: &mut Lines,
) -> Result<(), SessionFault>
    ensures done { OnOk result (let z = session_of parties.old network.old events.old text.old in
        EventHappened (happens z event.now) (session_of parties.new network.new events.new text.new) (event_lines z event.now) lines.old lines.new) }
    ensures refused { IfErr result (λ e. Halts e (happens (session_of parties.old network.old events.old text.old) event.now)) }
    ensures lines { IfErr result (λ e. Stay e lines.old lines.new) }
{
    if let Some(name) = misnamed(parties, network, event) {
        return Err(SessionFault::Naming(name));
    }
    happen_named(alloc, parties, network, events, text, event, lines)?;
    Ok(())
}

/// How many bytes the text of a line has.
fn line_len(alloc: Global, line: &Line) -> Result<u64, NoMemory>
    ensures { IfOk result (λ len. len ≡ length (line_text line.now)) }
{
    let mut text = Text::new(alloc);
    render(line, &mut text)?;
    Ok(text.len() as u64)
}

/// How many bytes the text of the lines has.
fn text_len(alloc: Global, lines: &[Line]) -> Result<u64, NoMemory>
    ensures { IfOk result (λ len. len ≡ text_bytes lines.now) }
{
    let mut len = 0;
    for line in lines {
        len = counted(len, line_len(alloc, line)?)?;
    }
    Ok(len)
}

/// Counts the text of lines, if it passes no limit.
pub(crate) fn print(alloc: Global, text: u64, lines: &Lines) -> Result<u64, LimitFault>
    ensures fits { IfOk result (λ sum. (sum ≡ text + text_bytes lines.now) × (nat_lt most_text_bytes (text + text_bytes lines.now) ≡ false)) }
    ensures refused { IfErr result (λ e. Overprints e (text + text_bytes lines.now)) }
{
    let sum = counted(text, text_len(alloc, lines.as_slice())?)?;
    if sum > MOST_TEXT_BYTES {
        return Err(LimitFault::Limit(Which::TextBytes));
    }
    Ok(sum)
}

// The network: all messages that were ever sent, and which of them are pending.
ghost use Rattle.std.specs.Prelude.{◌≡◌, ◌≤◌, ◌+◌, ◌<◌, ◌++◌, OnOk, IfOk, None, length};
ghost use Rattle.std.specs.Option.{option_copied};
ghost use Rattle.rc_runs.specs.World.{envelopes, taken_out, still_pending, delivered_after};
ghost use Rattle.rc_runs.specs.World as world;
ghost use Rattle.rc_runs.specs.Refusals as refusals;
ghost use Rattle.rc_plain_world.specs.Networks.{new_network, passed, numbers_of, posted, too_much};
ghost use Rattle.rc_plain_world.specs.Networks as networks;

use crate::disk::counted;
use rc_ids::{NoMemory, NodeId, Party};
use rc_msg::{Envelope, Messages, encode};
use rc_report::Which;
use rc_runs::Event;
use std::alloc::Global;
use std::collections::VecDeque;
use std::marker::Model;

/// The most messages that are sent in a run.
const MOST_MESSAGES: usize = 4_000_000;

/// The most bytes in the messages of a run.
const MOST_MESSAGE_BYTES: u64 = 1 << 30;

/// The same party.
pub(crate) fn same_party(party: &Party) -> Party
    ensures { result ≡ party.now }
{
    match party {
        Party::Node(NodeId::Coord(dc)) => Party::Node(NodeId::Coord(*dc)),
        Party::Node(NodeId::Shard(dc, shard)) => Party::Node(NodeId::Shard(*dc, *shard)),
        Party::Client(tx) => Party::Client(*tx),
    }
}

/// The messages with their sender.
pub(crate) fn addressed(
    alloc: Global,
    from: &Party,
    out: Messages,
) -> Result<Vec<Envelope>, NoMemory>
    ensures { IfOk result (λ letters. letters.items ≡ envelopes from.now out) }
{
    let mut letters = Vec::new(alloc);
    for (to, msg) in out.into_sends() {
        let from = same_party(from);
        letters.push(Envelope { from, to, msg })?;
    }
    Ok(letters)
}

/// How many bytes the messages have.
pub(crate) fn bytes_of(alloc: Global, letters: &[Envelope]) -> Result<u64, NoMemory>
    ensures { IfOk result (λ bytes. bytes ≡ world.bytes_of letters.now) }
{
    let mut bytes = 0;
    for letter in letters {
        bytes = counted(bytes, encode(alloc, letter)?.len() as u64)?;
    }
    Ok(bytes)
}

/// Takes a number out of those that are pending.
fn take_out(pending: &mut VecDeque<u32>, number: u32)
    ensures { pending.new.items ≡ taken_out pending.old.items number }
{
    for place in 0..pending.len() {
        if pending[place] == number {
            let _taken = pending.remove(place).unwrap();
            return;
        }
    }
}

/// Posts messages in order, each with the next number.
fn post(
    sent: &mut Vec<Envelope>,
    pending: &mut VecDeque<u32>,
    letters: Vec<Envelope>,
) -> Result<(), NoMemory>
    requires { length sent.old.items + length letters.items ≤ 4000000 }
    ensures sent { OnOk result (sent.new.items ≡ sent.old.items ++ letters.items) }
    ensures pending { OnOk result (pending.new.items ≡ pending.old.items ++ numbers_of (length sent.old.items) letters.items) }
{
    let mut letters = VecDeque::from(letters);
    while let Some(letter) = letters.pop_front() {
        sent.push(letter)?;
        pending.push_back(sent.len() as u32)?;
    }
    Ok(())
}

/// All messages that were sent, and which of them are pending.
#[derive(Drop)]
pub(crate) struct Network {
    sent: Vec<Envelope>,
    bytes: u64,
    pending: VecDeque<u32>,
    delivered: Vec<u32>,
}

impl Model for Network {
    ghost use Rattle.rc_plain_world.specs.Networks.{Network as NetworkState};

    ghost Value = { NetworkState };

    ghost view = { λ n. record { sent = n.sent.items; bytes = n.bytes; pending = n.pending.items; delivered = n.delivered.items } };
}

impl Network {
    /// A network in which nothing was sent.
    pub(crate) fn new(alloc: Global) -> Network
        ensures { result ≡ new_network }
    {
        Network {
            sent: Vec::new(alloc),
            bytes: 0,
            pending: VecDeque::new(alloc),
            delivered: Vec::new(alloc),
        }
    }

    /// All messages that were sent.
    pub(crate) fn sent(&self) -> &[Envelope]
        ensures { result.now ≡ self.now.sent }
    {
        self.sent.as_slice()
    }

    /// The oldest pending message.
    pub(crate) fn oldest(&self) -> Option<u32>
        ensures { result ≡ networks.oldest self.now.pending }
    {
        self.pending.front().copied()
    }

    /// The numbers of the pending messages, in the order in which they were sent.
    pub(crate) fn pending(&self) -> &VecDeque<u32>
        ensures { result.now.items ≡ self.now.pending }
    {
        &self.pending
    }

    /// Whether the message is pending.
    pub(crate) fn is_pending(&self, number: u32) -> bool
        ensures { result ≡ refusals.is_pending self.now.pending number }
    {
        self.pending.iter().any(|waiting| *waiting == number)
    }

    /// The limit that so many more messages with so many bytes would pass.
    pub(crate) fn limit(&self, count: usize, bytes: u64) -> Result<Option<Which>, NoMemory>
        ensures { IfOk result (λ which. which ≡ too_much self.now count bytes) }
    {
        if count > MOST_MESSAGES || self.sent.len() + count > MOST_MESSAGES {
            return Ok(Some(Which::Messages));
        }
        if counted(self.bytes, bytes)? > MOST_MESSAGE_BYTES {
            return Ok(Some(Which::MessageBytes));
        }
        Ok(None)
    }

    /// What is delivered or lost in the event is no longer pending.
    pub(crate) fn pass(&mut self, event: &Event) -> Result<(), NoMemory>
        ensures { OnOk result (self.new ≡ passed self.old event.now) }
    {
        match event {
            Event::Deliver(number) => {
                take_out(&mut self.pending, *number);
                self.delivered.push(*number)?;
            }
            Event::Lose(number) => take_out(&mut self.pending, *number),
            _ => {}
        }
        Ok(())
    }

    /// Posts messages, which have so many bytes and pass no limit.
    pub(crate) fn post(&mut self, letters: Vec<Envelope>, bytes: u64) -> Result<(), NoMemory>
        requires { too_much self.old (length letters.items) bytes ≡ None }
        ensures { OnOk result (self.new ≡ posted self.old letters.items bytes) }
    {
        self.bytes = counted(self.bytes, bytes)?;
        post(&mut self.sent, &mut self.pending, letters)
    }
}

/// The message with a number.
pub(crate) fn message(sent: &[Envelope], number: u32) -> Option<&Envelope>
    ensures { option_copied result ≡ world.message sent.now number }
{
    if number == 0 {
        return None;
    }
    sent.get(number as usize - 1)
}

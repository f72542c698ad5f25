// The network as the mail of a world: its bytes are messages.
ghost use Rattle.std.specs.Prelude.{◌≡◌, ◌<◌, ◌≤◌, ◌+◌, true, None, All, length, IfOk, is_some, nat_lt};
ghost use Rattle.std.specs.Ordering.{nat_cmp};
ghost use Rattle.rc_ids.specs.Tables.{member};
ghost use Rattle.rc_msg.specs.Spelling.{HasEnvelope};
ghost use Rattle.rc_net.specs.Network.{fits, letters_bytes, loss_fault};
ghost use Rattle.rc_net.specs.Network as network;
ghost use Rattle.rc_protocol.specs.Messages.{Posts};
ghost use Rattle.rc_runs.specs.World.{World, posted, envelopes, at_deed};
ghost use Rattle.rc_runs.specs.World as world;
ghost use Rattle.rc_runs.specs.Refusals.{wrong, most_messages};
ghost use Rattle.rc_runs.specs.Script as script;
ghost use Rattle.rc_runs.specs.declared.event.Event.TheVariants.{Deliver, Lose};
ghost use Rattle.rc_world.specs.Mail.{IsMail, letters_of, too_much};

use rc_ids::{NoMemory, Party, Sends};
use rc_msg::{Envelope, decode, message_laws};
use rc_net::Net;
use rc_report::{Which, Wrong};
use std::alloc::Global;

/// The message with a number, from its bytes.
pub(crate) fn message(alloc: Global, net: &Net, number: u32) -> Result<Option<Envelope>, NoMemory>
    ensures { (w : World) → IsMail net.now w → IfOk result (λ e. e ≡ world.message w.sent number) }
{
    let Some(sent) = net.sent(number) else {
        return Ok(None);
    };
    message_laws();
    decode(alloc, sent.bytes)
}

/// The oldest pending message.
pub(crate) fn oldest(net: &Net) -> Option<u32>
    ensures { (w : World) → IsMail net.now w → result ≡ script.oldest w }
{
    net.oldest()
}

/// What is wrong with a delivery: no message has the number.
pub(crate) fn wrong_delivery(net: &Net, number: u32) -> Option<Wrong>
    ensures named { (w : World) → IsMail net.now w → result ≡ wrong w (Deliver number) }
    ensures none { result ≡ None → is_some (network.message net.now.sent number) ≡ true }
{
    if net.is_sent(number) {
        None
    } else {
        Some(Wrong::NotSent(number))
    }
}

/// Whether a message is pending.
fn is_pending(net: &Net, number: u32) -> bool
    requires { 1 ≤ number }
    ensures { result ≡ member nat_cmp net.now.pending number }
{
    let Some(oldest) = net.oldest() else {
        return false;
    };
    if number < oldest {
        return false;
    }
    match net.pending_after(number - 1) {
        Some(next) => next == number,
        None => false,
    }
}

/// What is wrong with a loss: no message has the number, or it was delivered or lost before.
pub(crate) fn wrong_loss(net: &Net, number: u32) -> Option<Wrong>
    ensures named { (w : World) → IsMail net.now w → result ≡ wrong w (Lose number) }
    ensures none { result ≡ None → loss_fault net.now.sent net.now.pending number ≡ None }
{
    if !net.is_sent(number) {
        return Some(Wrong::NotSent(number));
    }
    if !is_pending(net, number) {
        return Some(Wrong::NotPending(number));
    }
    None
}

/// Delivers a message: it is pending no longer.
pub(crate) fn deliver(net: &mut Net, number: u32)
    requires { is_some (network.message net.old.sent number) ≡ true }
    ensures mail { (w : World) → IsMail net.old w → IsMail net.new (at_deed w (Deliver number)) }
    ensures sent { net.new.sent ≡ net.old.sent }
    ensures spare { net.new.spare ≡ net.old.spare }
{
    match net.deliver(number) {
        Ok(()) => {}
        Err(_) => unreachable!(),
    }
}

/// Loses a message: it is pending no longer.
pub(crate) fn lose(net: &mut Net, number: u32)
    requires { loss_fault net.old.sent net.old.pending number ≡ None }
    ensures mail { (w : World) → IsMail net.old w → IsMail net.new (at_deed w (Lose number)) }
    ensures sent { net.new.sent ≡ net.old.sent }
    ensures spare { net.new.spare ≡ net.old.spare }
{
    match net.lose(number) {
        Ok(()) => {}
        Err(_) => unreachable!(),
    }
}

/// Whether so many messages more would pass their limit.
fn are_too_many(net: &Net, count: usize) -> bool
    ensures { result ≡ nat_lt most_messages (length net.now.sent + count) }
{
    let most = Net::MOST_MESSAGES as usize;
    count > most || net.count() as usize + count > most
}

/// The limit that these messages would pass.
pub(crate) fn limit(net: &Net, sends: &Sends) -> Option<Which>
    ensures limit { (w : World) (from : Party) (ms : Posts) → IsMail net.now w → sends.now ≡ letters_of from ms → result ≡ too_much w from ms }
    ensures none { result ≡ None → fits net.now.sent (length sends.now) (letters_bytes sends.now) ≡ true }
{
    if are_too_many(net, sends.len()) {
        return Some(Which::Messages);
    }
    if !net.has_room_for(sends.as_slice()) {
        return Some(Which::MessageBytes);
    }
    None
}

/// Posts messages that pass no limit. There is room for a list more, so it takes no memory.
pub(crate) fn post(net: &mut Net, from: Party, sends: Sends)
    requires room { 0 < net.old.spare }
    requires fits { fits net.old.sent (length sends) (letters_bytes sends) ≡ true }
    ensures mail { (w : World) (ms : Posts) → IsMail net.old w → sends ≡ letters_of from ms → All HasEnvelope (envelopes from ms) → IsMail net.new (posted w from ms) }
    ensures spare { net.old.spare ≤ net.new.spare + 1 }
{
    match net.send_all(from, sends) {
        Ok(()) => {}
        Err(_) => unreachable!(),
    }
}

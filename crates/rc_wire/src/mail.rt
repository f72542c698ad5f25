// Mail that is taken.
ghost use Rattle.std.specs.Prelude.{◌≡◌, true, is_some, IfOk, Some, position, ◌==◌};
ghost use Rattle.rc_net.specs.Network.{Message, message};
ghost use Rattle.rc_wire.specs.Wants.{is_for as is_message_for, first_for};
ghost use Rattle.rc_wire.specs.Traffic.{Traffic, taken, traffic_of};

use crate::want::{Want, is_wanted};
use rc_ids::{Blob, NoMemory, Party};
use rc_net::{Net, same_party};
use std::alloc::Global;

/// Whether the message of this number is for the party and wanted.
fn is_for(net: &Net, number: u32, party: &Party, want: Want) -> bool
    ensures { result ≡ is_message_for party.now want (message net.now.sent number) }
{
    match net.sent(number) {
        Some(sent) => sent.to.is(party) && is_wanted(want, sent.bytes),
        None => false,
    }
}

/// The oldest pending message that is for the party and wanted.
pub fn oldest_for(net: &Net, party: &Party, want: Want) -> Option<u32>
    ensures { result ≡ first_for party.now want net.now.sent net.now.pending }
{
    let mut next = net.oldest();
    while let Some(number) = next {
        if is_for(net, number, party, want) {
            return Some(number);
        }
        next = net.pending_after(number);
    }
    None
}

/// Who sent the message, and a copy of its bytes.
pub fn copied(net: &Net, alloc: Global, number: u32) -> Result<(Party, Blob), NoMemory>
    ensures { (m : Message) → message net.now.sent number ≡ Some m → IfOk result (λ r. (r.0 ≡ m.from) × (r.1 ≡ m.bytes)) }
{
    match net.sent(number) {
        Some(sent) => Ok((same_party(&sent.from), Blob::from_bytes(alloc, sent.bytes)?)),
        None => Err(NoMemory),
    }
}

/// The place of a number in the list.
fn place_of(numbers: &[u32], number: u32) -> Option<usize>
    ensures { result ≡ position (λ n. n == number) numbers.now }
{
    numbers.iter().position(|other| *other == number)
}

/// Takes the message: one that is pending twice is then pending once, and another no longer.
pub fn take(net: &mut Net, again: &mut Vec<u32>, number: u32)
    requires { is_some (message net.old.sent number) ≡ true }
    ensures taken { traffic_of net.new again.new.items ≡ taken (traffic_of net.old again.old.items) number }
    ensures spare { net.new.spare ≡ net.old.spare }
{
    if let Some(place) = place_of(again.as_slice(), number) {
        again.remove(place);
        return;
    }
    let Ok(()) = net.deliver(number) else {
        unreachable!()
    };
}

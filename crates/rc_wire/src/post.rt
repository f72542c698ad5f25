// Messages that are posted.
ghost use Rattle.std.specs.Prelude.{◌≡◌, ◌+◌, ◌<◌, ◌≤◌, true, is_some, length, IfOk, vec_len, vec_capacity};
ghost use Rattle.std.specs.Ordering.{nat_cmp};
ghost use Rattle.rc_ids.specs.Sets.{IsRisingWithin};
ghost use Rattle.rc_ids.specs.Tables.{member};
ghost use Rattle.rc_net.specs.Network.{letters_bytes, fits, message};
ghost use Rattle.rc_wire.specs.Traffic.{meets as met, arrived, traffic_of, posted};

use crate::rules::Rules;
use rc_ids::{Letter, NoMemory, Party, Sends};
use rc_net::{Net, same_party};
use std::alloc::Global;

/// A copy of these messages.
pub fn copied(alloc: Global, sends: &Sends) -> Result<Sends, NoMemory>
    ensures { IfOk result (λ copy. copy ≡ sends.now) }
{
    let mut copy = Sends::new(alloc);
    for letter in sends.as_slice() {
        copy.push(Letter {
            to: same_party(&letter.to),
            bytes: letter.bytes.copy()?,
            mark: letter.mark,
        })?;
    }
    Ok(copy)
}

/// Whether a rule's number meets the number of a message: it is not 0, and divides it.
fn meets(every: u32, number: u32) -> bool
    ensures { result ≡ met every number }
{
    every != 0 && number % every == 0
}

/// Loses the message that was sent under this number, or lets it be pending once more, as the rules say.
fn arrive(net: &mut Net, again: &mut Vec<u32>, rules: &Rules, number: u32)
    requires sent { is_some (message net.old.sent number) ≡ true }
    requires pending { member nat_cmp net.old.pending number ≡ true }
    requires room { vec_len again.old < vec_capacity again.old }
    ensures traffic { traffic_of net.new again.new.items ≡ arrived rules.now (traffic_of net.old again.old.items) number }
    ensures rising { met rules.now.lose_every number ≡ true → IsRisingWithin 1 (length net.old.sent) net.old.pending }
    ensures len { vec_len again.new ≤ vec_len again.old + 1 }
    ensures capacity { vec_capacity again.new ≡ vec_capacity again.old }
{
    if meets(rules.lose_every, number) {
        let Ok(()) = net.lose(number) else {
            unreachable!()
        };
    } else if meets(rules.repeat_every, number) {
        again.push_reserved(number);
    }
}

/// Sends these messages in order, under the rules. There is room.
pub fn post(net: &mut Net, again: &mut Vec<u32>, rules: &Rules, party: &Party, sends: Sends)
    requires fits { fits net.old.sent (length sends) (letters_bytes sends) ≡ true }
    requires room { 0 < net.old.spare }
    requires room_again { vec_len again.old + length sends ≤ vec_capacity again.old }
    ensures { traffic_of net.new again.new.items ≡ posted rules.now (traffic_of net.old again.old.items) party.now sends }
{
    let first = net.count();
    let Ok(()) = net.send_all(same_party(party), sends) else {
        unreachable!()
    };
    let last = net.count();
    let mut number = first;
    while number < last {
        number += 1;
        arrive(net, again, rules, number);
    }
}

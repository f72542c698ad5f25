// What lies under the lock.
ghost use Rattle.std.specs.Prelude.{◌≡◌, ℕ, ◌^◌, ◌<◌, true, false, [], length, Some, IfOk, OnOk, OnErr, IsErrOf, ◌↔◌, slice_get};
ghost use Rattle.rc_net.specs.Network.{letters_bytes, fits as fits_network};
ghost use Rattle.rc_ids.specs.declared.names.Party.{Party as Someone};
ghost use Rattle.rc_wire.specs.Parties.{all_differ};
ghost use Rattle.rc_wire.specs.Standings.{standing as standing_by, by, desks_of, all_still as all_desks_still, is_halted};
ghost use Rattle.rc_wire.specs.Replay.{is_closed as is_replay_closed};
ghost use Rattle.rc_wire.specs.Chronicle.{chronicle, replayed, more, Takes, Rests};
ghost use Rattle.rc_wire.specs.declared.turn.Act.TheVariants.{Posted as Posting, Halted as Halting};
ghost use Rattle.rc_wire.specs.declared.fault.PostFault.TheVariants.{WireFull as Full};

use crate::fault::{PostFault, Taken};
use crate::rules::Rules;
use crate::standing::{Desk, Standing, note};
use crate::turn::{Act, HaltCause, StepEnd, Turn};
use crate::want::Want;
use crate::{mail, post};
use rc_ids::{NoMemory, Party, Sends};
use rc_net::{Net, same_party};
use std::alloc::Global;
use std::marker::Model;

/// The network, the history, and where each party stands.
#[derive(Drop)]
pub struct Hub {
    rules: Rules,
    net: Net,
    /// The messages that are pending once more.
    again: Vec<u32>,
    desks: Vec<Desk>,
    turns: Vec<Turn>,
}

impl Model for Hub {
    ghost use Rattle.std.specs.Prelude.{vec_len, vec_capacity};
    ghost use Rattle.rc_wire.specs.Standings.{parties_of};
    ghost use Rattle.rc_wire.specs.Chronicle.{Chronicle, IsHub, chronicle};

    ghost Value = { Chronicle };

    ghost view = { λ h. chronicle h.rules (parties_of h.desks.items) h.turns.items };

    ghost invariant = { λ h. IsHub h.rules h.net h.again.items h.desks.items h.turns.items (vec_len h.turns) (vec_capacity h.turns) };
}

/// A desk for each party, which did nothing yet.
fn first_desks(alloc: Global, parties: &[Party]) -> Result<Vec<Desk>, NoMemory>
    ensures { IfOk result (λ desks. desks.items ≡ desks_of parties.now []) }
{
    let mut desks = Vec::with_capacity(alloc, parties.len())?;
    for party in parties {
        desks.push_reserved(Desk {
            party: same_party(party),
            standing: Standing::AT_FIRST,
        });
    }
    Ok(desks)
}

fn all_still(desks: &[Desk]) -> bool
    ensures { result ≡ all_desks_still desks.now }
{
    desks.iter().all(|desk| desk.is_still())
}

fn is_any_halted(desks: &[Desk]) -> bool
    ensures { result ≡ is_halted desks.now }
{
    desks.iter().any(|desk| desk.standing.halted)
}

impl Hub {
    /// A network without messages, and parties that did nothing yet.
    pub fn new(alloc: Global, parties: &[Party], rules: Rules) -> Result<Hub, NoMemory>
        requires differ { all_differ parties.now ≡ true }
        requires few { length parties.now < 2 ^ 32 }
        ensures { IfOk result (λ h. h ≡ chronicle rules parties.now []) }
    {
        let turns = Vec::with_capacity(alloc, 3 * parties.len())?;
        let desks = first_desks(alloc, parties)?;
        Ok(Hub {
            rules,
            net: Net::new(alloc),
            again: Vec::new(alloc),
            desks,
            turns,
        })
    }

    /// Whether the wire is quiescent or halted.
    fn is_closed(&self) -> bool
        ensures { result ≡ is_replay_closed (replayed self.now) }
    {
        (self.net.oldest().is_none() && all_still(&self.desks)) || is_any_halted(&self.desks)
    }

    /// Takes the oldest message that is wanted, and keeps room for three entries of the party.
    pub fn take(&mut self, place: usize, want: Want) -> Taken
        requires { place < length self.old.parties }
        ensures { (party : Someone) → slice_get self.old.parties place ≡ Some party → Takes party want self.old result self.new }
    {
        if self.is_closed() {
            return Taken::Closed;
        }
        let Some(number) = mail::oldest_for(&self.net, &self.desks[place].party, want) else {
            return Taken::Empty;
        };
        let alloc = *self.turns.allocator();
        let Ok((from, bytes)) = mail::copied(&self.net, alloc, number) else {
            return Taken::NoMemory;
        };
        let Ok(()) = self.turns.reserve(3 * self.desks.len() + 1) else {
            return Taken::NoMemory;
        };
        mail::take(&mut self.net, &mut self.again, number);
        note(&mut self.desks, &mut self.turns, place, Act::Took(number));
        Taken::Mail {
            number,
            from,
            bytes,
        }
    }

    /// Sends these messages under the rules, which ends the step of the party, and keeps room for three entries of it.
    pub fn post(&mut self, place: usize, end: StepEnd, out: &Sends) -> Result<(), PostFault>
        requires { place < length self.old.parties }
        ensures full { IsErrOf result Full ↔ (fits_network (replayed self.old).traffic.sent (length out.now) (letters_bytes out.now) ≡ false) }
        ensures ok { OnOk result ((party : Someone) → slice_get self.old.parties place ≡ Some party → self.new ≡ more self.old party (Posting end out.now)) }
        ensures err { OnErr result (self.new ≡ self.old) }
    {
        if !self.net.has_room_for(out.as_slice()) {
            return Err(PostFault::WireFull);
        }
        let alloc = *self.turns.allocator();
        let sends = post::copied(alloc, out)?;
        let sent = post::copied(alloc, out)?;
        self.net.room()?;
        self.again.reserve(out.len())?;
        self.turns.reserve(3 * self.desks.len() + 1)?;
        post::post(
            &mut self.net,
            &mut self.again,
            &self.rules,
            &self.desks[place].party,
            sent,
        );
        note(
            &mut self.desks,
            &mut self.turns,
            place,
            Act::Posted { end, sends },
        );
        Ok(())
    }

    /// The party waits, or has ended for good. It takes no memory, and leaves no entry where nothing changes.
    pub fn rest(&mut self, place: usize, ended: bool)
        requires place { place < length self.old.parties }
        requires not_ended { (party : Someone) → slice_get self.old.parties place ≡ Some party → (standing_by (by party self.old.turns)).ended ≡ false }
        ensures { (party : Someone) → slice_get self.old.parties place ≡ Some party → Rests party ended self.old self.new }
    {
        if self.desks[place].standing.is_at_rest(ended) {
            return;
        }
        note(
            &mut self.desks,
            &mut self.turns,
            place,
            Act::Rested { ended },
        );
    }

    /// Halts the wire. It takes no memory.
    pub fn halt(&mut self, place: usize, cause: HaltCause)
        requires place { place < length self.old.parties }
        requires first { (party : Someone) → slice_get self.old.parties place ≡ Some party → (standing_by (by party self.old.turns)).halted ≡ false }
        ensures { (party : Someone) → slice_get self.old.parties place ≡ Some party → self.new ≡ more self.old party (Halting cause) }
    {
        note(&mut self.desks, &mut self.turns, place, Act::Halted(cause));
    }

    /// The history.
    pub fn into_turns(self) -> Vec<Turn>
        ensures { result.items ≡ self.turns }
    {
        let Hub {
            rules: _,
            net,
            again,
            desks,
            turns,
        } = self;
        turns
    }
}

// A wire: the lock round the hub, and a pass for each party.
ghost use Rattle.std.specs.Prelude.{◌≡◌, ℕ, ◌+◌, ◌≤◌, ◌<◌, ◌^◌, ◌≢◌, true, false, [], ◌∷◌, ◌++◌, length, vec_capacity, IfOk, OnOk, OnErr, IsErrOf, None, Some};
ghost use Rattle.rc_ticket.specs.Cards.{card, at_rest, nobody, opening, served};
ghost use Rattle.rc_wire.specs.Chronicle.{Chronicle, chronicle};
ghost use Rattle.rc_wire.specs.Parties.{all_differ, is_client};
ghost use Rattle.rc_wire.specs.Passes.{Fits, all_known, learned};
ghost use Rattle.rc_wire.specs.Places.{IsSeatOf, AreSeatsOf, IsServed, known_at, all_known_at, cards_at, passes_of};
ghost use Rattle.rc_wire.specs.Standings.{standing, may_end};
ghost use Rattle.rc_wire.specs.Turns.{IsTurn, Takes, Posts, HasRoom, Rests, Leaves, AreParts};
ghost use Rattle.rc_wire.specs.declared.fault.PostFault.TheVariants.{NoMemory as WithoutMemory, WireFull as Full};
ghost use Rattle.rc_wire.specs.declared.pass.Known.{Known as KnownByPass};
ghost use Rattle.rc_wire.specs.declared.turn.Act.TheVariants.{Posted as Posting, Halted as Halting};

use crate::fault::{PostFault, Taken};
use crate::history::History;
use crate::hub::Hub;
use crate::pass::{Known, Names, Pass, Passes, SeatPlace, WireName};
use crate::rules::Rules;
use crate::turn::{HaltCause, StepEnd};
use crate::want::Want;
use rc_ids::{NoMemory, Party, Sends};
use rc_net::same_party;
use rc_ticket::{Place, TicketLock};
use std::alloc::Global;
use std::marker::PhantomData;
use std::sync::Wait;

/// The most parties that a wire has.
const MOST_PARTIES: usize = (1 << 32) - 1;

/// A wire without its name.
#[derive(Drop)]
pub struct Blank {
    pub lock: TicketLock<Hub, Known, Names>,
    place: Place<Hub, Known>,
    /// Room for the passes, and how many they will be.
    list: Vec<SeatPlace>,
    count: u64,
    ghost empty: { list.items ≡ [] },
    ghost counts: { count ≡ length lock.board.shared.key.parties },
    ghost room: { count ≤ vec_capacity list },
    ghost new: { lock.board.shared.key.turns ≡ [] },
    ghost place_is: { (place.table_id ≡ lock.board.shared.table_id) × (place.me ≡ (opening (all_known lock.board.shared.key), [])) },
}

/// A wire. Threads share it.
#[derive(Drop)]
pub struct Wire<W: WireName> {
    lock: TicketLock<Hub, Known, Names>,
    of: PhantomData<W>,
    ghost named: { (lock.board.shared.table_id ≡ W.table) × (lock.board.shared.key ≡ W.names) },
}

/// The rules, and a copy of the parties.
fn names_of(alloc: Global, parties: &[Party], rules: Rules) -> Result<Names, NoMemory>
    ensures { IfOk result (λ n. n ≡ chronicle rules parties.now []) }
{
    let mut copies = Vec::with_capacity(alloc, parties.len())?;
    for party in parties {
        copies.push_reserved(same_party(party));
    }
    Ok(Names {
        rules,
        parties: copies,
    })
}

/// A place for the card of each seat, in order.
fn deal_all(
    lock: &TicketLock<Hub, Known, Names>,
    place: &mut Place<Hub, Known>,
    list: &mut Vec<SeatPlace>,
    count: u64,
)
    requires lock { place.old.table_id ≡ lock.now.board.shared.table_id }
    requires cards { place.old.me ≡ (opening (all_known lock.now.board.shared.key), []) }
    requires new { lock.now.board.shared.key.turns ≡ [] }
    requires count { count ≡ length lock.now.board.shared.key.parties }
    requires empty { list.old.items ≡ [] }
    requires room { count ≤ vec_capacity list.old }
    ensures seats { AreSeatsOf lock.now.board.shared.table_id lock.now.board.shared.key list.new.items }
    ensures known { all_known_at lock.now.board.shared.key list.new.items ≡ all_known lock.now.board.shared.key }
    ensures room { count ≤ vec_capacity list.new }
{
    for seat in 0..count {
        list.push_reserved(SeatPlace {
            place: lock.deal(place),
            seat,
        });
    }
}

/// The cards of these places, in one.
fn gather_all(
    lock: &TicketLock<Hub, Known, Names>,
    place: &mut Place<Hub, Known>,
    list: Vec<SeatPlace>,
)
    requires lock { place.old.table_id ≡ lock.now.board.shared.table_id }
    requires nobody { place.old.me ≡ (nobody, []) }
    requires seats { AreSeatsOf lock.now.board.shared.table_id lock.now.board.shared.key list.items }
    ensures lock { place.new.table_id ≡ place.old.table_id }
    ensures cards { place.new.me ≡ (at_rest (cards_at lock.now.board.shared.key list.items), []) }
{
    for at in list {
        let SeatPlace {
            place: other,
            seat: _,
        } = at;
        lock.gather(place, other);
    }
}

impl<W: WireName> Wire<W> {
    /// A wire of these parties on which nothing was done, without its name. The name may be any, as `Brand`.
    pub fn make(alloc: Global, parties: &[Party], rules: Rules) -> Result<Blank, NoMemory>
        requires some { 1 ≤ length parties.now }
        requires differ { all_differ parties.now ≡ true }
        ensures { IfOk result (λ b. b.lock.board.shared.key ≡ chronicle rules parties.now []) }
    {
        if parties.len() > MOST_PARTIES {
            return Err(NoMemory);
        }
        let names = names_of(alloc, parties, rules)?;
        let list = Vec::with_capacity(alloc, parties.len())?;
        let hub = Hub::new(alloc, parties, rules)?;
        let Ok((lock, place)) = TicketLock::new(alloc, hub, &names) else {
            return Err(NoMemory);
        };
        let count = parties.len() as u64;
        Ok(Blank {
            lock,
            place,
            list,
            count,
        })
    }

    /// The wire under its name, and a pass for each party, in order. It takes no memory.
    pub fn open(blank: Blank) -> (Wire<W>, Passes<W>)
        requires { (blank.lock.board.shared.table_id ≡ W.table) × (blank.lock.board.shared.key ≡ W.names) }
        ensures { result.1 ≡ all_known W.names }
    {
        let Blank {
            lock,
            mut place,
            mut list,
            count,
        } = blank;
        deal_all(&lock, &mut place, &mut list, count);
        let wire = Wire {
            lock,
            of: PhantomData,
        };
        (wire, Passes::of(list))
    }

    /// The history, once the passes of all parties are there. It takes no memory.
    pub fn close(self, passes: Passes<W>) -> History
        requires { length passes ≡ length W.names.parties }
        ensures parts { AreParts (chronicle W.names.rules W.names.parties result) passes }
        ensures each { (seat : ℕ) → seat < length W.names.parties → passes_of seat passes ≡ 1 }
    {
        let Wire { lock, of: _ } = self;
        let mut place = lock.enter();
        gather_all(&lock, &mut place, passes.into_list());
        let hub = lock.close(place);
        History::of(hub.into_turns())
    }

    // Waits for the turn of the seat, and takes the hub out.
    fn begin<R: Wait>(&self, rt: &R, at: &mut SeatPlace) -> (u64, Hub)
        requires { IsSeatOf W.table W.names at.old }
        ensures seat { at.new.seat ≡ at.old.seat }
        ensures lock { at.new.place.table_id ≡ W.table }
        ensures served { at.new.place.me ≡ (served result.0 (card at.old.seat (known_at W.names at.old)) result.1, (0, None) ∷ []) }
        ensures fits { Fits result.0 result.1 at.old.seat (known_at W.names at.old) }
    {
        self.lock.take(rt, &mut at.place)
    }

    // Puts the hub back, and passes the turn on.
    fn end<R: Wait>(&self, rt: &R, at: &mut SeatPlace, ticket: u64, hub: Hub)
        requires lock { at.old.place.table_id ≡ W.table }
        requires served { IsServed W.names at.old ticket hub }
        ensures seat { IsSeatOf W.table W.names at.new }
        ensures known { (x : KnownByPass) (held : Chronicle) → at.old.place.me ≡ (served ticket (card at.old.seat x) held, (0, None) ∷ []) → known_at W.names at.new ≡ learned (ticket + 1) hub x }
    {
        self.lock.leave(rt, &mut at.place, ticket, hub);
    }

    /// Takes the oldest pending message for the party that it wants. One turn; it may wait for the lock.
    pub fn take<R: Wait>(&self, rt: &R, pass: &mut Pass<W>, want: Want) -> Taken
        requires { (standing pass.old.mine).unanswered ≡ None }
        ensures turn { IsTurn pass.old pass.new }
        ensures taken { Takes pass.old want result pass.new }
    {
        let (ticket, mut hub) = self.begin(rt, &mut pass.at);
        let taken = hub.take(pass.at.seat as usize, want);
        self.end(rt, &mut pass.at, ticket, hub);
        taken
    }

    /// Sends these messages under the rules, which ends the step of the party; or leaves the wire as before. One turn; it may wait for
    /// the lock.
    pub fn post<R: Wait>(
        &self,
        rt: &R,
        pass: &mut Pass<W>,
        end: StepEnd,
        out: &Sends,
    ) -> Result<(), PostFault>
        requires { may_end pass.old.party (standing pass.old.mine) end ≡ true }
        ensures turn { IsTurn pass.old pass.new }
        ensures ok { OnOk result (Posts pass.old (Posting end out.now) out.now pass.new) }
        ensures err { OnErr result (pass.new.mine ≡ pass.old.mine) }
        ensures full { IsErrOf result Full → HasRoom pass.new.seen out.now false }
        ensures no_memory { IsErrOf result WithoutMemory → HasRoom pass.new.seen out.now true }
    {
        let (ticket, mut hub) = self.begin(rt, &mut pass.at);
        let posted = hub.post(pass.at.seat as usize, end, out);
        self.end(rt, &mut pass.at, ticket, hub);
        posted
    }

    /// The party waits, or has ended for good. One turn, which takes no memory; it may wait for the lock.
    pub fn rest<R: Wait>(&self, rt: &R, pass: &mut Pass<W>, ended: bool)
        requires { (standing pass.old.mine).ended ≡ false }
        ensures turn { IsTurn pass.old pass.new }
        ensures rests { Rests pass.old ended pass.new }
    {
        let (ticket, mut hub) = self.begin(rt, &mut pass.at);
        hub.rest(pass.at.seat as usize, ended);
        self.end(rt, &mut pass.at, ticket, hub);
    }

    /// Halts the wire: every later take is `Closed`. One turn, which takes no memory; it may wait for the lock.
    pub fn halt<R: Wait>(&self, rt: &R, pass: &mut Pass<W>, cause: HaltCause)
        requires { (standing pass.old.mine).halted ≡ false }
        ensures turn { IsTurn pass.old pass.new }
        ensures halts { Leaves pass.old (Halting cause) pass.new }
    {
        let (ticket, mut hub) = self.begin(rt, &mut pass.at);
        hub.halt(pass.at.seat as usize, cause);
        self.end(rt, &mut pass.at, ticket, hub);
    }
}

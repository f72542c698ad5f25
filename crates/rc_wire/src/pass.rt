// Passes: what a party has of a wire.
ghost use Rattle.std.specs.Prelude.{◌≡◌, ◌≤◌, ◌<◌, ◌∷◌, ◌++◌, [], length, vec_capacity, IfSome, IfNone};
ghost use Rattle.rc_wire.specs.Places.{IsSeatOf, known_at, AreSeatsOf, all_known_at};

use crate::hub::Hub;
use crate::rules::Rules;
use crate::turn::Turn;
use rc_ids::Party;
use rc_ticket::{Guarded, Place};
use std::collections::LinkedList;
use std::marker::{Brand, Model, PhantomData};

/// What a pass knows of its wire. No value of it is made.
pub struct Known {
    /// The number of its last turn; 0 before the first.
    pub last: u64,
    /// The wire as that turn left it.
    pub seen: Hub,
    /// The party's own entries.
    pub mine: LinkedList<Turn>,
    /// Which of the parties it is, from 0 on.
    pub seat: u64,
    pub party: Party,
}

/// The rules and the parties of a wire.
#[derive(Drop)]
pub struct Names {
    pub rules: Rules,
    pub parties: Vec<Party>,
}

impl Model for Names {
    ghost use Rattle.std.specs.Prelude.{[]};
    ghost use Rattle.rc_wire.specs.Chronicle.{Chronicle, chronicle};

    ghost Value = { Chronicle };

    ghost view = { λ n. chronicle n.rules n.parties.items [] };
}

impl Guarded<Names, Known> for Hub {
    ghost use Rattle.rc_wire.specs.Passes.{Fits, all_known, learned as learns};

    ghost start = { all_known };

    ghost fits = { Fits };

    ghost learned = { learns };
}

/// Names one wire, its rules and its parties. It has no calls.
pub trait WireName {
    ghost use Rattle.atomic_table.specs.Seated.{TableId};
    ghost use Rattle.rc_wire.specs.Chronicle.{Chronicle};

    ghost table: { TableId };

    // Its history is empty.
    ghost names: { Chronicle };
}

// Names no wire until a call picks the names.
impl WireName for Brand {
    ghost use Rattle.rc_wire.specs.Turns.{no_table, no_names};

    ghost table = { no_table };

    ghost names = { no_names };
}

/// A place at the lock with the card of one seat. It has no bytes but the seat's number.
#[derive(Drop)]
pub struct SeatPlace {
    pub place: Place<Hub, Known>,
    pub seat: u64,
}

/// A party's pass to a wire. Contracts see what it knows.
#[derive(Drop)]
pub struct Pass<W: WireName> {
    pub(crate) at: SeatPlace,
    of: PhantomData<W>,
}

impl<W: WireName> Model for Pass<W> {
    ghost use Rattle.rc_wire.specs.declared.pass.Known.{Known as KnownByPass};
    ghost use Rattle.rc_wire.specs.Places.{IsSeatOf, known_at};

    ghost Value = { KnownByPass };

    ghost view = { λ p. known_at W.names p.at };

    ghost invariant = { λ p. IsSeatOf W.table W.names p.at };
}

impl<W: WireName> Pass<W> {
    /// The pass that has this place.
    pub(crate) fn new(at: SeatPlace) -> Pass<W>
        requires { IsSeatOf W.table W.names at }
        ensures { result ≡ known_at W.names at }
    {
        Pass {
            at,
            of: PhantomData,
        }
    }
}

/// Passes of one wire, with room for one of each party.
#[derive(Drop)]
pub struct Passes<W: WireName> {
    pub(crate) list: Vec<SeatPlace>,
    of: PhantomData<W>,
}

impl<W: WireName> Model for Passes<W> {
    ghost use Rattle.std.specs.Prelude.{◌≤◌, List, length, vec_capacity};
    ghost use Rattle.rc_wire.specs.declared.pass.Known.{Known as KnownByPass};
    ghost use Rattle.rc_wire.specs.Places.{AreSeatsOf, all_known_at};

    ghost Value = { List KnownByPass };

    ghost view = { λ p. all_known_at W.names p.list.items };

    ghost invariant = { λ p. AreSeatsOf W.table W.names p.list.items × (length W.names.parties ≤ vec_capacity p.list) };
}

impl<W: WireName> Passes<W> {
    /// These passes.
    pub(crate) fn of(list: Vec<SeatPlace>) -> Passes<W>
        requires seats { AreSeatsOf W.table W.names list.items }
        requires room { length W.names.parties ≤ vec_capacity list }
        ensures { result ≡ all_known_at W.names list.items }
    {
        Passes {
            list,
            of: PhantomData,
        }
    }

    /// The places of these passes.
    pub(crate) fn into_list(self) -> Vec<SeatPlace>
        ensures seats { AreSeatsOf W.table W.names result.items }
        ensures known { all_known_at W.names result.items ≡ self }
    {
        let Passes { list, of: _ } = self;
        list
    }

    /// Moves the last pass out.
    pub fn pop(&mut self) -> Option<Pass<W>>
        ensures some { IfSome result (λ pass. self.old ≡ self.new ++ pass ∷ []) }
        ensures none { IfNone result ((self.old ≡ []) × (self.new ≡ self.old)) }
    {
        let at = self.list.pop()?;
        Some(Pass::new(at))
    }

    /// Moves a pass in, as the last one. It takes no memory.
    pub fn push(&mut self, pass: Pass<W>)
        requires { length self.old < length W.names.parties }
        ensures { self.new ≡ self.old ++ pass ∷ [] }
    {
        let Pass { at, of: _ } = pass;
        self.list.push_reserved(at);
    }
}

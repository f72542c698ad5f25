// What holds of a ticket lock between any two steps.
use atomic_table::{Join, Play, Seat, Split, Table, TableRule};
use std::alloc::Global;
use std::collections::LinkedList;
use std::marker::PhantomData;

/// A value under a ticket lock. Each of its seats, which are numbered from 0 on, knows something of it, an `X`. A `K` says what all
/// seats know at first.
pub trait Guarded<K, X> {
    ghost use Rattle.std.specs.Prelude.{ℕ, List};

    // What the seats know before the first turn, one after another.
    ghost start: { K → List X };

    // After so many turns, which left this value, the seat of this number may know this.
    ghost fits: { ℕ → Self → ℕ → X → Type 0 };

    // What a seat knows once its turn has ended: by how many turns there were, the value that was left, and what it knew.
    ghost learned: { ℕ → Self → X → X };
}

/// What one seat knows, with its number. No value of it is made.
pub struct Card<X> {
    pub seat: u64,
    pub knows: X,
}

/// What a place at the lock has: the tickets that it drew, the value as it took it out, and the cards of its seats. No value of it is
/// made.
pub struct View<C, X> {
    pub tickets: LinkedList<u64>,
    pub held: Option<C>,
    pub cards: LinkedList<Card<X>>,
}

/// The rule of a ticket lock. Word 0 is the next ticket, word 1 the ticket whose turn it is, and the slot has the value.
pub struct TurnByTurn;

impl<K, X, C: Guarded<K, X>> TableRule<Option<C>, View<C, X>, K> for TurnByTurn {
    ghost use Rattle.std.specs.Prelude.{length};
    ghost use Rattle.rc_ticket.specs.Cards.{opening};
    ghost use Rattle.rc_ticket.specs.Rule.{Kept};

    ghost holds = { λ key. Kept (length (C.start key)) C.fits };

    ghost first = { λ key. opening (C.start key) };
}

/// A ticket is drawn.
pub struct Draw;

impl<C, X> Play<Option<C>, View<C, X>> for Draw {
    ghost use Rattle.rc_ticket.specs.Plays.{Drawn};

    ghost then = { Drawn };
}

/// Whose turn it is; where it is the place's own, it takes the value.
pub struct Look<K> {
    of: PhantomData<K>,
}

impl<K, X, C: Guarded<K, X>> Play<Option<C>, View<C, X>> for Look<K> {
    ghost use Rattle.rc_ticket.specs.Plays.{Looked};

    ghost then = { Looked C.fits };
}

/// The value is left, and the turn is the next ticket's.
pub struct PassOn<K> {
    of: PhantomData<K>,
}

impl<K, X, C: Guarded<K, X>> Play<Option<C>, View<C, X>> for PassOn<K> {
    ghost use Rattle.rc_ticket.specs.Plays.{Passed};

    ghost then = { Passed C.learned };
}

/// A place without a card.
pub struct Enter;

impl<C, X> Play<Option<C>, View<C, X>> for Enter {
    ghost use Rattle.rc_ticket.specs.Plays.{Entered};

    ghost then = { Entered };
}

/// The first card goes to a place of its own; and the cards of two places go to the first one.
pub struct Deal;

impl<C, X> Split<View<C, X>> for Deal {
    ghost use Rattle.rc_ticket.specs.Cards.{without_first, first_alone};

    ghost left = { without_first };

    ghost right = { first_alone };
}

impl<C, X> Join<View<C, X>> for Deal {
    ghost use Rattle.rc_ticket.specs.Cards.{together, nobody};

    ghost both = { together };

    ghost spent = { nobody };
}

/// A place at the lock. It has no bytes.
pub type Place<C, X> = Seat<Option<C>, View<C, X>>;

pub type Board<C, X, K> = Table<Option<C>, View<C, X>, K, TurnByTurn, Global>;

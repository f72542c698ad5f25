// The lock.
ghost use Rattle.std.specs.Prelude.{◌≡◌, ◌≢◌, ℕ, ◌+◌, ◌^◌, ◌<◌, ◌≤◌, List, [], ◌∷◌, ◌++◌, length, IfOk, None, Some};
ghost use Rattle.rc_ticket.specs.declared.rule.Card.{Card as Known};
ghost use Rattle.rc_ticket.specs.Cards.{card, dealt, at_rest, nobody, opening, idle, queued, served};
ghost use Rattle.rc_ticket.specs.Rule.{CardsFit, Closed};
ghost use Rattle.rc_ticket.specs.Plays.{Serves};

use crate::rule::{Board, Deal, Draw, Enter, Guarded, Look, PassOn, Place};
use atomic_table::Table;
use std::alloc::{AllocError, Global};
use std::sync::Wait;
use std::thread;

/// The turn of this number is not passed on.
const LAST_TURN: u64 = 1 << 62;

/// The lock. Threads share it.
pub struct TicketLock<C: Guarded<K, X>, X, K> {
    pub board: Board<C, X, K>,
    ghost counts: { (board.shared.table_id.words ≡ 2) × (board.shared.table_id.slots ≡ 1) },
}

impl<C: Guarded<K, X> + Drop, X, K> Drop for TicketLock<C, X, K> {
    fn drop(self) {
        let TicketLock { board } = self;
        drop(board);
    }
}

impl<C: Guarded<K, X> + Drop, X, K> TicketLock<C, X, K> {
    /// A lock with this value in it, and a place that has the cards of all seats.
    pub fn new(
        alloc: Global,
        value: C,
        about: &K,
    ) -> Result<(TicketLock<C, X, K>, Place<C, X>), AllocError>
        requires few { length (C.start about.now) < 2 ^ 32 }
        requires fit { CardsFit (length (C.start about.now)) C.fits 0 value (dealt 0 (C.start about.now)) }
        ensures key { IfOk result (λ r. r.0.board.shared.key ≡ about.now) }
        ensures place { IfOk result (λ r. (r.1.table_id ≡ r.0.board.shared.table_id) × (r.1.me ≡ (opening (C.start about.now), []))) }
    {
        let mut slots = Vec::with_capacity(alloc, 1)?;
        slots.push_reserved(Some(value));
        let Ok((board, place)) = Table::new(alloc, &[0, 0], slots, about) else {
            return Err(AllocError);
        };
        Ok((TicketLock { board }, place))
    }

    /// Gives the first card to a place of its own.
    pub fn deal(&self, place: &mut Place<C, X>) -> Place<C, X>
        requires lock { place.old.table_id ≡ self.now.board.shared.table_id }
        requires cards { (c : Known X) × (cards : List (Known X)) × (place.old.me ≡ (at_rest (c ∷ cards), [])) }
        ensures lock { (place.new.table_id ≡ place.old.table_id) × (result.table_id ≡ place.old.table_id) }
        ensures cards { (c : Known X) (cards : List (Known X)) → place.old.me ≡ (at_rest (c ∷ cards), []) → (place.new.me ≡ (at_rest cards, [])) × (result.me ≡ (idle c, [])) }
    {
        self.board.shared.split_seat::<Deal>(place)
    }

    /// A place without a card.
    pub fn enter(&self) -> Place<C, X>
        ensures lock { result.table_id ≡ self.now.board.shared.table_id }
        ensures nobody { result.me ≡ (nobody, []) }
    {
        let (_, place) = self.board.shared.load_new_seat::<Enter>(0);
        place
    }

    /// Takes in the cards of another place.
    pub fn gather(&self, place: &mut Place<C, X>, other: Place<C, X>)
        requires lock { (place.old.table_id ≡ self.now.board.shared.table_id) × (other.table_id ≡ place.old.table_id) }
        requires cards { (cards others : List (Known X)) × (place.old.me ≡ (at_rest cards, [])) × (other.me ≡ (at_rest others, [])) }
        ensures lock { place.new.table_id ≡ place.old.table_id }
        ensures cards { (cards others : List (Known X)) → place.old.me ≡ (at_rest cards, []) → other.me ≡ (at_rest others, []) → place.new.me ≡ (at_rest (cards ++ others), []) }
    {
        self.board.shared.join_seat::<Deal>(place, other);
    }

    // Draws a ticket.
    fn draw(&self, place: &mut Place<C, X>) -> u64
        requires lock { place.old.table_id ≡ self.now.board.shared.table_id }
        requires idle { (c : Known X) × (place.old.me ≡ (idle c, [])) }
        ensures lock { place.new.table_id ≡ place.old.table_id }
        ensures queued { (c : Known X) → place.old.me ≡ (idle c, []) → place.new.me ≡ (queued result c, []) }
    {
        self.board.shared.fetch_add::<Draw>(place, 0, 1)
    }

    // Looks until it is the turn of the ticket.
    fn wait<R: Wait>(&self, rt: &R, place: &mut Place<C, X>, ticket: u64)
        requires lock { place.old.table_id ≡ self.now.board.shared.table_id }
        requires queued { (c : Known X) × (place.old.me ≡ (queued ticket c, [])) }
        ensures lock { place.new.table_id ≡ place.old.table_id }
        ensures served { (c : Known X) → place.old.me ≡ (queued ticket c, []) → Serves C.fits ticket c place.new.me }
    {
        for _ in rt.forever() {
            if self.board.shared.load::<Look<K>>(place, 1) == ticket {
                return;
            }
            thread::yield_now();
        }
        unreachable!()
    }

    /// Draws a ticket, waits for its turn and takes the value out. Gives the ticket too.
    pub fn take<R: Wait>(&self, rt: &R, place: &mut Place<C, X>) -> (u64, C)
        requires lock { place.old.table_id ≡ self.now.board.shared.table_id }
        requires idle { (c : Known X) × (place.old.me ≡ (idle c, [])) }
        ensures lock { place.new.table_id ≡ place.old.table_id }
        ensures served { (c : Known X) → place.old.me ≡ (idle c, []) → place.new.me ≡ (served result.0 c result.1, (0, None) ∷ []) }
        ensures fits { (c : Known X) → place.old.me ≡ (idle c, []) → C.fits result.0 result.1 c.seat c.knows }
    {
        let ticket = self.draw(place);
        self.wait(rt, place, ticket);
        let Some(value) = self.board.shared.exchange(place, 0, None) else {
            unreachable!()
        };
        (ticket, value)
    }

    /// Puts the value back and passes the turn on. The turn numbered 2^62 is not passed on.
    pub fn leave<R: Wait>(&self, rt: &R, place: &mut Place<C, X>, ticket: u64, value: C)
        requires lock { place.old.table_id ≡ self.now.board.shared.table_id }
        requires served { (c : Known X) × (held : C) × (place.old.me ≡ (served ticket c held, (0, None) ∷ []))
            × (C.fits ticket held c.seat c.knows → C.fits (ticket + 1) value c.seat (C.learned (ticket + 1) value c.knows))
            × ((seat : ℕ) (x : X) → seat ≢ c.seat → C.fits ticket held seat x → C.fits (ticket + 1) value seat x) }
        ensures lock { place.new.table_id ≡ place.old.table_id }
        ensures idle { (c : Known X) (held : C) → place.old.me ≡ (served ticket c held, (0, None) ∷ []) → place.new.me ≡ (idle (card c.seat (C.learned (ticket + 1) value c.knows)), []) }
    {
        stop_at_last(rt, ticket);
        let None = self.board.shared.exchange(place, 0, Some(value)) else {
            unreachable!()
        };
        self.board.shared.fetch_add::<PassOn<K>>(place, 1, 1);
    }

    /// Takes the lock apart. The place has the cards of all seats.
    pub fn close(self, place: Place<C, X>) -> C
        requires lock { place.table_id ≡ self.board.shared.table_id }
        requires all { (cards : List (Known X)) × (place.me ≡ (at_rest cards, [])) × (length cards ≡ length (C.start self.board.shared.key)) }
        ensures closed { (cards : List (Known X)) → place.me ≡ (at_rest cards, []) → Closed (length (C.start self.board.shared.key)) C.fits result cards }
    {
        let TicketLock { board } = self;
        let mut closed = board.close_with(place);
        let Some(value) = closed.take(0) else {
            unreachable!()
        };
        closed.free();
        value
    }
}

// Waits for ever at the last turn.
fn stop_at_last<R: Wait>(rt: &R, ticket: u64)
    ensures { ticket < 2 ^ 62 }
{
    if ticket >= LAST_TURN {
        for _ in rt.forever() {}
        unreachable!()
    }
}

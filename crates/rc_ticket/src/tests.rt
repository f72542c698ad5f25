// Threads that share a lock.
ghost use Rattle.std.specs.Prelude.{◌≡◌, ℕ, []};
ghost use Rattle.rc_ticket.specs.declared.rule.Card.{Card as Known};
ghost use Rattle.rc_ticket.specs.Cards.{idle};

use crate::{Guarded, Place, TicketLock};
use std::alloc::{AllocError, Global};
use std::sync::Wait;
use std::test::Fail;
use std::thread;
use std::thread::Threads;

/// How often each thread takes the lock.
const TURNS: u32 = 5_000;

/// What two threads add to. They know nothing of it.
#[derive(Drop)]
struct Tally {
    sum: u64,
}

impl Guarded<u8, u8> for Tally {
    ghost use Rattle.std.specs.Prelude.{[], ◌∷◌};

    ghost start = { λ _. 0 ∷ 0 ∷ [] };

    ghost fits = { λ turns value seat x. Unit {0} };

    ghost learned = { λ turns value x. x };
}

/// Adds one in each of its turns.
fn add<R: Wait>(
    rt: &R,
    lock: &TicketLock<Tally, u8, u8>,
    mut place: Place<Tally, u8>,
) -> Place<Tally, u8>
    requires lock { place.table_id ≡ lock.now.board.shared.table_id }
    requires idle { (c : Known ℕ) × (place.me ≡ (idle c, [])) }
    ensures lock { result.table_id ≡ lock.now.board.shared.table_id }
    ensures idle { (c : Known ℕ) × (result.me ≡ (idle c, [])) }
{
    for _ in 0..TURNS {
        let (ticket, mut tally) = lock.take(rt, &mut place);
        tally.sum = tally.sum.saturating_add(1);
        lock.leave(rt, &mut place, ticket, tally);
    }
    place
}

/// What two threads add.
fn sum_of_two<R: Threads + Wait + Sync>(rt: &R, alloc: Global) -> Result<u64, AllocError> {
    let (lock, mut all) = TicketLock::new(alloc, Tally { sum: 0 }, &0)?;
    let (first, second) = (lock.deal(&mut all), lock.deal(&mut all));
    let shared = &lock;
    let (first, second) = thread::join(
        rt,
        move ||
            requires { (first.table_id ≡ shared.now.board.shared.table_id) × ((c : Known ℕ) × (first.me ≡ (idle c, []))) }
            ensures { (result.table_id ≡ shared.entry.now.board.shared.table_id) × ((c : Known ℕ) × (result.me ≡ (idle c, []))) }
        { add(rt, shared, first) },
        move ||
            requires { (second.table_id ≡ shared.now.board.shared.table_id) × ((c : Known ℕ) × (second.me ≡ (idle c, []))) }
            ensures { (result.table_id ≡ shared.entry.now.board.shared.table_id) × ((c : Known ℕ) × (result.me ≡ (idle c, []))) }
        { add(rt, shared, second) },
    );
    lock.gather(&mut all, first);
    lock.gather(&mut all, second);
    Ok(lock.close(all).sum)
}

#[test]
fn each_turn_is_counted(rt: HostRuntime) -> Result<(), Fail> {
    let sum = sum_of_two(&rt, rt.alloc())?;
    assert_eq!(rt; sum, 2 * TURNS as u64);
    Ok(())
}

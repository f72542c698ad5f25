// Lists of calls of a lock table.
ghost use Rattle.std.specs.Prelude.{◌≡◌, ◌≤◌, ℕ, [], ◌∷◌, None, OnOk, OnErr, IfOk, length, map, take};
ghost use Rattle.std.specs.Ordering.{nat_cmp};
ghost use Rattle.rc_ids.specs.Tables.{found};
ghost use Rattle.rc_locks.specs.LockSets.{tested, MayBePrepared, after_prepare, without_all, freed, after_finish};
ghost use Rattle.rc_locks.specs.Runs.{said_by, said_to, after_test, after_call, ran, MayCall, MayRun};

use crate::{Answer, Asked, Freed, LockTable};
use rc_body::Body;
use rc_ids::{Key, NoMemory, TxId};
use rc_versions::Versions;
use std::alloc::Global;

/// A call of a lock table.
#[derive(Drop)]
pub enum LockCall {
    /// The transaction asks to read the key.
    Ask(TxId, Key),
    /// The transaction takes its read of the key back.
    Cancel(TxId, Key),
    /// The part of the transaction is tested where no key was ever written, and prepared where the test passes.
    Prepare(TxId, Body),
    /// The transaction is finished.
    Finish(TxId),
}

/// What a call is answered.
#[derive(Drop)]
pub enum LockAnswer {
    /// What becomes of the read.
    Asked(Asked),
    Cancelled,
    /// Whether the part was prepared.
    Tested(Answer),
    /// The reads that were granted, in order of arrival.
    Finished(Freed),
}

/// The answers of a list of calls, in their order.
pub type Answers = Vec<LockAnswer>;

/// Prepares a copy of the part, which passed the test, or leaves all as before.
fn prepare<L: LockTable>(table: &mut L, tx: TxId, part: &Body) -> Result<(), NoMemory>
    requires absent { found nat_cmp (L.state table.old).parts tx ≡ None }
    requires tested { MayBePrepared (L.state table.old) tx part.now }
    ensures ok { OnOk result (L.state table.new ≡ after_prepare (L.state table.old) tx part.now) }
    ensures err { OnErr result (L.state table.new ≡ L.state table.old) }
{
    let copied = part.copy()?;
    table.room(tx, part)?;
    table.prepare(tx, copied);
    Ok(())
}

/// Tests the part where no key was ever written, and prepares it where the test passes; or leaves all as before.
fn try_prepare<L: LockTable>(
    alloc: Global,
    table: &mut L,
    tx: TxId,
    part: &Body,
) -> Result<Answer, NoMemory>
    requires { found nat_cmp (L.state table.old).parts tx ≡ None }
    ensures said { IfOk result (λ said. said ≡ tested (L.state table.old) [] tx part.now) }
    ensures ok { OnOk result (L.state table.new ≡ after_test (tested (L.state table.old) [] tx part.now) (L.state table.old) tx part.now) }
    ensures err { OnErr result (L.state table.new ≡ L.state table.old) }
{
    match table.test(tx, part, &Versions::new(alloc)) {
        Answer::Yes => {
            prepare(table, tx, part)?;
            Ok(Answer::Yes)
        }
        Answer::No(reason) => Ok(Answer::No(reason)),
    }
}

/// Finishes the transaction, or leaves all as before.
fn finish<L: LockTable>(table: &mut L, tx: TxId) -> Result<Freed, NoMemory>
    ensures granted { IfOk result (λ reads. reads.items ≡ freed (without_all (L.state table.old) (tx ∷ []))) }
    ensures ok { OnOk result (L.state table.new ≡ after_finish (L.state table.old) (tx ∷ [])) }
    ensures err { OnErr result (L.state table.new ≡ L.state table.old) }
{
    let txs = [tx];
    table.room_finish(&txs)?;
    Ok(table.finish(&txs))
}

/// Does one call, or leaves all as before.
fn run_call<L: LockTable>(
    alloc: Global,
    table: &mut L,
    call: &LockCall,
) -> Result<LockAnswer, NoMemory>
    requires { MayCall (L.state table.old) call.now }
    ensures said { IfOk result (λ said. said_by said ≡ said_to (L.state table.old) call.now) }
    ensures ok { OnOk result (L.state table.new ≡ after_call (L.state table.old) call.now) }
    ensures err { OnErr result (L.state table.new ≡ L.state table.old) }
{
    match call {
        LockCall::Ask(tx, key) => Ok(LockAnswer::Asked(table.ask(*tx, key)?)),
        LockCall::Cancel(tx, key) => {
            table.cancel(*tx, key);
            Ok(LockAnswer::Cancelled)
        }
        LockCall::Prepare(tx, part) => {
            Ok(LockAnswer::Tested(try_prepare(alloc, table, *tx, part)?))
        }
        LockCall::Finish(tx) => Ok(LockAnswer::Finished(finish(table, *tx)?)),
    }
}

/// Does the calls in order, and gives their answers. No part may be prepared of a transaction that is prepared when its turn comes.
/// For want of memory the calls from some place on are not done.
pub fn run_locks<L: LockTable>(
    alloc: Global,
    table: &mut L,
    calls: &[LockCall],
) -> Result<Answers, NoMemory>
    requires { MayRun (L.state table.old) calls.now }
    ensures answers { IfOk result (λ answers. map said_by answers.items ≡ (ran (L.state table.old) calls.now).0) }
    ensures after { OnOk result (L.state table.new ≡ (ran (L.state table.old) calls.now).1) }
    ensures err { OnErr result ((n : ℕ) × (n ≤ length calls.now) × (L.state table.new ≡ (ran (L.state table.old) (take n calls.now)).1)) }
{
    let mut answers = Vec::new(alloc);
    for call in calls {
        answers.push(run_call(alloc, table, call)?)?;
    }
    Ok(answers)
}

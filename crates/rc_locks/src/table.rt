// What a lock table is.
ghost use Rattle.std.specs.Prelude.{◌≡◌, ℕ, List, None, OnOk, OnErr, IfOk};
ghost use Rattle.std.specs.Option.{option_copied};
ghost use Rattle.std.specs.Ordering.{nat_cmp};
ghost use Rattle.rc_ids.specs.Tables.{found};
ghost use Rattle.rc_body.specs.declared.entry.Entry.{Entry};
ghost use Rattle.rc_protocol.specs.Shard as shard_spec;
ghost use Rattle.rc_locks.specs.LockSets.{LockSets, no_locks, only_parts, asked, after_ask, after_cancel, waiting_for, tested, MayBePrepared, after_prepare, without_all, freed, after_finish};

use crate::{Answer, Asked, Freed, Prepared};
use rc_body::{Body, Parts};
use rc_ids::{Key, NoMemory, TxId};
use rc_versions::Versions;
use std::alloc::Global;

/// The locks of a shard. A prepared part holds each key that it writes exclusively, and shares the others; a read has a plain lock, or
/// waits. A plain lock is lost when another transaction prepares a write of the key.
pub trait LockTable: Drop {
    ghost state: { Self → LockSets };

    // A prepare of this part by this transaction takes no memory.
    ghost has_room: { Self → ℕ → List Entry → Type 0 };

    // A finish of these transactions takes no memory.
    ghost has_finish_room: { Self → List ℕ → Type 0 };

    /// No locks.
    fn new(alloc: Global) -> Self
        ensures { state result ≡ no_locks };

    /// These prepared parts and nothing else.
    fn restore(alloc: Global, parts: Parts) -> Result<Self, NoMemory>
        ensures { IfOk result (λ locks. state locks ≡ only_parts parts) };

    /// Lets the transaction read the key: gives it a plain lock, or lets it wait, once.
    fn ask(&mut self, tx: TxId, key: &Key) -> Result<Asked, NoMemory>
        ensures said { IfOk result (λ said. said ≡ asked (state self.old) tx key.now) }
        ensures ok { OnOk result (state self.new ≡ after_ask (asked (state self.old) tx key.now) (state self.old) (key.now, tx)) }
        ensures err { OnErr result (state self.new ≡ state self.old) };

    /// What `ask` would answer.
    fn would_ask(&self, tx: TxId, key: &Key) -> Asked
        ensures { result ≡ asked (state self.now) tx key.now };

    /// Takes a read back: its plain lock, or its place among those that wait.
    fn cancel(&mut self, tx: TxId, key: &Key)
        ensures { state self.new ≡ after_cancel (state self.old) tx key.now };

    /// Whether the part may be prepared beside these versions, by a transaction that is not prepared here.
    fn test(&self, tx: TxId, part: &Body, at: &Versions) -> Answer
        requires { found nat_cmp (state self.now).parts tx ≡ None }
        ensures { result ≡ tested (state self.now) at.now.rows tx part.now };

    /// Makes room, so that a prepare of this part by this transaction takes no memory, if no other call changes the locks before it.
    fn room(&mut self, tx: TxId, part: &Body) -> Result<(), NoMemory>
        ensures same { state self.new ≡ state self.old }
        ensures ok { OnOk result (has_room self.new tx part.now) };

    /// Prepares the part, which passed the test, and for which room was made: others lose their plain locks on the keys that it writes,
    /// and the transaction's own plain locks and waiting reads go.
    fn prepare(&mut self, tx: TxId, part: Body)
        requires absent { found nat_cmp (state self.old).parts tx ≡ None }
        requires tested { MayBePrepared (state self.old) tx part }
        requires room { has_room self.old tx part }
        ensures { state self.new ≡ after_prepare (state self.old) tx part };

    /// Makes room, so that a finish of these transactions takes no memory, if no other call changes the locks before it.
    fn room_finish(&mut self, txs: &[TxId]) -> Result<(), NoMemory>
        ensures same { state self.new ≡ state self.old }
        ensures ok { OnOk result (has_finish_room self.new txs.now) };

    /// Takes the parts, locks, marks and waiting reads of these transactions away, for which room was made; then each waiting read whose
    /// key nobody holds exclusively gets a plain lock. Gives these reads, in order of arrival.
    fn finish(&mut self, txs: &[TxId]) -> Freed
        requires { has_finish_room self.old txs.now }
        ensures granted { result.items ≡ freed (without_all (state self.old) txs.now) }
        ensures after { state self.new ≡ after_finish (state self.old) txs.now };

    /// What `finish` would give.
    fn would_finish(&self, txs: &[TxId]) -> Result<Freed, NoMemory>
        ensures { IfOk result (λ reads. reads.items ≡ freed (without_all (state self.now) txs.now)) };

    /// Who holds the key exclusively: the least transaction whose part writes it.
    fn holder(&self, key: &Key) -> Option<TxId>
        ensures { result ≡ shard_spec.holder (state self.now).parts key.now };

    /// How many reads wait for the key.
    fn waiting(&self, key: &Key) -> usize
        ensures { result ≡ waiting_for (state self.now) key.now };

    /// The part of the transaction, where it is prepared here.
    fn prepared(&self, tx: TxId) -> Option<&Body>
        ensures { option_copied result ≡ found nat_cmp (state self.now).parts tx };

    /// The transactions that are prepared here, each with its part, in the order of the transactions.
    fn parts(&self) -> &[Prepared]
        ensures { result.now ≡ (state self.now).parts };
}

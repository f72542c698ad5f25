// Plain locks and marks of lost ones, as they come and go.
ghost use Rattle.std.specs.Prelude.{◌≡◌, ◌≤◌, true, false, OnOk, OnErr, filter, not, vec_len};
ghost use Rattle.rc_ids.specs.Tables.{added};
ghost use Rattle.rc_protocol.specs.Shard.{Mark as MarkLem, mark_cmp, is_other, is_taken, cleared, added_all};
ghost use Rattle.rc_locks.specs.Flags.{plain_marks, lost_marks, Rises, AreTxs, has_place, same_mark, IsCovered, ArePlaced};
ghost use Rattle.rc_locks.specs.LockSets.{cleared_all};

use crate::flags::{self, KeyIndex, LockMap, Spot};
use crate::marks::{self, Mark};
use rc_body::Body;
use rc_ids::{NoMemory, TxId};
use std::alloc::Global;

/// Adds a plain lock, or leaves all as before.
pub fn lock(
    locks: &mut LockMap,
    index: &mut KeyIndex,
    alloc: Global,
    mark: &Spot,
) -> Result<(), NoMemory>
    requires rises { Rises locks.old.entries }
    requires txs { AreTxs locks.old.entries }
    requires covered { IsCovered locks.old.entries index.old.entries }
    ensures ok { OnOk result (plain_marks locks.new.entries ≡ added mark_cmp (plain_marks locks.old.entries) mark.now) }
    ensures err { OnErr result (plain_marks locks.new.entries ≡ plain_marks locks.old.entries) }
    ensures lost { lost_marks locks.new.entries ≡ lost_marks locks.old.entries }
    ensures kept { (m : MarkLem) → has_place locks.old.entries m ≡ true → has_place locks.new.entries m ≡ true }
    ensures rises { Rises locks.new.entries }
    ensures txs { AreTxs locks.new.entries }
    ensures covered { IsCovered locks.new.entries index.new.entries }
{
    flags::make_place(locks, index, alloc, mark)?;
    flags::grant(locks, mark);
    Ok(())
}

/// Gives the mark a place, which means nothing yet.
pub fn place(
    locks: &mut LockMap,
    index: &mut KeyIndex,
    alloc: Global,
    mark: &Spot,
) -> Result<(), NoMemory>
    requires rises { Rises locks.old.entries }
    requires txs { AreTxs locks.old.entries }
    requires covered { IsCovered locks.old.entries index.old.entries }
    ensures there { OnOk result (has_place locks.new.entries mark.now ≡ true) }
    ensures kept { (m : MarkLem) → has_place locks.old.entries m ≡ true → has_place locks.new.entries m ≡ true }
    ensures plain { plain_marks locks.new.entries ≡ plain_marks locks.old.entries }
    ensures lost { lost_marks locks.new.entries ≡ lost_marks locks.old.entries }
    ensures rises { Rises locks.new.entries }
    ensures txs { AreTxs locks.new.entries }
    ensures covered { IsCovered locks.new.entries index.new.entries }
{
    flags::make_place(locks, index, alloc, mark)
}

/// Takes a plain lock back.
pub fn unlock(locks: &mut LockMap, index: &mut KeyIndex, mark: &Spot)
    requires rises { Rises locks.old.entries }
    requires txs { AreTxs locks.old.entries }
    requires covered { IsCovered locks.old.entries index.old.entries }
    ensures plain { plain_marks locks.new.entries ≡ filter (is_other mark.now) (plain_marks locks.old.entries) }
    ensures kept { (m : MarkLem) → same_mark mark.now m ≡ false → has_place locks.old.entries m ≡ true → has_place locks.new.entries m ≡ true }
    ensures lost { lost_marks locks.new.entries ≡ lost_marks locks.old.entries }
    ensures rises { Rises locks.new.entries }
    ensures txs { AreTxs locks.new.entries }
    ensures covered { IsCovered locks.new.entries index.new.entries }
{
    flags::unlock(locks, mark);
    flags::drop_idle(locks, index, mark);
}

/// Takes the plain locks that a prepare of the part takes away, and those of the transaction itself.
pub fn preempt(locks: &mut LockMap, index: &KeyIndex, tx: TxId, part: &Body)
    requires rises { Rises locks.old.entries }
    requires txs { AreTxs locks.old.entries }
    requires covered { IsCovered locks.old.entries index.now.entries }
    ensures plain { plain_marks locks.new.entries ≡ cleared (filter (λ (m : MarkLem). not (is_taken tx part.now m)) (plain_marks locks.old.entries)) tx }
    ensures lost { lost_marks locks.new.entries ≡ added_all (lost_marks locks.old.entries) (filter (is_taken tx part.now) (plain_marks locks.old.entries)) }
    ensures places { (m : MarkLem) → has_place locks.new.entries m ≡ has_place locks.old.entries m }
    ensures rises { Rises locks.new.entries }
    ensures txs { AreTxs locks.new.entries }
    ensures covered { IsCovered locks.new.entries index.now.entries }
{
    flags::take_part(locks, tx, part);
    flags::release(locks, index, tx);
}

/// Takes all that the transaction has away, and the reads of it that wait.
fn forget(locks: &mut LockMap, index: &mut KeyIndex, waiting: &mut Vec<Mark>, tx: TxId)
    requires rises { Rises locks.old.entries }
    requires txs { AreTxs locks.old.entries }
    requires covered { IsCovered locks.old.entries index.old.entries }
    requires placed { ArePlaced waiting.old.items locks.old.entries }
    ensures plain { plain_marks locks.new.entries ≡ cleared (plain_marks locks.old.entries) tx }
    ensures lost { lost_marks locks.new.entries ≡ cleared (lost_marks locks.old.entries) tx }
    ensures waiting { waiting.new.items ≡ cleared waiting.old.items tx }
    ensures few { vec_len waiting.new ≤ vec_len waiting.old }
    ensures rises { Rises locks.new.entries }
    ensures txs { AreTxs locks.new.entries }
    ensures covered { IsCovered locks.new.entries index.new.entries }
    ensures placed { ArePlaced waiting.new.items locks.new.entries }
{
    flags::forget(locks, index, tx);
    marks::clear(waiting, tx);
}

/// Takes all that these transactions have away, and the reads of them that wait.
pub fn forget_all(locks: &mut LockMap, index: &mut KeyIndex, waiting: &mut Vec<Mark>, txs: &[TxId])
    requires rises { Rises locks.old.entries }
    requires txs { AreTxs locks.old.entries }
    requires covered { IsCovered locks.old.entries index.old.entries }
    requires placed { ArePlaced waiting.old.items locks.old.entries }
    ensures plain { plain_marks locks.new.entries ≡ cleared_all (plain_marks locks.old.entries) txs.now }
    ensures lost { lost_marks locks.new.entries ≡ cleared_all (lost_marks locks.old.entries) txs.now }
    ensures waiting { waiting.new.items ≡ cleared_all waiting.old.items txs.now }
    ensures few { vec_len waiting.new ≤ vec_len waiting.old }
    ensures rises { Rises locks.new.entries }
    ensures txs { AreTxs locks.new.entries }
    ensures covered { IsCovered locks.new.entries index.new.entries }
    ensures placed { ArePlaced waiting.new.items locks.new.entries }
{
    for tx in txs {
        forget(locks, index, waiting, *tx);
    }
}

/// Adds a plain lock for each of the marks, which have places.
pub fn grant_all(locks: &mut LockMap, granted: &[Mark])
    requires rises { Rises locks.old.entries }
    requires txs { AreTxs locks.old.entries }
    requires placed { ArePlaced granted.now locks.old.entries }
    ensures plain { plain_marks locks.new.entries ≡ added_all (plain_marks locks.old.entries) granted.now }
    ensures lost { lost_marks locks.new.entries ≡ lost_marks locks.old.entries }
    ensures rises { Rises locks.new.entries }
    ensures txs { AreTxs locks.new.entries }
    ensures places { (m : MarkLem) → has_place locks.new.entries m ≡ has_place locks.old.entries m }
{
    for mark in granted {
        flags::grant(locks, &flags::spot_of(mark));
    }
}

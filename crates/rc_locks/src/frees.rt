// The waiting reads whose key nobody holds exclusively.
ghost use Rattle.std.specs.Prelude.{◌≡◌, ◌≤◌, ◌+◌, ◌==◌, ◌++◌, not, filter, length, vec_len, vec_capacity, IfOk};
ghost use Rattle.std.specs.List.{list_all};
ghost use Rattle.rc_protocol.specs.Shard.{Mark as MarkLem};
ghost use Rattle.rc_locks.specs.Cells.{writers_at, is_free_at, is_among, frees_at};

use crate::cells::{Cells, holder};
use crate::marks::Mark;
use rc_ids::{Key, NoMemory, TxId};
use std::alloc::Global;

/// Whether nobody holds the key of the mark exclusively.
pub fn is_free(cells: &Cells, mark: &Mark) -> bool
    ensures { result ≡ is_free_at cells.now.entries mark.now }
{
    holder(cells, &mark.0).is_none()
}

/// Adds the waiting reads whose key nobody holds exclusively, at the end. There is room for all waiting reads.
pub fn add_free(freed: &mut Vec<Mark>, waiting: &[Mark], cells: &Cells)
    requires { vec_len freed.old + length waiting.now ≤ vec_capacity freed.old }
    ensures { freed.new.items ≡ freed.old.items ++ filter (is_free_at cells.now.entries) waiting.now }
{
    for mark in waiting {
        if is_free(cells, mark) {
            freed.push_reserved((mark.0.copy(), mark.1));
        }
    }
}

/// Removes the waiting reads whose key nobody holds exclusively.
pub fn drop_free(waiting: &mut Vec<Mark>, cells: &Cells)
    ensures { waiting.new.items ≡ filter (λ (m : MarkLem). not (is_free_at cells.now.entries m)) waiting.old.items }
{
    waiting.retain(|mark| !is_free(cells, mark));
}

/// Whether the transaction is one of these.
fn is_one_of(txs: &[TxId], tx: TxId) -> bool
    ensures { result ≡ is_among txs.now tx }
{
    txs.iter().any(|other| tx == *other)
}

/// Whether nobody but these transactions holds the key exclusively.
fn is_held_by(cells: &Cells, key: &Key, txs: &[TxId]) -> bool
    ensures { result ≡ list_all (is_among txs.now) (writers_at cells.now.entries key.now) }
{
    match cells.get(key) {
        Some(cell) => cell.writers.iter().all(|writer| is_one_of(txs, *writer)),
        None => true,
    }
}

/// Whether without these transactions the read is there, and nobody holds its key exclusively.
fn frees(cells: &Cells, txs: &[TxId], mark: &Mark) -> bool
    ensures { result ≡ frees_at cells.now.entries txs.now mark.now }
{
    !is_one_of(txs, mark.1) && is_held_by(cells, &mark.0, txs)
}

/// Those of the waiting reads that are there without these transactions, and whose key nobody holds exclusively then.
pub fn would_free(
    alloc: Global,
    waiting: &[Mark],
    cells: &Cells,
    txs: &[TxId],
) -> Result<Vec<Mark>, NoMemory>
    ensures { IfOk result (λ freed. freed.items ≡ filter (frees_at cells.now.entries txs.now) waiting.now) }
{
    let mut freed = Vec::new(alloc);
    for mark in waiting {
        if frees(cells, txs, mark) {
            freed.push((mark.0.copy(), mark.1))?;
        }
    }
    Ok(freed)
}

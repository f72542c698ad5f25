// Values by transaction.
ghost use Rattle.std.specs.Prelude.{◌≡◌, ◌≤◌, ◌<◌, ◌+◌, [], is_some, OnOk};
ghost use Rattle.std.specs.Option.{option_copied};
ghost use Rattle.std.specs.Ordering.{nat_cmp};
ghost use Rattle.rc_ids.specs.Tables.{found, put as with_value, without};
ghost use Rattle.rc_body.specs.Pages.{TxsDiffer};
ghost use Rattle.rc_record.specs.InOrder.{filed};

use indexmap::IndexMap;
use rc_ids::{NoMemory, TxId};
use std::alloc::Global;
use std::marker::Model;

/// A value for each of some transactions. Each call takes the same time, however many there are.
#[derive(Drop)]
pub struct Numbered<X> {
    list: IndexMap<TxId, X>,
}

impl<X> Model for Numbered<X> {
    ghost use Rattle.std.specs.Prelude.{[]};
    ghost use Rattle.indexmap.specs.IndexMap.{spare};
    ghost use Rattle.rc_body.specs.Pages.{TxsDiffer};
    ghost use Rattle.rc_record.specs.InOrder.{filed};
    ghost use Rattle.rc_node.specs.Numbers.{NumberTable, number_table};

    ghost Value = { NumberTable X };

    ghost view = { λ n. number_table (filed [] n.list.entries) (spare n.list) };

    ghost invariant = { λ n. TxsDiffer n.list.entries };
}

impl<X> Numbered<X> {
    /// No transactions.
    pub fn new(alloc: Global) -> Numbered<X>
        ensures { result.table ≡ [] }
    {
        Numbered {
            list: IndexMap::new(alloc),
        }
    }

    /// These values, by their transactions.
    pub fn of(list: IndexMap<TxId, X>) -> Numbered<X>
        requires { TxsDiffer list.entries }
        ensures { result.table ≡ filed [] list.entries }
    {
        Numbered { list }
    }

    /// The value of the transaction, if it is there.
    pub fn get(&self, tx: TxId) -> Option<&X>
        ensures { option_copied result ≡ found nat_cmp self.now.table tx }
    {
        self.list.get(&tx)
    }

    /// Whether the transaction is there.
    pub fn has(&self, tx: TxId) -> bool
        ensures { result ≡ is_some (found nat_cmp self.now.table tx) }
    {
        self.list.contains_key(&tx)
    }

    /// Makes room for so many transactions more. All stays as it is.
    pub fn room(&mut self, count: usize) -> Result<(), NoMemory>
        ensures ok { OnOk result (count ≤ self.new.spare) }
        ensures same { self.new.table ≡ self.old.table }
        ensures kept { self.old.spare ≤ self.new.spare }
    {
        self.list.reserve(count)?;
        Ok(())
    }
}

impl<X: Drop> Numbered<X> {
    /// Gives the transaction the value. There is room for it.
    pub fn put(&mut self, tx: TxId, value: X)
        requires { 0 < self.old.spare }
        ensures table { self.new.table ≡ with_value nat_cmp self.old.table tx value }
        ensures spare { self.old.spare ≤ self.new.spare + 1 }
    {
        let _ = self.list.insert(tx, value).unwrap();
    }

    /// Takes the value of the transaction away. It takes no memory.
    pub fn remove(&mut self, tx: TxId) -> Option<X>
        ensures value { result ≡ found nat_cmp self.old.table tx }
        ensures table { self.new.table ≡ without nat_cmp self.old.table tx }
        ensures spare { self.old.spare ≤ self.new.spare }
    {
        self.list.swap_remove(&tx)
    }
}

// The take-overs of open transactions.
ghost use Rattle.std.specs.Prelude.{◌≡◌, ◌≤◌, ◌<◌, ◌+◌, [], OnOk, IfSome};
ghost use Rattle.std.specs.Option.{option_map, option_copied};
ghost use Rattle.std.specs.Ordering.{nat_cmp};
ghost use Rattle.rc_ids.specs.Tables.{found, put as with_entry, without};
ghost use Rattle.rc_takeover.specs.TakeOvers.{after_promise};
ghost use Rattle.rc_coord_tables.specs.Takeovers.{state_of, IsIn, heard_in};

use indexmap::IndexMap;
use rc_body::Decision;
use rc_ids::{Ballot, Cluster, DcId, NoMemory, Quorum, TxId};
use rc_takeover::Takeover;
use std::alloc::Global;
use std::marker::Model;

/// The last take-over of each open transaction that this datacentre took over, and which datacentres there are.
#[derive(Drop)]
pub struct Takeovers {
    dcs: u8,
    quorum: Quorum,
    list: IndexMap<TxId, Takeover>,
}

impl Model for Takeovers {
    ghost use Rattle.indexmap.specs.IndexMap.{spare};
    ghost use Rattle.rc_coord_tables.specs.Maps.{shown_by, IsList};
    ghost use Rattle.rc_coord_tables.specs.Takeovers.{TakeoverTable, takeover_table, state_of, IsIn};

    ghost Value = { TakeoverTable };

    ghost view = { λ k. takeover_table k.dcs k.quorum (shown_by state_of k.list.entries) (spare k.list) };

    ghost invariant = { λ k. IsList (IsIn k.dcs k.quorum) k.list.entries };
}

/// A datacentre promised, with its report.
fn hear(takeover: &mut Takeover, dc: DcId, report: Option<(Ballot, Decision)>)
    ensures { takeover.new ≡ after_promise takeover.old dc report }
{
    let _said = takeover.hear(dc, report);
}

impl Takeovers {
    /// No take-overs.
    pub fn new(alloc: Global, cluster: &Cluster) -> Takeovers
        ensures dcs { result.dcs ≡ cluster.now.dcs }
        ensures weights { result.weights ≡ cluster.now.weights }
        ensures table { result.table ≡ [] }
    {
        Takeovers {
            dcs: cluster.dcs(),
            quorum: cluster.quorum(),
            list: IndexMap::new(alloc),
        }
    }

    /// The take-over of the transaction, if there is one.
    pub fn get(&self, tx: TxId) -> Option<&Takeover>
        ensures value { option_map state_of (option_copied result) ≡ found nat_cmp self.now.table tx }
        ensures fit { IfSome result (λ k. IsIn self.now.dcs self.now.weights k.now) }
    {
        self.list.get(&tx)
    }

    /// Makes room for one more. All stays as it is.
    pub fn room(&mut self) -> Result<(), NoMemory>
        ensures ok { OnOk result (1 ≤ self.new.spare) }
        ensures dcs { self.new.dcs ≡ self.old.dcs }
        ensures weights { self.new.weights ≡ self.old.weights }
        ensures table { self.new.table ≡ self.old.table }
    {
        self.list.reserve(1)?;
        Ok(())
    }

    /// Keeps the take-over, in the place of an earlier one. There is room for it.
    pub fn put(&mut self, tx: TxId, takeover: Takeover)
        requires room { 0 < self.old.spare }
        requires fit { IsIn self.old.dcs self.old.weights takeover }
        ensures dcs { self.new.dcs ≡ self.old.dcs }
        ensures weights { self.new.weights ≡ self.old.weights }
        ensures table { self.new.table ≡ with_entry nat_cmp self.old.table tx takeover.state }
    {
        let _ = self.list.insert(tx, takeover).unwrap();
    }

    /// A datacentre promised, with its report. It takes no memory.
    pub fn hear(&mut self, tx: TxId, dc: DcId, report: Option<(Ballot, Decision)>)
        ensures dcs { self.new.dcs ≡ self.old.dcs }
        ensures weights { self.new.weights ≡ self.old.weights }
        ensures table { self.new.table ≡ heard_in self.old tx dc report }
    {
        match self.list.get_mut(&tx) {
            None => return,
            Some(takeover) => hear(takeover, dc, report),
        }
    }

    /// Forgets the take-over of the transaction.
    pub fn remove(&mut self, tx: TxId)
        ensures dcs { self.new.dcs ≡ self.old.dcs }
        ensures weights { self.new.weights ≡ self.old.weights }
        ensures table { self.new.table ≡ without nat_cmp self.old.table tx }
    {
        let _takeover = self.list.swap_remove(&tx);
    }
}

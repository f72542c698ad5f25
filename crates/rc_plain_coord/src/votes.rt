// The votes of the open transactions.
ghost use Rattle.std.specs.Prelude.{◌≡◌, [], OnOk};
ghost use Rattle.std.specs.Ordering.{nat_cmp};
ghost use Rattle.rc_ids.specs.Tables.{found, put, without, maybe};
ghost use Rattle.rc_protocol.specs.Coordinator.{counted, is_decided_by, Standing};

use rc_ballots::Standings;
use rc_body::Decision;
use rc_ids::{Ballot, Cluster, DcId, NoMemory, TxId};
use std::alloc::Global;
use std::collections::BTreeMap;
use std::marker::Model;

/// The tally of each open transaction that was voted on.
#[derive(Drop)]
pub struct Votes {
    map: BTreeMap<TxId, Standings>,
}

impl Model for Votes {
    ghost use Rattle.std.specs.Prelude.{ℕ};
    ghost use Rattle.rc_ids.specs.Tables.{Table};
    ghost use Rattle.rc_protocol.specs.Coordinator.{Standing};

    ghost Value = { Table ℕ (Table ℕ Standing) };

    ghost view = { λ v. v.map.entries };
}

impl Votes {
    pub fn new(alloc: Global) -> Votes
        ensures { result ≡ [] }
    {
        Votes {
            map: BTreeMap::new(alloc),
        }
    }

    /// Counts a datacentre's vote.
    pub fn count(
        &mut self,
        alloc: Global,
        tx: TxId,
        dc: DcId,
        ballot: Ballot,
        decision: &Decision,
    ) -> Result<(), NoMemory>
        ensures { OnOk result (self.new ≡ put nat_cmp self.old tx (counted (maybe (found nat_cmp self.old tx) [] (λ tally. tally)) ballot dc decision.now)) }
    {
        match self.map.get_mut(&tx) {
            Some(tally) => tally.add(dc, ballot, decision),
            None => {
                let mut tally = Standings::new(alloc);
                tally.add(dc, ballot, decision)?;
                self.map.insert(tx, tally)?;
                Ok(())
            }
        }
    }

    /// Whether after this vote a quorum voted as it does, at its ballot.
    pub fn would_decide(
        &self,
        alloc: Global,
        cluster: &Cluster,
        tx: TxId,
        dc: DcId,
        ballot: Ballot,
        decision: &Decision,
    ) -> bool
        ensures { result ≡ is_decided_by cluster.now (maybe (found nat_cmp self.now tx) [] (λ tally. tally)) ballot dc decision.now }
    {
        match self.map.get(&tx) {
            Some(tally) => tally.would_decide(cluster, dc, ballot, decision),
            None => Standings::new(alloc).would_decide(cluster, dc, ballot, decision),
        }
    }

    pub fn remove(&mut self, tx: TxId)
        ensures { self.new ≡ without nat_cmp self.old tx }
    {
        let _ = self.map.remove(&tx);
    }
}

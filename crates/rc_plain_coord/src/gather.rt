// Gathers.
ghost use Rattle.std.specs.Prelude.{◌≡◌, ◌&&◌, not, [], OnOk, IfOk};
ghost use Rattle.std.specs.Option.{option_copied};
ghost use Rattle.std.specs.Ordering.{nat_cmp};
ghost use Rattle.rc_ids.specs.Tables.{found, without, member};
ghost use Rattle.rc_ids.specs.Tables as tables;
ghost use Rattle.rc_body.specs.Bodies.{touches};
ghost use Rattle.rc_protocol.specs.Coordinator.{GatherState as GatherOf, with_yes};
ghost use Rattle.rc_protocol.specs.Coordinator as coordinator;

use crate::counts::has_all;
use rc_body::Body;
use rc_ids::{Ballot, Cluster, NoMemory, ShardId, ShardSet, TxId};
use std::alloc::Global;
use std::collections::BTreeMap;
use std::marker::Model;

/// A transaction for which the shards of this datacentre are asked, and those that said yes.
#[derive(Drop)]
pub struct Gather {
    pub ballot: Ballot,
    pub body: Body,
    pub yes: ShardSet,
}

impl Model for Gather {
    ghost use Rattle.rc_protocol.specs.Coordinator.{GatherState as GatherOf};

    ghost Value = { GatherOf };

    ghost view = { λ g. record { ballot = g.ballot; body = g.body; yes = g.yes } };
}

impl Gather {
    /// Nobody said yes yet.
    pub fn new(ballot: Ballot, body: Body) -> Gather
        ensures { let made : GatherOf = record { ballot = ballot; body = body; yes = [] } in result ≡ made }
    {
        Gather {
            ballot,
            body,
            yes: ShardSet::new(),
        }
    }

    pub fn ballot(&self) -> Ballot
        ensures { result ≡ self.now.ballot }
    {
        self.ballot
    }

    pub fn body(&self) -> &Body
        ensures { result.now ≡ self.now.body }
    {
        &self.body
    }

    /// Whether each touched shard said yes.
    pub fn has_all(&self, cluster: &Cluster) -> bool
        ensures { result ≡ coordinator.has_all cluster.now self.now }
    {
        has_all(cluster, &self.body, &self.yes)
    }

    /// Whether the shard is touched and did not say yes yet.
    pub fn waits_for(&self, cluster: &Cluster, shard: ShardId) -> bool
        ensures { result ≡ (touches cluster.now self.now.body shard && not (member nat_cmp self.now.yes shard)) }
    {
        self.body.touches(cluster, shard) && !self.yes.has(shard)
    }

    /// The same at a ballot.
    pub fn at(&self, ballot: Ballot) -> Result<Gather, NoMemory>
        ensures { IfOk result (λ g. let made : GatherOf = record { ballot = ballot; body = self.now.body; yes = self.now.yes } in g ≡ made) }
    {
        Ok(Gather {
            ballot,
            body: self.body.copy()?,
            yes: self.yes,
        })
    }

    /// The same after a shard said yes.
    pub fn with_yes(&self, shard: ShardId) -> Result<Gather, NoMemory>
        ensures { IfOk result (λ g. g ≡ with_yes self.now shard) }
    {
        Ok(Gather {
            ballot: self.ballot,
            body: self.body.copy()?,
            yes: self.yes.with(shard),
        })
    }
}

/// The gathers of the open transactions.
#[derive(Drop)]
pub struct Gathers {
    map: BTreeMap<TxId, Gather>,
}

impl Model for Gathers {
    ghost use Rattle.std.specs.Prelude.{ℕ};
    ghost use Rattle.rc_ids.specs.Tables.{Table};
    ghost use Rattle.rc_protocol.specs.Coordinator.{GatherState as GatherOf};

    ghost Value = { Table ℕ GatherOf };

    ghost view = { λ g. g.map.entries };
}

impl Gathers {
    pub fn new(alloc: Global) -> Gathers
        ensures { result ≡ [] }
    {
        Gathers {
            map: BTreeMap::new(alloc),
        }
    }

    pub fn get(&self, tx: TxId) -> Option<&Gather>
        ensures { option_copied result ≡ found nat_cmp self.now tx }
    {
        self.map.get(&tx)
    }

    pub fn put(&mut self, tx: TxId, gather: Gather) -> Result<(), NoMemory>
        ensures { OnOk result (self.new ≡ tables.put nat_cmp self.old tx gather) }
    {
        self.map.insert(tx, gather)?;
        Ok(())
    }

    pub fn remove(&mut self, tx: TxId)
        ensures { self.new ≡ without nat_cmp self.old tx }
    {
        let _ = self.map.remove(&tx);
    }
}

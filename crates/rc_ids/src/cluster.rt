// Clusters.
ghost use Rattle.std.specs.Prelude.{◌≡◌, ℕ, ◌+◌, ◌≤◌, ◌==◌, length, None, Some, IfOk, IfSome, IfErr, OnOk, IsTrue, cond};
ghost use Rattle.std.specs.List.{list_all};
ghost use Rattle.std.specs.Bool.{OnTrue};
ghost use Rattle.std.specs.Ordering.{is_lt};
ghost use Rattle.rc_ids.specs.Texts.{key_cmp};
ghost use Rattle.rc_ids.specs.Ballots.{IsLeastBallot};
ghost use Rattle.rc_ids.specs.Cluster.{IsLayout, layout, cluster_fault, equal_weights, is_dc, is_shard, is_key, owner_of, shard_from};
ghost use Rattle.rc_ids.specs.Cluster as cluster_spec;

use crate::{Ballot, ClusterFault, DcId, Key, NoMemory, Quorum, ShardId, TxId};
use std::marker::Model;

/// The datacentres and shards of a store, its split keys, and the weights of its datacentres.
#[derive(Debug, Drop)]
pub struct Cluster {
    dcs: u8,
    shards: u8,
    splits: Vec<Key>,
    quorum: Quorum,
}

impl Model for Cluster {
    ghost use Rattle.rc_ids.specs.Cluster.{Layout, IsLayout, layout};

    ghost Value = { Layout };

    ghost view = { λ c. layout c.dcs c.shards c.splits.items c.quorum };

    ghost invariant = { λ c. IsLayout (layout c.dcs c.shards c.splits.items c.quorum) };
}

fn is_dc_count(dcs: u8) -> bool
    ensures { result ≡ cluster_spec.is_dc_count dcs }
{
    dcs == 1 || dcs == 3 || dcs == 5 || dcs == 7
}

/// Whether the first key is below the second, by bytes.
fn is_below(first: &[u8], second: &[u8]) -> bool
    ensures { result ≡ is_lt (key_cmp first.now second.now) }
{
    first.cmp(second).is_lt()
}

/// Whether each key is above the one before.
fn rise(splits: &[Key]) -> bool
    ensures rise { result ≡ cluster_spec.rise splits.now }
    ensures keys { OnTrue result (IsTrue (list_all is_key splits.now)) }
{
    let Some((first, rest)) = splits.split_first() else {
        return true;
    };
    let mut last = first.as_bytes();
    for key in rest {
        let bytes = key.as_bytes();
        if !is_below(last, bytes) {
            return false;
        }
        last = bytes;
    }
    true
}

fn is_weight(weight: u8) -> bool
    ensures { result ≡ cluster_spec.is_weight weight }
{
    1 <= weight && weight <= 9
}

fn all_weights(weights: &[u8]) -> bool
    ensures { result ≡ list_all cluster_spec.is_weight weights.now }
{
    weights.iter().all(|weight| is_weight(*weight))
}

fn are_weights(dcs: u8, weights: &[u8]) -> bool
    ensures { result ≡ cluster_spec.are_weights dcs weights.now }
{
    weights.len() == dcs as usize && all_weights(weights)
}

/// Whether there is such a cluster, or why not.
fn check(dcs: u8, shards: u8, splits: &[Key], weights: &[u8]) -> Result<(), ClusterFault>
    ensures ok { OnOk result (IsLayout (layout dcs shards splits.now weights.now)) }
    ensures none { OnOk result (cluster_fault (layout dcs shards splits.now weights.now) ≡ None) }
    ensures err { IfErr result (λ e. cluster_fault (layout dcs shards splits.now weights.now) ≡ Some e) }
{
    if !is_dc_count(dcs) {
        return Err(ClusterFault::BadDcs);
    }
    if shards < 1 || shards > 8 {
        return Err(ClusterFault::BadShards);
    }
    if splits.len() != shards as usize - 1 || !rise(splits) {
        return Err(ClusterFault::BadSplits);
    }
    if !are_weights(dcs, weights) {
        return Err(ClusterFault::BadWeights);
    }
    Ok(())
}

impl Cluster {
    fn make(dcs: u8, shards: u8, splits: Vec<Key>, weights: &[u8]) -> Result<Cluster, ClusterFault>
        ensures ok { IfOk result (λ c. (c ≡ layout dcs shards splits.items weights.now)
            × (cluster_fault (layout dcs shards splits.items weights.now) ≡ None)) }
        ensures err { IfErr result (λ e. cluster_fault (layout dcs shards splits.items weights.now) ≡ Some e) }
    {
        check(dcs, shards, splits.as_slice(), weights)?;
        Ok(Cluster {
            dcs,
            shards,
            splits,
            quorum: Quorum::of_weights(weights),
        })
    }

    /// The cluster of so many datacentres and shards, with these split keys and weights, or why there is none.
    pub fn weighted(
        dcs: u8,
        shards: u8,
        splits: Vec<Key>,
        weights: Vec<u8>,
    ) -> Result<Cluster, ClusterFault>
        ensures ok { IfOk result (λ c. (c ≡ layout dcs shards splits.items weights.items)
            × (cluster_fault (layout dcs shards splits.items weights.items) ≡ None)) }
        ensures err { IfErr result (λ e. cluster_fault (layout dcs shards splits.items weights.items) ≡ Some e) }
    {
        Cluster::make(dcs, shards, splits, weights.as_slice())
    }

    /// The cluster where each datacentre has weight 1, or why there is none.
    pub fn new(dcs: u8, shards: u8, splits: Vec<Key>) -> Result<Cluster, ClusterFault>
        ensures ok { IfOk result (λ c. (c ≡ layout dcs shards splits.items (equal_weights dcs))
            × (cluster_fault (layout dcs shards splits.items (equal_weights dcs)) ≡ None)) }
        ensures err { IfErr result (λ e. cluster_fault (layout dcs shards splits.items (equal_weights dcs)) ≡ Some e) }
    {
        if !is_dc_count(dcs) {
            return Err(ClusterFault::BadDcs);
        }
        let ones = [1u8; 7];
        Cluster::make(dcs, shards, splits, &ones[..dcs as usize])
    }

    /// How many datacentres there are.
    pub fn dcs(&self) -> u8
        ensures dcs { result ≡ self.now.dcs }
        ensures layout { IsLayout self.now }
    {
        self.dcs
    }

    /// How many shards a datacentre has.
    pub fn shards(&self) -> u8
        ensures shards { result ≡ self.now.shards }
        ensures layout { IsLayout self.now }
    {
        self.shards
    }

    /// The split keys, rising.
    pub fn splits(&self) -> &[Key]
        ensures splits { result.now ≡ self.now.splits }
        ensures layout { IsLayout self.now }
    {
        self.splits.as_slice()
    }

    /// What sets of datacentres are quorums.
    pub fn quorum(&self) -> Quorum
        ensures { result ≡ self.now.weights }
    {
        self.quorum
    }

    /// The home of a transaction.
    pub fn home(&self, tx: TxId) -> DcId
        ensures home { result ≡ cluster_spec.home self.now tx }
        ensures dc { IsTrue (is_dc self.now result) }
    {
        DcId((tx.0 % self.dcs as u32) as u8 + 1)
    }

    /// Whose the ballot is; None for ballot 0, which is the client's.
    pub fn owner(&self, ballot: Ballot) -> Option<DcId>
        ensures value { result ≡ cond (ballot == 0) None (Some (owner_of self.now ballot)) }
        ensures dc { IfSome result (λ d. IsTrue (is_dc self.now d)) }
    {
        if ballot.0 == 0 {
            return None;
        }
        Some(DcId(((ballot.0 - 1) % self.dcs as u32) as u8 + 1))
    }

    /// The least ballot of the datacentre above the given one; None where it would pass 2^31.
    pub fn next_ballot(&self, dc: DcId, above: Ballot) -> Option<Ballot>
        requires { IsTrue (is_dc self.now dc) }
        ensures value { result ≡ cluster_spec.next_ballot self.now dc above }
        ensures least { IfSome result (λ b. IsLeastBallot self.now dc above b) }
    {
        let dcs = self.dcs as u32;
        let next = above.0 + 1 + (dc.0 as u32 - 1 + (dcs - above.0 % dcs)) % dcs;
        if next <= 1 << 31 {
            Some(Ballot(next))
        } else {
            None
        }
    }

    /// The shard of a key.
    pub fn shard_of(&self, key: &Key) -> ShardId
        ensures shard { result ≡ cluster_spec.shard_of self.now key.now }
        ensures within { IsTrue (is_shard self.now result) }
    {
        let mut shard = 1u8;
        for split in self.splits.as_slice() {
            if !(key < split) {
                shard += 1;
            }
        }
        ShardId(shard)
    }

    /// A copy of the cluster.
    pub fn copy(&self) -> Result<Cluster, NoMemory>
        ensures { IfOk result (λ c. c ≡ self.now) }
    {
        let mut splits = Vec::new(*self.splits.allocator());
        for split in self.splits.as_slice() {
            splits.push(split.copy())?;
        }
        Ok(Cluster {
            dcs: self.dcs,
            shards: self.shards,
            splits,
            quorum: self.quorum,
        })
    }
}

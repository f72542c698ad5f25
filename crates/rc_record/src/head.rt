// What stands first in a log.
ghost use Rattle.std.specs.Prelude.{◌≡◌, ◌==◌, None, Some, IfOk, is_none, if◌then◌else◌};
ghost use Rattle.rc_ids.specs.Cluster.{layout, equal_weights, cluster_fault};
ghost use Rattle.rc_record.specs.Heads.{IsHead, new_head};
ghost use Rattle.rc_record.specs.Reading.{head_from, is_head};

use rc_ids::{Cluster, Key, NoMemory, NodeId};
use std::marker::Model;

/// What stands first in a log, and where its format rises: the format from there on, whose log it is, and the world.
/// Formats 1 and 2 know datacentres of weight 1 alone.
#[derive(Drop)]
pub struct Head {
    format: u8,
    node: NodeId,
    cluster: Cluster,
}

impl Model for Head {
    ghost use Rattle.rc_record.specs.Heads.{LogHead, IsHead};

    ghost Value = { LogHead };

    ghost view = { λ h. record { format = h.format; node = h.node; world = h.cluster } };

    ghost invariant = { λ h. IsHead (record { format = h.format; node = h.node; world = h.cluster }) };
}

/// The world of a head of this format, if there is one.
fn cluster_of(
    format: u8,
    dcs: u8,
    shards: u8,
    weights: Vec<u8>,
    splits: Vec<Key>,
) -> Option<Cluster>
    ensures { let world = layout dcs shards splits.items (if format == 3 then weights.items else equal_weights dcs) in
        result ≡ (if is_none (cluster_fault world) then Some world else None) }
{
    if format == Head::NEWEST {
        Cluster::weighted(dcs, shards, splits, weights).ok()
    } else {
        Cluster::new(dcs, shards, splits).ok()
    }
}

impl Head {
    /// The newest format.
    pub const NEWEST: u8 = 3;

    /// The head of a new log of the node in this world.
    pub fn new(node: NodeId, cluster: &Cluster) -> Result<Head, NoMemory>
        ensures { IfOk result (λ h. h ≡ new_head node cluster.now) }
    {
        Ok(Head {
            format: Self::NEWEST,
            node,
            cluster: cluster.copy()?,
        })
    }

    /// The head of these fields, if they are one. In formats without weights each is 1.
    pub(crate) fn from_fields(
        format: u8,
        node: NodeId,
        dcs: u8,
        shards: u8,
        weights: Vec<u8>,
        splits: Vec<Key>,
    ) -> Option<Head>
        ensures { let head = head_from (((format, node), (dcs, shards)), (weights.items, splits.items)) in
            result ≡ (if is_head head then Some head else None) }
    {
        if format < 1 || format > Self::NEWEST {
            return None;
        }
        let cluster = cluster_of(format, dcs, shards, weights, splits)?;
        Some(Head {
            format,
            node,
            cluster,
        })
    }

    /// The format of the log from here on.
    pub fn format(&self) -> u8
        ensures format { result ≡ self.now.format }
        ensures head { IsHead self.now }
    {
        self.format
    }

    /// Whose log it is.
    pub fn node(&self) -> NodeId
        ensures { result ≡ self.now.node }
    {
        self.node
    }

    /// The world.
    pub fn cluster(&self) -> &Cluster
        ensures { result.now ≡ self.now.world }
    {
        &self.cluster
    }
}

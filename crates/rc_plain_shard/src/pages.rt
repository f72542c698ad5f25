// What a page of outcomes has for a shard.
ghost use Rattle.std.specs.Prelude.{◌≡◌, ◌&&◌, is_none, IfOk};
ghost use Rattle.std.specs.Ordering.{nat_cmp};
ghost use Rattle.rc_ids.specs.Tables.{found};
ghost use Rattle.rc_protocol.specs.Shard as shard_spec;

use crate::durable::Durable;
use rc_body::{Decision, Page};
use rc_ids::{Cluster, NoMemory, ShardId, TxId};
use std::alloc::Global;

/// Whether the decision is an abort, or a commit with a key of the shard.
fn concerns(cluster: &Cluster, shard: ShardId, decision: &Decision) -> bool
    ensures { result ≡ shard_spec.concerns cluster.now shard decision.now }
{
    match decision {
        Decision::Commit(body) => body.touches(cluster, shard),
        Decision::Abort => true,
    }
}

/// What of the decision concerns the shard.
fn cut_to_part(cluster: &Cluster, shard: ShardId, decision: &Decision) -> Result<Decision, NoMemory>
    ensures { IfOk result (λ d. d ≡ shard_spec.cut_to_part cluster.now shard decision.now) }
{
    match decision {
        Decision::Commit(body) => Ok(Decision::Commit(body.part(cluster, shard)?)),
        Decision::Abort => Ok(Decision::Abort),
    }
}

/// Whether the transaction is not finished there, and its decision concerns the shard.
fn is_new(
    cluster: &Cluster,
    shard: ShardId,
    durable: &Durable,
    tx: TxId,
    decision: &Decision,
) -> bool
    ensures { result ≡ (is_none (found nat_cmp durable.now.finished tx) && shard_spec.concerns cluster.now shard decision.now) }
{
    !durable.finished.has(tx) && concerns(cluster, shard, decision)
}

/// The entries of the page that concern the shard and are not finished there, each with its part.
pub fn unfinished(
    alloc: Global,
    cluster: &Cluster,
    shard: ShardId,
    durable: &Durable,
    page: &Page,
) -> Result<Page, NoMemory>
    ensures { IfOk result (λ left. left ≡ shard_spec.unfinished cluster.now shard durable.now page.now) }
{
    let mut left = Page::new(alloc);
    for index in 0..page.len() {
        let (tx, decision) = page.entry(index);
        if is_new(cluster, shard, durable, tx, decision) {
            left.push(tx, cut_to_part(cluster, shard, decision)?)?;
        }
    }
    Ok(left)
}

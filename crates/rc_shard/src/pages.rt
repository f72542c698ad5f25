// What a page of outcomes has for a shard.
ghost use Rattle.std.specs.Prelude.{◌≡◌, ◌&&◌, is_none, IfOk};
ghost use Rattle.std.specs.Ordering.{nat_cmp};
ghost use Rattle.rc_ids.specs.Tables.{found};
ghost use Rattle.rc_protocol.specs.Shard.{concerns as concerns_shard, cut_to_part as part_of_decision, unfinished as unfinished_in};
ghost use Rattle.rc_shard.specs.Rows.{only_finished};

use crate::home::Home;
use rc_body::{Decision, Page};
use rc_ids::{Cluster, NoMemory, Outcome, ShardId, TxId};
use rc_node::Numbered;

/// Whether the decision is an abort, or a commit with a key of the shard.
fn concerns(cluster: &Cluster, shard: ShardId, decision: &Decision) -> bool
    ensures { result ≡ concerns_shard cluster.now shard decision.now }
{
    match decision {
        Decision::Commit(body) => body.touches(cluster, shard),
        Decision::Abort => true,
    }
}

/// What of the decision concerns the shard.
fn cut_to_part(cluster: &Cluster, shard: ShardId, decision: &Decision) -> Result<Decision, NoMemory>
    ensures { IfOk result (λ d. d ≡ part_of_decision cluster.now shard decision.now) }
{
    match decision {
        Decision::Commit(body) => Ok(Decision::Commit(body.part(cluster, shard)?)),
        Decision::Abort => Ok(Decision::Abort),
    }
}

/// Whether the transaction is not finished here, and its decision concerns the shard.
fn is_new(home: &Home, finished: &Numbered<Outcome>, tx: TxId, decision: &Decision) -> bool
    ensures { result ≡ (is_none (found nat_cmp finished.now.table tx) && concerns_shard home.now.cluster home.now.shard decision.now) }
{
    !finished.has(tx) && concerns(&home.cluster, home.shard, decision)
}

/// The entries of the page that concern the shard and are not finished here, each with its part.
pub(crate) fn unfinished(
    home: &Home,
    finished: &Numbered<Outcome>,
    page: &Page,
) -> Result<Page, NoMemory>
    ensures { IfOk result (λ left. left ≡ unfinished_in home.now.cluster home.now.shard (only_finished finished.now.table) page.now) }
{
    let mut left = Page::new(home.alloc);
    for index in 0..page.len() {
        let (tx, decision) = page.entry(index);
        if is_new(home, finished, tx, decision) {
            left.push(tx, cut_to_part(&home.cluster, home.shard, decision)?)?;
        }
    }
    Ok(left)
}

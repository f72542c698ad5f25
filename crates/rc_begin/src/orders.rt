// The order of the committed transactions, as the logs of all coordinators have it.
ghost use Rattle.std.specs.Prelude.{◌≡◌, ℕ, List, [], length, map, OnOk, IfOk};
ghost use Rattle.rc_ids.specs.Cluster.{Layout};
ghost use Rattle.rc_body.specs.declared.entry.Entry.{Entry};
ghost use Rattle.rc_protocol.specs.Nodes.{CoordNode};
ghost use Rattle.rc_runs.specs.Stored.{records_of};
ghost use Rattle.rc_runs.specs.Starts.{with_choices, all_choices};
ghost use Rattle.rc_order.specs.Counts.{IsOrderOf};
ghost use Rattle.rc_order.specs.Logs.{with_log};
ghost use Rattle.rc_begin.specs.Logs.{records_in, with_blobs, choices_of};

use rc_ids::{Blob, Blobs, Cluster, DcId, NoMemory};
use rc_order::{Order, log_laws};
use rc_record::decode;
use std::alloc::Global;

/// Counts the vote that the record in the bytes is.
fn count_blob(alloc: Global, order: &mut Order, dc: DcId, blob: &Blob) -> Result<(), NoMemory>
    ensures votes { OnOk result (order.new.votes ≡ with_log order.old.votes dc (records_in blob.now)) }
    ensures weights { order.new.weights ≡ order.old.weights }
    ensures earlier { order.new.earlier ≡ order.old.earlier }
    ensures listed { order.new.listed ≡ order.old.listed }
{
    match decode(alloc, blob.as_bytes())? {
        Some(entry) => order.count(dc, &entry),
        None => Ok(()),
    }
}

/// Counts the votes of a datacentre that its log has. Where there is no memory, some of them may have been counted.
fn count_log(alloc: Global, order: &mut Order, dc: DcId, records: &Blobs) -> Result<(), NoMemory>
    ensures votes { OnOk result (order.new.votes ≡ with_log order.old.votes dc (records_of records.now)) }
    ensures weights { order.new.weights ≡ order.old.weights }
    ensures earlier { order.new.earlier ≡ order.old.earlier }
    ensures listed { order.new.listed ≡ order.old.listed }
{
    let log = records.as_slice();
    for place in 0..log.len() {
        count_blob(alloc, order, dc, &log[place])?;
    }
    Ok(())
}

/// Counts the votes of all logs, the first that of the first datacentre.
fn count_logs(
    alloc: Global,
    order: &mut Order,
    cluster: &Cluster,
    logs: &[Blobs],
) -> Result<(), NoMemory>
    ensures votes { OnOk result (length logs.now ≡ cluster.now.dcs → order.new.votes ≡ with_blobs order.old.votes 1 logs.now) }
    ensures weights { order.new.weights ≡ order.old.weights }
    ensures earlier { order.new.earlier ≡ order.old.earlier }
    ensures listed { order.new.listed ≡ order.old.listed }
{
    for place in 0..cluster.dcs() {
        if let Some(log) = logs.get(place as usize) {
            count_log(alloc, order, DcId(place + 1), log)?;
        }
    }
    Ok(())
}

/// Lists the transaction of the record in the bytes, where that is a vote and chooses.
fn choose_blob(alloc: Global, order: &mut Order, blob: &Blob) -> Result<(), NoMemory>
    ensures { OnOk result ((c : Layout) (coords : List CoordNode) (chosen : List (ℕ × List Entry)) → IsOrderOf c coords [] chosen order.old
        → IsOrderOf c coords [] (with_choices c coords chosen (records_in blob.now)) order.new) }
{
    match decode(alloc, blob.as_bytes())? {
        Some(entry) => order.choose(&entry),
        None => Ok(()),
    }
}

/// Lists what the votes choose of the transactions that a log votes for, in the log's order. Where there is no memory, some of them may have been listed.
fn choose_log(alloc: Global, order: &mut Order, records: &Blobs) -> Result<(), NoMemory>
    ensures { OnOk result ((c : Layout) (coords : List CoordNode) (chosen : List (ℕ × List Entry)) → IsOrderOf c coords [] chosen order.old
        → IsOrderOf c coords [] (with_choices c coords chosen (records_of records.now)) order.new) }
{
    let log = records.as_slice();
    for place in 0..log.len() {
        choose_blob(alloc, order, &log[place])?;
    }
    Ok(())
}

/// Lists what the votes choose, in the order of the logs.
fn choose_logs(alloc: Global, order: &mut Order, logs: &[Blobs]) -> Result<(), NoMemory>
    ensures { OnOk result ((c : Layout) (coords : List CoordNode) (chosen : List (ℕ × List Entry)) → IsOrderOf c coords [] chosen order.old
        → IsOrderOf c coords [] (choices_of c coords chosen logs.now) order.new) }
{
    for place in 0..logs.len() {
        choose_log(alloc, order, &logs[place])?;
    }
    Ok(())
}

/// The order of the transactions that were committed before a run, from the logs of all coordinators: all votes are counted, and what they
/// choose is listed in the order of the logs, as of before the run.
pub fn order_of_logs(alloc: Global, cluster: &Cluster, logs: &[Blobs]) -> Result<Order, NoMemory>
    ensures { IfOk result (λ order. (coords : List CoordNode) → length coords ≡ cluster.now.dcs → map (λ x. x.log) coords ≡ map records_of logs.now
        → IsOrderOf cluster.now coords (all_choices cluster.now coords [] coords) [] order) }
{
    log_laws();
    let mut order = Order::new(alloc, cluster.quorum());
    count_logs(alloc, &mut order, cluster, logs)?;
    choose_logs(alloc, &mut order, logs)?;
    order.begin();
    Ok(order)
}

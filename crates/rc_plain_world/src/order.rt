// The order of the committed transactions, read off the votes in the logs.
ghost use Rattle.std.specs.Prelude.{◌≡◌, ◌≤◌, ◌<◌, [], List, Option, Some, OnOk, length, slice_get};
ghost use Rattle.rc_ids.specs.declared.names.Outcome.TheVariants.{Commit as Committed};
ghost use Rattle.rc_record.specs.declared.record.Record.{Record as RecordState};
ghost use Rattle.rc_protocol.specs.Nodes.{CoordNode, logged};
ghost use Rattle.rc_runs.specs.Votes.{commits_after, ordered};
ghost use Rattle.rc_runs.specs.Votes as votes_spec;
ghost use Rattle.rc_plain_world.specs.Hosts.{coord_nodes};

use crate::coord_host::CoordHost;
use rc_body::{Body, Decision};
use rc_ids::{Ballot, Cluster, DcId, DcSet, NoMemory, TxId};
use rc_record::Record;

/// Whether the log of a datacentre's coordinator has a vote for commit.
#[tactic(auto, using(crate::proofs::Sites::node_at))]
fn has_voted(coords: &[CoordHost], tx: TxId, ballot: Ballot, dc: u8) -> bool
    requires { 1 ≤ dc }
    ensures { result ≡ votes_spec.has_voted (coord_nodes coords.now) Committed tx ballot dc }
{
    match coords.get(dc as usize - 1) {
        None => false,
        Some(host) => host.has_vote(tx, ballot),
    }
}

/// The datacentres that voted for commit at a ballot.
fn voters(coords: &[CoordHost], tx: TxId, ballot: Ballot, dcs: u8) -> DcSet
    requires { dcs ≤ 7 }
    ensures { result ≡ votes_spec.voters (coord_nodes coords.now) Committed tx ballot dcs }
{
    let mut set = DcSet::new();
    for place in 0..dcs {
        if has_voted(coords, tx, ballot, place + 1) {
            set = set.with(DcId(place + 1));
        }
    }
    set
}

/// Whether the transaction is in the list.
fn is_listed(committed: &[(TxId, Body)], tx: TxId) -> bool
    ensures { result ≡ votes_spec.is_listed committed.now tx }
{
    committed.iter().any(|(listed, _)| *listed == tx)
}

/// Lists the transaction, where its commit is chosen at the ballot and it is not listed yet.
fn list_chosen(
    cluster: &Cluster,
    coords: &[CoordHost],
    committed: &mut Vec<(TxId, Body)>,
    tx: TxId,
    ballot: Ballot,
    body: &Body,
) -> Result<(), NoMemory>
    ensures { OnOk result (committed.new.items ≡ commits_after cluster.now (coord_nodes coords.now) [] committed.old.items tx ballot body.now) }
{
    if is_listed(committed.as_slice(), tx) {
        return Ok(());
    }
    let voters = voters(coords, tx, ballot, cluster.dcs());
    if !cluster.quorum().holds(voters) {
        return Ok(());
    }
    committed.push((tx, body.copy()?))?;
    Ok(())
}

/// Keeps the order, after this record was left in a coordinator's log.
fn note(
    cluster: &Cluster,
    coords: &[CoordHost],
    committed: &mut Vec<(TxId, Body)>,
    written: &Record,
) -> Result<(), NoMemory>
    ensures { OnOk result (committed.new.items ≡ ordered cluster.now (coord_nodes coords.now) [] committed.old.items (Some written.now)) }
{
    match written {
        Record::Accepted(tx, ballot, Decision::Commit(body)) => {
            list_chosen(cluster, coords, committed, *tx, *ballot, body)
        }
        _ => Ok(()),
    }
}

/// Keeps the order, after an event of the coordinator at a place whose log had so many records before.
pub(crate) fn note_written(
    cluster: &Cluster,
    coords: &[CoordHost],
    committed: &mut Vec<(TxId, Body)>,
    place: usize,
    before: usize,
) -> Result<(), NoMemory>
    requires { place < length coords.now }
    ensures { OnOk result ((x : CoordNode) (log : List RecordState) (left : Option RecordState) → slice_get (coord_nodes coords.now) place ≡ Some x
        → x.log ≡ logged log left → length log ≡ before → committed.new.items ≡ ordered cluster.now (coord_nodes coords.now) [] committed.old.items left) }
{
    let host = &coords[place];
    if host.log_len() <= before {
        return Ok(());
    }
    note(cluster, coords, committed, host.record(before))
}

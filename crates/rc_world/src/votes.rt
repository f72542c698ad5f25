// The votes of a coordinator for commits, as its log has them.
ghost use Rattle.std.specs.Prelude.{◌≡◌, Some, IfOk};
ghost use Rattle.rc_host.specs.Causes.{cause_of};
ghost use Rattle.rc_world.specs.Votes.{votes_on, last_record};
ghost use Rattle.rc_world.specs.Votes as votes_spec;

use rc_body::Decision;
use rc_coord::Coord;
use rc_host::Cause;
use rc_ids::{Ballot, Blobs, NoMemory, TxId};
use rc_log::Journal;
use rc_msg::Msg;
use rc_record::{Record, decode};
use std::alloc::Global;

/// A vote for the commit of a transaction at a ballot.
#[derive(Clone, Copy, Debug, PartialEq, Eq)]
pub(crate) struct Vote {
    pub(crate) tx: TxId,
    pub(crate) ballot: Ballot,
}

/// The transaction of which something may be accepted at the cause.
pub(crate) fn voted_on(cause: &Cause<'_>) -> Option<TxId>
    ensures { result ≡ votes_on (cause_of cause.now) }
{
    match cause {
        Cause::Came(_, Msg::Propose(tx, _, _)) => Some(*tx),
        Cause::Came(_, Msg::Prepared(tx, _, _)) => Some(*tx),
        _ => None,
    }
}

/// The vote for commit that an accepted decision is.
fn vote_for(tx: TxId, accepted: &(Ballot, Decision)) -> Option<Vote>
    ensures { result ≡ votes_spec.vote_for tx accepted.now }
{
    match accepted {
        (ballot, Decision::Commit(_)) => Some(Vote {
            tx,
            ballot: *ballot,
        }),
        (_, Decision::Abort) => None,
    }
}

/// The vote of a coordinator for the commit of the transaction, if its journal has more records than before.
pub(crate) fn vote_since<J: Journal>(
    coord: &Coord<J>,
    tx: Option<TxId>,
    before: u64,
) -> Option<Vote>
    ensures { result ≡ votes_spec.vote_since (J.state coord.now.journal).count coord.now.durable tx before }
{
    if coord.count() <= before {
        return None;
    }
    let tx = tx?;
    vote_for(tx, coord.accepted(tx)?)
}

/// The vote that a record is.
fn vote_in(entry: &Record) -> Option<Vote>
    ensures { result ≡ votes_spec.vote_in (Some entry.now) }
{
    match entry {
        Record::Accepted(tx, ballot, Decision::Commit(_)) => Some(Vote {
            tx: *tx,
            ballot: *ballot,
        }),
        _ => None,
    }
}

/// The vote that the last record of a log is.
pub(crate) fn vote_at_end(alloc: Global, records: &Blobs) -> Result<Option<Vote>, NoMemory>
    ensures { IfOk result (λ vote. vote ≡ votes_spec.vote_in (last_record records.now)) }
{
    if records.is_empty() {
        return Ok(None);
    }
    let Some(bytes) = records.get(records.len() - 1) else {
        return Ok(None);
    };
    match decode(alloc, bytes.as_bytes())? {
        Some(record) => Ok(vote_in(&record)),
        None => Ok(None),
    }
}

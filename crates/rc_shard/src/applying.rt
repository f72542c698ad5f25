// What was planned enters the tables.
ghost use Rattle.std.specs.Prelude.{◌≡◌, ◌≤◌, length, OnOk};
ghost use Rattle.rc_record.specs.InOrder.{filed};
ghost use Rattle.rc_locks.specs.LockSets.{after_finish};
ghost use Rattle.rc_shard.specs.Plans.{newest_all};

use crate::plan::Plan;
use crate::rows::Write;
use crate::tables::Tables;
use rc_ids::{NoMemory, Outcome, TxId};
use rc_locks::LockTable;
use rc_node::Numbered;
use rc_versions::Versions;

/// Makes room in the tables for what the plan does to them. They stay as they are.
pub(crate) fn make_room<L: LockTable>(tables: &mut Tables<L>, plan: &Plan) -> Result<(), NoMemory>
    ensures rows { tables.new.versions.rows ≡ tables.old.versions.rows }
    ensures locks { L.state tables.new.locks ≡ L.state tables.old.locks }
    ensures finished { tables.new.finished.table ≡ tables.old.finished.table }
    ensures place { tables.new.place ≡ tables.old.place }
    ensures rows_room { OnOk result (length plan.now.writes.items ≤ tables.new.versions.spare) }
    ensures locks_room { OnOk result (L.has_finish_room tables.new.locks plan.now.txs.items) }
    ensures finished_room { OnOk result (length plan.now.outcomes.items ≤ tables.new.finished.spare) }
{
    tables.versions.room(plan.writes.len())?;
    tables.finished.room(plan.outcomes.len())?;
    tables.locks.room_finish(&plan.txs)
}

/// Does the writes, for which there is room.
fn write_all(versions: &mut Versions, writes: Vec<Write>)
    requires { length writes.items ≤ versions.old.spare }
    ensures { versions.new.rows ≡ newest_all versions.old.rows writes.items }
{
    for (key, (version, value)) in writes {
        let _ = versions.apply(&key, version, value).unwrap();
    }
}

/// Keeps the outcomes, for which there is room.
fn end_all(finished: &mut Numbered<Outcome>, outcomes: Vec<(TxId, Outcome)>)
    requires { length outcomes.items ≤ finished.old.spare }
    ensures { finished.new.table ≡ filed finished.old.table outcomes.items }
{
    for (tx, outcome) in outcomes {
        finished.put(tx, outcome);
    }
}

/// Does what is planned, for which there is room.
pub(crate) fn apply<L: LockTable>(tables: &mut Tables<L>, plan: Plan)
    requires rows { length plan.writes.items ≤ tables.old.versions.spare }
    requires locks { L.has_finish_room tables.old.locks plan.txs.items }
    requires finished { length plan.outcomes.items ≤ tables.old.finished.spare }
    ensures rows { tables.new.versions.rows ≡ newest_all tables.old.versions.rows plan.writes.items }
    ensures locks { L.state tables.new.locks ≡ after_finish (L.state tables.old.locks) plan.txs.items }
    ensures finished { tables.new.finished.table ≡ filed tables.old.finished.table plan.outcomes.items }
    ensures place { tables.new.place ≡ tables.old.place }
{
    let Plan {
        txs,
        outcomes,
        writes,
    } = plan;
    write_all(&mut tables.versions, writes);
    end_all(&mut tables.finished, outcomes);
    let _freed = tables.locks.finish(&txs);
}

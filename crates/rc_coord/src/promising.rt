// The row of a promise.
ghost use Rattle.std.specs.Prelude.{◌≡◌, true, false, is_some, not, IsOk, OnOk, OnErr, IfOk};
ghost use Rattle.rc_protocol.specs.Coordinator.{on_promise, waiting_takeover};
ghost use Rattle.rc_takeover.specs.TakeOvers.{foretold, waits_for};
ghost use Rattle.rc_msg.specs.Posts.{posted_all};
ghost use Rattle.rc_node.specs.Acts.{Tells, coord_does};
ghost use Rattle.rc_coord.specs.Rows.{proposes};
ghost use Rattle.rc_coord.specs.Sites.{view_of, Fits, durable_of, volatile_of};

use crate::posting::post_all;
use crate::tables::Tables;
use rc_body::Decision;
use rc_ids::{Ballot, Cluster, DcId, NoMemory, TxId};
use rc_msg::{Msg, Outbox};
use rc_takeover::{Takeover, Would, takeover_laws};

/// A copy of a report.
fn copy_of(report: &Option<(Ballot, Decision)>) -> Result<Option<(Ballot, Decision)>, NoMemory>
    ensures { IfOk result (λ copy. copy ≡ report.now) }
{
    match report {
        Some(known) => Ok(Some((known.0, known.1.copy()?))),
        None => Ok(None),
    }
}

/// Whether the take-over has not proposed yet, and did not hear the datacentre.
fn is_waiting(takeover: &Takeover, from: DcId) -> bool
    ensures { result ≡ waits_for takeover.now.state from }
{
    match takeover.would(from, None) {
        Would::Ignored => false,
        _ => true,
    }
}

/// Posts what the take-over would propose, or leaves all as before.
fn post_proposal(
    cluster: &Cluster,
    takeover: &Takeover,
    tx: TxId,
    ballot: Ballot,
    from: DcId,
    report: &Option<(Ballot, Decision)>,
    out: &mut Outbox,
) -> Result<(), NoMemory>
    ensures ok { OnOk result (out.new ≡ posted_all out.old (proposes cluster.now tx ballot (foretold takeover.now from report.now))) }
    ensures err { OnErr result (out.new ≡ out.old) }
{
    match takeover.would(from, report.as_ref()) {
        Would::Ignored => Ok(()),
        Would::Waiting => Ok(()),
        Would::Abort => post_all(cluster, &Msg::Propose(tx, ballot, Decision::Abort), out),
        Would::Reported(decision) => {
            post_all(cluster, &Msg::Propose(tx, ballot, decision.copy()?), out)
        }
    }
}

/// The row of a promise: the take-over that waits for it hears it, and proposes if it is time to.
pub(crate) fn promise(
    cluster: &Cluster,
    tables: &mut Tables,
    tx: TxId,
    ballot: Ballot,
    from: DcId,
    report: &Option<(Ballot, Decision)>,
    out: &mut Outbox,
) -> Result<(), NoMemory>
    requires fit { Fits cluster.now tables.old }
    ensures fit { Fits cluster.now tables.new }
    ensures ok { let old = view_of tables.old out.old in
        OnOk result (Tells old (view_of tables.new out.new) (coord_does old.durable (on_promise cluster.now old.durable old.volatile tx ballot from report.now))) }
    ensures err { OnErr result (view_of tables.new out.new ≡ view_of tables.old out.old) }
    ensures ignored { is_some (waiting_takeover (durable_of tables.old) (volatile_of tables.old) tx ballot from) ≡ false → IsOk result }
{
    if tables.outcomes.get(tx).is_some() {
        return Ok(());
    }
    let Some(takeover) = tables.takeovers.get(tx) else {
        return Ok(());
    };
    if takeover.ballot() != ballot {
        return Ok(());
    }
    if !is_waiting(takeover, from) {
        return Ok(());
    }
    takeover_laws();
    let heard = copy_of(report)?;
    post_proposal(cluster, takeover, tx, ballot, from, report, out)?;
    tables.takeovers.hear(tx, from, heard);
    Ok(())
}

// The row of a vote.
ghost use Rattle.std.specs.Prelude.{◌≡◌, true, false, is_some, IsOk, OnOk, IfErr};
ghost use Rattle.rc_record.specs.CoordState.{outcome_of};
ghost use Rattle.rc_protocol.specs.Coordinator.{on_voted};
ghost use Rattle.rc_node.specs.Acts.{Acts, Refuses, coord_does};
ghost use Rattle.rc_coord.specs.Sites.{site_of, Fits};

use crate::home::Home;
use crate::learning::learn;
use crate::tables::Store;
use rc_body::Decision;
use rc_ids::{Ballot, DcId, TxId};
use rc_log::Journal;
use rc_msg::Outbox;
use rc_node::NodeFault;

/// The row of a vote: it is counted, or with it a quorum stands for the outcome, which is learned.
pub(crate) fn voted<J: Journal>(
    home: &Home,
    store: &mut Store<J>,
    tx: TxId,
    ballot: Ballot,
    from: DcId,
    decision: &Decision,
    out: &mut Outbox,
) -> Result<(), NodeFault>
    requires sound { (J.state store.old.journal).failed ≡ false }
    requires fit { Fits home.now.cluster store.old.tables }
    ensures fit { Fits home.now.cluster store.new.tables }
    ensures ok { let old = site_of J.state store.old out.old in
        OnOk result (Acts old (site_of J.state store.new out.new) (coord_does old.durable (on_voted home.now.cluster home.now.dc old.durable old.volatile tx ballot from decision.now))) }
    ensures err { let old = site_of J.state store.old out.old in
        IfErr result (λ fault. Refuses fault (J.may_leave store.new.journal) old (site_of J.state store.new out.new) (coord_does old.durable (on_voted home.now.cluster home.now.dc old.durable old.volatile tx ballot from decision.now))) }
    ensures ignored { is_some (outcome_of store.old.tables.outcomes.entries tx) ≡ true → IsOk result }
{
    if store.tables.outcomes.get(tx).is_some() {
        return Ok(());
    }
    if store.tables.votes.would_decide(tx, from, ballot, decision) {
        return learn(home, store, tx, decision, out);
    }
    store.tables.votes.count(tx, from, ballot, decision)?;
    Ok(())
}

// A take-over opens.
ghost use Rattle.std.specs.Prelude.{◌≡◌, ◌≤◌, IsTrue, Some, None, true, false, OnOk, OnErr, IfErr};
ghost use Rattle.rc_ids.specs.Cluster.{is_dc, next_ballot};
ghost use Rattle.rc_msg.specs.Posts.{posted_all, Grows};
ghost use Rattle.rc_msg.specs.declared.msg.Msg.TheVariants.{Ask};
ghost use Rattle.rc_record.specs.declared.record.Record.TheVariants.{Promised};
ghost use Rattle.rc_record.specs.CoordState.{promise_of, outcome_of};
ghost use Rattle.rc_record.specs.Spelling.{record_bytes};
ghost use Rattle.rc_protocol.specs.Messages.{to_all};
ghost use Rattle.rc_protocol.specs.Coordinator.{opening, opens, takes_over};
ghost use Rattle.rc_takeover.specs.TakeOvers.{kept};
ghost use Rattle.rc_node.specs.Acts.{Acts, Refuses, Enters, coord_does};
ghost use Rattle.rc_coord.specs.Rows.{takes, StaysAt};
ghost use Rattle.rc_coord.specs.Sites.{site_of, Fits};

use crate::asking::promised_bytes;
use crate::home::Home;
use crate::posting::{post_all, post_outcome};
use crate::tables::{Store, promise_for};
use rc_ids::{Ballot, Cluster, NoMemory, Party, TxId};
use rc_log::Journal;
use rc_msg::{Msg, Outbox};
use rc_node::{NodeFault, append};
use rc_takeover::{BallotsSpent, Takeover};

/// Asks all coordinators to promise the ballot, or leaves all as before.
fn post_asks(cluster: &Cluster, tx: TxId, ballot: Ballot, out: &mut Outbox) -> Result<(), NoMemory>
    ensures ok { OnOk result (out.new ≡ posted_all out.old (to_all cluster.now (Ask tx ballot))) }
    ensures grows { Grows out.old out.new }
    ensures err { OnErr result (out.new ≡ out.old) }
{
    post_all(cluster, &Msg::Ask(tx, ballot), out)
}

/// Asks all coordinators to promise the ballot, and logs this one's promise; or leaves the outbox as before.
fn ask_all<J: Journal>(
    home: &Home,
    journal: &mut J,
    tx: TxId,
    ballot: Ballot,
    out: &mut Outbox,
) -> Result<(), NodeFault>
    requires sound { (J.state journal.old).failed ≡ false }
    ensures logs { OnOk result (Enters (J.state journal.old) (J.state journal.new) (record_bytes (Promised tx ballot))) }
    ensures sends { OnOk result (out.new ≡ posted_all out.old (to_all home.now.cluster (Ask tx ballot))) }
    ensures stays { IfErr result (λ fault. StaysAt fault (J.may_leave journal.new) (J.state journal.old) (J.state journal.new) (Promised tx ballot)) }
    ensures unsent { OnErr result (out.new ≡ out.old) }
{
    let before = out.len();
    let bytes = promised_bytes(home.alloc, tx, ballot)?;
    post_asks(&home.cluster, tx, ballot, out)?;
    match append(journal, bytes.as_bytes()) {
        Ok(()) => Ok(()),
        Err(fault) => {
            out.cut(before);
            Err(fault)
        }
    }
}

/// Opens the take-over, above whose ballot nothing was promised.
fn open_at<J: Journal>(
    home: &Home,
    store: &mut Store<J>,
    tx: TxId,
    is_eager: bool,
    ballot: Ballot,
    takeover: Takeover,
    out: &mut Outbox,
) -> Result<(), NodeFault>
    requires sound { (J.state store.old.journal).failed ≡ false }
    requires may { promise_of store.old.tables.acceptor.promises.table tx ≤ ballot }
    requires new { takeover ≡ kept home.now.cluster (opening ballot is_eager) }
    requires fit { Fits home.now.cluster store.old.tables }
    ensures fit { Fits home.now.cluster store.new.tables }
    ensures ok { let old = site_of J.state store.old out.old in
        OnOk result (Acts old (site_of J.state store.new out.new) (coord_does old.durable (opens home.now.cluster old.volatile tx is_eager ballot))) }
    ensures err { let old = site_of J.state store.old out.old in
        IfErr result (λ fault. Refuses fault (J.may_leave store.new.journal) old (site_of J.state store.new out.new) (coord_does old.durable (opens home.now.cluster old.volatile tx is_eager ballot))) }
{
    store.tables.takeovers.room()?;
    store.tables.acceptor.promises.room(1)?;
    match ask_all(home, &mut store.journal, tx, ballot, out) {
        Ok(()) => {
            store.tables.acceptor.promises.put(tx, ballot);
            store.tables.takeovers.put(tx, takeover);
            Ok(())
        }
        Err(fault) => Err(fault),
    }
}

/// Opens a take-over at the least own ballot above the promise, of a transaction that is not decided.
fn take_over<J: Journal>(
    home: &Home,
    store: &mut Store<J>,
    tx: TxId,
    is_eager: bool,
    out: &mut Outbox,
) -> Result<(), NodeFault>
    requires sound { (J.state store.old.journal).failed ≡ false }
    requires dc { IsTrue (is_dc home.now.cluster home.now.dc) }
    requires fit { Fits home.now.cluster store.old.tables }
    ensures fit { Fits home.now.cluster store.new.tables }
    ensures ok { let old = site_of J.state store.old out.old in
        OnOk result (Acts old (site_of J.state store.new out.new) (coord_does old.durable (takes_over home.now.cluster home.now.dc old.durable old.volatile tx is_eager))) }
    ensures err { let old = site_of J.state store.old out.old in
        IfErr result (λ fault. Refuses fault (J.may_leave store.new.journal) old (site_of J.state store.new out.new) (coord_does old.durable (takes_over home.now.cluster home.now.dc old.durable old.volatile tx is_eager))) }
{
    let promise = promise_for(&store.tables.acceptor.promises, tx);
    match Takeover::open(&home.cluster, home.dc, promise, is_eager) {
        Ok(takeover) => {
            let ballot = takeover.ballot();
            open_at(home, store, tx, is_eager, ballot, takeover, out)
        }
        Err(BallotsSpent) => Err(NodeFault::BallotsSpent),
    }
}

/// A take-over of the transaction, unless it is decided: then its client is told the outcome.
pub(crate) fn overtake<J: Journal>(
    home: &Home,
    store: &mut Store<J>,
    tx: TxId,
    is_eager: bool,
    out: &mut Outbox,
) -> Result<(), NodeFault>
    requires sound { (J.state store.old.journal).failed ≡ false }
    requires dc { IsTrue (is_dc home.now.cluster home.now.dc) }
    requires fit { Fits home.now.cluster store.old.tables }
    ensures fit { Fits home.now.cluster store.new.tables }
    ensures ok { let old = site_of J.state store.old out.old in
        OnOk result (Acts old (site_of J.state store.new out.new) (coord_does old.durable (takes home.now.cluster home.now.dc old.durable old.volatile tx is_eager))) }
    ensures err { let old = site_of J.state store.old out.old in
        IfErr result (λ fault. Refuses fault (J.may_leave store.new.journal) old (site_of J.state store.new out.new) (coord_does old.durable (takes home.now.cluster home.now.dc old.durable old.volatile tx is_eager))) }
{
    if let Some(outcome) = store.tables.outcomes.get(tx) {
        post_outcome(Party::Client(tx), tx, outcome, out)?;
        return Ok(());
    }
    take_over(home, store, tx, is_eager, out)
}

// The row of a proposal.
ghost use Rattle.std.specs.Prelude.{◌≡◌, ◌≤◌, None, false, OnOk, IfErr};
ghost use Rattle.std.specs.Option.{option_copied};
ghost use Rattle.rc_body.specs.Bodies.{touched};
ghost use Rattle.rc_body.specs.declared.decision.Decision.TheVariants.{Commit};
ghost use Rattle.rc_record.specs.CoordState.{promise_of, outcome_of};
ghost use Rattle.rc_protocol.specs.Coordinator.{accepted_at as accepted_in, gathers_on, on_propose, takes_proposal};
ghost use Rattle.rc_node.specs.Acts.{Acts, Refuses, coord_does};
ghost use Rattle.rc_coord_tables.specs.Gathers.{gather_of, asked_of};
ghost use Rattle.rc_coord.specs.Sites.{site_of, Fits};

use crate::accepting::accept;
use crate::asked::{asked_at, post_prepares};
use crate::home::Home;
use crate::posting::{post_outcome, post_refusal, post_vote, proposer};
use crate::tables::{Store, promise_for};
use rc_body::{Body, Decision, Reason};
use rc_coord_tables::Asked;
use rc_ids::{Ballot, TxId};
use rc_log::Journal;
use rc_msg::Outbox;
use rc_node::NodeFault;

/// What was accepted last, if that was at this ballot.
fn accepted_at(accepted: Option<&(Ballot, Decision)>, ballot: Ballot) -> Option<&Decision>
    ensures { option_copied result ≡ accepted_in (option_copied accepted.entry) ballot }
{
    match accepted {
        Some(last) => {
            if last.0 == ballot {
                Some(&last.1)
            } else {
                None
            }
        }
        None => None,
    }
}

/// Asks the shards for which the gather waits, and keeps the gather; or accepts, where it waits for none.
fn gather<J: Journal>(
    home: &Home,
    store: &mut Store<J>,
    tx: TxId,
    asked: Asked,
    out: &mut Outbox,
) -> Result<(), NodeFault>
    requires sound { (J.state store.old.journal).failed ≡ false }
    requires may { promise_of store.old.tables.acceptor.promises.table tx ≤ (gather_of asked).ballot }
    requires asks { asked_of asked ≡ touched home.now.cluster (gather_of asked).body }
    requires fit { Fits home.now.cluster store.old.tables }
    ensures fit { Fits home.now.cluster store.new.tables }
    ensures ok { let old = site_of J.state store.old out.old in
        OnOk result (Acts old (site_of J.state store.new out.new) (coord_does old.durable (gathers_on home.now.cluster home.now.dc old.volatile tx (gather_of asked)))) }
    ensures err { let old = site_of J.state store.old out.old in
        IfErr result (λ fault. Refuses fault (J.may_leave store.new.journal) old (site_of J.state store.new out.new) (coord_does old.durable (gathers_on home.now.cluster home.now.dc old.volatile tx (gather_of asked)))) }
{
    store.tables.gathers.room()?;
    if asked.gather.is_complete() {
        let decision = Decision::Commit(asked.body.copy()?);
        return match accept(home, store, tx, asked.gather.ballot(), &decision, out) {
            Ok(()) => {
                store.tables.gathers.put(tx, asked);
                Ok(())
            }
            Err(fault) => Err(fault),
        };
    }
    post_prepares(&home.cluster, home.dc, tx, &asked, out)?;
    store.tables.gathers.put(tx, asked);
    Ok(())
}

/// Takes a proposal of a commit: the shards that it touches are asked.
fn take_commit<J: Journal>(
    home: &Home,
    store: &mut Store<J>,
    tx: TxId,
    ballot: Ballot,
    body: &Body,
    out: &mut Outbox,
) -> Result<(), NodeFault>
    requires sound { (J.state store.old.journal).failed ≡ false }
    requires may { promise_of store.old.tables.acceptor.promises.table tx ≤ ballot }
    requires fit { Fits home.now.cluster store.old.tables }
    ensures fit { Fits home.now.cluster store.new.tables }
    ensures ok { let old = site_of J.state store.old out.old in
        OnOk result (Acts old (site_of J.state store.new out.new) (coord_does old.durable (takes_proposal home.now.cluster home.now.dc old.volatile tx ballot (Commit body.now)))) }
    ensures err { let old = site_of J.state store.old out.old in
        IfErr result (λ fault. Refuses fault (J.may_leave store.new.journal) old (site_of J.state store.new out.new) (coord_does old.durable (takes_proposal home.now.cluster home.now.dc old.volatile tx ballot (Commit body.now)))) }
{
    let asked = asked_at(&home.cluster, &store.tables.gathers, tx, ballot, body)?;
    gather(home, store, tx, asked, out)
}

/// Takes a proposal at a ballot above which nothing was promised, and at which nothing was accepted.
fn take_proposal<J: Journal>(
    home: &Home,
    store: &mut Store<J>,
    tx: TxId,
    ballot: Ballot,
    decision: &Decision,
    out: &mut Outbox,
) -> Result<(), NodeFault>
    requires sound { (J.state store.old.journal).failed ≡ false }
    requires may { promise_of store.old.tables.acceptor.promises.table tx ≤ ballot }
    requires fit { Fits home.now.cluster store.old.tables }
    ensures fit { Fits home.now.cluster store.new.tables }
    ensures ok { let old = site_of J.state store.old out.old in
        OnOk result (Acts old (site_of J.state store.new out.new) (coord_does old.durable (takes_proposal home.now.cluster home.now.dc old.volatile tx ballot decision.now))) }
    ensures err { let old = site_of J.state store.old out.old in
        IfErr result (λ fault. Refuses fault (J.may_leave store.new.journal) old (site_of J.state store.new out.new) (coord_does old.durable (takes_proposal home.now.cluster home.now.dc old.volatile tx ballot decision.now))) }
{
    match decision {
        Decision::Commit(body) => take_commit(home, store, tx, ballot, body, out),
        Decision::Abort => accept(home, store, tx, ballot, decision, out),
    }
}

/// The same, of a transaction that is not decided.
fn propose_open<J: Journal>(
    home: &Home,
    store: &mut Store<J>,
    tx: TxId,
    ballot: Ballot,
    decision: &Decision,
    out: &mut Outbox,
) -> Result<(), NodeFault>
    requires sound { (J.state store.old.journal).failed ≡ false }
    requires open { outcome_of store.old.tables.outcomes.entries tx ≡ None }
    requires fit { Fits home.now.cluster store.old.tables }
    ensures fit { Fits home.now.cluster store.new.tables }
    ensures ok { let old = site_of J.state store.old out.old in
        OnOk result (Acts old (site_of J.state store.new out.new) (coord_does old.durable (on_propose home.now.cluster home.now.dc old.durable old.volatile tx ballot decision.now))) }
    ensures err { let old = site_of J.state store.old out.old in
        IfErr result (λ fault. Refuses fault (J.may_leave store.new.journal) old (site_of J.state store.new out.new) (coord_does old.durable (on_propose home.now.cluster home.now.dc old.durable old.volatile tx ballot decision.now))) }
{
    let promise = promise_for(&store.tables.acceptor.promises, tx);
    if ballot < promise {
        let to = proposer(&home.cluster, tx, ballot);
        post_refusal(to, home.dc, tx, ballot, Reason::Promised(promise), out)?;
        return Ok(());
    }
    match accepted_at(store.tables.acceptor.accepted.get(tx), ballot) {
        Some(old) => Ok(post_vote(&home.cluster, home.dc, tx, ballot, old, out)?),
        None => take_proposal(home, store, tx, ballot, decision, out),
    }
}

/// The row of a proposal.
pub(crate) fn propose<J: Journal>(
    home: &Home,
    store: &mut Store<J>,
    tx: TxId,
    ballot: Ballot,
    decision: &Decision,
    out: &mut Outbox,
) -> Result<(), NodeFault>
    requires sound { (J.state store.old.journal).failed ≡ false }
    requires fit { Fits home.now.cluster store.old.tables }
    ensures fit { Fits home.now.cluster store.new.tables }
    ensures ok { let old = site_of J.state store.old out.old in
        OnOk result (Acts old (site_of J.state store.new out.new) (coord_does old.durable (on_propose home.now.cluster home.now.dc old.durable old.volatile tx ballot decision.now))) }
    ensures err { let old = site_of J.state store.old out.old in
        IfErr result (λ fault. Refuses fault (J.may_leave store.new.journal) old (site_of J.state store.new out.new) (coord_does old.durable (on_propose home.now.cluster home.now.dc old.durable old.volatile tx ballot decision.now))) }
{
    if let Some(outcome) = store.tables.outcomes.get(tx) {
        post_outcome(proposer(&home.cluster, tx, ballot), tx, outcome, out)?;
        return Ok(());
    }
    propose_open(home, store, tx, ballot, decision, out)
}

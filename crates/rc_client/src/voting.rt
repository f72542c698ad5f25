// Votes, refusals and outcomes.
ghost use Rattle.std.specs.Prelude.{◌≡◌, ◌++◌, [], false, is_some, true, OnOk, OnErr, IfOk, IfSome};
ghost use Rattle.rc_msg.specs.Posts.{posted_all, Grows};
ghost use Rattle.rc_ballots.specs.Tallies.{counted_for, won_by};
ghost use Rattle.rc_msg.specs.Outboxes.{Outbox};
ghost use Rattle.rc_protocol.specs.Client.{client_learns, with_vote, on_voted, on_refused, gives_up, counts_refusal, is_over};
ghost use Rattle.rc_client.specs.declared.fault.ClientFault.TheVariants.{NoMemory as OutOfMemory};
ghost use Rattle.rc_client.specs.Acts.{Acts, Fails, IsOf};
ghost use Rattle.rc_client.specs.Phases.{phase_of};
ghost use Rattle.rc_client.specs.States.{votes_of, weights_of, client_of, core_of, site_of};

use crate::phase::Phase;
use crate::posting::post_abandon;
use crate::progress::Progress;
use rc_ballots::{Tally, tally_laws};
use rc_body::{Decision, Reason};
use rc_ids::{Ballot, Cluster, DcId, DcSet, NoMemory, Outcome, Quorum, TxId};
use rc_msg::Outbox;
use rc_report::{Line, Lines};
use std::alloc::Global;

/// Whether with this vote a quorum stands for the outcome at the ballot.
fn would_decide(
    alloc: Global,
    quorum: Quorum,
    votes: &Option<Tally>,
    dc: DcId,
    ballot: Ballot,
    outcome: Outcome,
) -> bool
    requires { IfSome (weights_of votes.now) (λ weights. weights ≡ quorum) }
    ensures { result ≡ is_some (won_by quorum (votes_of votes.now) ballot dc outcome) }
{
    match votes {
        Some(tally) => tally.would(dc, ballot, outcome).is_some(),
        None => Tally::new(alloc, quorum)
            .would(dc, ballot, outcome)
            .is_some(),
    }
}

/// A tally with a first vote.
fn first_vote(
    alloc: Global,
    quorum: Quorum,
    dc: DcId,
    ballot: Ballot,
    outcome: Outcome,
) -> Result<Tally, NoMemory>
    ensures votes { IfOk result (λ tally. tally.votes ≡ counted_for [] ballot dc outcome) }
    ensures quorum { IfOk result (λ tally. tally.quorum ≡ quorum) }
{
    let mut tally = Tally::new(alloc, quorum);
    let _said = tally.add(dc, ballot, outcome)?;
    Ok(tally)
}

/// Counts a vote, or leaves all as before.
fn count(
    alloc: Global,
    quorum: Quorum,
    votes: &mut Option<Tally>,
    dc: DcId,
    ballot: Ballot,
    outcome: Outcome,
) -> Result<(), NoMemory>
    requires { IfSome (weights_of votes.old) (λ weights. weights ≡ quorum) }
    ensures ok { OnOk result (votes_of votes.new ≡ counted_for (votes_of votes.old) ballot dc outcome) }
    ensures weights { IfSome (weights_of votes.new) (λ weights. weights ≡ quorum) }
    ensures err { OnErr result (votes.new ≡ votes.old) }
{
    match votes {
        Some(tally) => add(tally, dc, ballot, outcome),
        None => {
            let tally = first_vote(alloc, quorum, dc, ballot, outcome)?;
            *votes = Some(tally);
            Ok(())
        }
    }
}

/// Adds a vote to a tally, or leaves all as before.
fn add(tally: &mut Tally, dc: DcId, ballot: Ballot, outcome: Outcome) -> Result<(), NoMemory>
    ensures ok { OnOk result (tally.new.votes ≡ counted_for tally.old.votes ballot dc outcome) }
    ensures quorum { tally.new.quorum ≡ tally.old.quorum }
    ensures err { OnErr result (tally.new ≡ tally.old) }
{
    match tally.add(dc, ballot, outcome) {
        Ok(_) => Ok(()),
        Err(NoMemory) => Err(NoMemory),
    }
}

/// Learns the outcome.
pub(crate) fn learn(
    progress: &mut Progress,
    decision: &Decision,
    lines: &mut Lines,
) -> Result<(), NoMemory>
    ensures ok { (out : Outbox) → OnOk result (Acts (site_of progress.old out lines.old) (site_of progress.new out lines.new) (client_learns progress.old.tx (client_of progress.old) decision.now)) }
    ensures err { (out : Outbox) → OnErr result (Fails OutOfMemory (site_of progress.old out lines.old) (site_of progress.new out lines.new) (client_learns progress.old.tx (client_of progress.old) decision.now)) }
    ensures votes { progress.new.votes ≡ progress.old.votes }
{
    let outcome = decision.copy()?;
    lines.push(Line::Learned(progress.tx, decision.outcome()))?;
    progress.outcome = Some(outcome);
    progress.phase = Phase::Done;
    Ok(())
}

/// Counts the vote with which a quorum stands for the outcome, and learns it.
fn vote_last(
    quorum: Quorum,
    progress: &mut Progress,
    ballot: Ballot,
    dc: DcId,
    decision: &Decision,
    lines: &mut Lines,
) -> Result<(), NoMemory>
    requires { IfSome (weights_of progress.old.votes) (λ weights. weights ≡ quorum) }
    ensures ok { (out : Outbox) → OnOk result (Acts (site_of progress.old out lines.old) (site_of progress.new out lines.new) (client_learns progress.old.tx (with_vote (client_of progress.old) ballot dc decision.now) decision.now)) }
    ensures err { (out : Outbox) → OnErr result (Fails OutOfMemory (site_of progress.old out lines.old) (site_of progress.new out lines.new) (client_learns progress.old.tx (with_vote (client_of progress.old) ballot dc decision.now) decision.now)) }
    ensures weights { IfSome (weights_of progress.new.votes) (λ weights. weights ≡ quorum) }
{
    let learned = decision.copy()?;
    let outcome = decision.outcome();
    lines.push(Line::Learned(progress.tx, outcome))?;
    count(
        progress.alloc,
        quorum,
        &mut progress.votes,
        dc,
        ballot,
        outcome,
    )?;
    tally_laws();
    progress.outcome = Some(learned);
    progress.phase = Phase::Done;
    Ok(())
}

/// The row of a vote that counts.
pub(crate) fn vote(
    cluster: &Cluster,
    progress: &mut Progress,
    ballot: Ballot,
    dc: DcId,
    decision: &Decision,
    lines: &mut Lines,
) -> Result<(), NoMemory>
    requires counts { is_over (phase_of progress.old.phase) ≡ false }
    requires of { IsOf cluster.now (core_of progress.old) }
    ensures ok { (out : Outbox) → OnOk result (Acts (site_of progress.old out lines.old) (site_of progress.new out lines.new) (on_voted cluster.now progress.old.tx (client_of progress.old) ballot dc decision.now)) }
    ensures err { (out : Outbox) → OnErr result (Fails OutOfMemory (site_of progress.old out lines.old) (site_of progress.new out lines.new) (on_voted cluster.now progress.old.tx (client_of progress.old) ballot dc decision.now)) }
    ensures of { IsOf cluster.now (core_of progress.new) }
{
    let quorum = cluster.quorum();
    let outcome = decision.outcome();
    tally_laws();
    if would_decide(progress.alloc, quorum, &progress.votes, dc, ballot, outcome) {
        return vote_last(quorum, progress, ballot, dc, decision, lines);
    }
    count(
        progress.alloc,
        quorum,
        &mut progress.votes,
        dc,
        ballot,
        outcome,
    )?;
    Ok(())
}

/// Gives the transaction up at its home, where with this datacentre's refusal a quorum refused, and without it none.
fn give_up(
    cluster: &Cluster,
    tx: TxId,
    refusals: DcSet,
    dc: DcId,
    out: &mut Outbox,
) -> Result<(), NoMemory>
    ensures ok { OnOk result (out.new ≡ posted_all out.old (gives_up cluster.now tx refusals dc)) }
    ensures grows { Grows out.old out.new }
{
    let quorum = cluster.quorum();
    if quorum.holds(refusals.with(dc)) && !quorum.holds(refusals) {
        return post_abandon(cluster, tx, out);
    }
    Ok(())
}

/// The row of a refusal that counts.
pub(crate) fn refuse(
    cluster: &Cluster,
    progress: &mut Progress,
    ballot: Ballot,
    dc: DcId,
    reason: &Reason,
    out: &mut Outbox,
    lines: &mut Lines,
) -> Result<(), NoMemory>
    requires { counts_refusal (client_of progress.old) ballot dc ≡ true }
    ensures ok { OnOk result (Acts (site_of progress.old out.old lines.old) (site_of progress.new out.new lines.new) (on_refused cluster.now progress.old.tx (client_of progress.old) ballot dc reason.now)) }
    ensures err { OnErr result (Fails OutOfMemory (site_of progress.old out.old lines.old) (site_of progress.new out.new lines.new) (on_refused cluster.now progress.old.tx (client_of progress.old) ballot dc reason.now)) }
    ensures votes { progress.new.votes ≡ progress.old.votes }
{
    give_up(cluster, progress.tx, progress.refusals, dc, out)?;
    lines.push(Line::Refused(progress.tx, dc, reason.copy()))?;
    progress.refusals = progress.refusals.with(dc);
    Ok(())
}

// The votes of one transaction, by outcome.
ghost use Rattle.std.specs.Prelude.{◌≡◌, ◌≤◌, ◌+◌, ℕ, [], None, OnOk, OnErr, IfOk};
ghost use Rattle.std.specs.Ordering.{nat_cmp};
ghost use Rattle.rc_body.specs.declared.decision.Decision.{Decision};
ghost use Rattle.rc_ids.specs.Cluster.{Layout};
ghost use Rattle.rc_ids.specs.Tables.{Table, found};
ghost use Rattle.rc_protocol.specs.Coordinator.{Standing as Votes};
ghost use Rattle.rc_ballots.specs.Tallies.{won_by, counted_for, TallyLaws};
ghost use Rattle.rc_ballots.specs.Tallies as tallies;

use crate::Standing;
use crate::rows::{Row, put, standing_at};
use rc_ids::{Ballot, DcId, NoMemory, Outcome, Quorum};
use std::alloc::Global;
use std::marker::Model;

/// The votes of one transaction at each ballot, and which datacentres are a quorum.
#[derive(Drop)]
pub struct Tally {
    quorum: Quorum,
    votes: Vec<Row>,
}

impl Model for Tally {
    ghost use Rattle.std.specs.Prelude.{◌-◌, vec_len, vec_capacity};
    ghost use Rattle.rc_ballots.specs.Tallies.{Tally as Counts, Rises};

    ghost Value = { Counts };

    ghost view = { λ t. record { quorum = t.quorum; votes = t.votes.items; spare = vec_capacity t.votes - vec_len t.votes } };

    ghost invariant = { λ t. Rises t.votes.items };
}

/// The outcome, where those that stand for it are a quorum.
fn won(quorum: &Quorum, standing: &Standing, outcome: Outcome) -> Option<Outcome>
    ensures { result ≡ tallies.won quorum.now standing.now outcome }
{
    if quorum.holds(standing.voters_for(outcome)) {
        return Some(outcome);
    }
    None
}

impl Tally {
    /// No votes yet, and which datacentres are a quorum.
    pub fn new(alloc: Global, quorum: Quorum) -> Tally
        ensures quorum { result.quorum ≡ quorum }
        ensures votes { result.votes ≡ [] }
    {
        Tally {
            quorum,
            votes: Vec::new(alloc),
        }
    }

    /// Makes room, so that the next `add` takes no memory; or leaves all as before. It wants memory only where there is no room yet.
    pub fn room(&mut self) -> Result<(), NoMemory>
        ensures quorum { self.new.quorum ≡ self.old.quorum }
        ensures votes { self.new.votes ≡ self.old.votes }
        ensures ok { OnOk result (1 ≤ self.new.spare) }
        ensures kept { self.old.spare ≤ self.new.spare }
        ensures err { OnErr result (self.new ≡ self.old) }
        ensures full { OnErr result (self.old.spare ≡ 0) }
    {
        self.votes.reserve(1)?;
        Ok(())
    }

    /// Counts a datacentre's vote for an outcome at a ballot, and gives the outcome where the datacentres that now stand for it at this
    /// ballot are a quorum. A vote that was counted before changes nothing. There is no want of memory at a ballot with votes, or
    /// while there is room for one more; after it all is as before.
    pub fn add(
        &mut self,
        dc: DcId,
        ballot: Ballot,
        outcome: Outcome,
    ) -> Result<Option<Outcome>, NoMemory>
        ensures said { IfOk result (λ said. said ≡ won_by self.old.quorum self.old.votes ballot dc outcome) }
        ensures ok { OnOk result (self.new.votes ≡ counted_for self.old.votes ballot dc outcome) }
        ensures quorum { self.new.quorum ≡ self.old.quorum }
        ensures spare { self.old.spare ≤ self.new.spare + 1 }
        ensures err { OnErr result (self.new ≡ self.old) }
        ensures full { OnErr result (self.old.spare ≡ 0) }
        ensures absent { OnErr result (found nat_cmp self.old.votes ballot ≡ None) }
    {
        let standing = standing_at(&self.votes, ballot).voting(outcome, dc);
        put(&mut self.votes, ballot, standing)?;
        Ok(won(&self.quorum, &standing, outcome))
    }

    /// What `add` would give.
    pub fn would(&self, dc: DcId, ballot: Ballot, outcome: Outcome) -> Option<Outcome>
        ensures { result ≡ won_by self.now.quorum self.now.votes ballot dc outcome }
    {
        let standing = standing_at(&self.votes, ballot).voting(outcome, dc);
        won(&self.quorum, &standing, outcome)
    }
}

/// What a decision counts for is what its outcome does.
pub fn tally_laws()
    ensures { (c : Layout) (votes : Table ℕ Votes) (b d : ℕ) (o : Decision) → TallyLaws c votes b d o }
{}

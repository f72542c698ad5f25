// Votes.
ghost use Rattle.std.specs.Prelude.{◌≡◌, [], OnOk};
ghost use Rattle.rc_protocol.specs.Coordinator.{stands_for, standing_for, counted, is_decided_by};
ghost use Rattle.rc_protocol.specs.Coordinator as coordinator;
ghost use Rattle.rc_ballots.specs.Tallies as tallies;

use rc_body::Decision;
use rc_ids::{Ballot, Cluster, DcId, DcSet, NoMemory, Outcome};
use std::alloc::Global;
use std::collections::BTreeMap;
use std::marker::Model;

/// The datacentres that voted commit and those that voted abort, at one ballot.
#[derive(Clone, Copy)]
pub struct Standing {
    commits: DcSet,
    aborts: DcSet,
}

impl Model for Standing {
    ghost use Rattle.rc_protocol.specs.Coordinator.{Standing as Votes};

    ghost Value = { Votes };

    ghost view = { λ s. record { commits = s.commits; aborts = s.aborts } };

    ghost inverse = { λ s. record { commits = s.commits; aborts = s.aborts } };
}

impl Standing {
    /// No votes.
    pub(crate) fn nobody() -> Standing
        ensures { result ≡ coordinator.nobody }
    {
        Standing {
            commits: DcSet::new(),
            aborts: DcSet::new(),
        }
    }

    /// The standing with one more vote.
    fn with(self, decision: &Decision, dc: DcId) -> Standing
        ensures { result ≡ stands_for self decision.now dc }
    {
        match decision {
            Decision::Commit(_) => Standing {
                commits: self.commits.with(dc),
                aborts: self.aborts,
            },
            Decision::Abort => Standing {
                commits: self.commits,
                aborts: self.aborts.with(dc),
            },
        }
    }

    /// Who voted as the decision says.
    fn voters(self, decision: &Decision) -> DcSet
        ensures { result ≡ standing_for self decision.now }
    {
        match decision {
            Decision::Commit(_) => self.commits,
            Decision::Abort => self.aborts,
        }
    }

    /// The standing with one more vote for the outcome.
    pub(crate) fn voting(self, outcome: Outcome, dc: DcId) -> Standing
        ensures { result ≡ tallies.voting self outcome dc }
    {
        let Standing { commits, aborts } = self;
        match outcome {
            Outcome::Commit => Standing {
                commits: commits.with(dc),
                aborts,
            },
            Outcome::Abort => Standing {
                commits,
                aborts: aborts.with(dc),
            },
        }
    }

    /// Who voted for the outcome.
    pub(crate) fn voters_for(&self, outcome: Outcome) -> DcSet
        ensures { result ≡ tallies.voters self.now outcome }
    {
        match outcome {
            Outcome::Commit => self.commits,
            Outcome::Abort => self.aborts,
        }
    }
}

/// The votes of one transaction, at each ballot. Which datacentres are a quorum is told at each question.
#[derive(Drop)]
pub struct Standings {
    map: BTreeMap<Ballot, Standing>,
}

impl Model for Standings {
    ghost use Rattle.std.specs.Prelude.{ℕ};
    ghost use Rattle.rc_ids.specs.Tables.{Table};
    ghost use Rattle.rc_protocol.specs.Coordinator.{Standing as Votes};

    ghost Value = { Table ℕ Votes };

    ghost view = { λ t. t.map.entries };
}

impl Standings {
    /// No votes.
    pub fn new(alloc: Global) -> Standings
        ensures { result ≡ [] }
    {
        Standings {
            map: BTreeMap::new(alloc),
        }
    }

    fn standing_at(&self, ballot: Ballot) -> Standing
        ensures { result ≡ coordinator.standing_at self.now ballot }
    {
        match self.map.get(&ballot) {
            Some(standing) => *standing,
            None => Standing::nobody(),
        }
    }

    /// Counts a datacentre's vote. Once it voted at a ballot, its vote again changes nothing.
    pub fn add(&mut self, dc: DcId, ballot: Ballot, decision: &Decision) -> Result<(), NoMemory>
        ensures { OnOk result (self.new ≡ counted self.old ballot dc decision.now) }
    {
        let standing = self.standing_at(ballot).with(decision, dc);
        self.map.insert(ballot, standing)?;
        Ok(())
    }

    /// Whether after this vote a quorum voted as it does, at its ballot.
    pub fn would_decide(
        &self,
        cluster: &Cluster,
        dc: DcId,
        ballot: Ballot,
        decision: &Decision,
    ) -> bool
        ensures { result ≡ is_decided_by cluster.now self.now ballot dc decision.now }
    {
        let standing = self.standing_at(ballot).with(decision, dc);
        cluster.quorum().holds(standing.voters(decision))
    }
}

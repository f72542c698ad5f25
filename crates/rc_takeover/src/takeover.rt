// Take-overs.
ghost use Rattle.std.specs.Prelude.{◌≡◌, ℕ, IsTrue, Option};
ghost use Rattle.std.specs.Option.{option_map, option_copied};
ghost use Rattle.std.specs.Result.{result_ok};
ghost use Rattle.rc_ids.specs.Cluster.{Layout, is_dc, next_ballot};
ghost use Rattle.rc_body.specs.declared.decision.Decision.{Decision as DecisionOf};
ghost use Rattle.rc_protocol.specs.Coordinator.{opening, hears, chooses, proposed};
ghost use Rattle.rc_takeover.specs.Choices as choices;
ghost use Rattle.rc_takeover.specs.TakeOvers.{kept, with_state, cluster_of, gone_on, said, heard_by, after_promise, foretold_by, foretold, foretells, IsTakeOver, KeptTakeOver};
ghost use Rattle.rc_takeover.specs.TakeOvers as take_overs;

use crate::choice::{Choice, chosen, proposal};
use crate::reports::{better, silent_after, would_report};
use crate::{BallotsSpent, Heard, Would};
use rc_body::Decision;
use rc_ids::{Ballot, Cluster, DcId, DcSet, Quorum};
use std::marker::Model;

/// A take-over: who promised its ballot, who of them reported nothing, and until it has proposed the report of the highest
/// ballot. An eager one proposes as soon as it may, a patient one aborts only what no quorum can have chosen before.
#[derive(Drop)]
pub struct Takeover {
    dcs: u8,
    quorum: Quorum,
    ballot: Ballot,
    is_eager: bool,
    has_proposed: bool,
    heard: DcSet,
    silent: DcSet,
    best: Option<(Ballot, Decision)>,
}

impl Model for Takeover {
    ghost use Rattle.std.specs.Prelude.{◌≤◌};
    ghost use Rattle.rc_takeover.specs.TakeOvers.{KeptTakeOver};

    ghost Value = { KeptTakeOver };

    ghost view = { λ k. record {
      dcs = k.dcs;
      weights = k.quorum;
      state = record { ballot = k.ballot; is_eager = k.is_eager; has_proposed = k.has_proposed; heard = k.heard; silent = k.silent; best = k.best };
    } };

    ghost invariant = { λ k. k.dcs ≤ 7 };
}

impl Takeover {
    /// Opens a take-over at the least ballot of the datacentre above its promise, which heard nobody yet.
    pub fn open(
        cluster: &Cluster,
        dc: DcId,
        promise: Ballot,
        eager: bool,
    ) -> Result<Takeover, BallotsSpent>
        requires { IsTrue (is_dc cluster.now dc) }
        ensures { result_ok result ≡ option_map (λ b. kept cluster.now (opening b eager)) (next_ballot cluster.now dc promise) }
    {
        match cluster.next_ballot(dc, promise) {
            Some(ballot) => Ok(Takeover::at(cluster, ballot, eager)),
            None => Err(BallotsSpent),
        }
    }

    fn at(cluster: &Cluster, ballot: Ballot, is_eager: bool) -> Takeover
        ensures { result ≡ kept cluster.now (opening ballot is_eager) }
    {
        Takeover {
            dcs: cluster.dcs(),
            quorum: cluster.quorum(),
            ballot,
            is_eager,
            has_proposed: false,
            heard: DcSet::new(),
            silent: DcSet::new(),
            best: None,
        }
    }

    /// Its ballot.
    pub fn ballot(&self) -> Ballot
        ensures { result ≡ self.now.state.ballot }
    {
        self.ballot
    }

    /// Whether it has proposed.
    pub fn has_proposed(&self) -> bool
        ensures { result ≡ self.now.state.has_proposed }
    {
        self.has_proposed
    }

    /// Whether it has not proposed yet, and did not hear the datacentre.
    fn waits_for(&self, dc: DcId) -> bool
        ensures { result ≡ take_overs.waits_for self.now.state dc }
    {
        !self.has_proposed && !self.heard.has(dc)
    }

    /// What it chooses, where these were heard and these of them reported nothing.
    fn choice(&self, heard: DcSet, silent: DcSet) -> Option<Choice>
        ensures { result ≡ choices.choice self.now.dcs self.now.weights self.now.state.is_eager heard silent }
    {
        chosen(self.dcs, &self.quorum, self.is_eager, heard, silent)
    }

    /// A datacentre promised its ballot, and reported the ballot and decision that it accepted last, if any. Of reports at one
    /// ballot the first heard counts.
    pub fn hear(&mut self, dc: DcId, report: Option<(Ballot, Decision)>) -> Heard
        ensures heard { result ≡ heard_by self.old dc report }
        ensures after { self.new ≡ after_promise self.old dc report }
    {
        if !self.waits_for(dc) {
            return Heard::Ignored;
        }
        self.take_in(dc, report);
        self.go_on()
    }

    /// Takes a promise in.
    fn take_in(&mut self, dc: DcId, report: Option<(Ballot, Decision)>)
        ensures { self.new ≡ with_state self.old (hears self.old.state dc report) }
    {
        self.heard = self.heard.with(dc);
        self.silent = silent_after(self.silent, dc, report.is_some());
        self.best = better(self.best.take(), report);
    }

    /// Proposes, if it is time to.
    fn go_on(&mut self) -> Heard
        ensures heard { result ≡ said (chooses (cluster_of self.old) self.old.state) }
        ensures after { self.new ≡ with_state self.old (gone_on (cluster_of self.old) self.old.state) }
    {
        match self.choice(self.heard, self.silent) {
            Some(choice) => Heard::Propose(self.propose(choice)),
            None => Heard::Waiting,
        }
    }

    /// Proposes what is chosen of its reports, and forgets them.
    fn propose(&mut self, choice: Choice) -> Decision
        ensures decision { result ≡ choices.proposal choice self.old.state.best }
        ensures after { self.new ≡ with_state self.old (proposed self.old.state) }
    {
        self.has_proposed = true;
        proposal(choice, self.best.take())
    }

    /// What `hear` would say, told beforehand.
    pub fn would<'a>(&'a self, dc: DcId, report: Option<&'a (Ballot, Decision)>) -> Would<'a>
        ensures { foretold_by result ≡ foretold self.now dc (option_copied report.entry) }
    {
        if !self.waits_for(dc) {
            return Would::Ignored;
        }
        let silent = silent_after(self.silent, dc, report.is_some());
        match self.choice(self.heard.with(dc), silent) {
            Some(Choice::Best) => would_report(&self.best, report),
            Some(Choice::Nothing) => Would::Abort,
            None => Would::Waiting,
        }
    }
}

/// A take-over as it is kept is the take-over of the coordinator's rows; and what is told beforehand is said.
pub fn takeover_laws()
    ensures kept { (c : Layout) → IsTakeOver c }
    ensures told { (k : KeptTakeOver) (from : ℕ) (report : Option (ℕ × DecisionOf)) → heard_by k from report ≡ foretells (foretold k from report) }
{}

// Take-overs.
ghost use Rattle.std.specs.Prelude.{◌≡◌, ◌==◌, ◌&&◌, not, is_some, if◌then◌else◌, IfOk};
ghost use Rattle.std.specs.Option.{option_copied};
ghost use Rattle.std.specs.Ordering.{nat_cmp};
ghost use Rattle.rc_ids.specs.Tables.{member, added};
ghost use Rattle.rc_protocol.specs.Coordinator.{opening};
ghost use Rattle.rc_protocol.specs.Coordinator as coordinator;

use crate::counts::hears_all;
use rc_body::Decision;
use rc_ids::{Ballot, Cluster, DcId, DcSet, NoMemory};
use std::marker::Model;

/// A take-over: who promised its ballot, who of them reported nothing, and the report of the highest ballot. An eager one
/// proposes as soon as it may, a patient one aborts only what no quorum can have chosen before.
#[derive(Drop)]
pub struct TakeOver {
    ballot: Ballot,
    is_eager: bool,
    has_proposed: bool,
    heard: DcSet,
    silent: DcSet,
    best: Option<(Ballot, Decision)>,
}

impl Model for TakeOver {
    ghost use Rattle.rc_protocol.specs.Coordinator.{TakeoverState as TakeOverOf};

    ghost Value = { TakeOverOf };

    ghost view = { λ k. record { ballot = k.ballot; is_eager = k.is_eager; has_proposed = k.has_proposed; heard = k.heard; silent = k.silent; best = k.best } };
}

/// The better of two reports: of those at one ballot, the earlier one.
fn better<'a>(
    best: &'a Option<(Ballot, Decision)>,
    report: &'a Option<(Ballot, Decision)>,
) -> &'a Option<(Ballot, Decision)>
    ensures { result.now ≡ coordinator.better best.now report.now }
{
    let Some(new) = report else {
        return best;
    };
    match best {
        None => report,
        Some(old) => { if old.0 < new.0 { report } else { best } }
    }
}

/// A copy of what was accepted last, as a report.
pub fn report_of(
    accepted: Option<&(Ballot, Decision)>,
) -> Result<Option<(Ballot, Decision)>, NoMemory>
    ensures { IfOk result (λ r. r ≡ option_copied accepted.entry) }
{
    match accepted {
        Some(accepted) => Ok(Some((accepted.0, accepted.1.copy()?))),
        None => Ok(None),
    }
}

/// A copy of a report.
fn copied(report: &Option<(Ballot, Decision)>) -> Result<Option<(Ballot, Decision)>, NoMemory>
    ensures { IfOk result (λ r. r ≡ report.now) }
{
    match report {
        Some((ballot, decision)) => Ok(Some((*ballot, decision.copy()?))),
        None => Ok(None),
    }
}

/// What was reported, or abort where nothing was.
fn best_or_abort(best: &Option<(Ballot, Decision)>) -> Result<Decision, NoMemory>
    ensures { IfOk result (λ d. d ≡ coordinator.best_or_abort best.now) }
{
    match best {
        Some((_, decision)) => decision.copy(),
        None => Ok(Decision::Abort),
    }
}

/// Who reported nothing, after a datacentre promised with its report.
fn silent_after(silent: DcSet, from: DcId, report: &Option<(Ballot, Decision)>) -> DcSet
    ensures { result ≡ (if is_some report.now then silent else added nat_cmp silent from) }
{
    match report {
        Some(_) => silent,
        None => silent.with(from),
    }
}

impl TakeOver {
    /// Nobody was heard yet.
    pub fn opening(ballot: Ballot, is_eager: bool) -> TakeOver
        ensures { result ≡ opening ballot is_eager }
    {
        TakeOver {
            ballot,
            is_eager,
            has_proposed: false,
            heard: DcSet::new(),
            silent: DcSet::new(),
            best: None,
        }
    }

    pub fn ballot(&self) -> Ballot
        ensures { result ≡ self.now.ballot }
    {
        self.ballot
    }

    /// Whether it has this ballot, has not proposed yet and did not hear the datacentre.
    pub fn waits_for(&self, ballot: Ballot, from: DcId) -> bool
        ensures { result ≡ ((self.now.ballot == ballot) && (not self.now.has_proposed && not (member nat_cmp self.now.heard from))) }
    {
        self.ballot == ballot && !self.has_proposed && !self.heard.has(from)
    }

    /// The same after a datacentre promised with its report.
    pub fn hears(
        &self,
        from: DcId,
        report: &Option<(Ballot, Decision)>,
    ) -> Result<TakeOver, NoMemory>
        ensures { IfOk result (λ k. k ≡ coordinator.hears self.now from report.now) }
    {
        Ok(TakeOver {
            ballot: self.ballot,
            is_eager: self.is_eager,
            has_proposed: self.has_proposed,
            heard: self.heard.with(from),
            silent: silent_after(self.silent, from, report),
            best: copied(better(&self.best, report))?,
        })
    }

    /// What an eager one proposes: the best report, or abort where there is none, once a quorum was heard.
    fn chooses_eagerly(&self, cluster: &Cluster) -> Result<Option<Decision>, NoMemory>
        ensures { IfOk result (λ d. d ≡ coordinator.chooses_eagerly cluster.now self.now) }
    {
        if cluster.quorum().holds(self.heard) {
            return Ok(Some(best_or_abort(&self.best)?));
        }
        Ok(None)
    }

    /// What a patient one proposes: abort once a quorum reported nothing, the best report once all were heard.
    fn chooses_patiently(&self, cluster: &Cluster) -> Result<Option<Decision>, NoMemory>
        ensures { IfOk result (λ d. d ≡ coordinator.chooses_patiently cluster.now self.now) }
    {
        if cluster.quorum().holds(self.silent) {
            return Ok(Some(Decision::Abort));
        }
        if hears_all(cluster, &self.heard) {
            return Ok(Some(best_or_abort(&self.best)?));
        }
        Ok(None)
    }

    /// What is to be proposed, if it is time to.
    pub fn chooses(&self, cluster: &Cluster) -> Result<Option<Decision>, NoMemory>
        ensures { IfOk result (λ d. d ≡ coordinator.chooses cluster.now self.now) }
    {
        if self.is_eager {
            self.chooses_eagerly(cluster)
        } else {
            self.chooses_patiently(cluster)
        }
    }

    /// The same after it proposed.
    pub fn proposed(self) -> TakeOver
        ensures { result ≡ coordinator.proposed self }
    {
        TakeOver {
            ballot: self.ballot,
            is_eager: self.is_eager,
            has_proposed: true,
            heard: self.heard,
            silent: self.silent,
            best: None,
        }
    }
}

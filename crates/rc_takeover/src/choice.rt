// What a take-over chooses.
ghost use Rattle.std.specs.Prelude.{◌≡◌, ◌≤◌, ◌&&◌};
ghost use Rattle.rc_body.specs.declared.decision.Decision.{Decision as DecisionOf};
ghost use Rattle.rc_takeover.specs.Choices as choices;

use rc_body::Decision;
use rc_ids::{Ballot, DcId, DcSet, Quorum};

/// Which of the reports a take-over proposes.
#[derive(Clone, Copy)]
pub enum Choice {
    /// None of them.
    Nothing,
    /// That of the highest ballot, if there is one.
    Best,
}

fn both(first: bool, second: bool) -> bool
    ensures { result ≡ (first && second) }
{
    first && second
}

/// Whether all of so many datacentres are in the set.
#[tactic(auto, using(crate::proofs::CountFacts::all_more))]
fn has_all_dcs(dcs: u8, set: &DcSet) -> bool
    requires { dcs ≤ 7 }
    ensures { result ≡ choices.has_all_dcs dcs set.now }
{
    let mut all = true;
    for place in 0..dcs {
        all = both(all, set.has(DcId(place + 1)));
    }
    all
}

fn eager_choice(quorum: &Quorum, heard: DcSet) -> Option<Choice>
    ensures { result ≡ choices.eager_choice quorum.now heard }
{
    if quorum.holds(heard) {
        Some(Choice::Best)
    } else {
        None
    }
}

fn patient_choice(dcs: u8, quorum: &Quorum, heard: DcSet, silent: DcSet) -> Option<Choice>
    requires { dcs ≤ 7 }
    ensures { result ≡ choices.patient_choice dcs quorum.now heard silent }
{
    if quorum.holds(silent) {
        Some(Choice::Nothing)
    } else if has_all_dcs(dcs, &heard) {
        Some(Choice::Best)
    } else {
        None
    }
}

/// What is chosen by who was heard and who of them reported nothing, if it is time to.
pub fn chosen(
    dcs: u8,
    quorum: &Quorum,
    is_eager: bool,
    heard: DcSet,
    silent: DcSet,
) -> Option<Choice>
    requires { dcs ≤ 7 }
    ensures { result ≡ choices.choice dcs quorum.now is_eager heard silent }
{
    if is_eager {
        eager_choice(quorum, heard)
    } else {
        patient_choice(dcs, quorum, heard, silent)
    }
}

/// The decision that is proposed.
pub fn proposal(choice: Choice, best: Option<(Ballot, Decision)>) -> Decision
    ensures { result ≡ choices.proposal choice best }
{
    match (choice, best) {
        (Choice::Best, Some((_, decision))) => decision,
        _ => Decision::Abort,
    }
}

// What is decided of a transaction.
ghost use Rattle.std.specs.Prelude.{◌≡◌, IfOk};
ghost use Rattle.rc_body.specs.Decisions.{is_commit, outcome_of};

use crate::Body;
use rc_ids::{NoMemory, Outcome};

/// What is proposed, voted and decided of a transaction.
#[derive(Drop)]
pub enum Decision {
    Commit(Body),
    Abort,
}

impl Decision {
    /// Whether it is a commit.
    pub fn is_commit(&self) -> bool
        ensures { result ≡ is_commit self.now }
    {
        matches!(self, Decision::Commit(_))
    }

    /// How a transaction ends by this decision.
    pub fn outcome(&self) -> Outcome
        ensures { result ≡ outcome_of self.now }
    {
        match self {
            Decision::Commit(_) => Outcome::Commit,
            Decision::Abort => Outcome::Abort,
        }
    }

    /// A copy of the decision.
    pub fn copy(&self) -> Result<Decision, NoMemory>
        ensures { IfOk result (λ d. d ≡ self.now) }
    {
        match self {
            Decision::Commit(body) => Ok(Decision::Commit(body.copy()?)),
            Decision::Abort => Ok(Decision::Abort),
        }
    }
}

// The phases of a client.
ghost use Rattle.std.specs.Prelude.{◌≡◌};
ghost use Rattle.rc_protocol.specs.Client as client_spec;
ghost use Rattle.rc_client.specs.Phases.{phase_of};

/// How far a client is.
#[derive(Clone, Copy, Debug, PartialEq, Eq)]
pub enum Phase {
    /// It reads and writes.
    Open,
    /// It waits for reads, and then commits.
    Committing,
    /// It proposed its commit.
    Proposed,
    /// It learned the outcome.
    Done,
    /// It is gone.
    Vanished,
}

impl Phase {
    /// Whether the client still takes commands.
    pub fn is_open(self) -> bool
        ensures { result ≡ client_spec.is_open (phase_of self) }
    {
        matches!(self, Phase::Open)
    }

    /// Whether the client waits for reads before it commits.
    pub fn is_committing(self) -> bool
        ensures { result ≡ client_spec.is_committing (phase_of self) }
    {
        matches!(self, Phase::Committing)
    }

    /// Whether the client proposed its commit, and learned nothing yet.
    pub fn is_proposed(self) -> bool
        ensures { result ≡ client_spec.is_proposed (phase_of self) }
    {
        matches!(self, Phase::Proposed)
    }

    /// Whether the client learned the outcome, or is gone.
    pub fn is_over(self) -> bool
        ensures { result ≡ client_spec.is_over (phase_of self) }
    {
        matches!(self, Phase::Done | Phase::Vanished)
    }

    /// Whether grants still count.
    pub fn reads_on(self) -> bool
        ensures { result ≡ client_spec.reads_on (phase_of self) }
    {
        self.is_open() || self.is_committing()
    }
}

// The acceptor of one transaction.
ghost use Rattle.std.specs.Prelude.{◌≡◌, ◌≤◌, nat_le, None};
ghost use Rattle.std.specs.Option.{option_copied};
ghost use Rattle.rc_ballots.specs.Acceptors.{new_acceptor, may_take, accepting};
ghost use Rattle.rc_ballots.specs.Acceptors as acceptors;

use rc_body::Decision;
use rc_ids::Ballot;
use std::marker::Model;

/// What an acceptor promised, and what it accepted last, of one transaction. It promises a ballot that is not below its
/// promise, and accepts it unless a higher one was promised. No call takes memory.
#[derive(Drop)]
pub struct Acceptor {
    promise: Ballot,
    accepted: Option<(Ballot, Decision)>,
}

impl Model for Acceptor {
    ghost use Rattle.rc_ballots.specs.Acceptors.{Acceptor as State};

    ghost Value = { State };

    ghost view = { λ a. record { promise = a.promise; accepted = a.accepted } };
}

impl Acceptor {
    /// Nothing was promised above the client's ballot 0, and nothing accepted.
    pub fn new() -> Acceptor
        ensures { result ≡ new_acceptor }
    {
        Acceptor {
            promise: Ballot(0),
            accepted: None,
        }
    }

    /// Whether it may promise the ballot: none above it was promised.
    pub fn may_promise(&self, ballot: Ballot) -> bool
        ensures { result ≡ may_take self.now ballot }
    {
        self.promise <= ballot
    }

    /// Whether it may accept at the ballot: none above it was promised.
    pub fn may_accept(&self, ballot: Ballot) -> bool
        ensures { result ≡ may_take self.now ballot }
    {
        ballot >= self.promise
    }

    /// Promises the ballot.
    pub fn promise(&mut self, ballot: Ballot)
        requires { self.old.promise ≤ ballot }
        ensures { self.new ≡ acceptors.promised self.old ballot }
    {
        self.promise = ballot;
    }

    /// Accepts a decision at the ballot, which raises the promise to it.
    pub fn accept(&mut self, ballot: Ballot, decision: Decision)
        requires { self.old.promise ≤ ballot }
        ensures { self.new ≡ accepting self.old ballot decision }
    {
        self.promise(ballot);
        self.accepted = Some((ballot, decision));
    }

    /// The highest ballot that was promised.
    pub fn promised(&self) -> Ballot
        ensures { result ≡ self.now.promise }
    {
        self.promise
    }

    /// What was accepted last, with its ballot.
    pub fn accepted(&self) -> Option<&(Ballot, Decision)>
        ensures { option_copied result ≡ self.now.accepted }
    {
        self.accepted.as_ref()
    }
}

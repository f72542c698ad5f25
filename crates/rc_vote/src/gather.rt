// Gathers.
ghost use Rattle.std.specs.Prelude.{◌≡◌, []};
ghost use Rattle.rc_ids.specs.Cluster.{Layout};
ghost use Rattle.rc_vote.specs.Gathers.{shard_gather, raised, still_asked, after_answer, gathered, IsGather};
ghost use Rattle.rc_vote.specs.Gathers as gathers;

use crate::left::left_of;
use rc_ids::{Ballot, ShardId, ShardSet};
use std::marker::Model;

/// What the answer of a shard makes of a gather.
#[derive(Clone, Copy, Debug, PartialEq, Eq)]
pub enum Gathered {
    /// The shard is not touched, or said yes before.
    Ignored,
    /// The shard says yes, and another one has not said so yet.
    Waiting,
    /// The shard says yes, and with it all touched shards have.
    Complete,
    /// The shard says no.
    Refused,
}

/// A transaction for which the shards that it touches are asked, and those of them that said yes.
#[derive(Clone, Copy, Debug)]
pub struct Gather {
    touched: ShardSet,
    ballot: Ballot,
    yes: ShardSet,
}

impl Model for Gather {
    ghost use Rattle.rc_vote.specs.Gathers.{ShardGather, shard_gather};

    ghost Value = { ShardGather };

    ghost view = { λ g. shard_gather g.touched g.ballot g.yes };

    ghost inverse = { λ g. record { touched = g.touched; ballot = g.ballot; yes = g.yes } };
}

impl Gather {
    /// A gather at ballot 0, where no shard said yes yet.
    pub fn new(touched: ShardSet) -> Gather
        ensures { result ≡ shard_gather touched 0 [] }
    {
        Gather {
            touched,
            ballot: Ballot(0),
            yes: ShardSet::new(),
        }
    }

    /// Raises the ballot to this one, if it is larger, and gives the shards still to ask.
    pub fn start(&mut self, ballot: Ballot) -> ShardSet
        ensures gather { self.new ≡ raised self.old ballot }
        ensures asked { result ≡ still_asked self.old }
    {
        if self.ballot < ballot {
            self.ballot = ballot;
        }
        left_of(&self.touched, &self.yes)
    }

    /// Takes the answer of a shard. Only its first yes counts, and a no changes nothing.
    pub fn answer(&mut self, shard: ShardId, yes: bool) -> Gathered
        ensures gather { self.new ≡ after_answer self.old shard yes }
        ensures answer { result ≡ gathered self.old shard yes }
    {
        if !self.touched.has(shard) || self.yes.has(shard) {
            return Gathered::Ignored;
        }
        if !yes {
            return Gathered::Refused;
        }
        self.yes = self.yes.with(shard);
        if self.is_complete() {
            Gathered::Complete
        } else {
            Gathered::Waiting
        }
    }

    /// The largest ballot at which the shards were asked.
    pub fn ballot(&self) -> Ballot
        ensures { result ≡ self.now.ballot }
    {
        self.ballot
    }

    /// The shards that the transaction touches.
    pub fn touched(&self) -> ShardSet
        ensures { result ≡ self.now.touched }
    {
        self.touched
    }

    /// The shards that said yes.
    pub fn yes(&self) -> ShardSet
        ensures { result ≡ self.now.yes }
    {
        self.yes
    }

    /// Whether all touched shards said yes.
    pub fn is_complete(&self) -> bool
        ensures { result ≡ gathers.is_complete self.now }
    {
        left_of(&self.touched, &self.yes).len() == 0
    }
}

/// A gather by its shards is the gather of the coordinator's rows.
pub fn gather_laws()
    ensures { (c : Layout) → IsGather c }
{}

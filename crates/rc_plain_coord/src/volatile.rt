// What a coordinator forgets when it restarts.
ghost use Rattle.std.specs.Prelude.{◌≡◌, OnOk, IfOk, max};
ghost use Rattle.std.specs.Option.{option_copied};
ghost use Rattle.std.specs.Ordering.{nat_cmp};
ghost use Rattle.rc_ids.specs.Tables.{found};
ghost use Rattle.rc_protocol.specs.Coordinator.{new_volatile, with_gather, with_takeover, with_vote, forgotten, tally_of, is_decided_by, cursor_of, with_coord_cursor, forgotten_all};
ghost use Rattle.rc_protocol.specs.Coordinator as coordinator_spec;

use crate::gather::{Gather, Gathers};
use crate::places::Places;
use crate::takeover::TakeOver;
use crate::takeovers::TakeOvers;
use crate::votes::Votes;
use rc_body::{Body, Decision, Page};
use rc_ids::{Ballot, Cluster, DcId, NoMemory, TxId};
use std::alloc::Global;
use std::marker::Model;

/// The gathers, take-overs and votes of a coordinator, and how far it caught up with the others.
#[derive(Drop)]
pub struct Volatile {
    gathers: Gathers,
    takeovers: TakeOvers,
    votes: Votes,
    places: Places,
}

impl Model for Volatile {
    ghost use Rattle.rc_protocol.specs.Coordinator.{CoordVolatile};

    ghost Value = { CoordVolatile };

    ghost view = { λ v. record { gathers = v.gathers; takeovers = v.takeovers; votes = v.votes; cursors = v.places } };
}

impl Volatile {
    pub fn new(alloc: Global) -> Volatile
        ensures { result ≡ new_volatile }
    {
        Volatile {
            gathers: Gathers::new(alloc),
            takeovers: TakeOvers::new(alloc),
            votes: Votes::new(alloc),
            places: Places::new(alloc),
        }
    }

    pub fn gather(&self, tx: TxId) -> Option<&Gather>
        ensures { option_copied result ≡ found nat_cmp self.now.gathers tx }
    {
        self.gathers.get(tx)
    }

    /// The gather of a proposal: a new one, or the one that is there at the larger ballot.
    pub fn gather_at(&self, tx: TxId, ballot: Ballot, body: &Body) -> Result<Gather, NoMemory>
        ensures { IfOk result (λ g. g ≡ coordinator_spec.gather_at self.now tx ballot body.now) }
    {
        match self.gathers.get(tx) {
            Some(gather) => gather.at(larger(gather.ballot(), ballot)),
            None => Ok(Gather::new(ballot, body.copy()?)),
        }
    }

    pub fn keep_gather(&mut self, tx: TxId, gather: Gather) -> Result<(), NoMemory>
        ensures { OnOk result (self.new ≡ with_gather self.old tx gather) }
    {
        self.gathers.put(tx, gather)
    }

    pub fn takeover(&self, tx: TxId) -> Option<&TakeOver>
        ensures { option_copied result ≡ found nat_cmp self.now.takeovers tx }
    {
        self.takeovers.get(tx)
    }

    pub fn keep_takeover(&mut self, tx: TxId, takeover: TakeOver) -> Result<(), NoMemory>
        ensures { OnOk result (self.new ≡ with_takeover self.old tx takeover) }
    {
        self.takeovers.put(tx, takeover)
    }

    /// Whether after this vote a quorum voted as it does, at its ballot.
    pub fn would_decide(
        &self,
        alloc: Global,
        cluster: &Cluster,
        tx: TxId,
        dc: DcId,
        ballot: Ballot,
        decision: &Decision,
    ) -> bool
        ensures { result ≡ is_decided_by cluster.now (tally_of self.now tx) ballot dc decision.now }
    {
        self.votes
            .would_decide(alloc, cluster, tx, dc, ballot, decision)
    }

    /// Counts a datacentre's vote.
    pub fn count(
        &mut self,
        alloc: Global,
        tx: TxId,
        dc: DcId,
        ballot: Ballot,
        decision: &Decision,
    ) -> Result<(), NoMemory>
        ensures { OnOk result (self.new ≡ with_vote self.old tx ballot dc decision.now) }
    {
        self.votes.count(alloc, tx, dc, ballot, decision)
    }

    /// How far the list of the datacentre was caught up with.
    pub fn place(&self, dc: DcId) -> u32
        ensures { result ≡ cursor_of self.now dc }
    {
        self.places.get(dc)
    }

    pub fn keep_place(&mut self, dc: DcId, place: u32) -> Result<(), NoMemory>
        ensures { OnOk result (self.new ≡ with_coord_cursor self.old dc place) }
    {
        self.places.put(dc, place)
    }

    /// Forgets a transaction.
    pub fn forget(&mut self, tx: TxId)
        ensures { self.new ≡ forgotten self.old tx }
    {
        self.gathers.remove(tx);
        self.takeovers.remove(tx);
        self.votes.remove(tx);
    }

    /// Forgets the transactions of the page.
    pub fn forget_all(&mut self, page: &Page)
        ensures { self.new ≡ forgotten_all self.old page.now }
    {
        for index in 0..page.len() {
            let (tx, _) = page.entry(index);
            self.forget(tx);
        }
    }
}

fn larger(first: Ballot, second: Ballot) -> Ballot
    ensures { result ≡ max first second }
{
    if first < second { second } else { first }
}

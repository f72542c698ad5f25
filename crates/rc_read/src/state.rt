// Reads under way.
ghost use Rattle.std.specs.Prelude.{◌≡◌, ℕ, List, false};
ghost use Rattle.std.specs.Option.{option_copied};
ghost use Rattle.rc_read.specs.Reads.{pick, new_read, is_done, with_grant, shown, ended, after_offer, answer_to, rest_of, IsRead};
ghost use Rattle.rc_read.specs.Reads as reads;

use crate::left::left_of;
use rc_ids::{DcId, DcSet, Quorum, Val, Version};
use std::marker::Model;

/// The version and the value of a key that a datacentre's shard gave.
#[derive(Drop)]
pub struct Grant {
    pub dc: DcId,
    pub version: Version,
    pub value: Option<Val>,
}

impl Model for Grant {
    ghost use Rattle.rc_protocol.specs.Client.{Grant as GrantState};

    ghost Value = { GrantState };

    ghost view = { λ g. record { dc = g.dc; version = g.version; value = g.value } };
}

/// What a read gives: the highest version that was granted, the value of the first grant that has it, and who granted.
#[derive(Drop)]
pub struct ReadDone {
    pub version: Version,
    pub value: Option<Val>,
    pub from: DcSet,
}

/// The grant of the higher version: of two at one version, the first.
fn better(best: Option<Grant>, grant: Grant) -> Grant
    ensures { result ≡ reads.better best grant }
{
    match best {
        Some(best) => {
            if best.version < grant.version {
                grant
            } else {
                best
            }
        }
        None => grant,
    }
}

/// A read of a key: which datacentres were offered, and until they are a quorum the best grant.
#[derive(Drop)]
pub struct ReadState {
    quorum: Quorum,
    offered: DcSet,
    best: Option<Grant>,
}

impl Model for ReadState {
    ghost use Rattle.rc_read.specs.Reads.{Reading};

    ghost Value = { Reading };

    ghost view = { λ r. record { weights = r.quorum; offered = r.offered; best = r.best } };
}

impl ReadState {
    /// A read to which nothing was offered. The datacentres are the first so many as the quorum has weights.
    pub fn new(quorum: Quorum) -> ReadState
        ensures read { result ≡ new_read quorum }
        ensures open { is_done result ≡ false }
    {
        ReadState {
            quorum,
            offered: DcSet::new(),
            best: None,
        }
    }

    /// Whether the datacentres offered are a quorum.
    pub fn done(&self) -> bool
        ensures { result ≡ is_done self.now }
    {
        self.quorum.holds(self.offered)
    }

    /// Whether a grant of the datacentre would count: the read is not done, and the datacentre was not offered.
    fn counts(&self, dc: DcId) -> bool
        ensures { result ≡ reads.counts self.now dc }
    {
        !self.done() && !self.offered.has(dc)
    }

    /// Takes a grant, and gives what was read at the one with which the datacentres offered become a quorum. A grant of a
    /// datacentre that was offered already, or that comes after that one, changes nothing.
    pub fn offer(&mut self, grant: Grant) -> Option<ReadDone>
        ensures answer { result ≡ answer_to self.old grant }
        ensures after { self.new ≡ after_offer self.old grant }
    {
        if !self.counts(grant.dc) {
            return None;
        }
        self.take_in(grant);
        self.end()
    }

    /// Takes a grant in.
    fn take_in(&mut self, grant: Grant)
        ensures { self.new ≡ with_grant self.old grant }
    {
        self.offered = self.offered.with(grant.dc);
        self.best = Some(better(self.best.take(), grant));
    }

    /// What was read, if it is done: then the best grant is given away.
    fn end(&mut self) -> Option<ReadDone>
        ensures answer { result ≡ ended self.old }
        ensures after { self.new ≡ shown self.old }
    {
        if !self.done() {
            return None;
        }
        let from = self.offered;
        let best = self.best.take()?;
        Some(ReadDone {
            version: best.version,
            value: best.value,
            from,
        })
    }

    /// The datacentres that were not offered.
    pub fn rest(&self) -> DcSet
        ensures { result ≡ rest_of self.now }
    {
        left_of(self.quorum.weights().len(), &self.offered)
    }

    /// The first grant of the highest version, until the read is done.
    pub fn best(&self) -> Option<&Grant>
        ensures { option_copied result ≡ self.now.best }
    {
        self.best.as_ref()
    }
}

/// What is kept of a read says of its grants what the client's rows say.
pub fn read_laws()
    ensures { (weights : List ℕ) → IsRead weights }
{}

// The kinds of records.
use crate::Head;
use rc_body::{Body, Decision, Page};
use rc_ids::{Ballot, TxId};

/// A record of a log: its head, then those of a shard server (`Prepared`, `Finished`) or of a coordinator (`Promised`, `Accepted`,
/// `Decided`).
#[derive(Drop)]
pub enum Record {
    /// Whose log it is, of which world.
    Head(Head),
    /// A shard prepared its part of a transaction.
    Prepared(TxId, Body),
    /// A shard learned outcomes; the bodies are its parts.
    Finished(Page),
    /// A coordinator promised a ballot.
    Promised(TxId, Ballot),
    /// A coordinator accepted a decision at a ballot: its datacentre's vote.
    Accepted(TxId, Ballot, Decision),
    /// A coordinator learned outcomes.
    Decided(Page),
}

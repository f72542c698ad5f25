// The kinds of messages.
ghost use Rattle.std.specs.Prelude.{◌≡◌, IfOk};

use rc_body::{Body, Decision, Page, Reason};
use rc_ids::{Ballot, DcId, Key, NoMemory, Party, ShardId, TxId, Val, Version};

/// A message, of one of 15 kinds.
#[derive(Drop)]
pub enum Msg {
    /// A client asks a shard for a key.
    ReadAsk(TxId, Key),
    /// A client no longer wants a key.
    ReadCancel(TxId, Key),
    /// A shard of a datacentre gives a key's version and value.
    Granted(TxId, Key, DcId, Version, Option<Val>),
    /// A proposer asks a datacentre to accept a decision at a ballot.
    Propose(TxId, Ballot, Decision),
    /// A coordinator asks a shard to prepare its part.
    Prepare(TxId, Body),
    /// A shard says yes, or no with a reason.
    Prepared(TxId, ShardId, Option<Reason>),
    /// A datacentre accepted a decision at a ballot.
    Voted(TxId, Ballot, DcId, Decision),
    /// A datacentre refuses a proposal at a ballot.
    Refused(TxId, Ballot, DcId, Reason),
    /// A coordinator asks for a promise at a ballot.
    Ask(TxId, Ballot),
    /// A datacentre promises a ballot, and reports what it accepted last.
    Promise(TxId, Ballot, DcId, Option<(Ballot, Decision)>),
    /// The outcome of a transaction.
    Decided(TxId, Decision),
    /// A coordinator tells a shard the outcome of its part.
    Finish(TxId, Decision),
    /// A client gives its transaction up.
    Abandon(TxId),
    /// A node asks for outcomes from a place of the list on.
    CatchAsk(u32),
    /// Outcomes of a datacentre's list from a place on.
    CatchPage(DcId, u32, Page),
}

impl Msg {
    /// The same message, by itself.
    pub fn copy(&self) -> Result<Msg, NoMemory>
        ensures { IfOk result (λ m. m ≡ self.now) }
    {
        match self {
            Msg::ReadAsk(tx, key) => Ok(Msg::ReadAsk(*tx, key.copy())),
            Msg::ReadCancel(tx, key) => Ok(Msg::ReadCancel(*tx, key.copy())),
            Msg::Granted(tx, key, dc, version, value) => Ok(Msg::Granted(
                *tx,
                key.copy(),
                *dc,
                *version,
                copied_value(value)?,
            )),
            Msg::Propose(tx, ballot, decision) => {
                Ok(Msg::Propose(*tx, *ballot, decision.copy()?))
            }
            Msg::Prepare(tx, body) => Ok(Msg::Prepare(*tx, body.copy()?)),
            Msg::Prepared(tx, shard, reason) => {
                Ok(Msg::Prepared(*tx, *shard, copied_reason(reason)))
            }
            Msg::Voted(tx, ballot, dc, decision) => {
                Ok(Msg::Voted(*tx, *ballot, *dc, decision.copy()?))
            }
            Msg::Refused(tx, ballot, dc, reason) => {
                Ok(Msg::Refused(*tx, *ballot, *dc, reason.copy()))
            }
            Msg::Ask(tx, ballot) => Ok(Msg::Ask(*tx, *ballot)),
            Msg::Promise(tx, ballot, dc, report) => {
                Ok(Msg::Promise(*tx, *ballot, *dc, copied_report(report)?))
            }
            Msg::Decided(tx, decision) => Ok(Msg::Decided(*tx, decision.copy()?)),
            Msg::Finish(tx, decision) => Ok(Msg::Finish(*tx, decision.copy()?)),
            Msg::Abandon(tx) => Ok(Msg::Abandon(*tx)),
            Msg::CatchAsk(place) => Ok(Msg::CatchAsk(*place)),
            Msg::CatchPage(dc, place, page) => Ok(Msg::CatchPage(*dc, *place, page.copy()?)),
        }
    }
}

fn copied_value(value: &Option<Val>) -> Result<Option<Val>, NoMemory>
    ensures { IfOk result (λ v. v ≡ value.now) }
{
    match value {
        Some(value) => Ok(Some(value.copy()?)),
        None => Ok(None),
    }
}

fn copied_reason(reason: &Option<Reason>) -> Option<Reason>
    ensures { result ≡ reason.now }
{
    match reason {
        Some(reason) => Some(reason.copy()),
        None => None,
    }
}

fn copied_report(
    report: &Option<(Ballot, Decision)>,
) -> Result<Option<(Ballot, Decision)>, NoMemory>
    ensures { IfOk result (λ r. r ≡ report.now) }
{
    match report {
        Some((ballot, decision)) => Ok(Some((*ballot, decision.copy()?))),
        None => Ok(None),
    }
}

/// A message with its sender and its receiver.
#[derive(Drop)]
pub struct Envelope {
    pub from: Party,
    pub to: Party,
    pub msg: Msg,
}

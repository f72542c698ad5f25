// The order of the committed transactions.
ghost use Rattle.std.specs.Prelude.{◌≡◌, ℕ, ◌++◌, List, [], Some, IsTrue, IsOk, OnOk, OnErr};
ghost use Rattle.rc_ids.specs.Cluster.{Layout, is_dc};
ghost use Rattle.rc_body.specs.declared.entry.Entry.{Entry};
ghost use Rattle.rc_body.specs.declared.decision.Decision.TheVariants.{Commit};
ghost use Rattle.rc_record.specs.declared.record.Record.TheVariants.{Accepted};
ghost use Rattle.rc_protocol.specs.Nodes.{CoordNode};
ghost use Rattle.rc_runs.specs.Votes.{ordered};
ghost use Rattle.rc_order.specs.Orders.{Order as Kept, HasRoom, IsAsBefore, voters_at, with_vote, with_record, with_choice, listed_after};
ghost use Rattle.rc_order.specs.Orders as orders;
ghost use Rattle.rc_order.specs.Logs.{LogLaws};
ghost use Rattle.rc_order.specs.Counts.{AreCounted, HaveEmptyLogs, HasWritten, IsOrderOf, CountLaws};

use indexmap::{IndexMap, IndexSet};
use rc_body::Decision;
use rc_ids::{Ballot, DcId, DcSet, NoMemory, Quorum, TxId};
use rc_record::Record;
use std::alloc::Global;
use std::marker::Model;

/// Which transactions' commits were chosen, in the order in which each first was, kept from the votes as they are made.
#[derive(Drop)]
pub struct Order {
    quorum: Quorum,
    /// Who voted for commit, by transaction and ballot.
    votes: IndexMap<(TxId, Ballot), DcSet>,
    /// All that were listed, in order.
    txs: IndexSet<TxId>,
    /// How many of them were listed before this run.
    before: usize,
}

impl Model for Order {
    ghost use Rattle.std.specs.Prelude.{◌≤◌, length, take, drop};
    ghost use Rattle.indexmap.specs.IndexMap.{spare as spare_votes};
    ghost use Rattle.indexmap.specs.IndexSet.{spare as spare_places};
    ghost use Rattle.rc_order.specs.Orders.{Order as Kept};

    ghost Value = { Kept };

    ghost view = { λ o. record {
      weights = o.quorum;
      votes = o.votes.entries;
      earlier = take o.before o.txs.keys;
      listed = drop o.before o.txs.keys;
      spare_votes = spare_votes o.votes;
      spare_places = spare_places o.txs;
    } };

    ghost invariant = { λ o. o.before ≤ length o.txs.keys };
}

/// The transaction and the ballot, where the record is a vote for commit.
fn vote_of(written: &Record) -> Option<(TxId, Ballot)>
    ensures { result ≡ orders.vote_of written.now }
{
    match written {
        Record::Accepted(tx, ballot, decision) => match decision {
            Decision::Commit(_) => Some((*tx, *ballot)),
            Decision::Abort => None,
        },
        _ => None,
    }
}

impl Order {
    /// No votes, and nothing is listed.
    pub fn new(alloc: Global, quorum: Quorum) -> Order
        ensures weights { result.weights ≡ quorum }
        ensures votes { result.votes ≡ [] }
        ensures earlier { result.earlier ≡ [] }
        ensures listed { result.listed ≡ [] }
        ensures order { (c : Layout) (coords : List CoordNode) → c.weights ≡ quorum → HaveEmptyLogs coords → IsOrderOf c coords [] [] result }
    {
        Order {
            quorum,
            votes: IndexMap::new(alloc),
            txs: IndexSet::new(alloc),
            before: 0,
        }
    }

    /// Those listed in this run, in order.
    pub fn listed(&self) -> &[TxId]
        ensures { result.now ≡ self.now.listed }
    {
        &self.txs.as_slice()[self.before..]
    }

    /// A run starts: what is listed up to now was listed earlier.
    pub fn begin(&mut self)
        ensures weights { self.new.weights ≡ self.old.weights }
        ensures votes { self.new.votes ≡ self.old.votes }
        ensures earlier { self.new.earlier ≡ self.old.earlier ++ self.old.listed }
        ensures listed { self.new.listed ≡ [] }
        ensures spare_votes { self.new.spare_votes ≡ self.old.spare_votes }
        ensures spare_places { self.new.spare_places ≡ self.old.spare_places }
        ensures order { (c : Layout) (coords : List CoordNode) (earlier committed : List (ℕ × List Entry)) → IsOrderOf c coords earlier committed self.old
            → IsOrderOf c coords (earlier ++ committed) [] self.new }
    {
        self.before = self.txs.len();
    }

    /// The datacentres that voted for commit at the ballot.
    fn voters(&self, tx: TxId, ballot: Ballot) -> DcSet
        ensures { result ≡ voters_at self.now.votes tx ballot }
    {
        match self.votes.get(&(tx, ballot)) {
            Some(voters) => *voters,
            None => DcSet::new(),
        }
    }

    /// Makes room, so that the next `note` takes no memory. All else stays as it is, also where there is no memory. It wants memory only
    /// where there is no room yet.
    pub fn room(&mut self) -> Result<(), NoMemory>
        ensures ok { OnOk result (HasRoom self.new) }
        ensures full { HasRoom self.old → IsOk result }
        ensures as_before { IsAsBefore self.old self.new }
    {
        self.votes.reserve(1)?;
        self.txs.reserve(1)?;
        Ok(())
    }

    /// Counts the vote of a datacentre, where the record that it wrote is one for commit; or leaves all as before. A vote that was
    /// counted before changes nothing. There is no want of memory while there is room for one more.
    pub fn count(&mut self, dc: DcId, written: &Record) -> Result<(), NoMemory>
        ensures ok { OnOk result (self.new.votes ≡ with_record self.old.votes dc written.now) }
        ensures weights { self.new.weights ≡ self.old.weights }
        ensures earlier { self.new.earlier ≡ self.old.earlier }
        ensures listed { self.new.listed ≡ self.old.listed }
        ensures err { OnErr result (IsAsBefore self.old self.new) }
        ensures full { OnErr result (self.old.spare_votes ≡ 0) }
        ensures counted { OnOk result ((c : Layout) (coords now : List CoordNode) → AreCounted c coords self.old → IsTrue (is_dc c dc)
            → HasWritten coords dc written.now now → AreCounted c now self.new) }
    {
        match vote_of(written) {
            Some((tx, ballot)) => self.add(dc, tx, ballot),
            None => Ok(()),
        }
    }

    /// Lists the transaction of the record, where that is a vote for commit, the votes that were counted at its ballot are a quorum, and
    /// the transaction is not listed yet; or leaves all as before. There is no want of memory while there is room for one more.
    pub fn choose(&mut self, written: &Record) -> Result<(), NoMemory>
        ensures ok { OnOk result (self.new.listed ≡ listed_after self.old written.now) }
        ensures weights { self.new.weights ≡ self.old.weights }
        ensures votes { self.new.votes ≡ self.old.votes }
        ensures earlier { self.new.earlier ≡ self.old.earlier }
        ensures err { OnErr result (IsAsBefore self.old self.new) }
        ensures full { OnErr result (self.old.spare_places ≡ 0) }
        ensures order { OnOk result ((c : Layout) (coords : List CoordNode) (earlier committed : List (ℕ × List Entry))
            → IsOrderOf c coords earlier committed self.old
            → IsOrderOf c coords earlier (ordered c coords earlier committed (Some written.now)) self.new) }
    {
        match vote_of(written) {
            Some((tx, ballot)) => self.list(tx, ballot),
            None => Ok(()),
        }
    }

    /// Counts a datacentre's vote for commit, and lists the transaction where its commit is chosen now. There is room, so it takes no
    /// memory. A vote that was counted before is not counted again, and a transaction is listed once.
    pub fn note(&mut self, dc: DcId, tx: TxId, ballot: Ballot)
        requires { HasRoom self.old }
        ensures votes { self.new.votes ≡ with_vote self.old.votes dc tx ballot }
        ensures weights { self.new.weights ≡ self.old.weights }
        ensures earlier { self.new.earlier ≡ self.old.earlier }
        ensures listed { self.new.listed ≡ with_choice self.old.weights self.new.votes self.old.earlier self.old.listed tx ballot }
        ensures order { (c : Layout) (coords now : List CoordNode) (body : List Entry) (earlier committed : List (ℕ × List Entry))
            → IsOrderOf c coords earlier committed self.old → IsTrue (is_dc c dc) → HasWritten coords dc (Accepted tx ballot (Commit body)) now
            → IsOrderOf c now earlier (ordered c now earlier committed (Some (Accepted tx ballot (Commit body)))) self.new }
    {
        self.add(dc, tx, ballot).unwrap();
        self.list(tx, ballot).unwrap();
    }

    /// Counts a vote for commit, unless it was counted before; or leaves all as before.
    fn add(&mut self, dc: DcId, tx: TxId, ballot: Ballot) -> Result<(), NoMemory>
        ensures ok { OnOk result (self.new.votes ≡ with_vote self.old.votes dc tx ballot) }
        ensures weights { self.new.weights ≡ self.old.weights }
        ensures earlier { self.new.earlier ≡ self.old.earlier }
        ensures listed { self.new.listed ≡ self.old.listed }
        ensures places { self.new.spare_places ≡ self.old.spare_places }
        ensures err { OnErr result (IsAsBefore self.old self.new) }
        ensures full { OnErr result (self.old.spare_votes ≡ 0) }
    {
        let voters = self.voters(tx, ballot);
        if voters.has(dc) {
            return Ok(());
        }
        self.votes.insert((tx, ballot), voters.with(dc))?;
        Ok(())
    }

    /// Lists the transaction, where its commit is chosen at the ballot and it is not listed yet, or leaves all as before.
    fn list(&mut self, tx: TxId, ballot: Ballot) -> Result<(), NoMemory>
        ensures ok { OnOk result (self.new.listed ≡ with_choice self.old.weights self.old.votes self.old.earlier self.old.listed tx ballot) }
        ensures weights { self.new.weights ≡ self.old.weights }
        ensures votes { self.new.votes ≡ self.old.votes }
        ensures earlier { self.new.earlier ≡ self.old.earlier }
        ensures err { OnErr result (IsAsBefore self.old self.new) }
        ensures full { OnErr result (self.old.spare_places ≡ 0) }
    {
        if self.quorum.holds(self.voters(tx, ballot)) {
            self.txs.insert(tx)?;
        }
        Ok(())
    }
}

/// All votes are counted once those of all logs are, one record after another.
pub fn log_laws()
    ensures { (c : Layout) (coords : List CoordNode) (o : Kept) → LogLaws c coords o }
{}

/// What keeps the votes counted as nodes and orders change.
pub fn count_laws()
    ensures { (c : Layout) (coords now : List CoordNode) (o : Kept) → CountLaws c coords now o }
{}

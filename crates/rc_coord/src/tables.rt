// What a coordinator has beside its journal.
ghost use Rattle.std.specs.Prelude.{◌≡◌};
ghost use Rattle.rc_record.specs.CoordState.{promise_of, new_durable};
ghost use Rattle.rc_ids.specs.Cluster.{Layout};
ghost use Rattle.rc_protocol.specs.Coordinator.{new_volatile, forgotten};
ghost use Rattle.rc_coord.specs.Sites.{durable_of, volatile_of, Fits};

use rc_body::Decision;
use rc_catch::Outcomes;
use rc_coord_tables::{Gathers, Places, Takeovers, Votes};
use rc_ids::{Ballot, Cluster, TxId};
use rc_log::Journal;
use rc_node::Numbered;
use std::alloc::Global;

/// The ballot that was promised for each transaction, and what was accepted last, at which ballot.
#[derive(Drop)]
pub(crate) struct Acceptor {
    pub(crate) promises: Numbered<Ballot>,
    pub(crate) accepted: Numbered<(Ballot, Decision)>,
}

/// The outcomes and the acceptor, which the journal gives back; what is kept of open transactions; and how far the lists of the other
/// coordinators were caught up with.
#[derive(Drop)]
pub(crate) struct Tables {
    pub(crate) outcomes: Outcomes,
    pub(crate) acceptor: Acceptor,
    pub(crate) gathers: Gathers,
    pub(crate) takeovers: Takeovers,
    pub(crate) votes: Votes,
    pub(crate) places: Places,
}

/// The tables, and the journal from which those that last are made again.
#[derive(Drop)]
pub(crate) struct Store<J: Journal> {
    pub(crate) tables: Tables,
    pub(crate) journal: J,
}

/// The ballot that was promised for the transaction, 0 where none was.
pub(crate) fn promise_for(promises: &Numbered<Ballot>, tx: TxId) -> Ballot
    ensures { result ≡ promise_of promises.now.table tx }
{
    match promises.get(tx) {
        Some(ballot) => *ballot,
        None => Ballot(0),
    }
}

/// Tables without entries.
pub(crate) fn new_tables(alloc: Global, cluster: &Cluster) -> Tables
    ensures durable { durable_of result ≡ new_durable }
    ensures volatile { volatile_of result ≡ new_volatile }
    ensures fit { Fits cluster.now result }
{
    Tables {
        outcomes: Outcomes::new(alloc),
        acceptor: Acceptor {
            promises: Numbered::new(alloc),
            accepted: Numbered::new(alloc),
        },
        gathers: Gathers::new(alloc),
        takeovers: Takeovers::new(alloc, cluster),
        votes: Votes::new(alloc, cluster.quorum()),
        places: Places::new(alloc),
    }
}

/// Forgets what is kept of the transaction while it is open.
pub(crate) fn forget(tables: &mut Tables, tx: TxId)
    ensures fit { (c : Layout) → Fits c tables.old → Fits c tables.new }
    ensures outcomes { tables.new.outcomes ≡ tables.old.outcomes }
    ensures acceptor { tables.new.acceptor ≡ tables.old.acceptor }
    ensures volatile { volatile_of tables.new ≡ forgotten (volatile_of tables.old) tx }
{
    tables.gathers.remove(tx);
    tables.takeovers.remove(tx);
    tables.votes.remove(tx);
}

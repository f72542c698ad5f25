// The tables that a log gives back.
ghost use Rattle.std.specs.Prelude.{◌≡◌, IfOk};
ghost use Rattle.rc_protocol.specs.Coordinator.{new_volatile};
ghost use Rattle.rc_coord.specs.Sites.{durable_of, volatile_of, Fits};

use crate::tables::{Acceptor, Tables};
use rc_catch::Outcomes;
use rc_coord_tables::{Gathers, Places, Takeovers, Votes};
use rc_ids::{Cluster, NoMemory, TxId};
use rc_node::Numbered;
use rc_record::CoordDurable;
use std::alloc::Global;
use std::collections::BTreeMap;

/// The values, by their transactions.
fn numbered_of<X: Drop>(alloc: Global, map: BTreeMap<TxId, X>) -> Result<Numbered<X>, NoMemory>
    ensures { IfOk result (λ numbered. numbered.table ≡ map.entries) }
{
    let mut numbered = Numbered::new(alloc);
    numbered.room(map.len())?;
    for (tx, value) in map {
        numbered.put(tx, value);
    }
    Ok(numbered)
}

/// The outcomes, in the order in which they were learned.
fn outcomes_of(alloc: Global, known: rc_record::Outcomes) -> Result<Outcomes, NoMemory>
    ensures { IfOk result (λ outcomes. outcomes.entries ≡ known) }
{
    let mut outcomes = Outcomes::new(alloc);
    let list = known.into_map();
    outcomes.room(list.len())?;
    for (tx, decision) in list {
        outcomes.push(tx, decision)?;
    }
    Ok(outcomes)
}

/// The tables that a log gives back, and nothing that a stop loses.
pub(crate) fn tables_of(
    alloc: Global,
    cluster: &Cluster,
    durable: CoordDurable,
) -> Result<Tables, NoMemory>
    ensures durable { IfOk result (λ tables. durable_of tables ≡ durable) }
    ensures volatile { IfOk result (λ tables. volatile_of tables ≡ new_volatile) }
    ensures fit { IfOk result (λ tables. Fits cluster.now tables) }
{
    let promises = numbered_of(alloc, durable.promises.into_map())?;
    let accepted = numbered_of(alloc, durable.accepted.into_map())?;
    let outcomes = outcomes_of(alloc, durable.outcomes)?;
    Ok(Tables {
        outcomes,
        acceptor: Acceptor { promises, accepted },
        gathers: Gathers::new(alloc),
        takeovers: Takeovers::new(alloc, cluster),
        votes: Votes::new(alloc, cluster.quorum()),
        places: Places::new(alloc),
    })
}

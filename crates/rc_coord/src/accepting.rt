// A decision is accepted.
ghost use Rattle.std.specs.Prelude.{◌≡◌, ◌≤◌, false, OnOk, IfOk, IfErr};
ghost use Rattle.rc_record.specs.declared.record.Record.TheVariants.{Accepted};
ghost use Rattle.rc_record.specs.CoordState.{promise_of};
ghost use Rattle.rc_record.specs.Spelling.{record_bytes};
ghost use Rattle.rc_protocol.specs.Coordinator.{accepts};
ghost use Rattle.rc_node.specs.Acts.{Acts, Refuses, coord_does};
ghost use Rattle.rc_coord.specs.Sites.{site_of, Fits};

use crate::home::Home;
use crate::posting::post_vote;
use crate::tables::Store;
use rc_body::Decision;
use rc_ids::{Ballot, Blob, NoMemory, TxId};
use rc_log::Journal;
use rc_msg::Outbox;
use rc_node::{NodeFault, append};
use rc_record::{Record, encode};
use std::alloc::Global;

/// The bytes of the record of what is accepted.
fn accepted_bytes(
    alloc: Global,
    tx: TxId,
    ballot: Ballot,
    decision: &Decision,
) -> Result<Blob, NoMemory>
    ensures { IfOk result (λ bytes. bytes ≡ record_bytes (Accepted tx ballot decision.now)) }
{
    encode(alloc, &Record::Accepted(tx, ballot, decision.copy()?))
}

/// Accepts the decision at the ballot, above which nothing was promised, and votes. The gathers stay as they are.
pub(crate) fn accept<J: Journal>(
    home: &Home,
    store: &mut Store<J>,
    tx: TxId,
    ballot: Ballot,
    decision: &Decision,
    out: &mut Outbox,
) -> Result<(), NodeFault>
    requires sound { (J.state store.old.journal).failed ≡ false }
    requires may { promise_of store.old.tables.acceptor.promises.table tx ≤ ballot }
    requires fit { Fits home.now.cluster store.old.tables }
    ensures fit { Fits home.now.cluster store.new.tables }
    ensures gathers { store.new.tables.gathers ≡ store.old.tables.gathers }
    ensures ok { let old = site_of J.state store.old out.old in
        OnOk result (Acts old (site_of J.state store.new out.new) (coord_does old.durable (accepts home.now.cluster home.now.dc old.volatile tx ballot decision.now))) }
    ensures err { let old = site_of J.state store.old out.old in
        IfErr result (λ fault. Refuses fault (J.may_leave store.new.journal) old (site_of J.state store.new out.new) (coord_does old.durable (accepts home.now.cluster home.now.dc old.volatile tx ballot decision.now))) }
{
    let before = out.len();
    let kept = decision.copy()?;
    let bytes = accepted_bytes(home.alloc, tx, ballot, decision)?;
    store.tables.acceptor.promises.room(1)?;
    store.tables.acceptor.accepted.room(1)?;
    post_vote(&home.cluster, home.dc, tx, ballot, decision, out)?;
    match append(&mut store.journal, bytes.as_bytes()) {
        Ok(()) => {
            store.tables.acceptor.promises.put(tx, ballot);
            store.tables.acceptor.accepted.put(tx, (ballot, kept));
            Ok(())
        }
        Err(fault) => {
            out.cut(before);
            Err(fault)
        }
    }
}

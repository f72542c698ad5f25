// An outcome is learned.
ghost use Rattle.std.specs.Prelude.{◌≡◌, None, true, false, is_some, [], ◌∷◌, IsOk, OnOk, IfOk, IfErr};
ghost use Rattle.rc_record.specs.declared.record.Record.TheVariants.{Decided as OutcomeRecord};
ghost use Rattle.rc_record.specs.CoordState.{outcome_of};
ghost use Rattle.rc_record.specs.Spelling.{record_bytes};
ghost use Rattle.rc_protocol.specs.Coordinator.{coord_learns, on_decided};
ghost use Rattle.rc_node.specs.Acts.{Acts, Refuses, coord_does};
ghost use Rattle.rc_coord.specs.Sites.{site_of, Fits};

use crate::home::Home;
use crate::posting::post_whole;
use crate::tables::{Store, forget};
use rc_body::{Decision, Page};
use rc_ids::{Blob, NoMemory, TxId};
use rc_log::Journal;
use rc_msg::Outbox;
use rc_node::{NodeFault, append};
use rc_record::{Record, encode};
use std::alloc::Global;

/// The bytes of the record of an outcome.
fn outcome_bytes(alloc: Global, tx: TxId, decision: &Decision) -> Result<Blob, NoMemory>
    ensures { IfOk result (λ bytes. bytes ≡ record_bytes (OutcomeRecord ((tx, decision.now) ∷ []))) }
{
    encode(
        alloc,
        &Record::Decided(Page::one(alloc, tx, decision.copy()?)?),
    )
}

/// Learns the outcome of a transaction, of which none was known.
pub(crate) fn learn<J: Journal>(
    home: &Home,
    store: &mut Store<J>,
    tx: TxId,
    decision: &Decision,
    out: &mut Outbox,
) -> Result<(), NodeFault>
    requires sound { (J.state store.old.journal).failed ≡ false }
    requires open { outcome_of store.old.tables.outcomes.entries tx ≡ None }
    requires fit { Fits home.now.cluster store.old.tables }
    ensures fit { Fits home.now.cluster store.new.tables }
    ensures ok { let old = site_of J.state store.old out.old in
        OnOk result (Acts old (site_of J.state store.new out.new) (coord_does old.durable (coord_learns home.now.cluster home.now.dc old.volatile tx decision.now))) }
    ensures err { let old = site_of J.state store.old out.old in
        IfErr result (λ fault. Refuses fault (J.may_leave store.new.journal) old (site_of J.state store.new out.new) (coord_does old.durable (coord_learns home.now.cluster home.now.dc old.volatile tx decision.now))) }
{
    let before = out.len();
    let kept = decision.copy()?;
    let bytes = outcome_bytes(home.alloc, tx, decision)?;
    store.tables.outcomes.room(1)?;
    post_whole(&home.cluster, home.dc, tx, decision, out)?;
    match append(&mut store.journal, bytes.as_bytes()) {
        Ok(()) => {
            store.tables.outcomes.push(tx, kept).unwrap();
            forget(&mut store.tables, tx);
            Ok(())
        }
        Err(fault) => {
            out.cut(before);
            Err(fault)
        }
    }
}

/// The row of an outcome: it is learned, if none was known.
pub(crate) fn decided<J: Journal>(
    home: &Home,
    store: &mut Store<J>,
    tx: TxId,
    decision: &Decision,
    out: &mut Outbox,
) -> Result<(), NodeFault>
    requires sound { (J.state store.old.journal).failed ≡ false }
    requires fit { Fits home.now.cluster store.old.tables }
    ensures fit { Fits home.now.cluster store.new.tables }
    ensures ok { let old = site_of J.state store.old out.old in
        OnOk result (Acts old (site_of J.state store.new out.new) (coord_does old.durable (on_decided home.now.cluster home.now.dc old.durable old.volatile tx decision.now))) }
    ensures err { let old = site_of J.state store.old out.old in
        IfErr result (λ fault. Refuses fault (J.may_leave store.new.journal) old (site_of J.state store.new out.new) (coord_does old.durable (on_decided home.now.cluster home.now.dc old.durable old.volatile tx decision.now))) }
    ensures ignored { is_some (outcome_of store.old.tables.outcomes.entries tx) ≡ true → IsOk result }
{
    if store.tables.outcomes.get(tx).is_some() {
        return Ok(());
    }
    learn(home, store, tx, decision, out)
}

// The row of a prepare.
ghost use Rattle.std.specs.Prelude.{◌≡◌, None, false, is_some, OnOk, OnErr, IfOk, IfErr, IsOk, true};
ghost use Rattle.std.specs.Ordering.{nat_cmp};
ghost use Rattle.rc_ids.specs.Tables.{found};
ghost use Rattle.rc_msg.specs.Posts.{posted_all, Grows};
ghost use Rattle.rc_record.specs.declared.record.Record.TheVariants.{Prepared as PartPrepared};
ghost use Rattle.rc_record.specs.Spelling.{record_bytes};
ghost use Rattle.rc_protocol.specs.Shard.{answers, on_prepare};
ghost use Rattle.rc_locks.specs.LockSets.{tested};
ghost use Rattle.rc_locks.specs.declared.answers.Answer.TheVariants.{Yes};
ghost use Rattle.rc_node.specs.Acts.{Acts, Refuses, shard_does};
ghost use Rattle.rc_shard.specs.Rows.{prepares};
ghost use Rattle.rc_shard.specs.Sites.{site_of};

use crate::answering::post_answer;
use crate::home::Home;
use crate::tables::Tables;
use rc_body::Body;
use rc_ids::{Blob, NoMemory, TxId};
use rc_locks::{Answer, LockTable};
use rc_log::Journal;
use rc_msg::Outbox;
use rc_node::{NodeFault, append};
use rc_record::encode_prepared;

/// Makes all that the part needs: a copy of it, room for it, and the bytes of its record; and answers yes. Or leaves all as before.
fn get_ready<L: LockTable>(
    home: &Home,
    tables: &mut Tables<L>,
    tx: TxId,
    part: &Body,
    out: &mut Outbox,
) -> Result<(Body, Blob), NoMemory>
    ensures rows { tables.new.versions ≡ tables.old.versions }
    ensures locks { L.state tables.new.locks ≡ L.state tables.old.locks }
    ensures finished { tables.new.finished ≡ tables.old.finished }
    ensures place { tables.new.place ≡ tables.old.place }
    ensures part { IfOk result (λ ready. ready.0 ≡ part.now) }
    ensures bytes { IfOk result (λ ready. ready.1 ≡ record_bytes (PartPrepared tx part.now)) }
    ensures room { OnOk result (L.has_room tables.new.locks tx part.now) }
    ensures sends { OnOk result (out.new ≡ posted_all out.old (answers home.now.dc home.now.shard tx None)) }
    ensures grows { Grows out.old out.new }
    ensures err { OnErr result (out.new ≡ out.old) }
{
    let kept = part.copy()?;
    let bytes = encode_prepared(home.alloc, tx, part)?;
    tables.locks.room(tx, part)?;
    post_answer(home, tx, None, out)?;
    Ok((kept, bytes))
}

/// Prepares the part, which passed the test, and answers yes.
fn keep_part<J: Journal, L: LockTable>(
    home: &Home,
    tables: &mut Tables<L>,
    journal: &mut J,
    tx: TxId,
    part: &Body,
    out: &mut Outbox,
) -> Result<(), NodeFault>
    requires sound { (J.state journal.old).failed ≡ false }
    requires absent { found nat_cmp (L.state tables.old.locks).parts tx ≡ None }
    requires tested { tested (L.state tables.old.locks) tables.old.versions.rows tx part.now ≡ Yes }
    ensures ok { let old = site_of L.state tables.old (J.state journal.old) out.old in
        OnOk result (Acts old (site_of L.state tables.new (J.state journal.new) out.new) (shard_does old.durable (prepares home.now.dc home.now.shard old.volatile tx part.now))) }
    ensures err { let old = site_of L.state tables.old (J.state journal.old) out.old in
        IfErr result (λ fault. Refuses fault (J.may_leave journal.new) old (site_of L.state tables.new (J.state journal.new) out.new) (shard_does old.durable (prepares home.now.dc home.now.shard old.volatile tx part.now))) }
{
    let before = out.len();
    let (kept, bytes) = get_ready(home, tables, tx, part, out)?;
    match append(journal, bytes.as_bytes()) {
        Ok(()) => {
            tables.locks.prepare(tx, kept);
            Ok(())
        }
        Err(fault) => {
            out.cut(before);
            Err(fault)
        }
    }
}

/// The row of a prepare: yes, or no with a reason.
pub(crate) fn prepare<J: Journal, L: LockTable>(
    home: &Home,
    tables: &mut Tables<L>,
    journal: &mut J,
    tx: TxId,
    part: &Body,
    out: &mut Outbox,
) -> Result<(), NodeFault>
    requires sound { (J.state journal.old).failed ≡ false }
    ensures ok { let old = site_of L.state tables.old (J.state journal.old) out.old in
        OnOk result (Acts old (site_of L.state tables.new (J.state journal.new) out.new) (shard_does old.durable (on_prepare home.now.dc home.now.shard old.durable old.volatile tx part.now))) }
    ensures err { let old = site_of L.state tables.old (J.state journal.old) out.old in
        IfErr result (λ fault. Refuses fault (J.may_leave journal.new) old (site_of L.state tables.new (J.state journal.new) out.new) (shard_does old.durable (on_prepare home.now.dc home.now.shard old.durable old.volatile tx part.now))) }
    ensures ignored { is_some (found nat_cmp tables.old.finished.table tx) ≡ true → IsOk result }
{
    if tables.finished.has(tx) {
        return Ok(());
    }
    if tables.locks.prepared(tx).is_some() {
        post_answer(home, tx, None, out)?;
        return Ok(());
    }
    match tables.locks.test(tx, part, &tables.versions) {
        Answer::Yes => keep_part(home, tables, journal, tx, part, out),
        Answer::No(reason) => {
            post_answer(home, tx, Some(reason), out)?;
            Ok(())
        }
    }
}

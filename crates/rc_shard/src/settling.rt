// A page of outcomes is settled: all that it needs is made and its messages are posted, then its record is written, and then the tables
// change.
ghost use Rattle.std.specs.Prelude.{◌≡◌, ◌≤◌, false, length, map, OnOk, OnErr, IfOk, IfErr};
ghost use Rattle.rc_msg.specs.Posts.{posted_all, Grows};
ghost use Rattle.rc_record.specs.declared.record.Record.TheVariants.{Finished};
ghost use Rattle.rc_record.specs.Spelling.{record_bytes};
ghost use Rattle.rc_protocol.specs.Shard.{grant_of, finishes_page, then_says};
ghost use Rattle.rc_locks.specs.LockSets.{freed, without_all};
ghost use Rattle.rc_node.specs.Acts.{Acts, Refuses, shard_does};
ghost use Rattle.rc_shard.specs.Plans.{newest_all, writes_of, txs_of, outcomes_of, AreNew};
ghost use Rattle.rc_shard.specs.Rows.{asks};
ghost use Rattle.rc_shard.specs.Sites.{site_of};

use crate::answering::post_ask;
use crate::applying::{apply, make_room};
use crate::grants::post_grants;
use crate::home::Home;
use crate::plan::Plan;
use crate::tables::Tables;
use rc_body::Page;
use rc_ids::{Blob, DcId, NoMemory};
use rc_locks::LockTable;
use rc_log::Journal;
use rc_msg::Outbox;
use rc_node::{NodeFault, append};
use rc_record::encode_finished;

/// Posts the grants of the reads that the plan frees, and asks for the next page.
fn post_settled<L: LockTable>(
    dc: DcId,
    tables: &Tables<L>,
    plan: &Plan,
    ask: Option<u32>,
    out: &mut Outbox,
) -> Result<(), NoMemory>
    ensures ok { OnOk result (let grants = map (grant_of dc (newest_all tables.now.versions.rows plan.now.writes.items)) (freed (without_all (L.state tables.now.locks) plan.now.txs.items)) in
        out.new ≡ posted_all (posted_all out.old grants) (asks dc ask)) }
    ensures grows { Grows out.old out.new }
{
    let freed = tables.locks.would_finish(&plan.txs)?;
    post_grants(dc, &tables.versions, &plan.writes, &freed, out)?;
    post_ask(dc, ask, out)
}

/// The same, or leaves all as before.
fn post_settled_whole<L: LockTable>(
    dc: DcId,
    tables: &Tables<L>,
    plan: &Plan,
    ask: Option<u32>,
    out: &mut Outbox,
) -> Result<(), NoMemory>
    ensures ok { OnOk result (let grants = map (grant_of dc (newest_all tables.now.versions.rows plan.now.writes.items)) (freed (without_all (L.state tables.now.locks) plan.now.txs.items)) in
        out.new ≡ posted_all (posted_all out.old grants) (asks dc ask)) }
    ensures grows { Grows out.old out.new }
    ensures err { OnErr result (out.new ≡ out.old) }
{
    let before = out.len();
    match post_settled(dc, tables, plan, ask, out) {
        Ok(()) => Ok(()),
        Err(NoMemory) => {
            out.cut(before);
            Err(NoMemory)
        }
    }
}

/// Makes all that the outcomes of the page need: what they make of the tables and room for that, and the bytes of their record; and
/// posts their messages. Or leaves all as before.
fn get_ready<L: LockTable>(
    home: &Home,
    tables: &mut Tables<L>,
    page: &Page,
    ask: Option<u32>,
    out: &mut Outbox,
) -> Result<(Plan, Blob), NoMemory>
    ensures rows { tables.new.versions.rows ≡ tables.old.versions.rows }
    ensures locks { L.state tables.new.locks ≡ L.state tables.old.locks }
    ensures finished { tables.new.finished.table ≡ tables.old.finished.table }
    ensures place { tables.new.place ≡ tables.old.place }
    ensures txs { IfOk result (λ ready. ready.0.txs.items ≡ txs_of page.now) }
    ensures outcomes { IfOk result (λ ready. ready.0.outcomes.items ≡ outcomes_of page.now) }
    ensures writes { IfOk result (λ ready. ready.0.writes.items ≡ writes_of page.now) }
    ensures bytes { IfOk result (λ ready. ready.1 ≡ record_bytes (Finished page.now)) }
    ensures rows_room { IfOk result (λ ready. length ready.0.writes.items ≤ tables.new.versions.spare) }
    ensures locks_room { IfOk result (λ ready. L.has_finish_room tables.new.locks ready.0.txs.items) }
    ensures finished_room { IfOk result (λ ready. length ready.0.outcomes.items ≤ tables.new.finished.spare) }
    ensures sends { OnOk result (let grants = map (grant_of home.now.dc (newest_all tables.old.versions.rows (writes_of page.now))) (freed (without_all (L.state tables.old.locks) (txs_of page.now))) in
        out.new ≡ posted_all (posted_all out.old grants) (asks home.now.dc ask)) }
    ensures grows { Grows out.old out.new }
    ensures err { OnErr result (out.new ≡ out.old) }
{
    let plan = Plan::new(home.alloc, page)?;
    let bytes = encode_finished(home.alloc, page)?;
    make_room(tables, &plan)?;
    post_settled_whole(home.dc, tables, &plan, ask, out)?;
    Ok((plan, bytes))
}

/// Keeps the outcomes of the page, of which none is finished here, and asks for the next page, if there is one.
pub(crate) fn settle_page<J: Journal, L: LockTable>(
    home: &Home,
    tables: &mut Tables<L>,
    journal: &mut J,
    page: &Page,
    ask: Option<u32>,
    out: &mut Outbox,
) -> Result<(), NodeFault>
    requires sound { (J.state journal.old).failed ≡ false }
    requires new { AreNew tables.old.finished.table page.now }
    ensures ok { let old = site_of L.state tables.old (J.state journal.old) out.old in
        OnOk result (Acts old (site_of L.state tables.new (J.state journal.new) out.new) (shard_does old.durable (then_says (finishes_page home.now.dc old.durable old.volatile page.now) (asks home.now.dc ask)))) }
    ensures err { let old = site_of L.state tables.old (J.state journal.old) out.old in
        IfErr result (λ fault. Refuses fault (J.may_leave journal.new) old (site_of L.state tables.new (J.state journal.new) out.new) (shard_does old.durable (then_says (finishes_page home.now.dc old.durable old.volatile page.now) (asks home.now.dc ask)))) }
{
    let _entries = page.len();
    let before = out.len();
    let (plan, bytes) = get_ready(home, tables, page, ask, out)?;
    match append(journal, bytes.as_bytes()) {
        Ok(()) => {
            apply(tables, plan);
            Ok(())
        }
        Err(fault) => {
            out.cut(before);
            Err(fault)
        }
    }
}

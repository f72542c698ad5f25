// The rows of a read.
ghost use Rattle.std.specs.Prelude.{◌≡◌, [], ◌∷◌, true, OnOk, OnErr, IsOk};
ghost use Rattle.rc_protocol.specs.Shard.{ignores_ask, on_read_ask, on_read_cancel, shard_says, locks_plain, grant_of};
ghost use Rattle.rc_locks.specs.LockSets.{asked};
ghost use Rattle.rc_locks.specs.declared.answers.Asked.TheVariants.{Granted};
ghost use Rattle.rc_node.specs.Acts.{Tells, shard_does};
ghost use Rattle.rc_shard.specs.Sites.{view_of};

use crate::grants::post_grant;
use crate::tables::Tables;
use rc_ids::{DcId, Key, NoMemory, TxId};
use rc_locks::{Asked, LockTable};
use rc_msg::Outbox;

/// Grants the read, which nothing keeps from it; or leaves all as before.
fn grant<L: LockTable>(
    dc: DcId,
    tables: &mut Tables<L>,
    tx: TxId,
    key: &Key,
    out: &mut Outbox,
) -> Result<(), NoMemory>
    requires { asked (L.state tables.old.locks) tx key.now ≡ Granted }
    ensures ok { let old = view_of L.state tables.old out.old in
        OnOk result (Tells old (view_of L.state tables.new out.new) (shard_does old.durable (shard_says (locks_plain old.volatile (key.now, tx)) (grant_of dc old.durable.rows (key.now, tx) ∷ [])))) }
    ensures err { OnErr result (view_of L.state tables.new out.new ≡ view_of L.state tables.old out.old) }
{
    let before = out.len();
    post_grant(dc, &tables.versions, &[], &(key.copy(), tx), out)?;
    match tables.locks.ask(tx, key) {
        Ok(_) => Ok(()),
        Err(NoMemory) => {
            out.cut(before);
            Err(NoMemory)
        }
    }
}

/// The row of a read: it is granted, or waits. Or all stays as before.
pub(crate) fn read_ask<L: LockTable>(
    dc: DcId,
    tables: &mut Tables<L>,
    tx: TxId,
    key: &Key,
    out: &mut Outbox,
) -> Result<(), NoMemory>
    ensures ok { let old = view_of L.state tables.old out.old in
        OnOk result (Tells old (view_of L.state tables.new out.new) (shard_does old.durable (on_read_ask dc old.durable old.volatile tx key.now))) }
    ensures err { OnErr result (view_of L.state tables.new out.new ≡ view_of L.state tables.old out.old) }
    ensures ignored { let old = view_of L.state tables.old out.old in
        ignores_ask old.durable old.volatile tx key.now ≡ true → IsOk result }
{
    if tables.finished.has(tx) {
        return Ok(());
    }
    match tables.locks.would_ask(tx, key) {
        Asked::Ignored => Ok(()),
        Asked::Granted => grant(dc, tables, tx, key, out),
        Asked::Waits => {
            tables.locks.ask(tx, key)?;
            Ok(())
        }
    }
}

/// The row of a read that is taken back. It takes no memory.
pub(crate) fn read_cancel<L: LockTable>(tables: &mut Tables<L>, tx: TxId, key: &Key, out: &Outbox)
    ensures { let old = view_of L.state tables.old out.now in
        Tells old (view_of L.state tables.new out.now) (shard_does old.durable (on_read_cancel old.volatile tx key.now)) }
{
    let _all = out.len();
    tables.locks.cancel(tx, key);
}

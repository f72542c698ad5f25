// What a shard tells those that read.
ghost use Rattle.std.specs.Prelude.{◌≡◌, map, IfOk, OnOk, OnErr};
ghost use Rattle.std.specs.Option.{option_copied};
ghost use Rattle.rc_protocol.specs.Shard.{grant_of};
ghost use Rattle.rc_msg.specs.Outboxes.{posted};
ghost use Rattle.rc_shard.specs.Plans.{newest_all};
ghost use Rattle.rc_msg.specs.Posts.{posted_all, Grows};

use crate::rows::{Write, row_after};
use rc_ids::{DcId, Key, NoMemory, Party, TxId, Val};
use rc_msg::{Msg, Outbox};
use rc_versions::Versions;

fn copied(value: Option<&Val>) -> Result<Option<Val>, NoMemory>
    ensures { IfOk result (λ copy. copy ≡ option_copied value.entry) }
{
    match value {
        Some(value) => Ok(Some(value.copy()?)),
        None => Ok(None),
    }
}

/// Tells the client that reads the key what this datacentre has there, once these writes are done. Or leaves all as before.
pub(crate) fn post_grant(
    dc: DcId,
    versions: &Versions,
    writes: &[Write],
    mark: &(Key, TxId),
    out: &mut Outbox,
) -> Result<(), NoMemory>
    ensures ok { OnOk result (out.new ≡ posted out.old (grant_of dc (newest_all versions.now.rows writes.now) mark.now).0 (grant_of dc (newest_all versions.now.rows writes.now) mark.now).1) }
    ensures err { OnErr result (out.new ≡ out.old) }
{
    let row = row_after(versions, writes, &mark.0);
    let grant = Msg::Granted(mark.1, mark.0.copy(), dc, row.version, copied(row.value)?);
    out.push(Party::Client(mark.1), &grant)
}

/// Tells each of these clients.
pub(crate) fn post_grants(
    dc: DcId,
    versions: &Versions,
    writes: &[Write],
    marks: &[(Key, TxId)],
    out: &mut Outbox,
) -> Result<(), NoMemory>
    ensures ok { OnOk result (out.new ≡ posted_all out.old (map (grant_of dc (newest_all versions.now.rows writes.now)) marks.now)) }
    ensures grows { Grows out.old out.new }
{
    for mark in marks {
        post_grant(dc, versions, writes, mark, out)?;
    }
    Ok(())
}

// What a shard server does at a message.
ghost use Rattle.std.specs.Prelude.{◌≡◌, false, true, IsOk, OnOk, IfErr};
ghost use Rattle.rc_ids.specs.Cluster.{is_dc as has_dc};
ghost use Rattle.rc_protocol.specs.Shard.{shard_row};
ghost use Rattle.rc_node.specs.Acts.{Acts, Refuses, shard_does};
ghost use Rattle.rc_shard.specs.Rows.{needs_none};
ghost use Rattle.rc_shard.specs.Sites.{site_of};

use crate::finishing::{catch_page, finish};
use crate::home::Home;
use crate::preparing::prepare;
use crate::reading::{read_ask, read_cancel};
use crate::tables::Tables;
use rc_ids::{Cluster, DcId};
use rc_locks::LockTable;
use rc_log::Journal;
use rc_msg::{Msg, Outbox};
use rc_node::NodeFault;

/// Whether the datacentre is of the cluster.
fn is_dc(cluster: &Cluster, dc: DcId) -> bool
    ensures { result ≡ has_dc cluster.now dc }
{
    1 <= dc.0 && dc.0 <= cluster.dcs()
}

/// The row of the message.
pub(crate) fn act<J: Journal, L: LockTable>(
    home: &Home,
    tables: &mut Tables<L>,
    journal: &mut J,
    msg: &Msg,
    out: &mut Outbox,
) -> Result<(), NodeFault>
    requires sound { (J.state journal.old).failed ≡ false }
    ensures ok { let old = site_of L.state tables.old (J.state journal.old) out.old in
        OnOk result (Acts old (site_of L.state tables.new (J.state journal.new) out.new) (shard_does old.durable (shard_row home.now.cluster home.now.dc home.now.shard old.durable old.volatile msg.now))) }
    ensures err { let old = site_of L.state tables.old (J.state journal.old) out.old in
        IfErr result (λ fault. Refuses fault (J.may_leave journal.new) old (site_of L.state tables.new (J.state journal.new) out.new) (shard_does old.durable (shard_row home.now.cluster home.now.dc home.now.shard old.durable old.volatile msg.now))) }
    ensures ignored { let old = site_of L.state tables.old (J.state journal.old) out.old in
        needs_none home.now.cluster old.durable old.volatile msg.now ≡ true → IsOk result }
{
    match msg {
        Msg::ReadAsk(tx, key) => {
            read_ask(home.dc, tables, *tx, key, out)?;
            Ok(())
        }
        Msg::ReadCancel(tx, key) => {
            read_cancel(tables, *tx, key, out);
            Ok(())
        }
        Msg::Prepare(tx, part) => prepare(home, tables, journal, *tx, part, out),
        Msg::Finish(tx, decision) => finish(home, tables, journal, *tx, decision, out),
        Msg::CatchPage(from, place, page) => {
            if !is_dc(&home.cluster, *from) {
                return Ok(());
            }
            catch_page(home, tables, journal, *place, page, out)
        }
        _ => Ok(()),
    }
}

// Each message and its row.
ghost use Rattle.std.specs.Prelude.{◌≡◌, IsTrue, IfOk, IsErrOf};
ghost use Rattle.rc_ids.specs.Cluster.{is_dc};
ghost use Rattle.rc_protocol.specs.Coordinator.{coord_row};
ghost use Rattle.rc_plain_coord.specs.Rows.{Does, Spares};
ghost use Rattle.rc_plain_coord.specs.declared.fault.CoordFault.TheVariants.{BallotsSpent};

use crate::CoordFault;
use crate::acceptor::on_ask;
use crate::catching::{on_catch_ask, on_catch_page};
use crate::overtaking::{on_abandon, on_promise};
use crate::proposals::{on_prepared, on_propose};
use crate::volatile::Volatile;
use crate::voting::{on_decided, on_voted};
use rc_ids::{Cluster, DcId, Party};
use rc_msg::{Messages, Msg};
use rc_record::{CoordDurable, Record};
use std::alloc::Global;

/// Does the row of the message, and gives the record that is to be written.
pub fn row(
    alloc: Global,
    cluster: &Cluster,
    dc: DcId,
    durable: &CoordDurable,
    volatile: &mut Volatile,
    from: &Party,
    msg: &Msg,
    out: &mut Messages,
) -> Result<Option<Record>, CoordFault>
    requires { IsTrue (is_dc cluster.now dc) }
    ensures ok { IfOk result (λ written. Does (coord_row cluster.now dc durable.now volatile.old from.now msg.now) written volatile.new out.old out.new) }
    ensures spent { IsErrOf result BallotsSpent → Spares (coord_row cluster.now dc durable.now volatile.old from.now msg.now) volatile.old volatile.new out.old out.new }
{
    match msg {
        Msg::Abandon(tx) => on_abandon(cluster, dc, durable, volatile, *tx, out),
        Msg::Propose(tx, ballot, decision) => Ok(on_propose(
            cluster, dc, durable, volatile, *tx, *ballot, decision, out,
        )?),
        Msg::Prepared(tx, shard, reason) => Ok(on_prepared(
            cluster, dc, durable, volatile, *tx, *shard, reason, out,
        )?),
        Msg::Ask(tx, ballot) => Ok(on_ask(cluster, dc, durable, volatile, *tx, *ballot, out)?),
        Msg::Promise(tx, ballot, other, report) => Ok(on_promise(
            cluster, durable, volatile, *tx, *ballot, *other, report, out,
        )?),
        Msg::Voted(tx, ballot, other, decision) => Ok(on_voted(
            alloc, cluster, dc, durable, volatile, *tx, *ballot, *other, decision, out,
        )?),
        Msg::Decided(tx, decision) => Ok(on_decided(
            alloc, cluster, dc, durable, volatile, *tx, decision, out,
        )?),
        Msg::CatchAsk(place) => Ok(on_catch_ask(alloc, dc, durable, volatile, from, *place, out)?),
        Msg::CatchPage(other, place, page) => Ok(on_catch_page(
            alloc, cluster, dc, durable, volatile, *other, *place, page, out,
        )?),
        _ => Ok(None),
    }
}

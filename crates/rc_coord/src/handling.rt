// What a coordinator does at a message.
ghost use Rattle.std.specs.Prelude.{◌≡◌, false, true, IsOk, IsTrue, OnOk, IfErr};
ghost use Rattle.rc_ids.specs.Cluster.{is_dc as is_of_world};
ghost use Rattle.rc_protocol.specs.Coordinator.{coord_row};
ghost use Rattle.rc_node.specs.Acts.{Acts, Refuses, coord_does};
ghost use Rattle.rc_coord.specs.Rows.{needs_none};
ghost use Rattle.rc_coord.specs.Sites.{site_of, volatile_of, durable_of, Fits};

use crate::asking::ask;
use crate::catching::{catch_ask, catch_page};
use crate::home::{Home, is_dc, is_shard};
use crate::learning::decided;
use crate::overtaking::overtake;
use crate::preparing::prepared;
use crate::promising::promise;
use crate::proposing::propose;
use crate::tables::Store;
use crate::voting::voted;
use rc_body::Reason;
use rc_ids::Party;
use rc_log::Journal;
use rc_msg::{Msg, Outbox};
use rc_node::NodeFault;

/// A copy of why a shard says no, if it does.
fn copy_of(reason: &Option<Reason>) -> Option<Reason>
    ensures { result ≡ reason.now }
{
    match reason {
        Some(reason) => Some(reason.copy()),
        None => None,
    }
}

/// The row of the message.
pub(crate) fn act<J: Journal>(
    home: &Home,
    store: &mut Store<J>,
    from: Party,
    msg: &Msg,
    out: &mut Outbox,
) -> Result<(), NodeFault>
    requires sound { (J.state store.old.journal).failed ≡ false }
    requires dc { IsTrue (is_of_world home.now.cluster home.now.dc) }
    requires fit { Fits home.now.cluster store.old.tables }
    ensures fit { Fits home.now.cluster store.new.tables }
    ensures ok { let old = site_of J.state store.old out.old in
        OnOk result (Acts old (site_of J.state store.new out.new) (coord_does old.durable (coord_row home.now.cluster home.now.dc old.durable old.volatile from msg.now))) }
    ensures err { let old = site_of J.state store.old out.old in
        IfErr result (λ fault. Refuses fault (J.may_leave store.new.journal) old (site_of J.state store.new out.new) (coord_does old.durable (coord_row home.now.cluster home.now.dc old.durable old.volatile from msg.now))) }
    ensures ignored { needs_none home.now.cluster home.now.dc (durable_of store.old.tables) (volatile_of store.old.tables) msg.now ≡ true → IsOk result }
{
    match msg {
        Msg::Propose(tx, ballot, decision) => propose(home, store, *tx, *ballot, decision, out),
        Msg::Prepared(tx, shard, reason) => {
            if !is_shard(&home.cluster, *shard) {
                return Ok(());
            }
            prepared(home, store, *tx, *shard, copy_of(reason), out)
        }
        Msg::Ask(tx, ballot) => ask(home, store, *tx, *ballot, out),
        Msg::Promise(tx, ballot, dc, report) => {
            if !is_dc(&home.cluster, *dc) {
                return Ok(());
            }
            promise(
                &home.cluster,
                &mut store.tables,
                *tx,
                *ballot,
                *dc,
                report,
                out,
            )?;
            Ok(())
        }
        Msg::Voted(tx, ballot, dc, decision) => {
            if !is_dc(&home.cluster, *dc) {
                return Ok(());
            }
            voted(home, store, *tx, *ballot, *dc, decision, out)
        }
        Msg::Decided(tx, decision) => decided(home, store, *tx, decision, out),
        Msg::Abandon(tx) => overtake(home, store, *tx, false, out),
        Msg::CatchAsk(place) => {
            catch_ask(home, &store.tables, from, *place, out)?;
            Ok(())
        }
        Msg::CatchPage(dc, place, page) => {
            if !is_dc(&home.cluster, *dc) {
                return Ok(());
            }
            catch_page(home, store, *dc, *place, page, out)
        }
        _ => Ok(()),
    }
}

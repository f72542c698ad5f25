// What a shard server tells its coordinator.
ghost use Rattle.std.specs.Prelude.{◌≡◌, OnOk, OnErr};
ghost use Rattle.rc_protocol.specs.Shard.{answers};
ghost use Rattle.rc_msg.specs.Posts.{posted_all, Grows};
ghost use Rattle.rc_shard.specs.Rows.{asks};

use crate::home::Home;
use rc_body::Reason;
use rc_ids::{DcId, NoMemory, NodeId, Party, TxId};
use rc_msg::{Msg, Outbox};

/// Answers a prepare: yes, or no with a reason. Or leaves all as before.
pub(crate) fn post_answer(
    home: &Home,
    tx: TxId,
    reason: Option<Reason>,
    out: &mut Outbox,
) -> Result<(), NoMemory>
    ensures ok { OnOk result (out.new ≡ posted_all out.old (answers home.now.dc home.now.shard tx reason)) }
    ensures grows { Grows out.old out.new }
    ensures err { OnErr result (out.new ≡ out.old) }
{
    out.push(
        Party::Node(NodeId::Coord(home.dc)),
        &Msg::Prepared(tx, home.shard, reason),
    )
}

/// Asks for the outcomes from this place on, if there is one. Or leaves all as before.
pub(crate) fn post_ask(dc: DcId, ask: Option<u32>, out: &mut Outbox) -> Result<(), NoMemory>
    ensures ok { OnOk result (out.new ≡ posted_all out.old (asks dc ask)) }
    ensures err { OnErr result (out.new ≡ out.old) }
{
    match ask {
        Some(place) => out.push(Party::Node(NodeId::Coord(dc)), &Msg::CatchAsk(place)),
        None => Ok(()),
    }
}

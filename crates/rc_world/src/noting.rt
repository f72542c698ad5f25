// The votes of coordinators enter the order.
ghost use Rattle.rc_order.specs.Orders.{HasRoom};
ghost use Rattle.rc_world.specs.Noted.{Notes};

use crate::votes::Vote;
use rc_ids::DcId;
use rc_order::{Order, count_laws};

/// Notes the vote that a datacentre's coordinator left in its log, if it left one. There is room for it.
pub(crate) fn note(order: &mut Order, dc: DcId, vote: Option<Vote>)
    requires { HasRoom order.old }
    ensures { Notes order.old order.new dc vote }
{
    count_laws();
    if let Some(vote) = vote {
        order.note(dc, vote.tx, vote.ballot);
    }
}

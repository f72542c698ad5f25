// The first read that one map does not explain.
ghost use Rattle.std.specs.Prelude.{◌≡◌, ◌<◌, ◌^◌, length, IfOk, IsNone, ◌↔◌};
ghost use Rattle.std.specs.Option.{option_map};
ghost use Rattle.rc_serial.specs.OneMap.{Explains, first_wrong};
ghost use Rattle.rc_serial.specs.Orders.{NoneServed, map_of, order_of, wrong_of};

use crate::versions::Versions;
use crate::{Committed, FirstWrong};
pub use rc_body::Rows as MapRows;
use rc_ids::NoMemory;
use std::alloc::Global;

/// Applies the transactions in their order to the map of these rows. The first read whose version that map does not have, by place
/// in the order and then in the order of the body; None where the map explains them all.
pub fn explain(
    alloc: Global,
    base: &MapRows,
    order: &[Committed],
) -> Result<Option<FirstWrong>, NoMemory>
    requires { length order.now < 2 ^ 32 }
    ensures first { IfOk result (λ wrong. option_map wrong_of wrong ≡ first_wrong (map_of base.now) 0 (order_of order.now)) }
    ensures none { IfOk result (λ wrong. IsNone wrong ↔ Explains (map_of base.now) (order_of order.now) NoneServed) }
{
    let mut versions = Versions::of(alloc, base)?;
    for (index, committed) in order.iter().enumerate() {
        if let Some(wrong) = versions.first_wrong(index as u32, &committed.body) {
            return Ok(Some(wrong));
        }
        versions.raise_all(&committed.body)?;
    }
    Ok(None)
}

// The slots of a farm, one for each node.
ghost use Rattle.std.specs.Prelude.{◌≡◌, ◌<◌, Bool, true, false, length};
ghost use Rattle.rc_disk.specs.Places.{Standing, Start};
ghost use Rattle.rc_disk.specs.Shelves.{Walked, is_node, place};

use rc_ids::NodeId;
use std::alloc::Global;

/// Where a farm keeps the disk of a node.
pub trait Slot: Drop {
    ghost stands: { Self → Standing };

    ghost start: { Self → Start };

    ghost is_lent: { Self → Bool };

    // What a selection makes of it, of the folder or of none.
    ghost selects: { Bool → Self → Self → Type 0 };

    /// Selects the disk of the folder, or an empty one, where the slot's disk is not lent.
    fn select(&mut self, alloc: Global, folder: bool)
        ensures { is_lent self.old ≡ false → selects folder self.old self.new };
}

/// Selects in each slot.
pub fn select_all<S: Slot>(alloc: Global, slots: &mut [S], folder: bool)
    ensures { Walked (λ x y. S.is_lent x ≡ false → S.selects folder x y) slots.old slots.new (length slots.old) }
{
    for slot in slots.iter_mut() {
        slot.select(alloc, folder);
    }
}

/// The place of a node's slot.
pub fn place_of(node: &NodeId) -> usize
    ensures place { result ≡ place node.now }
    ensures inside { result < 63 }
    ensures node { is_node node.now ≡ true }
{
    match node {
        NodeId::Coord(dc) => usize::from(dc.0) - 1,
        NodeId::Shard(dc, shard) => 7 + (8 * (usize::from(dc.0) - 1) + (usize::from(shard.0) - 1)),
    }
}

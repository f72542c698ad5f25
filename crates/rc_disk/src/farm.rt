// The place of the nodes' disks.
ghost use Rattle.std.specs.Prelude.{◌≡◌, ◌≢◌, ◌≤◌, ℕ, Bool, true, false, IfOk, OnOk, OnErr, IsNone, IsErrOf};
ghost use Rattle.rc_ports.specs.Causes.{Rose};
ghost use Rattle.rc_ids.specs.declared.names.NodeId.{NodeId as NodeName};
ghost use Rattle.rc_disk.specs.Places.{Standing, Start, standing, start_of, IsReady, IsFresh, HasLaterCounts};

use crate::Disk;
use rc_ids::NodeId;
use rc_ports::Word;
use thiserror::Error;

/// Why a farm refused a call.
#[derive(Clone, Copy, Debug, PartialEq, Eq, Error)]
pub enum DeviceRefusal {
    /// There was no memory.
    #[error("out of memory")]
    NoMemory,
    /// The farm failed. Its count of faults rose in that call.
    #[error("the place of the disks failed")]
    Failed,
}

/// The place of the nodes' disks. It lends them out.
pub trait Farm {
    type D: Disk;

    // Each node's disk, as it stands here. Of a lent one nothing is meant.
    ghost stands: { Self → NodeName → Standing };

    // The counts that each had right after the last selection.
    ghost start: { Self → NodeName → Start };

    ghost is_lent: { Self → NodeName → Bool };

    // How often a call failed. It never falls, and stands at its last value.
    ghost faults: { Self → ℕ };

    /// Selects the disks of a folder, or empty ones. After a refusal all is as before but the counts.
    fn select(&mut self, dir: Option<&Word>) -> Result<(), DeviceRefusal>
        requires { (n : NodeName) → is_lent self.old n ≡ false }
        ensures lent { (n : NodeName) → is_lent self.new n ≡ false }
        ensures start { OnOk result ((n : NodeName) → start self.new n ≡ start_of (stands self.new n)) }
        ensures ready { OnOk result ((n : NodeName) → IsReady (stands self.new n)) }
        ensures empty { OnOk result (IsNone dir.entry → (n : NodeName) → IsFresh (stands self.new n)) }
        ensures same { OnErr result ((n : NodeName) → stands self.new n ≡ stands self.old n) }
        ensures same_start { OnErr result ((n : NodeName) → start self.new n ≡ start self.old n) }
        ensures counts { (n : NodeName) → HasLaterCounts (stands self.old n) (stands self.new n) }
        ensures later { faults self.old ≤ faults self.new }
        ensures cause { IsErrOf result DeviceRefusal.Failed → Rose (faults self.old) (faults self.new) }
        ensures no_memory { IsErrOf result DeviceRefusal.NoMemory → faults self.new ≡ faults self.old };

    /// Lends out a node's disk.
    fn disk(&mut self, node: NodeId) -> Result<Self::D, DeviceRefusal>
        requires { is_lent self.old node ≡ false }
        ensures disk { IfOk result (λ d. stands self.old node ≡ standing (Self.D.told d) (Self.D.content d) (Self.D.power d) (Self.D.faults d) (Self.D.cuts d)) }
        ensures lent { OnOk result (is_lent self.new node ≡ true) }
        ensures not_lent { OnErr result (is_lent self.new node ≡ false) }
        ensures same { OnErr result (stands self.new node ≡ stands self.old node) }
        ensures others_lent { (n : NodeName) → n ≢ node → is_lent self.new n ≡ is_lent self.old n }
        ensures others { (n : NodeName) → n ≢ node → stands self.new n ≡ stands self.old n }
        ensures start { (n : NodeName) → start self.new n ≡ start self.old n }
        ensures later { faults self.old ≤ faults self.new }
        ensures cause { IsErrOf result DeviceRefusal.Failed → Rose (faults self.old) (faults self.new) }
        ensures no_memory { IsErrOf result DeviceRefusal.NoMemory → faults self.new ≡ faults self.old };

    /// Puts a node's disk back.
    fn back(&mut self, node: NodeId, disk: Self::D)
        requires { is_lent self.old node ≡ true }
        ensures disk { stands self.new node ≡ standing (Self.D.told disk) (Self.D.content disk) (Self.D.power disk) (Self.D.faults disk) (Self.D.cuts disk) }
        ensures lent { is_lent self.new node ≡ false }
        ensures others_lent { (n : NodeName) → n ≢ node → is_lent self.new n ≡ is_lent self.old n }
        ensures others { (n : NodeName) → n ≢ node → stands self.new n ≡ stands self.old n }
        ensures start { (n : NodeName) → start self.new n ≡ start self.old n }
        ensures faults { faults self.new ≡ faults self.old };
}

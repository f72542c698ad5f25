// A journal: a list of records that grows at its end.
ghost use Rattle.std.specs.Prelude.{◌≡◌, ◌↔◌, ◌<◌, ◌≤◌, ℕ, List, length, false, OnOk, IsErrOf, IsTrue, IfSome};
ghost use Rattle.rc_disk.specs.Crashes.{AddsNone, TakesTime, AtEachMoment};
ghost use Rattle.rc_log.specs.Records.{size_of};
ghost use Rattle.rc_log.specs.Append.{Leaves, LeavesEither};
ghost use Rattle.rc_log.specs.Journals.{State, Appends, Fails, would_pass_limit, with_cut};

use crate::AppendFault;
use rc_ids::NoMemory;

/// Where a node keeps its records.
pub trait Journal: Drop {
    ghost state: { Self → State };

    // An append of fewer bytes than these takes no memory.
    ghost spare: { Self → ℕ };

    // What a crash may leave of its disk now. Of one that has no disk nothing is claimed.
    ghost may_leave: { Self → List ℕ → Type 0 };

    // The moment, as a number that never falls.
    ghost moment: { Self → ℕ };

    // What a crash at a moment since that one might have left.
    ghost left_since: { Self → ℕ → List ℕ → Type 0 };

    /// Makes room, so that an append of at most so many bytes takes no memory.
    fn room(&mut self, len: usize) -> Result<(), NoMemory>
        ensures ok { OnOk result (len < spare self.new) }
        ensures same { state self.new ≡ state self.old }
        ensures crash { AddsNone (may_leave self.old) (may_leave self.new) }
        ensures time { TakesTime (moment self.old) (moment self.new) (left_since self.old) (left_since self.new) (may_leave self.new) };

    /// Adds a record at the end. Of a journal whose append failed nothing more is asked but to open it again.
    fn append(&mut self, bytes: &[u8]) -> Result<(), AppendFault>
        requires { (state self.old).failed ≡ false }

        // From then on a crash leaves the records with the new one.
        ensures done { OnOk result (Appends (state self.old) (state self.new) bytes.now) }
        ensures durable { OnOk result ((left : List ℕ) → may_leave self.new left → Leaves (state self.new).records left) }

        // A device call failed: a crash leaves the records with the new one or without.
        ensures failed { IsErrOf result AppendFault.Failed → Fails (state self.old) (state self.new) bytes.now }
        ensures either { IsErrOf result AppendFault.Failed → (left : List ℕ) → may_leave self.new left → LeavesEither (state self.old).records bytes.now left }

        ensures full { IsErrOf result AppendFault.Full ↔ IsTrue (would_pass_limit (state self.old) (length bytes.now)) }
        ensures full_same { IsErrOf result AppendFault.Full → state self.new ≡ state self.old }
        ensures no_memory { IsErrOf result AppendFault.NoMemory → spare self.old ≤ length bytes.now }
        ensures no_memory_same { IsErrOf result AppendFault.NoMemory → state self.new ≡ state self.old }

        // And so does a crash at any moment of the call.
        ensures any_moment { AtEachMoment (moment self.old) (moment self.new) (left_since self.old) (left_since self.new) (LeavesEither (state self.old).records bytes.now) };

    /// Whether an append failed.
    fn failed(&self) -> bool
        ensures { result ≡ (state self.now).failed };

    /// How many records it was opened with or were added.
    fn count(&self) -> u64
        ensures { result ≡ (state self.now).count };

    /// Arms a cut of its disk's power at the k-th call from now, if it has a disk.
    fn power_cut(&mut self, k: u64, pick: u8)
        requires call { 1 ≤ k }
        requires pick { pick ≤ 3 }
        ensures armed { state self.new ≡ with_cut k pick (state self.old) }
        ensures spare { spare self.new ≡ spare self.old }
        ensures crash { AddsNone (may_leave self.old) (may_leave self.new) }
        ensures time { TakesTime (moment self.old) (moment self.new) (left_since self.old) (left_since self.new) (may_leave self.new) };

    // The count is that of the records, and the size is that of their frames.
    ghost counted: { (j : Self) → IfSome (state j).records (λ rs. (state j).count ≡ length rs) };

    ghost sized: { (j : Self) → (state j).failed ≡ false → IfSome (state j).records (λ rs. (state j).size ≡ size_of rs) };

    // Unless an append failed a crash leaves the records.
    ghost at_rest: { (j : Self) → (state j).failed ≡ false → (left : List ℕ) → may_leave j left → Leaves (state j).records left };

    // Since this moment there is no other.
    ghost no_other: { (j : Self) (left : List ℕ) → left_since j (moment j) left → may_leave j left };
}

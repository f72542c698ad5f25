// A disk: what a read gives, what a crash may leave, and what it tells of its calls.
ghost use Rattle.std.specs.Prelude.{◌≡◌, ◌+◌, ◌≤◌, max, List, ℕ, length, take, drop, Option, Some, OnOk, IfSome, IsTrue, is_ok, is_some};
ghost use Rattle.std.specs.Option.{option_map};
ghost use Rattle.rc_ports.specs.Causes.{HasCause};
ghost use Rattle.rc_disk.specs.Calls.{Told, Writes, Shortens, Syncs, effect, read_bytes, after, after_read, armed, powered, power_after, holds, is_on, cause_at};
ghost use Rattle.rc_disk.specs.Counts.{HasCuts, AreCounted, read_cause};
ghost use Rattle.rc_disk.specs.declared.power.Power.{Power as PowerState};
ghost use Rattle.rc_disk.specs.declared.power.Power.TheVariants.{On, Armed};
ghost use Rattle.rc_disk.specs.Crashes.{Patches, Trims, Stems, AddsNone, IsDurable, TakesTime};

use rc_ids::NoMemory;
use rc_ports::Failed;

/// A disk. A call that fails raises the count of faults, and that of cuts too exactly where its power was off or the
/// armed cut fell at that call. Counts never fall, and stand at their last value.
pub trait Disk: Drop {
    // What a read gives, where it is told. Whether it is told never changes.
    ghost content: { Self → Option (List ℕ) };

    // What a crash may leave now. Of a disk that does not tell its content nothing is claimed.
    ghost may_leave: { Self → List ℕ → Type 0 };

    // The moment, as a number that never falls.
    ghost moment: { Self → ℕ };

    // What a crash at a moment since that one, in a call or between two, might have left.
    ghost left_since: { Self → ℕ → List ℕ → Type 0 };

    // All its calls, where they are told.
    ghost told: { Self → Option Told };

    // Whether it has its power, and where a cut of it is armed. Of every disk, whatever it tells.
    ghost power: { Self → PowerState };

    ghost faults: { Self → ℕ };

    ghost cuts: { Self → ℕ };

    // How many more calls of `write_at`, `cut` and `sync` take no memory.
    ghost spare_calls: { Self → ℕ };

    // How many more bytes these may write.
    ghost spare_bytes: { Self → ℕ };

    ghost length_of: { Self → ℕ };

    /// How many bytes it has.
    fn len(&self) -> u64
        ensures { result ≡ length_of self.now };

    /// Reads as many bytes as the buffer has, from a place on.
    fn read(&mut self, place: u64, buf: &mut [u8]) -> Result<(), Failed>
        requires { place + length buf.old ≤ length_of self.old }
        ensures bytes { OnOk result (IfSome (content self.old) (λ all. buf.new ≡ take (length buf.old) (drop place all))) }
        ensures content { content self.new ≡ content self.old }
        ensures length { length_of self.new ≡ length_of self.old }
        ensures told { told self.new ≡ option_map (after_read (is_ok result)) (told self.old) }
        ensures power { power self.new ≡ power self.old }
        ensures on { OnOk result (IsTrue (is_on (power self.old))) }
        ensures crash { AddsNone (may_leave self.old) (may_leave self.new) }
        ensures time { TakesTime (moment self.old) (moment self.new) (left_since self.old) (left_since self.new) (may_leave self.new) }
        ensures spare_calls { spare_calls self.new ≡ spare_calls self.old }
        ensures spare_bytes { spare_bytes self.new ≡ spare_bytes self.old }
        ensures cause { HasCause (faults self.old) (faults self.new) result }
        ensures cuts { HasCuts (cuts self.old) (cuts self.new) result }
        ensures counts { AreCounted (read_cause (power self.old)) (is_ok result) (faults self.old) (faults self.new) (cuts self.old) (cuts self.new) };

    /// Writes over what is there, and past the end.
    fn write_at(&mut self, place: u64, bytes: &[u8]) -> Result<(), Failed>
        requires inside { place ≤ length_of self.old }
        requires calls { 1 ≤ spare_calls self.old }
        requires bytes { length bytes.now ≤ spare_bytes self.old }
        ensures done { OnOk result (content self.new ≡ option_map (effect (Writes place bytes.now)) (content self.old)) }
        ensures length { OnOk result (length_of self.new ≡ max (length_of self.old) (place + length bytes.now)) }
        ensures tells { is_some (content self.new) ≡ is_some (content self.old) }
        ensures told { told self.new ≡ option_map (after (Writes place bytes.now) (is_ok result)) (told self.old) }
        ensures power { power self.new ≡ power_after (power self.old) }
        ensures on { OnOk result (IsTrue (holds (power self.old))) }
        ensures crash { Stems (Patches place (length bytes.now)) (may_leave self.old) (may_leave self.new) }
        ensures time { TakesTime (moment self.old) (moment self.new) (left_since self.old) (left_since self.new) (may_leave self.new) }
        ensures spare_calls { spare_calls self.new + 1 ≡ spare_calls self.old }
        ensures spare_bytes { spare_bytes self.new + length bytes.now ≡ spare_bytes self.old }
        ensures cause { HasCause (faults self.old) (faults self.new) result }
        ensures cuts { HasCuts (cuts self.old) (cuts self.new) result }
        ensures counts { AreCounted (cause_at (power self.old)) (is_ok result) (faults self.old) (faults self.new) (cuts self.old) (cuts self.new) };

    /// Cuts the content to a length.
    fn cut(&mut self, len: u64) -> Result<(), Failed>
        requires inside { len ≤ length_of self.old }
        requires calls { 1 ≤ spare_calls self.old }
        ensures done { OnOk result (content self.new ≡ option_map (effect (Shortens len)) (content self.old)) }
        ensures length { OnOk result (length_of self.new ≡ len) }
        ensures tells { is_some (content self.new) ≡ is_some (content self.old) }
        ensures told { told self.new ≡ option_map (after (Shortens len) (is_ok result)) (told self.old) }
        ensures power { power self.new ≡ power_after (power self.old) }
        ensures on { OnOk result (IsTrue (holds (power self.old))) }
        ensures crash { Stems (Trims len) (may_leave self.old) (may_leave self.new) }
        ensures time { TakesTime (moment self.old) (moment self.new) (left_since self.old) (left_since self.new) (may_leave self.new) }
        ensures spare_calls { spare_calls self.new + 1 ≡ spare_calls self.old }
        ensures spare_bytes { spare_bytes self.new ≡ spare_bytes self.old }
        ensures cause { HasCause (faults self.old) (faults self.new) result }
        ensures cuts { HasCuts (cuts self.old) (cuts self.new) result }
        ensures counts { AreCounted (cause_at (power self.old)) (is_ok result) (faults self.old) (faults self.new) (cuts self.old) (cuts self.new) };

    /// After it a crash leaves what a read gives.
    fn sync(&mut self) -> Result<(), Failed>
        requires { 1 ≤ spare_calls self.old }
        ensures durable { OnOk result (IsDurable (content self.old) (may_leave self.new)) }
        ensures content { OnOk result (content self.new ≡ content self.old) }
        ensures length { OnOk result (length_of self.new ≡ length_of self.old) }
        ensures tells { is_some (content self.new) ≡ is_some (content self.old) }
        ensures told { told self.new ≡ option_map (after Syncs (is_ok result)) (told self.old) }
        ensures power { power self.new ≡ power_after (power self.old) }
        ensures on { OnOk result (IsTrue (holds (power self.old))) }
        ensures crash { AddsNone (may_leave self.old) (may_leave self.new) }
        ensures time { TakesTime (moment self.old) (moment self.new) (left_since self.old) (left_since self.new) (may_leave self.new) }
        ensures spare_calls { spare_calls self.new + 1 ≡ spare_calls self.old }
        ensures spare_bytes { spare_bytes self.new ≡ spare_bytes self.old }
        ensures cause { HasCause (faults self.old) (faults self.new) result }
        ensures cuts { HasCuts (cuts self.old) (cuts self.new) result }
        ensures counts { AreCounted (cause_at (power self.old)) (is_ok result) (faults self.old) (faults self.new) (cuts self.old) (cuts self.new) };

    /// Makes room for so many calls of `write_at`, `cut` and `sync`, which write at most so many bytes. No device call.
    fn room(&mut self, bytes: u64, calls: u32) -> Result<(), NoMemory>
        ensures calls { OnOk result (calls ≤ spare_calls self.new) }
        ensures bytes { OnOk result (bytes ≤ spare_bytes self.new) }
        ensures content { content self.new ≡ content self.old }
        ensures length { length_of self.new ≡ length_of self.old }
        ensures told { told self.new ≡ told self.old }
        ensures power { power self.new ≡ power self.old }
        ensures crash { AddsNone (may_leave self.old) (may_leave self.new) }
        ensures time { TakesTime (moment self.old) (moment self.new) (left_since self.old) (left_since self.new) (may_leave self.new) }
        ensures faults { faults self.new ≡ faults self.old }
        ensures cuts { cuts self.new ≡ cuts self.old };

    /// Arms a cut of the power at the k-th call of `write_at`, `cut` or `sync` from now.
    fn power_cut(&mut self, k: u64, pick: u8)
        requires call { 1 ≤ k }
        requires pick { pick ≤ 3 }
        ensures content { content self.new ≡ content self.old }
        ensures length { length_of self.new ≡ length_of self.old }
        ensures told { told self.new ≡ option_map (armed k pick) (told self.old) }
        ensures power { power self.new ≡ Armed k pick }
        ensures crash { AddsNone (may_leave self.old) (may_leave self.new) }
        ensures time { TakesTime (moment self.old) (moment self.new) (left_since self.old) (left_since self.new) (may_leave self.new) }
        ensures spare_calls { spare_calls self.new ≡ spare_calls self.old }
        ensures spare_bytes { spare_bytes self.new ≡ spare_bytes self.old }
        ensures faults { faults self.new ≡ faults self.old }
        ensures cuts { cuts self.new ≡ cuts self.old };

    /// Ends a cut of the power, and clears an armed one. A read gives what was left.
    fn power_on(&mut self)
        ensures content { IfSome (content self.new) (may_leave self.old) }
        ensures tells { is_some (content self.new) ≡ is_some (content self.old) }
        ensures told { told self.new ≡ option_map powered (told self.old) }
        ensures power { power self.new ≡ On }
        ensures crash { AddsNone (may_leave self.old) (may_leave self.new) }
        ensures time { TakesTime (moment self.old) (moment self.new) (left_since self.old) (left_since self.new) (may_leave self.new) }
        ensures spare_calls { spare_calls self.new ≡ spare_calls self.old }
        ensures spare_bytes { spare_bytes self.new ≡ spare_bytes self.old }
        ensures faults { faults self.new ≡ faults self.old }
        ensures cuts { cuts self.new ≡ cuts self.old };

    // A disk that tells its calls tells its content.
    ghost told_content: { (d : Self) → IfSome (told d) (λ t. content d ≡ Some (read_bytes t)) };

    // What it tells of its power is so.
    ghost told_power: { (d : Self) → IfSome (told d) (λ t. t.power ≡ power d) };

    // A crash may leave what a read gives.
    ghost may_stay: { (d : Self) → IfSome (content d) (may_leave d) };

    ghost has_length: { (d : Self) → IfSome (content d) (λ c. length_of d ≡ length c) };

    // This moment is one of those since an earlier one.
    ghost now_too: { (d : Self) (t : ℕ) (left : List ℕ) → t ≤ moment d → may_leave d left → left_since d t left };

    // Since this moment there is no other.
    ghost no_other: { (d : Self) (left : List ℕ) → left_since d (moment d) left → may_leave d left };
}

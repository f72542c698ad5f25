// The device calls of a log.
ghost use Rattle.std.specs.Prelude.{◌≡◌, ◌+◌, ◌<◌, ◌≤◌, ◌^◌, ◌++◌, ℕ, List, [], ◌∷◌, length, vec_capacity, OnOk, OnErr, IfErr, Some, is_some, IsTrue};
ghost use Rattle.std.specs.Option.{option_map};
ghost use Rattle.rc_ports.specs.Causes.{HasCause};
ghost use Rattle.rc_disk.specs.Calls.{Writes, effect, is_on};
ghost use Rattle.rc_disk.specs.Counts.{HasCuts};
ghost use Rattle.rc_disk.specs.Crashes.{AtEachMoment};
ghost use Rattle.rc_log.specs.Records.{behind_gate};
ghost use Rattle.rc_log.specs.Append.{listed, IsSettled, FailedAt, LeavesEither, append_calls, create_calls, all_done, power_past, AreStill};
ghost use Rattle.rc_log.specs.Opening.{IsNoBegin};

use crate::OpenFault;
use rc_disk::Disk;
use rc_ports::Failed;

const CLOSED: u8 = 0;

const OPEN: u8 = 1;

/// Fills the buffer with what stands behind the gate of the record: its length, the record and the next gate, closed.
fn fill(frame: &mut Vec<u8>, bytes: &[u8])
    requires room { length bytes.now + 5 ≤ vec_capacity frame.old }
    requires short { length bytes.now < 2 ^ 32 }
    ensures items { frame.new.items ≡ behind_gate bytes.now }
    ensures capacity { vec_capacity frame.old ≤ vec_capacity frame.new }
{
    let len = (bytes.len() as u32).to_be_bytes();
    frame.clear();
    frame.extend_from_slice(&len).unwrap();
    frame.extend_from_slice(bytes).unwrap();
    frame.push(CLOSED).unwrap();
}

/// Adds a record at the end of a log. The first device call that fails ends it.
pub fn append_at<D: Disk>(
    disk: &mut D,
    frame: &mut Vec<u8>,
    place: u64,
    bytes: &[u8],
) -> Result<(), Failed>
    requires settled { IsSettled (D.content disk.old) (D.may_leave disk.old) (D.told disk.old) (D.length_of disk.old) place }
    requires calls { 4 ≤ D.spare_calls disk.old }
    requires spare { length bytes.now + 6 ≤ D.spare_bytes disk.old }
    requires room { length bytes.now + 5 ≤ vec_capacity frame.old }
    requires fits { place + 6 + length bytes.now < 2 ^ 32 }

    ensures frame { frame.new.items ≡ behind_gate bytes.now }
    ensures capacity { vec_capacity frame.old ≤ vec_capacity frame.new }

    // All four calls are done, and the record is on the disk.
    ensures settled { OnOk result (IsSettled (D.content disk.new) (D.may_leave disk.new) (D.told disk.new) (D.length_of disk.new) (place + 5 + length bytes.now)) }
    ensures records { OnOk result (option_map listed (D.content disk.new) ≡ option_map (λ rs. rs ++ bytes.now ∷ []) (option_map listed (D.content disk.old))) }
    ensures content { OnOk result (D.content disk.new ≡ option_map (effect (Writes place (1 ∷ []))) (option_map (effect (Writes (place + 1) (behind_gate bytes.now))) (D.content disk.old))) }
    ensures told { OnOk result (D.told disk.new ≡ option_map (all_done (append_calls place bytes.now)) (D.told disk.old)) }
    ensures power { OnOk result (D.power disk.new ≡ power_past 4 (D.power disk.old)) }
    ensures on { OnOk result (IsTrue (is_on (D.power disk.new))) }
    ensures counts { OnOk result (AreStill (D.faults disk.old) (D.faults disk.new) (D.cuts disk.old) (D.cuts disk.new)) }

    // One failed.
    ensures failed { OnErr result (FailedAt (D.told disk.old) (D.told disk.new) (Some (D.power disk.old)) (Some (D.power disk.new)) (option_map listed (D.content disk.old)) place bytes.now
        (D.faults disk.old) (D.faults disk.new) (D.cuts disk.old) (D.cuts disk.new)) }

    ensures tells { is_some (D.content disk.new) ≡ is_some (D.content disk.old) }

    // A crash at any moment leaves the records as they were, with the new one or without.
    ensures any_moment { AtEachMoment (D.moment disk.old) (D.moment disk.new) (D.left_since disk.old) (D.left_since disk.new)
        (LeavesEither (option_map listed (D.content disk.old)) bytes.now) }
    ensures crash { (left : List ℕ) → D.may_leave disk.new left → LeavesEither (option_map listed (D.content disk.old)) bytes.now left }

    ensures cause { HasCause (D.faults disk.old) (D.faults disk.new) result }
    ensures cuts { HasCuts (D.cuts disk.old) (D.cuts disk.new) result }
{
    fill(frame, bytes);
    disk.write_at(place + 1, frame.as_slice())?;
    disk.sync()?;
    disk.write_at(place, &[OPEN])?;
    disk.sync()?;
    Ok(())
}

/// Begins a log on an empty disk: a closed gate, and a sync.
pub fn begin<D: Disk>(disk: &mut D) -> Result<(), OpenFault>
    requires { D.length_of disk.old ≡ 0 }
    ensures settled { OnOk result (IsSettled (D.content disk.new) (D.may_leave disk.new) (D.told disk.new) (D.length_of disk.new) 0) }
    ensures none { OnOk result (option_map listed (D.content disk.new) ≡ option_map (λ c. []) (D.content disk.old)) }
    ensures content { OnOk result (D.content disk.new ≡ option_map (λ c. 0 ∷ []) (D.content disk.old)) }
    ensures told { OnOk result (D.told disk.new ≡ option_map (all_done create_calls) (D.told disk.old)) }
    ensures power { OnOk result (D.power disk.new ≡ power_past 2 (D.power disk.old)) }
    ensures counts { OnOk result (AreStill (D.faults disk.old) (D.faults disk.new) (D.cuts disk.old) (D.cuts disk.new)) }
    ensures err { IfErr result (λ e. IsNoBegin e (D.told disk.old) (D.told disk.new) (D.power disk.old) (D.power disk.new) (D.faults disk.old) (D.faults disk.new) (D.cuts disk.old) (D.cuts disk.new)) }
    ensures later_faults { D.faults disk.old ≤ D.faults disk.new }
    ensures later_cuts { D.cuts disk.old ≤ D.cuts disk.new }
{
    disk.room(1, 2)?;
    disk.write_at(0, &[CLOSED])?;
    disk.sync()?;
    Ok(())
}

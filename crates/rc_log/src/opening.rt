// Opening a log: a sync, and a read of all.
ghost use Rattle.std.specs.Prelude.{◌≡◌, ◌≢◌, ◌≤◌, true, Ok, IfOk, IfErr, OnOk, OnErr, IfSome, IsErrOf, is_some};
ghost use Rattle.std.specs.Option.{option_map};
ghost use Rattle.rc_ports.specs.Causes.{Rose};
ghost use Rattle.rc_disk.specs.Crashes.{AddsNone, AtEachMoment};
ghost use Rattle.rc_log.specs.Records.{records, size_of};
ghost use Rattle.rc_log.specs.Append.{IsSettled, AreStill, power_past};
ghost use Rattle.rc_log.specs.Opening.{IsDamage, IsNoOpen, synced_and_read};
ghost use Rattle.rc_log.specs.declared.fault.OpenFault.TheVariants.{Failed as OpenFailed};

use crate::OpenFault;
use crate::reading::{read_records, read_whole};
use rc_disk::Disk;
use rc_ids::Blobs;
use std::alloc::Global;

/// The records of a disk's bytes, and the place of the gate behind them. The sync comes first, so that what is read
/// is what a later crash leaves.
pub fn open_records<D: Disk>(alloc: Global, disk: &mut D) -> Result<(Blobs, u64), OpenFault>
    ensures records { IfOk result (λ found. IfSome (D.content disk.old) (λ c. records c ≡ Ok found.0)) }
    ensures end { IfOk result (λ found. found.1 ≡ size_of found.0) }
    ensures settled { IfOk result (λ found. IsSettled (D.content disk.new) (D.may_leave disk.new) (D.told disk.new) (D.length_of disk.new) found.1) }
    ensures content { OnOk result (D.content disk.new ≡ D.content disk.old) }
    ensures told { OnOk result (D.told disk.new ≡ option_map (synced_and_read true) (D.told disk.old)) }
    ensures power { OnOk result (D.power disk.new ≡ power_past 1 (D.power disk.old)) }
    ensures counts { OnOk result (AreStill (D.faults disk.old) (D.faults disk.new) (D.cuts disk.old) (D.cuts disk.new)) }

    ensures damage { IfErr result (IsDamage (D.content disk.old)) }
    ensures refused { IfErr result (λ e. IsNoOpen (D.length_of disk.old) e (D.told disk.old) (D.told disk.new) (D.power disk.old) (D.power disk.new)
        (D.faults disk.old) (D.faults disk.new) (D.cuts disk.old) (D.cuts disk.new)) }
    ensures same { IfErr result (λ e. e ≢ OpenFailed → D.content disk.new ≡ D.content disk.old) }
    ensures cause { IsErrOf result OpenFault.Failed → Rose (D.faults disk.old) (D.faults disk.new) }

    // Nothing is written.
    ensures left { OnErr result (IfSome (D.content disk.new) (D.may_leave disk.old)) }
    ensures tells { is_some (D.content disk.new) ≡ is_some (D.content disk.old) }
    ensures crash { AddsNone (D.may_leave disk.old) (D.may_leave disk.new) }
    ensures any_moment { AtEachMoment (D.moment disk.old) (D.moment disk.new) (D.left_since disk.old) (D.left_since disk.new) (D.may_leave disk.old) }
    ensures later_faults { D.faults disk.old ≤ D.faults disk.new }
    ensures later_cuts { D.cuts disk.old ≤ D.cuts disk.new }
{
    disk.room(0, 1)?;
    disk.sync()?;
    let bytes = read_whole(alloc, disk)?;
    let found = read_records(alloc, bytes.as_slice())?;
    Ok(found)
}

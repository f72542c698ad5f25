//! Devices: a disk that tells its calls is a device of the run in the place that is read off its farm at the end, so that which calls of a
//! log fail, and what each leaves, is what the run says. Each law is the contract of a function that does nothing.
#![tactic(auto)]

ghost use Rattle.std.specs.Prelude.{ℕ, List};
ghost use Rattle.rc_disk.specs.declared.power.Power.TheVariants.{On};
ghost use Rattle.rc_disk.specs.Calls.{Told};
ghost use Rattle.rc_disk.specs.Places.{Start};
ghost use Rattle.rc_log.specs.Journals.{State};
ghost use Rattle.rc_runs.specs.Devices.{Device};
ghost use Rattle.rc_devices.specs.Disks.{IsDisk, IsLog};
ghost use Rattle.rc_devices.specs.Laws.{AppendsAreDevices, CutsAreDevices, OpeningsAreDevices, CreationsAreDevices};

/// An append is done, fails or finds its log full exactly as the device's append, and leaves the log of the device after it.
pub fn appends_are_devices()
    ensures { (begun : Start) (ended : Told) (log : State) (d : Device) (r : List ℕ) → IsLog begun ended log d → AppendsAreDevices begun ended log d r }
{}

/// A cut that is armed is the device's, and so is one that is over.
pub fn cuts_are_devices()
    ensures { (begun : Start) (ended : Told) (d : Device) → CutsAreDevices begun ended d }
{}

/// A log is opened, or cannot be, exactly as the device says.
pub fn openings_are_devices()
    ensures { (begun : Start) (ended told : Told) (d : Device) → IsDisk begun ended told On d → OpeningsAreDevices begun ended told d }
{}

/// A log is created, or cannot be, exactly as the device says.
pub fn creations_are_devices()
    ensures { (begun : Start) (ended told : Told) (d : Device) → IsDisk begun ended told On d → CreationsAreDevices begun ended told d }
{}

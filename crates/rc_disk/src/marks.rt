// The counts of a disk at a selection.
ghost use Rattle.std.specs.Prelude.{◌≡◌};
ghost use Rattle.rc_disk.specs.Places.{Start, start_of};

/// How many calls and reads were made, how many of them failed, and the counts of faults and cuts.
#[derive(Clone, Copy, Debug, PartialEq, Eq)]
pub struct Marks {
    pub told: Option<Tallied>,
    pub faults: u64,
    pub cuts: u64,
}

/// The numbers of a disk that tells its calls.
#[derive(Clone, Copy, Debug, PartialEq, Eq)]
pub struct Tallied {
    pub calls: u64,
    pub failed: u64,
    pub reads: u64,
    pub failed_reads: u64,
    pub off_reads: u64,
}

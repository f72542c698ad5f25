// How a call ended.
ghost use Rattle.std.specs.Prelude.{◌≡◌};
ghost use Rattle.rc_ports.specs.Status.{status_number};

/// How a top call or a program ended.
#[derive(Clone, Copy, Debug, PartialEq, Eq)]
pub enum Status {
    /// All was read, run and written.
    Done = 0,
    /// The words are none of the program's forms.
    BadWords = 2,
    /// The script or the workload breaks its rules.
    BadScript = 3,
    /// A counted quantity would have passed its limit.
    Limit = 4,
    /// The source failed.
    ReadFault = 5,
    /// The sink failed.
    WriteFault = 6,
    /// A disk or its place failed.
    FarmFault = 7,
    /// There was no memory.
    NoMemory = 8,
    /// A thread could not be begun.
    SpawnFault = 9,
    /// A log is damaged, or is of another world.
    BadLog = 10,
    /// Two answers that have to be the same differ.
    Disagreement = 12,
}

impl Status {
    /// The number with which a program exits.
    pub fn number(self) -> u8
        ensures { result ≡ status_number self }
    {
        self as u8
    }
}

// What is read from and written to.
ghost use Rattle.std.specs.Prelude.{◌≡◌, ◌<◌, ◌≤◌, List, ℕ, length, take, Option, IfOk, OnErr, Result};
ghost use Rattle.std.specs.Io.{ReadsAtMost, WritesAtMost};
ghost use Rattle.std.specs.Io.KnownBytes.{ReadConsumes};
ghost use Rattle.rc_ports.specs.Causes.{HasCause};
ghost use Rattle.rc_ports.specs.Streams.{grown};

use crate::Failed;

/// Where bytes are read from.
pub trait Source {
    // The bytes left, where they are told.
    ghost left: { Self → Option (List ℕ) };

    // How often a call failed. It never falls, and stands at its last value.
    ghost faults: { Self → ℕ };

    /// Reads some bytes into the front of `buf` and answers how many. 0 for a buffer that is not
    /// empty is the end. After `Failed` the bytes left are as before.
    fn read(&mut self, buf: &mut [u8]) -> Result<usize, Failed>
        ensures bound { ReadsAtMost result buf.new }
        ensures bytes { ReadConsumes (left self.old) (left self.new) result buf.new }
        ensures none { OnErr result (left self.new ≡ left self.old) }
        ensures cause { HasCause (faults self.old) (faults self.new) result };
}

/// Where bytes are written to.
pub trait Sink {
    // The bytes taken so far, where they are told.
    ghost taken: { Self → Option (List ℕ) };

    // How often a call failed. It never falls, and stands at its last value.
    ghost faults: { Self → ℕ };

    /// Takes some of the bytes from their front, and answers how many: at least one, unless there
    /// are none. After `Failed` nothing was taken.
    fn write(&mut self, bytes: &[u8]) -> Result<usize, Failed>
        ensures bound { WritesAtMost result bytes.now }
        ensures some { 0 < length bytes.now → IfOk result (λ n. 0 < n) }
        ensures bytes { IfOk result (λ n. taken self.new ≡ grown (take n bytes.now) (taken self.old)) }
        ensures none { OnErr result (taken self.new ≡ taken self.old) }
        ensures cause { HasCause (faults self.old) (faults self.new) result };
}

// The reads of a memory disk, and which of them fail.
ghost use Rattle.std.specs.Prelude.{◌≡◌, ◌≢◌, ◌+◌, ◌≤◌, ℕ, Bool, true, false, [], length, vec_capacity, if◌then◌else◌, IfOk};
ghost use Rattle.rc_ports.specs.Causes.{is_listed, raised};
ghost use Rattle.rc_disk.specs.Calls.{read_done, read_failed};
ghost use Rattle.rc_disk.specs.Memory.{HasReads, reads_of, is_read};

use crate::Power;
use rc_ids::NoMemory;
use std::alloc::Global;

/// The reads of a memory disk. A number that failed is taken out of the list of those that are to fail,
/// so there is room for it.
#[derive(Debug, Drop)]
pub struct ReadBook {
    pub made: u64,
    pub failed: Vec<u64>,
    pub off: u64,
    pub fails: Vec<u64>,
}

/// Takes a number out of a list, and says whether it was there.
fn take_out(list: &mut Vec<u64>, number: u64) -> bool
    ensures found { result ≡ is_listed list.old.items number }
    ensures shorter { result ≡ true → length list.new.items + 1 ≡ length list.old.items }
    ensures same { result ≡ false → list.new.items ≡ list.old.items }
    ensures others { (m : ℕ) → m ≢ number → is_listed list.new.items m ≡ is_listed list.old.items m }
{
    for i in 0..list.len() {
        if list[i] == number {
            list.remove(i);
            return true;
        }
    }
    false
}

impl ReadBook {
    /// No read yet.
    pub fn new(alloc: Global) -> ReadBook
        ensures reads { reads_of result ≡ record { made = 0; failed = []; off = 0 } }
        ensures fails { result.fails.items ≡ [] }
        ensures room { HasReads result }
    {
        ReadBook {
            made: 0,
            failed: Vec::new(alloc),
            off: 0,
            fails: Vec::new(alloc),
        }
    }

    /// No read yet, with the numbers of those that are to fail.
    pub fn failing(alloc: Global, fails: Vec<u64>) -> Result<ReadBook, NoMemory>
        ensures reads { IfOk result (λ r. reads_of r ≡ record { made = 0; failed = []; off = 0 }) }
        ensures fails { IfOk result (λ r. r.fails ≡ fails) }
        ensures room { IfOk result (λ r. HasReads r) }
    {
        let failed = Vec::with_capacity(alloc, fails.len())?;
        Ok(ReadBook {
            made: 0,
            failed,
            off: 0,
            fails,
        })
    }

    /// Counts a read, and says whether it is done.
    pub fn begin(&mut self, power: Power) -> bool
        requires room { HasReads self.old }
        ensures done { result ≡ is_read self.old.fails.items (raised self.old.made) power }
        ensures reads { reads_of self.new ≡ (if result then read_done (reads_of self.old) else read_failed power (reads_of self.old)) }
        ensures others { (m : ℕ) → m ≢ raised self.old.made → is_listed self.new.fails.items m ≡ is_listed self.old.fails.items m }
        ensures room { HasReads self.new }
    {
        self.made = self.made.saturating_add(1);
        if power == Power::Off {
            self.off = self.off.saturating_add(1);
            return false;
        }
        let fails = take_out(&mut self.fails, self.made);
        if fails {
            self.failed.push(self.made).unwrap();
        }
        !fails
    }
}

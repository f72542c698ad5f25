// A log on a disk.
ghost use Rattle.std.specs.Prelude.{◌≡◌, ◌≢◌, ◌+◌, ◌<◌, ◌≤◌, ◌^◌, ℕ, List, [], ◌∷◌, true, Ok, nat_lt, vec_capacity, is_some, IfOk, IfErr, IfSome, OnOk, OnErr};
ghost use Rattle.std.specs.Option.{option_map};
ghost use Rattle.rc_ports.specs.Causes.{Rose};
ghost use Rattle.rc_disk.specs.Crashes.{AddsNone, TakesTime, AtEachMoment};
ghost use Rattle.rc_log.specs.Records.{records};
ghost use Rattle.rc_log.specs.Append.{AreStill, create_calls, all_done, numbers_of, counted_by, power_past};
ghost use Rattle.rc_log.specs.Opening.{IsNoBegin, IsDamage, IsNoOpen, synced_and_read};
ghost use Rattle.rc_log.specs.declared.fault.OpenFault.TheVariants.{Failed as OpenFailed};
ghost use Rattle.rc_log.specs.Intact.{IsIntact};
ghost use Rattle.rc_log.specs.Journals.{Begins, log_state};
ghost use Rattle.rc_log.specs.Laws.{is_counted, is_sized, rests};

use crate::opening::open_records;
use crate::writing::{append_at, begin};
use crate::{AppendFault, Journal, OpenFault};
use rc_disk::Disk;
use rc_ids::{Blobs, NoMemory};
use rc_ports::Failed;
use std::alloc::Global;

/// A log on a disk. Its records are kept over crashes at any moment.
#[derive(Drop)]
pub struct Log<D: Disk> {
    disk: D,
    frame: Vec<u8>,
    end: u64,
    count: u64,
    limit: u64,
    spare: u64,
    failed: bool,
    ghost intact: { IsIntact (D.content disk) (D.may_leave disk) (D.told disk) (D.length_of disk) (D.spare_calls disk) (D.spare_bytes disk) (vec_capacity frame) end count limit spare failed },
}

/// Whether a log that ends at this place would be longer than its limit with a record of so many bytes.
fn is_past(limit: u64, end: u64, len: usize) -> bool
    ensures { result ≡ nat_lt limit (end + 6 + len) }
{
    match end.checked_add(6) {
        Some(behind) => match behind.checked_add(len as u64) {
            Some(total) => limit < total,
            None => true,
        },
        None => true,
    }
}

impl<D: Disk> Log<D> {
    ghost use Rattle.rc_log.specs.Words.{disk_of};

    /// Creates a log on an empty disk. A refusal hands the disk back.
    pub fn create(alloc: Global, disk: D, limit: u64) -> Result<Log<D>, (OpenFault, D)>
        requires empty { D.length_of disk ≡ 0 }
        requires limit { limit < 2 ^ 32 }
        ensures begins { IfOk result (λ log. Begins (⟦<Log<D> as Journal>⟧.state log) [] limit (option_map (λ c. 0 ∷ []) (D.content disk)) (option_map (all_done create_calls) (D.told disk)) (power_past 2 (D.power disk))) }
        ensures numbers { IfOk result (λ log. numbers_of (D.told (disk_of log)) ≡ option_map (counted_by 2) (numbers_of (D.told disk))) }
        ensures counts { IfOk result (λ log. AreStill (D.faults disk) (D.faults (disk_of log)) (D.cuts disk) (D.cuts (disk_of log))) }
        ensures later { IfOk result (λ log. (D.faults disk ≤ D.faults (disk_of log)) × (D.cuts disk ≤ D.cuts (disk_of log))) }

        // From then on a crash leaves a log without records.
        ensures durable { IfOk result (λ log. (left : List ℕ) → D.may_leave (disk_of log) left → records left ≡ Ok []) }

        ensures err { IfErr result (λ e. IsNoBegin e.0 (D.told disk) (D.told e.1) (D.power disk) (D.power e.1) (D.faults disk) (D.faults e.1) (D.cuts disk) (D.cuts e.1)) }
        ensures later_err { IfErr result (λ e. (D.faults disk ≤ D.faults e.1) × (D.cuts disk ≤ D.cuts e.1)) }
    {
        let mut disk = disk;
        match begin(&mut disk) {
            Ok(()) => Ok(Log {
                disk,
                frame: Vec::new(alloc),
                end: 0,
                count: 0,
                limit,
                spare: 0,
                failed: false,
            }),
            Err(fault) => Err((fault, disk)),
        }
    }

    /// Opens a log: its records, by one sync and then one read. Nothing is written. A refusal hands the disk back,
    /// which may have been synced then; its fault says how many of the two calls were made.
    pub fn open(alloc: Global, disk: D, limit: u64) -> Result<(Log<D>, Blobs), (OpenFault, D)>
        requires { limit < 2 ^ 32 }
        ensures records { IfOk result (λ opened. IfSome (D.content disk) (λ c. records c ≡ Ok opened.1)) }
        ensures begins { IfOk result (λ opened. Begins (⟦<Log<D> as Journal>⟧.state opened.0) opened.1 limit (D.content disk) (option_map (synced_and_read true) (D.told disk)) (power_past 1 (D.power disk))) }
        ensures numbers { IfOk result (λ opened. numbers_of (D.told (disk_of opened.0)) ≡ option_map (counted_by 1) (numbers_of (D.told disk))) }
        ensures counts { IfOk result (λ opened. AreStill (D.faults disk) (D.faults (disk_of opened.0)) (D.cuts disk) (D.cuts (disk_of opened.0))) }
        ensures later { IfOk result (λ opened. (D.faults disk ≤ D.faults (disk_of opened.0)) × (D.cuts disk ≤ D.cuts (disk_of opened.0))) }

        // What was read is what a crash leaves.
        ensures durable { IfOk result (λ opened. (left : List ℕ) → D.may_leave (disk_of opened.0) left → records left ≡ Ok opened.1) }
        ensures any_moment { IfOk result (λ opened. AtEachMoment (D.moment disk) (D.moment (disk_of opened.0)) (D.left_since disk) (D.left_since (disk_of opened.0)) (D.may_leave disk)) }

        ensures damage { IfErr result (λ e. IsDamage (D.content disk) e.0) }
        ensures refused { IfErr result (λ e. IsNoOpen (D.length_of disk) e.0 (D.told disk) (D.told e.1) (D.power disk) (D.power e.1)
            (D.faults disk) (D.faults e.1) (D.cuts disk) (D.cuts e.1)) }

        // The disk comes back, synced or not, and nothing was written.
        ensures same { IfErr result (λ e. e.0 ≢ OpenFailed → D.content e.1 ≡ D.content disk) }
        ensures left { IfErr result (λ e. IfSome (D.content e.1) (D.may_leave disk)) }
        ensures tells { IfErr result (λ e. is_some (D.content e.1) ≡ is_some (D.content disk)) }
        ensures cause { IfErr result (λ e. e.0 ≡ OpenFailed → Rose (D.faults disk) (D.faults e.1)) }
        ensures later_err { IfErr result (λ e. (D.faults disk ≤ D.faults e.1) × (D.cuts disk ≤ D.cuts e.1)) }
        ensures crash_err { IfErr result (λ e. AddsNone (D.may_leave disk) (D.may_leave e.1)) }
        ensures any_moment_err { IfErr result (λ e. AtEachMoment (D.moment disk) (D.moment e.1) (D.left_since disk) (D.left_since e.1) (D.may_leave disk)) }
    {
        let mut disk = disk;
        match open_records(alloc, &mut disk) {
            Ok((records, end)) => Ok((
                Log {
                    disk,
                    frame: Vec::new(alloc),
                    end,
                    count: records.len() as u64,
                    limit,
                    spare: 0,
                    failed: false,
                },
                records,
            )),
            Err(fault) => Err((fault, disk)),
        }
    }

    /// The disk, also of a log whose append failed.
    pub fn into_disk(self) -> D
        ensures { result ≡ disk_of self }
    {
        self.disk
    }

    /// Makes room for one record of at most so many bytes, if there is none.
    fn make_room(&mut self, len: usize) -> Result<(), NoMemory>
        ensures ok { OnOk result (len < self.new.spare) }
        ensures err { OnErr result (self.old.spare ≤ len) }
        ensures content { D.content self.new.disk ≡ D.content self.old.disk }
        ensures told { D.told self.new.disk ≡ D.told self.old.disk }
        ensures power { D.power self.new.disk ≡ D.power self.old.disk }
        ensures faults { D.faults self.new.disk ≡ D.faults self.old.disk }
        ensures cuts { D.cuts self.new.disk ≡ D.cuts self.old.disk }
        ensures end { self.new.end ≡ self.old.end }
        ensures count { self.new.count ≡ self.old.count }
        ensures limit { self.new.limit ≡ self.old.limit }
        ensures failed { self.new.failed ≡ self.old.failed }
        ensures frame { self.new.frame.items ≡ self.old.frame.items }
        ensures crash { AddsNone (D.may_leave self.old.disk) (D.may_leave self.new.disk) }
        ensures time { TakesTime (D.moment self.old.disk) (D.moment self.new.disk) (D.left_since self.old.disk) (D.left_since self.new.disk) (D.may_leave self.new.disk) }
    {
        let len = len as u64;
        if len < self.spare {
            return Ok(());
        }
        let Some(bytes) = len.checked_add(6) else {
            return Err(NoMemory);
        };
        self.spare = 0;
        self.frame.reserve(bytes as usize)?;
        self.disk.room(bytes, 4)?;
        self.spare = bytes - 5;
        Ok(())
    }
}

impl<D: Disk> Journal for Log<D> {
    ghost state = { λ l. log_state (D.content l.disk) (D.told l.disk) (D.power l.disk) (D.faults l.disk) (D.cuts l.disk) l.end l.count l.limit l.failed l.frame.items };

    ghost spare = { λ l. l.spare };

    ghost may_leave = { λ l. D.may_leave l.disk };

    ghost moment = { λ l. D.moment l.disk };

    ghost left_since = { λ l. D.left_since l.disk };

    ghost counted = { λ l. is_counted (D.content l.disk) l.count l.intact.enough };

    ghost sized = { λ l sound. is_sized (D.content l.disk) l.count l.end (l.intact.no_more sound) (l.intact.settled sound).place_is };

    ghost at_rest = { λ l sound. rests (D.content l.disk) (D.may_leave l.disk) l.count (l.intact.no_more sound) (l.intact.settled sound).whole (l.intact.settled sound).durable };

    ghost no_other = { λ l. D.no_other l.disk };

    fn room(&mut self, len: usize) -> Result<(), NoMemory> {
        self.make_room(len)
    }

    fn append(&mut self, bytes: &[u8]) -> Result<(), AppendFault> {
        if is_past(self.limit, self.end, bytes.len()) {
            return Err(AppendFault::Full);
        }
        self.make_room(bytes.len())?;
        self.spare = 0;
        match append_at(&mut self.disk, &mut self.frame, self.end, bytes) {
            Ok(()) => {
                self.end += 5 + bytes.len() as u64;
                self.count += 1;
                Ok(())
            }
            Err(Failed) => {
                self.failed = true;
                Err(AppendFault::Failed)
            }
        }
    }

    fn failed(&self) -> bool {
        self.failed
    }

    fn count(&self) -> u64 {
        self.count
    }

    fn power_cut(&mut self, k: u64, pick: u8) {
        self.disk.power_cut(k, pick);
    }
}

// A disk in memory.
ghost use Rattle.std.specs.Prelude.{◌≡◌, ◌≢◌, ◌+◌, ◌-◌, ◌≤◌, ◌<◌, ℕ, List, [], length, Option, Some, None, IfOk, OnOk, OnErr, IsTrue, is_ok, is_none, refl};
ghost use Rattle.std.proofs.Common.{inl, inr};
ghost use Rattle.rc_ports.specs.Causes.{HasCause};
ghost use Rattle.rc_disk.specs.Calls.{after, images_done, power_after, holds, cause_at, is_on, after_read};
ghost use Rattle.rc_disk.specs.Counts.{HasCuts, AreCounted};
ghost use Rattle.rc_disk.specs.Crashes.{TakesTime};
ghost use Rattle.rc_disk.specs.Past.{IsKept, LeftSince, IsOne, Grows, call_of, count_of, fits, images_moved, one_now, one_only};
ghost use Rattle.rc_disk.specs.Memory.{HasRoom, HasCalls, HasReads, HasPast, images_of, numbers_of, reads_of, history_of, verdict};
ghost use Rattle.rc_disk.specs.Steps.{Steps};
ghost use Rattle.rc_disk.specs.declared.change.Event.{Event as EventOf};

use crate::calls::CallBook;
use crate::change::{Change, Event};
use crate::images::FourImages;
use crate::marks::{Marks, Tallied};
use crate::past::Past;
use crate::reads::ReadBook;
use crate::{Cause, Disk, Power};
use rc_ids::NoMemory;
use rc_ports::Failed;
use std::alloc::Global;

/// A disk in memory. It tells all its calls, and keeps what it had at each moment. The calls and reads whose
/// numbers are in its lists fail, and so do those at a cut of the power and while the power is off.
#[derive(Debug, Drop)]
pub struct MemDisk {
    calls: CallBook,
    reads: ReadBook,
    images: FourImages,
    past: Past,
    spare: usize,
    ghost has_calls: { HasCalls calls },
    ghost has_reads: { HasReads reads },
    ghost has_room: { HasRoom images spare },
    ghost has_past: { HasPast past calls.spare spare },
    ghost kept: { IsKept (history_of past) (images_of images) },
}

impl MemDisk {
    ghost use Rattle.rc_disk.specs.MemDisks.{told_of, told_first, content_of, faults_of, cuts_of, failing_calls, failing_reads};

    /// An empty disk that never fails but for want of power.
    pub fn new(alloc: Global) -> MemDisk
        ensures told { told_of result ≡ told_first [] }
        ensures counts { (faults_of result ≡ 0) × (cuts_of result ≡ 0) }
        ensures lists { (failing_calls result ≡ []) × (failing_reads result ≡ []) }
    {
        let calls = CallBook::new(alloc, Vec::new(alloc));
        let past = Past::new(alloc, Vec::new(alloc));
        MemDisk::of(calls, ReadBook::new(alloc), FourImages::new(alloc), past)
    }

    /// An empty disk, with the numbers of the calls and of the reads that are to fail.
    pub fn failing(alloc: Global, calls: Vec<u64>, reads: Vec<u64>) -> Result<MemDisk, NoMemory>
        ensures told { IfOk result (λ d. told_of d ≡ told_first []) }
        ensures counts { IfOk result (λ d. (faults_of d ≡ 0) × (cuts_of d ≡ 0)) }
        ensures lists { IfOk result (λ d. (failing_calls d ≡ calls.items) × (failing_reads d ≡ reads.items)) }
    {
        let reads = ReadBook::failing(alloc, reads)?;
        let calls = CallBook::new(alloc, calls);
        let past = Past::new(alloc, Vec::new(alloc));
        Ok(MemDisk::of(calls, reads, FourImages::new(alloc), past))
    }

    /// A disk with these bytes that never fails but for want of power.
    pub fn with_content(alloc: Global, bytes: Vec<u8>) -> Result<MemDisk, NoMemory>
        ensures told { IfOk result (λ d. told_of d ≡ told_first bytes.items) }
        ensures counts { IfOk result (λ d. (faults_of d ≡ 0) × (cuts_of d ≡ 0)) }
        ensures lists { IfOk result (λ d. (failing_calls d ≡ []) × (failing_reads d ≡ [])) }
    {
        let first = Vec::from_slice(alloc, &bytes)?;
        let images = FourImages::of(alloc, bytes)?;
        let calls = CallBook::new(alloc, Vec::new(alloc));
        let past = Past::new(alloc, first);
        Ok(MemDisk::of(calls, ReadBook::new(alloc), images, past))
    }

    fn of(calls: CallBook, reads: ReadBook, images: FourImages, past: Past) -> MemDisk
        requires calls { HasCalls calls × (calls.spare ≡ 0) }
        requires reads { HasReads reads }
        requires images { HasRoom images 0 }
        requires past { HasPast past 0 0 }
        requires kept { IsKept (history_of past) (images_of images) }
        ensures calls { result.calls ≡ calls }
        ensures reads { result.reads ≡ reads }
        ensures images { result.images ≡ images }
    {
        MemDisk {
            calls,
            reads,
            images,
            past,
            spare: 0,
        }
    }

    /// What a read gives.
    pub fn content(&self) -> &[u8]
        ensures { result.now ≡ content_of self.now }
    {
        &self.images.plain
    }

    /// A change happens to the content.
    fn happens(&mut self, event: Event, written: &[u8])
        requires inside { fits (call_of event.change written.now) (length self.old.images.plain.items) }
        requires counted { count_of event.change ≡ length written.now }
        requires bytes { length written.now ≤ self.old.spare }
        requires calls { HasPast self.old.past (self.old.calls.spare + 1) self.old.spare }
        ensures moved { images_of self.new.images ≡ images_moved event written.now (images_of self.old.images) }
        ensures grows { Grows (history_of self.old.past) event written.now (history_of self.new.past) }
        ensures calls { self.new.calls ≡ self.old.calls }
        ensures reads { self.new.reads ≡ self.old.reads }
        ensures bytes { self.new.spare + length written.now ≡ self.old.spare }
    {
        self.images.moves(event, written, self.spare);
        self.past
            .note(event, written, self.calls.spare + 1, self.spare);
        self.spare -= written.len();
    }

    /// A call counted among those that may be cut: it is done, or it fails.
    fn call(&mut self, change: Change, written: &[u8]) -> Result<(), Failed>
        requires inside { fits (call_of change written.now) (length self.old.images.plain.items) }
        requires counted { count_of change ≡ length written.now }
        requires bytes { length written.now ≤ self.old.spare }
        requires calls { 1 ≤ self.old.calls.spare }
        ensures verdict { is_ok result ≡ is_none (verdict self.old.calls.fails.items (self.old.calls.made + 1) self.old.calls.power) }
        ensures told { told_of self.new ≡ after (call_of change written.now) (is_ok result) (told_of self.old) }
        ensures power { self.new.calls.power ≡ power_after self.old.calls.power }
        ensures on { OnOk result (IsTrue (holds self.old.calls.power)) }
        ensures images { OnOk result (images_of self.new.images ≡ images_done (call_of change written.now) (images_of self.old.images)) }
        ensures crash { Steps (call_of change written.now) (IsOne (images_of self.old.images)) (IsOne (images_of self.new.images)) }
        ensures time { TakesTime (length self.old.past.events.items) (length self.new.past.events.items)
            (LeftSince (history_of self.old.past)) (LeftSince (history_of self.new.past)) (IsOne (images_of self.new.images)) }
        ensures lists { (self.new.calls.fails ≡ self.old.calls.fails) × (self.new.reads ≡ self.old.reads) }
        ensures spare_calls { self.new.calls.spare + 1 ≡ self.old.calls.spare }
        ensures spare_bytes { self.new.spare + length written.now ≡ self.old.spare }
        ensures cause { HasCause self.old.calls.faults self.new.calls.faults result }
        ensures cuts { HasCuts self.old.calls.cuts self.new.calls.cuts result }
        ensures counts { AreCounted (cause_at self.old.calls.power) (is_ok result) self.old.calls.faults self.new.calls.faults self.old.calls.cuts self.new.calls.cuts }
    {
        match self.calls.begin() {
            None => {
                self.happens(Event { change, fell: None }, written);
                Ok(())
            }
            Some(Cause::ByCut(pick)) => {
                self.happens(
                    Event {
                        change,
                        fell: Some(pick),
                    },
                    written,
                );
                Err(Failed)
            }
            Some(Cause::ByList) => {
                self.spare -= written.len();
                Err(Failed)
            }
            Some(Cause::WhileOff) => {
                self.spare -= written.len();
                Err(Failed)
            }
        }
    }
}

impl MemDisk {
    ghost use Rattle.rc_disk.specs.Places.{start_of, renewed};
    ghost use Rattle.rc_disk.specs.MemDisks.{failing_calls, failing_reads, standing_of, start_marked};

    /// Its counts, as numbers to keep.
    pub fn marks(&self) -> Marks
        ensures { start_marked result ≡ start_of (standing_of self.now) }
    {
        Marks {
            told: Some(Tallied {
                calls: self.calls.made,
                failed: self.calls.failed.len() as u64,
                reads: self.reads.made,
                failed_reads: self.reads.failed.len() as u64,
                off_reads: self.reads.off,
            }),
            faults: self.calls.faults,
            cuts: self.calls.cuts,
        }
    }

    /// Turns the power on, and raises the counts at least to these.
    pub fn renew(&mut self, faults: u64, cuts: u64)
        ensures standing { standing_of self.new ≡ renewed faults cuts (standing_of self.old) }
        ensures lists { (failing_calls self.new ≡ failing_calls self.old) × (failing_reads self.new ≡ failing_reads self.old) }
    {
        self.calls.power = Power::On;
        self.calls.faults = self.calls.faults.max(faults);
        self.calls.cuts = self.calls.cuts.max(cuts);
    }
}

impl Disk for MemDisk {
    ghost use Rattle.rc_disk.specs.MemDisks.{told_of, content_of, known_content, known_told, may_leave_of, moment_of, left_since_of, power_of, faults_of, cuts_of, spare_calls_of, spare_bytes_of, size_of};
    ghost use Rattle.rc_disk.specs.MemDisks.{call_is_done, read_is_done, HasSameLists, HasOtherReads};
    ghost use Rattle.std.specs.Prelude.{max, take, drop, IfSome};
    ghost use Rattle.std.specs.Option.{option_map};
    ghost use Rattle.rc_disk.specs.Calls.{Writes, Shortens, Syncs, effect, armed, powered};
    ghost use Rattle.rc_disk.specs.Counts.{read_cause};
    ghost use Rattle.rc_disk.specs.Crashes.{Stems, Patches, Trims, AddsNone, IsDurable};

    ghost content = { λ d. known_content d };

    ghost may_leave = { λ d left. may_leave_of d left };

    ghost moment = { λ d. moment_of d };

    ghost left_since = { λ d t left. left_since_of d t left };

    ghost told = { λ d. known_told d };

    ghost power = { λ d. power_of d };

    ghost faults = { λ d. faults_of d };

    ghost cuts = { λ d. cuts_of d };

    ghost spare_calls = { λ d. spare_calls_of d };

    ghost spare_bytes = { λ d. spare_bytes_of d };

    ghost length_of = { λ d. size_of d };

    ghost told_content = { λ d. refl };

    ghost told_power = { λ d. refl };

    ghost may_stay = { λ d. inr (inl refl) };

    ghost has_length = { λ d. refl };

    ghost now_too = { λ d t left earlier one. one_now (history_of d.past) (images_of d.images) d.kept t left earlier one };

    ghost no_other = { λ d left since. one_only (history_of d.past) (images_of d.images) d.kept left since };

    fn len(&self) -> u64 {
        self.images.plain.len() as u64
    }

    fn read(&mut self, place: u64, buf: &mut [u8]) -> Result<(), Failed>
        requires { place + length buf.old ≤ size_of self.old }
        ensures bytes { OnOk result (IfSome (known_content self.old) (λ all. buf.new ≡ take (length buf.old) (drop place all))) }
        ensures content { known_content self.new ≡ known_content self.old }
        ensures length { size_of self.new ≡ size_of self.old }
        ensures told { known_told self.new ≡ option_map (after_read (is_ok result)) (known_told self.old) }
        ensures power { power_of self.new ≡ power_of self.old }
        ensures on { OnOk result (IsTrue (is_on (power_of self.old))) }
        ensures crash { AddsNone (may_leave_of self.old) (may_leave_of self.new) }
        ensures time { TakesTime (moment_of self.old) (moment_of self.new) (left_since_of self.old) (left_since_of self.new) (may_leave_of self.new) }
        ensures spare_calls { spare_calls_of self.new ≡ spare_calls_of self.old }
        ensures spare_bytes { spare_bytes_of self.new ≡ spare_bytes_of self.old }
        ensures cause { HasCause (faults_of self.old) (faults_of self.new) result }
        ensures cuts { HasCuts (cuts_of self.old) (cuts_of self.new) result }
        ensures counts { AreCounted (read_cause (power_of self.old)) (is_ok result) (faults_of self.old) (faults_of self.new) (cuts_of self.old) (cuts_of self.new) }

        // By its lists.
        ensures by_list { is_ok result ≡ read_is_done self.old }
        ensures lists { HasOtherReads self.old self.new }
    {
        let power = self.calls.power;
        if !self.reads.begin(power) {
            self.calls.fail(power == Power::Off);
            return Err(Failed);
        }
        let from = place as usize;
        buf.copy_from_slice(&self.images.plain[from..from + buf.len()]);
        Ok(())
    }

    fn write_at(&mut self, place: u64, bytes: &[u8]) -> Result<(), Failed>
        requires inside { place ≤ size_of self.old }
        requires calls { 1 ≤ spare_calls_of self.old }
        requires bytes { length bytes.now ≤ spare_bytes_of self.old }
        ensures done { OnOk result (known_content self.new ≡ option_map (effect (Writes place bytes.now)) (known_content self.old)) }
        ensures length { OnOk result (size_of self.new ≡ max (size_of self.old) (place + length bytes.now)) }
        ensures told { known_told self.new ≡ option_map (after (Writes place bytes.now) (is_ok result)) (known_told self.old) }
        ensures power { power_of self.new ≡ power_after (power_of self.old) }
        ensures on { OnOk result (IsTrue (holds (power_of self.old))) }
        ensures crash { Stems (Patches place (length bytes.now)) (may_leave_of self.old) (may_leave_of self.new) }
        ensures time { TakesTime (moment_of self.old) (moment_of self.new) (left_since_of self.old) (left_since_of self.new) (may_leave_of self.new) }
        ensures spare_calls { spare_calls_of self.new + 1 ≡ spare_calls_of self.old }
        ensures spare_bytes { spare_bytes_of self.new + length bytes.now ≡ spare_bytes_of self.old }
        ensures cause { HasCause (faults_of self.old) (faults_of self.new) result }
        ensures cuts { HasCuts (cuts_of self.old) (cuts_of self.new) result }
        ensures counts { AreCounted (cause_at (power_of self.old)) (is_ok result) (faults_of self.old) (faults_of self.new) (cuts_of self.old) (cuts_of self.new) }

        // By its lists.
        ensures by_list { is_ok result ≡ call_is_done self.old }
        ensures lists { HasSameLists self.old self.new }
    {
        self.call(Change::Wrote(place, bytes.len() as u64), bytes)
    }

    fn cut(&mut self, len: u64) -> Result<(), Failed>
        requires inside { len ≤ size_of self.old }
        requires calls { 1 ≤ spare_calls_of self.old }
        ensures done { OnOk result (known_content self.new ≡ option_map (effect (Shortens len)) (known_content self.old)) }
        ensures length { OnOk result (size_of self.new ≡ len) }
        ensures told { known_told self.new ≡ option_map (after (Shortens len) (is_ok result)) (known_told self.old) }
        ensures power { power_of self.new ≡ power_after (power_of self.old) }
        ensures on { OnOk result (IsTrue (holds (power_of self.old))) }
        ensures crash { Stems (Trims len) (may_leave_of self.old) (may_leave_of self.new) }
        ensures time { TakesTime (moment_of self.old) (moment_of self.new) (left_since_of self.old) (left_since_of self.new) (may_leave_of self.new) }
        ensures spare_calls { spare_calls_of self.new + 1 ≡ spare_calls_of self.old }
        ensures spare_bytes { spare_bytes_of self.new ≡ spare_bytes_of self.old }
        ensures cause { HasCause (faults_of self.old) (faults_of self.new) result }
        ensures cuts { HasCuts (cuts_of self.old) (cuts_of self.new) result }
        ensures counts { AreCounted (cause_at (power_of self.old)) (is_ok result) (faults_of self.old) (faults_of self.new) (cuts_of self.old) (cuts_of self.new) }

        // By its lists.
        ensures by_list { is_ok result ≡ call_is_done self.old }
        ensures lists { HasSameLists self.old self.new }
    {
        self.call(Change::Shortened(len), &[])
    }

    fn sync(&mut self) -> Result<(), Failed>
        requires { 1 ≤ spare_calls_of self.old }
        ensures durable { OnOk result (IsDurable (known_content self.old) (may_leave_of self.new)) }
        ensures content { OnOk result (known_content self.new ≡ known_content self.old) }
        ensures length { OnOk result (size_of self.new ≡ size_of self.old) }
        ensures told { known_told self.new ≡ option_map (after Syncs (is_ok result)) (known_told self.old) }
        ensures power { power_of self.new ≡ power_after (power_of self.old) }
        ensures on { OnOk result (IsTrue (holds (power_of self.old))) }
        ensures crash { AddsNone (may_leave_of self.old) (may_leave_of self.new) }
        ensures time { TakesTime (moment_of self.old) (moment_of self.new) (left_since_of self.old) (left_since_of self.new) (may_leave_of self.new) }
        ensures spare_calls { spare_calls_of self.new + 1 ≡ spare_calls_of self.old }
        ensures spare_bytes { spare_bytes_of self.new ≡ spare_bytes_of self.old }
        ensures cause { HasCause (faults_of self.old) (faults_of self.new) result }
        ensures cuts { HasCuts (cuts_of self.old) (cuts_of self.new) result }
        ensures counts { AreCounted (cause_at (power_of self.old)) (is_ok result) (faults_of self.old) (faults_of self.new) (cuts_of self.old) (cuts_of self.new) }

        // By its lists.
        ensures by_list { is_ok result ≡ call_is_done self.old }
        ensures lists { HasSameLists self.old self.new }
    {
        self.call(Change::Synced, &[])
    }

    fn room(&mut self, bytes: u64, calls: u32) -> Result<(), NoMemory>
        ensures calls { OnOk result (calls ≤ spare_calls_of self.new) }
        ensures bytes { OnOk result (bytes ≤ spare_bytes_of self.new) }
        ensures content { known_content self.new ≡ known_content self.old }
        ensures length { size_of self.new ≡ size_of self.old }
        ensures told { known_told self.new ≡ known_told self.old }
        ensures power { power_of self.new ≡ power_of self.old }
        ensures crash { AddsNone (may_leave_of self.old) (may_leave_of self.new) }
        ensures time { TakesTime (moment_of self.old) (moment_of self.new) (left_since_of self.old) (left_since_of self.new) (may_leave_of self.new) }
        ensures faults { faults_of self.new ≡ faults_of self.old }
        ensures cuts { cuts_of self.new ≡ cuts_of self.old }

        // By its lists.
        ensures lists { HasSameLists self.old self.new }
    {
        self.past.reserve(calls, bytes as usize)?;
        self.calls.reserve(calls)?;
        self.images.reserve(bytes as usize, self.spare)?;
        self.spare = bytes as usize;
        Ok(())
    }

    fn power_cut(&mut self, k: u64, pick: u8)
        requires call { 1 ≤ k }
        requires pick { pick ≤ 3 }
        ensures content { known_content self.new ≡ known_content self.old }
        ensures length { size_of self.new ≡ size_of self.old }
        ensures told { known_told self.new ≡ option_map (armed k pick) (known_told self.old) }
        ensures power { power_of self.new ≡ Power.Armed k pick }
        ensures crash { AddsNone (may_leave_of self.old) (may_leave_of self.new) }
        ensures time { TakesTime (moment_of self.old) (moment_of self.new) (left_since_of self.old) (left_since_of self.new) (may_leave_of self.new) }
        ensures spare_calls { spare_calls_of self.new ≡ spare_calls_of self.old }
        ensures spare_bytes { spare_bytes_of self.new ≡ spare_bytes_of self.old }
        ensures faults { faults_of self.new ≡ faults_of self.old }
        ensures cuts { cuts_of self.new ≡ cuts_of self.old }

        // By its lists.
        ensures lists { HasSameLists self.old self.new }
    {
        self.calls.power = Power::Armed(k, pick);
    }

    fn power_on(&mut self)
        ensures content { IfSome (known_content self.new) (may_leave_of self.old) }
        ensures told { known_told self.new ≡ option_map powered (known_told self.old) }
        ensures power { power_of self.new ≡ Power.On }
        ensures crash { AddsNone (may_leave_of self.old) (may_leave_of self.new) }
        ensures time { TakesTime (moment_of self.old) (moment_of self.new) (left_since_of self.old) (left_since_of self.new) (may_leave_of self.new) }
        ensures spare_calls { spare_calls_of self.new ≡ spare_calls_of self.old }
        ensures spare_bytes { spare_bytes_of self.new ≡ spare_bytes_of self.old }
        ensures faults { faults_of self.new ≡ faults_of self.old }
        ensures cuts { cuts_of self.new ≡ cuts_of self.old }

        // By its lists.
        ensures lists { HasSameLists self.old self.new }
    {
        self.calls.power = Power::On;
    }
}

// The calls of a memory disk: their numbers, the power, and which fail.
ghost use Rattle.std.specs.Prelude.{◌≡◌, ◌+◌, ◌≤◌, ◌<◌, ℕ, [], Option, None, Some, IsSome, IsNone, IsTrue, is_none, IfSome, OnOk, OnErr, if◌then◌else◌};
ghost use Rattle.rc_ports.specs.Causes.{Rose, is_listed, raised};
ghost use Rattle.rc_disk.specs.Calls.{power_after, cause_at, holds};
ghost use Rattle.rc_disk.specs.Counts.{AreCounted};
ghost use Rattle.rc_disk.specs.Memory.{HasCalls, numbers_of, verdict, numbers_after};

use crate::{Cause, Failure, Power};
use rc_ids::NoMemory;
use std::alloc::Global;

/// The calls made of a memory disk.
#[derive(Debug, Drop)]
pub struct CallBook {
    pub made: u64,
    pub failed: Vec<Failure>,
    pub fails: Vec<u64>,
    pub power: Power,
    pub faults: u64,
    pub cuts: u64,
    pub spare: u64,
}

impl CallBook {
    /// No call yet, with the numbers of those that are to fail.
    pub fn new(alloc: Global, fails: Vec<u64>) -> CallBook
        ensures numbers { numbers_of result ≡ record { calls = 0; failed = [] } }
        ensures fails { result.fails ≡ fails }
        ensures power { result.power ≡ Power.On }
        ensures counts { (result.faults ≡ 0) × (result.cuts ≡ 0) }
        ensures spare { result.spare ≡ 0 }
        ensures room { HasCalls result }
    {
        CallBook {
            made: 0,
            failed: Vec::new(alloc),
            fails,
            power: Power::On,
            faults: 0,
            cuts: 0,
            spare: 0,
        }
    }

    /// Counts a call, and says whether and why it fails.
    pub fn begin(&mut self) -> Option<Cause>
        requires room { HasCalls self.old }
        requires spare { 1 ≤ self.old.spare }
        ensures verdict { result ≡ verdict self.old.fails.items (self.old.made + 1) self.old.power }
        ensures numbers { numbers_of self.new ≡ numbers_after result (numbers_of self.old) }
        ensures power { self.new.power ≡ power_after self.old.power }
        ensures fails { self.new.fails ≡ self.old.fails }
        ensures room { HasCalls self.new }
        ensures spare { self.new.spare + 1 ≡ self.old.spare }
        ensures reason { IfSome result (λ c. c ≡ cause_at self.old.power) }
        ensures holds { IsNone result → IsTrue (holds self.old.power) }
        ensures counts { AreCounted (cause_at self.old.power) (is_none result) self.old.faults self.new.faults self.old.cuts self.new.cuts }
        ensures later { self.old.faults ≤ self.new.faults }
        ensures later_cuts { self.old.cuts ≤ self.new.cuts }
        ensures rose { IsSome result → Rose self.old.faults self.new.faults }
    {
        self.made += 1;
        self.spare -= 1;
        let number = self.made;
        let cause = self.verdict(number);
        if let Some(cause) = cause {
            self.failed.push(Failure { number, cause }).unwrap();
            self.faults = self.faults.saturating_add(1);
            if cause != Cause::ByList {
                self.cuts = self.cuts.saturating_add(1);
            }
        }
        self.power = match self.power {
            Power::On => Power::On,
            Power::Armed(1, _) => Power::Off,
            Power::Armed(k, pick) => Power::Armed(k.saturating_sub(1), pick),
            Power::Off => Power::Off,
        };
        cause
    }

    /// Counts a fault that is not one of these calls, for want of power or not.
    pub fn fail(&mut self, for_power: bool)
        ensures faults { self.new.faults ≡ raised self.old.faults }
        ensures cuts { self.new.cuts ≡ (if for_power then raised self.old.cuts else self.old.cuts) }
        ensures same { self.new ≡ record self.old { faults = self.new.faults; cuts = self.new.cuts } }
        ensures later { self.old.faults ≤ self.new.faults }
        ensures later_cuts { self.old.cuts ≤ self.new.cuts }
    {
        self.faults = self.faults.saturating_add(1);
        if for_power {
            self.cuts = self.cuts.saturating_add(1);
        }
    }

    /// Makes room for so many calls.
    pub fn reserve(&mut self, calls: u32) -> Result<(), NoMemory>
        requires room { HasCalls self.old }
        ensures room { HasCalls self.new }
        ensures ok { OnOk result (self.new.spare ≡ calls) }
        ensures err { OnErr result (self.new.spare ≡ self.old.spare) }
        ensures same { numbers_of self.new ≡ numbers_of self.old }
        ensures fails { self.new.fails ≡ self.old.fails }
        ensures power { self.new.power ≡ self.old.power }
        ensures faults { self.new.faults ≡ self.old.faults }
        ensures cuts { self.new.cuts ≡ self.old.cuts }
    {
        if self.made >= 1 << 62 {
            return Err(NoMemory);
        }
        self.failed.reserve(calls as usize)?;
        self.spare = calls as u64;
        Ok(())
    }

    fn verdict(&self, number: u64) -> Option<Cause>
        ensures verdict { result ≡ verdict self.now.fails.items number self.now.power }
        ensures reason { IfSome result (λ c. c ≡ cause_at self.now.power) }
        ensures holds { IsNone result → IsTrue (holds self.now.power) }
    {
        match self.power {
            Power::Off => Some(Cause::WhileOff),
            Power::Armed(1, pick) => Some(Cause::ByCut(pick)),
            Power::Armed(_, _) => self.by_list(number),
            Power::On => self.by_list(number),
        }
    }

    fn by_list(&self, number: u64) -> Option<Cause>
        ensures { result ≡ (if is_listed self.now.fails.items number then Some Cause.ByList else None) }
    {
        if self.fails.contains(&number) {
            Some(Cause::ByList)
        } else {
            None
        }
    }
}

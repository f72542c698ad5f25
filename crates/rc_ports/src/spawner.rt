// What runs lanes beside one another.
ghost use Rattle.std.specs.Prelude.{◌≡◌, ◌≤◌, ◌↔◌, ℕ, true, false, Bool, All, length, IsSome, IsErr, OnOk, OnErr};
ghost use Rattle.rc_ports.specs.Causes.{HasCause, Rose, total};

use crate::beside::run_all;
use crate::lane::all_done;
use crate::{Failed, Lane};
use std::marker::PhantomData;
use std::sync::Wait;
use std::thread::Threads;

/// What begins threads for lanes.
pub trait Spawner {
    type Runtime: Threads + Wait + Sync;

    // How many lanes it ran. It never falls, and stands at its last value.
    ghost ran: { Self → ℕ };

    // How often a call failed. It never falls, and stands at its last value.
    ghost faults: { Self → ℕ };

    // Whether it begins threads at all.
    ghost begins: { Self → Bool };

    /// What begins its threads, if it begins any.
    fn runtime(&self) -> Option<&Self::Runtime>
        ensures { IsSome result ↔ (begins self.now ≡ true) };

    /// Counts lanes that ran.
    fn count_lanes(&mut self, lanes: usize)
        ensures ran { ran self.new ≡ total (ran self.old) lanes }
        ensures later { ran self.old ≤ ran self.new }
        ensures faults { faults self.new ≡ faults self.old }
        ensures begins { begins self.new ≡ begins self.old };

    /// Counts a call that failed.
    fn count_fault(&mut self)
        ensures ran { ran self.new ≡ ran self.old }
        ensures rose { Rose (faults self.old) (faults self.new) }
        ensures later { faults self.old ≤ faults self.new }
        ensures begins { begins self.new ≡ begins self.old };

    /// Runs each lane in a thread of its own, all beside one another: no lane runs before all
    /// threads have begun. Where one cannot begin, no lane runs, and the call fails.
    final fn run_beside<L: Lane>(&mut self, lanes: &mut [L]) -> Result<(), Failed>
        ensures done { OnOk result (All (λ l. L.done l ≡ true) lanes.new) }
        ensures ran { OnOk result (ran self.new ≡ total (ran self.old) (length lanes.old)) }
        ensures failed { OnErr result (ran self.new ≡ ran self.old) }
        ensures later { ran self.old ≤ ran self.new }
        ensures cause { HasCause (faults self.old) (faults self.new) result }
        ensures none { begins self.old ≡ false → IsErr result }
        ensures untouched { begins self.old ≡ false → lanes.new ≡ lanes.old }
        ensures begins { begins self.new ≡ begins self.old }
    {
        let count = lanes.len();
        let Some(rt) = self.runtime() else {
            self.count_fault();
            return Err(Failed);
        };
        if !run_all(rt, lanes) || !all_done(lanes) {
            self.count_fault();
            return Err(Failed);
        }
        self.count_lanes(count);
        Ok(())
    }
}

/// Begins threads by the runtime.
#[derive(Drop)]
pub struct ThreadSpawner<'a, R> {
    rt: &'a R,
    ran: u64,
    faults: u64,
}

impl<'a, R> ThreadSpawner<'a, R> {
    /// A spawner that ran no lane yet.
    pub fn new(rt: &'a R) -> ThreadSpawner<'a, R>
        ensures ran { result.ran ≡ 0 }
        ensures faults { result.faults ≡ 0 }
    {
        ThreadSpawner {
            rt,
            ran: 0,
            faults: 0,
        }
    }
}

impl<'a, R: Threads + Wait + Sync> Spawner for ThreadSpawner<'a, R> {
    type Runtime = R;

    ghost ran = { λ s. s.ran };

    ghost faults = { λ s. s.faults };

    ghost begins = { λ _. true };

    fn runtime(&self) -> Option<&R> {
        Some(self.rt)
    }

    fn count_lanes(&mut self, lanes: usize) {
        self.ran = self.ran.saturating_add(lanes as u64);
    }

    fn count_fault(&mut self) {
        self.faults = self.faults.saturating_add(1);
    }
}

/// Begins no thread: each call fails.
#[derive(Drop)]
pub struct FailingSpawner<R> {
    runtime: PhantomData<R>,
    ran: u64,
    faults: u64,
}

impl<R> FailingSpawner<R> {
    /// A spawner of which no call was made yet.
    pub fn new() -> FailingSpawner<R>
        ensures ran { result.ran ≡ 0 }
        ensures faults { result.faults ≡ 0 }
    {
        FailingSpawner {
            runtime: PhantomData,
            ran: 0,
            faults: 0,
        }
    }
}

impl<R: Threads + Wait + Sync> Spawner for FailingSpawner<R> {
    type Runtime = R;

    ghost ran = { λ s. s.ran };

    ghost faults = { λ s. s.faults };

    ghost begins = { λ _. false };

    fn runtime(&self) -> Option<&R> {
        None
    }

    fn count_lanes(&mut self, lanes: usize) {
        let ran = self.ran.saturating_add(lanes as u64);
        self.ran = ran;
    }

    fn count_fault(&mut self) {
        self.faults = self.faults.saturating_add(1);
    }
}

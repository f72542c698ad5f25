// Lanes in threads of their own, which run once all threads have begun.
use crate::Lane;
use std::slice::IterMut;
use std::sync::{Condvar, Mutex, Wait};
use std::thread;
use std::thread::Threads;

/// What a thread that has begun is to do.
#[derive(Clone, Copy, PartialEq, Eq)]
enum Signal {
    Wait,
    Go,
    Stop,
}

/// Where threads that have begun wait for the others.
#[derive(Drop)]
struct Start {
    signal: Mutex<Signal>,
    changed: Condvar,
}

impl Start {
    fn new() -> Start {
        Start {
            signal: Mutex::new(Signal::Wait),
            changed: Condvar::new(),
        }
    }

    fn tell<R: Wait>(&self, rt: &R, signal: Signal) {
        *self.signal.lock(rt) = signal;
        self.changed.notify_all();
    }

    fn is_go<R: Wait>(&self, rt: &R) -> bool {
        let signal = self.changed.wait_while(rt, self.signal.lock(rt), |s| {
            match *s {
                Signal::Wait => true,
                Signal::Go | Signal::Stop => false,
            }
        });
        match *signal {
            Signal::Go => true,
            Signal::Wait | Signal::Stop => false,
        }
    }
}

fn run_next<L: Lane, R: Wait>(rt: &R, start: &Start, lanes: &Mutex<IterMut<'_, L>>) {
    if start.is_go(rt) {
        let next = lanes.lock(rt).next();
        if let Some(lane) = next {
            lane.run();
        }
    }
}

fn run_shared<L: Lane, R: Threads + Wait + Sync>(
    rt: &R,
    count: usize,
    start: &Start,
    lanes: &Mutex<IterMut<'_, L>>,
) -> bool {
    thread::scope(thread::scope_env(), rt, move |scope| -> bool {
        for _ in 0..count {
            if scope.spawn(move || run_next(rt, start, lanes)).is_err() {
                start.tell(rt, Signal::Stop);
                return false;
            }
        }
        start.tell(rt, Signal::Go);
        true
    })
}

/// Runs each lane in a thread of its own, and answers whether all threads have begun. No lane runs
/// before all have; where one cannot begin, no lane runs.
pub fn run_all<L: Lane, R: Threads + Wait + Sync>(rt: &R, lanes: &mut [L]) -> bool {
    let start = Start::new();
    let count = lanes.len();
    let pool = Mutex::new(lanes.iter_mut());
    run_shared(rt, count, &start, &pool)
}

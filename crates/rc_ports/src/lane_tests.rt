// Lanes that run beside one another, lanes that cannot, and the open gate.
ghost use Rattle.std.specs.Prelude.{◌≡◌};

use crate::{Failed, FailingSpawner, Gate, Lane, OpenGate, Spawner, ThreadSpawner};
use rc_ids::{DcId, Key, NodeId, TxId};
use std::sync::atomic::{AtomicU64, Ordering};
use std::test::Fail;

/// A lane that waits for others.
#[derive(Drop)]
struct Meeting<'a> {
    arrived: &'a AtomicU64,
    wanted: u64,
    met: bool,
    done: bool,
}

impl<'a> Lane for Meeting<'a> {
    ghost done = { λ m. m.done };

    fn run(&mut self) {
        self.arrived.fetch_add(1, Ordering::SeqCst);
        for _ in 0..4_000_000_000u64 {
            if self.arrived.load(Ordering::SeqCst) == self.wanted {
                self.met = true;
                break;
            }
        }
        self.done = true;
    }

    fn is_done(&self) -> bool {
        self.done
    }
}

fn lane(arrived: &AtomicU64, wanted: u64) -> Meeting<'_> {
    Meeting {
        arrived,
        wanted,
        met: false,
        done: false,
    }
}

#[test]
fn beside(rt: HostRuntime) -> Result<(), Fail> {
    let arrived = AtomicU64::new(0);
    let mut lanes = Vec::with_capacity(rt.alloc(), 3)?;
    lanes.push_reserved(lane(&arrived, 3));
    lanes.push_reserved(lane(&arrived, 3));
    lanes.push_reserved(lane(&arrived, 3));
    let mut spawner = ThreadSpawner::new(&rt);
    assert_eq!(rt; spawner.run_beside(lanes.as_mut_slice()), Ok(()));
    for lane in &lanes {
        assert!(rt; lane.done && lane.met);
    }
    Ok(())
}

#[test]
fn refused(rt: HostRuntime) -> Result<(), Fail> {
    let arrived = AtomicU64::new(0);
    let mut lanes = [lane(&arrived, 2), lane(&arrived, 2)];
    let mut spawner = FailingSpawner::<HostRuntime>::new();
    assert_eq!(rt; spawner.run_beside(&mut lanes), Err(Failed));
    assert!(rt; !lanes[0].done && !lanes[1].done);
    assert_eq!(rt; arrived.load(Ordering::SeqCst), 0);
    Ok(())
}

#[test]
fn gate(rt: HostRuntime) -> Result<(), Fail> {
    let Ok(key) = Key::new(b"x") else {
        panic!(rt; "a key is refused");
    };
    let gate = OpenGate;
    gate.before_step(NodeId::Coord(DcId(1)));
    gate.before_poll(TxId(1), &key);
    Ok(())
}

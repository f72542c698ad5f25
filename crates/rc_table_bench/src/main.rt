//! rc_table_bench: runs a table of a node at a size, to be timed from outside: `rc_table_bench TABLE SIZE`, where TABLE is `versions`,
//! `locks`, `plain_locks` or `net`. Without words it runs each at a small size. It prints what the table answered.
#![tactic(auto)]

mod keys;
mod locks;
mod net;
mod versions;

use rc_locks::{Locks, PlainLocks};
use std::alloc::Global;
use std::env;

/// The size without words.
const SMALL: u32 = 200;

/// The largest size.
const LARGEST: u32 = 4_000_000;

/// Runs one table at a size, and prints what it answered.
fn run(rt: &impl Print, alloc: Global, table: &str, size: u32) -> anyhow::Result<()> {
    let answers = match table {
        "versions" => versions::run(alloc, size)?,
        "locks" => locks::run::<Locks>(alloc, size)?,
        "plain_locks" => locks::run::<PlainLocks>(alloc, size)?,
        "net" => net::run(alloc, size)?,
        _ => String::from_str(alloc, "no such table")?,
    };
    println!(rt; "{table} {size}: {answers}")?;
    Ok(())
}

fn main(rt: HostRuntime) -> anyhow::Result<()> {
    let alloc = rt.alloc();
    let mut words = env::args(&rt)?.skip(1);
    let Some(table) = words.next() else {
        for table in ["versions", "locks", "plain_locks", "net"] {
            run(&rt, alloc, table, SMALL)?;
        }
        return Ok(());
    };
    let size = match words.next() {
        Some(size) => size.parse::<u32>()?.min(LARGEST),
        None => SMALL,
    };
    run(&rt, alloc, table.as_str(), size)
}

//! Holds of a lock by one, two or four threads, each of which adds one to a number. It prints counts alone; a script under bench/
//! takes the time.
//!
//! The words are the lock (`ticket`, `mcs`, `clh`, `hemlock`, with a `c` behind the name where it counts its waiters, or `adds` for atomic
//! additions without a lock), the number of threads, and how often each holds.
#![tactic(auto)]

use anyhow::{Context, bail};
use clh_lock::Clh;
use hemlock_lock::Hemlock;
use lock_harness::{BoundedCount, count_by};
use lock_rules::Waiters;
use mcs_lock::Mcs;
use std::env;
use std::sync::atomic::{AtomicU64, Ordering};
use ticket_lock::Ticket;

/// Adds one to a word as often as asked, and gives the word.
fn add_often(times: u32) -> u64 {
    let word = AtomicU64::new(0);
    for _ in 0..times {
        word.fetch_add(1, Ordering::SeqCst);
    }
    word.load(Ordering::SeqCst)
}

fn main(rt: HostRuntime) -> anyhow::Result<()> {
    let mut words = env::args(&rt)?;
    words.next();
    let lock = words.next().context("name a lock")?;
    let threads: u32 = words.next().context("say how many threads")?.parse()?;
    let holds: u32 = words.next().context("say how many holds")?.parse()?;
    let alloc = rt.alloc();
    let (name, waiters) = match lock.as_str() {
        "ticketc" => ("ticket", Waiters::Count),
        "mcsc" => ("mcs", Waiters::Count),
        "clhc" => ("clh", Waiters::Count),
        "hemlockc" => ("hemlock", Waiters::Count),
        name => (name, Waiters::Queue),
    };
    let count = match (name, threads) {
        ("adds", 1) => Some(add_often(holds)),
        ("ticket", 1 | 2 | 4) => count_by::<Ticket<BoundedCount>, _>(
            &rt, alloc, waiters, threads, holds,
        ),
        ("mcs", 1 | 2 | 4) => count_by::<Mcs<BoundedCount>, _>(&rt, alloc, waiters, threads, holds),
        ("clh", 1 | 2 | 4) => count_by::<Clh<BoundedCount>, _>(&rt, alloc, waiters, threads, holds),
        ("hemlock", 1 | 2 | 4) => count_by::<Hemlock<BoundedCount>, _>(
            &rt, alloc, waiters, threads, holds,
        ),
        _ => bail!(
            "there is no {lock} with {threads} threads: name a lock with 1, 2 or 4, or adds with 1"
        ),
    };
    let count = count.context("there was no memory")?;
    println!(rt; "{lock} {threads} {count}")?;
    Ok(())
}

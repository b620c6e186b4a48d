//! Holds of a composed lock of a plan's kinds, of one to five levels, by one, two or four threads. It prints counts alone; a script under
//! bench/ takes the time.
//!
//! The words are the kinds of the levels, the lowest first, as of `clof run --locks`; how many turns in a row a node keeps the lock above
//! for; the number of threads; how often each thread holds the lock; and one or more ways to hold it, joined by dashes: with a trail that
//! keeps its turns in memory (`recorded`), and with one that keeps none (`free`). The threads stand two by two under a node of the lowest
//! level.
#![tactic(auto)]

mod holding;
mod jobs;
mod kinds;
mod quotas;
mod recorded;
mod repeated;
mod rising;
mod shapes;
mod unrecorded;
mod ways;

use crate::kinds::read_kinds;
use crate::ways::{counts, way_named};
use anyhow::{Context, bail};
use std::env;

fn main(rt: HostRuntime) -> anyhow::Result<()> {
    let mut words = env::args(&rt)?;
    words.next();
    let locks = words.next().context("name the kinds of the levels")?;
    let keep: u32 = words
        .next()
        .context("say how often a node keeps the lock")?
        .parse()?;
    let threads: usize = words.next().context("say how many threads")?.parse()?;
    let holds: u32 = words.next().context("say how many holds")?.parse()?;
    let ways = words.next().context("say how the lock is held")?;
    let alloc = rt.alloc();
    let kinds = read_kinds(alloc, &locks).context("the kinds are tkt, mcs, clh and hem")?;
    if threads != 1 && threads != 2 && threads != 4 {
        bail!("name 1, 2 or 4 threads");
    }
    for word in ways.split('-') {
        let way = way_named(word).context("the ways are recorded and free")?;
        let (turns, calls) = counts(&rt, alloc, way, &kinds, keep, threads, holds)?;
        println!(rt; "{locks} {keep} {threads} {word} {turns} {calls}")?;
    }
    Ok(())
}

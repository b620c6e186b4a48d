//! Four threads, two in each package of a machine, work on one value under a composed lock of two levels, and its counts are printed.
#![tactic(auto)]

ghost use Rattle.std.specs.Prelude.{◌≡◌, ◌<◌, true, IfSome};
ghost use Rattle.clof_compose.specs.Roots.{trail_of};
ghost use Rattle.own_payload.specs.Jobs.{EachMadeAll};

use anyhow::Context;
use clof_compose::Root;
use lock_plan::Plan;
use own_payload::Noted;
use own_runner::run;
use std::alloc::Global;
use std::sync::Wait;
use std::thread::Threads;
use synth_text::read;
use topo_tree::{Layer, Tree};

/// What the threads work on: how often the lock was held, and how often from each package.
#[derive(Drop)]
struct Visits {
    all: u64,
    by_package: [u64; 2],
}

impl Visits {
    fn add(&mut self, place: usize)
        requires { place < 2 }
    {
        self.all = self.all.wrapping_add(1);
        self.by_package[place] = self.by_package[place].wrapping_add(1);
    }
}

/// What a lock leaves that four threads have held a thousand times each, or `None` for want of memory.
fn count<R: Threads + Wait + Sync>(rt: &R, alloc: Global) -> Option<Root<Noted<Visits>>>
    ensures recorded { IfSome result (λ r. (trail_of r).recorded ≡ true) }
    ensures made { IfSome result (λ r. EachMadeAll (trail_of r)) }
{
    // the machine, and a plan: a Ticket lock in each package below an MCS lock, and up to 9 handovers in a row in one package
    let tree = Tree::build(alloc, read(alloc, b"Package:2 Core:2 PU:1").ok()?).ok()?;
    let Ok(plan) = Plan::read(alloc, &tree, b"package,machine", Some(b"tkt-mcs"), b"9") else {
        return None;
    };
    // what the texts say the checker doesn't know: a PU for each caller, and two levels
    let pus = tree.count(Layer::Depth(tree.depths() - 1));
    if pus < 4 || plan.kinds.as_slice().len() != 2 {
        return None;
    }
    // a caller on each PU, who holds a thousand times: the callers 0 and 1 are in package 0
    let Ok(shape) = plan.shape(alloc, &tree, &[0, 1, 2, 3]) else {
        return None;
    };
    let value = Visits {
        all: 0,
        by_package: [0, 0],
    };
    run(
        rt,
        alloc,
        &plan,
        &shape,
        &[1000; 4],
        value,
        &|visits: &mut Visits, caller: u32| { visits.add(usize::from(caller >= 2)) },
    )
}

fn main(rt: HostRuntime) -> anyhow::Result<()> {
    let root = count(&rt, rt.alloc()).context("no memory")?;
    let (trail, noted) = root.into_parts();
    let visits = noted.value;
    let [first, second] = visits.by_package;
    println!(rt;
        "{} turns, {} visits: {first} and {second}",
        trail.turns().len(),
        visits.all
    )?;
    Ok(())
}

//! The plans of the locks of `run`, and how their texts are refused.
use super::{Tables, answers, refuses};
use command_texts::Status;
use command_texts::topology::tree;
use command_words::Running;
use plan_texts::read_plan;
use std::alloc::Global;
use std::test::Fail;

const FIVE: &str = "Package:1 Die:1 L3Cache:1 Core:1 PU:1";

// The depths, the kinds and the keeps of the plan that is asked for, on a line, or the status.
pub(super) fn plan_text(alloc: Global, asked: Running<'_>) -> Result<Vec<u8>, Status> {
    let tree = tree(alloc, asked.description)?;
    let plan = read_plan(alloc, &tree, asked)?;
    let text = format!(in alloc;
        "{:?} {:?} {:?}\n",
        plan.depths.as_slice(),
        plan.kinds.as_slice(),
        plan.keeps.as_slice()
    );
    text.map(String::into_bytes)
        .map_err(|_| Status::OutOfMemory)
}

const PLANS: Tables = &[
    ("", "run|[0] [Mcs] []"),
    (
        "Core:2 PU:2",
        "run --levels core,machine --locks hem-tkt *|[1, 0] [Hem, Tkt] [128]",
    ),
    (
        FIVE,
        "run --keep 007 * --levels core,l3,die,package,machine --locks tkt-mcs-clh-hem-mcs\
|[4, 3, 2, 1, 0] [Tkt, Mcs, Clh, Hem, Mcs] [7, 7, 7, 7]
run --keep=0,1,2,65535 * --levels=Core,L3,die,socket,machine --locks=tktc-mcsc-clhc-hemc-mcs\
|[4, 3, 2, 1, 0] [TktC, McsC, ClhC, HemC, Mcs] [0, 1, 2, 65535]",
    ),
];

#[test]
fn reads_plans(rt: HostRuntime) -> Result<(), Fail> {
    answers(&rt, rt.alloc(), "", PLANS)
}

const REFUSED: Tables = &[
    // Levels.
    (
        "PU:1",
        "run --levels core *|3 clof: plan LevelUnknown 0
run --levels= *|3 clof: plan LevelUnknown 0
run --levels pu,machine,core,die *|3 clof: plan LevelUnknown 2
run --levels machine, *|3 clof: plan LevelUnknown 1
run --levels pu,pu,pu,pu,machine,machine *|3 clof: plan TooDeep
run --levels pu *|3 clof: plan LevelOrder 0",
    ),
    (
        "L3:1 PU:1",
        "run --levels machine,l3 *|3 clof: plan LevelOrder 1
run --levels l3,l3,machine *|3 clof: plan LevelOrder 1
run --levels pu,l3 *|3 clof: plan LevelOrder 1",
    ),
    (
        FIVE,
        "run --levels core,l3,die,package,machine,machine *|3 clof: plan TooDeep",
    ),
    // Locks and keeps.
    (
        "PU:1",
        "run --locks mcs-foo|3 clof: plan LockUnknown 1
run --locks tkt-mcsd|3 clof: plan LockUnknown 1
run --locks tktcc|3 clof: plan LockUnknown 0
run --locks=|3 clof: plan LockUnknown 0
run --locks MCS|3 clof: plan LockUnknown 0
run --locks mcs-mcs|3 clof: plan Lengths 1 2
run --keep 65536|3 clof: plan KeepRange 0
run --keep=|3 clof: plan KeepRange 0
run --keep=-1|3 clof: plan KeepRange 0
run --keep 1,2|3 clof: plan Lengths 1 2",
    ),
    (
        FIVE,
        "run --levels core,l3,die,package,machine --keep 1,2,3 *|3 clof: plan Lengths 5 3
run --levels core,l3,die,package,machine --keep 1,2,3,4,5 *|3 clof: plan Lengths 5 5
run --levels core,l3,die,package,machine --keep 1,2,3,x *|3 clof: plan KeepRange 3",
    ),
    // The first of several texts.
    (
        "PU:1",
        "run --levels core --locks foo --keep x *|3 clof: plan LevelUnknown 0
run --levels pu --locks foo --keep x *|3 clof: plan LevelOrder 0
run --locks foo-mcs --keep x *|3 clof: plan LockUnknown 0
run --locks mcs-mcs --keep x *|3 clof: plan Lengths 1 2
run --keep 1,x *|3 clof: plan KeepRange 1",
    ),
    ("PU:0", "run --levels core *|3 clof: synth BadArity 0"),
    // A check reads the plan of its run, with the locks that the run would have without any.
    (
        "PU:1",
        "check --keep 65536|3 clof: plan KeepRange 0
check --keep 1,2|3 clof: plan Lengths 1 2
check --levels pu|3 clof: plan LevelOrder 0",
    ),
];

#[test]
fn refuses_plans(rt: HostRuntime) -> Result<(), Fail> {
    refuses(&rt, rt.alloc(), "", REFUSED)
}

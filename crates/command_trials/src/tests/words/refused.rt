//! Lists of words that are a usage error, one a line, with a bar between two words.
use super::{asked, refuses};
use std::test::Fail;

// The first is one empty word.
const WORDS: &str = "
Set|0x1
set
set|1|2
set|--list|--list|1
set|--list=1
set|-1
set|--help
topo
topo|--list|PU:1
topo|PU:1|--export|--export
topo|-h
topo|--version
calc
calc|-p|-l|PU:1
calc|-N|pu|--largest|PU:1
distrib|+1|PU:1
select
select|PU:1|PU:1
select|--keep|1|--keep|1|PU:1
select|--walk|PU:1
distrib|--at|pu|--to|pu|1|PU:1";

const RUNS: &str = "run|--quantum|2
run|--quantum=2|PU:2
run|--threads|2|--quantum|0
run|--threads|2|--quantum|65536
run|--threads|2|--quantum|
run|--threads|0
run|--threads|257
run|--threads|0x2
run|--threads|+2
run|--threads
run|--threads|2|--threads|2
run|--threads|2|--walk
run|--walk|--threads|2|--quantum|2
run|PU:1|PU:1
run|--walk|--walk
run|--walk=true
run|--receipts|--walk
run|--receipts|--receipts
run|--receipts=1
run|--levels
run|--levels|--walk
run|--levels|pu|--levels|pu
run|--levels=pu|PU:1|--levels=
run|--locks|mcs|--locks|mcs
run|--keep|1|--keep|1
run|--list
run|--help
drill
drill|
drill|1|1
drill|+5
drill|-5
drill|--|-5
drill|4294967296
drill|1x
drill|--walk|1";

const CHECKS: &str = "Check
checks
check|PU:1|PU:1
check|--levels
check|--levels|pu|--levels|pu
check|--keep|1|--keep=1
check|--locks|mcs
check|--walk
check|--help
check|-1";

#[test]
fn refuses_words(rt: HostRuntime) -> Result<(), Fail> {
    refuses(&rt, rt.alloc(), WORDS)
}

#[test]
fn refuses_no_word(rt: HostRuntime) -> Result<(), Fail> {
    let found = asked(rt.alloc(), &Vec::new(rt.alloc()))?;
    assert_eq!(rt; found.as_slice(), b"usage".as_slice());
    Ok(())
}

#[test]
fn refuses_words_of_runs_and_drills(rt: HostRuntime) -> Result<(), Fail> {
    refuses(&rt, rt.alloc(), RUNS)
}

#[test]
fn refuses_words_of_checks(rt: HostRuntime) -> Result<(), Fail> {
    refuses(&rt, rt.alloc(), CHECKS)
}

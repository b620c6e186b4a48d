//! Words, read: what lists of words ask for, and those that are a usage error.
use command_words::{WordsFault, read_words};
use std::alloc::Global;
use std::process::Abort;
use std::test::Fail;

mod refused;
mod told;

use told::told;

// Checks rows, one a line: words with a bar between two, an arrow, and what they ask for, as `told` writes it.
fn asks(rt: &impl Abort, alloc: Global, rows: &str) -> Result<(), Fail> {
    for row in rows.split('\n') {
        let (words, wanted) = row.split_once(" => ").ok_or("a row without an arrow")?;
        expect(rt, alloc, words, wanted)?;
    }
    Ok(())
}

// Checks that lists of words are usage errors: one list a line, with a bar between two words.
fn refuses(rt: &impl Abort, alloc: Global, lists: &str) -> Result<(), Fail> {
    for words in lists.split('\n') {
        expect(rt, alloc, words, "usage")?;
    }
    Ok(())
}

fn expect(rt: &impl Abort, alloc: Global, words: &str, wanted: &str) -> Result<(), Fail> {
    let found = asked(alloc, &listed(alloc, words)?)?;
    assert_eq!(rt; found.as_slice(), wanted.as_bytes(), "at {words}");
    Ok(())
}

// The words of a list, between which a bar stands.
fn listed(alloc: Global, list: &str) -> Result<Vec<String>, Fail> {
    let mut words = Vec::new(alloc);
    for word in list.split('|') {
        words.push(String::from_str(alloc, word)?)?;
    }
    Ok(words)
}

// What words ask for, or how they are refused.
fn asked(alloc: Global, words: &Vec<String>) -> Result<Vec<u8>, Fail> {
    match read_words(alloc, words) {
        Ok(asked) => told(alloc, &asked),
        Err(WordsFault::Usage) => Ok(b"usage".to_vec(alloc)?),
        Err(WordsFault::OutOfMemory) => Ok(b"out of memory".to_vec(alloc)?),
    }
}

const CALCULATION: &str =
    "calc|-pIcore|PU:2|pu:0|--single|all => calc intersect[core] physical single description[PU:2] location[pu:0] location[all]";

#[test]
fn reads_a_calculation(rt: HostRuntime) -> Result<(), Fail> {
    asks(&rt, rt.alloc(), CALCULATION)
}

const WORDS: &str =
    "distrib|--at=core|007|PU:2|--reverse => distrib masks[7] at[core] reverse description[PU:2]
select|PU:2|--weights=2,1 => select weights[2,1] keep[128] description[PU:2]
set|--list|--|-1 => set list text[-1]
topo||--export => topo export text[]
drill|0 => drill number[0]
drill|007 => drill number[7]
drill|4294967295 => drill number[4294967295]
drill|0000000004294967295 => drill number[4294967295]";

#[test]
fn reads_other_words(rt: HostRuntime) -> Result<(), Fail> {
    asks(&rt, rt.alloc(), WORDS)
}

// Runs without a plan, with one, and those whose callers share threads.
const RUNS: &str = "run => run levels[machine] keep[128] description[PU:1]
run|--|-1 => run levels[machine] keep[128] description[-1]
run|PU:2|--walk => run levels[machine] keep[128] walk description[PU:2]
run|--receipts|PU:2 => run levels[machine] keep[128] receipts description[PU:2]
run|--levels|core,machine|--locks|clh-tkt|--keep|7|Core:2 PU:1 => run levels[core,machine] locks[clh-tkt] keep[7] description[Core:2 PU:1]
run|--keep=|--walk|--levels=|--locks=| => run levels[] locks[] keep[] walk description[]
run|--levels=--walk|--keep=a=b|--|--walk => run levels[--walk] keep[a=b] description[--walk]
run|--threads|1|PU:2 => run levels[machine] keep[128] threads[1] quantum[1] description[PU:2]
run|--quantum=65535|--threads=256 => run levels[machine] keep[128] threads[256] quantum[65535] description[PU:1]
run|PU:2|--threads|012|--quantum|01 => run levels[machine] keep[128] threads[12] quantum[1] description[PU:2]";

#[test]
fn reads_runs(rt: HostRuntime) -> Result<(), Fail> {
    asks(&rt, rt.alloc(), RUNS)
}

const CHECKS: &str = "check => check levels[machine] keep[128] description[PU:1]
check|--keep=7|Core:2 PU:1|--levels|core => check levels[core] keep[7] description[Core:2 PU:1]
check|--keep=|--levels=|--|--keep => check levels[] keep[] description[--keep]";

#[test]
fn reads_checks(rt: HostRuntime) -> Result<(), Fail> {
    asks(&rt, rt.alloc(), CHECKS)
}

const FAULTS: &[(WordsFault, &str)] = &[
    (WordsFault::Usage, "usage"),
    (WordsFault::OutOfMemory, "out of memory"),
];

// Each fault has its words.
#[test]
fn tells_each_fault(rt: HostRuntime) -> Result<(), Fail> {
    for (fault, wanted) in FAULTS {
        let told = format!(in rt.alloc(); "{fault}")?;
        assert_eq!(rt; told.as_str(), *wanted);
    }
    Ok(())
}

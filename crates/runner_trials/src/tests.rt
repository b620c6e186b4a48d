//! Sections, places and the printed text, by hand.
ghost use Rattle.std.specs.Prelude.{◌≡◌, ◌<◌, ◌^◌, ◌++◌, ◌∷◌, [], length, OnOk};
ghost use Rattle.mc_text.specs.Commands.{commands_left};
ghost use Rattle.kv_history.specs.Log.{calls};
ghost use Rattle.runner_trials.specs.Giving.{HasLeft};

use keep_local::Turn;
use kv_history::Journal;
use mc_text::Commands;
use out_of_memory::OutOfMemory;
use placed_runner::SectionFault::{self, BadHead, BadPlace, Short};
use placed_runner::{Section, read_sections, text};
use std::alloc::Global;
use std::process::Abort;
use std::test::Fail;
use synth_text::read;
use topo_tree::{Topology, Tree};

mod checks;
mod top;

// The PUs and the sections of two callers, their turns (who has it, and the levels at which that one found and left the lock), and the
// text of the run.
type Run = (
    (u32, u32),
    &'static [u8],
    &'static [u8],
    &'static [(u32, u32, u32, u32)],
    &'static [u8],
);

const FAULTS: &[(&[u8], SectionFault)] = &[
    (b"walker * 0\n\n", BadHead { at: 0 }),
    (b"worker * 0", BadHead { at: 0 }),
    (b"worker  0\n\n", BadHead { at: 0 }),
    (b"worker *  0\n\n", BadHead { at: 0 }),
    (b"worker * 0 \n\n", BadHead { at: 0 }),
    (b"worker * \n\n", BadHead { at: 0 }),
    (b"worker *\n\n", BadHead { at: 0 }),
    (b"worker * +1\na\n", BadHead { at: 0 }),
    (b"worker * 00000000000\n\n", BadHead { at: 0 }),
    (b"\n", BadHead { at: 0 }),
    (b"worker pu:x y\n", BadHead { at: 0 }),
    (b"worker pu:4 0\n\n", BadPlace { at: 0 }),
    (b"worker core:0 0\n\n", BadPlace { at: 0 }),
    (b"worker numa:0 0\n\n", BadPlace { at: 0 }),
    (b"worker ** 0\n\n", BadPlace { at: 0 }),
    (b"worker 0x10 0\n\n", BadPlace { at: 0 }),
    (b"worker 0x3 0\n\n", BadPlace { at: 0 }),
    (b"worker pu:9 99\n", BadPlace { at: 0 }),
    (b"worker * 9\nget a\r\n\n", Short { at: 0 }),
    (b"worker * 1\na", Short { at: 0 }),
    (b"worker * 1\nab\n", Short { at: 0 }),
    (b"worker * 9999999999\n", Short { at: 0 }),
    (b"worker * 0\n\nx", BadHead { at: 12 }),
    (b"worker * 0\n\nworker pu:4 0\n\n", BadPlace { at: 12 }),
    (b"worker * 2\n\n\n\nworker * 1\n\n", Short { at: 14 }),
];

const PLACES: &[(&[u8], &[u8], &[u32])] = &[
    (b"PU:1", b"", &[]),
    (b"PU:1", b"worker * 0000000001\na\n", &[0]),
    (
        b"Package:2 Core:2 PU:2",
        b"worker * 0\n\nworker * 0\n\nworker * 0\n\nworker * 0\n\n",
        &[0, 2, 4, 6],
    ),
    (
        b"Package:2 Core:2 PU:2",
        b"worker pu:5 0\n\nworker * 0\n\nworker core:1.pu:1 0\n\n",
        &[5, 2, 3],
    ),
    (
        b"PU:2(indexes=1,0)",
        b"worker pu:0 0\n\nworker 0x1 0\n\n",
        &[0, 1],
    ),
    (
        b"Core:2 [NUMANode] PU:1",
        b"worker numa:1 0\n\nworker core:0 0\n\n",
        &[1, 0],
    ),
];

const WORDS: &[(SectionFault, &str)] = &[
    (BadHead { at: 12 }, "the head at byte 12"),
    (BadPlace { at: 3 }, "the place of the head at byte 3"),
    (Short { at: 0 }, "the bytes behind the head at byte 0"),
    (SectionFault::TooManyCallers, "more than 256 sections"),
    (SectionFault::OutOfMemory, "out of memory"),
];

const THREE_LEVELS: &[Run] = &[(
    (3, 0),
    b"set a 5 0 3\r\n\x01\"\xff\r\nquit\r\nget a\r\n",
    b"get a\r\nge",
    &[(0, 2, 1, 0), (1, 0, 2, 1), (0, 1, 0, 2)],
    b"turn 0 caller 0 pu 3 climb 2 tests 1 left 0 \"set a 5 0 3\\r\\n\\x01\\\"\\xff\\r\\n\" \"STORED\\r\\n\"\n\
          turn 1 caller 1 pu 0 climb 0 tests 2 left 1 \"get a\\r\\n\" \"VALUE a 5 3\\r\\n\\x01\\\"\\xff\\r\\nEND\\r\\n\"\n\
          turn 2 caller 0 pu 3 climb 1 tests 0 left 2 \"quit\\r\\n\" \"\"\n\
          caller 0 pu 3 commands 2 rest 7\n\
          caller 1 pu 0 commands 1 rest 2\n",
)];

// Numbers of up to ten digits.
const DIGITS: &[Run] = &[
    (
        (7, 0),
        b"quit\r\n",
        b"",
        &[(0, 4_294_967_295, 2_147_483_647, 1_000_000_000)],
        b"turn 0 caller 0 pu 7 climb 4294967295 tests 2147483647 left 1000000000 \"quit\\r\\n\" \"\"\n\
          caller 0 pu 7 commands 1 rest 0\n\
          caller 1 pu 0 commands 0 rest 0\n",
    ),
    (
        (7, 0),
        b"\n\n\n",
        b"",
        &[
            (0, 4_294_967_295, 2_147_483_647, 1_000_000_000),
            (0, 999_999_999, 9, 10),
            (0, 9, 99, 0),
        ],
        b"turn 0 caller 0 pu 7 climb 4294967295 tests 2147483647 left 1000000000 \"\\n\" \"ERROR\\r\\n\"\n\
          turn 1 caller 0 pu 7 climb 999999999 tests 9 left 10 \"\\n\" \"ERROR\\r\\n\"\n\
          turn 2 caller 0 pu 7 climb 9 tests 99 left 0 \"\\n\" \"ERROR\\r\\n\"\n\
          caller 0 pu 7 commands 3 rest 0\n\
          caller 1 pu 0 commands 0 rest 0\n",
    ),
];

// The moment is the store's, and so every caller's.
const MOMENTS: &[u8] =
    b"moment 100\r\nset a 0 50 1\r\nx\r\nmoment 149\r\nget a\r\nmoment 150\r\nget a\r\nmoment 10\r\n";

const ONE_MOMENT: &[Run] = &[(
    (0, 0),
    MOMENTS,
    b"moment 149\r\nset a 0 1 1\r\ny\r\ngets a\r\nmoment 151\r\ngets a\r\n",
    &[
        (0, 0, 0, 0),
        (0, 0, 0, 0),
        (0, 0, 0, 0),
        (0, 0, 0, 0),
        (0, 0, 0, 0),
        (0, 0, 0, 0),
        (0, 0, 0, 0),
        (1, 0, 0, 0),
        (1, 0, 0, 0),
        (1, 0, 0, 0),
        (1, 0, 0, 0),
        (1, 0, 0, 0),
    ],
    b"turn 0 caller 0 pu 0 climb 0 tests 0 left 0 \"moment 100\\r\\n\" \"OK\\r\\n\"\n\
          turn 1 caller 0 pu 0 climb 0 tests 0 left 0 \"set a 0 50 1\\r\\nx\\r\\n\" \"STORED\\r\\n\"\n\
          turn 2 caller 0 pu 0 climb 0 tests 0 left 0 \"moment 149\\r\\n\" \"OK\\r\\n\"\n\
          turn 3 caller 0 pu 0 climb 0 tests 0 left 0 \"get a\\r\\n\" \"VALUE a 0 1\\r\\nx\\r\\nEND\\r\\n\"\n\
          turn 4 caller 0 pu 0 climb 0 tests 0 left 0 \"moment 150\\r\\n\" \"OK\\r\\n\"\n\
          turn 5 caller 0 pu 0 climb 0 tests 0 left 0 \"get a\\r\\n\" \"END\\r\\n\"\n\
          turn 6 caller 0 pu 0 climb 0 tests 0 left 0 \"moment 10\\r\\n\" \"CLIENT_ERROR moment goes back\\r\\n\"\n\
          turn 7 caller 1 pu 0 climb 0 tests 0 left 0 \"moment 149\\r\\n\" \"CLIENT_ERROR moment goes back\\r\\n\"\n\
          turn 8 caller 1 pu 0 climb 0 tests 0 left 0 \"set a 0 1 1\\r\\ny\\r\\n\" \"STORED\\r\\n\"\n\
          turn 9 caller 1 pu 0 climb 0 tests 0 left 0 \"gets a\\r\\n\" \"VALUE a 0 1 2\\r\\ny\\r\\nEND\\r\\n\"\n\
          turn 10 caller 1 pu 0 climb 0 tests 0 left 0 \"moment 151\\r\\n\" \"OK\\r\\n\"\n\
          turn 11 caller 1 pu 0 climb 0 tests 0 left 0 \"gets a\\r\\n\" \"END\\r\\n\"\n\
          caller 0 pu 0 commands 7 rest 0\n\
          caller 1 pu 0 commands 5 rest 0\n",
)];

fn topology(rt: &impl Abort, alloc: Global, text: &[u8]) -> Topology {
    let Ok(description) = read(alloc, text) else {
        panic!(rt; "not a description");
    };
    let Ok(topology) = Topology::build(alloc, description) else {
        panic!(rt; "not a topology");
    };
    topology
}

fn expect_fault(
    rt: &impl Abort,
    alloc: Global,
    topology: &Topology,
    input: &[u8],
    want: SectionFault,
) {
    match read_sections(alloc, topology, input) {
        Ok(_) => panic!(rt; "sections"),
        Err(fault) => assert_eq!(rt; fault, want),
    }
}

fn expect_faults(rt: &impl Abort, alloc: Global, topology: &Topology) {
    for (input, want) in FAULTS {
        expect_fault(rt, alloc, topology, input, *want);
    }
}

#[test]
fn refuses_the_first_broken_rule(rt: HostRuntime) {
    let text = b"Package:1 [NUMANode] Core:2 PU:2";
    expect_faults(&rt, rt.alloc(), &topology(&rt, rt.alloc(), text));
}

fn expect_tree_sections(rt: &impl Abort, alloc: Global, tree: &Tree) {
    let input = b"worker pu:1 0\n\nworker 0x1 1\na\n";
    let sections = read_sections(alloc, tree, input).expect(rt, "sections");
    assert!(rt; are_on(&sections, &[1, 1]));
}

#[test]
fn reads_sections_on_a_tree(rt: HostRuntime) -> Result<(), Fail> {
    let tree = Tree::build(rt.alloc(), read(rt.alloc(), b"PU:2(indexes=1,0)")?)?;
    expect_tree_sections(&rt, rt.alloc(), &tree);
    Ok(())
}

// Whether sections stand on these PUs.
fn are_on(sections: &[Section<'_>], pus: &[u32]) -> bool {
    if sections.len() != pus.len() {
        return false;
    }
    for place in 0..pus.len() {
        if sections[place].pu != pus[place] {
            return false;
        }
    }
    true
}

fn expect_places(rt: &impl Abort, alloc: Global, topology: &Topology, input: &[u8], want: &[u32]) {
    let sections = read_sections(alloc, topology, input).expect(rt, "sections");
    assert!(rt; are_on(&sections, want), "at {want:?}");
}

#[test]
fn reads_places(rt: HostRuntime) {
    let alloc = rt.alloc();
    for (description, input, want) in PLACES {
        expect_places(&rt, alloc, &topology(&rt, alloc, description), input, want);
    }
}

fn expect_256_sections(
    rt: &impl Abort,
    alloc: Global,
    topology: &Topology,
    input: &mut Vec<u8>,
) -> Result<(), Fail> {
    for _ in 0..256 {
        input.extend_from_slice(b"worker * 0\n\n")?;
    }
    assert_eq!(rt; read_sections(alloc, topology, input)?.len(), 256);
    input.extend_from_slice(b"x")?;
    expect_fault(rt, alloc, topology, input, SectionFault::TooManyCallers);
    Ok(())
}

#[test]
fn takes_256_sections(rt: HostRuntime) -> Result<(), Fail> {
    let alloc = rt.alloc();
    let mut input = Vec::new(alloc);
    expect_256_sections(&rt, alloc, &topology(&rt, alloc, b"PU:1"), &mut input)
}

// Applies the next command of a caller. Where it has none left, or memory is wanting, the journal is of no further use.
fn give<'a>(journal: &mut Journal<'a>, caller: u32, commands: &mut Commands<'a>) -> Result<(), Fail>
    requires { HasLeft journal.old.sections (calls journal.old) caller (commands_left commands.old) }
    ensures sections { journal.new.sections ≡ journal.old.sections }
    ensures called { OnOk result (calls journal.new ≡ calls journal.old ++ caller ∷ []) }
    ensures left { OnOk result (HasLeft journal.new.sections (calls journal.new) caller (commands_left commands.new)) }
{
    let Some(command) = commands.next() else {
        return Err("no command is left")?;
    };
    journal.apply(caller, command)?;
    Ok(())
}

// The text of these turns of two callers, which stand on these PUs and have these sections. Each turn applies the next command of
// its caller.
fn printed(
    alloc: Global,
    pus: (u32, u32),
    first: &[u8],
    second: &[u8],
    turns: &[Turn],
) -> Result<Vec<u8>, Fail>
    requires first { length first.now < 2 ^ 20 }
    requires second { length second.now < 2 ^ 20 }
{
    let sections = [
        Section {
            pu: pus.0,
            bytes: first,
        },
        Section {
            pu: pus.1,
            bytes: second,
        },
    ];
    let mut journal = Journal::reserve(alloc, &[first, second])?;
    let mut firsts = Commands::new(first);
    let mut seconds = Commands::new(second);
    for turn in turns {
        match turn.caller {
            0 => give(&mut journal, 0, &mut firsts)?,
            1 => give(&mut journal, 1, &mut seconds)?,
            _ => return Err("no such caller")?,
        }
    }
    if !journal.whole() {
        return Err("a void entry")?;
    }
    Ok(text(alloc, &sections, turns, &journal)?)
}

// A turn of a caller, by the levels at which it found and left the lock.
fn turn(caller: u32, climb: u32, tests: u32, left: u32) -> Turn {
    Turn {
        caller,
        climb,
        tests,
        left,
    }
}

fn turns_of(alloc: Global, rows: &[(u32, u32, u32, u32)]) -> Result<Vec<Turn>, OutOfMemory> {
    let mut turns = Vec::new(alloc);
    for (caller, climb, tests, left) in rows {
        turns.push(turn(*caller, *climb, *tests, *left))?;
    }
    Ok(turns)
}

fn expect_runs(rt: &impl Abort, alloc: Global, runs: &[Run]) -> Result<(), Fail> {
    for run in runs {
        let turns = turns_of(alloc, run.3)?;
        expect_run(rt, alloc, run, &turns)?;
    }
    Ok(())
}

fn expect_run(rt: &impl Abort, alloc: Global, run: &Run, turns: &[Turn]) -> Result<(), Fail> {
    let (pus, first, second, _, want) = *run;
    assert!(rt; first.len() < 1_048_576 && second.len() < 1_048_576);
    let text = printed(alloc, pus, first, second, turns)?;
    assert!(rt; text.as_slice() == want && text.capacity() == text.len());
    Ok(())
}

#[test]
fn prints_a_run(rt: HostRuntime) -> Result<(), Fail> {
    expect_runs(&rt, rt.alloc(), THREE_LEVELS)
}

#[test]
fn prints_numbers_of_up_to_ten_digits(rt: HostRuntime) -> Result<(), Fail> {
    expect_runs(&rt, rt.alloc(), DIGITS)
}

fn expect_moments(rt: &impl Abort, alloc: Global, topology: &Topology) {
    let input = b"worker * 78\nmoment 100\r\nset a 0 50 1\r\nx\r\nmoment 149\r\nget a\r\n\
          moment 150\r\nget a\r\nmoment 10\r\n\n";
    let sections = read_sections(alloc, topology, input).expect(rt, "sections");
    let [section] = sections.as_slice() else {
        panic!(rt; "other sections");
    };
    assert!(rt; section.bytes == MOMENTS && MOMENTS.len() == 78);
}

#[test]
fn reads_a_section_of_moments(rt: HostRuntime) {
    expect_moments(&rt, rt.alloc(), &topology(&rt, rt.alloc(), b"PU:1"));
}

#[test]
fn runs_callers_by_one_moment(rt: HostRuntime) -> Result<(), Fail> {
    expect_runs(&rt, rt.alloc(), ONE_MOMENT)
}

// Each fault has its words.
#[test]
fn tells_each_fault(rt: HostRuntime) -> Result<(), Fail> {
    for (fault, wanted) in WORDS {
        let told = format!(in rt.alloc(); "{fault}")?;
        assert_eq!(rt; told.as_str(), *wanted);
    }
    Ok(())
}

// A section of many commands.
fn many_gets(alloc: Global) -> Result<Vec<u8>, OutOfMemory> {
    let mut gets = Vec::new(alloc);
    for _ in 0..1001 {
        gets.extend_from_slice(b"get ~\r\nget \\\r\n")?;
    }
    gets.extend_from_slice(b"get 1234567")?;
    Ok(gets)
}

// A turn of the first caller, and those of the second with its many commands.
fn many_turns(alloc: Global) -> Result<Vec<Turn>, OutOfMemory> {
    let mut turns = Vec::from_slice(alloc, &[turn(0, 1, 0, 1)])?;
    for number in 0..1001 {
        turns.push(turn(1, number, number * 1000, 1))?;
        turns.push(turn(1, 0, 4_000_000_000, number))?;
    }
    Ok(turns)
}

fn expect_size(rt: &impl Abort, alloc: Global, gets: &[u8], turns: &[Turn]) -> Result<(), Fail> {
    let set = b"set ~ 0 0 4\r\n\n\x7f\x1f\"\r\n";
    assert!(rt; gets.len() < 1_048_576);
    for pus in [(0, 9), (10, 4095), (100, 99)] {
        let text = printed(alloc, pus, set, gets, turns)?;
        assert_eq!(rt; text.capacity(), text.len());
    }
    Ok(())
}

// The buffer of a text has its size, whatever digits its numbers and whatever signs its commands have.
#[test]
fn makes_a_text_in_a_buffer_of_its_size(rt: HostRuntime) -> Result<(), Fail> {
    let gets = many_gets(rt.alloc())?;
    let turns = many_turns(rt.alloc())?;
    expect_size(&rt, rt.alloc(), &gets, &turns)
}
